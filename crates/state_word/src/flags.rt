//! The masks of the flags, by name.
//!
//! `Flag` is an enum, and the masks stay in the crate: an argument of a `bitflags` type could be
//! several flags, or bits without a name.

ghost use Rattle.std.specs.Prelude.{⊤, ◌≡◌, [], ◌∷◌, ◌^◌, codes};
ghost use Rattle.state_word.specs.Flags.{bit_place};

use crate::word::Flag;
use bitflags::{Flags, bitflag_items};

/// A set of flags. A state word is one too: what no flag names in it, the counts and the waiter's
/// number, goes along untouched.
#[derive(Clone, Copy, PartialEq, Eq)]
pub(crate) struct StateFlags(u64);

bitflag_items! {
    impl StateFlags: u64 {
        const LOCKED = 1 << 22;
        const DIRTY = 1 << 23;
        const VALID = 1 << 24;
        const TAG_VALID = 1 << 25;
        const IO_IN_PROGRESS = 1 << 26;
        const IO_ERROR = 1 << 27;
        const JUST_DIRTIED = 1 << 28;
        const PIN_COUNT_WAITER = 1 << 29;
        const CHECKPOINT_NEEDED = 1 << 30;
        const PERMANENT = 1 << 31;
    }
}

impl Flags for StateFlags {
    type Bits = u64;

    ghost exact = { ⊤ };

    ghost table = { (codes "LOCKED", 2 ^ 22)
        ∷ (codes "DIRTY", 2 ^ 23)
        ∷ (codes "VALID", 2 ^ 24)
        ∷ (codes "TAG_VALID", 2 ^ 25)
        ∷ (codes "IO_IN_PROGRESS", 2 ^ 26)
        ∷ (codes "IO_ERROR", 2 ^ 27)
        ∷ (codes "JUST_DIRTIED", 2 ^ 28)
        ∷ (codes "PIN_COUNT_WAITER", 2 ^ 29)
        ∷ (codes "CHECKPOINT_NEEDED", 2 ^ 30)
        ∷ (codes "PERMANENT", 2 ^ 31)
        ∷ [] };

    ghost set_of = { λ flags. flags.0 };

    fn flags<'a>() -> &'a [bitflags::Flag<StateFlags>] {
        StateFlags::FLAGS
    }

    fn bits(&self) -> u64 {
        self.0
    }

    fn from_bits_retain(bits: u64) -> StateFlags {
        StateFlags(bits)
    }
}

impl From<Flag> for StateFlags {
    ghost from_gives = { λ flag flags. flags.0 ≡ 2 ^ bit_place flag };

    fn from(flag: Flag) -> StateFlags {
        match flag {
            Flag::Locked => StateFlags::LOCKED,
            Flag::Dirty => StateFlags::DIRTY,
            Flag::Valid => StateFlags::VALID,
            Flag::TagValid => StateFlags::TAG_VALID,
            Flag::IoInProgress => StateFlags::IO_IN_PROGRESS,
            Flag::IoError => StateFlags::IO_ERROR,
            Flag::JustDirtied => StateFlags::JUST_DIRTIED,
            Flag::PinCountWaiter => StateFlags::PIN_COUNT_WAITER,
            Flag::CheckpointNeeded => StateFlags::CHECKPOINT_NEEDED,
            Flag::Permanent => StateFlags::PERMANENT,
        }
    }
}
