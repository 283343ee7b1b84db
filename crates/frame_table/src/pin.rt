//! Tokens of pins.

/// A pin of a frame. The call that gives the pin up takes it.
pub struct Pin {
    pub(crate) frame: u32,
}

impl Pin {
    ghost use Rattle.std.specs.Prelude.{◌≡◌};

    pub fn frame(&self) -> u32
        ensures { result ≡ self.now.frame }
    {
        self.frame
    }
}

/// Why a frame was not pinned.
#[derive(Clone, Copy, PartialEq, Eq, Debug)]
pub enum TryPin {
    /// Its header is locked.
    Locked { word: u64 },
    /// It has no tag.
    Untagged { word: u64 },
    /// Its state word changed from the one to the other.
    Changed { was: u64, now: u64 },
}
