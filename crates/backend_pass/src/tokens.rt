//! Tokens of pins with content locks.

use crate::pinned::Pinned;

/// A token with the content lock of its frame, shared. `Pass::unshare` gives the lock up.
pub struct Shared {
    pub(crate) pinned: Pinned,
}

impl Shared {
    ghost use Rattle.std.specs.Prelude.{◌≡◌};

    /// The token that the lock was taken with.
    pub fn pinned(&self) -> &Pinned
        ensures { result.now ≡ self.now.pinned }
    {
        &self.pinned
    }
}

/// A token with the content lock of its frame, exclusively. `Pass::unexclusive` gives the lock up.
pub struct Exclusive {
    pub(crate) pinned: Pinned,
}

impl Exclusive {
    ghost use Rattle.std.specs.Prelude.{◌≡◌};

    /// The token that the lock was taken with.
    pub fn pinned(&self) -> &Pinned
        ensures { result.now ≡ self.now.pinned }
    {
        &self.pinned
    }
}
