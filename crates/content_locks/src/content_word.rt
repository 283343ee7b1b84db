//! What a content word shows.
ghost use Rattle.std.specs.Prelude.{◌≡◌};
ghost use Rattle.frame_table.specs.Content.{has_copying, has_exclusive};

use frame_table::{COPYING, EXCLUSIVE};

/// Whether a backend has the content lock exclusively.
pub(crate) fn is_exclusive(word: u64) -> bool
    ensures { result ≡ has_exclusive word }
{
    word / EXCLUSIVE % 2 == 1
}

/// Whether a sharer has the copy latch.
pub(crate) fn is_copying(word: u64) -> bool
    ensures { result ≡ has_copying word }
{
    word / COPYING % 2 == 1
}
