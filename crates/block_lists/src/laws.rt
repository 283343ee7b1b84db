//! Laws of lists.
ghost use Rattle.std.specs.Prelude.{◌≤◌, ℕ, List, length};
ghost use Rattle.block_lists.specs.Lists.{IsListOf};

/// How many bytes a list has at most: 65,536 lines of 46 bytes.
pub const MOST_BYTES: usize = 3_014_656;

/// A text of more than [`MOST_BYTES`] bytes is no list.
pub fn longest_list()
    ensures { (text : List ℕ) (blocks : List (List ℕ)) → IsListOf text blocks
        → length text ≤ MOST_BYTES }
{}
