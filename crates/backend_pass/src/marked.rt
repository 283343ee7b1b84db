//! The frames that a pass's checkpoint has marked.
//!
//! The list has room for all frames from the start, as `CkptBufferIds` has. PostgreSQL sorts by
//! tablespace first, to balance the writes over tablespaces.
ghost use Rattle.std.specs.Prelude.{◌≡◌, ◌<◌, ◌++◌, ◌∷◌, [], length};
ghost use Rattle.std.specs.List.Sorted.{IsNonDecreasingBy, IsPermutation};

use crate::pass::Pass;

/// A frame that a checkpoint has to write, and the packed tag that the frame had as it was marked.
#[derive(Clone, Copy, PartialEq, Eq)]
pub struct MarkedFrame {
    pub tag: u64,
    pub frame: u32,
}

impl Pass {
    /// The frames that the pass's checkpoint has marked.
    pub fn marked(&self) -> &[MarkedFrame]
        ensures { result.now ≡ self.now.marked }
    {
        &self.marked
    }

    /// Empties the list of marked frames.
    pub fn forget_marked(&mut self)
        ensures { self.new ≡ record self.old { marked = [] } }
    {
        self.marked.clear();
    }

    /// Adds a frame to the list, which has room for each frame of the pool.
    pub fn note_marked(&mut self, marked: MarkedFrame)
        requires { length self.old.marked < self.old.census.frames }
        ensures { self.new ≡ record self.old { marked = self.old.marked ++ marked ∷ [] } }
    {
        self.marked.push_reserved(marked);
    }

    /// Sorts the list by tag.
    pub fn sort_marked(&mut self)
        ensures same { self.new ≡ record self.old { marked = self.new.marked } }
        ensures moved { IsPermutation self.old.marked self.new.marked }
        ensures sorted { IsNonDecreasingBy (λ m. m.tag) self.new.marked }
    {
        self.marked.sort_unstable_by_key(|m| m.tag);
    }
}
