//! The words of a census.
ghost use Rattle.std.specs.Prelude.{◌≡◌, ◌<◌, ◌++◌, ◌∷◌, [], IfOk, length};
ghost use Rattle.clock_sweep.specs.CensusList.{new_census};

use access_rings::Memory;
use std::alloc::Global;
use std::marker::Model;

/// The words that a choice loaded if it found each frame pinned, one for each frame, in order. It
/// is empty after a choice that found a frame. Each backend has its own.
/// Contracts see for how many frames it has room, and the list of words.
#[derive(Drop)]
pub struct Census {
    words: Vec<u64>,
    frames: u32,
}

impl Model for Census {
    ghost use Rattle.std.specs.Prelude.{◌≤◌, vec_capacity};
    ghost use Rattle.clock_sweep.specs.CensusList.{CensusList, census_list};

    ghost Value = { CensusList };

    ghost view = { λ c. census_list c.frames c.words.items };

    ghost invariant = { λ c. c.frames ≤ vec_capacity c.words };
}

impl Census {
    /// An empty census with room for so many frames. Nothing is allocated later on.
    pub fn build(alloc: Global, frames: u32) -> Result<Census, Memory>
        ensures { IfOk result (λ census. census ≡ new_census frames) }
    {
        let words = Vec::with_capacity(alloc, frames as usize)?;
        Ok(Census { words, frames })
    }

    /// The words of the frames from frame 0 on, as they were loaded. They are of different moments.
    pub fn census(&self) -> &[u64]
        ensures { result.now ≡ self.now.words }
    {
        &self.words
    }

    /// No words any more.
    pub(crate) fn clear(&mut self)
        ensures { self.new ≡ new_census self.old.frames }
    {
        self.words.clear();
    }

    /// The word of the next frame.
    pub(crate) fn note(&mut self, word: u64)
        requires { length self.old.words < self.old.frames }
        ensures { self.new ≡ record self.old { words = self.old.words ++ word ∷ [] } }
    {
        self.words.push_reserved(word);
    }
}
