//! Texts that wait for those before them.
//!
//! A worker that waits at the window waits for one that reads: the worker of the lowest chunk that
//! was claimed and not delivered never waits, since its chunk is next and its slot is free. Those
//! that wait hold no pin, latch or lock. `deliver` also answers `Later` for a chunk that was put
//! before, or whose slot is full, which can't happen: a chunk is claimed once.
ghost use Rattle.std.specs.Prelude.{◌≡◌, ◌<◌, ◌↔◌, ◌∷◌, ◌++◌, [], None, Some, true, false, drop};
ghost use Rattle.std.specs.Prelude.{length, replicate, slice_index_or, slice_set, IfOk, IsTrue};

use std::alloc::{AllocError, Global};
use std::collections::VecDeque;
use std::marker::Model;
use std::mem;

/// A buffer, and whether it has a text.
#[derive(Drop)]
struct TextSlot {
    text: Vec<u8>,
    full: bool,
}

/// A slot for the text of each of the next chunks.
#[derive(Drop)]
pub struct Waiting {
    slots: VecDeque<TextSlot>,
}

impl Model for Waiting {
    ghost use Rattle.std.specs.Prelude.{List, Option, ℕ};
    ghost use Rattle.text_window.specs.Slots.{texts_in};

    ghost Value = { List (Option (List ℕ)) };

    ghost view = { λ w. texts_in w.slots.items };
}

impl Waiting {
    /// Returns `width` free slots.
    pub fn build(alloc: Global, width: u32) -> Result<Waiting, AllocError>
        ensures { IfOk result (λ w. w ≡ replicate width None) }
    {
        let mut slots = VecDeque::with_capacity(alloc, width as usize)?;
        for _ in 0..width {
            slots.push_back_reserved(TextSlot {
                text: Vec::new(alloc),
                full: false,
            });
        }
        Ok(Waiting { slots })
    }

    /// Puts the text into the slot so far ahead, and leaves that slot's buffer in `text`. Says
    /// whether there is such a slot and it was free.
    pub fn put_in(&mut self, ahead: usize, text: &mut Vec<u8>) -> bool
        ensures answer { IsTrue result ↔
            ((ahead < length self.old) × (slice_index_or self.old ahead None ≡ None)) }
        ensures put { result ≡ true → self.new ≡ slice_set self.old ahead (Some text.old.items) }
        ensures same { result ≡ false → (self.new ≡ self.old) × (text.new ≡ text.old) }
    {
        let Some(slot) = self.slots.get_mut(ahead) else {
            return false;
        };
        if slot.full {
            return false;
        }
        mem::swap(&mut slot.text, text);
        slot.full = true;
        true
    }

    /// Takes the text out of the first slot, and leaves the given buffer there. Says whether there
    /// was a text.
    pub fn take(&mut self, text: &mut Vec<u8>) -> bool
        ensures took { result ≡ true → (0 < length self.old)
            × (slice_index_or self.old 0 None ≡ Some text.new.items)
            × (self.new ≡ slice_set self.old 0 None) }
        ensures none { result ≡ false → (self.new ≡ self.old) × (text.new ≡ text.old)
            × (slice_index_or self.old 0 None ≡ None) }
    {
        let Some(slot) = self.slots.front_mut() else {
            return false;
        };
        if !slot.full {
            return false;
        }
        mem::swap(&mut slot.text, text);
        slot.full = false;
        true
    }

    /// Goes on by one chunk: the first slot becomes the last one, and is free.
    pub fn shift(&mut self)
        requires { 0 < length self.old }
        ensures { self.new ≡ drop 1 self.old ++ None ∷ [] }
    {
        if let Some(mut slot) = self.slots.pop_front() {
            slot.full = false;
            self.slots.push_back_reserved(slot);
        }
    }
}
