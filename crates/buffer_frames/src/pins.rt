//! The list of a backend's pins.
//!
//! Between two calls a backend's view has the pins that its tokens say and nothing else, content
//! locks aside (`OnlyTokens`).

use block_tag::Tag;
use frame_table::Pin;
use std::alloc::{AllocError, Global};
use std::marker::Model;

/// The most tokens that a backend may give to its callers at a time.
pub const MOST_TOKENS: u32 = 8;

/// The pin of a frame, the tag of its block, and how many tokens callers have of it.
pub struct HeldPin {
    pub(crate) pin: Pin,
    pub(crate) tag: Tag,
    pub(crate) tokens: u32,
}

/// The pins that a backend has handed out, a frame at most once. Contracts see the frames, each
/// with its tag and the number of tokens.
pub struct HeldPins {
    pins: Vec<HeldPin>,
    count: u32,
}

impl Model for HeldPins {
    ghost use Rattle.std.specs.Prelude.{◌≡◌, ◌≤◌, List, vec_capacity, vec_len};
    ghost use Rattle.buffer_frames.specs.Tokens.{AreOfBlocks, HeldFrame, TokensAreCounted};
    ghost use Rattle.buffer_frames.specs.Tokens.{count_of, held_in};

    ghost Value = { List HeldFrame };

    ghost view = { λ h. held_in h.pins.items };

    ghost invariant = { λ h. (h.count ≡ count_of (held_in h.pins.items)) × (h.count ≤ 8)
        × TokensAreCounted (held_in h.pins.items) × AreOfBlocks h.pins.items
        × (vec_len h.pins ≤ h.count) × (8 ≤ vec_capacity h.pins) };
}

ghost use Rattle.std.specs.Prelude.{◌≡◌, ◌<◌, None, IfSome, IfNone, length};
ghost use Rattle.buffer_frames.specs.Tokens.{AreOfOthers, IsOf, StandsAt, held_at, held_in};

/// The index of the pin of a frame.
fn place_at(pins: &[HeldPin], frame: u32) -> Option<usize>
    ensures found { IfSome result (λ place. StandsAt frame place pins.now) }
    ensures missing { IfNone result (held_at (held_in pins.now) frame ≡ None) }
{
    for place in 0..pins.len() {
        if pins[place].pin.frame() == frame {
            return Some(place);
        }
    }
    None
}

/// The index of the pin of a block.
fn place_of(pins: &[HeldPin], tag: &Tag) -> Option<usize>
    ensures found { IfSome result
        (λ place. (place < length pins.now) × IsOf tag.now place pins.now) }
    ensures missing { IfNone result (AreOfOthers tag.now pins.now) }
{
    for place in 0..pins.len() {
        if pins[place].tag == *tag {
            return Some(place);
        }
    }
    None
}

impl HeldPins {
    ghost use Rattle.std.specs.Prelude.{◌≡◌, ◌≢◌, ◌<◌, true, false, None, Some, IfOk, IfSome};
    ghost use Rattle.std.specs.Prelude.{IfNone};
    ghost use Rattle.block_tag.specs.Names.{names_block, packed_tag};
    ghost use Rattle.buffer_frames.specs.Tokens.{IsNew, IsPinnedFor, count_of, held_at, no_tokens};
    ghost use Rattle.buffer_frames.specs.Tokens.{tokens_less, tokens_more, tokens_of, tokens_with};

    /// No pins, with room for as many as there may be tokens. Nothing is allocated later on.
    pub fn build(alloc: Global) -> Result<HeldPins, AllocError>
        ensures { IfOk result (λ held. held ≡ no_tokens) }
    {
        let pins = Vec::with_capacity(alloc, MOST_TOKENS as usize)?;
        Ok(HeldPins { pins, count: 0 })
    }

    /// Whether callers have as many tokens as they may.
    pub fn is_full(&self) -> bool
        ensures full { result ≡ true → count_of self.now ≡ MOST_TOKENS }
        ensures room { result ≡ false → count_of self.now < MOST_TOKENS }
    {
        self.count >= MOST_TOKENS
    }

    /// The frame that is pinned for the block.
    pub fn frame_of(&self, tag: &Tag) -> Option<u32>
        requires { names_block tag.now ≡ true }
        ensures pinned { IfSome result (λ frame. IsPinnedFor tag.now frame self.now) }
        ensures new { IfNone result (IsNew tag.now self.now) }
    {
        let place = place_of(&self.pins, tag)?;
        Some(self.pins[place].pin.frame())
    }

    /// How many tokens callers have of the frame.
    pub fn tokens(&self, frame: u32) -> u32
        ensures { result ≡ tokens_of (held_at self.now frame) }
    {
        match place_at(&self.pins, frame) {
            Some(place) => self.pins[place].tokens,
            None => 0,
        }
    }

    /// Whether a frame is pinned.
    pub fn holds(&self, frame: u32) -> bool
        ensures held { result ≡ true → held_at self.now frame ≢ None }
        ensures none { result ≡ false → held_at self.now frame ≡ None }
    {
        match place_at(&self.pins, frame) {
            Some(_place) => true,
            None => false,
        }
    }

    /// One more token of a frame that is pinned.
    pub fn add_token(&mut self, frame: u32)
        requires pinned { held_at self.old frame ≢ None }
        requires room { count_of self.old < MOST_TOKENS }
        ensures tokens { self.new ≡ tokens_more frame self.old }
        ensures several { 1 < tokens_of (held_at self.new frame) }
        ensures back { tokens_less frame self.new ≡ self.old }
    {
        let Some(place) = place_at(&self.pins, frame) else {
            unreachable!()
        };
        self.count += 1;
        self.pins[place].tokens += 1;
    }

    /// The first token of a frame that was just pinned.
    pub fn add_pin(&mut self, pin: Pin, tag: Tag)
        requires new { held_at self.old pin.frame ≡ None }
        requires room { count_of self.old < MOST_TOKENS }
        requires tag { names_block tag ≡ true }
        ensures tokens { self.new ≡ tokens_with pin.frame (packed_tag tag) self.old }
        ensures back { tokens_less pin.frame self.new ≡ self.old }
    {
        self.count += 1;
        self.pins.push_reserved(HeldPin {
            pin,
            tag,
            tokens: 1,
        });
    }

    /// A token of the frame comes back. With the last one its pin goes out, to be given up.
    pub fn take_token(&mut self, frame: u32) -> Option<Pin>
        requires pinned { held_at self.old frame ≢ None }
        ensures tokens { self.new ≡ tokens_less frame self.old }
        ensures last { IfSome result
            (λ pin. (pin.frame ≡ frame) × (tokens_of (held_at self.old frame) ≡ 1)
            × (held_at self.new frame ≡ None)) }
        ensures others { IfNone result
            ((1 < tokens_of (held_at self.old frame)) × (held_at self.new frame ≢ None)) }
    {
        let Some(place) = place_at(&self.pins, frame) else {
            unreachable!()
        };
        self.count -= 1;
        if self.pins[place].tokens > 1 {
            self.pins[place].tokens -= 1;
            return None;
        }
        let HeldPin {
            pin,
            tag: _,
            tokens: _,
        } = self.pins.remove(place);
        Some(pin)
    }

    /// The end of a list without pins.
    pub fn spend(self)
        requires { self ≡ no_tokens }
    {
        let HeldPins { pins, count: _ } = self;
        pins.destroy_empty();
    }
}
