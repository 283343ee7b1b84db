//! The rule of the free list, and what a backend has of it.
//!
//! A frame may be listed twice: a push searches nothing, unlike PostgreSQL's with `freeNext`. A
//! frame from the list is only tried, under its header. If the list is full, `free` is false, and
//! the clock finds the frame.
//!
//! The right to know the whole list is cut into 64 parts, as many as there may be passes. Only the
//! pass with all parts, as a manager is closed, knows the rule as an equation: each frame was taken
//! once, and once more for each time that it was pushed, unless it is still in the list.

use crossbeam_queue::Pass;
use crossbeam_queue::protocol::{Join, Lesson, Outcome, Protocol, Split};
use std::collections::LinkedList;
use std::marker::Model;

/// What a backend knows of the free list: its parts of the right to know the whole, of how many
/// frames the list was made, and the frames that it pushed and took, in order. No value of it is
/// made.
pub struct QueueView {
    pub parts: u64,
    pub frames: u32,
    pub pushed: LinkedList<u32>,
    pub taken: LinkedList<u32>,
}

/// The rule: each frame of the pool was listed once, and then each time that it was pushed, and was
/// taken or is still there.
pub(crate) struct FreeFrames;

impl Protocol<u32, QueueView> for FreeFrames {
    ghost use Rattle.std.specs.Prelude.{[]};
    ghost use Rattle.clock_sweep.specs.FreeFrames.{Accounts, all_parts, queue_view};

    ghost holds = { Accounts };

    ghost first = { queue_view all_parts 0 [] [] };
}

/// The next frame is listed, as the list is made.
pub(crate) struct Filling;

impl Outcome<u32, QueueView> for Filling {
    ghost use Rattle.std.specs.Prelude.{◌≡◌, ◌+◌};
    ghost use Rattle.clock_sweep.specs.FreeFrames.{queue_view};

    ghost then = { λ v f w. w ≡ queue_view v.parts (v.frames + 1) v.pushed v.taken };
}

/// A frame is pushed.
pub(crate) struct Freeing;

impl Outcome<u32, QueueView> for Freeing {
    ghost use Rattle.std.specs.Prelude.{◌≡◌};
    ghost use Rattle.clock_sweep.specs.FreeFrames.{with_pushed};

    ghost then = { λ v f w. w ≡ with_pushed f v };
}

impl Lesson<u32, QueueView> for Freeing {
    ghost use Rattle.clock_sweep.specs.FreeFrames.{IsAmong};

    ghost fact = { IsAmong };
}

/// A frame is taken.
pub(crate) struct Taking;

impl Outcome<u32, QueueView> for Taking {
    ghost use Rattle.std.specs.Prelude.{◌≡◌, ◌<◌};
    ghost use Rattle.clock_sweep.specs.FreeFrames.{with_taken};

    ghost then = { λ v f w. (f < v.frames) × (w ≡ with_taken f v) };
}

impl Lesson<u32, QueueView> for Taking {
    ghost use Rattle.clock_sweep.specs.FreeFrames.{IsAmong};

    ghost fact = { IsAmong };
}

/// A part is cut off, and comes back.
pub(crate) struct Parting;

impl Split<QueueView> for Parting {
    ghost use Rattle.clock_sweep.specs.FreeFrames.{kept_part, new_part};

    ghost left = { kept_part };

    ghost right = { new_part };
}

impl Join<QueueView> for Parting {
    ghost use Rattle.clock_sweep.specs.FreeFrames.{joined_parts, no_part};

    ghost both = { joined_parts };

    ghost spent = { no_part };
}

/// A backend's pass of the free list: only its calls change what it knows. Contracts see of which
/// queue it is, and what it knows.
#[derive(Drop)]
pub struct QueuePass {
    pub(crate) pass: Pass<u32, QueueView>,
}

impl Model for QueuePass {
    ghost use Rattle.std.specs.Prelude.{◌≡◌, ◌<◌, []};
    ghost use Rattle.clock_sweep.specs.FreeFrames.{QueueState};

    ghost Value = { QueueState };

    ghost view = { λ p. record { queue = p.pass.table_id; known = p.pass.me.0.client } };

    // It holds none of the queue's slots, and has a part.
    ghost invariant = { λ p. (p.pass.me.1 ≡ []) × (0 < p.pass.me.0.client.parts) };
}
