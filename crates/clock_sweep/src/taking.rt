//! A frame of the ring, or of the free list, is taken: that is decided under its header.
ghost use Rattle.std.specs.Prelude.{◌≡◌, ◌<◌, ◌≤◌, IfNone, IfSome};
ghost use Rattle.std.specs.Bool.{OnFalse, OnTrue};
ghost use Rattle.state_word.specs.Fields.{fields};
ghost use Rattle.pin_core.specs.Steps.{HoldsNoHeader};
ghost use Rattle.frame_table.specs.Seats.{IsSeat, SameSeat, frames_of};
ghost use Rattle.clock_sweep.specs.Choosing.{IsFit, IsUnfit, Skips, Takes, is_ring, usage_allowed};

use crate::held::LockedFrame;
use atomic_table::Seat;
use byte_devices::LogDevice;
use frame_table::{FrameTable, Value};
use pin_core::View;
use segment_store::BlockLane;
use state_word::{pins, usage};
use std::sync::Wait;

/// Where a frame that may be taken comes from.
#[derive(Clone, Copy)]
pub(crate) enum Origin {
    /// The ring's current place.
    Ring,
    /// Elsewhere in the pool.
    Pool,
}

impl Origin {
    ghost use Rattle.std.specs.Prelude.{◌≡◌};
    ghost use Rattle.clock_sweep.specs.Choosing.{is_ring};

    fn is_ring(self) -> bool
        ensures { result ≡ is_ring self }
    {
        match self {
            Origin::Ring => true,
            Origin::Pool => false,
        }
    }
}

/// Whether no backend pins a frame, and its usage count is low enough: 0, or at most 1 if it comes
/// from the ring.
fn is_fit(word: u64, origin: Origin) -> bool
    ensures fit { OnTrue result (IsFit (usage_allowed (is_ring origin)) (fields word)) }
    ensures unfit { OnFalse result (IsUnfit (usage_allowed (is_ring origin)) (fields word)) }
{
    let most = if origin.is_ring() { 1 } else { 0 };
    pins(word) == 0 && usage(word) <= most
}

/// Takes a frame of the ring, or of the free list, if it is one of the table's and fit
/// (`GetBufferFromRing`).
pub(crate) fn try_frame<L: BlockLane, G: LogDevice, R: Wait>(
    table: &FrameTable<L, G>,
    rt: &R,
    seat: &mut Seat<Value<L, G>, View>,
    frame: u32,
    origin: Origin,
) -> Option<LockedFrame>
    requires seat { IsSeat table.now seat.old }
    requires headless { HoldsNoHeader seat.old.me.0 }
    ensures seat { SameSeat seat.old seat.new }
    ensures frame { IfSome result (λ held. (held.frame ≡ frame)
        × (held.from_ring ≡ is_ring origin)) }
    ensures inside { IfSome result (λ _. frame < frames_of table.now) }
    ensures takes { IfSome result (λ held. Takes (usage_allowed (is_ring origin)) held seat.old.me.0
        seat.new.me.0) }
    ensures skips { IfNone result (Skips (frames_of table.now) (usage_allowed (is_ring origin))
        frame seat.old.me.0 seat.new.me.0) }
{
    if frame >= table.frames() {
        return None;
    }
    let word = table.lock_header(rt, seat, frame);
    if is_fit(word, origin) {
        return Some(LockedFrame {
            frame,
            word,
            from_ring: origin.is_ring(),
        });
    }
    table.unlock_header(seat, frame);
    None
}
