//! Content locks (`LockBuffer`).
//!
//! A try looks once and exchanges once. So it may be refused because the word changed meanwhile,
//! though no holder is in conflict.
ghost use Rattle.std.specs.Prelude.{◌≡◌, ℕ, IfErr, IfOk};
ghost use Rattle.pin_core.specs.State.{link};
ghost use Rattle.page_core.specs.Kinds as kinds;
ghost use Rattle.frame_table.specs.Seats.{CanStep, SameMarks, SameSeat, Touches, TouchesOrNotes};
ghost use Rattle.frame_table.specs.Kinds.{pages};
ghost use Rattle.frame_table.specs.FrameSteps.{Did};
ghost use Rattle.frame_table.specs.Content.{CanDropExclusive, CanDropShare, CanLock};
ghost use Rattle.frame_table.specs.Content.{HoldsNoUnentered, exclusive_link, shared_link};
ghost use Rattle.frame_table.specs.Content.{unexclusive_link, unshared_link};
ghost use Rattle.content_locks.specs.Locks.{ShowsLock, ShowsExclusive, LocksAtOnce, LocksContent, RefusesLock};

use crate::content_word::is_exclusive;
use atomic_table::Seat;
use byte_devices::LogDevice;
use frame_table::{FrameTable, Value};
use pin_core::View;
use segment_store::BlockLane;
use std::sync::Wait;
use std::thread;

/// Why a content lock was not taken.
#[derive(Clone, Copy, PartialEq, Eq, Debug)]
pub enum TryLock {
    /// The content word shows a holder in conflict.
    Busy { word: u64 },
    /// The content word changed from the one to the other.
    Changed { was: u64, now: u64 },
}

/// Takes the content lock of a pinned frame, shared, if no backend has it exclusively and the word
/// doesn't change meanwhile (`ConditionalLockBuffer`).
pub fn try_share<L: BlockLane, G: LogDevice>(
    table: &FrameTable<L, G>,
    seat: &mut Seat<Value<L, G>, View>,
    frame: u32,
) -> Result<(), TryLock>
    requires seat { CanStep table.now seat.old frame }
    requires view { CanLock (link seat.old.me.0 frame) }
    ensures seat { SameSeat seat.old seat.new }
    ensures touches { Touches frame seat.old.me.0 seat.new.me.0 }
    ensures marks { SameMarks seat.old.me.0 seat.new.me.0 }
    ensures shared { IfOk result (λ _. link seat.new.me.0 frame ≡ shared_link (link seat.old.me.0 frame)) }
    ensures left { IfErr result (λ _. link seat.new.me.0 frame ≡ link seat.old.me.0 frame) }
    ensures did { IfOk result (λ _. LocksAtOnce kinds.share frame seat.old.me.0 seat.new.me.0) }
    ensures cause { IfErr result (RefusesLock ShowsExclusive frame seat.old.me.0 seat.new.me.0) }
{
    let was = table.look_content(seat, frame);
    if is_exclusive(was) {
        return Err(TryLock::Busy { word: was });
    }
    match table.add_share(seat, frame, was) {
        Ok(()) => Ok(()),
        Err(now) => Err(TryLock::Changed { was, now }),
    }
}

/// Takes the content lock of a pinned frame, exclusively, if no backend has it and the word doesn't
/// change meanwhile (`ConditionalLockBuffer`).
pub fn try_exclusive<L: BlockLane, G: LogDevice>(
    table: &FrameTable<L, G>,
    seat: &mut Seat<Value<L, G>, View>,
    frame: u32,
) -> Result<(), TryLock>
    requires seat { CanStep table.now seat.old frame }
    requires view { CanLock (link seat.old.me.0 frame) }
    ensures seat { SameSeat seat.old seat.new }
    ensures touches { Touches frame seat.old.me.0 seat.new.me.0 }
    ensures marks { SameMarks seat.old.me.0 seat.new.me.0 }
    ensures exclusive { IfOk result (λ _. link seat.new.me.0 frame ≡ exclusive_link (link seat.old.me.0 frame)) }
    ensures left { IfErr result (λ _. link seat.new.me.0 frame ≡ link seat.old.me.0 frame) }
    ensures did { IfOk result (λ _. LocksAtOnce kinds.exclude frame seat.old.me.0 seat.new.me.0) }
    ensures cause { IfErr result (RefusesLock ShowsLock frame seat.old.me.0 seat.new.me.0) }
{
    let was = table.look_content(seat, frame);
    if was != 0 {
        return Err(TryLock::Busy { word: was });
    }
    match table.set_exclusive(seat, frame, was) {
        Ok(()) => Ok(()),
        Err(now) => Err(TryLock::Changed { was, now }),
    }
}

/// Waits until no backend has the content lock exclusively, and takes it, shared.
pub fn share<L: BlockLane, G: LogDevice, R: Wait>(
    table: &FrameTable<L, G>,
    rt: &R,
    seat: &mut Seat<Value<L, G>, View>,
    frame: u32,
)
    requires seat { CanStep table.now seat.old frame }
    requires view { CanLock (link seat.old.me.0 frame) }
    ensures seat { SameSeat seat.old seat.new }
    ensures touches { Touches frame seat.old.me.0 seat.new.me.0 }
    ensures marks { SameMarks seat.old.me.0 seat.new.me.0 }
    ensures shared { link seat.new.me.0 frame ≡ shared_link (link seat.old.me.0 frame) }
    ensures did { LocksContent kinds.share frame seat.old.me.0 seat.new.me.0 }
{
    for _ in rt.forever() {
        match try_share(table, seat, frame) {
            Ok(()) => return,
            Err(_why) => thread::yield_now(),
        }
    }
    unreachable!()
}

/// Waits until no backend has the content lock, and takes it exclusively.
pub fn exclusive<L: BlockLane, G: LogDevice, R: Wait>(
    table: &FrameTable<L, G>,
    rt: &R,
    seat: &mut Seat<Value<L, G>, View>,
    frame: u32,
)
    requires seat { CanStep table.now seat.old frame }
    requires view { CanLock (link seat.old.me.0 frame) }
    ensures seat { SameSeat seat.old seat.new }
    ensures touches { Touches frame seat.old.me.0 seat.new.me.0 }
    ensures marks { SameMarks seat.old.me.0 seat.new.me.0 }
    ensures exclusive { link seat.new.me.0 frame ≡ exclusive_link (link seat.old.me.0 frame) }
    ensures did { LocksContent kinds.exclude frame seat.old.me.0 seat.new.me.0 }
{
    for _ in rt.forever() {
        match try_exclusive(table, seat, frame) {
            Ok(()) => return,
            Err(_why) => thread::yield_now(),
        }
    }
    unreachable!()
}

/// Gives up the shared lock.
pub fn unshare<L: BlockLane, G: LogDevice>(
    table: &FrameTable<L, G>,
    seat: &mut Seat<Value<L, G>, View>,
    frame: u32,
)
    requires seat { CanStep table.now seat.old frame }
    requires view { CanDropShare (link seat.old.me.0 frame) }
    ensures seat { SameSeat seat.old seat.new }
    ensures touches { Touches frame seat.old.me.0 seat.new.me.0 }
    ensures marks { SameMarks seat.old.me.0 seat.new.me.0 }
    ensures unshared { link seat.new.me.0 frame ≡ unshared_link (link seat.old.me.0 frame) }
    ensures did { (was : ℕ) × Did (pages kinds.unshare) frame seat.old.me.0 seat.new.me.0 was }
{
    table.drop_share(seat, frame);
}

/// Gives up the exclusive lock. The frame's block is noted as unentered if the frame was marked
/// dirty under the lock, and no entry made.
pub fn unexclusive<L: BlockLane, G: LogDevice>(
    table: &FrameTable<L, G>,
    seat: &mut Seat<Value<L, G>, View>,
    frame: u32,
)
    requires seat { CanStep table.now seat.old frame }
    requires view { CanDropExclusive (link seat.old.me.0 frame) }
    ensures seat { SameSeat seat.old seat.new }
    ensures touches { TouchesOrNotes frame seat.old.me.0 seat.new.me.0 }
    ensures unnoted { HoldsNoUnentered (link seat.old.me.0 frame)
        → seat.new.me.0.unentered ≡ seat.old.me.0.unentered }
    ensures marks { SameMarks seat.old.me.0 seat.new.me.0 }
    ensures unexclusive { link seat.new.me.0 frame ≡ unexclusive_link (link seat.old.me.0 frame) }
    ensures did { (was : ℕ) × Did (pages kinds.unexclude) frame seat.old.me.0 seat.new.me.0 was }
{
    table.drop_exclusive(seat, frame);
}
