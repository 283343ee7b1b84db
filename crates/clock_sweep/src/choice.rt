//! The choice of a victim.
ghost use Rattle.std.specs.Prelude.{◌≡◌, ◌<◌, IfErr, IfNone, IfOk, IfSome, Some, true, false, length};
ghost use Rattle.std.specs.List.{All};
ghost use Rattle.state_word.specs.Fields.{fields};
ghost use Rattle.pin_core.specs.declared.view.View.{View};
ghost use Rattle.pin_core.specs.declared.view.Role.TheVariants.{Absent};
ghost use Rattle.pin_core.specs.State.{link};
ghost use Rattle.pin_core.specs.Steps.{HoldsNoHeader};
ghost use Rattle.frame_table.specs.Seats.{IsSeat, SameSeat, frames_of};
ghost use Rattle.clock_sweep.specs.CensusList.{new_census};
ghost use Rattle.clock_sweep.specs.FreeFrames.{ListHad, QueueState, SameQueue, taking};
ghost use Rattle.clock_sweep.specs.FreeLists.{IsOfSweep};
ghost use Rattle.clock_sweep.specs.Keeping.{GetsHeader, KeepsFrames};
ghost use Rattle.clock_sweep.specs.Choosing.{Chooses, FindsNone, IsFit, LeavesFree, LeavesRing, Takes, frame_at_place, ring_gone_on, ring_keeping, usage_allowed};

use crate::census::Census;
use crate::clock::from_clock;
use crate::free_list::QueuePass;
use crate::held::{LockedFrame, NoUnpinned};
use crate::sweep::Sweep;
use crate::taking::{Origin, try_frame};
use access_rings::Ring;
use atomic_table::Seat;
use byte_devices::LogDevice;
use frame_table::{FrameTable, Value};
use pin_core::View;
use segment_store::BlockLane;
use std::sync::Wait;

/// The frame at the ring's next place.
fn next_place(ring: &mut Option<Ring>) -> Option<u32>
    ensures ring { ring.new ≡ ring_gone_on ring.old }
    ensures frame { result ≡ frame_at_place ring.new }
{
    match ring {
        Some(ring) => ring.next(),
        None => None,
    }
}

/// The ring's current place gets the frame that was chosen (`AddBufferToRing`), if that came from
/// elsewhere.
fn keep_place(ring: &mut Option<Ring>, held: &LockedFrame)
    ensures { ring.new ≡ ring_keeping held.now.from_ring held.now.frame ring.old }
{
    if held.from_ring {
        return;
    }
    if let Some(ring) = ring {
        ring.keep(held.frame);
    }
}

/// Takes the frame of the ring's place, if there is one and it is fit (`GetBufferFromRing`).
fn from_ring<L: BlockLane, G: LogDevice, R: Wait>(
    table: &FrameTable<L, G>,
    rt: &R,
    seat: &mut Seat<Value<L, G>, View>,
    place: Option<u32>,
) -> Option<LockedFrame>
    requires seat { IsSeat table.now seat.old }
    requires headless { HoldsNoHeader seat.old.me.0 }
    ensures seat { SameSeat seat.old seat.new }
    ensures frame { IfSome result (λ held. (place ≡ Some held.frame)
        × (held.frame < frames_of table.now) × (held.from_ring ≡ true)) }
    ensures takes { IfSome result (λ held. Takes 1 held seat.old.me.0 seat.new.me.0) }
    ensures leaves { IfNone result (LeavesRing (frames_of table.now) place seat.old.me.0 seat.new.me.0) }
{
    try_frame(table, rt, seat, place?, Origin::Ring)
}

/// Takes the first frame of the free list that is fit. Those before it are off the list. None if
/// the list was found empty.
fn from_free_list<L: BlockLane, G: LogDevice, R: Wait>(
    table: &FrameTable<L, G>,
    rt: &R,
    seat: &mut Seat<Value<L, G>, View>,
    sweep: &Sweep,
    queue: &mut QueuePass,
) -> Option<LockedFrame>
    requires seat { IsSeat table.now seat.old }
    requires headless { HoldsNoHeader seat.old.me.0 }
    requires queue { IsOfSweep sweep.now queue.old }
    ensures seat { SameSeat seat.old seat.new }
    ensures queue { SameQueue queue.old queue.new }
    ensures frame { IfSome result (λ held. (held.frame < frames_of table.now)
        × (held.from_ring ≡ false)) }
    ensures takes { IfSome result (λ held. (v : View) × (q : QueueState)
        × LeavesFree (frames_of table.now) seat.old.me.0 queue.old v q
        × Takes 0 held v seat.new.me.0 × (queue.new ≡ taking held.frame q)) }
    ensures leaves { IfNone result (LeavesFree (frames_of table.now) seat.old.me.0 queue.old
        seat.new.me.0 queue.new) }
    ensures empty { IfNone result (ListHad 0 queue.new.known) }
{
    for _ in rt.forever() {
        let frame = sweep.take(rt, queue)?;
        if let Some(held) = try_frame(table, rt, seat, frame, Origin::Pool) {
            return Some(held);
        }
    }
    unreachable!()
}

/// Chooses a frame that no backend pins, and holds its header (`StrategyGetBuffer`).
///
/// The ring, if there is one, goes on by a place, and its frame there is taken if it is one of the
/// pool, not pinned, and its usage count is at most 1. Otherwise the frames of the free list are
/// tried in order, and then those that the clock comes to. A frame from elsewhere is kept at the
/// ring's place.
///
/// The clock has as many tries as there are frames. A pinned frame takes one; a frame that isn't
/// pinned and has been used loses 1 of its usage count and gives all tries back. If none is left a
/// census loads all frames in order: the first that isn't pinned is next, with all tries again, and
/// the hand stays. If each is pinned that is the answer, and `census` has their words.
pub fn victim<L: BlockLane, G: LogDevice, R: Wait>(
    table: &FrameTable<L, G>,
    rt: &R,
    seat: &mut Seat<Value<L, G>, View>,
    sweep: &Sweep,
    queue: &mut QueuePass,
    census: &mut Census,
    ring: &mut Option<Ring>,
) -> Result<LockedFrame, NoUnpinned>
    requires seat { IsSeat table.now seat.old }
    requires headless { HoldsNoHeader seat.old.me.0 }
    requires queue { IsOfSweep sweep.now queue.old }
    requires census { census.old.frames ≡ frames_of table.now }
    ensures seat { SameSeat seat.old seat.new }
    ensures queue { SameQueue queue.old queue.new }
    ensures inside { IfOk result (λ held. held.frame < frames_of table.now) }
    ensures held { IfOk result (λ held. GetsHeader held.frame held.word seat.old.me.0 seat.new.me.0) }
    ensures absent { IfOk result (λ held. (link seat.old.me.0 held.frame).role ≡ Absent) }
    ensures fit { IfOk result (λ held. IsFit (usage_allowed held.from_ring) (fields held.word)) }
    ensures kept { IfOk result (λ held. ring.new ≡ ring_keeping held.from_ring held.frame
        (ring_gone_on ring.old)) }
    ensures stands { IfOk result (λ held. held.from_ring ≡ true
        → frame_at_place ring.new ≡ Some held.frame) }
    ensures did { IfOk result (Chooses (frames_of table.now) (frame_at_place (ring_gone_on ring.old))
        seat.old.me.0 queue.old seat.new.me.0 queue.new) }
    ensures no_census { IfOk result (λ _. census.new ≡ new_census (frames_of table.now)) }
    ensures frames { IfErr result (λ why. why.frames ≡ frames_of table.now) }
    ensures left { IfErr result (λ _. KeepsFrames seat.old.me.0 seat.new.me.0) }
    ensures passed { IfErr result (λ _. ring.new ≡ ring_gone_on ring.old) }
    ensures cause { IfErr result (λ _. FindsNone (frames_of table.now) (frame_at_place (ring_gone_on ring.old))
        seat.old.me.0 queue.old seat.new.me.0 queue.new census.new.words) }
    ensures counted { IfErr result (λ _. length census.new.words ≡ frames_of table.now) }
    ensures pinned { IfErr result (λ _. All (λ word. 0 < (fields word).pins) census.new.words) }
    ensures room { census.new.frames ≡ census.old.frames }
{
    census.clear();
    let place = next_place(ring);
    match choose(table, rt, seat, sweep, queue, census, place) {
        Ok(held) => {
            keep_place(ring, &held);
            Ok(held)
        }
        Err(why) => Err(why),
    }
}

/// Asks the ring's place, the free list and the clock, in this order.
fn choose<L: BlockLane, G: LogDevice, R: Wait>(
    table: &FrameTable<L, G>,
    rt: &R,
    seat: &mut Seat<Value<L, G>, View>,
    sweep: &Sweep,
    queue: &mut QueuePass,
    census: &mut Census,
    place: Option<u32>,
) -> Result<LockedFrame, NoUnpinned>
    requires seat { IsSeat table.now seat.old }
    requires headless { HoldsNoHeader seat.old.me.0 }
    requires queue { IsOfSweep sweep.now queue.old }
    requires census { census.old ≡ new_census (frames_of table.now) }
    ensures seat { SameSeat seat.old seat.new }
    ensures queue { SameQueue queue.old queue.new }
    ensures inside { IfOk result (λ held. held.frame < frames_of table.now) }
    ensures did { IfOk result (Chooses (frames_of table.now) place seat.old.me.0 queue.old
        seat.new.me.0 queue.new) }
    ensures cleared { IfOk result (λ _. census.new ≡ census.old) }
    ensures frames { IfErr result (λ why. why.frames ≡ frames_of table.now) }
    ensures cause { IfErr result (λ _. FindsNone (frames_of table.now) place seat.old.me.0 queue.old
        seat.new.me.0 queue.new census.new.words) }
    ensures room { census.new.frames ≡ census.old.frames }
{
    if let Some(held) = from_ring(table, rt, seat, place) {
        return Ok(held);
    }
    if let Some(held) = from_free_list(table, rt, seat, sweep, queue) {
        return Ok(held);
    }
    from_clock(table, rt, seat, census)
}
