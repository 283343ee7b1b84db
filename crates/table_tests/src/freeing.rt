//! Frames are freed.
ghost use Rattle.std.specs.Prelude.{◌≡◌, ◌<◌};
ghost use Rattle.clock_sweep.specs.FreeLists.{IsFreeList};
ghost use Rattle.frame_table.specs.Closes.{CanClose};
ghost use Rattle.frame_table.specs.Seats.{frames_of};
ghost use Rattle.table_tests.specs.Work.{IsFresh, SeatHoldsNothing, backends_of};

use crate::fixture::{Table, TableSeat};
use clock_sweep::{Census, QueuePass, Sweep, victim};
use std::alloc::{AllocError, Global};
use std::sync::Wait;

/// A frame that was chosen, pinned and released, and whether the free list took it.
#[derive(Clone, Copy, PartialEq, Debug)]
pub struct Freed {
    pub frame: u32,
    pub pushed: bool,
}

/// Chooses a frame and frees it. None if no frame is chosen.
fn free_victim<R: Wait>(
    table: &Table,
    rt: &R,
    seat: &mut TableSeat,
    sweep: &Sweep,
    queue: &mut QueuePass,
    census: &mut Census,
) -> Option<Freed>
    requires fresh { IsFresh table.now seat.old }
    requires queue { IsFreeList table.now sweep.now queue.old }
    requires census { census.old.frames ≡ frames_of table.now }
    ensures { SeatHoldsNothing table.now seat.new }
{
    match victim(table, rt, seat, sweep, queue, census, &mut None) {
        Ok(held) => {
            let word = held.word();
            let frame = held.into_frame();
            let pin = table.victim_pin(seat, frame, word);
            // No backend waits here, so the word that is left isn't needed.
            table.unpin(rt, seat, pin);
            let pushed = sweep.free(rt, queue, frame);
            Some(Freed { frame, pushed })
        }
        Err(_none) => None,
    }
}

/// Whether a new free list takes frame 3, and what becomes of the first victim.
fn free_before_and_after<R: Wait>(
    table: &Table,
    rt: &R,
    seat: &mut TableSeat,
    alloc: Global,
) -> Result<(bool, Option<Freed>), AllocError>
    requires fresh { IsFresh table.now seat.old }
    requires frame { 3 < frames_of table.now }
    ensures { SeatHoldsNothing table.now seat.new }
{
    let (sweep, mut queue) = Sweep::build(alloc, table.frames())?;
    let mut census = Census::build(alloc, table.frames())?;
    let pushed = sweep.free(rt, &mut queue, 3);
    let freed = free_victim(table, rt, seat, &sweep, &mut queue, &mut census);
    Ok((pushed, freed))
}

/// The same by a backend that is split off for it and joined again.
pub fn free_by_another<R: Wait>(
    table: &Table,
    rt: &R,
    seat: &mut TableSeat,
    alloc: Global,
) -> Result<(bool, Option<Freed>), AllocError>
    requires closes { CanClose table.now seat.old }
    requires alone { (seat.old.me.0.next ≡ 1) × (1 < backends_of table.now) }
    requires frame { 3 < frames_of table.now }
    ensures { CanClose table.now seat.new }
{
    let mut other = table.split(seat);
    let freed = free_before_and_after(table, rt, &mut other, alloc);
    table.join(seat, other);
    freed
}
