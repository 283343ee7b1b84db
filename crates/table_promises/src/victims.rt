//! Victims, and the free list.
ghost use Rattle.std.specs.Prelude.{◌≡◌, ◌<◌, IfErr};
ghost use Rattle.std.specs.Bool.{OnFalse, OnTrue};
ghost use Rattle.pin_core.specs.Steps.{HoldsNoHeader};
ghost use Rattle.frame_table.specs.Seats.{IsSeat, frames_of};
ghost use Rattle.clock_sweep.specs.Choosing.{FindsNone, frame_at_place, ring_gone_on};
ghost use Rattle.clock_sweep.specs.FreeFrames.{ListHad, pushing};
ghost use Rattle.clock_sweep.specs.FreeLists.{IsOfSweep};

use access_rings::Ring;
use atomic_table::Seat;
use byte_devices::LogDevice;
use clock_sweep::{Census, LockedFrame, NoUnpinned, QueuePass, Sweep, victim};
use frame_table::{FrameTable, Value};
use pin_core::View;
use segment_store::BlockLane;
use std::sync::Wait;

/// A victim is refused only if each frame was seen pinned, one after the other.
/// (`StrategyGetBuffer` gives up after as many ticks as there are buffers, though other backends
/// move the hand, too.)
pub fn choose_victim<L: BlockLane, G: LogDevice, R: Wait>(
    table: &FrameTable<L, G>,
    rt: &R,
    seat: &mut Seat<Value<L, G>, View>,
    sweep: &Sweep,
    queue: &mut QueuePass,
    census: &mut Census,
    ring: &mut Option<Ring>,
) -> Result<LockedFrame, NoUnpinned>
    requires seat { IsSeat table.now seat.old }
    requires headless { HoldsNoHeader seat.old.me.0 }
    requires queue { IsOfSweep sweep.now queue.old }
    requires census { census.old.frames ≡ frames_of table.now }
    ensures { IfErr result (λ _. FindsNone (frames_of table.now)
        (frame_at_place (ring_gone_on ring.old))
        seat.old.me.0 queue.old seat.new.me.0 queue.new census.new.words) }
{
    victim(table, rt, seat, sweep, queue, census, ring)
}

/// A frame that was freed is on the free list (`StrategyFreeBuffer`), unless that was full.
pub fn free_frame<R: Wait>(rt: &R, sweep: &Sweep, queue: &mut QueuePass, frame: u32) -> bool
    requires queue { IsOfSweep sweep.now queue.old }
    requires inside { frame < queue.old.known.frames }
    ensures pushed { OnTrue result (queue.new ≡ pushing frame queue.old) }
    ensures full { OnFalse result ((queue.new ≡ queue.old)
        × ListHad queue.old.known.frames queue.old.known) }
{
    sweep.free(rt, queue, frame)
}
