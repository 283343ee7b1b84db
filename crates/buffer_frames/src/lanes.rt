//! The sync of a lane (`smgrimmedsync`).
ghost use Rattle.std.specs.Prelude.{◌≡◌, ◌<◌, ◌≤◌, length, IfOk};
ghost use Rattle.std.specs.Result.{is_ok};
ghost use Rattle.pin_core.specs.State.{lane_hold};
ghost use Rattle.history_core.specs.Lanes.{swept_by};
ghost use Rattle.frame_table.specs.Latches.{work_of};
ghost use Rattle.frame_table.specs.Seats.{OnlyRises, SameSeat, frames_of, lanes_in};
ghost use Rattle.buffer_frames.specs.Rests.{Stands};
ghost use Rattle.buffer_frames.specs.Syncs.{LeavesLane, synced_work};

use atomic_table::Seat;
use byte_devices::{Failed, LogDevice};
use frame_table::{FrameTable, Turn, Value};
use pin_core::View;
use segment_store::BlockLane;
use std::sync::Wait;

/// Syncs a lane. If the backend's checkpoint has visited all frames and has none left to write, the
/// lane is swept up to where it began.
pub fn sync_lane<L: BlockLane, G: LogDevice, R: Wait>(
    table: &FrameTable<L, G>,
    rt: &R,
    seat: &mut Seat<Value<L, G>, View>,
    lane: u32,
) -> Result<(), Failed>
    requires stands { Stands table.now seat.old }
    requires inside { lane < lanes_in table.now }
    ensures seat { SameSeat seat.old seat.new }
    ensures stands { Stands table.now seat.new }
    ensures rises { OnlyRises seat.old.me.0 seat.new.me.0 }
    ensures partitions { seat.new.me.0.partitions ≡ seat.old.me.0.partitions }
    ensures view { work_of seat.new.me.0 ≡ synced_work lane (is_ok result) seat.old.me.0 }
    ensures swept { IfOk result
        (λ _. swept_by seat.old.me.0 ≤ (lane_hold seat.new.me.0 lane).swept) }
    ensures wide { length seat.old.me.0.links ≡ frames_of table.now }
    ensures left { LeavesLane (lanes_in table.now) lane seat.new.me.0 }
{
    table.take_turn(rt, seat, Turn::Lane(lane));
    let mut out = table.lane_out(seat, lane);
    let result = out.sync();
    table.lane_back(seat, lane, out);
    table.leave_turn(seat, Turn::Lane(lane));
    result
}
