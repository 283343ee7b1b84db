//! The log's two positions.
ghost use Rattle.std.specs.Prelude.{◌≡◌, ◌≤◌};
ghost use Rattle.frame_table.specs.WordSteps.{DidWord, load_end, load_flushed, view_of};
ghost use Rattle.frame_table.specs.Seats.{Grows, IsSeat, SameSeat, base_of};

use atomic_table::Seat;
use byte_devices::LogDevice;
use frame_table::{EndLoad, FrameTable, Value};
use page_layout::Lsn;
use pin_core::View;
use segment_store::BlockLane;

/// The log's end, as it is loaded (`GetXLogInsertRecPtr`).
pub fn log_end<L: BlockLane, G: LogDevice>(
    table: &FrameTable<L, G>,
    seat: &mut Seat<Value<L, G>, View>,
) -> Lsn
    requires { IsSeat table.now seat.old }
    ensures seat { SameSeat seat.old seat.new }
    ensures grows { Grows seat.old.me.0 seat.new.me.0 }
    ensures view { seat.new.me.0 ≡ view_of load_end result seat.old.me.0 }
    ensures front { seat.old.me.0.front ≤ result }
    ensures later { seat.old.me.0.end_seen ≤ result }
    ensures base { base_of table.now ≤ result }
    ensures did { DidWord load_end seat.old.me.0 seat.new.me.0 result }
{
    table.load_log_end(seat, EndLoad::Plain)
}

/// The position up to which the log is flushed, as it is loaded (`GetFlushRecPtr`).
pub fn flushed<L: BlockLane, G: LogDevice>(
    table: &FrameTable<L, G>,
    seat: &mut Seat<Value<L, G>, View>,
) -> Lsn
    requires { IsSeat table.now seat.old }
    ensures seat { SameSeat seat.old seat.new }
    ensures grows { Grows seat.old.me.0 seat.new.me.0 }
    ensures view { seat.new.me.0 ≡ view_of load_flushed result seat.old.me.0 }
    ensures flushed { seat.old.me.0.flushed ≤ result }
    ensures did { DidWord load_flushed seat.old.me.0 seat.new.me.0 result }
{
    table.load_flushed(seat)
}
