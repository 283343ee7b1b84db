//! Frames are pinned, and released.
ghost use Rattle.std.specs.Prelude.{◌≡◌, ◌<◌};
ghost use Rattle.frame_table.specs.Closes.{CanClose};
ghost use Rattle.frame_table.specs.Seats.{frames_of};
ghost use Rattle.table_tests.specs.Work.{KeepsSeat, SeatHoldsNothing, backends_of};

use crate::fixture::{Table, TableSeat};
use frame_table::TryPin;
use std::sync::Wait;

/// Pins a frame and releases it, or says why it wasn't pinned.
pub fn refusal<R: Wait>(table: &Table, rt: &R, seat: &mut TableSeat, frame: u32) -> Option<TryPin>
    requires rests { SeatHoldsNothing table.now seat.old }
    requires frame { frame < frames_of table.now }
    ensures rests { SeatHoldsNothing table.now seat.new }
    ensures keeps { KeepsSeat seat.old seat.new }
{
    match table.try_pin(seat, frame, false) {
        Ok(pin) => {
            // No backend waits here, so the word that is left isn't needed.
            table.unpin(rt, seat, pin);
            None
        }
        Err(why) => Some(why),
    }
}

/// Why a frame isn't pinned while another backend has its header.
pub fn refusal_beside<R: Wait>(
    table: &Table,
    rt: &R,
    seat: &mut TableSeat,
    other: &mut TableSeat,
    frame: u32,
) -> Option<TryPin>
    requires rests { SeatHoldsNothing table.now seat.old × SeatHoldsNothing table.now other.old }
    requires frame { frame < frames_of table.now }
    ensures rests { SeatHoldsNothing table.now seat.new × SeatHoldsNothing table.now other.new }
    ensures keeps { KeepsSeat seat.old seat.new × KeepsSeat other.old other.new }
{
    table.lock_header(rt, other, frame);
    let refused = refusal(table, rt, seat, frame);
    table.unlock_header(other, frame);
    refused
}

/// Why the first backend doesn't pin a frame while a second one has its header. The second one
/// comes and goes.
pub fn refusal_of_two<R: Wait>(
    table: &Table,
    rt: &R,
    seat: &mut TableSeat,
    frame: u32,
) -> Option<TryPin>
    requires closes { CanClose table.now seat.old }
    requires alone { (seat.old.me.0.next ≡ 1) × (1 < backends_of table.now) }
    requires frame { frame < frames_of table.now }
    ensures { CanClose table.now seat.new }
{
    let mut other = table.split(seat);
    let refused = refusal_beside(table, rt, seat, &mut other, frame);
    table.join(seat, other);
    refused
}
