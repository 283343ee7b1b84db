//! The log's two positions.
ghost use Rattle.frame_table.specs.Closes.{CanClose};

use crate::fixture::{Table, TableSeat};
use page_layout::Lsn;
use wal_flush::{flushed, log_end};

/// The log's end, and the position up to which the log is flushed.
pub fn positions(table: &Table, seat: &mut TableSeat) -> (Lsn, Lsn)
    requires { CanClose table.now seat.old }
    ensures { CanClose table.now seat.new }
{
    let end = log_end(table, seat);
    let flushed = flushed(table, seat);
    (end, flushed)
}
