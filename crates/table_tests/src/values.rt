//! The value of a latch goes out, and comes back.
ghost use Rattle.std.specs.Prelude.{◌<◌};
ghost use Rattle.frame_table.specs.Closes.{CanClose};

use crate::fixture::{Table, TableSeat};
use frame_table::{Place, Turn, Value};
use map_partitions::{give_turn, take_turn};
use std::sync::Wait;

/// How many entries the map of a partition has, and for how many there is room. The map goes out
/// under the partition's latch, and comes back as it was.
pub fn count_entries<R: Wait>(
    table: &Table,
    rt: &R,
    seat: &mut TableSeat,
    partition: u32,
) -> (usize, usize)
    requires closes { CanClose table.now seat.old }
    requires partition { partition < 128 }
    ensures { CanClose table.now seat.new }
{
    let place = Place::Of(Turn::Partition(partition));
    take_turn(table, rt, seat, partition);
    let entries = match table.value_out(seat, place) {
        Value::Map(entries) => entries,
        _other => unreachable!(),
    };
    let counts = (entries.len(), entries.capacity());
    table.value_back(seat, place, Value::Map(entries));
    give_turn(table, seat, partition);
    counts
}
