//! The latches of the partitions (`BufMappingPartitionLock`).
ghost use Rattle.std.specs.Prelude.{true, false};
ghost use Rattle.pin_core.specs.declared.view.MapChange.TheVariants.{Stable};
ghost use Rattle.table_rule.specs.declared.turn.Turn.TheVariants.{Partition};
ghost use Rattle.frame_table.specs.Seats.{CanTurn, Grows, SameSeat};
ghost use Rattle.frame_table.specs.Latches.{DidTurn, IsTurned, MayLeave, MayTake, SameWork};
ghost use Rattle.frame_table.specs.Latches.{view_counted};
ghost use Rattle.map_partitions.specs.Partition.{HoldsLatch};

use atomic_table::Seat;
use byte_devices::LogDevice;
use frame_table::FrameTable;
use pin_core::View;
use segment_store::BlockLane;
use std::sync::Wait;
use table_rule::{Turn, Value};

/// Waits until the partition's latch is free, and takes it. The backend has no other latch.
pub fn take_turn<L: BlockLane, G: LogDevice, R: Wait>(
    table: &FrameTable<L, G>,
    rt: &R,
    seat: &mut Seat<Value<L, G>, View>,
    partition: u32,
)
    requires seat { CanTurn table.now seat.old (Partition partition) }
    requires free { MayTake (Partition partition) seat.old.me.0 }
    ensures seat { SameSeat seat.old seat.new }
    ensures work { SameWork (view_counted true (Partition partition) seat.old.me.0) seat.new.me.0 }
    ensures grows { Grows seat.old.me.0 seat.new.me.0 }
    ensures turned { IsTurned true (Partition partition) seat.old.me.0 seat.new.me.0 }
    ensures holds { HoldsLatch Stable seat.new.me.0 partition }
    ensures did { DidTurn true (Partition partition) seat.old.me.0 seat.new.me.0 }
{
    table.take_turn(rt, seat, Turn::Partition(partition));
}

/// Leaves the partition's latch. Its map is home, and no pair is named in change there.
pub fn give_turn<L: BlockLane, G: LogDevice>(
    table: &FrameTable<L, G>,
    seat: &mut Seat<Value<L, G>, View>,
    partition: u32,
)
    requires seat { CanTurn table.now seat.old (Partition partition) }
    requires may { MayLeave (Partition partition) seat.old.me.0 }
    ensures seat { SameSeat seat.old seat.new }
    ensures work { SameWork seat.old.me.0 seat.new.me.0 }
    ensures grows { Grows seat.old.me.0 seat.new.me.0 }
    ensures turned { IsTurned false (Partition partition) seat.old.me.0 seat.new.me.0 }
    ensures did { DidTurn false (Partition partition) seat.old.me.0 seat.new.me.0 }
{
    table.leave_turn(seat, Turn::Partition(partition));
}
