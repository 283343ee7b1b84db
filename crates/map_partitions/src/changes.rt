//! Changes of a map.
ghost use Rattle.std.specs.Prelude.{◌≡◌, ℕ, List, Some, None, true};
ghost use Rattle.block_tag.specs.Names.{names_block, packed_tag, partition_number};
ghost use Rattle.pin_core.specs.declared.view.MapEntry.{MapEntry};
ghost use Rattle.pin_core.specs.declared.view.MapChange.TheVariants.{Entering, Leaving};
ghost use Rattle.pin_core.specs.State.{hold};
ghost use Rattle.pin_core.specs.Turns.{found};
ghost use Rattle.grid.specs.Shape.{put};
ghost use Rattle.table_rule.specs.declared.turn.Turn.TheVariants.{Partition};
ghost use Rattle.frame_table.specs.Seats.{CanTurn, Grows, SameSeat};
ghost use Rattle.frame_table.specs.Latches.{MapStep, SameWork, back_hold};
ghost use Rattle.map_partitions.specs.Partition.{ChangesMap, HoldsLatch, NamesLeaving, entries_seen};

use crate::entries::{add, forget};
use atomic_table::Seat;
use block_tag::Tag;
use byte_devices::LogDevice;
use frame_table::FrameTable;
use pin_core::View;
use segment_store::BlockLane;
use table_rule::Value;

/// Enters the pair that the backend named as it stored the tag in the frame (`BufTableInsert`).
pub fn enter<L: BlockLane, G: LogDevice>(
    table: &FrameTable<L, G>,
    seat: &mut Seat<Value<L, G>, View>,
    tag: Tag,
    frame: u32,
)
    requires seat { CanTurn table.now seat.old (Partition (partition_number tag)) }
    requires tag { names_block tag ≡ true }
    requires named { HoldsLatch (Entering (packed_tag tag) frame) seat.old.me.0
        (partition_number tag) }
    ensures seat { SameSeat seat.old seat.new }
    ensures work { SameWork seat.old.me.0 seat.new.me.0 }
    ensures grows { Grows seat.old.me.0 seat.new.me.0 }
    ensures entered { (entries : List MapEntry) → (hold seat.old.me.0 (partition_number tag)).seen
        ≡ Some entries → found (entries_seen seat.new.me.0 (partition_number tag))
        ≡ put (found entries) (packed_tag tag) (Some frame) }
    ensures step { MapStep (partition_number tag)
        (back_hold (entries_seen seat.new.me.0 (partition_number tag))
        (hold seat.old.me.0 (partition_number tag))) seat.old.me.0 seat.new.me.0 }
    ensures did { ChangesMap (packed_tag tag) None (Some frame) (partition_number tag) seat.old.me.0
        seat.new.me.0 }
{
    let partition = tag.partition();
    let mut entries = table.map_out(seat, partition);
    add(&mut entries, tag.pack(), frame);
    table.map_back(seat, partition, entries);
}

/// Leaves out the pair that the backend named as it took the tag from its frame (`BufTableDelete`).
pub fn leave_out<L: BlockLane, G: LogDevice>(
    table: &FrameTable<L, G>,
    seat: &mut Seat<Value<L, G>, View>,
    tag: &Tag,
)
    requires seat { CanTurn table.now seat.old (Partition (partition_number tag.now)) }
    requires tag { names_block tag.now ≡ true }
    requires holds { HoldsLatch (hold seat.old.me.0 (partition_number tag.now)).change seat.old.me.0
        (partition_number tag.now) }
    requires named { NamesLeaving (packed_tag tag.now)
        (hold seat.old.me.0 (partition_number tag.now)).change }
    ensures seat { SameSeat seat.old seat.new }
    ensures work { SameWork seat.old.me.0 seat.new.me.0 }
    ensures grows { Grows seat.old.me.0 seat.new.me.0 }
    ensures left_out { (entries : List MapEntry)
        → (hold seat.old.me.0 (partition_number tag.now)).seen ≡ Some entries
        → found (entries_seen seat.new.me.0 (partition_number tag.now)) ≡ put (found entries)
        (packed_tag tag.now) None }
    ensures step { MapStep (partition_number tag.now)
        (back_hold (entries_seen seat.new.me.0 (partition_number tag.now))
        (hold seat.old.me.0 (partition_number tag.now))) seat.old.me.0 seat.new.me.0 }
    ensures did { (frame : ℕ) → (hold seat.old.me.0 (partition_number tag.now)).change
        ≡ Leaving (packed_tag tag.now) frame → ChangesMap (packed_tag tag.now) (Some frame) None
        (partition_number tag.now) seat.old.me.0 seat.new.me.0 }
{
    let partition = tag.partition();
    let mut entries = table.map_out(seat, partition);
    forget(&mut entries, tag.pack());
    table.map_back(seat, partition, entries);
}
