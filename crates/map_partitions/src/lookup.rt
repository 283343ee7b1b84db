//! Searches.
ghost use Rattle.std.specs.Prelude.{◌≡◌, ◌<◌, List, Some, true, IfSome, IfNone};
ghost use Rattle.block_tag.specs.Names.{names_block, packed_tag, partition_number};
ghost use Rattle.pin_core.specs.declared.view.MapEntry.{MapEntry};
ghost use Rattle.pin_core.specs.declared.view.MapChange.TheVariants.{Stable};
ghost use Rattle.pin_core.specs.State.{hold, link};
ghost use Rattle.pin_core.specs.Turns.{found};
ghost use Rattle.table_rule.specs.declared.turn.Turn.TheVariants.{Partition};
ghost use Rattle.frame_table.specs.Seats.{CanTurn, Finds, Grows, Lacks, RemembersNoOther, SameSeat, frames_of};
ghost use Rattle.frame_table.specs.Latches.{MapStep, SameWork, back_hold};
ghost use Rattle.map_partitions.specs.Partition.{HoldsLatch, WentAndCame, entries_seen};

use crate::entries::frame_of;
use atomic_table::Seat;
use block_tag::Tag;
use byte_devices::LogDevice;
use frame_table::FrameTable;
use pin_core::View;
use segment_store::BlockLane;
use table_rule::Value;

/// The frame that the map gives for the tag, whose partition's latch the backend has
/// (`BufTableLookup`). If the backend pins that frame and remembers a tag there, it is this tag.
pub fn find<L: BlockLane, G: LogDevice>(
    table: &FrameTable<L, G>,
    seat: &mut Seat<Value<L, G>, View>,
    tag: &Tag,
) -> Option<u32>
    requires seat { CanTurn table.now seat.old (Partition (partition_number tag.now)) }
    requires tag { names_block tag.now ≡ true }
    requires holds { HoldsLatch Stable seat.old.me.0 (partition_number tag.now) }
    ensures seat { SameSeat seat.old seat.new }
    ensures work { SameWork seat.old.me.0 seat.new.me.0 }
    ensures grows { Grows seat.old.me.0 seat.new.me.0 }
    ensures found { result ≡ found (entries_seen seat.new.me.0 (partition_number tag.now))
        (packed_tag tag.now) }
    ensures inside { IfSome result (λ frame. frame < frames_of table.now) }
    ensures finds { IfSome result (λ frame. Finds seat.new.me.0 (packed_tag tag.now) frame) }
    ensures remembers { IfSome result (λ frame. RemembersNoOther (packed_tag tag.now) (link seat.new.me.0 frame)) }
    ensures lacks { IfNone result (Lacks seat.new.me.0 (packed_tag tag.now)) }
    ensures holds { HoldsLatch Stable seat.new.me.0 (partition_number tag.now) }
    ensures step { MapStep (partition_number tag.now)
        (back_hold (entries_seen seat.new.me.0 (partition_number tag.now))
        (hold seat.old.me.0 (partition_number tag.now))) seat.old.me.0 seat.new.me.0 }
    ensures before { (entries : List MapEntry)
        → (hold seat.old.me.0 (partition_number tag.now)).seen ≡ Some entries
        → found (entries_seen seat.new.me.0 (partition_number tag.now)) ≡ found entries }
    ensures did { WentAndCame (entries_seen seat.new.me.0 (partition_number tag.now))
        (entries_seen seat.new.me.0 (partition_number tag.now)) (partition_number tag.now)
        seat.old.me.0 seat.new.me.0 }
{
    let partition = tag.partition();
    let entries = table.map_out(seat, partition);
    let frame = frame_of(&entries, tag.pack());
    table.map_back(seat, partition, entries);
    frame
}
