//! A victim loses its tag.
ghost use Rattle.std.specs.Prelude.{◌≡◌, ◌+◌, ◌<◌, None, Some, true};
ghost use Rattle.std.specs.Bool.{OnFalse, OnTrue};
ghost use Rattle.block_tag.specs.Names.{names_block, packed_tag, partition_number};
ghost use Rattle.pin_core.specs.declared.view.MapChange.TheVariants.{Stable};
ghost use Rattle.pin_core.specs.State.{link};
ghost use Rattle.frame_table.specs.Seats.{frames_of};
ghost use Rattle.map_partitions.specs.Partition.{HoldsLatch};
ghost use Rattle.buffer_frames.specs.Rests.{HasNoLatch, HasOneLatch, Stands};
ghost use Rattle.buffer_frames.specs.Keeps.{Keeps};
ghost use Rattle.buffer_frames.specs.Outside.{emptying_of, freeing_of, shown_count};
ghost use Rattle.buffer_frames.specs.Stages.{HasVictim};
ghost use Rattle.buffer_frames.specs.VictimChoices.{ClearsTag, FindsInUse, IsDirtied};
ghost use Rattle.buffer_frames.specs.Working.{Within};

use crate::lookup::take_counted;
use crate::pins::HeldPins;
use atomic_table::Seat;
use block_tag::Tag;
use byte_devices::LogDevice;
use frame_table::{FrameTable, Value};
use map_partitions::{give_turn, leave_out};
use pin_core::View;
use segment_store::BlockLane;
use state_word::{Flag, has, pins};
use std::sync::Wait;

/// Takes the tag from a victim, under the latch of its partition, if no other backend pins the
/// frame and it isn't dirty.
fn erase_latched<L: BlockLane, G: LogDevice, R: Wait>(
    table: &FrameTable<L, G>,
    rt: &R,
    seat: &mut Seat<Value<L, G>, View>,
    _held: &HeldPins,
    frame: u32,
    tag: &Tag,
) -> bool
    requires stands { Stands table.now seat.old }
    requires latch { HasOneLatch (partition_number tag.now) seat.old.me.0 }
    requires holds { HoldsLatch Stable seat.old.me.0 (partition_number tag.now) }
    requires victim { HasVictim frame _held.now seat.old.me.0 }
    requires inside { frame < frames_of table.now }
    requires tag { names_block tag.now ≡ true }
    requires remembered { (link seat.old.me.0 frame).tag ≡ Some (packed_tag tag.now) }
    ensures keeps { Keeps emptying_of (Some (partition_number tag.now)) table.now
        seat.old seat.new }
    ensures taken { OnTrue result (seat.new.me.0.cleared ≡ seat.old.me.0.cleared + 1) }
    ensures untaken { OnFalse result (seat.new.me.0.cleared ≡ seat.old.me.0.cleared) }
    ensures victim { HasVictim frame _held.now seat.new.me.0 }
    ensures emptied { OnTrue result (Within (ClearsTag frame) seat.old.me.0 seat.new.me.0) }
    ensures in_use { OnFalse result
        (Within (FindsInUse IsDirtied frame) seat.old.me.0 seat.new.me.0) }
{
    let word = table.lock_header(rt, seat, frame);
    if pins(word) != 1 || has(word, Flag::Dirty) {
        table.unlock_header(seat, frame);
        return false;
    }
    table.store_tag(seat, frame, None);
    table.clear(seat, frame, word);
    leave_out(table, seat, tag);
    true
}

/// Takes the tag from a victim, if no other backend pins the frame and it isn't dirty
/// (`InvalidateVictimBuffer`).
pub(crate) fn erase<L: BlockLane, G: LogDevice, R: Wait>(
    table: &FrameTable<L, G>,
    rt: &R,
    seat: &mut Seat<Value<L, G>, View>,
    held: &HeldPins,
    frame: u32,
    tag: &Tag,
    turns: &mut u64,
) -> bool
    requires stands { Stands table.now seat.old }
    requires latches { HasNoLatch seat.old.me.0 }
    requires victim { HasVictim frame held.now seat.old.me.0 }
    requires inside { frame < frames_of table.now }
    requires tag { names_block tag.now ≡ true }
    requires remembered { (link seat.old.me.0 frame).tag ≡ Some (packed_tag tag.now) }
    requires counted { turns.old ≡ shown_count seat.old.me.0.turns }
    ensures keeps { Keeps freeing_of None table.now seat.old seat.new }
    ensures taken { OnTrue result (seat.new.me.0.cleared ≡ seat.old.me.0.cleared + 1) }
    ensures untaken { OnFalse result (seat.new.me.0.cleared ≡ seat.old.me.0.cleared) }
    ensures victim { HasVictim frame held.now seat.new.me.0 }
    ensures counted { turns.new ≡ shown_count seat.new.me.0.turns }
    ensures turns { seat.new.me.0.turns ≡ seat.old.me.0.turns + 1 }
    ensures hints { seat.new.me.0.hints ≡ seat.old.me.0.hints }
    ensures emptied { OnTrue result (Within (ClearsTag frame) seat.old.me.0 seat.new.me.0) }
    ensures in_use { OnFalse result
        (Within (FindsInUse IsDirtied frame) seat.old.me.0 seat.new.me.0) }
{
    let partition = tag.partition();
    take_counted(table, rt, seat, partition, turns);
    let erased = erase_latched(table, rt, seat, held, frame, tag);
    give_turn(table, seat, partition);
    erased
}
