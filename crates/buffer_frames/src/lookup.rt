//! A block is looked up.
ghost use Rattle.std.specs.Prelude.{◌≡◌, ◌+◌, ◌<◌, None, Some, true};
ghost use Rattle.std.specs.Prelude.{IfSome, IfNone, MatchOption, option_map};
ghost use Rattle.block_tag.specs.Names.{names_block, packed_tag, partition_number};
ghost use Rattle.pin_core.specs.declared.view.MapChange.TheVariants.{Stable};
ghost use Rattle.pin_core.specs.State.{link};
ghost use Rattle.pin_core.specs.Kinds as kinds;
ghost use Rattle.frame_table.specs.Kinds.{pins};
ghost use Rattle.frame_table.specs.FrameSteps.{Tried};
ghost use Rattle.table_rule.specs.declared.turn.Turn.TheVariants.{Partition};
ghost use Rattle.frame_table.specs.declared.pin.Pin.{Pin};
ghost use Rattle.frame_table.specs.Latches.{DidTurn, IsTurned, MayTake, SameWork, view_counted};
ghost use Rattle.frame_table.specs.Seats.{CanTurn, Finds, Grows, Lacks, RemembersNoOther, SameSeat};
ghost use Rattle.frame_table.specs.Seats.{frames_of};
ghost use Rattle.map_partitions.specs.Partition.{HoldsLatch};
ghost use Rattle.buffer_frames.specs.Rests.{HasOneLatch, LinksRest, Stands};
ghost use Rattle.buffer_frames.specs.Tokens.{IsNew};
ghost use Rattle.buffer_frames.specs.Hinting.{LeavesHint, TakesTurns};
ghost use Rattle.buffer_frames.specs.Lookups.{LooksUp, SeesAndPins, SeesNone, UnderPartition};
ghost use Rattle.buffer_frames.specs.Keeps.{IsReady, Keeps};
ghost use Rattle.buffer_frames.specs.Outside.{outside_of, searched_of, shown_count};
ghost use Rattle.buffer_frames.specs.Stages.{Pins};

use crate::hinting::{HintSeen, try_hint};
use crate::pins::HeldPins;
use atomic_table::Seat;
use block_tag::Tag;
use byte_devices::LogDevice;
use frame_table::{FrameTable, Pin, Value};
use map_partitions::{find, give_turn, store_hint, take_turn};
use pin_core::View;
use segment_store::BlockLane;
use std::sync::Wait;

/// Pins the frame that a search of the map just gave for a block that callers have no pin of, under
/// its partition's latch.
pub(crate) fn pin_found<L: BlockLane, G: LogDevice, R: Wait>(
    table: &FrameTable<L, G>,
    rt: &R,
    seat: &mut Seat<Value<L, G>, View>,
    _held: &HeldPins,
    tag: &Tag,
    frame: u32,
    ring: bool,
) -> Pin
    requires stands { Stands table.now seat.old }
    requires rests { LinksRest _held.now seat.old.me.0 }
    requires latch { HasOneLatch (partition_number tag.now) seat.old.me.0 }
    requires tag { names_block tag.now ≡ true }
    requires new { IsNew tag.now _held.now }
    requires inside { frame < frames_of table.now }
    requires finds { Finds seat.old.me.0 (packed_tag tag.now) frame }
    requires remembers { RemembersNoOther (packed_tag tag.now) (link seat.old.me.0 frame) }
    ensures keeps { Keeps outside_of (Some (partition_number tag.now)) table.now seat.old seat.new }
    ensures frame { result.frame ≡ frame }
    ensures pinned { Pins (packed_tag tag.now) frame _held.now seat.new.me.0 }
    ensures did { Tried (pins (kinds.pin_mapped (packed_tag tag.now) ring)) frame seat.old.me.0
        seat.new.me.0 true }
{
    table.pin(rt, seat, *tag, frame, ring)
}

/// Searches the map for a block that callers have no pin of, and pins the frame that it gives,
/// under its partition's latch.
pub(crate) fn pin_mapped<L: BlockLane, G: LogDevice, R: Wait>(
    table: &FrameTable<L, G>,
    rt: &R,
    seat: &mut Seat<Value<L, G>, View>,
    held: &HeldPins,
    tag: &Tag,
    ring: bool,
) -> Option<Pin>
    requires stands { Stands table.now seat.old }
    requires rests { LinksRest held.now seat.old.me.0 }
    requires latch { HasOneLatch (partition_number tag.now) seat.old.me.0 }
    requires holds { HoldsLatch Stable seat.old.me.0 (partition_number tag.now) }
    requires tag { names_block tag.now ≡ true }
    requires new { IsNew tag.now held.now }
    ensures keeps { Keeps outside_of (Some (partition_number tag.now)) table.now seat.old seat.new }
    ensures inside { IfSome result (λ p. p.frame < frames_of table.now) }
    ensures pinned { IfSome result (λ p. Pins (packed_tag tag.now) p.frame held.now seat.new.me.0) }
    ensures rests { IfNone result (LinksRest held.now seat.new.me.0) }
    ensures lacks { IfNone result (Lacks seat.new.me.0 (packed_tag tag.now)) }
    ensures did { MatchOption result (SeesNone tag.now seat.old.me.0 seat.new.me.0)
        (λ p. SeesAndPins tag.now p.frame ring seat.old.me.0 seat.new.me.0) }
{
    let frame = find(table, seat, tag)?;
    Some(pin_found(table, rt, seat, held, tag, frame, ring))
}

/// Takes the latch of a partition, and counts that.
pub(crate) fn take_counted<L: BlockLane, G: LogDevice, R: Wait>(
    table: &FrameTable<L, G>,
    rt: &R,
    seat: &mut Seat<Value<L, G>, View>,
    partition: u32,
    turns: &mut u64,
)
    requires seat { CanTurn table.now seat.old (Partition partition) }
    requires free { MayTake (Partition partition) seat.old.me.0 }
    requires counted { turns.old ≡ shown_count seat.old.me.0.turns }
    ensures seat { SameSeat seat.old seat.new }
    ensures work { SameWork (view_counted true (Partition partition) seat.old.me.0) seat.new.me.0 }
    ensures grows { Grows seat.old.me.0 seat.new.me.0 }
    ensures turned { IsTurned true (Partition partition) seat.old.me.0 seat.new.me.0 }
    ensures holds { HoldsLatch Stable seat.new.me.0 partition }
    ensures counted { turns.new ≡ shown_count seat.new.me.0.turns }
    ensures did { DidTurn true (Partition partition) seat.old.me.0 seat.new.me.0 }
{
    take_turn(table, rt, seat, partition);
    *turns = turns.saturating_add(1);
}

/// Searches the map under its partition's latch for a block that callers have no pin of, and pins
/// the frame that it gives.
// Not inlined: a hit doesn't come here, and is shorter without it.
#[inline(never)]
fn search<L: BlockLane, G: LogDevice, R: Wait>(
    table: &FrameTable<L, G>,
    rt: &R,
    seat: &mut Seat<Value<L, G>, View>,
    held: &HeldPins,
    tag: &Tag,
    ring: bool,
    turns: &mut u64,
) -> Option<Pin>
    requires ready { IsReady table.now held.now seat.old }
    requires tag { names_block tag.now ≡ true }
    requires new { IsNew tag.now held.now }
    requires counted { turns.old ≡ shown_count seat.old.me.0.turns }
    ensures keeps { Keeps searched_of None table.now seat.old seat.new }
    ensures inside { IfSome result (λ p. p.frame < frames_of table.now) }
    ensures pinned { IfSome result (λ p. Pins (packed_tag tag.now) p.frame held.now seat.new.me.0) }
    ensures rests { IfNone result (LinksRest held.now seat.new.me.0) }
    ensures counted { turns.new ≡ shown_count seat.new.me.0.turns }
    ensures turns { seat.new.me.0.turns ≡ seat.old.me.0.turns + 1 }
    ensures hints { seat.new.me.0.hints ≡ seat.old.me.0.hints }
    ensures did { MatchOption result
        (UnderPartition tag.now (SeesNone tag.now) seat.old.me.0 seat.new.me.0)
        (λ p. UnderPartition tag.now (SeesAndPins tag.now p.frame ring)
        seat.old.me.0 seat.new.me.0) }
{
    let partition = tag.partition();
    take_counted(table, rt, seat, partition, turns);
    let pinned = pin_mapped(table, rt, seat, held, tag, ring);
    give_turn(table, seat, partition);
    pinned
}

/// Looks up a block that callers have no pin of, and pins the frame that has it (`BufferAlloc`): by
/// its hint, without a latch, or else by the map. It answers what was seen of the hint, too.
pub(crate) fn look_up<L: BlockLane, G: LogDevice, R: Wait>(
    table: &FrameTable<L, G>,
    rt: &R,
    seat: &mut Seat<Value<L, G>, View>,
    held: &HeldPins,
    tag: &Tag,
    ring: bool,
    turns: &mut u64,
) -> (Option<Pin>, HintSeen)
    requires ready { IsReady table.now held.now seat.old }
    requires tag { names_block tag.now ≡ true }
    requires new { IsNew tag.now held.now }
    requires counted { turns.old ≡ shown_count seat.old.me.0.turns }
    ensures keeps { Keeps searched_of None table.now seat.old seat.new }
    ensures inside { IfSome result.0 (λ p. p.frame < frames_of table.now) }
    ensures pinned { IfSome result.0
        (λ p. Pins (packed_tag tag.now) p.frame held.now seat.new.me.0) }
    ensures rests { IfNone result.0 (LinksRest held.now seat.new.me.0) }
    ensures counted { turns.new ≡ shown_count seat.new.me.0.turns }
    ensures turns { TakesTurns result.1 seat.old.me.0.turns seat.new.me.0.turns }
    ensures hints { MatchOption result.0 (seat.new.me.0.hints ≡ seat.old.me.0.hints)
        (λ p. LeavesHint (frames_of table.now) tag.now p.frame result.1
        seat.old.me.0.hints seat.new.me.0.hints) }
    ensures did { LooksUp (frames_of table.now) tag.now held.now ring seat.old.me.0 seat.new.me.0
        result.1 (option_map Pin.frame result.0) }
{
    let seen = match try_hint(table, rt, seat, held, tag, ring) {
        Ok(pin) => {
            let frame = pin.frame();
            return (Some(pin), HintSeen::Had { frame });
        }
        Err(seen) => seen,
    };
    let Some(pin) = search(table, rt, seat, held, tag, ring, turns) else {
        return (None, seen);
    };
    store_hint(table, seat, tag, pin.frame());
    (Some(pin), seen)
}
