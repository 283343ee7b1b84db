//! Pins, tags and locks of frames.
ghost use Rattle.std.specs.Prelude.{◌≡◌, ◌≢◌, ◌<◌, ℕ, IfNone, IfOk, IfSome, None, Some, false, true};
ghost use Rattle.std.specs.Bool.{OnTrue};
ghost use Rattle.state_word.specs.Fields.{fields};
ghost use Rattle.block_tag.specs.Names.{names_block, packed_tag, partition_number};
ghost use Rattle.pin_core.specs.declared.view.Content.TheVariants.{Unlocked};
ghost use Rattle.pin_core.specs.declared.view.Io.TheVariants.{Quiet};
ghost use Rattle.pin_core.specs.declared.view.MapChange.TheVariants.{Stable};
ghost use Rattle.pin_core.specs.declared.view.Role.TheVariants.{Absent, HandedOut, Victim};
ghost use Rattle.pin_core.specs.Kinds.{CanLoadTag};
ghost use Rattle.pin_core.specs.State.{link};
ghost use Rattle.pin_core.specs.Steps.{HoldsNoHeader};
ghost use Rattle.table_rule.specs.Blocks.{has_block};
ghost use Rattle.table_rule.specs.Layout.{tag_partition};
ghost use Rattle.table_rule.specs.declared.turn.Turn.TheVariants.{Partition};
ghost use Rattle.frame_table.specs.Content.{CanLock, exclusive_link};
ghost use Rattle.frame_table.specs.Latches.{MayLeave};
ghost use Rattle.frame_table.specs.Seats.{CanStep, CanTurn, Finds, HasFlag, HasOnlyPin, HoldsWord};
ghost use Rattle.frame_table.specs.Seats.{IsSeat, Looked, MayChange, MayUnpin, Stores, frames_of};
ghost use Rattle.frame_table.specs.Seats.{mapped_link, relations_of, stored_link};
ghost use Rattle.clock_sweep.specs.FreeLists.{IsOfSweep};
ghost use Rattle.cleanup_lock.specs.Waking.{Woken};
ghost use Rattle.map_partitions.specs.Partition.{HoldsLatch};
ghost use Rattle.buffer_frames.specs.Inspections.{Inspects};
ghost use Rattle.buffer_frames.specs.Rests.{HasOneLatch, LinksRest, Stands};

use access_rings::Ring;
use atomic_table::Seat;
use block_tag::Tag;
use buffer_frames::{HeldPins, Seen, inspect};
use byte_devices::LogDevice;
use cleanup_lock::unpin_and_wake;
use clock_sweep::{Census, NoUnpinned, QueuePass, Sweep, victim};
use content_locks::exclusive;
use frame_table::{FrameTable, Pin, Value};
use map_partitions::find;
use pin_core::View;
use segment_store::BlockLane;
use state_word::{Flag, has, pins, usage};
use std::sync::Wait;

/// The frame that the map gives is pinned under its partition's latch, and the pin remembers the
/// block's tag. Once the latch is left another backend may give the frame to another block
/// (`BufferAlloc` pins, and then releases the partition lock). The latch can be left here: an edit
/// does so before it pins.
pub fn pin_found<L: BlockLane, G: LogDevice, R: Wait>(
    table: &FrameTable<L, G>,
    rt: &R,
    seat: &mut Seat<Value<L, G>, View>,
    tag: Tag,
    frame: u32,
    ring: bool,
) -> Pin
    requires seat { CanStep table.now seat.old frame }
    requires turn { CanTurn table.now seat.old (Partition (partition_number tag)) }
    requires may { MayLeave (Partition (partition_number tag)) seat.old.me.0 }
    requires absent { (link seat.old.me.0 frame).role ≡ Absent }
    requires tag { names_block tag ≡ true }
    requires finds { Finds seat.old.me.0 (packed_tag tag) frame }
    ensures pinned { Looked (mapped_link (packed_tag tag) ring (link seat.old.me.0 frame))
        (link seat.new.me.0 frame) }
{
    table.pin(rt, seat, tag, frame, ring)
}

/// The frame that a hint names has the block only if its tag, loaded under the pin, says so
/// (`ReadRecentBuffer` compares the tags, too).
pub fn is_of_block<L: BlockLane, G: LogDevice>(
    table: &FrameTable<L, G>,
    seat: &mut Seat<Value<L, G>, View>,
    frame: u32,
    tag: &Tag,
) -> bool
    requires seat { CanStep table.now seat.old frame }
    requires pinned { (link seat.old.me.0 frame).role ≡ HandedOut }
    ensures tagged { OnTrue result ((link seat.new.me.0 frame).tag ≡ Some (packed_tag tag.now)) }
{
    match table.load_tag(seat, frame) {
        Some(other) => other == *tag,
        None => false,
    }
}

/// Under its header a frame has a tag exactly if the word that is held has `BM_TAG_VALID`
/// (`InvalidateVictimBuffer` clears the tag and the flag under one header lock).
pub fn has_tag<L: BlockLane, G: LogDevice>(
    table: &FrameTable<L, G>,
    seat: &mut Seat<Value<L, G>, View>,
    frame: u32,
) -> bool
    requires seat { CanStep table.now seat.old frame }
    requires right { CanLoadTag (link seat.old.me.0 frame).role (link seat.old.me.0 frame).header }
    ensures flagged { (link seat.old.me.0 frame).pending ≡ false
        → IfSome (link seat.old.me.0 frame).header (λ word. result ≡ word.tag_valid) }
{
    table.load_tag(seat, frame).is_some()
}

/// The state word and the tag that are answered of a frame are those that it had while the call
/// held its header, once (`pg_buffercache_pages` copies both between `LockBufHdr` and
/// `UnlockBufHdr`).
pub fn inspect_frame<L: BlockLane, G: LogDevice, R: Wait>(
    table: &FrameTable<L, G>,
    rt: &R,
    seat: &mut Seat<Value<L, G>, View>,
    held: &HeldPins,
    frame: u32,
) -> Seen
    requires stands { Stands table.now seat.old }
    requires rests { LinksRest held.now seat.old.me.0 }
    requires inside { frame < frames_of table.now }
    ensures { Inspects frame result seat.old.me.0 seat.new.me.0 }
{
    inspect(table, rt, seat, held, frame)
}

/// The word that a victim's header is held at shows no pin (`StrategyGetBuffer` looks at the
/// reference count under the header lock).
pub fn lock_victim<L: BlockLane, G: LogDevice, R: Wait>(
    table: &FrameTable<L, G>,
    rt: &R,
    seat: &mut Seat<Value<L, G>, View>,
    sweep: &Sweep,
    queue: &mut QueuePass,
    census: &mut Census,
    ring: &mut Option<Ring>,
) -> Result<(u32, u64), NoUnpinned>
    requires seat { IsSeat table.now seat.old }
    requires headless { HoldsNoHeader seat.old.me.0 }
    requires queue { IsOfSweep sweep.now queue.old }
    requires census { census.old.frames ≡ frames_of table.now }
    ensures unpinned { IfOk result (λ held. (fields held.1).pins ≡ 0) }
{
    let held = victim(table, rt, seat, sweep, queue, census, ring)?;
    let word = held.word();
    Ok((held.into_frame(), word))
}

/// A victim loses its block only if its state word, under the header, shows one pin, the backend's
/// own, and a clean page (`InvalidateVictimBuffer`). The backend looks at no other frame for that.
pub fn take_tag<L: BlockLane, G: LogDevice>(
    table: &FrameTable<L, G>,
    seat: &mut Seat<Value<L, G>, View>,
    frame: u32,
    word: u64,
) -> bool
    requires seat { CanStep table.now seat.old frame }
    requires held { (link seat.old.me.0 frame).header ≡ Some (fields word) }
    requires settled { (link seat.old.me.0 frame).pending ≡ false }
    requires victim { (link seat.old.me.0 frame).role ≡ Victim }
    requires unlocked { (link seat.old.me.0 frame).content ≡ Unlocked }
    requires quiet { (link seat.old.me.0 frame).io ≡ Quiet }
    requires remembered { (link seat.old.me.0 frame).tag ≢ None }
    requires latch { (tag : ℕ) → (link seat.old.me.0 frame).tag ≡ Some tag
        → MayChange seat.old.me.0 (tag_partition tag) }
    ensures stores { OnTrue result (Stores frame seat.old.me.0 seat.new.me.0) }
{
    if pins(word) != 1 || has(word, Flag::Dirty) {
        return false;
    }
    table.store_tag(seat, frame, None);
    true
}

/// A victim gets a block only if a second look at the map, under the partition's latch, found no
/// frame that has it (`BufferAlloc` looks at what `BufTableInsert` answers).
pub fn insert_new<L: BlockLane, G: LogDevice>(
    table: &FrameTable<L, G>,
    seat: &mut Seat<Value<L, G>, View>,
    frame: u32,
    tag: Tag,
) -> Option<u32>
    requires seat { CanStep table.now seat.old frame }
    requires turn { CanTurn table.now seat.old (Partition (partition_number tag)) }
    requires alone { HasOnlyPin (link seat.old.me.0 frame) }
    requires untagged { HoldsWord (HasFlag false) (link seat.old.me.0 frame) }
    requires tag { names_block tag ≡ true }
    requires block { has_block (relations_of table.now) tag ≡ true }
    requires latch { HasOneLatch (partition_number tag) seat.old.me.0 }
    requires holds { HoldsLatch Stable seat.old.me.0 (partition_number tag) }
    ensures stored { IfNone result
        (link seat.new.me.0 frame ≡ stored_link (link seat.old.me.0 frame)) }
{
    if let Some(other) = find(table, seat, &tag) {
        return Some(other);
    }
    table.store_tag(seat, frame, Some(tag));
    None
}

/// A state word is stored only under its header, which that unlocks, and made of the word that was
/// found there (`LockBufHdr`, `UnlockBufHdr`). A word that was only loaded may have changed since.
pub fn lower_usage<L: BlockLane, G: LogDevice, R: Wait>(
    table: &FrameTable<L, G>,
    rt: &R,
    seat: &mut Seat<Value<L, G>, View>,
    frame: u32,
)
    requires seat { CanStep table.now seat.old frame }
    requires headless { HoldsNoHeader seat.old.me.0 }
    requires settled { (link seat.old.me.0 frame).pending ≡ false }
    ensures unlocked { (link seat.new.me.0 frame).header ≡ None }
{
    let word = table.lock_header(rt, seat, frame);
    if pins(word) == 0 && usage(word) != 0 {
        table.lower_usage(seat, frame, word);
        return;
    }
    table.unlock_header(seat, frame);
}

/// A content lock is taken exclusively only if no backend has it (`LWLockAttemptLock`).
pub fn lock_exclusively<L: BlockLane, G: LogDevice, R: Wait>(
    table: &FrameTable<L, G>,
    rt: &R,
    seat: &mut Seat<Value<L, G>, View>,
    frame: u32,
)
    requires seat { CanStep table.now seat.old frame }
    requires view { CanLock (link seat.old.me.0 frame) }
    ensures exclusive { link seat.new.me.0 frame ≡ exclusive_link (link seat.old.me.0 frame) }
{
    exclusive(table, rt, seat, frame)
}

/// Whoever gives up a pin wakes the backend that waits once that one's pin is the only one left,
/// and no sooner (`UnpinBuffer`).
pub fn unpin<L: BlockLane, G: LogDevice, R: Wait>(
    table: &FrameTable<L, G>,
    rt: &R,
    seat: &mut Seat<Value<L, G>, View>,
    pin: Pin,
)
    requires seat { CanStep table.now seat.old pin.frame }
    requires headless { HoldsNoHeader seat.old.me.0 }
    requires settled { (link seat.old.me.0 pin.frame).pending ≡ false }
    requires pinned { MayUnpin (link seat.old.me.0 pin.frame) }
    ensures woken { Woken pin.frame seat.old.me.0 seat.new.me.0 }
{
    unpin_and_wake(table, rt, seat, pin);
}
