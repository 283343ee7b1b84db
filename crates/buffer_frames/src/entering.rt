//! A block comes into a victim.
ghost use Rattle.std.specs.Prelude.{[], ◌≡◌, ◌+◌, ◌<◌, ℕ, None, Some, true};
ghost use Rattle.std.specs.Prelude.{IfNone, IfSome, MatchOption};
ghost use Rattle.std.specs.Bool.{OnFalse, OnTrue};
ghost use Rattle.block_tag.specs.Names.{names_block, packed_tag, partition_number};
ghost use Rattle.pin_core.specs.declared.view.MapChange.TheVariants.{Stable};
ghost use Rattle.table_rule.specs.Blocks.{has_block};
ghost use Rattle.pin_core.specs.declared.view.View.{View};
ghost use Rattle.pin_core.specs.Kinds as kinds;
ghost use Rattle.pin_core.specs.State.{link};
ghost use Rattle.frame_table.specs.Kinds.{pins};
ghost use Rattle.frame_table.specs.FrameSteps.{Tried};
ghost use Rattle.frame_table.specs.Seats.{Finds, Lacks, RemembersNoOther, frames_of, relations_of};
ghost use Rattle.map_partitions.specs.Partition.{HoldsLatch};
ghost use Rattle.clock_sweep.specs.FreeFrames.{SameQueue};
ghost use Rattle.clock_sweep.specs.FreeLists.{IsFreeList};
ghost use Rattle.cleanup_lock.specs.Waking.{Woken};
ghost use Rattle.buffer_frames.specs.Rests.{HasNoLatch, HasOneLatch, LinksRest, Stands};
ghost use Rattle.buffer_frames.specs.Tokens.{IsNew};
ghost use Rattle.buffer_frames.specs.Hinting.{NotesHint};
ghost use Rattle.buffer_frames.specs.Keeps.{Keeps, SameBut};
ghost use Rattle.buffer_frames.specs.Outside.{outside_of, searched_of, shown_count};
ghost use Rattle.buffer_frames.specs.Bringing.{Brings, EntersAndStores, PutsBack};
ghost use Rattle.buffer_frames.specs.Stages.{HasVictim, Pins};
ghost use Rattle.buffer_frames.specs.VictimChoices.{FindsInUse, UnpinsVictim, IsAssigned};
ghost use Rattle.buffer_frames.specs.Working.{Within};

use crate::lookup::{pin_found, take_counted};
use crate::pins::HeldPins;
use atomic_table::Seat;
use block_tag::Tag;
use byte_devices::LogDevice;
use cleanup_lock::unpin_and_wake;
use clock_sweep::{QueuePass, Sweep};
use frame_table::{FrameTable, Pin, Value};
use map_partitions::{enter, find, give_turn, store_hint};
use pin_core::View;
use segment_store::BlockLane;
use state_word::{Flag, has, pins};
use std::sync::Wait;

/// Stores the tag in the victim, if no other backend has pinned it and it has no tag, and enters
/// the pair. The pin is the caller's then.
fn store_latched<L: BlockLane, G: LogDevice, R: Wait>(
    table: &FrameTable<L, G>,
    rt: &R,
    seat: &mut Seat<Value<L, G>, View>,
    _held: &HeldPins,
    frame: u32,
    tag: Tag,
) -> bool
    requires stands { Stands table.now seat.old }
    requires latch { HasOneLatch (partition_number tag) seat.old.me.0 }
    requires holds { HoldsLatch Stable seat.old.me.0 (partition_number tag) }
    requires victim { HasVictim frame _held.now seat.old.me.0 }
    requires inside { frame < frames_of table.now }
    requires tag { names_block tag ≡ true }
    requires block { has_block (relations_of table.now) tag ≡ true }
    requires lacks { Lacks seat.old.me.0 (packed_tag tag) }
    ensures keeps { Keeps outside_of (Some (partition_number tag)) table.now seat.old seat.new }
    ensures stored { OnTrue result (Pins (packed_tag tag) frame _held.now seat.new.me.0) }
    ensures refused { OnFalse result (HasVictim frame _held.now seat.new.me.0) }
    ensures in_use { OnFalse result
        (Within (FindsInUse IsAssigned frame) seat.old.me.0 seat.new.me.0) }
{
    let word = table.lock_header(rt, seat, frame);
    if pins(word) != 1 || has(word, Flag::TagValid) {
        table.unlock_header(seat, frame);
        return false;
    }
    table.store_tag(seat, frame, Some(tag));
    table.assign(seat, frame, word);
    enter(table, seat, tag, frame);
    true
}

/// Gives a victim up.
pub(crate) fn give_up<L: BlockLane, G: LogDevice, R: Wait>(
    table: &FrameTable<L, G>,
    rt: &R,
    seat: &mut Seat<Value<L, G>, View>,
    _held: &HeldPins,
    victim: Pin,
)
    requires stands { Stands table.now seat.old }
    requires victim { HasVictim victim.frame _held.now seat.old.me.0 }
    requires inside { victim.frame < frames_of table.now }
    ensures keeps { SameBut outside_of seat.old seat.new }
    ensures stands { Stands table.now seat.new }
    ensures partitions { seat.new.me.0.partitions ≡ seat.old.me.0.partitions }
    ensures remembers { (tag f : ℕ) → RemembersNoOther tag (link seat.old.me.0 f)
        → RemembersNoOther tag (link seat.new.me.0 f) }
    ensures rests { LinksRest _held.now seat.new.me.0 }
    ensures did { Woken victim.frame seat.old.me.0 seat.new.me.0 }
{
    unpin_and_wake(table, rt, seat, victim);
}

/// Gives a victim up that another backend's frame stands for, and pins that frame, which a search
/// of the map just gave. The victim goes to the free list, unless that is full.
fn pin_other<L: BlockLane, G: LogDevice, R: Wait>(
    table: &FrameTable<L, G>,
    rt: &R,
    seat: &mut Seat<Value<L, G>, View>,
    held: &HeldPins,
    sweep: &Sweep,
    queue: &mut QueuePass,
    victim: Pin,
    tag: Tag,
    frame: u32,
    ring: bool,
) -> Pin
    requires stands { Stands table.now seat.old }
    requires queue { IsFreeList table.now sweep.now queue.old }
    requires latch { HasOneLatch (partition_number tag) seat.old.me.0 }
    requires victim { HasVictim victim.frame held.now seat.old.me.0 }
    requires own { victim.frame < frames_of table.now }
    requires tag { names_block tag ≡ true }
    requires new { IsNew tag held.now }
    requires inside { frame < frames_of table.now }
    requires finds { Finds seat.old.me.0 (packed_tag tag) frame }
    requires remembers { RemembersNoOther (packed_tag tag) (link seat.old.me.0 frame) }
    ensures keeps { Keeps outside_of (Some (partition_number tag)) table.now seat.old seat.new }
    ensures queue { IsFreeList table.now sweep.now queue.new }
    ensures lasts { SameQueue queue.old queue.new }
    ensures frame { result.frame ≡ frame }
    ensures pinned { Pins (packed_tag tag) frame held.now seat.new.me.0 }
    ensures gave_up { (given : View) × Woken victim.frame seat.old.me.0 given
        × Tried (pins (kinds.pin_mapped (packed_tag tag) ring)) frame given seat.new.me.0 true }
    ensures put_back { PutsBack victim.frame queue.old queue.new }
{
    let given = victim.frame();
    give_up(table, rt, seat, held, victim);
    sweep.free(rt, queue, given);
    pin_found(table, rt, seat, held, &tag, frame, ring)
}

/// Searches the map once more, under the latch, and brings the block into the victim if it has no
/// frame still. None if the victim isn't free any more.
fn enter_latched<L: BlockLane, G: LogDevice, R: Wait>(
    table: &FrameTable<L, G>,
    rt: &R,
    seat: &mut Seat<Value<L, G>, View>,
    held: &HeldPins,
    sweep: &Sweep,
    queue: &mut QueuePass,
    victim: Pin,
    tag: Tag,
    ring: bool,
) -> Option<Pin>
    requires stands { Stands table.now seat.old }
    requires queue { IsFreeList table.now sweep.now queue.old }
    requires latch { HasOneLatch (partition_number tag) seat.old.me.0 }
    requires holds { HoldsLatch Stable seat.old.me.0 (partition_number tag) }
    requires victim { HasVictim victim.frame held.now seat.old.me.0 }
    requires inside { victim.frame < frames_of table.now }
    requires tag { names_block tag ≡ true }
    requires block { has_block (relations_of table.now) tag ≡ true }
    requires new { IsNew tag held.now }
    ensures keeps { Keeps outside_of (Some (partition_number tag)) table.now seat.old seat.new }
    ensures queue { IsFreeList table.now sweep.now queue.new }
    ensures lasts { SameQueue queue.old queue.new }
    ensures inside { IfSome result (λ p. p.frame < frames_of table.now) }
    ensures pinned { IfSome result (λ p. Pins (packed_tag tag) p.frame held.now seat.new.me.0) }
    ensures rests { IfNone result (LinksRest held.now seat.new.me.0) }
    ensures unpushed { IfNone result (queue.new ≡ queue.old) }
    ensures gave_up { IfNone result ((found : View)
        × Within (FindsInUse IsAssigned victim.frame) seat.old.me.0 found
        × Woken victim.frame found seat.new.me.0) }
    ensures brings { IfSome result (λ p. Brings tag ring victim.frame p.frame
        seat.old.me.0 queue.old seat.new.me.0 queue.new) }
{
    if let Some(frame) = find(table, seat, &tag) {
        return Some(pin_other(
            table, rt, seat, held, sweep, queue, victim, tag, frame, ring,
        ));
    }
    if store_latched(table, rt, seat, held, victim.frame(), tag) {
        return Some(victim);
    }
    give_up(table, rt, seat, held, victim);
    None
}

/// Brings a block into a victim, or pins the frame that another backend has brought it into
/// meanwhile (`BufferAlloc`), and stores its hint. None if the victim isn't free any more.
pub(crate) fn enter_or_pin<L: BlockLane, G: LogDevice, R: Wait>(
    table: &FrameTable<L, G>,
    rt: &R,
    seat: &mut Seat<Value<L, G>, View>,
    held: &HeldPins,
    sweep: &Sweep,
    queue: &mut QueuePass,
    victim: Pin,
    tag: Tag,
    ring: bool,
    turns: &mut u64,
) -> Option<Pin>
    requires stands { Stands table.now seat.old }
    requires queue { IsFreeList table.now sweep.now queue.old }
    requires latches { HasNoLatch seat.old.me.0 }
    requires victim { HasVictim victim.frame held.now seat.old.me.0 }
    requires inside { victim.frame < frames_of table.now }
    requires tag { names_block tag ≡ true }
    requires block { has_block (relations_of table.now) tag ≡ true }
    requires new { IsNew tag held.now }
    requires counted { turns.old ≡ shown_count seat.old.me.0.turns }
    ensures keeps { Keeps searched_of None table.now seat.old seat.new }
    ensures queue { IsFreeList table.now sweep.now queue.new }
    ensures lasts { SameQueue queue.old queue.new }
    ensures inside { IfSome result (λ p. p.frame < frames_of table.now) }
    ensures pinned { IfSome result (λ p. Pins (packed_tag tag) p.frame held.now seat.new.me.0) }
    ensures rests { IfNone result (LinksRest held.now seat.new.me.0) }
    ensures counted { turns.new ≡ shown_count seat.new.me.0.turns }
    ensures turns { seat.new.me.0.turns ≡ seat.old.me.0.turns + 1 }
    ensures hints { MatchOption result (seat.new.me.0.hints ≡ seat.old.me.0.hints)
        (λ p. NotesHint (frames_of table.now) tag p.frame seat.old.me.0.hints seat.new.me.0.hints) }
    ensures stored { IfSome result (λ p. EntersAndStores (frames_of table.now) tag held.now ring
        victim.frame p.frame [] seat.old.me.0 queue.old seat.new.me.0 queue.new) }
    ensures gave_up { IfNone result (UnpinsVictim (FindsInUse IsAssigned victim.frame) victim.frame
        seat.old.me.0 seat.new.me.0) }
    ensures unpushed { IfNone result (queue.new ≡ queue.old) }
{
    let partition = tag.partition();
    take_counted(table, rt, seat, partition, turns);
    let entered = enter_latched(table, rt, seat, held, sweep, queue, victim, tag, ring);
    give_turn(table, seat, partition);
    let pin = entered?;
    store_hint(table, seat, &tag, pin.frame());
    Some(pin)
}
