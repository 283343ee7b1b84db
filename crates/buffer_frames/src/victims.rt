//! A frame is freed for a block.
ghost use Rattle.std.specs.Prelude.{◌≡◌, ◌<◌, ◌≤◌, None, Some, true, is_some};
ghost use Rattle.std.specs.Prelude.{IfErr, IfSome, MatchResult};
ghost use Rattle.block_tag.specs.Names.{names_block, packed_tag};
ghost use Rattle.pin_core.specs.Kinds as kinds;
ghost use Rattle.pin_core.specs.State.{link};
ghost use Rattle.table_rule.specs.Blocks.{has_block};
ghost use Rattle.frame_table.specs.FrameSteps.{Did};
ghost use Rattle.frame_table.specs.Kinds.{pins};
ghost use Rattle.frame_table.specs.Seats.{frames_of, relations_of, tag_word};
ghost use Rattle.io_counts.specs.Counts.{context_of, io_with, one_of};
ghost use Rattle.buffer_frames.specs.Rests.{HasNoLatch, Stands};
ghost use Rattle.buffer_frames.specs.Tokens.{IsNew};
ghost use Rattle.buffer_frames.specs.Backends.{IsFurnished, KeepsOwn, choice_of};
ghost use Rattle.buffer_frames.specs.Bringing.{PushesNone};
ghost use Rattle.buffer_frames.specs.Hinting.{NotesHint};
ghost use Rattle.buffer_frames.specs.Keeps.{IsReady, Keeps};
ghost use Rattle.buffer_frames.specs.Outside.{kept_by_block_reads, outside_of, ring_shape};
ghost use Rattle.buffer_frames.specs.Stages.{HasVictim};
ghost use Rattle.buffer_frames.specs.Counting.{writes_of};
ghost use Rattle.buffer_frames.specs.VictimChoices.{taken_from};
ghost use Rattle.buffer_frames.specs.Victims.{CensusClaimed, CensusFreed, ClaimsAndCounts};
ghost use Rattle.buffer_frames.specs.Victims.{FreesAndCounts, PinsOrRests, met_claimed, met_freed};
ghost use Rattle.buffer_frames.specs.Working.{Calls, IsFlushCall};

use crate::backend::Backend;
use crate::choosing::{Chosen, choose};
use crate::entering::{enter_or_pin, give_up};
use crate::erasing::erase;
use crate::flushing::{FrameFlushError, VictimPage, flush_victim};
use crate::pins::HeldPins;
use access_rings::{Ring, RingKind};
use atomic_table::Seat;
use block_tag::Tag;
use byte_devices::LogDevice;
use clock_sweep::Sweep;
use frame_table::{FrameTable, Pin, Value};
use io_counts::{IoEvent, Tally, context_of};
use pin_core::View;
use segment_store::BlockLane;
use std::sync::Wait;
use thiserror::Error;

/// Why no frame was freed for a block.
#[derive(Clone, Copy, PartialEq, Eq, Debug, Error)]
pub enum VictimError {
    /// Each frame, of this many, was seen pinned. The census has their words.
    #[error("each of {frames} frames is pinned")]
    NoUnpinned { frames: u32 },
    /// The page of a dirty frame was not written.
    #[error("{0}")]
    Flush(FrameFlushError),
}

/// The result of one try to free a frame.
pub(crate) enum Freed {
    /// The frame is a victim without a tag.
    Ready(Pin),
    /// Another victim is to be chosen.
    Again,
    Refused(VictimError),
}

/// The tag of a victim, if it has one.
fn tag_of_victim<L: BlockLane, G: LogDevice>(
    table: &FrameTable<L, G>,
    seat: &mut Seat<Value<L, G>, View>,
    _held: &HeldPins,
    frame: u32,
) -> Option<Tag>
    requires stands { Stands table.now seat.old }
    requires latches { HasNoLatch seat.old.me.0 }
    requires victim { HasVictim frame _held.now seat.old.me.0 }
    requires inside { frame < frames_of table.now }
    ensures keeps { Keeps outside_of None table.now seat.old seat.new }
    ensures victim { HasVictim frame _held.now seat.new.me.0 }
    ensures tag { IfSome result (λ tag. names_block tag ≡ true) }
    ensures block { IfSome result (λ tag. has_block (relations_of table.now) tag ≡ true) }
    ensures remembered { IfSome result
        (λ tag. (link seat.new.me.0 frame).tag ≡ Some (packed_tag tag)) }
    ensures did { Did (pins kinds.load_tag) frame seat.old.me.0 seat.new.me.0 (tag_word result) }
{
    table.load_tag(seat, frame)
}

/// Counts the write of a victim's page, if it was written.
fn count_write(io: &mut Tally, context: Option<RingKind>, written: bool)
    ensures { io.new
        ≡ record io.old { counted = io_with context (writes_of written) io.old.counted } }
{
    if written {
        io.count(context, IoEvent::Write);
    }
}

/// What the tag that a frame lost counts as. `from_ring` says that the frame stood at the ring's
/// current place.
fn event_of(from_ring: bool) -> IoEvent
    ensures { one_of result ≡ taken_from from_ring }
{
    if from_ring {
        IoEvent::Reuse
    } else {
        IoEvent::Eviction
    }
}

/// One try to free a frame: chooses a victim and pins it, writes it if it is dirty, and takes its
/// tag (`GetVictimBuffer`).
fn make_victim<L: BlockLane, G: LogDevice, R: Wait>(
    table: &FrameTable<L, G>,
    rt: &R,
    seat: &mut Seat<Value<L, G>, View>,
    held: &HeldPins,
    sweep: &Sweep,
    backend: &mut Backend,
    ring: &mut Option<Ring>,
) -> Freed
    requires ready { IsReady table.now held.now seat.old }
    requires own { IsFurnished table.now sweep.now backend.old seat.old.me.0 }
    ensures keeps { Keeps kept_by_block_reads None table.now seat.old seat.new }
    ensures own { KeepsOwn table.now sweep.now backend.old backend.new seat.new.me.0 }
    ensures unpushed { PushesNone backend.old.queue backend.new.queue }
    ensures ring { ring_shape ring.new ≡ ring_shape ring.old }
    ensures answer { FreesAndCounts L.contents table.now (context_of ring.old) held.now
        seat.old.me.0 (choice_of backend.old ring.old)
        seat.new.me.0 (choice_of backend.new ring.new)
        backend.old.io.counted backend.new.io.counted result }
    ensures census { CensusFreed (frames_of table.now) backend.new.census result }
    ensures met { seat.new.me.0.met ≡ met_freed result seat.old.me.0.met }
    ensures calls { Calls IsFlushCall seat.old.me.0 seat.new.me.0 }
    ensures turns { seat.old.me.0.turns ≤ seat.new.me.0.turns }
    ensures hints { seat.new.me.0.hints ≡ seat.old.me.0.hints }
{
    let context = context_of(ring);
    let Chosen { pin, from_ring } = match choose(
        table,
        rt,
        seat,
        held,
        sweep,
        &mut backend.queue,
        &mut backend.census,
        ring,
    ) {
        Ok(chosen) => chosen,
        Err(why) => {
            return Freed::Refused(VictimError::NoUnpinned { frames: why.frames });
        }
    };
    let frame = pin.frame();
    let Some(tag) = tag_of_victim(table, seat, held, frame) else {
        return Freed::Ready(pin);
    };
    match flush_victim(
        table,
        rt,
        seat,
        held,
        frame,
        tag,
        &mut backend.page,
        ring,
        from_ring,
    ) {
        Ok(VictimPage::Clean { written }) => count_write(&mut backend.io, context, written),
        Ok(VictimPage::Spared) => {
            give_up(table, rt, seat, held, pin);
            return Freed::Again;
        }
        Err(why) => {
            give_up(table, rt, seat, held, pin);
            return Freed::Refused(VictimError::Flush(why));
        }
    }
    if erase(
        table,
        rt,
        seat,
        held,
        frame,
        &tag,
        &mut backend.lookups.turns,
    ) {
        backend.io.count(context, event_of(from_ring));
        return Freed::Ready(pin);
    }
    give_up(table, rt, seat, held, pin);
    Freed::Again
}

/// Frees a frame for a block and brings the block there, or pins the frame that another backend has
/// brought it into meanwhile.
// Not inlined: a hit doesn't come here, and is shorter without it.
#[inline(never)]
pub(crate) fn bring_in<L: BlockLane, G: LogDevice, R: Wait>(
    table: &FrameTable<L, G>,
    rt: &R,
    seat: &mut Seat<Value<L, G>, View>,
    held: &HeldPins,
    sweep: &Sweep,
    backend: &mut Backend,
    tag: Tag,
    ring: &mut Option<Ring>,
) -> Result<Pin, VictimError>
    requires ready { IsReady table.now held.now seat.old }
    requires own { IsFurnished table.now sweep.now backend.old seat.old.me.0 }
    requires tag { names_block tag ≡ true }
    requires block { has_block (relations_of table.now) tag ≡ true }
    requires new { IsNew tag held.now }
    ensures keeps { Keeps kept_by_block_reads None table.now seat.old seat.new }
    ensures own { KeepsOwn table.now sweep.now backend.old backend.new seat.new.me.0 }
    ensures unpushed { IfErr result (λ _. PushesNone backend.old.queue backend.new.queue) }
    ensures ring { ring_shape ring.new ≡ ring_shape ring.old }
    ensures pinned { PinsOrRests (frames_of table.now) (packed_tag tag) held.now
        seat.new.me.0 result }
    ensures answer { ClaimsAndCounts L.contents table.now (context_of ring.old) tag held.now
        (is_some ring.old) seat.old.me.0 (choice_of backend.old ring.old)
        seat.new.me.0 (choice_of backend.new ring.new)
        backend.old.io.counted backend.new.io.counted result }
    ensures census { CensusClaimed (frames_of table.now) backend.new.census result }
    ensures met { seat.new.me.0.met ≡ met_claimed result seat.old.me.0.met }
    ensures calls { Calls IsFlushCall seat.old.me.0 seat.new.me.0 }
    ensures turns { seat.old.me.0.turns ≤ seat.new.me.0.turns }
    ensures hints { MatchResult result
        (λ p. NotesHint (frames_of table.now) tag p.frame seat.old.me.0.hints seat.new.me.0.hints)
        (λ _. seat.new.me.0.hints ≡ seat.old.me.0.hints) }
{
    let ringed = ring.is_some();
    for _ in rt.forever() {
        match make_victim(table, rt, seat, held, sweep, backend, ring) {
            Freed::Ready(victim) => {
                if let Some(pin) = enter_or_pin(
                    table,
                    rt,
                    seat,
                    held,
                    sweep,
                    &mut backend.queue,
                    victim,
                    tag,
                    ringed,
                    &mut backend.lookups.turns,
                ) {
                    return Ok(pin);
                }
            }
            Freed::Again => {}
            Freed::Refused(why) => return Err(why),
        }
    }
    unreachable!()
}
