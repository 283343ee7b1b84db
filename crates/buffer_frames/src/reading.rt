//! A block is read.
ghost use Rattle.std.specs.Prelude.{◌≡◌, ◌<◌, None, true, is_some};
ghost use Rattle.block_tag.specs.Names.{lane_number, names_block, packed_tag};
ghost use Rattle.table_rule.specs.Blocks.{has_block};
ghost use Rattle.frame_table.specs.Seats.{frames_of, lanes_in, relations_of};
ghost use Rattle.io_counts.specs.Counts.{context_of, io_with};
ghost use Rattle.buffer_frames.specs.Tokens.{IsNew};
ghost use Rattle.buffer_frames.specs.Backends.{IsFurnished, KeepsOwn, choice_of};
ghost use Rattle.buffer_frames.specs.Hinting.{TakesTurns};
ghost use Rattle.buffer_frames.specs.Keeps.{IsReady, Keeps};
ghost use Rattle.buffer_frames.specs.Outside.{kept_by_block_reads, ring_shape};
ghost use Rattle.buffer_frames.specs.Reads.{CensusPinned, CensusRead, PinNotes, PinsAndCounts};
ghost use Rattle.buffer_frames.specs.Reads.{ReadAnswer, ReadNotes, ReadsAndCounts};
ghost use Rattle.buffer_frames.specs.Reads.{fetch_counts, met_read_block};
ghost use Rattle.buffer_frames.specs.Victims.{PinsOrRests, met_claimed};

use crate::backend::Backend;
use crate::fetching::{FetchError, FetchedPage, fetch_page};
use crate::hinting::give_back;
use crate::lookup::look_up;
use crate::pins::HeldPins;
use crate::victims::{VictimError, bring_in};
use access_rings::{Ring, RingKind};
use atomic_table::Seat;
use block_tag::Tag;
use byte_devices::LogDevice;
use clock_sweep::Sweep;
use frame_table::{FrameTable, Pin, Value};
use io_counts::{IoEvent, Tally, context_of};
use pin_core::View;
use segment_store::BlockLane;
use std::sync::Wait;
use thiserror::Error;

/// Why a block was not read.
#[derive(Clone, Copy, PartialEq, Eq, Debug, Error)]
pub enum BlockError {
    /// No frame was freed for it.
    #[error("{0}")]
    NoFrame(VictimError),
    /// Its page didn't come into the frame that was pinned for it.
    #[error("{0}")]
    Unread(FetchError),
}

/// The pin of a block whose page is there, and how it came there.
pub struct PinnedBlock {
    pub pin: Pin,
    pub fetched: FetchedPage,
}

/// Counts the hit of a block whose page was there already, or the read of a page that a lane gave,
/// sound or not.
#[inline(always)]
fn count_fetch(io: &mut Tally, context: Option<RingKind>, came: Result<FetchedPage, FetchError>)
    ensures { io.new
        ≡ record io.old { counted = io_with context (fetch_counts came) io.old.counted } }
{
    match came {
        Ok(FetchedPage::Hit) => io.count(context, IoEvent::Hit),
        Ok(FetchedPage::Read) => io.count(context, IoEvent::Read),
        Err(FetchError::Unsound) => io.count(context, IoEvent::Read),
        Err(FetchError::ReadFault) => {}
    }
}

/// Pins a block's frame, or brings the block into one.
fn pin_block<L: BlockLane, G: LogDevice, R: Wait>(
    table: &FrameTable<L, G>,
    rt: &R,
    seat: &mut Seat<Value<L, G>, View>,
    held: &HeldPins,
    sweep: &Sweep,
    backend: &mut Backend,
    tag: &Tag,
    ring: &mut Option<Ring>,
) -> Result<Pin, VictimError>
    requires ready { IsReady table.now held.now seat.old }
    requires own { IsFurnished table.now sweep.now backend.old seat.old.me.0 }
    requires tag { names_block tag.now ≡ true }
    requires block { has_block (relations_of table.now) tag.now ≡ true }
    requires new { IsNew tag.now held.now }
    ensures keeps { Keeps kept_by_block_reads None table.now seat.old seat.new }
    ensures own { KeepsOwn table.now sweep.now backend.old backend.new seat.new.me.0 }
    ensures ring { ring_shape ring.new ≡ ring_shape ring.old }
    ensures pinned { PinsOrRests (frames_of table.now) (packed_tag tag.now) held.now
        seat.new.me.0 result }
    ensures census { CensusPinned (frames_of table.now) backend.old.census
        backend.new.census result }
    ensures met { seat.new.me.0.met ≡ met_claimed result seat.old.me.0.met }
    ensures calls { PinsAndCounts L.contents table.now tag.now held.now (is_some ring.old)
        backend.new.lookups.hint (choice_of backend.old ring.old) (choice_of backend.new ring.new)
        (context_of ring.old) seat.old.me.0 seat.new.me.0
        backend.old.io.counted backend.new.io.counted result }
    ensures turns { TakesTurns backend.new.lookups.hint seat.old.me.0.turns seat.new.me.0.turns }
    ensures hints { PinNotes (frames_of table.now) tag.now backend.new.lookups.hint
        seat.old.me.0.hints seat.new.me.0.hints result }
{
    let ringed = ring.is_some();
    let (found, hint) = look_up(
        table,
        rt,
        seat,
        held,
        tag,
        ringed,
        &mut backend.lookups.turns,
    );
    if let Some(pin) = found {
        backend.lookups.hint = hint;
        return Ok(pin);
    }
    let pinned = bring_in(table, rt, seat, held, sweep, backend, *tag, ring);
    backend.lookups.hint = hint;
    pinned
}

/// Reads a block that callers have no pin of (`ReadBuffer_common`): its frame is pinned, or it
/// comes into one, and its page is there. A refusal leaves all pins as they were. The backend
/// counts the latches of partitions that it takes, and says what it saw of the block's hint.
pub fn read_block<L: BlockLane, G: LogDevice, R: Wait>(
    table: &FrameTable<L, G>,
    rt: &R,
    seat: &mut Seat<Value<L, G>, View>,
    held: &HeldPins,
    sweep: &Sweep,
    backend: &mut Backend,
    tag: &Tag,
    ring: &mut Option<Ring>,
) -> Result<PinnedBlock, BlockError>
    requires ready { IsReady table.now held.now seat.old }
    requires own { IsFurnished table.now sweep.now backend.old seat.old.me.0 }
    requires tag { names_block tag.now ≡ true }
    requires block { has_block (relations_of table.now) tag.now ≡ true }
    requires new { IsNew tag.now held.now }
    ensures keeps { Keeps kept_by_block_reads None table.now seat.old seat.new }
    ensures own { KeepsOwn table.now sweep.now backend.old backend.new seat.new.me.0 }
    ensures ring { ring_shape ring.new ≡ ring_shape ring.old }
    ensures answer { ReadAnswer L.contents table.now tag.now held.now seat.old.me.0
        seat.new.me.0 result }
    ensures census { CensusRead (frames_of table.now) backend.old.census backend.new.census result }
    ensures met { seat.new.me.0.met ≡ met_read_block result seat.old.me.0.met }
    // What it did was counted: these calls of devices, the tags that victims lost, a hit.
    ensures calls { ReadsAndCounts L.contents table.now tag.now held.now (is_some ring.old)
        backend.new.lookups.hint (choice_of backend.old ring.old) (choice_of backend.new ring.new)
        (context_of ring.old) (lane_number tag.now (lanes_in table.now))
        seat.old.me.0 seat.new.me.0 backend.old.io.counted backend.new.io.counted result }
    // It took no latch of a partition only if the block's hint gave its frame.
    ensures turns { TakesTurns backend.new.lookups.hint seat.old.me.0.turns seat.new.me.0.turns }
    // If the hint gave it, no hint was stored. Else the hint names the frame that the block was
    // pinned in.
    ensures hints { ReadNotes (frames_of table.now) tag.now backend.new.lookups.hint
        seat.old.me.0.hints seat.new.me.0.hints result }
{
    let context = context_of(ring);
    let pin = match pin_block(table, rt, seat, held, sweep, backend, tag, ring) {
        Ok(pin) => pin,
        Err(why) => return Err(BlockError::NoFrame(why)),
    };
    let frame = pin.frame();
    match fetch_page(table, rt, seat, held, frame, tag, &mut backend.page) {
        Ok(fetched) => {
            count_fetch(&mut backend.io, context, Ok(fetched));
            Ok(PinnedBlock { pin, fetched })
        }
        Err(why) => {
            count_fetch(&mut backend.io, context, Err(why));
            give_back(table, rt, seat, held, pin, *tag);
            Err(BlockError::Unread(why))
        }
    }
}
