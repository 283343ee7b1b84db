//! The page of a frame goes to its lane.
ghost use Rattle.std.specs.Prelude.{[], ◌≡◌, ◌<◌, ◌≤◌, Some, true, false, IfErr, IfOk};
ghost use Rattle.std.specs.Bool.{OnTrue, OnFalse};
ghost use Rattle.block_tag.specs.Names.{lane_number, names_block, packed_tag};
ghost use Rattle.page_layout.specs.Fields.{lsn_of};
ghost use Rattle.pin_core.specs.declared.view.Content.TheVariants.{Unlocked};
ghost use Rattle.pin_core.specs.declared.view.Io.TheVariants.{Output, Quiet};
ghost use Rattle.pin_core.specs.declared.view.LastWrite.TheVariants.{Done};
ghost use Rattle.pin_core.specs.State.{link};
ghost use Rattle.table_rule.specs.Blocks.{has_block};
ghost use Rattle.frame_table.specs.Seats.{SameMarks, SameSeat, frames_of, lanes_in, relations_of};
ghost use Rattle.buffer_frames.specs.Rests.{HasNoLatch, LinksRest, LinksRestBeside, Stands};
ghost use Rattle.buffer_frames.specs.Tokens.{IsPinnedFor};
ghost use Rattle.buffer_frames.specs.declared.flushing.FlushedPage.TheVariants.{Written};
ghost use Rattle.clock_sweep.specs.Choosing.{frame_at_place};
ghost use Rattle.buffer_frames.specs.Flushing.{CallsLane, CopiesAnd, EndedInError, EndedWritten};
ghost use Rattle.buffer_frames.specs.Flushing.{FlushAnswer, ClearsJust, IsNotRejected};
ghost use Rattle.buffer_frames.specs.Flushing.{RejectsVictim, VictimAnswer, WriteAnswer};
ghost use Rattle.buffer_frames.specs.Flushing.{met_flushing, met_lane_write};
ghost use Rattle.buffer_frames.specs.Stages.{HasVictimOf, IsPinnedValid, IsSharing};
ghost use Rattle.buffer_frames.specs.Working.{Calls, IsFlushCall, KeepsNotes, Made, Within};
ghost use Rattle.buffer_frames.specs.Working.{Works, WorksAt};

use crate::pins::HeldPins;
use access_rings::{Ring, RingKind};
use atomic_table::Seat;
use block_tag::{Tag, lane_of};
use byte_devices::LogDevice;
use content_locks::{Direction, IoRight, copy_out, end_io, share, start_io, try_share, unshare};
use frame_table::{FrameTable, Turn, Value};
use page_layout::Page;
use pin_core::View;
use segment_store::BlockLane;
use state_word::{Flag, IoEnd, has};
use std::sync::Wait;
use thiserror::Error;
use wal_flush::{FlushLog, flush_to};

/// Why a frame was not written.
#[derive(Clone, Copy, PartialEq, Eq, Debug, Error)]
pub enum FrameFlushError {
    /// The log was not flushed up to the page's position.
    #[error("{0}")]
    Log(FlushLog),
    /// The lane failed to write the page of this block.
    #[error("a page was not written")]
    WriteFault { tag: Tag },
}

/// What a flush did with the page of a frame.
#[derive(Clone, Copy, PartialEq, Eq, Debug)]
pub enum FlushedPage {
    /// It went to its lane.
    Written,
    /// It was clean, and nothing was written.
    Clean,
}

impl FlushedPage {
    ghost use Rattle.std.specs.Prelude.{◌≡◌};
    ghost use Rattle.buffer_frames.specs.Flushing.{is_written};

    /// Whether the page went to its lane.
    fn is_written(self) -> bool
        ensures { result ≡ is_written self }
    {
        match self {
            FlushedPage::Written => true,
            FlushedPage::Clean => false,
        }
    }
}

/// What a flush leaves of a victim that was chosen.
#[derive(Clone, Copy, PartialEq, Eq, Debug)]
pub enum VictimPage {
    /// It may be taken: its page was clean, or was written.
    Clean { written: bool },
    /// Its content lock was refused, or the ring gave it up: another one is to be chosen.
    Spared,
}

/// Clears BM_JUST_DIRTIED under the header, so that a change of the page from now on shows when the
/// write ends.
fn clear_just<L: BlockLane, G: LogDevice, R: Wait>(
    table: &FrameTable<L, G>,
    rt: &R,
    seat: &mut Seat<Value<L, G>, View>,
    _held: &HeldPins,
    frame: u32,
    _tag: Tag,
)
    requires stands { Stands table.now seat.old }
    requires others { LinksRestBeside frame _held.now seat.old.me.0 }
    requires inside { frame < frames_of table.now }
    requires shares { IsSharing Output (packed_tag _tag) (link seat.old.me.0 frame) }
    ensures works { Works frame table.now seat.old seat.new }
    ensures marks { SameMarks seat.old.me.0 seat.new.me.0 }
    ensures shares { IsSharing Output (packed_tag _tag) (link seat.new.me.0 frame) }
    ensures calls { Made [] seat.old.me.0 seat.new.me.0 }
    ensures clears { Within (ClearsJust frame) seat.old.me.0 seat.new.me.0 }
    ensures met { seat.new.me.0.met ≡ seat.old.me.0.met }
{
    let word = table.lock_header(rt, seat, frame);
    table.clear_just_dirtied(seat, frame, word);
}

/// Writes the page that was copied to its lane, once the log is flushed up to the page's position.
/// Whether the lane took it.
fn write_lane<L: BlockLane, G: LogDevice, R: Wait>(
    table: &FrameTable<L, G>,
    rt: &R,
    seat: &mut Seat<Value<L, G>, View>,
    frame: u32,
    tag: Tag,
    page: &Page,
) -> bool
    requires stands { Stands table.now seat.old }
    requires inside { frame < frames_of table.now }
    requires tag { names_block tag ≡ true }
    requires block { has_block (relations_of table.now) tag ≡ true }
    requires shares { IsSharing Output (packed_tag tag) (link seat.old.me.0 frame) }
    requires copied { (link seat.old.me.0 frame).copied ≡ Some page.now }
    requires log_first { lsn_of page.now ≤ seat.old.me.0.flushed }
    ensures works { Works frame table.now seat.old seat.new }
    ensures marks { SameMarks seat.old.me.0 seat.new.me.0 }
    ensures shares { IsSharing Output (packed_tag tag) (link seat.new.me.0 frame) }
    ensures done { OnTrue result ((link seat.new.me.0 frame).last_write ≡ Done) }
    ensures calls { CallsLane result (lane_number tag (lanes_in table.now)) (packed_tag tag)
        page.now seat.old.me.0 seat.new.me.0 }
    ensures met { seat.new.me.0.met ≡ met_lane_write result seat.old.me.0.met }
{
    let lane = lane_of(&tag, table.lanes());
    table.take_turn(rt, seat, Turn::Lane(lane));
    let mut out = table.lane_out(seat, lane);
    let written = out.write(seat, frame, tag, page);
    table.lane_back(seat, lane, out);
    table.leave_turn(seat, Turn::Lane(lane));
    written.is_ok()
}

/// Flushes the log up to the position of the page that was copied, and writes the page.
fn write_logged<L: BlockLane, G: LogDevice, R: Wait>(
    table: &FrameTable<L, G>,
    rt: &R,
    seat: &mut Seat<Value<L, G>, View>,
    frame: u32,
    tag: Tag,
    page: &Page,
) -> Result<(), FrameFlushError>
    requires stands { Stands table.now seat.old }
    requires inside { frame < frames_of table.now }
    requires tag { names_block tag ≡ true }
    requires block { has_block (relations_of table.now) tag ≡ true }
    requires shares { IsSharing Output (packed_tag tag) (link seat.old.me.0 frame) }
    requires copied { (link seat.old.me.0 frame).copied ≡ Some page.now }
    ensures works { Works frame table.now seat.old seat.new }
    ensures marks { SameMarks seat.old.me.0 seat.new.me.0 }
    ensures shares { IsSharing Output (packed_tag tag) (link seat.new.me.0 frame) }
    ensures done { IfOk result (λ _. (link seat.new.me.0 frame).last_write ≡ Done) }
    ensures answer { WriteAnswer L.contents table.now (lane_number tag (lanes_in table.now)) tag
        page.now seat.old.me.0 seat.new.me.0 result }
    ensures met { seat.new.me.0.met ≡ met_flushing result seat.old.me.0.met }
{
    if let Err(why) = flush_to(table, rt, seat, page.lsn()) {
        return Err(FrameFlushError::Log(why));
    }
    if write_lane(table, rt, seat, frame, tag, page) {
        Ok(())
    } else {
        Err(FrameFlushError::WriteFault { tag })
    }
}

/// If the backend has the right to write the frame's page, writes a copy of it, and ends that.
fn write_out<L: BlockLane, G: LogDevice, R: Wait>(
    table: &FrameTable<L, G>,
    rt: &R,
    seat: &mut Seat<Value<L, G>, View>,
    held: &HeldPins,
    right: IoRight,
    tag: Tag,
    page: &mut Page,
) -> Result<(), FrameFlushError>
    requires stands { Stands table.now seat.old }
    requires others { LinksRestBeside right.frame held.now seat.old.me.0 }
    requires inside { right.frame < frames_of table.now }
    requires tag { names_block tag ≡ true }
    requires block { has_block (relations_of table.now) tag ≡ true }
    requires shares { IsSharing Output (packed_tag tag) (link seat.old.me.0 right.frame) }
    requires begun { seat.old.me.0.had_output ≡ true }
    ensures works { Works right.frame table.now seat.old seat.new }
    ensures shares { IsSharing Quiet (packed_tag tag) (link seat.new.me.0 right.frame) }
    ensures answer { CopiesAnd
        (λ p v w. WriteAnswer L.contents table.now (lane_number tag (lanes_in table.now)) tag p v w
        result) right.frame seat.old.me.0 seat.new.me.0 }
    ensures met { seat.new.me.0.met ≡ met_flushing result seat.old.me.0.met }
    ensures ended { IfErr result (λ _. EndedInError right.frame seat.old.me.0 seat.new.me.0) }
    ensures written { IfOk result (λ _. EndedWritten right.frame seat.old.me.0 seat.new.me.0) }
{
    let frame = right.frame();
    clear_just(table, rt, seat, held, frame, tag);
    copy_out(table, rt, seat, frame, page);
    match write_logged(table, rt, seat, frame, tag, page) {
        Ok(()) => {
            end_io(table, rt, seat, right, IoEnd::WriteOk);
            Ok(())
        }
        Err(why) => {
            end_io(table, rt, seat, right, IoEnd::Bad);
            Err(why)
        }
    }
}

/// Writes the page of a frame whose content lock the backend shares, if it is dirty, and gives the
/// lock up.
fn flush_shared<L: BlockLane, G: LogDevice, R: Wait>(
    table: &FrameTable<L, G>,
    rt: &R,
    seat: &mut Seat<Value<L, G>, View>,
    held: &HeldPins,
    frame: u32,
    tag: Tag,
    page: &mut Page,
) -> Result<FlushedPage, FrameFlushError>
    requires stands { Stands table.now seat.old }
    requires others { LinksRestBeside frame held.now seat.old.me.0 }
    requires inside { frame < frames_of table.now }
    requires tag { names_block tag ≡ true }
    requires block { has_block (relations_of table.now) tag ≡ true }
    requires shares { IsSharing Quiet (packed_tag tag) (link seat.old.me.0 frame) }
    ensures works { Works frame table.now seat.old seat.new }
    ensures pinned { IsPinnedValid (packed_tag tag) (link seat.new.me.0 frame) }
    ensures answer { FlushAnswer L.contents table.now (lane_number tag (lanes_in table.now)) tag
        frame seat.old.me.0 seat.new.me.0 result }
    ensures met { seat.new.me.0.met ≡ met_flushing result seat.old.me.0.met }
    ensures ended { IfErr result (λ _. EndedInError frame seat.old.me.0 seat.new.me.0) }
    ensures written { IfOk result
        (λ flushed. flushed ≡ Written → EndedWritten frame seat.old.me.0 seat.new.me.0) }
{
    let Some(right) = start_io(table, rt, seat, frame, Direction::Output) else {
        unshare(table, seat, frame);
        return Ok(FlushedPage::Clean);
    };
    let written = write_out(table, rt, seat, held, right, tag, page);
    unshare(table, seat, frame);
    match written {
        Ok(()) => Ok(FlushedPage::Written),
        Err(why) => Err(why),
    }
}

/// Writes the page of a frame that the backend pins if it is dirty, after flushing the log up to
/// the page's position (`FlushBuffer`).
pub fn flush_pinned<L: BlockLane, G: LogDevice, R: Wait>(
    table: &FrameTable<L, G>,
    rt: &R,
    seat: &mut Seat<Value<L, G>, View>,
    held: &HeldPins,
    frame: u32,
    tag: Tag,
    page: &mut Page,
) -> Result<FlushedPage, FrameFlushError>
    requires stands { Stands table.now seat.old }
    requires others { LinksRestBeside frame held.now seat.old.me.0 }
    requires inside { frame < frames_of table.now }
    requires tag { names_block tag ≡ true }
    requires block { has_block (relations_of table.now) tag ≡ true }
    requires pinned { IsPinnedValid (packed_tag tag) (link seat.old.me.0 frame) }
    ensures works { Works frame table.now seat.old seat.new }
    ensures pinned { IsPinnedValid (packed_tag tag) (link seat.new.me.0 frame) }
    ensures answer { FlushAnswer L.contents table.now (lane_number tag (lanes_in table.now)) tag
        frame seat.old.me.0 seat.new.me.0 result }
    ensures met { seat.new.me.0.met ≡ met_flushing result seat.old.me.0.met }
    ensures ended { IfErr result (λ _. EndedInError frame seat.old.me.0 seat.new.me.0) }
    ensures written { IfOk result
        (λ flushed. flushed ≡ Written → EndedWritten frame seat.old.me.0 seat.new.me.0) }
{
    share(table, rt, seat, frame);
    flush_shared(table, rt, seat, held, frame, tag, page)
}

/// Writes the page of a frame that callers hold tokens of, if it is dirty (`FlushOneBuffer`).
pub fn flush_frame<L: BlockLane, G: LogDevice, R: Wait>(
    table: &FrameTable<L, G>,
    rt: &R,
    seat: &mut Seat<Value<L, G>, View>,
    held: &HeldPins,
    frame: u32,
    tag: Tag,
    page: &mut Page,
) -> Result<FlushedPage, FrameFlushError>
    requires stands { Stands table.now seat.old }
    requires latches { HasNoLatch seat.old.me.0 }
    requires rests { LinksRest held.now seat.old.me.0 }
    requires pinned { IsPinnedFor tag frame held.now }
    requires unlocked { (link seat.old.me.0 frame).content ≡ Unlocked }
    requires inside { frame < frames_of table.now }
    requires tag { names_block tag ≡ true }
    requires block { has_block (relations_of table.now) tag ≡ true }
    ensures seat { SameSeat seat.old seat.new }
    ensures stands { Stands table.now seat.new }
    ensures latches { HasNoLatch seat.new.me.0 }
    ensures works { WorksAt frame seat.old.me.0 seat.new.me.0 }
    ensures notes { KeepsNotes (link seat.old.me.0 frame) (link seat.new.me.0 frame) }
    ensures rests { LinksRest held.now seat.new.me.0 }
    ensures unlocked { (link seat.new.me.0 frame).content ≡ Unlocked }
    ensures answer { FlushAnswer L.contents table.now (lane_number tag (lanes_in table.now)) tag
        frame seat.old.me.0 seat.new.me.0 result }
    ensures met { seat.new.me.0.met ≡ met_flushing result seat.old.me.0.met }
    ensures ended { IfErr result (λ _. EndedInError frame seat.old.me.0 seat.new.me.0) }
    ensures written { IfOk result
        (λ flushed. flushed ≡ Written → EndedWritten frame seat.old.me.0 seat.new.me.0) }
{
    flush_pinned(table, rt, seat, held, frame, tag, page)
}

/// Whether the ring gives a dirty victim up, so that it needn't be written: it came from the
/// current place of a ring for bulk reads, and the log would have to be flushed for it.
fn is_rejected<L: BlockLane, G: LogDevice, R: Wait>(
    table: &FrameTable<L, G>,
    rt: &R,
    seat: &mut Seat<Value<L, G>, View>,
    frame: u32,
    _tag: Tag,
    page: &mut Page,
    ring: &mut Option<Ring>,
    from_ring: bool,
) -> bool
    requires stands { Stands table.now seat.old }
    requires inside { frame < frames_of table.now }
    requires shares { IsSharing Quiet (packed_tag _tag) (link seat.old.me.0 frame) }
    requires place { from_ring ≡ true → frame_at_place ring.old ≡ Some frame }
    ensures works { Works frame table.now seat.old seat.new }
    ensures shares { IsSharing Quiet (packed_tag _tag) (link seat.new.me.0 frame) }
    ensures calls { Made [] seat.old.me.0 seat.new.me.0 }
    ensures met { seat.new.me.0.met ≡ seat.old.me.0.met }
    ensures rejected { OnTrue result
        (RejectsVictim frame from_ring ring.old ring.new seat.old.me.0 seat.new.me.0) }
    ensures ring { OnFalse result (ring.new ≡ ring.old) }
    ensures keeps { OnFalse result
        (IsNotRejected frame from_ring ring.old seat.old.me.0 seat.new.me.0) }
{
    let Some(ring) = ring else {
        return false;
    };
    if !from_ring || ring.kind() != RingKind::BulkRead {
        return false;
    }
    copy_out(table, rt, seat, frame, page);
    if page.lsn() <= table.load_flushed(seat) {
        return false;
    }
    ring.reject(frame)
}

/// Writes a dirty victim, unless its content lock is refused or the ring gives it up. `from_ring`
/// says that it stands at the ring's current place. Its page is copied before the ring is asked,
/// since the ring decides by the page's log position, and copied again when it is flushed.
pub fn flush_victim<L: BlockLane, G: LogDevice, R: Wait>(
    table: &FrameTable<L, G>,
    rt: &R,
    seat: &mut Seat<Value<L, G>, View>,
    held: &HeldPins,
    frame: u32,
    tag: Tag,
    page: &mut Page,
    ring: &mut Option<Ring>,
    from_ring: bool,
) -> Result<VictimPage, FrameFlushError>
    requires stands { Stands table.now seat.old }
    requires victim { HasVictimOf (packed_tag tag) frame held.now seat.old.me.0 }
    requires inside { frame < frames_of table.now }
    requires tag { names_block tag ≡ true }
    requires block { has_block (relations_of table.now) tag ≡ true }
    requires place { from_ring ≡ true → frame_at_place ring.old ≡ Some frame }
    ensures works { Works frame table.now seat.old seat.new }
    ensures victim { HasVictimOf (packed_tag tag) frame held.now seat.new.me.0 }
    ensures answer { VictimAnswer L.contents table.now (lane_number tag (lanes_in table.now)) tag
        frame from_ring ring.old ring.new seat.old.me.0 seat.new.me.0 result }
    ensures calls { Calls IsFlushCall seat.old.me.0 seat.new.me.0 }
    ensures met { seat.new.me.0.met ≡ met_flushing result seat.old.me.0.met }
    ensures ended { IfErr result (λ _. EndedInError frame seat.old.me.0 seat.new.me.0) }
{
    if !has(table.look(seat, frame), Flag::Dirty) {
        return Ok(VictimPage::Clean { written: false });
    }
    if let Err(_why) = try_share(table, seat, frame) {
        return Ok(VictimPage::Spared);
    }
    if is_rejected(table, rt, seat, frame, tag, page, ring, from_ring) {
        unshare(table, seat, frame);
        return Ok(VictimPage::Spared);
    }
    match flush_shared(table, rt, seat, held, frame, tag, page) {
        // Whether it was written now, or was clean by then, it may be taken.
        Ok(flushed) => Ok(VictimPage::Clean {
            written: flushed.is_written(),
        }),
        Err(why) => Err(why),
    }
}
