//! Pages, their reads and writes, and what comes before these.
ghost use Rattle.std.specs.Prelude.{◌≡◌, ◌<◌, IfOk, IfSome, IsSome, false, true};
ghost use Rattle.std.specs.Bool.{OnTrue};
ghost use Rattle.std.specs.Option.{ForSome};
ghost use Rattle.block_tag.specs.Names.{lane_number, names_block};
ghost use Rattle.page_layout.specs.Soundness.{is_new_page, is_sound_page};
ghost use Rattle.pin_core.specs.declared.view.Content.TheVariants as content;
ghost use Rattle.pin_core.specs.declared.view.Io.TheVariants.{Quiet};
ghost use Rattle.pin_core.specs.State.{lane_hold, link};
ghost use Rattle.pin_core.specs.Steps.{HoldsNoHeader};
ghost use Rattle.page_core.specs.Steps.{HasNoIo, HasNoWriteOut, MayWait};
ghost use Rattle.table_rule.specs.Blocks.{has_block};
ghost use Rattle.table_rule.specs.LaneCalls.{NotesWritten};
ghost use Rattle.table_rule.specs.declared.noted_lane.LaneCall.TheVariants.{Untouched};
ghost use Rattle.frame_table.specs.Seats.{CanStep, frames_of, lanes_in, relations_of};
ghost use Rattle.content_locks.specs.Io.{BeginsIo, CanStartIo, EndsIo, MayEndIo};
ghost use Rattle.content_locks.specs.Locks.{CanCopy, copied_link};
ghost use Rattle.cleanup_lock.specs.Cleanup.{CanLockForCleanup, GrantsCleanup};
ghost use Rattle.state_word.specs.declared.word.IoEnd.TheVariants.{Bad, WriteOk};
ghost use Rattle.buffer_frames.specs.Backends.{IsFurnished};
ghost use Rattle.buffer_frames.specs.Flushing.{FlushAnswer};
ghost use Rattle.buffer_frames.specs.Keeps.{IsReady};
ghost use Rattle.buffer_frames.specs.Puts.{PutAnswer};
ghost use Rattle.buffer_frames.specs.Reads.{met_read_block};
ghost use Rattle.buffer_frames.specs.Rests.{HasNoLatch, LinksRest, Stands};
ghost use Rattle.buffer_frames.specs.Tokens.{IsNew, IsPinnedFor};

use access_rings::Ring;
use atomic_table::Seat;
use block_tag::Tag;
use buffer_frames::{
    Backend, BlockError, FlushedPage, FrameFlushError, HeldPins, PinnedBlock, flush_frame,
    put_locked, read_block,
};
use byte_devices::LogDevice;
use cleanup_lock::{CleanupError, lock};
use clock_sweep::Sweep;
use content_locks::{Direction, IoRight, copy_out, end_io, start_io};
use frame_table::{FrameTable, NotedLane, Value};
use page_layout::{Lsn, Page};
use pin_core::View;
use segment_store::BlockLane;
use state_word::IoEnd;
use std::sync::Wait;
use wal_flush::InsertError;

/// A cleanup lock is granted for a count of one pin that was seen under the exclusive lock
/// (`LockBufferForCleanup`).
pub fn lock_for_cleanup<L: BlockLane, G: LogDevice, R: Wait>(
    table: &FrameTable<L, G>,
    rt: &R,
    seat: &mut Seat<Value<L, G>, View>,
    frame: u32,
    tokens: u32,
    number: u32,
) -> Result<(), CleanupError>
    requires seat { CanStep table.now seat.old frame }
    requires headless { HoldsNoHeader seat.old.me.0 }
    requires view { CanLockForCleanup (link seat.old.me.0 frame) }
    requires may { MayWait number seat.old.me.0 }
    ensures { IfOk result (λ _. GrantsCleanup number frame seat.old.me.0 seat.new.me.0) }
{
    lock(table, rt, seat, frame, tokens, number)
}

/// A copy that is made under the content lock is of the frame's page (`PageSetChecksumCopy`, which
/// `FlushBuffer` calls under the shared lock). The lock is shared here, and no read or write begun:
/// an edit takes the page out, which asks for that.
pub fn copy<L: BlockLane, G: LogDevice, R: Wait>(
    table: &FrameTable<L, G>,
    rt: &R,
    seat: &mut Seat<Value<L, G>, View>,
    frame: u32,
    page: &mut Page,
)
    requires seat { CanStep table.now seat.old frame }
    requires view { CanCopy (link seat.old.me.0 frame) }
    requires shared { (link seat.old.me.0 frame).content ≡ content.Shared }
    requires quiet { (link seat.old.me.0 frame).io ≡ Quiet }
    ensures copied { link seat.new.me.0 frame ≡ copied_link page.new (link seat.old.me.0 frame) }
{
    copy_out(table, rt, seat, frame, page);
}

/// A put that is Ok has marked the frame dirty, then inserted the page into the log, and then
/// changed the frame's page ("Write-Ahead Log Coding" in `access/transam/README`).
pub fn put<L: BlockLane, G: LogDevice, R: Wait>(
    table: &FrameTable<L, G>,
    rt: &R,
    seat: &mut Seat<Value<L, G>, View>,
    held: &HeldPins,
    frame: u32,
    tag: Tag,
    page: &mut Page,
) -> Result<Lsn, InsertError>
    requires stands { Stands table.now seat.old }
    requires rests { LinksRest held.now seat.old.me.0 }
    requires pinned { IsPinnedFor tag frame held.now }
    requires right { (link seat.old.me.0 frame).content ≡ content.Exclusive }
    requires inside { frame < frames_of table.now }
    requires tag { names_block tag ≡ true }
    requires block { has_block (relations_of table.now) tag ≡ true }
    requires sound { is_sound_page page.old ≡ true }
    requires used { is_new_page page.old ≡ false }
    ensures { PutAnswer (relations_of table.now) frame tag page.old
        seat.old.me.0 seat.new.me.0 result }
{
    put_locked(table, rt, seat, held, frame, tag, page)
}

/// A page goes to its lane only once the log is flushed up to it (`FlushBuffer` calls `XLogFlush`
/// first).
pub fn flush<L: BlockLane, G: LogDevice, R: Wait>(
    table: &FrameTable<L, G>,
    rt: &R,
    seat: &mut Seat<Value<L, G>, View>,
    held: &HeldPins,
    frame: u32,
    tag: Tag,
    page: &mut Page,
) -> Result<FlushedPage, FrameFlushError>
    requires stands { Stands table.now seat.old }
    requires latches { HasNoLatch seat.old.me.0 }
    requires rests { LinksRest held.now seat.old.me.0 }
    requires pinned { IsPinnedFor tag frame held.now }
    requires unlocked { (link seat.old.me.0 frame).content ≡ content.Unlocked }
    requires inside { frame < frames_of table.now }
    requires tag { names_block tag ≡ true }
    requires block { has_block (relations_of table.now) tag ≡ true }
    ensures { FlushAnswer L.contents table.now (lane_number tag (lanes_in table.now)) tag frame
        seat.old.me.0 seat.new.me.0 result }
{
    flush_frame(table, rt, seat, held, frame, tag, page)
}

/// A lane takes a page only if the log was seen flushed up to the page's position before the lane
/// went out (`FlushBuffer` calls `XLogFlush`, and then `smgrwrite`).
pub fn write_flushed<L: BlockLane, G: LogDevice>(
    seat: &Seat<Value<L, G>, View>,
    out: &mut NotedLane<L>,
    flushed: Lsn,
    frame: u32,
    tag: Tag,
    page: &Page,
) -> bool
    requires untouched { out.old.call ≡ Untouched }
    requires held { ForSome (L.contents out.old.device) (λ pages. IsSome (pages tag)) }
    requires flushed { flushed ≡ (lane_hold seat.now.me.0 out.old.number).flushed }
    ensures call { OnTrue result (NotesWritten frame tag page.now out.new.call) }
{
    if page.lsn() > flushed {
        return false;
    }
    out.write(seat, frame, tag, page).is_ok()
}

/// A read begins only if no backend reads or writes the page: the word that the header is held at
/// is without `BM_IO_IN_PROGRESS` (`StartBufferIO`).
pub fn begin_read<L: BlockLane, G: LogDevice, R: Wait>(
    table: &FrameTable<L, G>,
    rt: &R,
    seat: &mut Seat<Value<L, G>, View>,
    frame: u32,
) -> Option<IoRight>
    requires seat { CanStep table.now seat.old frame }
    requires headless { HoldsNoHeader seat.old.me.0 }
    requires quiet { HasNoIo seat.old.me.0 }
    requires view { CanStartIo true (link seat.old.me.0 frame) }
    ensures { IfSome result (λ _. BeginsIo true frame seat.old.me.0 seat.new.me.0) }
{
    start_io(table, rt, seat, frame, Direction::Input)
}

/// A write that failed leaves the frame dirty (`AbortBufferIO`): it doesn't end as one that was
/// made. Whether it was made is a premise here: a lane notes that at the frame as it comes back
/// (`FrameTable::lane_back`), and that asks for all that a flush has by then.
pub fn end_write<L: BlockLane, G: LogDevice, R: Wait>(
    table: &FrameTable<L, G>,
    rt: &R,
    seat: &mut Seat<Value<L, G>, View>,
    right: IoRight,
    written: bool,
)
    requires seat { CanStep table.now seat.old right.frame }
    requires headless { HoldsNoHeader seat.old.me.0 }
    requires no_write { HasNoWriteOut seat.old.me.0 right.frame }
    requires done { written ≡ true → MayEndIo WriteOk (link seat.old.me.0 right.frame) }
    requires failed { MayEndIo Bad (link seat.old.me.0 right.frame) }
    ensures failed { written ≡ false
        → EndsIo Bad right.frame seat.old.me.0 seat.new.me.0 }
{
    if written {
        end_io(table, rt, seat, right, IoEnd::WriteOk);
        return;
    }
    end_io(table, rt, seat, right, IoEnd::Bad);
}

/// A fault is answered only if one was met (`mdread` reports it).
pub fn read<L: BlockLane, G: LogDevice, R: Wait>(
    table: &FrameTable<L, G>,
    rt: &R,
    seat: &mut Seat<Value<L, G>, View>,
    held: &HeldPins,
    sweep: &Sweep,
    backend: &mut Backend,
    tag: &Tag,
    ring: &mut Option<Ring>,
) -> Result<PinnedBlock, BlockError>
    requires ready { IsReady table.now held.now seat.old }
    requires own { IsFurnished table.now sweep.now backend.old seat.old.me.0 }
    requires tag { names_block tag.now ≡ true }
    requires block { has_block (relations_of table.now) tag.now ≡ true }
    requires new { IsNew tag.now held.now }
    ensures { seat.new.me.0.met ≡ met_read_block result seat.old.me.0.met }
{
    read_block(table, rt, seat, held, sweep, backend, tag, ring)
}
