//! A pass writes the page of a frame.
ghost use Rattle.std.specs.Prelude.{◌≡◌, None, true};
ghost use Rattle.block_tag.specs.Names.{names_block, packed_tag};
ghost use Rattle.table_rule.specs.Blocks.{has_block, is_block};
ghost use Rattle.frame_table.specs.Seats.{relations_of};
ghost use Rattle.io_counts.specs.Counts.{io_with};
ghost use Rattle.buffer_frames.specs.Counting.{page_written, writes_of};
ghost use Rattle.backend_pass.specs.Passes.{shown_log, shown_write};
ghost use Rattle.backend_pass.specs.FrameFlushes.{frame_refusal, page_answer, shown_page};
ghost use Rattle.backend_pass.specs.FrameFlushes.{shown_unflushed};

use crate::errors::FlushError;
use crate::manager::Manager;
use crate::met::{Met, Shown};
use crate::pass::Pass;
use crate::pinned::Pinned;
use crate::seats::{return_seat, take_seat};
use block_tag::Tag;
use buffer_frames::FlushedPage;
use byte_devices::LogDevice;
use crossbeam_utils::CachePadded;
use frame_table::FrameTable;
use io_counts::{IoEvent, Tally};
use segment_store::BlockLane;
use std::sync::Wait;
use wal_flush::FlushLog;

/// The refusal of a pass whose frames refuse a flush.
pub(crate) fn flush_error(why: buffer_frames::FrameFlushError) -> FlushError
    ensures { frame_refusal result ≡ why }
{
    match why {
        buffer_frames::FrameFlushError::WriteFault { tag } => FlushError::WriteFault { tag },
        buffer_frames::FrameFlushError::Log(FlushLog::LogFault) => FlushError::LogFault,
        buffer_frames::FrameFlushError::Log(FlushLog::LogDown { at }) => FlushError::LogDown { at },
        buffer_frames::FrameFlushError::Log(FlushLog::LogShort { lsn, end }) => {
            FlushError::LogShort { lsn, end }
        }
    }
}

impl Shown {
    /// After a lane failed to write or to sync: a fault is counted.
    pub(crate) fn after_lane_fault(self) -> Shown
        ensures { result ≡ shown_write self }
    {
        let Shown { front, met } = self;
        let writes = met.writes.saturating_add(1);
        Shown {
            front,
            met: Met { writes, ..met },
        }
    }

    /// After the log failed: a fault is counted.
    pub(crate) fn after_log_fault(self) -> Shown
        ensures { result ≡ shown_log self }
    {
        let Shown { front, met } = self;
        let logs = met.logs.saturating_add(1);
        Shown {
            front,
            met: Met { logs, ..met },
        }
    }

    /// After a flush was refused.
    pub(crate) fn after_flush(self, why: &FlushError) -> Shown
        ensures { result ≡ shown_unflushed why.now self }
    {
        match why {
            FlushError::WriteFault { tag: _ } => self.after_lane_fault(),
            FlushError::LogFault => self.after_log_fault(),
            _ => self,
        }
    }

    /// After a page was written, was clean, or was not written.
    fn after_answer(self, answer: &Result<bool, FlushError>) -> Shown
        ensures { result ≡ shown_page answer.now self }
    {
        match answer {
            Ok(_wrote) => self,
            Err(why) => self.after_flush(why),
        }
    }
}

/// Shows that a tag names a block of the relations, given that its number is that of one. It does
/// nothing.
pub(crate) fn show_block<L: BlockLane, G: LogDevice>(_table: &FrameTable<L, G>, _tag: Tag)
    requires { is_block (relations_of _table.now) (packed_tag _tag) ≡ true }
    ensures named { names_block _tag ≡ true }
    ensures listed { has_block (relations_of _table.now) _tag ≡ true }
{}

/// The answer of a pass, by that of its frames: whether the page was written.
fn flush_answer(
    answer: Result<FlushedPage, buffer_frames::FrameFlushError>,
) -> Result<bool, FlushError>
    ensures { page_answer result ≡ answer }
{
    match answer {
        Ok(FlushedPage::Written) => Ok(true),
        Ok(FlushedPage::Clean) => Ok(false),
        Err(cause) => Err(flush_error(cause)),
    }
}

/// Counts the write of a page, if it was written, without a ring.
fn count_flush(io: &mut Tally, answer: &Result<bool, FlushError>)
    ensures { io.new ≡ record io.old {
      counted = io_with None
          (writes_of (page_written (page_answer answer.now))) io.old.counted;
    } }
{
    if let Ok(true) = answer {
        io.count(None, IoEvent::Write);
    }
}

impl Pass {
    ghost use Rattle.std.specs.Prelude.{◌≡◌, ◌≢◌, ℕ, false, true, IfErr, IfOk, IsOk};
    ghost use Rattle.block_tag.specs.Names.{lane_number};
    ghost use Rattle.pin_core.specs.declared.view.Content.TheVariants.{Unlocked};
    ghost use Rattle.pin_core.specs.State.{link};
    ghost use Rattle.frame_table.specs.Seats.{lanes_in};
    ghost use Rattle.buffer_frames.specs.Tokens.{IsPinnedFor};
    ghost use Rattle.buffer_frames.specs.Flushing.{EndedInError, EndedWritten, FlushAnswer};
    ghost use Rattle.buffer_frames.specs.Flushing.{met_flushing};
    ghost use Rattle.buffer_frames.specs.Working.{KeepsNotes};
    ghost use Rattle.backend_pass.specs.Locks.{HasLock};
    ghost use Rattle.backend_pass.specs.Managers.{Belongs};
    ghost use Rattle.backend_pass.specs.Passes.{KeepsCalls, KeepsLocks, KeepsMark, KeepsLookups};
    ghost use Rattle.backend_pass.specs.Passes.{CountsWrites, NoDeviceFails, SamePass};
    ghost use Rattle.backend_pass.specs.FrameFlushes.{IsOkOrShort, WasWithin, page_answer};

    /// Writes the page of a token's frame if the frame is dirty, after flushing the log up to the
    /// page's position (`FlushOneBuffer`). The caller doesn't have the content lock. Returns false
    /// if the frame is clean.
    pub fn flush_frame<L: BlockLane, G: LogDevice, R: Wait>(
        &mut self,
        manager: &Manager<L, G>,
        rt: &R,
        pinned: &Pinned,
    ) -> Result<bool, FlushError>
        requires belongs { Belongs L.contents manager.now self.old }
        requires pinned { IsPinnedFor pinned.now.tag pinned.now.frame self.old.tokens }
        requires unlocked { HasLock Unlocked pinned.now.frame self.old }
        ensures belongs { Belongs L.contents manager.now self.new }
        ensures same { SamePass self.old self.new }
        ensures lookups { KeepsLookups self.old self.new }
        ensures tokens { self.new.tokens ≡ self.old.tokens }
        ensures census { self.new.census ≡ self.old.census }
        ensures calls { KeepsCalls self.old self.new }
        ensures mark { KeepsMark self.old self.new }
        ensures locks { KeepsLocks self.old self.new }
        ensures others { (g : ℕ) → g ≢ pinned.now.frame
            → link self.new.view g ≡ link self.old.view g }
        ensures notes { KeepsNotes (link self.old.view pinned.now.frame)
            (link self.new.view pinned.now.frame) }

        // The page went to its lane after the log was flushed up to it, or the frame was clean; or
        // this is why not, and which devices were called.
        ensures answer { FlushAnswer L.contents manager.now.table
            (lane_number pinned.now.tag (lanes_in manager.now.table)) pinned.now.tag
            pinned.now.frame self.old.view self.new.view (page_answer result) }
        ensures met { self.new.view.met ≡ met_flushing (page_answer result) self.old.view.met }
        ensures ended { IfErr result
            (λ _. EndedInError pinned.now.frame self.old.view self.new.view) }
        ensures written { IfOk result
            (λ wrote. wrote ≡ true → EndedWritten pinned.now.frame self.old.view self.new.view) }

        // A write that was done is counted, without a ring.
        ensures counts { CountsWrites self.old self.new }

        // It is done if no device fails and the log isn't down, unless the page is past the log's
        // end.
        ensures short { NoDeviceFails self.old self.new → IsOkOrShort result }

        // So it is done if no device fails, the log isn't down, and no page has a position past the
        // end that was seen.
        ensures complete { WasWithin L.contents manager.now.table pinned.now.tag
            self.old.view.end_seen → self.new.view.saw_down ≡ false
            → self.new.view.met ≡ self.old.view.met → IsOk result }
    {
        let frame = pinned.frame;
        let tag = pinned.tag;
        show_block(&manager.table, tag);
        let mut seat = take_seat::<L, G>(&mut self.seat);
        let flushed = buffer_frames::flush_frame(
            &manager.table,
            rt,
            &mut seat,
            &self.held,
            frame,
            tag,
            &mut self.backend.page,
        );
        return_seat(&mut self.seat, seat);
        let answer = flush_answer(flushed);
        count_flush(&mut self.backend.io, &answer);
        let shown = self.shown.after_answer(&answer);
        self.shown = CachePadded::new(shown);
        answer
    }
}
