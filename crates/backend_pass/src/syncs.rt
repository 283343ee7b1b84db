//! What a pass does as the background writer, or for a checkpoint.
ghost use Rattle.std.specs.Prelude.{◌≡◌, None};
ghost use Rattle.io_counts.specs.Counts.{io_with};
ghost use Rattle.buffer_frames.specs.Counting.{was_written, writes_of};
ghost use Rattle.backend_pass.specs.FrameFlushes.{frame_answer};
ghost use Rattle.backend_pass.specs.PassSyncs.{shown_lane_synced, shown_log_flushed, shown_synced};

use crate::errors::FlushError;
use crate::flushing::flush_error;
use crate::manager::Manager;
use crate::met::Shown;
use crate::pass::Pass;
use crate::seats::{return_seat, take_seat};
use block_tag::Tag;
use buffer_frames::{SyncOnly, Synced, need_checkpoint, sync_lane, sync_one};
use byte_devices::{Failed, LogDevice};
use clock_sweep::hand;
use crossbeam_utils::CachePadded;
use frame_table::EndLoad;
use io_counts::{IoEvent, Tally};
use page_layout::Lsn;
use segment_store::BlockLane;
use std::sync::Wait;
use wal_flush::{FlushLog, flush_to};

/// The answer of a pass, by that of its frames.
fn sync_answer(answer: Result<Synced, buffer_frames::FrameFlushError>) -> Result<Synced, FlushError>
    ensures { frame_answer result ≡ answer }
{
    match answer {
        Ok(synced) => Ok(synced),
        Err(why) => Err(flush_error(why)),
    }
}

/// Counts the write of a frame, if it was written, without a ring.
fn count_sync(io: &mut Tally, answer: &Result<Synced, FlushError>)
    ensures { io.new ≡ record io.old {
      counted = io_with None
          (writes_of (was_written (frame_answer answer.now))) io.old.counted;
    } }
{
    if let Ok(Synced::Written) = answer {
        io.count(None, IoEvent::Write);
    }
}

impl Shown {
    /// After a frame was to be written.
    fn after_sync(self, answer: &Result<Synced, FlushError>) -> Shown
        ensures { result ≡ shown_synced answer.now self }
    {
        match answer {
            Ok(_synced) => self,
            Err(why) => self.after_flush(why),
        }
    }

    /// After the log was to be flushed.
    fn after_log_flush(self, answer: &Result<(), FlushLog>) -> Shown
        ensures { result ≡ shown_log_flushed answer.now self }
    {
        match answer {
            Err(FlushLog::LogFault) => self.after_log_fault(),
            _ => self,
        }
    }

    /// After a lane was to be synced.
    fn after_lane_sync(self, answer: &Result<(), Failed>) -> Shown
        ensures { result ≡ shown_lane_synced answer.now self }
    {
        match answer {
            Ok(()) => self,
            Err(_failed) => self.after_lane_fault(),
        }
    }
}

impl Pass {
    ghost use Rattle.std.specs.Prelude.{◌≡◌, ◌≢◌, ◌<◌, ◌≤◌, ℕ, false, true, length, IfErr, IfNone};
    ghost use Rattle.std.specs.Prelude.{IfOk, IfSome, IsOk, MatchResult};
    ghost use Rattle.std.specs.Result.{is_ok};
    ghost use Rattle.block_tag.specs.Names.{names_block};
    ghost use Rattle.pin_core.specs.declared.view.Content.TheVariants.{Unlocked};
    ghost use Rattle.pin_core.specs.State.{lane_hold, link};
    ghost use Rattle.history_core.specs.Lanes.{swept_by};
    ghost use Rattle.history_core.specs.Steps.{unmarked};
    ghost use Rattle.page_core.specs.Kinds as kinds;
    ghost use Rattle.frame_table.specs.FrameSteps.{Did};
    ghost use Rattle.frame_table.specs.Kinds.{pages};
    ghost use Rattle.frame_table.specs.Latches.{work_of};
    ghost use Rattle.frame_table.specs.Seats.{Touches, frames_of, lanes_in};
    ghost use Rattle.frame_table.specs.WordSteps.{DidWord, begin_checkpoint, load_hand, view_of};
    ghost use Rattle.wal_flush.specs.declared.flushes.FlushedBy.{FlushedBy};
    ghost use Rattle.wal_flush.specs.Flushes.{FlushRefused, FlushSeesEnd, Flushed, as_looked};
    ghost use Rattle.wal_flush.specs.Flushes.{flushed_view, unflushed_view};
    ghost use Rattle.clock_sweep.specs.Keeping.{SamePins};
    ghost use Rattle.buffer_frames.specs.Flushing.{met_flushing};
    ghost use Rattle.buffer_frames.specs.Working.{KeepsNotes, Within};
    ghost use Rattle.buffer_frames.specs.declared.syncing.SyncOnly.TheVariants.{Needed};
    ghost use Rattle.buffer_frames.specs.declared.syncing.Synced.TheVariants.{Skipped};
    ghost use Rattle.buffer_frames.specs.Syncs.{EndsSync, LeavesLane, NotesBlock, SeesNotDirty};
    ghost use Rattle.buffer_frames.specs.Syncs.{SyncsFrame, synced_work};
    ghost use Rattle.backend_pass.specs.FrameFlushes.{IsOkOrShort, frame_answer};
    ghost use Rattle.backend_pass.specs.Locks.{HasLock};
    ghost use Rattle.backend_pass.specs.Managers.{Belongs};
    ghost use Rattle.backend_pass.specs.Passes.{KeepsCallers, KeepsMark, NoDeviceFails, SamePass};
    ghost use Rattle.backend_pass.specs.Reading.{NothingFails};

    /// Looks at a frame's state word under its header, and by that writes the frame or passes it
    /// over (`SyncOneBuffer`). The frame is pinned for the write, its usage count unchanged.
    pub fn sync_one<L: BlockLane, G: LogDevice, R: Wait>(
        &mut self,
        manager: &Manager<L, G>,
        rt: &R,
        frame: u32,
        only: SyncOnly,
    ) -> Result<Synced, FlushError>
        requires belongs { Belongs L.contents manager.now self.old }
        requires inside { frame < frames_of manager.now.table }
        requires unlocked { only ≡ Needed → HasLock Unlocked frame self.old }
        ensures belongs { Belongs L.contents manager.now self.new }
        ensures same { SamePass self.old self.new }
        ensures callers { KeepsCallers self.old self.new }
        ensures marked { self.new.marked ≡ self.old.marked }
        ensures mark { KeepsMark self.old self.new }
        ensures others { (g : ℕ) → g ≢ frame → link self.new.view g ≡ link self.old.view g }
        ensures pins { SamePins self.old.view self.new.view }
        ensures notes { KeepsNotes (link self.old.view frame) (link self.new.view frame) }

        // The frame was passed over exactly for the word that was looked at. Else it was written
        // after the log was flushed up to its page, or was clean; or this is why not, and which
        // devices were called.
        ensures syncs { SyncsFrame L.contents manager.now.table only frame self.old.view
            self.new.view (frame_answer result) }
        ensures met { self.new.view.met ≡ met_flushing (frame_answer result) self.old.view.met }
        ensures ended { EndsSync frame self.old.view self.new.view (frame_answer result) }

        // A frame without BM_CHECKPOINT_NEEDED is none that the pass's checkpoint has still to
        // write.
        ensures not_left_to_write { result ≡ Ok Skipped → only ≡ Needed
            → (link self.new.view frame).left_to_write ≡ false }

        // It is done if no device fails and the log isn't down, unless the page is past the log's
        // end.
        ensures short { NoDeviceFails self.old self.new → IsOkOrShort result }

        // So it is done if no device fails, the log isn't down, and no page has a position past the
        // end that was seen.
        ensures complete { NothingFails L.contents manager.now.table self.old self.new
            → IsOk result }
    {
        let mut seat = take_seat::<L, G>(&mut self.seat);
        let frames_answer = sync_one(
            &manager.table,
            rt,
            &mut seat,
            &self.held,
            frame,
            only,
            &mut self.backend.page,
        );
        return_seat(&mut self.seat, seat);
        let answer = sync_answer(frames_answer);
        count_sync(&mut self.backend.io, &answer);
        let shown = self.shown.after_sync(&answer);
        self.shown = CachePadded::new(shown);
        answer
    }

    /// The clock's hand, which counts up and points at its remainder by the number of frames.
    pub fn hand<L: BlockLane, G: LogDevice>(&mut self, manager: &Manager<L, G>) -> u64
        requires belongs { Belongs L.contents manager.now self.old }
        ensures belongs { Belongs L.contents manager.now self.new }
        ensures callers { KeepsCallers self.old self.new }
        ensures new { self.new ≡ record self.old { view = view_of load_hand result self.old.view } }
        ensures did { DidWord load_hand self.old.view self.new.view result }
    {
        let mut seat = take_seat::<L, G>(&mut self.seat);
        let answer = hand(&manager.table, &mut seat);
        return_seat(&mut self.seat, seat);
        answer
    }

    /// A checkpoint of the pass begins, at the log's end: it has visited no frame, and has none to
    /// write.
    pub fn begin_checkpoint<L: BlockLane, G: LogDevice>(&mut self, manager: &Manager<L, G>) -> Lsn
        requires belongs { Belongs L.contents manager.now self.old }
        ensures belongs { Belongs L.contents manager.now self.new }
        ensures callers { KeepsCallers self.old self.new }
        ensures new { self.new
            ≡ record self.old { view = view_of begin_checkpoint result self.old.view } }
        ensures unmarked { (f : ℕ) → link self.new.view f ≡ unmarked (link self.old.view f) }
        ensures seen { (self.old.view.end_seen ≤ result) × (result ≤ self.new.view.end_seen) }
        ensures did { DidWord begin_checkpoint self.old.view self.new.view result }
    {
        let mut seat = take_seat::<L, G>(&mut self.seat);
        let upto = manager.table.load_log_end(&mut seat, EndLoad::Checkpoint);
        return_seat(&mut self.seat, seat);
        upto
    }

    /// Sets BM_CHECKPOINT_NEEDED in a frame that is dirty, and returns the tag of its block. The
    /// pass's checkpoint passes the frame, and has to write it if it was dirty.
    pub fn need_checkpoint<L: BlockLane, G: LogDevice, R: Wait>(
        &mut self,
        manager: &Manager<L, G>,
        rt: &R,
        frame: u32,
    ) -> Option<Tag>
        requires belongs { Belongs L.contents manager.now self.old }
        requires inside { frame < frames_of manager.now.table }
        ensures belongs { Belongs L.contents manager.now self.new }
        ensures same { SamePass self.old self.new }
        ensures callers { KeepsCallers self.old self.new }
        ensures marked { self.new.marked ≡ self.old.marked }
        ensures mark { KeepsMark self.old self.new }
        ensures touches { Touches frame self.old.view self.new.view }
        ensures visited { (link self.new.view frame).visited ≡ true }
        ensures clean { IfNone result (SeesNotDirty frame self.old.view self.new.view) }
        ensures not_left_to_write { IfNone result
            ((link self.old.view frame).left_to_write ≡ false
            → (link self.new.view frame).left_to_write ≡ false) }
        ensures needed { IfSome result
            (λ _. Within (λ a b. (word : ℕ) × Did (pages kinds.need_checkpoint) frame a b word)
            self.old.view self.new.view) }

        // The tag is the one that the frame had under the header that was locked for it.
        ensures noted { IfSome result (λ tag. NotesBlock frame tag self.old.view self.new.view) }
        ensures named { IfSome result (λ tag. names_block tag ≡ true) }
    {
        let mut seat = take_seat::<L, G>(&mut self.seat);
        let answer = need_checkpoint(&manager.table, rt, &mut seat, &self.held, frame);
        return_seat(&mut self.seat, seat);
        answer
    }

    /// Makes the log durable up to a position (`XLogFlush`).
    pub fn flush_log<L: BlockLane, G: LogDevice, R: Wait>(
        &mut self,
        manager: &Manager<L, G>,
        rt: &R,
        lsn: Lsn,
    ) -> Result<(), FlushLog>
        requires belongs { Belongs L.contents manager.now self.old }
        ensures belongs { Belongs L.contents manager.now self.new }
        ensures same { SamePass self.old self.new }
        ensures callers { KeepsCallers self.old self.new }
        ensures flushed { MatchResult result (λ _. lsn ≤ self.new.view.flushed)
            (λ _. self.new.view.flushed < lsn) }
        ensures view { IfOk result
            (λ _. (by : FlushedBy)
            × (self.new.view ≡ as_looked (flushed_view by self.old.view) self.new.view)) }
        ensures left { IfErr result
            (λ why. self.new.view ≡ as_looked (unflushed_view why self.old.view) self.new.view) }
        ensures did { IfOk result (λ _. Flushed lsn self.old.view self.new.view) }
        ensures seen { IfErr result (λ why. FlushSeesEnd why self.old.view self.new.view) }
        ensures cause { IfErr result (FlushRefused lsn self.old.view self.new.view) }

        // It is done if the log isn't down, no call fails, and the log ends at the position or past
        // it.
        ensures complete { lsn ≤ self.old.view.end_seen → self.new.view.saw_down ≡ false
            → IsOk result }
    {
        let mut seat = take_seat::<L, G>(&mut self.seat);
        let answer = flush_to(&manager.table, rt, &mut seat, lsn);
        return_seat(&mut self.seat, seat);
        let shown = self.shown.after_log_flush(&answer);
        self.shown = CachePadded::new(shown);
        answer
    }

    /// Syncs a lane. If the pass's checkpoint has visited all frames and has none left to write,
    /// the lane is swept up to where it began.
    pub fn sync_lane<L: BlockLane, G: LogDevice, R: Wait>(
        &mut self,
        manager: &Manager<L, G>,
        rt: &R,
        lane: u32,
    ) -> Result<(), Failed>
        requires belongs { Belongs L.contents manager.now self.old }
        requires inside { lane < lanes_in manager.now.table }
        ensures belongs { Belongs L.contents manager.now self.new }
        ensures same { SamePass self.old self.new }
        ensures callers { KeepsCallers self.old self.new }
        ensures view { work_of self.new.view ≡ synced_work lane (is_ok result) self.old.view }
        ensures swept { IfOk result
            (λ _. swept_by self.old.view ≤ (lane_hold self.new.view lane).swept) }
        ensures wide { length self.old.view.links ≡ frames_of manager.now.table }
        ensures left { LeavesLane (lanes_in manager.now.table) lane self.new.view }
    {
        let mut seat = take_seat::<L, G>(&mut self.seat);
        let answer = sync_lane(&manager.table, rt, &mut seat, lane);
        return_seat(&mut self.seat, seat);
        let shown = self.shown.after_lane_sync(&answer);
        self.shown = CachePadded::new(shown);
        answer
    }
}
