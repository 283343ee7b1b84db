//! Calls at state words for content locks, input and output, waits and checkpoints. But for
//! `mark_dirty` each gives up the header that the backend holds, with the word that it makes of the
//! held one.
ghost use Rattle.std.specs.Prelude.{◌≡◌, false, true};
ghost use Rattle.state_word.specs.Fields.{fields, unlocked_fields, io_started_fields, io_ended_fields, waiter_set_fields};
ghost use Rattle.pin_core.specs.declared.view.Content.TheVariants.{Exclusive};
ghost use Rattle.pin_core.specs.State.{link};
ghost use Rattle.page_core.specs.Kinds as kinds;
ghost use Rattle.page_core.specs.Steps.{HasNoIo, HasNoWriteOut, MayWait};
ghost use Rattle.frame_table.specs.Kinds.{pages};
ghost use Rattle.frame_table.specs.Seats.{CanStep, Looked, MarksBegun, MarksDirty, MarksEnded, SameMarks, SameSeat, Touches, unlocked_link};
ghost use Rattle.frame_table.specs.FrameSteps.{Did, Tried, always, chosen, has_locked, if_found};
ghost use Rattle.frame_table.specs.Content.{CanAwait, CanBeginIo, CanClearJust, CanFinishIo, CanNeed, CanWake, begun_link, dirtied_link, finished_link, left_to_write_link, start_of, waiting_link};

use crate::content_plays::{ClearJustDirtied, ClearWaiter, MarkDirty, NeedCheckpoint};
use crate::io_right::IoRight;
use crate::plays::{Does, Step};
use crate::table::FrameTable;
use atomic_table::Seat;
use byte_devices::LogDevice;
use pin_core::View;
use segment_store::BlockLane;
use state_word::{
    Flag, IoEnd, checkpoint_needed, dirtied, has, io_ended, io_started, just_dirtied_cleared,
    unlock_with, waiter_cleared, waiter_set,
};
use std::marker::Brand;
use std::sync::Wait;
use std::thread;
use table_rule::{Value, state_place};

impl<L: BlockLane, G: LogDevice> FrameTable<L, G> {
    /// Marks the frame dirty under its exclusive lock, once the header is not locked
    /// (`MarkBufferDirty`). A backend that holds that header itself would wait forever.
    pub fn mark_dirty<R: Wait>(&self, rt: &R, seat: &mut Seat<Value<L, G>, View>, frame: u32)
        requires seat { CanStep self.now seat.old frame }
        requires right { (link seat.old.me.0 frame).content ≡ Exclusive }
        ensures seat { SameSeat seat.old seat.new }
        ensures touches { Touches frame seat.old.me.0 seat.new.me.0 }
        ensures marks { MarksDirty seat.old.me.0 seat.new.me.0 }
        ensures dirtied { Looked (dirtied_link (link seat.old.me.0 frame))
            (link seat.new.me.0 frame) }
        ensures did { Tried (pages kinds.mark_dirty) frame seat.old.me.0 seat.new.me.0 true }
    {
        for _ in rt.forever() {
            if self.try_mark_dirty(seat, frame) {
                return;
            }
            thread::yield_now();
        }
        unreachable!()
    }

    fn try_mark_dirty(&self, seat: &mut Seat<Value<L, G>, View>, frame: u32) -> bool
        requires seat { CanStep self.now seat.old frame }
        requires right { (link seat.old.me.0 frame).content ≡ Exclusive }
        ensures seat { SameSeat seat.old seat.new }
        ensures did { Tried (pages kinds.mark_dirty) frame seat.old.me.0 seat.new.me.0 result }
    {
        let was = self.look(seat, frame);
        if has(was, Flag::Locked) {
            return false;
        }
        self.table
            .shared
            .compare_exchange::<Step<MarkDirty>>(seat, state_place(frame), was, dirtied(was))
            == was
    }

    fn swap_begun<D: Does>(
        &self,
        seat: &mut Seat<Value<L, G>, View>,
        frame: u32,
        _word: u64,
        _input: bool,
        new: u64,
    )
        requires kind { D.choice ≡ always (pages (start_of _input)) }
        requires seat { CanStep self.now seat.old frame }
        requires view { CanBeginIo _input _word (link seat.old.me.0 frame) }
        requires quiet { HasNoIo seat.old.me.0 }
        requires new { fields new ≡ unlocked_fields (io_started_fields (fields _word)) }
        ensures seat { SameSeat seat.old seat.new }
        ensures did { Did (pages (start_of _input)) frame seat.old.me.0 seat.new.me.0 _word }
    {
        self.table
            .shared
            .swap::<Step<D>>(seat, state_place(frame), new);
    }

    /// Begins to read the page, or to write it (`StartBufferIO`). The word is the one that is held.
    pub fn begin_io(
        &self,
        seat: &mut Seat<Value<L, G>, View>,
        frame: u32,
        word: u64,
        input: bool,
    ) -> IoRight
        requires seat { CanStep self.now seat.old frame }
        requires view { CanBeginIo input word (link seat.old.me.0 frame) }
        requires quiet { HasNoIo seat.old.me.0 }
        ensures right { (result.frame ≡ frame) × (result.input ≡ input) }
        ensures seat { SameSeat seat.old seat.new }
        ensures touches { Touches frame seat.old.me.0 seat.new.me.0 }
        ensures marks { MarksBegun input seat.old.me.0 seat.new.me.0 }
        ensures begun { link seat.new.me.0 frame ≡ begun_link input (link seat.old.me.0 frame) }
        ensures did { Did (pages (start_of input)) frame seat.old.me.0 seat.new.me.0 word }
    {
        self.swap_begun::<Brand>(seat, frame, word, input, unlock_with(io_started(word)));
        IoRight { frame, input }
    }

    fn swap_finished<D: Does>(
        &self,
        seat: &mut Seat<Value<L, G>, View>,
        frame: u32,
        _word: u64,
        _end: IoEnd,
        new: u64,
    )
        requires kind { D.choice ≡ always (pages (kinds.end_io _end)) }
        requires seat { CanStep self.now seat.old frame }
        requires view { CanFinishIo _end _word (link seat.old.me.0 frame) }
        requires no_write { HasNoWriteOut seat.old.me.0 frame }
        requires new { fields new ≡ unlocked_fields (io_ended_fields _end (fields _word)) }
        ensures seat { SameSeat seat.old seat.new }
        ensures did { Did (pages (kinds.end_io _end)) frame seat.old.me.0 seat.new.me.0 _word }
    {
        self.table
            .shared
            .swap::<Step<D>>(seat, state_place(frame), new);
    }

    /// Ends the read or the write of the page (`TerminateBufferIO`). The word is the one that is
    /// held.
    pub fn finish_io(
        &self,
        seat: &mut Seat<Value<L, G>, View>,
        right: IoRight,
        word: u64,
        end: IoEnd,
    )
        requires seat { CanStep self.now seat.old right.frame }
        requires view { CanFinishIo end word (link seat.old.me.0 right.frame) }
        requires no_write { HasNoWriteOut seat.old.me.0 right.frame }
        ensures seat { SameSeat seat.old seat.new }
        ensures touches { Touches right.frame seat.old.me.0 seat.new.me.0 }
        ensures marks { MarksEnded (unlocked_fields (io_ended_fields end (fields word)))
            seat.old.me.0 seat.new.me.0 }
        ensures finished { link seat.new.me.0 right.frame ≡ finished_link end
            (link seat.old.me.0 right.frame) }
        ensures did { Did (pages (kinds.end_io end)) right.frame seat.old.me.0 seat.new.me.0 word }
    {
        let IoRight { frame, input: _ } = right;
        self.swap_finished::<Brand>(seat, frame, word, end, unlock_with(io_ended(word, end)));
    }

    /// Clears BM_JUST_DIRTIED before the page is written (`FlushBuffer`). The word is the one that
    /// is held.
    pub fn clear_just_dirtied(&self, seat: &mut Seat<Value<L, G>, View>, frame: u32, word: u64)
        requires seat { CanStep self.now seat.old frame }
        requires view { CanClearJust word (link seat.old.me.0 frame) }
        ensures seat { SameSeat seat.old seat.new }
        ensures touches { Touches frame seat.old.me.0 seat.new.me.0 }
        ensures marks { SameMarks seat.old.me.0 seat.new.me.0 }
        ensures unlocked { link seat.new.me.0 frame ≡ unlocked_link (link seat.old.me.0 frame) }
        ensures did { Did (pages kinds.clear_just_dirtied) frame seat.old.me.0 seat.new.me.0 word }
    {
        self.table.shared.swap::<Step<ClearJustDirtied>>(
            seat,
            state_place(frame),
            unlock_with(just_dirtied_cleared(word)),
        );
    }

    /// Notes a dirty frame for the checkpoint that begins (`BufferSync`). The word is the one that
    /// is held.
    pub fn need_checkpoint(&self, seat: &mut Seat<Value<L, G>, View>, frame: u32, word: u64)
        requires seat { CanStep self.now seat.old frame }
        requires view { CanNeed word (link seat.old.me.0 frame) }
        ensures seat { SameSeat seat.old seat.new }
        ensures touches { Touches frame seat.old.me.0 seat.new.me.0 }
        ensures marks { SameMarks seat.old.me.0 seat.new.me.0 }
        ensures left_to_write { link seat.new.me.0 frame ≡ left_to_write_link
            (link seat.old.me.0 frame) }
        ensures did { Did (pages kinds.need_checkpoint) frame seat.old.me.0 seat.new.me.0 word }
    {
        self.table.shared.swap::<Step<NeedCheckpoint>>(
            seat,
            state_place(frame),
            unlock_with(checkpoint_needed(word)),
        );
    }

    fn swap_awaited<D: Does>(
        &self,
        seat: &mut Seat<Value<L, G>, View>,
        frame: u32,
        _word: u64,
        _number: u32,
        new: u64,
    )
        requires kind { D.choice ≡ always (pages (kinds.set_waiter _number)) }
        requires seat { CanStep self.now seat.old frame }
        requires view { CanAwait _word (link seat.old.me.0 frame) }
        requires may { MayWait _number seat.old.me.0 }
        requires new { fields new ≡ unlocked_fields (waiter_set_fields _number (fields _word)) }
        ensures seat { SameSeat seat.old seat.new }
        ensures did { Did (pages (kinds.set_waiter _number)) frame seat.old.me.0 seat.new.me.0
            _word }
    {
        self.table
            .shared
            .swap::<Step<D>>(seat, state_place(frame), new);
    }

    /// Begins to wait, under the backend's own number, until its pin is the only one
    /// (`LockBufferForCleanup`). The word is the one that is held.
    pub fn set_waiter(&self, seat: &mut Seat<Value<L, G>, View>, frame: u32, word: u64, number: u32)
        requires seat { CanStep self.now seat.old frame }
        requires view { CanAwait word (link seat.old.me.0 frame) }
        requires may { MayWait number seat.old.me.0 }
        ensures seat { SameSeat seat.old seat.new }
        ensures touches { Touches frame seat.old.me.0 seat.new.me.0 }
        ensures marks { SameMarks seat.old.me.0 seat.new.me.0 }
        ensures waits { link seat.new.me.0 frame ≡ waiting_link number (link seat.old.me.0 frame) }
        ensures did { Did (pages (kinds.set_waiter number)) frame seat.old.me.0 seat.new.me.0 word }
    {
        self.swap_awaited::<Brand>(
            seat,
            frame,
            word,
            number,
            unlock_with(waiter_set(word, number)),
        );
    }

    /// Wakes the backend that waits, whose pin is the only one (`UnpinBuffer`). The word is the one
    /// that is held.
    pub fn clear_waiter(&self, seat: &mut Seat<Value<L, G>, View>, frame: u32, word: u64)
        requires seat { CanStep self.now seat.old frame }
        requires view { CanWake word (link seat.old.me.0 frame) }
        ensures seat { SameSeat seat.old seat.new }
        ensures touches { Touches frame seat.old.me.0 seat.new.me.0 }
        ensures marks { SameMarks seat.old.me.0 seat.new.me.0 }
        ensures unlocked { link seat.new.me.0 frame ≡ unlocked_link (link seat.old.me.0 frame) }
        ensures did { Did (pages kinds.clear_waiter) frame seat.old.me.0 seat.new.me.0 word }
    {
        self.table.shared.swap::<Step<ClearWaiter>>(
            seat,
            state_place(frame),
            unlock_with(waiter_cleared(word)),
        );
    }
}
