//! Calls at content words.
ghost use Rattle.std.specs.Prelude.{◌≡◌, ◌≢◌, ℕ, ◌<◌, ◌^◌, true, false, IfOk, IfErr, MatchResult};
ghost use Rattle.pin_core.specs.declared.view.Content.TheVariants.{Shared};
ghost use Rattle.pin_core.specs.State.{link};
ghost use Rattle.page_core.specs.Kinds as kinds;
ghost use Rattle.frame_table.specs.Kinds.{pages};
ghost use Rattle.frame_table.specs.Seats.{CanStep, SameMarks, SameSeat, Touches, TouchesOrNotes};
ghost use Rattle.frame_table.specs.FrameSteps.{Did};
ghost use Rattle.frame_table.specs.Content.{CanDropCopy, CanDropExclusive, CanDropShare, CanLock};
ghost use Rattle.frame_table.specs.Content.{HoldsNoUnentered, copying_link, exclusive_link};
ghost use Rattle.frame_table.specs.Content.{has_copying, has_exclusive, looking_content, shared_link};
ghost use Rattle.frame_table.specs.Content.{unexclusive_link, unshared_link};

use crate::content_plays::{Exclude, LeaveCopy, LookContent, Share, TakeCopy, Unexclude, Unshare};
use crate::content_word::{COPYING, EXCLUSIVE};
use crate::plays::Step;
use crate::table::FrameTable;
use atomic_table::Seat;
use byte_devices::LogDevice;
use pin_core::View;
use segment_store::BlockLane;
use table_rule::{Value, content_place};

impl<L: BlockLane, G: LogDevice> FrameTable<L, G> {
    /// The content word of a frame.
    pub fn look_content(&self, seat: &mut Seat<Value<L, G>, View>, frame: u32) -> u64
        requires { CanStep self.now seat.old frame }
        ensures small { result < 2 ^ 20 }
        ensures seat { SameSeat seat.old seat.new }
        ensures touches { Touches frame seat.old.me.0 seat.new.me.0 }
        ensures marks { SameMarks seat.old.me.0 seat.new.me.0 }
        ensures link { link seat.new.me.0 frame ≡ link seat.old.me.0 frame }
        ensures did { Did looking_content frame seat.old.me.0 seat.new.me.0 result }
    {
        self.table
            .shared
            .load::<Step<LookContent>>(seat, content_place(frame))
    }

    /// Takes the content lock, shared, if the content word is still `was`. Its Err is the word that
    /// it found.
    pub fn add_share(
        &self,
        seat: &mut Seat<Value<L, G>, View>,
        frame: u32,
        was: u64,
    ) -> Result<(), u64>
        requires seat { CanStep self.now seat.old frame }
        requires view { CanLock (link seat.old.me.0 frame) }
        requires was { has_exclusive was ≡ false }
        ensures seat { SameSeat seat.old seat.new }
        ensures touches { Touches frame seat.old.me.0 seat.new.me.0 }
        ensures marks { SameMarks seat.old.me.0 seat.new.me.0 }
        ensures shared { IfOk result (λ _. link seat.new.me.0 frame ≡ shared_link (link seat.old.me.0 frame)) }
        ensures left { IfErr result (λ _. link seat.new.me.0 frame ≡ link seat.old.me.0 frame) }
        ensures did { MatchResult result (λ _. Did (pages kinds.share) frame seat.old.me.0 seat.new.me.0 was)
            (λ found. (found ≢ was) × (found < 2 ^ 20)
            × Did looking_content frame seat.old.me.0 seat.new.me.0 found) }
    {
        let found = self
            .table
            .shared
            .compare_exchange::<Step<Share>>(seat, content_place(frame), was, was + 1);
        if found == was { Ok(()) } else { Err(found) }
    }

    /// Takes the content lock, exclusive, if the content word is still `was`, which is 0. Its Err
    /// is the word that it found.
    pub fn set_exclusive(
        &self,
        seat: &mut Seat<Value<L, G>, View>,
        frame: u32,
        was: u64,
    ) -> Result<(), u64>
        requires seat { CanStep self.now seat.old frame }
        requires view { CanLock (link seat.old.me.0 frame) }
        requires was { was ≡ 0 }
        ensures seat { SameSeat seat.old seat.new }
        ensures touches { Touches frame seat.old.me.0 seat.new.me.0 }
        ensures marks { SameMarks seat.old.me.0 seat.new.me.0 }
        ensures exclusive { IfOk result (λ _. link seat.new.me.0 frame ≡ exclusive_link
            (link seat.old.me.0 frame)) }
        ensures left { IfErr result (λ _. link seat.new.me.0 frame ≡ link seat.old.me.0 frame) }
        ensures did { MatchResult result (λ _. Did (pages kinds.exclude) frame seat.old.me.0 seat.new.me.0
            was) (λ found. (found ≢ was) × (found < 2 ^ 20)
            × Did looking_content frame seat.old.me.0 seat.new.me.0 found) }
    {
        let found = self
            .table
            .shared
            .compare_exchange::<Step<Exclude>>(seat, content_place(frame), was, EXCLUSIVE);
        if found == was { Ok(()) } else { Err(found) }
    }

    /// Takes the copy latch, as a sharer, if the content word is still `was`. Its Err is the word
    /// that it found.
    pub fn take_copy(
        &self,
        seat: &mut Seat<Value<L, G>, View>,
        frame: u32,
        was: u64,
    ) -> Result<(), u64>
        requires seat { CanStep self.now seat.old frame }
        requires view { (link seat.old.me.0 frame).content ≡ Shared }
        requires was { has_copying was ≡ false }
        ensures seat { SameSeat seat.old seat.new }
        ensures touches { Touches frame seat.old.me.0 seat.new.me.0 }
        ensures marks { SameMarks seat.old.me.0 seat.new.me.0 }
        ensures taken { IfOk result (λ _. link seat.new.me.0 frame ≡ copying_link true
            (link seat.old.me.0 frame)) }
        ensures left { IfErr result (λ _. link seat.new.me.0 frame ≡ link seat.old.me.0 frame) }
        ensures did { MatchResult result (λ _. Did (pages kinds.take_copy) frame seat.old.me.0
            seat.new.me.0 was) (λ found. (found ≢ was) × (found < 2 ^ 20)
            × Did looking_content frame seat.old.me.0 seat.new.me.0 found) }
    {
        let found = self
            .table
            .shared
            .compare_exchange::<Step<TakeCopy>>(seat, content_place(frame), was, was + COPYING);
        if found == was { Ok(()) } else { Err(found) }
    }

    /// Gives up the shared lock.
    pub fn drop_share(&self, seat: &mut Seat<Value<L, G>, View>, frame: u32)
        requires seat { CanStep self.now seat.old frame }
        requires view { CanDropShare (link seat.old.me.0 frame) }
        ensures seat { SameSeat seat.old seat.new }
        ensures touches { Touches frame seat.old.me.0 seat.new.me.0 }
        ensures marks { SameMarks seat.old.me.0 seat.new.me.0 }
        ensures unshared { link seat.new.me.0 frame ≡ unshared_link (link seat.old.me.0 frame) }
        ensures did { (was : ℕ) × Did (pages kinds.unshare) frame seat.old.me.0 seat.new.me.0 was }
    {
        self.table
            .shared
            .fetch_sub::<Step<Unshare>>(seat, content_place(frame), 1);
    }

    /// Gives up the exclusive lock. The frame's block is noted as unentered if the frame was marked
    /// dirty under the lock, and no entry made.
    pub fn drop_exclusive(&self, seat: &mut Seat<Value<L, G>, View>, frame: u32)
        requires seat { CanStep self.now seat.old frame }
        requires view { CanDropExclusive (link seat.old.me.0 frame) }
        ensures seat { SameSeat seat.old seat.new }
        ensures touches { TouchesOrNotes frame seat.old.me.0 seat.new.me.0 }
        ensures unnoted { HoldsNoUnentered (link seat.old.me.0 frame)
            → seat.new.me.0.unentered ≡ seat.old.me.0.unentered }
        ensures marks { SameMarks seat.old.me.0 seat.new.me.0 }
        ensures unexclusive { link seat.new.me.0 frame ≡ unexclusive_link
            (link seat.old.me.0 frame) }
        ensures did { (was : ℕ) × Did (pages kinds.unexclude) frame seat.old.me.0 seat.new.me.0
            was }
    {
        self.table
            .shared
            .fetch_sub::<Step<Unexclude>>(seat, content_place(frame), EXCLUSIVE);
    }

    /// Gives up the copy latch.
    pub fn leave_copy(&self, seat: &mut Seat<Value<L, G>, View>, frame: u32)
        requires seat { CanStep self.now seat.old frame }
        requires view { CanDropCopy (link seat.old.me.0 frame) }
        ensures seat { SameSeat seat.old seat.new }
        ensures touches { Touches frame seat.old.me.0 seat.new.me.0 }
        ensures marks { SameMarks seat.old.me.0 seat.new.me.0 }
        ensures left { link seat.new.me.0 frame ≡ copying_link false (link seat.old.me.0 frame) }
        ensures did { (was : ℕ) × Did (pages kinds.leave_copy) frame seat.old.me.0 seat.new.me.0
            was }
    {
        self.table
            .shared
            .fetch_sub::<Step<LeaveCopy>>(seat, content_place(frame), COPYING);
    }
}
