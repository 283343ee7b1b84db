//! The hint words: which frame may have a block.
ghost use Rattle.std.specs.Prelude.{◌≡◌, ℕ, ◌<◌, ◌≤◌};
ghost use Rattle.history_core.specs.Words.{hint_count};
ghost use Rattle.frame_table.specs.WordSteps.{DidWord, load_hint, store_hint, view_of};
ghost use Rattle.frame_table.specs.Seats.{IsSeat, SameSeat, frames_of};

use crate::table::FrameTable;
use crate::word_plays::{AtHint, LoadHint, StepAt, StepsAt};
use atomic_table::Seat;
use byte_devices::LogDevice;
use pin_core::View;
use segment_store::BlockLane;
use std::marker::Brand;
use table_rule::{HINTS_PER_FRAME, Value, hint_place};

impl<L: BlockLane, G: LogDevice> FrameTable<L, G> {
    /// How many hint words there are.
    pub fn hint_word_count(&self) -> u32
        ensures count { result ≡ hint_count (frames_of self.now) }
        ensures some { 1 ≤ result }
    {
        HINTS_PER_FRAME * self.config.frames
    }

    fn hint_at<D: AtHint>(&self, seat: &mut Seat<Value<L, G>, View>, number: u32) -> u64
        requires at { (D.frames ≡ frames_of self.now) × (D.number ≡ number) }
        requires seat { IsSeat self.now seat.old }
        requires below { number < hint_count (frames_of self.now) }
        ensures seat { SameSeat seat.old seat.new }
        ensures named { result ≤ frames_of self.now }
        ensures did { DidWord (load_hint number) seat.old.me.0 seat.new.me.0 result }
    {
        let at = hint_place(self.frames(), number);
        self.table.shared.load::<LoadHint<D>>(seat, at)
    }

    /// A hint word: 0 for none, or a frame's number plus 1. The frame may have any block, or none.
    pub fn load_hint(&self, seat: &mut Seat<Value<L, G>, View>, number: u32) -> u64
        requires seat { IsSeat self.now seat.old }
        requires below { number < hint_count (frames_of self.now) }
        ensures seat { SameSeat seat.old seat.new }
        ensures view { seat.new.me.0 ≡ view_of (load_hint number) result seat.old.me.0 }
        ensures named { result ≤ frames_of self.now }
        ensures did { DidWord (load_hint number) seat.old.me.0 seat.new.me.0 result }
    {
        self.hint_at::<Brand>(seat, number)
    }

    fn store_at<D: StepsAt>(&self, seat: &mut Seat<Value<L, G>, View>, number: u32, value: u64)
        requires kind { D.kind ≡ store_hint number value }
        requires seat { IsSeat self.now seat.old }
        requires below { number < hint_count (frames_of self.now) }
        requires named { value ≤ frames_of self.now }
        ensures seat { SameSeat seat.old seat.new }
        ensures did { (found : ℕ) × DidWord (store_hint number value) seat.old.me.0 seat.new.me.0
            found }
    {
        let at = hint_place(self.frames(), number);
        // A swap: the view lists what was found there too, which nobody needs at run time.
        // So the lists fix each hint word (`lists_fix_words`), and a store of another value isn't
        // proved. On x86-64 a sequentially consistent store is an exchange, too.
        self.table.shared.swap::<StepAt<D>>(seat, at, value);
    }

    /// Stores a hint: 0 for none, or a frame's number plus 1.
    pub fn store_hint(&self, seat: &mut Seat<Value<L, G>, View>, number: u32, value: u64)
        requires seat { IsSeat self.now seat.old }
        requires below { number < hint_count (frames_of self.now) }
        requires named { value ≤ frames_of self.now }
        ensures seat { SameSeat seat.old seat.new }
        ensures did { (found : ℕ) × DidWord (store_hint number value) seat.old.me.0 seat.new.me.0
            found }
    {
        self.store_at::<Brand>(seat, number, value)
    }
}
