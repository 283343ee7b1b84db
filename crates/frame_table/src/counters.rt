//! The counters of reads, writes and evictions (`pg_stat_io`).
ghost use Rattle.std.specs.Prelude.{◌≡◌, ℕ, ◌+◌, ◌*◌, ◌<◌, ◌≤◌};
ghost use Rattle.history_core.specs.Balances.{added_to};
ghost use Rattle.history_core.specs.Words.{counter_count, most_published};
ghost use Rattle.frame_table.specs.WordSteps.{DidWord, add_counter, load_counter, view_of};
ghost use Rattle.frame_table.specs.WordSteps.{view_published};
ghost use Rattle.frame_table.specs.Seats.{IsSeat, SameSeat};

use crate::table::FrameTable;
use crate::word_plays::{AtCounter, LoadCounter, StepAt, StepsAt};
use atomic_table::Seat;
use byte_devices::LogDevice;
use pin_core::View;
use segment_store::BlockLane;
use std::marker::Brand;
use table_rule::{Value, counter_place};

impl<L: BlockLane, G: LogDevice> FrameTable<L, G> {
    fn counter_at<D: AtCounter>(&self, seat: &mut Seat<Value<L, G>, View>, number: u32) -> u64
        requires at { D.number ≡ number }
        requires seat { IsSeat self.now seat.old }
        requires below { number < counter_count }
        ensures seat { SameSeat seat.old seat.new }
        ensures most { result ≤ 64 * most_published }
        ensures did { DidWord (load_counter number) seat.old.me.0 seat.new.me.0 result }
    {
        let at = counter_place(self.frames(), number);
        self.table.shared.load::<LoadCounter<D>>(seat, at)
    }

    /// A counter: the sum of what the backends have added to it. Once all others are joined into
    /// the first backend, that is what the first has added.
    pub fn load_counter(&self, seat: &mut Seat<Value<L, G>, View>, number: u32) -> u64
        requires seat { IsSeat self.now seat.old }
        requires below { number < counter_count }
        ensures seat { SameSeat seat.old seat.new }
        ensures view { seat.new.me.0 ≡ view_of (load_counter number) result seat.old.me.0 }
        ensures least { added_to number seat.old.me.0 ≤ result }
        ensures most { result ≤ 64 * most_published }
        ensures exact { seat.old.me.0.number ≡ 0
            → seat.old.me.0.joined + 1 ≡ seat.old.me.0.next
            → result ≡ added_to number seat.old.me.0 }
        ensures did { DidWord (load_counter number) seat.old.me.0 seat.new.me.0 result }
    {
        self.counter_at::<Brand>(seat, number)
    }

    fn rise_at<D: StepsAt>(&self, seat: &mut Seat<Value<L, G>, View>, number: u32, more: u64)
        requires kind { D.kind ≡ add_counter number more }
        requires seat { IsSeat self.now seat.old }
        requires below { number < counter_count }
        requires room { added_to number seat.old.me.0 + more ≤ most_published }
        ensures seat { SameSeat seat.old seat.new }
        ensures did { (found : ℕ)
            × DidWord (add_counter number more) seat.old.me.0 seat.new.me.0 found }
    {
        let at = counter_place(self.frames(), number);
        self.table.shared.fetch_add::<StepAt<D>>(seat, at, more);
    }

    /// Adds to a counter. All that one backend adds to it is less than 2^48.
    pub fn add_counter(&self, seat: &mut Seat<Value<L, G>, View>, number: u32, more: u64)
        requires seat { IsSeat self.now seat.old }
        requires below { number < counter_count }
        requires room { added_to number seat.old.me.0 + more ≤ most_published }
        ensures seat { SameSeat seat.old seat.new }
        ensures view { seat.new.me.0 ≡ view_published number more seat.old.me.0 }
        ensures did { (found : ℕ)
            × DidWord (add_counter number more) seat.old.me.0 seat.new.me.0 found }
    {
        self.rise_at::<Brand>(seat, number, more)
    }
}
