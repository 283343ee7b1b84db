//! Calls at the word of the redo position.
ghost use Rattle.std.specs.Prelude.{◌≡◌, ℕ, ◌≤◌, true, Some};
ghost use Rattle.history_core.specs.Words.{raise_redo as raised};
ghost use Rattle.history_core.specs.Steps.{view_after_word};
ghost use Rattle.frame_table.specs.WordSteps.{DidWord, load_redo, raise_redo, view_of};
ghost use Rattle.frame_table.specs.Seats.{IsSeat, SameSeat, base_of};

use crate::table::FrameTable;
use crate::word_plays::{AtRedo, LoadRedo, RaiseRedo, StepAt};
use atomic_table::Seat;
use byte_devices::LogDevice;
use pin_core::View;
use segment_store::BlockLane;
use std::marker::Brand;
use table_rule::{Value, redo_place};

impl<L: BlockLane, G: LogDevice> FrameTable<L, G> {
    fn redo_at<D: AtRedo>(&self, seat: &mut Seat<Value<L, G>, View>) -> u64
        requires at { D.base ≡ base_of self.now }
        requires seat { IsSeat self.now seat.old }
        requires held { seat.old.me.0.log.held ≡ true }
        ensures seat { SameSeat seat.old seat.new }
        ensures from { base_of self.now ≤ result }
        ensures did { DidWord load_redo seat.old.me.0 seat.new.me.0 result }
    {
        let at = redo_place(self.frames());
        self.table.shared.load::<LoadRedo<D>>(seat, at)
    }

    /// Loads the redo position (`RedoRecPtr`). The backend holds the log's latch, so the position
    /// stays while it does. No call needs it yet: every page is logged whole.
    pub fn load_redo(&self, seat: &mut Seat<Value<L, G>, View>) -> u64
        requires seat { IsSeat self.now seat.old }
        requires held { seat.old.me.0.log.held ≡ true }
        ensures seat { SameSeat seat.old seat.new }
        ensures view { seat.new.me.0 ≡ view_of load_redo result seat.old.me.0 }
        ensures from { base_of self.now ≤ result }
        ensures within { (end : ℕ) → seat.old.me.0.log.end ≡ Some end → result ≤ end }
        ensures did { DidWord load_redo seat.old.me.0 seat.new.me.0 result }
    {
        self.redo_at::<Brand>(seat)
    }

    /// Raises the redo position to the log's end, which the backend has loaded under the log's
    /// latch.
    pub fn raise_redo(&self, seat: &mut Seat<Value<L, G>, View>, end: u64)
        requires seat { IsSeat self.now seat.old }
        requires end { seat.old.me.0.log.end ≡ Some end }
        ensures seat { SameSeat seat.old seat.new }
        ensures view { seat.new.me.0 ≡ view_after_word raised end end seat.old.me.0 }
        ensures did { (found : ℕ) × DidWord raise_redo seat.old.me.0 seat.new.me.0 found }
    {
        let at = redo_place(self.frames());
        self.table.shared.swap::<StepAt<RaiseRedo>>(seat, at, end);
    }
}
