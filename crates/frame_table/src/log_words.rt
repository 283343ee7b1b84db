//! Calls at the words of the log, and at the clock's hand.
ghost use Rattle.std.specs.Prelude.{◌≡◌, ℕ, ◌≤◌, true, map, Some};
ghost use Rattle.pin_core.specs.State.{link};
ghost use Rattle.history_core.specs.Steps.{has_raised, unmarked};
ghost use Rattle.frame_table.specs.WordSteps.{DidWord, add_hand, load_flushed, load_hand, raise_flushed, view_of};
ghost use Rattle.frame_table.specs.Opened.{CopiesAreLogged, LoggedOrOpening};
ghost use Rattle.frame_table.specs.declared.log_words.EndLoad.TheVariants.{Checkpoint};
ghost use Rattle.frame_table.specs.EndLoads.{IsEndAllowed, ReadsHeld, ReadsOpening, end_kind};
ghost use Rattle.frame_table.specs.Seats.{IsSeat, SameSeat, base_of, frames_of, lanes_in, opened_of, relations_of};

use crate::table::FrameTable;
use crate::word_plays::{AddHand, AtEndLoad, LoadEnd, LoadFlushed, LoadHand, RaiseFlushed, StepAt};
use atomic_table::Seat;
use byte_devices::LogDevice;
use pin_core::View;
use segment_store::BlockLane;
use std::marker::Brand;
use table_rule::{Value, end_place, flushed_place, hand_place};

/// What the log's end is loaded for.
#[derive(Clone, Copy)]
pub enum EndLoad {
    Plain,
    /// As the place of a read of the page that was copied from a frame.
    Read(u32),
    /// As the start of a checkpoint.
    Checkpoint,
}

impl<L: BlockLane, G: LogDevice> FrameTable<L, G> {
    fn end_at<D: AtEndLoad>(&self, seat: &mut Seat<Value<L, G>, View>, _what: EndLoad) -> u64
        requires what { (D.what ≡ _what) × (D.frames ≡ frames_of self.now)
            × (D.base ≡ base_of self.now) }
        requires known { (D.relations ≡ relations_of self.now) × (D.lanes ≡ lanes_in self.now)
            × (D.held ≡ map L.contents (opened_of self.now)) }
        requires seat { IsSeat self.now seat.old }
        requires allowed { IsEndAllowed (frames_of self.now) _what seat.old.me.0 }
        ensures seat { SameSeat seat.old seat.new }
        ensures base { base_of self.now ≤ result }
        ensures held { result ≡ base_of self.now
            → ReadsHeld (relations_of self.now) (lanes_in self.now)
            (map L.contents (opened_of self.now)) _what seat.old.me.0 }
        ensures logged { CopiesAreLogged (relations_of self.now) (lanes_in self.now)
            (map L.contents (opened_of self.now)) (frames_of self.now) result seat.old.me.0 }
        ensures did { DidWord (end_kind _what) seat.old.me.0 seat.new.me.0 result }
    {
        let at = end_place(self.frames());
        self.table.shared.load::<LoadEnd<D>>(seat, at)
    }

    /// The log's end, and what it is loaded for: as the place of a read it joins the backend's
    /// calls, and is its front then. The end never falls: it is the last end that the backend has
    /// seen, or past it. A checkpoint that starts has visited no frame, and none is left for it to
    /// write. A read whose place is the log's base is of the page that the block's lane held as the
    /// table was opened, if that is known; and then each page that the backend has copied has a
    /// position at the end or before it, or is that one.
    pub fn load_log_end(&self, seat: &mut Seat<Value<L, G>, View>, what: EndLoad) -> u64
        requires seat { IsSeat self.now seat.old }
        requires allowed { IsEndAllowed (frames_of self.now) what seat.old.me.0 }
        ensures seat { SameSeat seat.old seat.new }
        ensures view { seat.new.me.0 ≡ view_of (end_kind what) result seat.old.me.0 }
        ensures front { seat.old.me.0.front ≤ result }
        ensures later { seat.old.me.0.end_seen ≤ result }
        ensures seen { result ≤ seat.new.me.0.end_seen }
        ensures unmarked { what ≡ Checkpoint → (f : ℕ)
            → link seat.new.me.0 f ≡ unmarked (link seat.old.me.0 f) }
        ensures base { base_of self.now ≤ result }
        ensures origin { ReadsOpening L.contents self.now what result seat.old.me.0 }
        ensures logged { LoggedOrOpening L.contents self.now result seat.old.me.0 }
        ensures did { DidWord (end_kind what) seat.old.me.0 seat.new.me.0 result }
    {
        self.end_at::<Brand>(seat, what)
    }

    /// The position up to which the log is flushed. It never falls.
    pub fn load_flushed(&self, seat: &mut Seat<Value<L, G>, View>) -> u64
        requires { IsSeat self.now seat.old }
        ensures seat { SameSeat seat.old seat.new }
        ensures view { seat.new.me.0 ≡ view_of load_flushed result seat.old.me.0 }
        ensures flushed { seat.old.me.0.flushed ≤ result }
        ensures did { DidWord load_flushed seat.old.me.0 seat.new.me.0 result }
    {
        let at = flushed_place(self.frames());
        self.table.shared.load::<StepAt<LoadFlushed>>(seat, at)
    }

    /// Raises the flushed position to the log's end, which the backend has loaded under the log's
    /// latch, after a sync under it (`XLogFlush`).
    pub fn raise_flushed(&self, seat: &mut Seat<Value<L, G>, View>, end: u64)
        requires seat { IsSeat self.now seat.old }
        requires synced { seat.old.me.0.log.synced ≡ true }
        requires end { seat.old.me.0.log.end ≡ Some end }
        ensures seat { SameSeat seat.old seat.new }
        ensures view { seat.new.me.0 ≡ has_raised end seat.old.me.0 }
        ensures did { (found : ℕ) × DidWord raise_flushed seat.old.me.0 seat.new.me.0 found }
    {
        let at = flushed_place(self.frames());
        self.table
            .shared
            .swap::<StepAt<RaiseFlushed>>(seat, at, end);
    }

    /// The clock's hand.
    pub fn load_hand(&self, seat: &mut Seat<Value<L, G>, View>) -> u64
        requires { IsSeat self.now seat.old }
        ensures seat { SameSeat seat.old seat.new }
        ensures view { seat.new.me.0 ≡ view_of load_hand result seat.old.me.0 }
        ensures did { DidWord load_hand seat.old.me.0 seat.new.me.0 result }
    {
        let at = hand_place(self.frames());
        self.table.shared.load::<StepAt<LoadHand>>(seat, at)
    }

    /// Moves the clock's hand on by one, from its last value to 0, and answers where it stood
    /// (`ClockSweepTick`).
    pub fn add_hand(&self, seat: &mut Seat<Value<L, G>, View>) -> u64
        requires { IsSeat self.now seat.old }
        ensures seat { SameSeat seat.old seat.new }
        ensures view { seat.new.me.0 ≡ view_of add_hand result seat.old.me.0 }
        ensures did { DidWord add_hand seat.old.me.0 seat.new.me.0 result }
    {
        let at = hand_place(self.frames());
        self.table.shared.fetch_add::<StepAt<AddHand>>(seat, at, 1)
    }
}
