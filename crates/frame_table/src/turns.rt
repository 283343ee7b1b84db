//! Latches.
ghost use Rattle.std.specs.Prelude.{◌≡◌, ◌<◌, true, false};
ghost use Rattle.table_rule.specs.declared.turn.Place.TheVariants.{Of};
ghost use Rattle.table_rule.specs.Layout as layout;
ghost use Rattle.table_rule.specs.Layout.{slot_of, word_count};
ghost use Rattle.table_rule.specs.Shows.{HasTurn};
ghost use Rattle.frame_table.specs.Seats.{CanTurn, SameSeat, frames_of};
ghost use Rattle.frame_table.specs.Latches.{DidTurn, IsTurned, MayLeave, MayTake, SameWork};
ghost use Rattle.frame_table.specs.Latches.{view_counted};

use crate::plays::{AtTurn, LeaveTurn, TakeTurn};
use crate::table::FrameTable;
use atomic_table::Seat;
use byte_devices::LogDevice;
use pin_core::View;
use segment_store::BlockLane;
use std::marker::Brand;
use std::sync::Wait;
use std::thread;
use table_rule::{Turn, Value, latch_place, turn_slot};

/// How often a backend yields before it sleeps until the log's latch is left.
const YIELDS: u32 = 50;

impl<L: BlockLane, G: LogDevice> FrameTable<L, G> {
    /// The place of a latch's word.
    pub(crate) fn latch(&self, turn: Turn) -> usize
        ensures place { result ≡ layout.latch_place (frames_of self.now) turn }
    {
        latch_place(self.config.frames, turn)
    }

    /// The slot of what a latch guards.
    pub(crate) fn slot(&self, turn: Turn) -> usize
        ensures { result ≡ slot_of (frames_of self.now) (Of turn) }
    {
        turn_slot(self.config.frames, turn)
    }

    fn try_take<D: AtTurn>(
        &self,
        seat: &mut Seat<Value<L, G>, View>,
        _turn: Turn,
        place: usize,
    ) -> bool
        requires known { D.turn ≡ _turn }
        requires place { (place ≡ layout.latch_place (frames_of self.now) _turn)
            × (place < word_count (frames_of self.now)) }
        requires seat { CanTurn self.now seat.old _turn }
        ensures seat { SameSeat seat.old seat.new }
        ensures took { result ≡ true → DidTurn true _turn seat.old.me.0 seat.new.me.0 }
        ensures not { result ≡ false → seat.new.me.0 ≡ seat.old.me.0 }
    {
        self.table
            .shared
            .compare_exchange::<TakeTurn<D>>(seat, place, 0, 1)
            == 0
    }

    /// Waits until the latch is free, and takes it (`LWLockAcquire`). The backend has no latch of
    /// the same kind, or of a later one: first those of partitions, then of lanes, then the log's.
    pub fn take_turn<R: Wait>(&self, rt: &R, seat: &mut Seat<Value<L, G>, View>, turn: Turn)
        requires seat { CanTurn self.now seat.old turn }
        requires free { MayTake turn seat.old.me.0 }
        ensures seat { SameSeat seat.old seat.new }
        ensures work { SameWork (view_counted true turn seat.old.me.0) seat.new.me.0 }
        ensures turned { IsTurned true turn seat.old.me.0 seat.new.me.0 }
        ensures did { DidTurn true turn seat.old.me.0 seat.new.me.0 }
    {
        let place = self.latch(turn);
        let mut tries: u32 = 0;
        for _ in rt.forever() {
            if self.try_take::<Brand>(seat, turn, place) {
                return;
            }
            // The log's holder may be in a sync: after some tries this backend sleeps until it
            // leaves.
            match turn {
                Turn::Log if tries >= YIELDS => self.table.shared.park(rt, place, 1),
                _ => thread::yield_now(),
            }
            tries = tries.saturating_add(1);
        }
        unreachable!()
    }

    fn leave_at<D: AtTurn>(&self, seat: &mut Seat<Value<L, G>, View>, _turn: Turn, place: usize)
        requires known { D.turn ≡ _turn }
        requires place { (place ≡ layout.latch_place (frames_of self.now) _turn)
            × (place < word_count (frames_of self.now)) }
        requires seat { CanTurn self.now seat.old _turn }
        requires may { MayLeave _turn seat.old.me.0 }
        ensures seat { SameSeat seat.old seat.new }
        ensures did { DidTurn false _turn seat.old.me.0 seat.new.me.0 }
    {
        self.table.shared.store::<LeaveTurn<D>>(seat, place, 0);
    }

    /// Leaves the latch (`LWLockRelease`).
    pub fn leave_turn(&self, seat: &mut Seat<Value<L, G>, View>, turn: Turn)
        requires seat { CanTurn self.now seat.old turn }
        requires may { MayLeave turn seat.old.me.0 }
        ensures seat { SameSeat seat.old seat.new }
        ensures work { SameWork seat.old.me.0 seat.new.me.0 }
        ensures turned { IsTurned false turn seat.old.me.0 seat.new.me.0 }
        ensures did { DidTurn false turn seat.old.me.0 seat.new.me.0 }
    {
        let place = self.latch(turn);
        self.leave_at::<Brand>(seat, turn, place);
        if let Turn::Log = turn {
            self.table.shared.wake_one(place);
        }
    }
}
