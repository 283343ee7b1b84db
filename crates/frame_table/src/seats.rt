//! Seats come, and go.
ghost use Rattle.std.specs.Prelude.{◌≡◌, ℕ, ◌<◌, false, []};
ghost use Rattle.pin_core.specs.State.{hold, idle, joined_view, lane_hold, link, no_lane, no_log, no_partition};
ghost use Rattle.pin_core.specs.Steps.{HoldsNothing};
ghost use Rattle.frame_table.specs.Seats.{Fits, SameSeat};
ghost use Rattle.frame_table.specs.FrameSteps.{kept_view, split_view};

use crate::plays::{Joined, Known, NewSeat};
use crate::table::FrameTable;
use atomic_table::Seat;
use byte_devices::LogDevice;
use pin_core::View;
use segment_store::BlockLane;
use std::marker::Brand;
use table_rule::Value;

impl<L: BlockLane, G: LogDevice> FrameTable<L, G> {
    fn split_at<J: Known>(&self, seat: &mut Seat<Value<L, G>, View>) -> Seat<Value<L, G>, View>
        requires known { J.base ≡ self.now.table.shared.key.base }
        requires seat { Fits self.now seat.old × (seat.old.id ≡ 0) }
        requires room { seat.old.me.0.next < self.now.table.shared.key.config.passes }
        ensures seat { SameSeat seat.old seat.new }
        ensures kept { seat.new.me.0 ≡ kept_view seat.old.me.0 }
        ensures fits { Fits self.now result }
        ensures new { result.me ≡ (split_view J.base seat.old.me.0, []) }
    {
        self.table.shared.split_seat::<NewSeat<J>>(seat)
    }

    /// A seat for a new backend, by the first one: it has the first one's next number, and holds
    /// nothing.
    pub fn split(&self, seat: &mut Seat<Value<L, G>, View>) -> Seat<Value<L, G>, View>
        requires seat { Fits self.now seat.old × (seat.old.id ≡ 0) }
        requires room { seat.old.me.0.next < self.now.table.shared.key.config.passes }
        ensures seat { SameSeat seat.old seat.new }
        ensures kept { seat.new.me.0 ≡ kept_view seat.old.me.0 }
        ensures fits { Fits self.now result }
        ensures new { result.me ≡ (split_view self.now.table.shared.key.base seat.old.me.0, []) }
        ensures links { (f : ℕ) → link result.me.0 f ≡ idle }
        ensures holds { (p : ℕ) → hold result.me.0 p ≡ no_partition }
        ensures lanes { (q : ℕ) → lane_hold result.me.0 q ≡ no_lane }
        ensures log { result.me.0.log ≡ no_log }
        ensures live { result.me.0.emptied ≡ false }
    {
        self.split_at::<Brand>(seat)
    }

    /// The first seat takes in what another one, which holds nothing, knows.
    pub fn join(&self, seat: &mut Seat<Value<L, G>, View>, other: Seat<Value<L, G>, View>)
        requires seat { Fits self.now seat.old × (seat.old.id ≡ 0) }
        requires other { Fits self.now other × (other.me.1 ≡ []) × (other.me.0.emptied ≡ false) }
        requires free { HoldsNothing other.me.0 }
        ensures seat { SameSeat seat.old seat.new }
        ensures joined { seat.new.me.0 ≡ joined_view seat.old.me.0 other.me.0 }
    {
        self.table.shared.join_seat::<Joined>(seat, other);
    }
}
