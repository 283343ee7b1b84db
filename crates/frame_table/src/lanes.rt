//! The lanes.
ghost use Rattle.std.specs.Prelude.{◌≡◌, ℕ, ◌≤◌, ◌∷◌, length, true, None};
ghost use Rattle.atomic_table.specs.Table.{rest};
ghost use Rattle.pin_core.specs.State.{lane_hold};
ghost use Rattle.table_rule.specs.declared.noted_lane.LaneCall.TheVariants.{Untouched};
ghost use Rattle.table_rule.specs.declared.turn.Turn.TheVariants.{Lane};
ghost use Rattle.table_rule.specs.declared.turn.Place.TheVariants.{Of};
ghost use Rattle.table_rule.specs.declared.value.Value.TheVariants as value;
ghost use Rattle.table_rule.specs.Shows.{contents_at};
ghost use Rattle.table_rule.specs.LaneCalls.{lane_devices};
ghost use Rattle.table_rule.specs.Layout.{latch_place, slot_of};
ghost use Rattle.frame_table.specs.Seats.{CanTurn, frames_of, lanes_in, opened_of, relations_of};
ghost use Rattle.frame_table.specs.LaneWork.{DidSteps, IsNoted, IsTakenFrom, LaneStep, MayReturnTo, WentOut, back_events, back_lane, back_view, out_events, out_lane, out_view, swept_lane, taken_at};

use crate::lane_plays::{AtLane, Back, LaneOut, Returns};
use crate::table::FrameTable;
use atomic_table::Seat;
use byte_devices::LogDevice;
use pin_core::View;
use segment_store::BlockLane;
use std::marker::Brand;
use table_rule::{NotedLane, Turn, Value};

impl<L: BlockLane, G: LogDevice> FrameTable<L, G> {
    fn lane_out_at<D: AtLane>(
        &self,
        seat: &mut Seat<Value<L, G>, View>,
        _lane: u32,
        place: usize,
        slot: usize,
    ) -> Value<L, G>
        requires opened { D.opened ≡ contents_at L.contents (opened_of self.now) _lane }
        requires lane { (D.relations ≡ relations_of self.now) × (D.lanes ≡ lanes_in self.now)
            × (D.frames ≡ frames_of self.now) × (D.lane ≡ _lane) × (D.slot ≡ slot) }
        requires place { (place ≡ latch_place (frames_of self.now) (Lane _lane))
            × (slot ≡ slot_of (frames_of self.now) (Of (Lane _lane))) }
        requires seat { CanTurn self.now seat.old (Lane _lane) }
        requires held { ((lane_hold seat.old.me.0 _lane).held ≡ true)
            × ((lane_hold seat.old.me.0 _lane).out ≡ None) }
        ensures seat { (seat.new.table_id ≡ seat.old.table_id) × (seat.new.id ≡ seat.old.id) }
        ensures hand { seat.new.me.1 ≡ (slot, value.Away) ∷ seat.old.me.1 }
        ensures lane { WentOut (lane_devices L.BlockLane) self.now _lane result seat.old.me.0
            seat.new.me.0 }
    {
        // An exchange of a slot is no step of its own: the load is, and its value tells nothing.
        self.table.shared.load::<LaneOut<D>>(seat, place);
        self.table.shared.exchange(seat, slot, Value::Away)
    }

    /// A lane goes out with the seat that has its latch.
    pub fn lane_out(&self, seat: &mut Seat<Value<L, G>, View>, lane: u32) -> NotedLane<L>
        requires seat { CanTurn self.now seat.old (Lane lane) }
        requires held { ((lane_hold seat.old.me.0 lane).held ≡ true)
            × ((lane_hold seat.old.me.0 lane).out ≡ None) }
        ensures seat { (seat.new.table_id ≡ seat.old.table_id) × (seat.new.id ≡ seat.old.id) }
        ensures hand { seat.new.me.1 ≡ (slot_of (frames_of self.now) (Of (Lane lane)), value.Away)
            ∷ seat.old.me.1 }
        ensures wide { (length seat.old.me.0.links ≡ frames_of self.now)
            × (length seat.old.me.0.lanes ≡ lanes_in self.now) }
        ensures number { result.number ≡ lane }
        ensures untouched { result.call ≡ Untouched }
        ensures taken { IsTakenFrom (lane_devices L.BlockLane) self.now lane result.device }
        ensures view { seat.new.me.0 ≡ out_view lane (taken_at (lane_devices L.BlockLane) self.now
            lane result.device) seat.old.me.0 }
        ensures out { LaneStep lane (out_lane (taken_at (lane_devices L.BlockLane) self.now lane
            result.device) seat.old.me.0.flushed (lane_hold seat.old.me.0 lane)) seat.old.me.0
            seat.new.me.0 }
        ensures did { DidSteps (out_events lane (taken_at (lane_devices L.BlockLane) self.now lane
            result.device)) seat.old.me.0 seat.new.me.0 }
    {
        let place = self.latch(Turn::Lane(lane));
        let slot = self.slot(Turn::Lane(lane));
        match self.lane_out_at::<Brand>(seat, lane, place, slot) {
            Value::Lane(out) => out,
            _other => unreachable!(),
        }
    }

    fn lane_back_at<D: Returns>(
        &self,
        seat: &mut Seat<Value<L, G>, View>,
        _lane: u32,
        place: usize,
        slot: usize,
        noted: NotedLane<L>,
    )
        requires known { (D.events ≡ back_events (lane_devices L.BlockLane) _lane noted.device noted.call)
            × (D.after ≡ back_view (lane_devices L.BlockLane) _lane noted.device noted.call) }
        requires place { (place ≡ latch_place (frames_of self.now) (Lane _lane))
            × (slot ≡ slot_of (frames_of self.now) (Of (Lane _lane))) }
        requires seat { CanTurn self.now seat.old (Lane _lane) }
        requires hand { seat.old.me.1 ≡ (slot, value.Away) ∷ rest seat.old.me.1 }
        requires may { MayReturnTo (lane_devices L.BlockLane) self.now _lane seat.old.me.0 noted }
        ensures seat { (seat.new.table_id ≡ seat.old.table_id) × (seat.new.id ≡ seat.old.id) }
        ensures hand { seat.new.me.1 ≡ rest seat.old.me.1 }
        ensures view { seat.new.me.0 ≡ back_view (lane_devices L.BlockLane) _lane noted.device
            noted.call seat.old.me.0 }
        ensures did { DidSteps (back_events (lane_devices L.BlockLane) _lane noted.device noted.call)
            seat.old.me.0 seat.new.me.0 }
    {
        let home = noted.without_call();
        let away = self.table.shared.exchange(seat, slot, Value::Lane(home));
        let Value::Away = away else { unreachable!() };
        // An exchange of a slot is no step of its own: the load is, and its value tells nothing.
        self.table.shared.load::<Back<D>>(seat, place);
    }

    /// The lane is back, the one of that number, and has no call noted. A fault is counted if the
    /// call failed; a page that was read or written is noted at its frame.
    pub fn lane_back(&self, seat: &mut Seat<Value<L, G>, View>, lane: u32, noted: NotedLane<L>)
        requires seat { CanTurn self.now seat.old (Lane lane) }
        requires hand { seat.old.me.1 ≡ (slot_of (frames_of self.now) (Of (Lane lane)), value.Away)
            ∷ rest seat.old.me.1 }
        requires may { MayReturnTo (lane_devices L.BlockLane) self.now lane seat.old.me.0 noted }
        ensures seat { (seat.new.table_id ≡ seat.old.table_id) × (seat.new.id ≡ seat.old.id) }
        ensures hand { seat.new.me.1 ≡ rest seat.old.me.1 }
        ensures view { seat.new.me.0 ≡ back_view (lane_devices L.BlockLane) lane noted.device
            noted.call seat.old.me.0 }
        ensures back { LaneStep lane (back_lane (swept_lane noted.call seat.old.me.0
            (lane_hold seat.old.me.0 lane))) seat.old.me.0 seat.new.me.0 }
        ensures swept { (q : ℕ) → (lane_hold seat.old.me.0 q).swept
            ≤ (lane_hold seat.new.me.0 q).swept }
        ensures noted { IsNoted noted.call seat.old.me.0 seat.new.me.0 }
        ensures did { DidSteps (back_events (lane_devices L.BlockLane) lane noted.device noted.call)
            seat.old.me.0 seat.new.me.0 }
    {
        let place = self.latch(Turn::Lane(lane));
        let slot = self.slot(Turn::Lane(lane));
        self.lane_back_at::<Brand>(seat, lane, place, slot, noted)
    }
}
