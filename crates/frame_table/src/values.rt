//! Values, by their places.
ghost use Rattle.std.specs.Prelude.{◌≡◌, ◌∷◌};
ghost use Rattle.atomic_table.specs.Table.{rest};
ghost use Rattle.table_rule.specs.declared.value.Value.TheVariants as value;
ghost use Rattle.table_rule.specs.Layout.{slot_of};
ghost use Rattle.table_rule.specs.Shows.{devices};
ghost use Rattle.frame_table.specs.Seats.{frames_of};
ghost use Rattle.frame_table.specs.Values.{CameBackAs, MayGoOut, MayReturnAs, WentOutAs};

use crate::table::FrameTable;
use atomic_table::Seat;
use byte_devices::LogDevice;
use pin_core::View;
use segment_store::BlockLane;
use table_rule::{Place, Turn, Value};

impl<L: BlockLane, G: LogDevice> FrameTable<L, G> {
    /// The value of a place goes out with the seat: a page, or what a latch guards that the seat
    /// has.
    pub fn value_out(&self, seat: &mut Seat<Value<L, G>, View>, place: Place) -> Value<L, G>
        requires { MayGoOut self.now seat.old place }
        ensures seat { (seat.new.table_id ≡ seat.old.table_id) × (seat.new.id ≡ seat.old.id) }
        ensures hand { seat.new.me.1 ≡ (slot_of (frames_of self.now) place, value.Away)
            ∷ seat.old.me.1 }
        ensures out { WentOutAs (devices L.BlockLane G.LogDevice) self.now place result
            seat.old.me.0 seat.new.me.0 }
    {
        match place {
            Place::Page(frame) => Value::Page(self.page_out(seat, frame)),
            Place::Of(Turn::Partition(partition)) => Value::Map(self.map_out(seat, partition)),
            Place::Of(Turn::Lane(lane)) => Value::Lane(self.lane_out(seat, lane)),
            Place::Of(Turn::Log) => Value::Log(self.log_out(seat)),
        }
    }

    /// The value of a place is back, with the one change that was made of it.
    pub fn value_back(&self, seat: &mut Seat<Value<L, G>, View>, place: Place, back: Value<L, G>)
        requires hand { seat.old.me.1 ≡ (slot_of (frames_of self.now) place, value.Away)
            ∷ rest seat.old.me.1 }
        requires may { MayReturnAs (devices L.BlockLane G.LogDevice) self.now seat.old place back }
        ensures seat { (seat.new.table_id ≡ seat.old.table_id) × (seat.new.id ≡ seat.old.id) }
        ensures hand { seat.new.me.1 ≡ rest seat.old.me.1 }
        ensures back { CameBackAs (devices L.BlockLane G.LogDevice) place back seat.old.me.0
            seat.new.me.0 }
    {
        match (place, back) {
            (Place::Page(frame), Value::Page(page)) => self.page_back(seat, frame, page),
            (Place::Of(Turn::Partition(partition)), Value::Map(map)) => {
                self.map_back(seat, partition, map)
            }
            (Place::Of(Turn::Lane(lane)), Value::Lane(noted)) => self.lane_back(seat, lane, noted),
            (Place::Of(Turn::Log), Value::Log(log)) => self.log_back(seat, log),
            (_place, _value) => unreachable!(),
        }
    }
}
