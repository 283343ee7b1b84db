//! The log, out and back, and its end.
ghost use Rattle.std.specs.Prelude.{◌≡◌, ◌≤◌, ◌∷◌, true, vec_capacity, None};
ghost use Rattle.atomic_table.specs.Table.{rest};
ghost use Rattle.block_tag.specs.declared.tag.Tag.{Tag};
ghost use Rattle.block_tag.specs.Names.{packed_tag};
ghost use Rattle.pin_core.specs.declared.view.LogChange.TheVariants as change;
ghost use Rattle.pin_core.specs.State.{Page};
ghost use Rattle.history_core.specs.Log.{record_size};
ghost use Rattle.table_rule.specs.declared.noted_log.LogCall.TheVariants as log_call;
ghost use Rattle.table_rule.specs.declared.turn.Turn.TheVariants.{Log};
ghost use Rattle.table_rule.specs.declared.turn.Place.TheVariants.{Of};
ghost use Rattle.table_rule.specs.declared.value.Value.TheVariants as value;
ghost use Rattle.table_rule.specs.Layout.{latch_place, slot_of};
ghost use Rattle.frame_table.specs.Entering.{DidEnter, MayStoreEnd, view_entered};
ghost use Rattle.frame_table.specs.Seats.{CanTurn, IsSeat, SameSeat, frames_of, relations_of};
ghost use Rattle.frame_table.specs.LogWork.{IsLogOut, LogCame, LogWent, MayComeHome, view_home};

use crate::log_plays::{AtEnd, AtLog, LogBack, LogOut, StoreEnd};
use crate::table::FrameTable;
use atomic_table::Seat;
use byte_devices::LogDevice;
use pin_core::View;
use segment_store::BlockLane;
use std::marker::Brand;
use table_rule::{NotedLog, Turn, Value, end_place};

impl<L: BlockLane, G: LogDevice> FrameTable<L, G> {
    fn log_out_at<D: AtLog>(
        &self,
        seat: &mut Seat<Value<L, G>, View>,
        place: usize,
        slot: usize,
    ) -> Value<L, G>
        requires known { D.slot ≡ slot }
        requires place { (place ≡ latch_place (frames_of self.now) Log)
            × (slot ≡ slot_of (frames_of self.now) (Of Log)) }
        requires seat { CanTurn self.now seat.old Log }
        requires held { (seat.old.me.0.log.held ≡ true) × (seat.old.me.0.log.out ≡ None) }
        ensures seat { (seat.new.table_id ≡ seat.old.table_id) × (seat.new.id ≡ seat.old.id) }
        ensures hand { seat.new.me.1 ≡ (slot, value.Away) ∷ seat.old.me.1 }
        ensures log { IsLogOut G.bytes G.synced G.faults G.calls result seat.old.me.0
            seat.new.me.0 }
    {
        // An exchange of a slot is no step of its own: the load is, and its value tells nothing.
        self.table.shared.load::<LogOut<D>>(seat, place);
        self.table.shared.exchange(seat, slot, Value::Away)
    }

    /// The log goes out with the seat that has its latch. If the log is down the backend sees it.
    pub fn log_out(&self, seat: &mut Seat<Value<L, G>, View>) -> NotedLog<G>
        requires seat { CanTurn self.now seat.old Log }
        requires held { (seat.old.me.0.log.held ≡ true) × (seat.old.me.0.log.out ≡ None) }
        ensures seat { (seat.new.table_id ≡ seat.old.table_id) × (seat.new.id ≡ seat.old.id) }
        ensures hand { seat.new.me.1 ≡ (slot_of (frames_of self.now) (Of Log), value.Away)
            ∷ seat.old.me.1 }
        ensures call { result.call ≡ log_call.Untouched }
        ensures room { record_size ≤ vec_capacity result.buffer }
        ensures unnoted { seat.new.me.0.log.change ≡ change.Untouched }
        ensures went { LogWent G.bytes G.synced G.faults G.calls result seat.old.me.0
            seat.new.me.0 }
    {
        let place = self.latch(Turn::Log);
        let slot = self.slot(Turn::Log);
        match self.log_out_at::<Brand>(seat, place, slot) {
            Value::Log(log) => log,
            _other => unreachable!(),
        }
    }

    fn log_back_at<D: AtLog>(
        &self,
        seat: &mut Seat<Value<L, G>, View>,
        place: usize,
        slot: usize,
        log: NotedLog<G>,
    )
        requires known { (D.call ≡ log.call) × (D.bytes ≡ G.bytes log.device)
            × (D.faults ≡ G.faults log.device) }
        requires place { (place ≡ latch_place (frames_of self.now) Log)
            × (slot ≡ slot_of (frames_of self.now) (Of Log)) }
        requires seat { CanTurn self.now seat.old Log }
        requires hand { seat.old.me.1 ≡ (slot, value.Away) ∷ rest seat.old.me.1 }
        requires room { record_size ≤ vec_capacity log.buffer }
        requires may { MayComeHome G.bytes G.synced G.faults G.calls (relations_of self.now) log
            seat.old.me.0 }
        ensures seat { (seat.new.table_id ≡ seat.old.table_id) × (seat.new.id ≡ seat.old.id) }
        ensures hand { seat.new.me.1 ≡ rest seat.old.me.1 }
        ensures came { LogCame G.bytes G.synced G.faults G.calls log seat.old.me.0 seat.new.me.0 }
    {
        let home = log.without_call();
        let away = self.table.shared.exchange(seat, slot, Value::Log(home));
        let Value::Away = away else { unreachable!() };
        // An exchange of a slot is no step of its own: the load is, and its value tells nothing.
        self.table.shared.load::<LogBack<D>>(seat, place);
    }

    /// The log is back. The call that was made while it was out counts now, and a call that failed
    /// is noted as a fault.
    pub fn log_back(&self, seat: &mut Seat<Value<L, G>, View>, log: NotedLog<G>)
        requires seat { CanTurn self.now seat.old Log }
        requires hand { seat.old.me.1 ≡ (slot_of (frames_of self.now) (Of Log), value.Away)
            ∷ rest seat.old.me.1 }
        requires room { record_size ≤ vec_capacity log.buffer }
        requires may { MayComeHome G.bytes G.synced G.faults G.calls (relations_of self.now) log
            seat.old.me.0 }
        ensures seat { (seat.new.table_id ≡ seat.old.table_id) × (seat.new.id ≡ seat.old.id) }
        ensures hand { seat.new.me.1 ≡ rest seat.old.me.1 }
        ensures view { seat.new.me.0 ≡ view_home log.call seat.old.me.0 }
        ensures came { LogCame G.bytes G.synced G.faults G.calls log seat.old.me.0 seat.new.me.0 }
    {
        let place = self.latch(Turn::Log);
        let slot = self.slot(Turn::Log);
        self.log_back_at::<Brand>(seat, place, slot, log)
    }

    fn store_end_at<D: AtEnd>(&self, seat: &mut Seat<Value<L, G>, View>, _frame: u32, end: u64)
        requires known { (D.relations ≡ relations_of self.now) × (D.frame ≡ _frame)
            × (D.end ≡ end) }
        requires seat { IsSeat self.now seat.old }
        requires may { (tag : Tag) × (page : Page) × MayStoreEnd (relations_of self.now) _frame tag
            page end seat.old.me.0 }
        ensures seat { SameSeat seat.old seat.new }
        ensures told { (tag : Tag) × (page : Page) × MayStoreEnd (relations_of self.now) _frame tag
            page end seat.old.me.0 × DidEnter _frame page seat.old.me.0 seat.new.me.0 }
    {
        let at = end_place(self.frames());
        self.table.shared.store::<StoreEnd<D>>(seat, at, end);
    }

    /// Stores the log's end, after the record that the backend has appended (`XLogInsert`). The
    /// page in it is an entry of the log now, which the backend has to apply.
    pub fn store_log_end(&self, seat: &mut Seat<Value<L, G>, View>, frame: u32, end: u64)
        requires seat { IsSeat self.now seat.old }
        requires may { (tag : Tag) × (page : Page) × MayStoreEnd (relations_of self.now) frame tag
            page end seat.old.me.0 }
        ensures seat { SameSeat seat.old seat.new }
        ensures view { (tag : Tag) (page : Page)
            → MayStoreEnd (relations_of self.now) frame tag page end seat.old.me.0
            → seat.new.me.0 ≡ view_entered frame (packed_tag tag) page end seat.old.me.0 }
        ensures did { (tag : Tag) (page : Page)
            → MayStoreEnd (relations_of self.now) frame tag page end seat.old.me.0
            → DidEnter frame page seat.old.me.0 seat.new.me.0 }
    {
        self.store_end_at::<Brand>(seat, frame, end)
    }
}
