//! The maps of the partitions.
//!
//! What was seen of a map stays in the view: the store of a tag, and the pin of a frame that was
//! found, rely on it.
ghost use Rattle.std.specs.Prelude.{◌≡◌, ◌≤◌, ◌∷◌, List, map, false, true, vec_capacity, None};
ghost use Rattle.atomic_table.specs.Table.{rest};
ghost use Rattle.pin_core.specs.declared.view.MapEntry.{MapEntry};
ghost use Rattle.pin_core.specs.State.{hold};
ghost use Rattle.pin_core.specs.Turns as parts;
ghost use Rattle.table_rule.specs.declared.turn.Turn.TheVariants.{Partition};
ghost use Rattle.table_rule.specs.declared.turn.Place.TheVariants.{Of};
ghost use Rattle.table_rule.specs.declared.value.Value.TheVariants as value;
ghost use Rattle.table_rule.specs.Layout.{latch_place, slot_of};
ghost use Rattle.table_rule.specs.Shows.{AreApart, entry_of};
ghost use Rattle.frame_table.specs.Seats.{CanTurn, frames_of};
ghost use Rattle.frame_table.specs.Latches.{AreBelow, ComesBack, DidMap, GivesFrames, HasNamed, HasRoomFor, IsMap, MapStep, MayComeBack, SameWork, TakesPair, back_hold, out_hold};

use crate::plays::{AtMap, MapBack, MapOut};
use crate::table::FrameTable;
use atomic_table::Seat;
use byte_devices::LogDevice;
use pin_core::View;
use segment_store::BlockLane;
use std::marker::Brand;
use table_rule::{Mapped, Turn, Value};

impl<L: BlockLane, G: LogDevice> FrameTable<L, G> {
    fn out_at<D: AtMap>(
        &self,
        seat: &mut Seat<Value<L, G>, View>,
        _partition: u32,
        place: usize,
        slot: usize,
    ) -> Value<L, G>
        requires known { (D.frames ≡ frames_of self.now) × (D.partition ≡ _partition)
            × (D.slot ≡ slot) }
        requires place { (place ≡ latch_place (frames_of self.now) (Partition _partition))
            × (slot ≡ slot_of (frames_of self.now) (Of (Partition _partition))) }
        requires seat { CanTurn self.now seat.old (Partition _partition) }
        requires held { ((hold seat.old.me.0 _partition).held ≡ true)
            × ((hold seat.old.me.0 _partition).out ≡ None) }
        ensures seat { (seat.new.table_id ≡ seat.old.table_id) × (seat.new.id ≡ seat.old.id) }
        ensures hand { seat.new.me.1 ≡ (slot, value.Away) ∷ seat.old.me.1 }
        ensures map { (entries : List MapEntry) × IsMap (frames_of self.now) result entries
            × TakesPair (hold seat.old.me.0 _partition) result
            × DidMap (parts.map_out entries) _partition seat.old.me.0 seat.new.me.0
            × GivesFrames (frames_of self.now) result }
    {
        // An exchange of a slot is no step of its own: the load is, and its value tells nothing.
        self.table.shared.load::<MapOut<D>>(seat, place);
        self.table.shared.exchange(seat, slot, Value::Away)
    }

    /// The map of a partition goes out with the seat that has its latch. If the backend is entering
    /// a pair, the list has room for it.
    pub fn map_out(&self, seat: &mut Seat<Value<L, G>, View>, partition: u32) -> Vec<Mapped>
        requires seat { CanTurn self.now seat.old (Partition partition) }
        requires held { ((hold seat.old.me.0 partition).held ≡ true)
            × ((hold seat.old.me.0 partition).out ≡ None) }
        ensures seat { (seat.new.table_id ≡ seat.old.table_id) × (seat.new.id ≡ seat.old.id) }
        ensures hand { seat.new.me.1 ≡ (
          slot_of (frames_of self.now) (Of (Partition partition)),
          value.Away,
        ) ∷ seat.old.me.1 }
        ensures apart { AreApart result.items }
        ensures inside { AreBelow (frames_of self.now) result.items }
        ensures room { frames_of self.now ≤ vec_capacity result }
        ensures few { HasRoomFor (hold seat.old.me.0 partition) result }
        ensures named { (hold seat.old.me.0 partition).changed ≡ false
            → HasNamed (hold seat.old.me.0 partition).change (map entry_of result.items) }
        ensures work { SameWork seat.old.me.0 seat.new.me.0 }
        ensures out { MapStep partition (out_hold (map entry_of result.items) (hold seat.old.me.0 partition))
            seat.old.me.0 seat.new.me.0 }
        ensures did { DidMap (parts.map_out (map entry_of result.items)) partition seat.old.me.0
            seat.new.me.0 }
    {
        let place = self.latch(Turn::Partition(partition));
        let slot = self.slot(Turn::Partition(partition));
        match self.out_at::<Brand>(seat, partition, place, slot) {
            Value::Map(map) => map,
            _other => unreachable!(),
        }
    }

    fn back_at<D: AtMap>(
        &self,
        seat: &mut Seat<Value<L, G>, View>,
        _partition: u32,
        place: usize,
        slot: usize,
        entries: Vec<Mapped>,
    )
        requires known { (D.partition ≡ _partition) × (D.entries ≡ map entry_of entries.items) }
        requires place { (place ≡ latch_place (frames_of self.now) (Partition _partition))
            × (slot ≡ slot_of (frames_of self.now) (Of (Partition _partition))) }
        requires seat { CanTurn self.now seat.old (Partition _partition) }
        requires hand { seat.old.me.1 ≡ (slot, value.Away) ∷ rest seat.old.me.1 }
        requires apart { AreApart entries.items × (frames_of self.now ≤ vec_capacity entries) }
        requires may { MayComeBack (map entry_of entries.items) _partition seat.old.me.0 }
        ensures seat { (seat.new.table_id ≡ seat.old.table_id) × (seat.new.id ≡ seat.old.id) }
        ensures hand { seat.new.me.1 ≡ rest seat.old.me.1 }
        ensures did { ComesBack (map entry_of entries.items) _partition seat.old.me.0 seat.new.me.0
            (hold seat.old.me.0 _partition).change }
    {
        let away = self.table.shared.exchange(seat, slot, Value::Map(entries));
        let Value::Away = away else { unreachable!() };
        // An exchange of a slot is no step of its own: the load is, and its value tells nothing.
        self.table.shared.load::<MapBack<D>>(seat, place);
    }

    /// The map is back. If the backend named a pair in change, the pair is entered now, or left out
    /// (`BufTableInsert`, `BufTableDelete`).
    pub fn map_back(&self, seat: &mut Seat<Value<L, G>, View>, partition: u32, entries: Vec<Mapped>)
        requires seat { CanTurn self.now seat.old (Partition partition) }
        requires hand { seat.old.me.1 ≡ (
          slot_of (frames_of self.now) (Of (Partition partition)),
          value.Away,
        ) ∷ rest seat.old.me.1 }
        requires apart { AreApart entries.items }
        requires room { frames_of self.now ≤ vec_capacity entries }
        requires may { MayComeBack (map entry_of entries.items) partition seat.old.me.0 }
        ensures seat { (seat.new.table_id ≡ seat.old.table_id) × (seat.new.id ≡ seat.old.id) }
        ensures hand { seat.new.me.1 ≡ rest seat.old.me.1 }
        ensures work { SameWork seat.old.me.0 seat.new.me.0 }
        ensures back { MapStep partition (back_hold (map entry_of entries.items)
            (hold seat.old.me.0 partition)) seat.old.me.0 seat.new.me.0 }
        ensures did { ComesBack (map entry_of entries.items) partition seat.old.me.0 seat.new.me.0
            (hold seat.old.me.0 partition).change }
    {
        let place = self.latch(Turn::Partition(partition));
        let slot = self.slot(Turn::Partition(partition));
        self.back_at::<Brand>(seat, partition, place, slot, entries)
    }
}
