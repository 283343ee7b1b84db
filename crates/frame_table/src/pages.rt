//! The pages of frames.
ghost use Rattle.std.specs.Prelude.{◌≡◌, ◌∷◌, ℕ, List, Some, None};
ghost use Rattle.atomic_table.specs.Table.{rest};
ghost use Rattle.pin_core.specs.State.{link};
ghost use Rattle.page_core.specs.Kinds as kinds;
ghost use Rattle.table_rule.specs.declared.value.Value.TheVariants as value;
ghost use Rattle.table_rule.specs.declared.turn.Place.TheVariants as place;
ghost use Rattle.table_rule.specs.Layout.{slot_of};
ghost use Rattle.frame_table.specs.Kinds.{pages};
ghost use Rattle.frame_table.specs.PageWork.{MayReturnPage, MayTakePage, IsPage, ReturnsBy, overwriting, page_out_link, returned_link};
ghost use Rattle.frame_table.specs.Seats.{CanStep, SameMarks, Touches, frames_of};
ghost use Rattle.frame_table.specs.FrameSteps.{Did};

use crate::plays::{AtPage, PageBack, PageOut};
use crate::table::FrameTable;
use atomic_table::Seat;
use byte_devices::LogDevice;
use page_layout::Page;
use pin_core::View;
use segment_store::BlockLane;
use std::marker::Brand;
use table_rule::{Value, content_place};

impl<L: BlockLane, G: LogDevice> FrameTable<L, G> {
    fn page_out_at<D: AtPage>(
        &self,
        seat: &mut Seat<Value<L, G>, View>,
        _frame: u32,
        slot: usize,
    ) -> Value<L, G>
        requires known { (D.frame ≡ _frame) × (D.slot ≡ slot)
            × (slot ≡ slot_of (frames_of self.now) (place.Page _frame)) }
        requires seat { CanStep self.now seat.old _frame }
        requires can { MayTakePage (link seat.old.me.0 _frame) }
        ensures seat { (seat.new.table_id ≡ seat.old.table_id) × (seat.new.id ≡ seat.old.id) }
        ensures hand { seat.new.me.1 ≡ (slot, value.Away) ∷ seat.old.me.1 }
        ensures page { (page : List ℕ) × (found : ℕ) × IsPage result page
            × ((link seat.new.me.0 _frame).out ≡ Some page)
            × Did (pages kinds.page_out) _frame seat.old.me.0 seat.new.me.0 found }
    {
        // An exchange of a slot is no step of its own: the load is, and its value tells nothing.
        self.table
            .shared
            .load::<PageOut<D>>(seat, content_place(_frame));
        self.table.shared.exchange(seat, slot, Value::Away)
    }

    /// The page of a frame goes out with the seat: under the exclusive lock, with the copy latch,
    /// or under an input right.
    pub fn page_out(&self, seat: &mut Seat<Value<L, G>, View>, frame: u32) -> Page
        requires seat { CanStep self.now seat.old frame }
        requires can { MayTakePage (link seat.old.me.0 frame) }
        ensures seat { (seat.new.table_id ≡ seat.old.table_id) × (seat.new.id ≡ seat.old.id) }
        ensures hand { seat.new.me.1 ≡ (slot_of (frames_of self.now) (place.Page frame), value.Away)
            ∷ seat.old.me.1 }
        ensures touches { Touches frame seat.old.me.0 seat.new.me.0 }
        ensures marks { SameMarks seat.old.me.0 seat.new.me.0 }
        ensures out { link seat.new.me.0 frame ≡ page_out_link result (link seat.old.me.0 frame) }
        ensures fresh { (link seat.new.me.0 frame).overwritten ≡ None }
        ensures did { (found : ℕ) × Did (pages kinds.page_out) frame seat.old.me.0 seat.new.me.0
            found }
    {
        match self.page_out_at::<Brand>(seat, frame, frame as usize) {
            Value::Page(page) => page,
            _other => unreachable!(),
        }
    }

    fn page_back_at<D: AtPage>(
        &self,
        seat: &mut Seat<Value<L, G>, View>,
        _frame: u32,
        slot: usize,
        page: Page,
    )
        requires known { (D.frame ≡ _frame) × (slot ≡ slot_of (frames_of self.now) (place.Page _frame)) }
        requires seat { CanStep self.now seat.old _frame }
        requires hand { seat.old.me.1 ≡ (slot, value.Away) ∷ rest seat.old.me.1 }
        requires can { MayReturnPage page (link seat.old.me.0 _frame) }
        ensures seat { (seat.new.table_id ≡ seat.old.table_id) × (seat.new.id ≡ seat.old.id) }
        ensures hand { seat.new.me.1 ≡ rest seat.old.me.1 }
        ensures did { (found : ℕ) × ReturnsBy (overwriting (link seat.old.me.0 _frame)) _frame
            seat.old.me.0 seat.new.me.0 found }
    {
        let away = self.table.shared.exchange(seat, slot, Value::Page(page));
        let Value::Away = away else { unreachable!() };
        // An exchange of a slot is no step of its own: the load is, and its value tells nothing.
        self.table
            .shared
            .load::<PageBack<D>>(seat, content_place(_frame));
    }

    /// The page is back. It is as it was taken, unless an entry of the backend isn't applied yet:
    /// then it is the entry's image; or the lane gave a page under the backend's input right: then
    /// it is that page.
    pub fn page_back(&self, seat: &mut Seat<Value<L, G>, View>, frame: u32, page: Page)
        requires seat { CanStep self.now seat.old frame }
        requires hand { seat.old.me.1 ≡ (
          slot_of (frames_of self.now) (place.Page frame),
          value.Away,
        ) ∷ rest seat.old.me.1 }
        requires can { MayReturnPage page (link seat.old.me.0 frame) }
        ensures seat { (seat.new.table_id ≡ seat.old.table_id) × (seat.new.id ≡ seat.old.id) }
        ensures hand { seat.new.me.1 ≡ rest seat.old.me.1 }
        ensures touches { Touches frame seat.old.me.0 seat.new.me.0 }
        ensures marks { SameMarks seat.old.me.0 seat.new.me.0 }
        ensures back { link seat.new.me.0 frame ≡ returned_link page (link seat.old.me.0 frame) }
        ensures did { (found : ℕ) × ReturnsBy (overwriting (link seat.old.me.0 frame)) frame
            seat.old.me.0 seat.new.me.0 found }
    {
        self.page_back_at::<Brand>(seat, frame, frame as usize, page)
    }
}
