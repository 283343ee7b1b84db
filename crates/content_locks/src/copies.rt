//! Copies of pages.
ghost use Rattle.std.specs.Prelude.{◌≡◌, ◌∷◌, ℕ, None, true};
ghost use Rattle.atomic_table.specs.Table.{rest};
ghost use Rattle.page_layout.specs.Soundness.{is_sound_page};
ghost use Rattle.pin_core.specs.declared.view.Content.TheVariants.{Shared};
ghost use Rattle.pin_core.specs.State.{link};
ghost use Rattle.page_core.specs.Kinds as kinds;
ghost use Rattle.table_rule.specs.declared.value.Value.TheVariants as value;
ghost use Rattle.table_rule.specs.declared.turn.Place.TheVariants as place;
ghost use Rattle.table_rule.specs.Layout.{slot_of};
ghost use Rattle.frame_table.specs.Content.{copying_link};
ghost use Rattle.frame_table.specs.PageWork.{MayReturnPage, MayTakePage, ReturnsBy, overwriting, page_out_link, returned_link};
ghost use Rattle.frame_table.specs.Kinds.{pages};
ghost use Rattle.frame_table.specs.Seats.{CanStep, SameMarks, SameSeat, Touches, frames_of};
ghost use Rattle.frame_table.specs.FrameSteps.{Did};
ghost use Rattle.content_locks.specs.Locks.{CanCopy, Copies, CopiesPage, LocksContent, MayCopy, TriedCopy, copied_link, copying_link_if};

use crate::content_word::{is_copying, is_exclusive};
use atomic_table::Seat;
use byte_devices::LogDevice;
use frame_table::{FrameTable, Value};
use page_layout::Page;
use pin_core::View;
use segment_store::BlockLane;
use std::sync::Wait;
use std::thread;

/// Waits until no sharer has the copy latch of the frame, and takes it.
fn take_copy<L: BlockLane, G: LogDevice, R: Wait>(
    table: &FrameTable<L, G>,
    rt: &R,
    seat: &mut Seat<Value<L, G>, View>,
    frame: u32,
)
    requires seat { CanStep table.now seat.old frame }
    requires view { (link seat.old.me.0 frame).content ≡ Shared }
    ensures seat { SameSeat seat.old seat.new }
    ensures touches { Touches frame seat.old.me.0 seat.new.me.0 }
    ensures marks { SameMarks seat.old.me.0 seat.new.me.0 }
    ensures taken { link seat.new.me.0 frame ≡ copying_link true (link seat.old.me.0 frame) }
    ensures did { LocksContent kinds.take_copy frame seat.old.me.0 seat.new.me.0 }
{
    for _ in rt.forever() {
        if try_copy(table, seat, frame) {
            return;
        }
        thread::yield_now();
    }
    unreachable!()
}

fn try_copy<L: BlockLane, G: LogDevice>(
    table: &FrameTable<L, G>,
    seat: &mut Seat<Value<L, G>, View>,
    frame: u32,
) -> bool
    requires seat { CanStep table.now seat.old frame }
    requires view { (link seat.old.me.0 frame).content ≡ Shared }
    ensures seat { SameSeat seat.old seat.new }
    ensures touches { Touches frame seat.old.me.0 seat.new.me.0 }
    ensures marks { SameMarks seat.old.me.0 seat.new.me.0 }
    ensures link { link seat.new.me.0 frame ≡ copying_link_if result (link seat.old.me.0 frame) }
    ensures did { TriedCopy frame seat.old.me.0 seat.new.me.0 result }
{
    let was = table.look_content(seat, frame);
    if is_copying(was) {
        return false;
    }
    match table.take_copy(seat, frame, was) {
        Ok(()) => true,
        Err(_now) => false,
    }
}

/// Copies the page of a frame that may go out.
fn copy_page<L: BlockLane, G: LogDevice>(
    table: &FrameTable<L, G>,
    seat: &mut Seat<Value<L, G>, View>,
    frame: u32,
    page: &mut Page,
)
    requires seat { CanStep table.now seat.old frame }
    requires view { MayCopy (link seat.old.me.0 frame) }
    ensures seat { SameSeat seat.old seat.new }
    ensures touches { Touches frame seat.old.me.0 seat.new.me.0 }
    ensures marks { SameMarks seat.old.me.0 seat.new.me.0 }
    ensures copied { link seat.new.me.0 frame ≡ copied_link page.new (link seat.old.me.0 frame) }
    ensures sound { is_sound_page page.new ≡ true }
    ensures did { CopiesPage frame page.new seat.old.me.0 seat.new.me.0 }
{
    let out = table.page_out(seat, frame);
    page.copy_from(&out);
    table.page_back(seat, frame, out);
}

/// Copies the page of a frame, which is sound, under the content lock that the backend has. The
/// copy is noted, and is the frame's page for as long as the lock is held. Sharers copy one after
/// the other.
pub fn copy_out<L: BlockLane, G: LogDevice, R: Wait>(
    table: &FrameTable<L, G>,
    rt: &R,
    seat: &mut Seat<Value<L, G>, View>,
    frame: u32,
    page: &mut Page,
)
    requires seat { CanStep table.now seat.old frame }
    requires view { CanCopy (link seat.old.me.0 frame) }
    ensures seat { SameSeat seat.old seat.new }
    ensures touches { Touches frame seat.old.me.0 seat.new.me.0 }
    ensures marks { SameMarks seat.old.me.0 seat.new.me.0 }
    ensures copied { link seat.new.me.0 frame ≡ copied_link page.new (link seat.old.me.0 frame) }
    ensures sound { is_sound_page page.new ≡ true }
    ensures did { Copies frame page.new seat.old.me.0 seat.new.me.0 }
{
    if is_exclusive(table.look_content(seat, frame)) {
        copy_page(table, seat, frame, page);
        return;
    }
    take_copy(table, rt, seat, frame);
    copy_page(table, seat, frame, page);
    table.leave_copy(seat, frame);
}

/// The page of a frame goes out with the backend: under the exclusive lock, with the copy latch, or
/// under an input right.
pub fn page_out<L: BlockLane, G: LogDevice>(
    table: &FrameTable<L, G>,
    seat: &mut Seat<Value<L, G>, View>,
    frame: u32,
) -> Page
    requires seat { CanStep table.now seat.old frame }
    requires can { MayTakePage (link seat.old.me.0 frame) }
    ensures seat { (seat.new.table_id ≡ seat.old.table_id) × (seat.new.id ≡ seat.old.id) }
    ensures hand { seat.new.me.1 ≡ (slot_of (frames_of table.now) (place.Page frame), value.Away)
        ∷ seat.old.me.1 }
    ensures touches { Touches frame seat.old.me.0 seat.new.me.0 }
    ensures marks { SameMarks seat.old.me.0 seat.new.me.0 }
    ensures out { link seat.new.me.0 frame ≡ page_out_link result (link seat.old.me.0 frame) }
    ensures fresh { (link seat.new.me.0 frame).overwritten ≡ None }
    ensures did { (found : ℕ) × Did (pages kinds.page_out) frame seat.old.me.0 seat.new.me.0 found }
{
    table.page_out(seat, frame)
}

/// The page is back: as it was taken, or as the image of the backend's entry, or as the page that
/// the lane gave.
pub fn page_back<L: BlockLane, G: LogDevice>(
    table: &FrameTable<L, G>,
    seat: &mut Seat<Value<L, G>, View>,
    frame: u32,
    page: Page,
)
    requires seat { CanStep table.now seat.old frame }
    requires hand { seat.old.me.1 ≡ (slot_of (frames_of table.now) (place.Page frame), value.Away)
        ∷ rest seat.old.me.1 }
    requires can { MayReturnPage page (link seat.old.me.0 frame) }
    ensures seat { (seat.new.table_id ≡ seat.old.table_id) × (seat.new.id ≡ seat.old.id) }
    ensures hand { seat.new.me.1 ≡ rest seat.old.me.1 }
    ensures touches { Touches frame seat.old.me.0 seat.new.me.0 }
    ensures marks { SameMarks seat.old.me.0 seat.new.me.0 }
    ensures back { link seat.new.me.0 frame ≡ returned_link page (link seat.old.me.0 frame) }
    ensures did { (found : ℕ) × ReturnsBy (overwriting (link seat.old.me.0 frame)) frame
        seat.old.me.0 seat.new.me.0 found }
{
    table.page_back(seat, frame, page);
}
