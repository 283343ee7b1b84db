//! The page of a frame is copied, as a read.
ghost use Rattle.std.specs.Prelude.{◌≡◌, ◌≢◌, ℕ, Some};
ghost use Rattle.block_tag.specs.Names.{packed_tag};
ghost use Rattle.pin_core.specs.State.{link};
ghost use Rattle.frame_table.specs.Content.{CanLock, unshared_link};
ghost use Rattle.frame_table.specs.Seats.{CanStep, SameSeat};
ghost use Rattle.content_locks.specs.Locks.{CanCopy, copied_link};
ghost use Rattle.buffer_frames.specs.Rests.{HasAtMostLock};
ghost use Rattle.buffer_frames.specs.PageReads.{OnlyReads, ReadsPage, ReadsUnder, SharesToRead};

use atomic_table::Seat;
use block_tag::Tag;
use byte_devices::LogDevice;
use content_locks::{copy_out, share, unshare};
use frame_table::{EndLoad, FrameTable, Value};
use page_layout::{Lsn, Page};
use pin_core::View;
use segment_store::BlockLane;
use std::sync::Wait;

/// Copies the page of a frame under the content lock that the backend has, and loads the place of
/// the read. The place comes under the lock of the copy, so no write of the page can come between
/// the two.
pub fn read_copy<L: BlockLane, G: LogDevice, R: Wait>(
    table: &FrameTable<L, G>,
    rt: &R,
    seat: &mut Seat<Value<L, G>, View>,
    frame: u32,
    _tag: Tag,
    page: &mut Page,
) -> Lsn
    requires seat { CanStep table.now seat.old frame }
    requires copy { CanCopy (link seat.old.me.0 frame) }
    requires tag { (link seat.old.me.0 frame).tag ≡ Some (packed_tag _tag) }
    ensures seat { SameSeat seat.old seat.new }
    ensures only { OnlyReads seat.old.me.0 seat.new.me.0 }
    ensures link { link seat.new.me.0 frame ≡ copied_link page.new (link seat.old.me.0 frame) }
    ensures others { (g : ℕ) → g ≢ frame → link seat.new.me.0 g ≡ link seat.old.me.0 g }
    ensures reads { ReadsPage L.contents table.now _tag page.new result seat.old.me.0
        seat.new.me.0 }
    ensures did { ReadsUnder (link seat.old.me.0 frame).content frame page.new result seat.old.me.0
        seat.new.me.0 }
{
    copy_out(table, rt, seat, frame, page);
    table.load_log_end(seat, EndLoad::Read(frame))
}

/// The same under a content lock that is taken in shared mode for that, and released.
pub fn share_to_read<L: BlockLane, G: LogDevice, R: Wait>(
    table: &FrameTable<L, G>,
    rt: &R,
    seat: &mut Seat<Value<L, G>, View>,
    frame: u32,
    _tag: Tag,
    page: &mut Page,
) -> Lsn
    requires seat { CanStep table.now seat.old frame }
    requires lock { CanLock (link seat.old.me.0 frame) }
    requires calm { HasAtMostLock (link seat.old.me.0 frame) }
    requires tag { (link seat.old.me.0 frame).tag ≡ Some (packed_tag _tag) }
    ensures seat { SameSeat seat.old seat.new }
    ensures only { OnlyReads seat.old.me.0 seat.new.me.0 }
    ensures link { link seat.new.me.0 frame ≡ unshared_link (link seat.old.me.0 frame) }
    ensures others { (g : ℕ) → g ≢ frame → link seat.new.me.0 g ≡ link seat.old.me.0 g }
    ensures reads { ReadsPage L.contents table.now _tag page.new result seat.old.me.0
        seat.new.me.0 }
    ensures did { SharesToRead frame page.new result seat.old.me.0 seat.new.me.0 }
{
    share(table, rt, seat, frame);
    let place = read_copy(table, rt, seat, frame, _tag, page);
    unshare(table, seat, frame);
    place
}
