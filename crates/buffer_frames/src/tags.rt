//! The tag of a frame that must have one.
ghost use Rattle.std.specs.Prelude.{◌≡◌, ◌≢◌, ℕ, true, false, Some};
ghost use Rattle.block_tag.specs.Names.{names_block, packed_tag};
ghost use Rattle.pin_core.specs.declared.view.Role.TheVariants.{Absent};
ghost use Rattle.pin_core.specs.State.{link};
ghost use Rattle.pin_core.specs.Kinds as kinds;
ghost use Rattle.table_rule.specs.Blocks.{has_block};
ghost use Rattle.frame_table.specs.FrameSteps.{Did};
ghost use Rattle.frame_table.specs.Kinds.{pins};
ghost use Rattle.frame_table.specs.Seats.{CanStep, SameMarks, SameSeat, Touches, read_link};
ghost use Rattle.frame_table.specs.Seats.{relations_of};
ghost use Rattle.buffer_frames.specs.Syncs.{ShowsTag};

use atomic_table::Seat;
use block_tag::Tag;
use byte_devices::LogDevice;
use frame_table::{FrameTable, Value};
use pin_core::View;
use segment_store::BlockLane;

/// The tag of a frame of which the backend has seen that it has one.
pub(crate) fn tag_shown<L: BlockLane, G: LogDevice>(
    table: &FrameTable<L, G>,
    seat: &mut Seat<Value<L, G>, View>,
    frame: u32,
) -> Tag
    requires seat { CanStep table.now seat.old frame }
    requires settled { (link seat.old.me.0 frame).pending ≡ false }
    requires shows { ShowsTag (link seat.old.me.0 frame) }
    ensures seat { SameSeat seat.old seat.new }
    ensures touches { Touches frame seat.old.me.0 seat.new.me.0 }
    ensures marks { SameMarks seat.old.me.0 seat.new.me.0 }
    ensures named { names_block result ≡ true }
    ensures listed { has_block (relations_of table.now) result ≡ true }
    ensures read { link seat.new.me.0 frame ≡ read_link (Some result) (link seat.old.me.0 frame) }
    ensures remembered { (link seat.old.me.0 frame).role ≢ Absent
        → (link seat.new.me.0 frame).tag ≡ Some (packed_tag result) }
    ensures did { Did (pins kinds.load_tag) frame seat.old.me.0 seat.new.me.0 (packed_tag result) }
    ensures same { (tag : ℕ) → (link seat.old.me.0 frame).tag ≡ Some tag → tag ≡ packed_tag result }
{
    let Some(tag) = table.load_tag(seat, frame) else {
        unreachable!()
    };
    tag
}
