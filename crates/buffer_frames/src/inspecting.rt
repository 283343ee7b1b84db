//! A frame is looked at (`pg_buffercache_pages`).
ghost use Rattle.std.specs.Prelude.{◌≡◌, ◌<◌, true, IfSome, is_some};
ghost use Rattle.state_word.specs.Fields.{fields};
ghost use Rattle.block_tag.specs.Names.{names_block};
ghost use Rattle.pin_core.specs.State.{link};
ghost use Rattle.table_rule.specs.Blocks.{has_block};
ghost use Rattle.frame_table.specs.Seats.{IsWordOf, SameMarks, SameSeat, Touches, frames_of};
ghost use Rattle.frame_table.specs.Seats.{relations_of};
ghost use Rattle.buffer_frames.specs.Inspections.{Inspects};
ghost use Rattle.buffer_frames.specs.Rests.{LinksRest, Stands};

use crate::pins::HeldPins;
use atomic_table::Seat;
use block_tag::Tag;
use byte_devices::LogDevice;
use frame_table::{FrameTable, Value};
use pin_core::View;
use segment_store::BlockLane;
use std::sync::Wait;

/// A frame's state word and the tag of its block, as they stood while its header was held: the word
/// has BM_LOCKED, and there is a tag exactly if it has BM_TAG_VALID.
#[derive(Clone, Copy, PartialEq, Eq, Debug)]
pub struct Seen {
    pub word: u64,
    pub tag: Option<Tag>,
}

/// Looks at a frame's state word and at its tag, under its header.
pub fn inspect<L: BlockLane, G: LogDevice, R: Wait>(
    table: &FrameTable<L, G>,
    rt: &R,
    seat: &mut Seat<Value<L, G>, View>,
    _held: &HeldPins,
    frame: u32,
) -> Seen
    requires stands { Stands table.now seat.old }
    requires rests { LinksRest _held.now seat.old.me.0 }
    requires inside { frame < frames_of table.now }
    ensures seat { SameSeat seat.old seat.new }
    ensures stands { Stands table.now seat.new }
    ensures rests { LinksRest _held.now seat.new.me.0 }
    ensures touches { Touches frame seat.old.me.0 seat.new.me.0 }
    ensures marks { SameMarks seat.old.me.0 seat.new.me.0 }
    ensures lock { (link seat.new.me.0 frame).content ≡ (link seat.old.me.0 frame).content }
    ensures inspects { Inspects frame result seat.old.me.0 seat.new.me.0 }
    ensures word { IsWordOf (link seat.old.me.0 frame) (fields result.word) }
    ensures locked { (fields result.word).locked ≡ true }
    ensures tag { is_some result.tag ≡ (fields result.word).tag_valid }
    ensures named { IfSome result.tag (λ tag. names_block tag ≡ true) }
    ensures listed { IfSome result.tag (λ tag. has_block (relations_of table.now) tag ≡ true) }
{
    table.lock_header(rt, seat, frame);
    // To lock a header is no load: this one is what shows whether the block is still there.
    let word = table.look(seat, frame);
    let tag = table.load_tag(seat, frame);
    table.unlock_header(seat, frame);
    Seen { word, tag }
}
