//! A frame is noted for a checkpoint (`BufferSync`).
ghost use Rattle.std.specs.Prelude.{◌≡◌, ◌<◌, ℕ, true, false, IfNone, IfSome};
ghost use Rattle.block_tag.specs.Names.{names_block};
ghost use Rattle.pin_core.specs.State.{link};
ghost use Rattle.page_core.specs.Kinds as kinds;
ghost use Rattle.table_rule.specs.Blocks.{has_block};
ghost use Rattle.frame_table.specs.FrameSteps.{Did};
ghost use Rattle.frame_table.specs.Kinds.{pages};
ghost use Rattle.frame_table.specs.Seats.{SameMarks, SameSeat, Touches, frames_of, relations_of};
ghost use Rattle.buffer_frames.specs.Rests.{LinksRest, Stands};
ghost use Rattle.buffer_frames.specs.Working.{Within};
ghost use Rattle.buffer_frames.specs.Syncs.{NotesBlock, SeesNotDirty};

use crate::pins::HeldPins;
use crate::tags::tag_shown;
use atomic_table::Seat;
use block_tag::Tag;
use byte_devices::LogDevice;
use frame_table::{FrameTable, Value};
use pin_core::View;
use segment_store::BlockLane;
use state_word::{Flag, has};
use std::sync::Wait;

/// Sets BM_CHECKPOINT_NEEDED in a frame that is dirty, and returns the tag of its block. The
/// backend's checkpoint passes the frame, and has to write it if it was dirty.
pub fn need_checkpoint<L: BlockLane, G: LogDevice, R: Wait>(
    table: &FrameTable<L, G>,
    rt: &R,
    seat: &mut Seat<Value<L, G>, View>,
    _held: &HeldPins,
    frame: u32,
) -> Option<Tag>
    requires stands { Stands table.now seat.old }
    requires rests { LinksRest _held.now seat.old.me.0 }
    requires inside { frame < frames_of table.now }
    ensures seat { SameSeat seat.old seat.new }
    ensures stands { Stands table.now seat.new }
    ensures rests { LinksRest _held.now seat.new.me.0 }
    ensures touches { Touches frame seat.old.me.0 seat.new.me.0 }
    ensures marks { SameMarks seat.old.me.0 seat.new.me.0 }
    ensures lock { (link seat.new.me.0 frame).content ≡ (link seat.old.me.0 frame).content }
    ensures visited { (link seat.new.me.0 frame).visited ≡ true }
    ensures clean { IfNone result (SeesNotDirty frame seat.old.me.0 seat.new.me.0) }
    ensures not_left_to_write { IfNone result
        ((link seat.old.me.0 frame).left_to_write ≡ false
        → (link seat.new.me.0 frame).left_to_write ≡ false) }
    ensures needed { IfSome result
        (λ _. Within (λ a b. (word : ℕ) × Did (pages kinds.need_checkpoint) frame a b word)
        seat.old.me.0 seat.new.me.0) }
    ensures noted { IfSome result (λ tag. NotesBlock frame tag seat.old.me.0 seat.new.me.0) }
    ensures named { IfSome result (λ tag. names_block tag ≡ true) }
    ensures listed { IfSome result (λ tag. has_block (relations_of table.now) tag ≡ true) }
{
    let word = table.lock_header(rt, seat, frame);
    if !has(word, Flag::Dirty) {
        // To lock a header is no load: by this one the checkpoint passes the frame.
        table.look(seat, frame);
        table.unlock_header(seat, frame);
        return None;
    }
    let tag = tag_shown(table, seat, frame);
    table.need_checkpoint(seat, frame, word);
    Some(tag)
}
