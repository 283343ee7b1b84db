//! A page is put into a frame.
ghost use Rattle.std.specs.Prelude.{◌≡◌, ◌<◌, IfOk, None, Some, false, true};
ghost use Rattle.block_tag.specs.Names.{names_block, packed_tag};
ghost use Rattle.page_layout.specs.Soundness.{is_new_page, is_sound_page};
ghost use Rattle.pin_core.specs.declared.view.Content.TheVariants as content;
ghost use Rattle.pin_core.specs.State.{link};
ghost use Rattle.table_rule.specs.Blocks.{has_block};
ghost use Rattle.frame_table.specs.PageWork.{applied_link};
ghost use Rattle.frame_table.specs.Seats.{SameMarks, SameSeat, Touches, frames_of, relations_of};
ghost use Rattle.wal_flush.specs.Inserts.{AddsTorn};
ghost use Rattle.buffer_frames.specs.Rests.{LinksRest, Stands};
ghost use Rattle.buffer_frames.specs.Tokens.{IsPinnedFor};
ghost use Rattle.buffer_frames.specs.Puts.{AppliesImage, PutAnswer, PutsAt, met_put, put_calls};
ghost use Rattle.buffer_frames.specs.Working.{Made};

use crate::pins::HeldPins;
use atomic_table::Seat;
use block_tag::Tag;
use byte_devices::LogDevice;
use content_locks::{page_back, page_out};
use frame_table::{FrameTable, Value};
use page_layout::{Lsn, Page};
use pin_core::View;
use segment_store::BlockLane;
use std::mem::replace;
use std::sync::Wait;
use wal_flush::{InsertError, insert};

/// The image of the backend's entry becomes the frame's page, and the backend has the one that was
/// there.
fn apply<L: BlockLane, G: LogDevice>(
    table: &FrameTable<L, G>,
    seat: &mut Seat<Value<L, G>, View>,
    frame: u32,
    page: &mut Page,
)
    requires stands { Stands table.now seat.old }
    requires inside { frame < frames_of table.now }
    requires right { (link seat.old.me.0 frame).content ≡ content.Exclusive }
    requires home { (link seat.old.me.0 frame).out ≡ None }
    requires entered { (link seat.old.me.0 frame).unapplied ≡ true }
    requires image { (link seat.old.me.0 frame).image ≡ Some page.old }
    ensures seat { SameSeat seat.old seat.new }
    ensures touches { Touches frame seat.old.me.0 seat.new.me.0 }
    ensures marks { SameMarks seat.old.me.0 seat.new.me.0 }
    ensures applied { link seat.new.me.0 frame
        ≡ applied_link page.old (record (link seat.old.me.0 frame) { out = None }) }
    ensures did { AppliesImage frame page.old seat.old.me.0 seat.new.me.0 }
{
    let out = page_out(table, seat, frame);
    let image = replace(page, out);
    page_back(table, seat, frame, image);
}

/// Marks a frame dirty of which callers hold a token and the exclusive content lock, inserts the
/// page into the log, and copies it into the frame.
pub fn put_locked<L: BlockLane, G: LogDevice, R: Wait>(
    table: &FrameTable<L, G>,
    rt: &R,
    seat: &mut Seat<Value<L, G>, View>,
    _held: &HeldPins,
    frame: u32,
    tag: Tag,
    page: &mut Page,
) -> Result<Lsn, InsertError>
    requires stands { Stands table.now seat.old }
    requires rests { LinksRest _held.now seat.old.me.0 }
    requires pinned { IsPinnedFor tag frame _held.now }
    requires right { (link seat.old.me.0 frame).content ≡ content.Exclusive }
    requires inside { frame < frames_of table.now }
    requires tag { names_block tag ≡ true }
    requires block { has_block (relations_of table.now) tag ≡ true }
    requires sound { is_sound_page page.old ≡ true }
    requires used { is_new_page page.old ≡ false }
    ensures seat { SameSeat seat.old seat.new }
    ensures stands { Stands table.now seat.new }
    ensures puts { PutsAt frame seat.old.me.0 seat.new.me.0 }
    ensures rests { LinksRest _held.now seat.new.me.0 }
    ensures right { (link seat.new.me.0 frame).content ≡ content.Exclusive }
    ensures marked { seat.new.me.0.dirtied_or_synced ≡ true }
    ensures answer { PutAnswer (relations_of table.now) frame tag page.old seat.old.me.0
        seat.new.me.0 result }
    ensures calls { Made (put_calls result) seat.old.me.0 seat.new.me.0 }
    ensures met { seat.new.me.0.met ≡ met_put result seat.old.me.0.met }
    ensures torn { AddsTorn (packed_tag tag) page.old result seat.old.me.0.torn seat.new.me.0.torn }
    ensures entered { IfOk result (λ _. (link seat.new.me.0 frame).entered ≡ true) }
{
    table.mark_dirty(rt, seat, frame);
    match insert(table, rt, seat, frame, tag, page) {
        Ok(lsn) => {
            apply(table, seat, frame, page);
            Ok(lsn)
        }
        Err(why) => Err(why),
    }
}
