//! A block's page comes into its frame.
//!
//! The state word is loaded before the header is locked: a block that is in the pool costs no
//! header lock, and after a good read nothing is looked at twice.
ghost use Rattle.std.specs.Prelude.{[], ◌≡◌, ◌∷◌, ◌<◌, Some, true, IfErr, IfOk};
ghost use Rattle.std.specs.Bool.{OnTrue};
ghost use Rattle.block_tag.specs.Names.{lane_number, names_block, packed_tag};
ghost use Rattle.pin_core.specs.declared.view.DeviceCall.TheVariants.{LaneRead};
ghost use Rattle.pin_core.specs.State.{link};
ghost use Rattle.table_rule.specs.Blocks.{has_block};
ghost use Rattle.frame_table.specs.Seats.{frames_of, lanes_in, relations_of};
ghost use Rattle.buffer_frames.specs.Rests.{LinksRestBeside, Stands};
ghost use Rattle.buffer_frames.specs.Fetching.{EndsUnread, FetchShows, fetch_calls, met_lane_read};
ghost use Rattle.buffer_frames.specs.Fetching.{met_fetching};
ghost use Rattle.buffer_frames.specs.Stages.{IsRead, IsReading, Pins};
ghost use Rattle.buffer_frames.specs.Working.{Made, Works};

use crate::pins::HeldPins;
use atomic_table::Seat;
use block_tag::{Tag, lane_of};
use byte_devices::LogDevice;
use content_locks::{Direction, IoRight, end_io, page_back, page_out, start_io};
use frame_table::{FrameTable, Turn, Value};
use page_layout::Page;
use pin_core::View;
use segment_store::BlockLane;
use state_word::{Flag, IoEnd, has};
use std::mem::replace;
use std::sync::Wait;
use thiserror::Error;

/// Why a page didn't come.
#[derive(Clone, Copy, PartialEq, Eq, Debug, Error)]
pub enum FetchError {
    /// The lane failed to read it.
    #[error("a page was not read")]
    ReadFault,
    /// The lane gave a page that isn't sound.
    #[error("a page is not sound")]
    Unsound,
}

/// How a page is in the frame that was pinned for its block.
#[derive(Clone, Copy, PartialEq, Eq, Debug)]
pub enum FetchedPage {
    /// It was there already: no lane was read.
    Hit,
    /// It was read from its lane.
    Read,
}

/// Reads a block from its lane, for the frame. Whether the lane gave a page.
fn read_lane<L: BlockLane, G: LogDevice, R: Wait>(
    table: &FrameTable<L, G>,
    rt: &R,
    seat: &mut Seat<Value<L, G>, View>,
    frame: u32,
    tag: Tag,
    page: &mut Page,
) -> bool
    requires stands { Stands table.now seat.old }
    requires inside { frame < frames_of table.now }
    requires tag { names_block tag ≡ true }
    requires block { has_block (relations_of table.now) tag ≡ true }
    requires reads { IsReading (packed_tag tag) (link seat.old.me.0 frame) }
    ensures works { Works frame table.now seat.old seat.new }
    ensures reads { IsReading (packed_tag tag) (link seat.new.me.0 frame) }
    ensures given { OnTrue result ((link seat.new.me.0 frame).read ≡ Some page.new) }
    ensures calls { Made
        (LaneRead (lane_number tag (lanes_in table.now)) (packed_tag tag) result ∷ []) seat.old.me.0
        seat.new.me.0 }
    ensures met { seat.new.me.0.met ≡ met_lane_read result seat.old.me.0.met }
{
    let lane = lane_of(&tag, table.lanes());
    table.take_turn(rt, seat, Turn::Lane(lane));
    let mut out = table.lane_out(seat, lane);
    let read = out.read(frame, tag, page);
    table.lane_back(seat, lane, out);
    table.leave_turn(seat, Turn::Lane(lane));
    read.is_ok()
}

/// The page that the lane gave becomes the frame's, whose old page comes out in its place.
/// So no page is copied on a miss.
fn install_page<L: BlockLane, G: LogDevice>(
    table: &FrameTable<L, G>,
    seat: &mut Seat<Value<L, G>, View>,
    frame: u32,
    _tag: Tag,
    page: &mut Page,
)
    requires stands { Stands table.now seat.old }
    requires inside { frame < frames_of table.now }
    requires reads { IsReading (packed_tag _tag) (link seat.old.me.0 frame) }
    requires given { (link seat.old.me.0 frame).read ≡ Some page.old }
    ensures works { Works frame table.now seat.old seat.new }
    ensures reads { IsReading (packed_tag _tag) (link seat.new.me.0 frame) }
    ensures given { (link seat.new.me.0 frame).read ≡ Some page.old }
    ensures home { (link seat.new.me.0 frame).read_is_home ≡ true }
    ensures calls { Made [] seat.old.me.0 seat.new.me.0 }
    ensures met { seat.new.me.0.met ≡ seat.old.me.0.met }
{
    let out = page_out(table, seat, frame);
    let given = replace(page, out);
    page_back(table, seat, frame, given);
}

/// If the backend has the right to read the block into the frame, does so, and ends that.
// Not inlined: a hit doesn't come here, and is shorter without it.
#[inline(never)]
fn read_in<L: BlockLane, G: LogDevice, R: Wait>(
    table: &FrameTable<L, G>,
    rt: &R,
    seat: &mut Seat<Value<L, G>, View>,
    _held: &HeldPins,
    right: IoRight,
    tag: Tag,
    page: &mut Page,
) -> Result<FetchedPage, FetchError>
    requires stands { Stands table.now seat.old }
    requires others { LinksRestBeside right.frame _held.now seat.old.me.0 }
    requires inside { right.frame < frames_of table.now }
    requires tag { names_block tag ≡ true }
    requires block { has_block (relations_of table.now) tag ≡ true }
    requires reads { IsReading (packed_tag tag) (link seat.old.me.0 right.frame) }
    ensures works { Works right.frame table.now seat.old seat.new }
    ensures read { IsRead (packed_tag tag) (link seat.new.me.0 right.frame) }
    ensures seen { IfOk result (λ _. (link seat.new.me.0 right.frame).seen_valid ≡ true) }
    ensures calls { Made
        (fetch_calls (lane_number tag (lanes_in table.now)) (packed_tag tag) result) seat.old.me.0
        seat.new.me.0 }
    ensures met { seat.new.me.0.met ≡ met_fetching result seat.old.me.0.met }
    ensures shows { FetchShows L.contents table.now tag result }
    ensures unread { IfErr result
        (λ why. EndsUnread why tag right.frame seat.old.me.0 seat.new.me.0) }
{
    let frame = right.frame();
    if !read_lane(table, rt, seat, frame, tag, page) {
        end_io(table, rt, seat, right, IoEnd::Bad);
        return Err(FetchError::ReadFault);
    }
    if !page.is_sound() {
        // While the page that the lane gave is noted, a load shows that the block had it from the
        // start.
        table.look(seat, frame);
        end_io(table, rt, seat, right, IoEnd::Bad);
        return Err(FetchError::Unsound);
    }
    install_page(table, seat, frame, tag, page);
    end_io(table, rt, seat, right, IoEnd::ReadOk);
    // A load with BM_VALID shows that the block was sound from the start.
    table.look(seat, frame);
    Ok(FetchedPage::Read)
}

/// Reads a block into the frame that is pinned for it, unless the page is there already
/// (`ReadBuffer_common`).
pub fn fetch_page<L: BlockLane, G: LogDevice, R: Wait>(
    table: &FrameTable<L, G>,
    rt: &R,
    seat: &mut Seat<Value<L, G>, View>,
    held: &HeldPins,
    frame: u32,
    tag: &Tag,
    page: &mut Page,
) -> Result<FetchedPage, FetchError>
    requires stands { Stands table.now seat.old }
    requires pinned { Pins (packed_tag tag.now) frame held.now seat.old.me.0 }
    requires inside { frame < frames_of table.now }
    requires tag { names_block tag.now ≡ true }
    requires block { has_block (relations_of table.now) tag.now ≡ true }
    ensures works { Works frame table.now seat.old seat.new }
    ensures pinned { Pins (packed_tag tag.now) frame held.now seat.new.me.0 }
    ensures seen { IfOk result (λ _. (link seat.new.me.0 frame).seen_valid ≡ true) }
    ensures calls { Made
        (fetch_calls (lane_number tag.now (lanes_in table.now)) (packed_tag tag.now) result)
        seat.old.me.0 seat.new.me.0 }
    ensures met { seat.new.me.0.met ≡ met_fetching result seat.old.me.0.met }
    ensures shows { FetchShows L.contents table.now tag.now result }
    ensures unread { IfErr result
        (λ why. EndsUnread why tag.now frame seat.old.me.0 seat.new.me.0) }
{
    if has(table.look(seat, frame), Flag::Valid) {
        return Ok(FetchedPage::Hit);
    }
    let Some(right) = start_io(table, rt, seat, frame, Direction::Input) else {
        // The page was read meanwhile. As above, a load shows that the block was sound from the
        // start.
        table.look(seat, frame);
        return Ok(FetchedPage::Hit);
    };
    read_in(table, rt, seat, held, right, *tag, page)
}
