//! A frame is written for the background writer or a checkpoint (`SyncOneBuffer`).
ghost use Rattle.std.specs.Prelude.{◌≡◌, ◌≢◌, ◌<◌, false, None};
ghost use Rattle.state_word.specs.Fields.{fields};
ghost use Rattle.pin_core.specs.declared.view.Content.TheVariants.{Unlocked};
ghost use Rattle.pin_core.specs.declared.view.Role.TheVariants.{Absent};
ghost use Rattle.pin_core.specs.State.{link};
ghost use Rattle.frame_table.specs.Seats.{HoldsNumber, IsWordOf, Looked, SameMarks, SameSeat};
ghost use Rattle.frame_table.specs.Seats.{Touches, frames_of, locked_link, unlocked_link};
ghost use Rattle.buffer_frames.specs.Rests.{HasAtMostLock, LinkRests, LinksRest};
ghost use Rattle.buffer_frames.specs.Rests.{LinksRestBeside, Stands};
ghost use Rattle.buffer_frames.specs.Tokens.{held_at};
ghost use Rattle.buffer_frames.specs.declared.syncing.SyncOnly.TheVariants.{Needed};
ghost use Rattle.buffer_frames.specs.Syncs.{ComesAtOnce, FlushesPinned, IsDirty};
ghost use Rattle.buffer_frames.specs.Syncs.{LeavesPinned, LooksUnderHeader, PinsUnder, SyncsOne};
ghost use Rattle.buffer_frames.specs.Syncs.{passes_over, synced_of};

use crate::flushing::{FlushedPage, FrameFlushError, flush_pinned};
use crate::pins::HeldPins;
use crate::tags::tag_shown;
use atomic_table::Seat;
use byte_devices::LogDevice;
use cleanup_lock::unpin_and_wake;
use frame_table::{FrameTable, Value};
use page_layout::Page;
use pin_core::View;
use segment_store::BlockLane;
use state_word::{Flag, has, pins, usage};
use std::sync::Wait;

/// Which frames are written.
#[derive(Clone, Copy, PartialEq, Eq, Debug)]
pub enum SyncOnly {
    /// Dirty ones that no backend pins and whose usage count is 0, as the background writer does.
    NotRecentlyUsed,
    /// Those with BM_CHECKPOINT_NEEDED, as a checkpoint does.
    Needed,
}

/// The result for a frame.
#[derive(Clone, Copy, PartialEq, Eq, Debug)]
pub enum Synced {
    /// Its state word said that it need not be written.
    Skipped,
    /// It was clean by the time that it was to be written.
    Clean,
    /// Its page was written.
    Written,
}

/// Whether a frame with this state word is passed over.
fn is_passed_over(word: u64, only: SyncOnly) -> bool
    ensures { result ≡ passes_over only (fields word) }
{
    match only {
        SyncOnly::NotRecentlyUsed => {
            !has(word, Flag::Valid) || !has(word, Flag::Dirty) || pins(word) > 0 || usage(word) > 0
        }
        SyncOnly::Needed => !has(word, Flag::CheckpointNeeded),
    }
}

/// What comes of a frame at once, by its state word: it is passed over, or isn't dirty. None if it
/// is to be written.
fn at_once(word: u64, only: SyncOnly) -> Option<Synced>
    ensures { ComesAtOnce only (fields word) result }
{
    if is_passed_over(word, only) {
        return Some(Synced::Skipped);
    }
    if has(word, Flag::Dirty) {
        None
    } else {
        Some(Synced::Clean)
    }
}

/// Locks the header of a frame, and looks at its state word under it.
/// The first look is under the header, as in `SyncOneBuffer`: a load while another backend has the
/// header shows a locked word, and decides nothing.
fn look_under<L: BlockLane, G: LogDevice, R: Wait>(
    table: &FrameTable<L, G>,
    rt: &R,
    seat: &mut Seat<Value<L, G>, View>,
    _held: &HeldPins,
    frame: u32,
) -> u64
    requires stands { Stands table.now seat.old }
    requires rests { LinksRest _held.now seat.old.me.0 }
    requires inside { frame < frames_of table.now }
    ensures seat { SameSeat seat.old seat.new }
    ensures touches { Touches frame seat.old.me.0 seat.new.me.0 }
    ensures marks { SameMarks seat.old.me.0 seat.new.me.0 }
    ensures locked { Looked (locked_link result (link seat.old.me.0 frame))
        (link seat.new.me.0 frame) }
    ensures word { IsWordOf (link seat.old.me.0 frame) (fields result) }
    ensures looks { LooksUnderHeader frame result seat.old.me.0 seat.new.me.0 }
    ensures not_left_to_write { (fields result).checkpoint_needed ≡ false
        → (link seat.new.me.0 frame).left_to_write ≡ false }
{
    table.lock_header(rt, seat, frame);
    // To lock a header is no load: this one is what the frame is passed over for, or written.
    table.look(seat, frame)
}

/// The result for a frame, by that of its flush.
fn synced_by(flushed: Result<FlushedPage, FrameFlushError>) -> Result<Synced, FrameFlushError>
    ensures { result ≡ synced_of flushed }
{
    match flushed {
        Ok(FlushedPage::Written) => Ok(Synced::Written),
        Ok(FlushedPage::Clean) => Ok(Synced::Clean),
        Err(why) => Err(why),
    }
}

/// Writes a frame that the backend pins, if it is dirty.
fn flush_seen<L: BlockLane, G: LogDevice, R: Wait>(
    table: &FrameTable<L, G>,
    rt: &R,
    seat: &mut Seat<Value<L, G>, View>,
    held: &HeldPins,
    frame: u32,
    page: &mut Page,
) -> Result<Synced, FrameFlushError>
    requires stands { Stands table.now seat.old }
    requires others { LinksRestBeside frame held.now seat.old.me.0 }
    requires inside { frame < frames_of table.now }
    requires calm { HasAtMostLock (link seat.old.me.0 frame) }
    requires unlocked { (link seat.old.me.0 frame).content ≡ Unlocked }
    requires pinned { (link seat.old.me.0 frame).role ≢ Absent }
    ensures seat { SameSeat seat.old seat.new }
    ensures stands { Stands table.now seat.new }
    ensures left { LeavesPinned (link seat.old.me.0 frame) (link seat.new.me.0 frame) }
    ensures flushes { FlushesPinned L.contents table.now frame seat.old.me.0 seat.new.me.0 result }
{
    if !has(table.look(seat, frame), Flag::Dirty) {
        return Ok(Synced::Clean);
    }
    let tag = tag_shown(table, seat, frame);
    let flushed = flush_pinned(table, rt, seat, held, frame, tag, page);
    synced_by(flushed)
}

/// Pins a frame whose header is held, and unlocks that, writes the frame if it is still dirty, and
/// gives the pin up.
fn flush_anew<L: BlockLane, G: LogDevice, R: Wait>(
    table: &FrameTable<L, G>,
    rt: &R,
    seat: &mut Seat<Value<L, G>, View>,
    held: &HeldPins,
    frame: u32,
    word: u64,
    page: &mut Page,
) -> Result<Synced, FrameFlushError>
    requires stands { Stands table.now seat.old }
    requires others { LinksRestBeside frame held.now seat.old.me.0 }
    requires inside { frame < frames_of table.now }
    requires rests { LinkRests None (unlocked_link (link seat.old.me.0 frame)) }
    requires new { held_at held.now frame ≡ None }
    requires header { HoldsNumber IsDirty word (link seat.old.me.0 frame) }
    ensures seat { SameSeat seat.old seat.new }
    ensures stands { Stands table.now seat.new }
    ensures rests { LinksRest held.now seat.new.me.0 }
    ensures pins { PinsUnder frame word seat.old.me.0 seat.new.me.0 }
    ensures flushes { FlushesPinned L.contents table.now frame seat.old.me.0 seat.new.me.0 result }
{
    let pin = table.victim_pin(seat, frame, word);
    let answer = flush_seen(table, rt, seat, held, frame, page);
    unpin_and_wake(table, rt, seat, pin);
    answer
}

/// Writes a frame whose header is held, if it is still dirty once that is unlocked. The backend
/// pins it for that unless callers have tokens of it.
fn flush_under<L: BlockLane, G: LogDevice, R: Wait>(
    table: &FrameTable<L, G>,
    rt: &R,
    seat: &mut Seat<Value<L, G>, View>,
    held: &HeldPins,
    frame: u32,
    word: u64,
    page: &mut Page,
) -> Result<Synced, FrameFlushError>
    requires stands { Stands table.now seat.old }
    requires others { LinksRestBeside frame held.now seat.old.me.0 }
    requires inside { frame < frames_of table.now }
    requires rests { LinkRests (held_at held.now frame) (unlocked_link (link seat.old.me.0 frame)) }
    requires header { HoldsNumber IsDirty word (link seat.old.me.0 frame) }
    requires unlocked { (link seat.old.me.0 frame).content ≡ Unlocked }
    ensures seat { SameSeat seat.old seat.new }
    ensures stands { Stands table.now seat.new }
    ensures rests { LinksRest held.now seat.new.me.0 }
    ensures unlocked { (link seat.new.me.0 frame).content ≡ Unlocked }
    ensures pins { PinsUnder frame word seat.old.me.0 seat.new.me.0 }
    ensures flushes { FlushesPinned L.contents table.now frame seat.old.me.0 seat.new.me.0 result }
{
    if held.holds(frame) {
        table.unlock_header(seat, frame);
        return flush_seen(table, rt, seat, held, frame, page);
    }
    flush_anew(table, rt, seat, held, frame, word, page)
}

/// Looks at a frame's state word under its header, and by that writes the frame or passes it over.
/// The frame is pinned for the write, its usage count unchanged.
pub fn sync_one<L: BlockLane, G: LogDevice, R: Wait>(
    table: &FrameTable<L, G>,
    rt: &R,
    seat: &mut Seat<Value<L, G>, View>,
    held: &HeldPins,
    frame: u32,
    only: SyncOnly,
    page: &mut Page,
) -> Result<Synced, FrameFlushError>
    requires stands { Stands table.now seat.old }
    requires rests { LinksRest held.now seat.old.me.0 }
    requires inside { frame < frames_of table.now }
    requires unlocked { only ≡ Needed → (link seat.old.me.0 frame).content ≡ Unlocked }
    ensures seat { SameSeat seat.old seat.new }
    ensures stands { Stands table.now seat.new }
    ensures rests { LinksRest held.now seat.new.me.0 }
    ensures one { SyncsOne L.contents table.now only frame seat.old.me.0 seat.new.me.0 result }
{
    let word = look_under(table, rt, seat, held, frame);
    if let Some(synced) = at_once(word, only) {
        table.unlock_header(seat, frame);
        return Ok(synced);
    }
    flush_under(table, rt, seat, held, frame, word, page)
}
