//! The hint of a block is tried.
//!
//! A frame that the backend pins isn't tried: a backend counts once in the reference count, so it
//! can't pin the frame again. Such a frame has another block, since the backend's pins were
//! searched for this one before.
ghost use Rattle.std.specs.Prelude.{◌≡◌, ◌<◌, None, IfErr, IfOk, MatchResult};
ghost use Rattle.block_tag.specs.Names.{packed_tag};
ghost use Rattle.frame_table.specs.Seats.{Touches, frames_of};
ghost use Rattle.cleanup_lock.specs.Waking.{Woken};
ghost use Rattle.buffer_frames.specs.Rests.{HasNoLatch, LinksRest, Stands};
ghost use Rattle.buffer_frames.specs.Tokens.{held_at};
ghost use Rattle.buffer_frames.specs.Hinting.{HasByHint, PinsHinted, SeesHint, SeesOther};
ghost use Rattle.buffer_frames.specs.Hinting.{refused_hint};
ghost use Rattle.buffer_frames.specs.Keeps.{IsReady, Keeps};
ghost use Rattle.buffer_frames.specs.Outside.{outside_of};
ghost use Rattle.buffer_frames.specs.Stages.{Pins};

use crate::pins::HeldPins;
use atomic_table::Seat;
use block_tag::Tag;
use byte_devices::LogDevice;
use cleanup_lock::unpin_and_wake;
use frame_table::{FrameTable, Pin, TryPin, Value};
use map_partitions::load_hint;
use pin_core::View;
use segment_store::BlockLane;
use std::sync::Wait;

/// What a look-up saw of the block's hint.
#[derive(Clone, Copy, PartialEq, Eq, Debug)]
pub enum HintSeen {
    /// It was not loaded.
    Unused,
    /// It named no frame.
    Nothing,
    /// It named a frame that this backend had pinned, for another block.
    Own { frame: u32 },
    /// It named a frame whose header was locked, and this was the state word.
    Locked { word: u64 },
    /// It named a frame without a tag, and this was the state word.
    Untagged { word: u64 },
    /// It named a frame whose state word changed as the frame was to be pinned.
    Changed { was: u64, now: u64 },
    /// It named the frame of another block, this one.
    Other { tag: Tag },
    /// It named the block's frame.
    Had { frame: u32 },
}

/// What a backend keeps of its look-ups.
#[derive(Clone, Copy, PartialEq, Eq, Debug)]
pub struct Sought {
    /// How many latches of partitions it has taken. The count stands still at its type's last
    /// value.
    pub turns: u64,
    /// What the last look-up saw of the block's hint.
    pub hint: HintSeen,
}

/// Gives up the pin of a block whose page didn't come, or whose frame a hint named for another one.
pub(crate) fn give_back<L: BlockLane, G: LogDevice, R: Wait>(
    table: &FrameTable<L, G>,
    rt: &R,
    seat: &mut Seat<Value<L, G>, View>,
    _held: &HeldPins,
    pin: Pin,
    _tag: Tag,
)
    requires stands { Stands table.now seat.old }
    requires latches { HasNoLatch seat.old.me.0 }
    requires pinned { Pins (packed_tag _tag) pin.frame _held.now seat.old.me.0 }
    requires inside { pin.frame < frames_of table.now }
    ensures keeps { Keeps outside_of None table.now seat.old seat.new }
    ensures touches { Touches pin.frame seat.old.me.0 seat.new.me.0 }
    ensures rests { LinksRest _held.now seat.new.me.0 }
    ensures did { Woken pin.frame seat.old.me.0 seat.new.me.0 }
{
    unpin_and_wake(table, rt, seat, pin);
}

/// What a look-up saw of a hint whose frame was not pinned.
fn refused_hint(why: TryPin) -> HintSeen
    ensures { result ≡ refused_hint why }
{
    match why {
        TryPin::Locked { word } => HintSeen::Locked { word },
        TryPin::Untagged { word } => HintSeen::Untagged { word },
        TryPin::Changed { was, now } => HintSeen::Changed { was, now },
    }
}

/// Pins the frame that a hint names, and that callers hold no pin of, if it has the block.
fn try_hinted<L: BlockLane, G: LogDevice, R: Wait>(
    table: &FrameTable<L, G>,
    rt: &R,
    seat: &mut Seat<Value<L, G>, View>,
    held: &HeldPins,
    tag: &Tag,
    frame: u32,
    ring: bool,
) -> Result<Pin, HintSeen>
    requires ready { IsReady table.now held.now seat.old }
    requires inside { frame < frames_of table.now }
    requires new { held_at held.now frame ≡ None }
    ensures keeps { Keeps outside_of None table.now seat.old seat.new }
    ensures frame { IfOk result (λ p. p.frame ≡ frame) }
    ensures pinned { IfOk result (λ p. Pins (packed_tag tag.now) p.frame held.now seat.new.me.0) }
    ensures rests { IfErr result (λ _. LinksRest held.now seat.new.me.0) }
    ensures did { MatchResult result
        (λ p. PinsHinted tag.now p.frame ring seat.old.me.0 seat.new.me.0)
        (SeesOther tag.now frame ring seat.old.me.0 seat.new.me.0) }
{
    let pin = match table.try_pin(seat, frame, ring) {
        Ok(pin) => pin,
        Err(why) => return Err(refused_hint(why)),
    };
    let Some(other) = table.load_tag(seat, frame) else {
        unreachable!()
    };
    if other == *tag {
        return Ok(pin);
    }
    give_back(table, rt, seat, held, pin, other);
    Err(HintSeen::Other { tag: other })
}

/// Pins the frame that the hint of a block names, without a latch, if it has the block. Callers
/// have no pin of the block.
pub(crate) fn try_hint<L: BlockLane, G: LogDevice, R: Wait>(
    table: &FrameTable<L, G>,
    rt: &R,
    seat: &mut Seat<Value<L, G>, View>,
    held: &HeldPins,
    tag: &Tag,
    ring: bool,
) -> Result<Pin, HintSeen>
    requires ready { IsReady table.now held.now seat.old }
    ensures keeps { Keeps outside_of None table.now seat.old seat.new }
    ensures inside { IfOk result (λ p. p.frame < frames_of table.now) }
    ensures pinned { IfOk result (λ p. Pins (packed_tag tag.now) p.frame held.now seat.new.me.0) }
    ensures rests { IfErr result (λ _. LinksRest held.now seat.new.me.0) }
    ensures did { MatchResult result
        (λ p. HasByHint (frames_of table.now) tag.now p.frame ring seat.old.me.0 seat.new.me.0)
        (SeesHint (frames_of table.now) tag.now held.now ring seat.old.me.0 seat.new.me.0) }
{
    let Some(frame) = load_hint(table, seat, tag) else {
        return Err(HintSeen::Nothing);
    };
    if held.holds(frame) {
        return Err(HintSeen::Own { frame });
    }
    try_hinted(table, rt, seat, held, tag, frame, ring)
}
