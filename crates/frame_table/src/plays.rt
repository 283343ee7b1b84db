//! What each step tells its seat.
ghost use Rattle.std.specs.Prelude.{ℕ, List, [], Option};
ghost use Rattle.segment_store.specs.Contents.{Pages};
ghost use Rattle.frame_table.specs.Opened.{tells_look};
ghost use Rattle.block_tag.specs.declared.catalogue.RelEntry.{RelEntry};
ghost use Rattle.pin_core.specs.declared.view.MapEntry.{MapEntry};
ghost use Rattle.frame_table.specs.FrameSteps.{tells, tells_tag, Choice, always, if_found, if_unlocked, looking};
ghost use Rattle.frame_table.specs.Kinds.{pins};
ghost use Rattle.frame_table.specs.PageWork.{page_came, page_went};
ghost use Rattle.frame_table.specs.Latches.{left, map_came, map_went, took};
ghost use Rattle.table_rule.specs.declared.turn.Turn.{Turn};
ghost use Rattle.table_rule.specs.declared.turn.Turn.TheVariants.{Log};
ghost use Rattle.pin_core.specs.Kinds as pin;

use atomic_table::{Join, Play, Split};
use pin_core::View;
use std::marker::{Brand, PhantomData};
use table_rule::Value;

/// Which kind a step at a frame is.
pub(crate) trait Does {
    ghost choice: { Choice };
}

pub(crate) struct Step<D> {
    kind: PhantomData<D>,
}

impl<L, G, D: Does> Play<Value<L, G>, View> for Step<D> {
    ghost then = { tells D.choice };
}

// The call picks the kind.
impl Does for Brand {
    ghost choice = { always looking };
}

/// The frame whose state word is loaded, the relations, how many lanes there are, and what they
/// held as the table was opened. Each call picks it.
pub(crate) trait AtLook {
    ghost frame: { ℕ };

    ghost relations: { List RelEntry };

    ghost lanes: { ℕ };

    ghost held: { List (Option Pages) };
}

impl AtLook for Brand {
    ghost frame = { 0 };

    ghost relations = { [] };

    ghost lanes = { 0 };

    ghost held = { [] };
}

pub(crate) struct Look<D> {
    at: PhantomData<D>,
}

impl<L, G, D: AtLook> Play<Value<L, G>, View> for Look<D> {
    ghost then = { tells_look D.frame D.relations D.lanes D.held };
}

pub(crate) struct Unpin;

impl Does for Unpin {
    ghost choice = { if_found (pins pin.unpin) };
}

pub(crate) struct LockHeader;

impl Does for LockHeader {
    ghost choice = { if_unlocked (pins pin.lock_header) };
}

pub(crate) struct UnlockHeader;

impl Does for UnlockHeader {
    ghost choice = { always (pins pin.unlock_header) };
}

/// The relations of the table whose tag word is loaded. Each call picks them.
pub(crate) trait Related {
    ghost relations: { List RelEntry };
}

impl Related for Brand {
    ghost relations = { [] };
}

pub(crate) struct LoadTag<D> {
    relations: PhantomData<D>,
}

impl<L, G, D: Related> Play<Value<L, G>, View> for LoadTag<D> {
    ghost then = { tells_tag D.relations };
}

pub(crate) struct EraseTag;

impl Does for EraseTag {
    ghost choice = { always (pins pin.erase_tag) };
}

pub(crate) struct VictimPin;

impl Does for VictimPin {
    ghost choice = { always (pins pin.pin_victim) };
}

pub(crate) struct LowerUsage;

impl Does for LowerUsage {
    ghost choice = { always (pins pin.lower_usage) };
}

pub(crate) struct Assign;

impl Does for Assign {
    ghost choice = { always (pins pin.assign) };
}

pub(crate) struct Clear;

impl Does for Clear {
    ghost choice = { always (pins pin.clear) };
}

/// Which latch a step is at. Each call picks it.
pub(crate) trait AtTurn {
    ghost turn: { Turn };
}

impl AtTurn for Brand {
    ghost turn = { Log };
}

pub(crate) struct TakeTurn<D> {
    turn: PhantomData<D>,
}

impl<L, G, D: AtTurn> Play<Value<L, G>, View> for TakeTurn<D> {
    ghost then = { took D.turn };
}

pub(crate) struct LeaveTurn<D> {
    turn: PhantomData<D>,
}

impl<L, G, D: AtTurn> Play<Value<L, G>, View> for LeaveTurn<D> {
    ghost then = { left D.turn };
}

/// Which partition's map a step is at, of how many frames, the slot of the map, and its entries.
/// Each call picks it.
pub(crate) trait AtMap {
    ghost frames: { ℕ };

    ghost partition: { ℕ };

    ghost slot: { ℕ };

    ghost entries: { List MapEntry };
}

impl AtMap for Brand {
    ghost frames = { 0 };

    ghost partition = { 0 };

    ghost slot = { 0 };

    ghost entries = { [] };
}

pub(crate) struct MapOut<D> {
    partition: PhantomData<D>,
}

impl<L, G, D: AtMap> Play<Value<L, G>, View> for MapOut<D> {
    ghost then = { map_went D.frames D.partition D.slot };
}

pub(crate) struct MapBack<D> {
    partition: PhantomData<D>,
}

impl<L, G, D: AtMap> Play<Value<L, G>, View> for MapBack<D> {
    ghost then = { map_came D.partition D.entries };
}

/// Which frame's page a step is at, and its slot. Each call picks it.
pub(crate) trait AtPage {
    ghost frame: { ℕ };

    ghost slot: { ℕ };
}

impl AtPage for Brand {
    ghost frame = { 0 };

    ghost slot = { 0 };
}

pub(crate) struct PageOut<D> {
    frame: PhantomData<D>,
}

impl<L, G, D: AtPage> Play<Value<L, G>, View> for PageOut<D> {
    ghost then = { page_went D.frame D.slot };
}

pub(crate) struct PageBack<D> {
    frame: PhantomData<D>,
}

impl<L, G, D: AtPage> Play<Value<L, G>, View> for PageBack<D> {
    ghost then = { page_came D.frame };
}

/// What a call knows of the table beside its seat. Each call picks it.
pub(crate) trait Known {
    // Where the log begins.
    ghost base: { ℕ };
}

impl Known for Brand {
    ghost base = { 0 };
}

pub(crate) struct NewSeat<J> {
    known: PhantomData<J>,
}

impl<J: Known> Split<View> for NewSeat<J> {
    ghost use Rattle.frame_table.specs.FrameSteps.{kept_view, split_view};

    ghost left = { kept_view };

    ghost right = { split_view J.base };
}

pub(crate) struct Joined;

impl Join<View> for Joined {
    ghost use Rattle.pin_core.specs.State.{emptied_view, joined_view};

    ghost both = { joined_view };

    ghost spent = { emptied_view };
}
