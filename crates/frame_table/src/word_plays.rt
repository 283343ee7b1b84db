//! What a step at a word after those of the frames tells its seat.
ghost use Rattle.std.specs.Prelude.{ℕ, List, [], Option};
ghost use Rattle.block_tag.specs.declared.catalogue.RelEntry.{RelEntry};
ghost use Rattle.segment_store.specs.Contents.{Pages};
ghost use Rattle.frame_table.specs.declared.log_words.EndLoad.{EndLoad};
ghost use Rattle.frame_table.specs.declared.log_words.EndLoad.TheVariants.{Plain};
ghost use Rattle.frame_table.specs.EndLoads.{tells_end_load};
ghost use Rattle.frame_table.specs.WordSteps.{WordKind, tells_counter, tells_hint, tells_redo};
ghost use Rattle.frame_table.specs.WordSteps.{tells_word, load_flushed, raise_flushed, raise_redo};
ghost use Rattle.frame_table.specs.WordSteps.{load_hand, add_hand};

use atomic_table::Play;
use pin_core::View;
use std::marker::{Brand, PhantomData};
use table_rule::Value;

/// Which kind a step at such a word is.
pub(crate) trait StepsAt {
    ghost kind: { WordKind };
}

// Each call picks the kind.
impl StepsAt for Brand {
    ghost kind = { load_hand };
}

pub(crate) struct StepAt<D> {
    kind: PhantomData<D>,
}

impl<L, G, D: StepsAt> Play<Value<L, G>, View> for StepAt<D> {
    ghost then = { tells_word D.kind };
}

/// What the log's end is loaded for, how many frames there are, where the log begins, the
/// relations, how many lanes there are, and what they held as the table was opened. Each call picks
/// it.
pub(crate) trait AtEndLoad {
    ghost what: { EndLoad };

    ghost frames: { ℕ };

    ghost base: { ℕ };

    ghost relations: { List RelEntry };

    ghost lanes: { ℕ };

    ghost held: { List (Option Pages) };
}

impl AtEndLoad for Brand {
    ghost what = { Plain };

    ghost frames = { 0 };

    ghost base = { 0 };

    ghost relations = { [] };

    ghost lanes = { 0 };

    ghost held = { [] };
}

pub(crate) struct LoadEnd<D> {
    what: PhantomData<D>,
}

impl<L, G, D: AtEndLoad> Play<Value<L, G>, View> for LoadEnd<D> {
    ghost then = { tells_end_load D.what D.frames D.base D.relations D.lanes D.held };
}

pub(crate) struct LoadFlushed;

impl StepsAt for LoadFlushed {
    ghost kind = { load_flushed };
}

pub(crate) struct RaiseFlushed;

impl StepsAt for RaiseFlushed {
    ghost kind = { raise_flushed };
}

pub(crate) struct RaiseRedo;

impl StepsAt for RaiseRedo {
    ghost kind = { raise_redo };
}

pub(crate) struct LoadHand;

impl StepsAt for LoadHand {
    ghost kind = { load_hand };
}

pub(crate) struct AddHand;

impl StepsAt for AddHand {
    ghost kind = { add_hand };
}

/// Where the log begins. Each call picks it.
pub(crate) trait AtRedo {
    ghost base: { ℕ };
}

impl AtRedo for Brand {
    ghost base = { 0 };
}

pub(crate) struct LoadRedo<D> {
    redo: PhantomData<D>,
}

impl<L, G, D: AtRedo> Play<Value<L, G>, View> for LoadRedo<D> {
    ghost then = { tells_redo D.base };
}

/// The number of a counter. Each call picks it.
pub(crate) trait AtCounter {
    ghost number: { ℕ };
}

impl AtCounter for Brand {
    ghost number = { 0 };
}

pub(crate) struct LoadCounter<D> {
    counter: PhantomData<D>,
}

impl<L, G, D: AtCounter> Play<Value<L, G>, View> for LoadCounter<D> {
    ghost then = { tells_counter D.number };
}

/// How many frames there are, and the number of the hint word. Each call picks it.
pub(crate) trait AtHint {
    ghost frames: { ℕ };

    ghost number: { ℕ };
}

impl AtHint for Brand {
    ghost frames = { 0 };

    ghost number = { 0 };
}

pub(crate) struct LoadHint<D> {
    hint: PhantomData<D>,
}

impl<L, G, D: AtHint> Play<Value<L, G>, View> for LoadHint<D> {
    ghost then = { tells_hint D.frames D.number };
}
