//! The table.
ghost use Rattle.std.specs.Prelude.{◌≡◌, ◌≢◌, ◌≤◌, Bool, length};
ghost use Rattle.state_word.specs.Fields.{dirtied_fields, io_ended_fields, pinned_fields, unlocked_fields, usage_down_fields};
ghost use Rattle.state_word.specs.declared.word.IoEnd.{IoEnd};
ghost use Rattle.pin_core.specs.Kinds as pin_kinds;
ghost use Rattle.page_core.specs.Kinds as page_kinds;
ghost use Rattle.table_rule.specs.Layout as layout;
ghost use Rattle.table_rule.specs.Shows.{devices};
ghost use Rattle.frame_table.specs.Kinds as kinds;
ghost use Rattle.frame_table.specs.Kinds.{FrameKind, pages, part_of, pins};
ghost use Rattle.frame_table.specs.Stores.{CounterMustRise, FlushedMustRise, HandMustMove};
ghost use Rattle.frame_table.specs.Stores.{HintMustBeStored, Makes, MustStore, RedoMustRise};

use atomic_table::Table;
use block_tag::Catalog;
use byte_devices::LogDevice;
use pin_core::View;
use segment_store::BlockLane;
use std::alloc::Global;
use table_rule::{Config, Opening, Rule, Value};

/// The table that the backends share. Each has a seat of it.
pub struct FrameTable<L: BlockLane, G: LogDevice> {
    pub(crate) table: Table<Value<L, G>, View, Opening<L, G>, Rule, Global>,
    pub(crate) config: Config,
    pub(crate) catalog: Catalog,
    ghost known: { config ≡ table.shared.key.config },
    ghost relations: { catalog ≡ table.shared.key.catalog.value },
    ghost counted: { length table.shared.key.lanes.value.items ≡ table.shared.key.config.lanes },
    ghost some: { 1 ≤ table.shared.key.config.lanes },
    ghost few: { table.shared.key.config.lanes ≤ 16 },
    ghost framed: { (1 ≤ table.shared.key.config.frames)
        × (table.shared.key.config.frames ≤ 4096) },
    ghost wide: { (table.shared.table_id.words ≡ layout.word_count table.shared.key.config.frames)
        × (table.shared.table_id.slots ≡ layout.slot_count table.shared.key.config.frames) },
}

impl<L: BlockLane, G: LogDevice> FrameTable<L, G> {
    /// How many frames it has.
    pub fn frames(&self) -> u32
        ensures { result ≡ self.now.table.shared.key.config.frames }
    {
        self.config.frames
    }

    /// The relations whose blocks it holds.
    pub fn catalog(&self) -> &Catalog
        ensures { result.now ≡ self.now.table.shared.key.catalog.value }
    {
        &self.catalog
    }

    /// What each call at a state word has to store, whatever the table is at that moment: whoever
    /// keeps the table's rule and tells of a step stores the word that the step makes of the word
    /// found. The same holds of the clock's hand, the flushed and the redo position, the counters
    /// and the hint words.
    pub fn words_must_be_stored(&self)
        ensures each { (k : FrameKind) → part_of k ≡ kinds.state_word
            → k ≢ pins pin_kinds.load_state → MustStore (devices L.BlockLane G.LogDevice)
            self.now.table.shared.key k (Makes k) }
        ensures pin { (ring : Bool) → MustStore (devices L.BlockLane G.LogDevice)
            self.now.table.shared.key (pins (pin_kinds.pin ring)) (λ f found left.
            left ≡ pinned_fields ring found) }
        ensures lowered { MustStore (devices L.BlockLane G.LogDevice) self.now.table.shared.key
            (pins pin_kinds.lower_usage) (λ f found left.
            left ≡ unlocked_fields (usage_down_fields found)) }
        ensures ended { (end : IoEnd) → MustStore (devices L.BlockLane G.LogDevice)
            self.now.table.shared.key (pages (page_kinds.end_io end)) (λ f found left.
            left ≡ unlocked_fields (io_ended_fields end found)) }
        ensures dirtied { MustStore (devices L.BlockLane G.LogDevice) self.now.table.shared.key
            (pages page_kinds.mark_dirty) (λ f found left. left ≡ dirtied_fields found) }
        ensures hand { HandMustMove (devices L.BlockLane G.LogDevice) self.now.table.shared.key }
        ensures flushed { FlushedMustRise (devices L.BlockLane G.LogDevice)
            self.now.table.shared.key }
        ensures redo { RedoMustRise (devices L.BlockLane G.LogDevice) self.now.table.shared.key }
        ensures counters { CounterMustRise (devices L.BlockLane G.LogDevice)
            self.now.table.shared.key }
        ensures hints { HintMustBeStored (devices L.BlockLane G.LogDevice)
            self.now.table.shared.key }
    {}
}

/// There was no memory. The devices come back.
pub struct BuildRefused<L, G> {
    pub lanes: Vec<L>,
    pub log: G,
}
