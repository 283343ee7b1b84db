//! A buffer manager of the blocks of one relation's fork.
ghost use Rattle.std.specs.Prelude.{◌≡◌, ◌≤◌, ◌+◌, ◌%◌, [], ◌∷◌, All, IfErr, IfOk, length};
ghost use Rattle.std.specs.Prelude.{map};
ghost use Rattle.segment_store.specs.Contents.{no_marks};
ghost use Rattle.segment_store.specs.Lanes.{HasBlocks};
ghost use Rattle.table_rule.specs.Shows.{IsNewLog, devices};
ghost use Rattle.command_line.specs.Numbers.{HasOptionsInRange};
ghost use Rattle.frame_table.specs.Seats.{frames_of, opened_of};
ghost use Rattle.history_core.specs.Log.{head_bytes};
ghost use Rattle.history_core.specs.State.{last_position};
ghost use Rattle.page_jobs.specs.Relations.{IsCatalogOf};
ghost use Rattle.relation_commands.specs.Starting.{IsStarted, log_of, relation_entry};

use backend_pass::{Config, Manager, Pass, StartRefused};
use block_tag::{Catalog, Fork, RelEntry};
use byte_devices::{LogDevice, LogPlan, MemLog};
use command_line::Options;
use log_recovery::HEAD_SIZE;
use page_layout::Lsn;
use segment_store::BlockLane;
use std::alloc::{AllocError, Global};
use table_rule::RECORD_SIZE;
use wal_flush::begin_log;

/// A fork of a relation: the relation's number, and how many blocks the fork has.
#[derive(Clone, Copy)]
pub(crate) struct RelationFork {
    pub(crate) number: u32,
    pub(crate) fork: Fork,
    pub(crate) blocks: u32,
}

impl RelationFork {
    /// The relation in the catalogue of a manager of its own: no other fork of it has blocks.
    fn entry(self) -> RelEntry
        ensures { result ≡ relation_entry self }
    {
        let mut blocks = [0; 4];
        blocks[self.fork.number() as usize] = self.blocks;
        RelEntry {
            tablespace: 0,
            database: 0,
            relation: self.number,
            blocks,
        }
    }

    /// A catalogue of this relation alone.
    pub(crate) fn catalog(self, alloc: Global) -> Result<Catalog, AllocError>
        ensures entries { IfOk result (λ catalog. catalog ≡ relation_entry self ∷ []) }
        ensures catalog { IfOk result (IsCatalogOf self.fork self.blocks) }
    {
        Catalog::build(alloc, &[self.entry()]).map_err(|_| AllocError)
    }
}

/// A log in memory that begins at `base`, with room for this many records.
pub(crate) fn new_log(alloc: Global, base: Lsn, records: u32) -> Result<MemLog, AllocError>
    ensures bytes { IfOk result (λ log. log.sink.bytes ≡ head_bytes base) }
    ensures synced { IfOk result (λ log. log.synced ≡ 0) }
    ensures faults { IfOk result (λ log. log.faults.count ≡ 0) }
{
    let room = HEAD_SIZE + RECORD_SIZE as usize * records as usize;
    let mut log = MemLog::new(alloc, room, LogPlan::none(alloc))?;
    match begin_log(&mut log, base) {
        Ok(()) => Ok(log),
        Err(_) => Err(AllocError),
    }
}

/// Starts a manager of the relation, with a pass for each backend and one besides. Out of memory,
/// the devices come back.
pub(crate) fn start<L: BlockLane + Send, G: LogDevice>(
    alloc: Global,
    options: &Options,
    relation: RelationFork,
    lanes: Vec<L>,
    log: G,
    base: Lsn,
) -> Result<(Manager<L, G>, Vec<Pass>), (Vec<L>, G)>
    requires range { HasOptionsInRange options.now }
    requires count { length lanes.items ≡ options.now.lanes }
    requires unmarked { All (λ lane. L.failed_writes lane ≡ no_marks) lanes.items }
    requires has { HasBlocks relation.fork relation.blocks (map L.contents lanes.items) }
    requires base { (base % 8 ≡ 0) × (base ≤ last_position) }
    requires log { IsNewLog (devices L.BlockLane G.LogDevice) base log }
    ensures started { IfOk result (λ m. IsStarted L.contents relation base m.0 m.1.items) }
    ensures opened { IfOk result (λ m. (opened_of m.0.table ≡ lanes.items) × (log_of m.0 ≡ log)) }
    // It has the frames that the options say, and a pass for each of their backends and one more.
    ensures sized { IfOk result (λ m. (frames_of m.0.table ≡ options.now.frames)
        × (length m.1.items ≡ options.now.backends + 1)) }
    ensures back { IfErr result (λ back. (back.0.items ≡ lanes.items) × (back.1 ≡ log)) }
{
    let Ok(catalog) = relation.catalog(alloc) else {
        return Err((lanes, log));
    };
    let config = Config {
        frames: options.frames,
        passes: options.backends + 1,
        lanes: options.lanes,
    };
    match Manager::start(alloc, config, catalog, lanes, log, base) {
        Ok(started) => Ok(started),
        Err(StartRefused { why: _, lanes, log }) => Err((lanes, log)),
    }
}
