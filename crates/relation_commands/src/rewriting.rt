//! The blocks of a relation that is open are rewritten by the backends of a buffer manager.
ghost use Rattle.std.specs.Prelude.{◌≡◌, ◌≤◌, ◌<◌, ◌*◌, ◌+◌, ◌-◌, ◌%◌, All, IfErr, OnOk};
ghost use Rattle.std.specs.Prelude.{length, map, sum_by, vec_len};
ghost use mathlib.Core.Option.{some};
ghost use lib.ListN.{get_elem?};
ghost use Rattle.segment_store.specs.Contents.{no_marks};
ghost use Rattle.segment_store.specs.Lanes.{HasBlocks};
ghost use Rattle.history_core.specs.Log.{record_size};
ghost use Rattle.history_core.specs.State.{last_position};
ghost use Rattle.table_rule.specs.Shows.{IsNewLog, devices};
ghost use Rattle.command_line.specs.Numbers.{HasOptionsInRange};
ghost use Rattle.frame_table.specs.Seats.{base_of, lanes_in, opened_of};
ghost use Rattle.backend_pass.specs.Closing.{EachPass};
ghost use Rattle.backend_pass.specs.Managers.{Belongs};
ghost use Rattle.backend_pass.specs.Passes.{KeepsCallers, PassState};
ghost use Rattle.backend_pass.specs.Between.{HasNoLock};
ghost use Rattle.page_jobs.specs.Jobs.{HaveNoTokens};
ghost use Rattle.relation_commands.specs.Checkpointing.{ChecksByLast, LastMeets, PassMeets};
ghost use Rattle.relation_commands.specs.Checkpointing.{StoresAll, StoresRewrite, SweepsPast};
ghost use Rattle.relation_commands.specs.Rewriting.{HasRewriteCause, LeavesRewritten};
ghost use Rattle.relation_commands.specs.Rewriting.{checkpoint_error, rewrite_totals_in};
ghost use Rattle.relation_commands.specs.Starting.{IsStarted, log_of};

use crate::beside::Rounds;
use crate::limits::PositionLimit;
use crate::starting::{RelationFork, start};
use backend_pass::{Manager, Pass};
use block_tag::RelNo;
use byte_devices::LogDevice;
use checkpointer::{CheckpointError, checkpoint};
use command_line::Options;
use page_jobs::{Gate, JobEnd, JobError, Totals, rewrite, rewrite_closes};
use page_layout::{Lsn, RewriteTotals, all_positions};
use segment_store::BlockLane;
use std::alloc::Global;
use std::sync::Wait;
use std::thread::Threads;

/// Why a rewrite ended before its end.
#[derive(Clone, Copy, PartialEq, Eq, Debug)]
pub enum RewriteError {
    ReadFault,
    WriteFault,
    LogFault,
    OutFault,
    Memory,
    /// The log could pass its last position.
    OverLimit(PositionLimit),
}

impl From<JobError> for RewriteError {
    ghost use Rattle.std.specs.Prelude.{◌≡◌};
    ghost use Rattle.relation_commands.specs.Rewriting.{rewrite_error};

    ghost from_gives = { λ error why. why ≡ rewrite_error error };

    fn from(error: JobError) -> RewriteError {
        match error {
            JobError::ReadFault { .. } => RewriteError::ReadFault,
            JobError::WriteFault { .. } => RewriteError::WriteFault,
            JobError::LogFault | JobError::LogDown { .. } => RewriteError::LogFault,
            JobError::LogShort { lsn, end } => {
                RewriteError::OverLimit(PositionLimit::OfPage { lsn, end })
            }
            JobError::LogFull { end } => RewriteError::OverLimit(PositionLimit::OfLog { end }),
            JobError::OutFault => RewriteError::OutFault,
            JobError::Memory => RewriteError::Memory,
        }
    }
}

impl From<CheckpointError> for RewriteError {
    ghost use Rattle.std.specs.Prelude.{◌≡◌};
    ghost use Rattle.relation_commands.specs.Rewriting.{checkpoint_error};

    ghost from_gives = { λ error why. why ≡ checkpoint_error error };

    fn from(error: CheckpointError) -> RewriteError {
        match error {
            CheckpointError::WriteFault { .. } | CheckpointError::SyncFault { .. } => {
                RewriteError::WriteFault
            }
            CheckpointError::LogFault | CheckpointError::LogDown { .. } => RewriteError::LogFault,
            CheckpointError::LogShort { lsn, end } => {
                RewriteError::OverLimit(PositionLimit::OfPage { lsn, end })
            }
        }
    }
}

/// The totals of a rewrite among those of a job.
fn rewrite_totals(totals: Totals) -> RewriteTotals
    ensures { result ≡ rewrite_totals_in totals }
{
    RewriteTotals {
        blocks: totals.blocks,
        changed: totals.changed,
        same: totals.same,
        skipped: totals.skipped,
        new: totals.new,
        invalid: totals.invalid,
        dead: totals.dead,
    }
}

/// How a rewrite ended, with the lanes and the log that it was given.
#[derive(Drop)]
pub(crate) struct RewriteEnd<L, G> {
    pub(crate) lanes: Vec<L>,
    pub(crate) log: G,
    pub(crate) end: Result<RewriteTotals, RewriteError>,
}

/// The largest of the fronts of passes.
fn furthest_front(passes: &[Pass]) -> Lsn
    ensures { EachPass (λ p. p.view.front ≤ result) passes.now }
{
    let mut furthest = 0;
    for pass in passes {
        furthest = furthest.max(pass.front());
    }
    furthest
}

/// Makes checkpoints until one begins at a position in the log, or past it. The first one does,
/// unless it begins below a pass's front.
fn checkpoint_past<L: BlockLane, G: LogDevice, R: Wait>(
    manager: &Manager<L, G>,
    rt: &R,
    pass: &mut Pass,
    front: Lsn,
) -> Result<(), CheckpointError>
    requires belongs { Belongs L.contents manager.now pass.old }
    requires unlocked { HasNoLock pass.old }
    ensures belongs { Belongs L.contents manager.now pass.new }
    ensures callers { KeepsCallers pass.old pass.new }
    ensures swept { OnOk result (SweepsPast (lanes_in manager.now.table) front pass.new.view) }
    ensures met { OnOk result (pass.new.view.met ≡ pass.old.view.met) }
    ensures cause { IfErr result
        (λ why. PassMeets L.contents manager.now.table pass.old.view pass.new.view
        (checkpoint_error why)) }
{
    for _ in rt.forever() {
        match checkpoint(manager, rt, pass) {
            Ok(done) => {
                if done.upto >= front {
                    return Ok(());
                }
            }
            Err(why) => return Err(why),
        }
    }
    unreachable!()
}

/// Makes a checkpoint of all that the passes put, by the last of them, which worked beside the
/// others.
fn checkpoint_all<L: BlockLane, G: LogDevice, R: Wait>(
    manager: &Manager<L, G>,
    rt: &R,
    passes: &mut Vec<Pass>,
) -> Result<(), CheckpointError>
    requires some { 0 < vec_len passes.old }
    requires free { HaveNoTokens L.contents manager.now passes.old.items }
    requires unlocked { (last : PassState)
        → get_elem? passes.old.items (length passes.old.items - 1) ≡ some last → HasNoLock last }
    ensures passes { ChecksByLast L.contents manager.now passes.old.items passes.new.items }
    ensures swept { OnOk result
        (StoresAll (lanes_in manager.now.table) passes.old.items passes.new.items) }
    ensures cause { IfErr result
        (λ why. LastMeets L.contents manager.now.table passes.old.items passes.new.items
        (checkpoint_error why)) }
{
    let front = furthest_front(passes);
    let mut last = passes.take_last();
    let end = checkpoint_past(manager, rt, &mut last, front);
    passes.push_reserved(last);
    end
}

/// How a rewrite ended, with the passes that it was given.
struct StoredRewrite {
    passes: Vec<Pass>,
    end: Result<RewriteTotals, RewriteError>,
}

/// The backends rewrite the blocks, and what they put is stored by a checkpoint. After a fault
/// there is none.
fn rewrite_and_store<
    L: BlockLane + Send,
    G: LogDevice + Send,
    R: Threads + Wait + Sync,
    T: Gate + Sync,
>(
    manager: &Manager<L, G>,
    rt: &R,
    alloc: Global,
    passes: Vec<Pass>,
    relation: RelationFork,
    rounds: u32,
    gate: &T,
) -> StoredRewrite
    requires started { IsStarted L.contents relation (base_of manager.now.table)
        manager.now passes.items }
    ensures stores { StoresRewrite L.contents manager.now relation.fork rounds passes.items
        result.passes.items result.end }
{
    let fork = relation.fork;
    let mut beside = Rounds::new(rounds);
    let job = rewrite(
        manager,
        rt,
        alloc,
        passes,
        RelNo(0),
        fork,
        gate,
        &mut beside,
    );
    let JobEnd { mut passes, end } = job;
    let totals = match end {
        Ok(totals) => rewrite_totals(totals),
        Err(error) => {
            let end = Err(RewriteError::from(error));
            return StoredRewrite { passes, end };
        }
    };
    match checkpoint_all(manager, rt, &mut passes) {
        Ok(()) => StoredRewrite {
            passes,
            end: Ok(totals),
        },
        Err(error) => StoredRewrite {
            passes,
            end: Err(RewriteError::from(error)),
        },
    }
}

/// The backends rewrite the blocks, and the manager is closed, which returns its lanes and its log.
fn rewrite_and_close<
    L: BlockLane + Send,
    G: LogDevice + Send,
    R: Threads + Wait + Sync,
    T: Gate + Sync,
>(
    manager: Manager<L, G>,
    rt: &R,
    alloc: Global,
    passes: Vec<Pass>,
    relation: RelationFork,
    rounds: u32,
    gate: &T,
) -> RewriteEnd<L, G>
    requires started { IsStarted L.contents relation (base_of manager.table) manager passes.items }
    requires room { base_of manager.table + record_size * relation.blocks ≤ last_position }
    requires reads { sum_by L.read_faults (opened_of manager.table) ≡ 0 }
    requires writes { sum_by L.write_faults (opened_of manager.table) ≡ 0 }
    requires logs { G.faults (log_of manager) ≡ 0 }
    ensures count { length result.lanes.items ≡ length (opened_of manager.table) }
    ensures cause { HasRewriteCause (sum_by L.read_faults result.lanes.items)
        (sum_by L.write_faults result.lanes.items) (G.faults (log_of manager))
        (G.faults result.log) result.end }
    ensures leaves { LeavesRewritten L.contents L.failed_writes G.bytes G.synced L.write_faults
        G.faults relation (base_of manager.table) (opened_of manager.table) result.lanes.items
        result.log result.end }
{
    all_positions();
    rewrite_closes(&manager);
    let StoredRewrite { passes, end } = rewrite_and_store(
        &manager, rt, alloc, passes, relation, rounds, gate,
    );
    let (lanes, log) = manager.close(passes);
    RewriteEnd { lanes, log, end }
}

/// Rewrites the blocks of a relation over its lanes and a log that begins at `base`, by as many
/// backends as the options say, and returns the lanes and the log.
pub(crate) fn rewrite_lanes<
    L: BlockLane + Send,
    G: LogDevice + Send,
    R: Threads + Wait + Sync,
    T: Gate + Sync,
>(
    rt: &R,
    alloc: Global,
    options: &Options,
    relation: RelationFork,
    lanes: Vec<L>,
    log: G,
    base: Lsn,
    gate: &T,
) -> RewriteEnd<L, G>
    requires range { HasOptionsInRange options.now }
    requires count { length lanes.items ≡ options.now.lanes }
    requires reads { sum_by L.read_faults lanes.items ≡ 0 }
    requires writes { sum_by L.write_faults lanes.items ≡ 0 }
    requires unmarked { All (λ lane. L.failed_writes lane ≡ no_marks) lanes.items }
    requires has { HasBlocks relation.fork relation.blocks (map L.contents lanes.items) }
    requires base { (base % 8 ≡ 0) × (base + record_size * relation.blocks ≤ last_position) }
    requires log { IsNewLog (devices L.BlockLane G.LogDevice) base log }
    requires log_faults { G.faults log ≡ 0 }
    ensures count { length result.lanes.items ≡ length lanes.items }
    ensures cause { HasRewriteCause (sum_by L.read_faults result.lanes.items)
        (sum_by L.write_faults result.lanes.items) (G.faults log) (G.faults result.log) result.end }
    ensures leaves { LeavesRewritten L.contents L.failed_writes G.bytes G.synced L.write_faults
        G.faults relation base lanes.items result.lanes.items result.log result.end }
{
    match start(alloc, options, relation, lanes, log, base) {
        Ok((manager, passes)) => {
            let rounds = options.rounds;
            rewrite_and_close(manager, rt, alloc, passes, relation, rounds, gate)
        }
        Err((lanes, log)) => RewriteEnd {
            lanes,
            log,
            end: Err(RewriteError::Memory),
        },
    }
}
