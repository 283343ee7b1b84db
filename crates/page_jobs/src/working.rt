//! The workers of a job, whatever it does with its blocks.
//!
//! `run_job` deals the passes, starts a thread for each worker, has the last pass work beside them,
//! and waits for all. What is done with a block is the task's (`BlockTask`), split off the job's
//! own task and merged back (`JobTask`). `WorksChunks` says once, for any task, that chunks were
//! claimed and worked on one after the other, up to the first block that failed.
//!
//! Each worker has room for two pages, though a scan needs one and a load none: an associated type
//! for the room would keep the closure of `for_each_mut` from being proved.
ghost use Rattle.std.specs.Prelude.{◌≡◌, ℕ, ◌+◌, ◌-◌, ◌<◌, ◌≤◌, Result, OnOk};
ghost use Rattle.block_tag.specs.declared.tag.Tag.{Tag};
ghost use Rattle.backend_pass.specs.declared.manager.Manager.{Manager};
ghost use Rattle.backend_pass.specs.Passes.{PassState};
ghost use Rattle.page_jobs.specs.declared.ending.JobError.{JobError};
ghost use Rattle.page_jobs.specs.declared.job_blocks.JobBlocks.{JobBlocks};
ghost use Rattle.page_jobs.specs.JobBlocks.{AreThere, DoesAt, IsInside, count_in};
ghost use Rattle.backend_pass.specs.Between.{HasNoTokens};
ghost use Rattle.chunk_claims.specs.Claims.{SitsAt};
ghost use Rattle.page_jobs.specs.Chunks.{chunk_count, chunk_size};
ghost use Rattle.page_jobs.specs.Working.{CanBegin, CanCount, ClaimsNothing, DoesUpTo, IsAtEnd};
ghost use Rattle.page_jobs.specs.Working.{WorksChunk, WorksChunks};

use crate::ending::JobError;
use crate::gate::Gate;
use crate::job_blocks::JobBlocks;
use access_rings::Ring;
use atomic_table::Seat;
use backend_pass::{Manager, Pass};
use block_tag::Tag;
use byte_devices::LogDevice;
use chunk_claims::{Claimant, Claims};
use page_layout::Page;
use segment_store::BlockLane;
use std::alloc::{AllocError, Global};
use std::sync::Wait;

/// What a worker works with: room for the page that it reads and for the one that a rewrite makes
/// of it, and a ring.
#[derive(Drop)]
pub(crate) struct Buffers {
    pub(crate) page: Page,
    pub(crate) after: Page,
    pub(crate) ring: Option<Ring>,
}

/// What the workers of a job begin with, and give back when they have ended.
pub(crate) trait JobTask {
    // The first one is the job's task, and the second one that of a worker that begins.
    ghost begins: { Self → Self → Type 0 };

    // This many workers can still begin.
    ghost deals: { ℕ → Self → Type 0 };

    // The third one is what the job's task, the first one, is after a worker gave the second one
    // back.
    ghost joins: { Self → Self → Self → Type 0 };

    /// The task of a worker that begins: it has nothing to show yet.
    fn begin(&mut self, alloc: Global) -> Self
        requires deals { (n : ℕ) × deals (n + 1) self.old }
        ensures begins { begins self.old result }
        ensures same { (k : Self) → begins self.new k → begins self.old k }
        ensures deals { (n : ℕ) → deals (n + 1) self.old → deals n self.new };

    /// A worker that has ended gives its task back.
    fn join(&mut self, other: Self)
        ensures joins { joins self.old other self.new };
}

/// What a worker does with a block, and with a chunk once all its blocks are worked on. `L` and `G`
/// are the manager's lanes and log, and all workers of a job share a `W`.
pub(crate) trait BlockTask<L: BlockLane, G: LogDevice, W> {
    // What was done with a block, between two states of the pass and of the task, and how that
    // ended.
    ghost does: { Manager L G → Tag → PassState → PassState → Self → Self → Result Unit JobError
        → Type 0 };

    // What was done at the end of a chunk, whose blocks left the pass so, between two states of the
    // task, and how that ended.
    ghost closes: { ℕ → PassState → Self → Self → Result Unit JobError → Type 0 };

    // It can begin a chunk of the blocks.
    ghost opens: { Manager L G → JobBlocks → Self → Type 0 };

    // It can count this many blocks more.
    ghost fits: { Self → ℕ → Type 0 };

    /// The ring to read with, for this many blocks and a table of this many frames.
    fn ring(&self, alloc: Global, blocks: u32, frames: u32) -> Result<Option<Ring>, AllocError>
        requires { (16 ≤ frames) × (frames ≤ 4096) };

    /// Works on a block. The gate has heard of it.
    fn work_block<R: Wait, T: Gate>(
        &mut self,
        manager: &Manager<L, G>,
        rt: &R,
        alloc: Global,
        gate: &T,
        worker: u32,
        pass: &mut Pass,
        tag: Tag,
        buffers: &mut Buffers,
    ) -> Result<(), JobError>
        requires free { HasNoTokens L.contents manager.now pass.old }
        requires block { IsInside manager.now tag }
        requires fits { fits self.old 1 }
        ensures does { does manager.now tag pass.old pass.new self.old self.new result }
        ensures free { OnOk result (HasNoTokens L.contents manager.now pass.new) }
        ensures fits { OnOk result ((n : ℕ) → fits self.old (n + 1) → fits self.new n) };

    /// All blocks of the chunk are worked on.
    fn end_chunk<R: Wait>(
        &mut self,
        manager: &Manager<L, G>,
        rt: &R,
        shared: &W,
        blocks: &JobBlocks,
        chunk: u32,
        pass: &Pass,
    ) -> Result<(), JobError>
        requires chunk { chunk < chunk_count (count_in manager.now blocks.now) }
        requires worked { IsAtEnd (DoesAt (does manager.now) blocks.now)
            (HasNoTokens L.contents manager.now) (opens manager.now blocks.now)
            (count_in manager.now blocks.now) chunk pass.now self.old }
        ensures closes { closes chunk pass.now self.old self.new result }
        ensures opens { OnOk result (opens manager.now blocks.now self.new) }
        ensures fits { OnOk result ((n : ℕ) → fits self.old n → fits self.new n) };

    /// The worker of this number has failed: the others can stop.
    fn stop<R: Wait>(&self, rt: &R, shared: &W, worker: u32);
}

/// A backend that claims chunks of the blocks, and works on each.
pub(crate) struct Worker<K> {
    pub(crate) number: u32,
    pub(crate) pass: Pass,
    pub(crate) seat: Seat<(), Claimant>,
    pub(crate) task: K,
    pub(crate) end: Result<(), JobError>,
}

/// How many chunks this many blocks have.
pub(crate) fn chunk_count(blocks: u32) -> u32
    ensures { result ≡ chunk_count blocks }
{
    ((u64::from(blocks) + 7) / 8) as u32
}

/// The blocks of a chunk, in order, up to the first that the task fails at.
fn work_blocks<L: BlockLane, G: LogDevice, R: Wait, T: Gate, W, K: BlockTask<L, G, W>>(
    manager: &Manager<L, G>,
    rt: &R,
    alloc: Global,
    gate: &T,
    blocks: &JobBlocks,
    count: u32,
    chunk: u32,
    worker: &mut Worker<K>,
    buffers: &mut Buffers,
) -> Result<(), JobError>
    requires free { HasNoTokens L.contents manager.now worker.old.pass }
    requires there { AreThere manager.now blocks.now }
    requires count { count ≡ count_in manager.now blocks.now }
    requires chunk { chunk < chunk_count count }
    requires fits { CanCount K.fits worker.old.task (chunk_size count chunk) }
    ensures same { (worker.new.number ≡ worker.old.number) × (worker.new.seat ≡ worker.old.seat) }
    ensures does { DoesUpTo (DoesAt (K.does manager.now) blocks.now) count chunk
        worker.old.pass worker.new.pass worker.old.task worker.new.task result }
    ensures free { OnOk result (HasNoTokens L.contents manager.now worker.new.pass) }
    ensures fits { OnOk result
        ((n : ℕ) → CanCount K.fits worker.old.task (n + chunk_size count chunk)
        → CanCount K.fits worker.new.task n) }
{
    let from = chunk * 8;
    let to = from + (count - from).min(8);
    for place in from..to {
        let tag = blocks.tag(place);
        gate.before(worker.number, tag.block);
        worker.task.work_block(
            manager,
            rt,
            alloc,
            gate,
            worker.number,
            &mut worker.pass,
            tag,
            buffers,
        )?;
    }
    Ok(())
}

/// The blocks of a chunk, and then its end.
fn work_chunk<L: BlockLane, G: LogDevice, R: Wait, T: Gate, W, K: BlockTask<L, G, W>>(
    manager: &Manager<L, G>,
    rt: &R,
    alloc: Global,
    gate: &T,
    shared: &W,
    blocks: &JobBlocks,
    count: u32,
    chunk: u32,
    worker: &mut Worker<K>,
    buffers: &mut Buffers,
) -> Result<(), JobError>
    requires free { HasNoTokens L.contents manager.now worker.old.pass }
    requires there { AreThere manager.now blocks.now }
    requires count { count ≡ count_in manager.now blocks.now }
    requires chunk { chunk < chunk_count count }
    requires fits { CanCount K.fits worker.old.task (chunk_size count chunk) }
    requires opens { K.opens manager.now blocks.now worker.old.task }
    ensures same { (worker.new.number ≡ worker.old.number) × (worker.new.seat ≡ worker.old.seat) }
    ensures works { WorksChunk (DoesAt (K.does manager.now) blocks.now) K.closes count chunk
        worker.old.pass worker.new.pass worker.old.task worker.new.task result }
    ensures free { OnOk result (HasNoTokens L.contents manager.now worker.new.pass) }
    ensures opens { OnOk result (K.opens manager.now blocks.now worker.new.task) }
    ensures fits { OnOk result
        ((n : ℕ) → CanCount K.fits worker.old.task (n + chunk_size count chunk)
        → CanCount K.fits worker.new.task n) }
{
    work_blocks::<L, G, R, T, W, K>(
        manager, rt, alloc, gate, blocks, count, chunk, worker, buffers,
    )?;
    worker
        .task
        .end_chunk(manager, rt, shared, blocks, chunk, &worker.pass)
}

/// Chunks are claimed until none is left, up to the first that the task fails in.
fn work_chunks<L: BlockLane, G: LogDevice, R: Wait, T: Gate, W, K: BlockTask<L, G, W>>(
    manager: &Manager<L, G>,
    rt: &R,
    alloc: Global,
    gate: &T,
    shared: &W,
    blocks: &JobBlocks,
    claims: &Claims,
    worker: &mut Worker<K>,
) -> Result<(), JobError>
    requires free { HasNoTokens L.contents manager.now worker.old.pass }
    requires there { AreThere manager.now blocks.now }
    requires chunks { claims.now.chunks ≡ chunk_count (count_in manager.now blocks.now) }
    requires seat { SitsAt claims.now.table.shared.table_id worker.old.seat }
    requires claims { ClaimsNothing claims.now.chunks claims.now.workers worker.old.seat.me.0 }
    requires fits { CanBegin K.fits worker.old.task }
    requires opens { K.opens manager.now blocks.now worker.old.task }
    ensures same { worker.new.number ≡ worker.old.number }
    ensures seat { SitsAt claims.now.table.shared.table_id worker.new.seat }
    ensures part { (worker.new.seat.me.0.parts ≡ 1)
        × (worker.new.seat.me.0.workers ≡ claims.now.workers) }
    ensures works { WorksChunks (DoesAt (K.does manager.now) blocks.now) K.closes
        (count_in manager.now blocks.now) worker.new.seat.me.0.drawn worker.old.pass
        worker.new.pass worker.old.task worker.new.task result }
{
    let count = blocks.count(manager);
    let mut buffers = Buffers {
        page: Page::zeroed(alloc)?,
        after: Page::zeroed(alloc)?,
        ring: worker.task.ring(alloc, count, manager.frames())?,
    };
    for _ in rt.forever() {
        let Some(chunk) = claims.claim(&mut worker.seat) else {
            return Ok(());
        };
        work_chunk(
            manager,
            rt,
            alloc,
            gate,
            shared,
            blocks,
            count,
            chunk,
            worker,
            &mut buffers,
        )?;
    }
    unreachable!()
}

/// Runs a worker, and notes how it ended. If it failed, the others can stop.
pub(crate) fn work<L: BlockLane, G: LogDevice, R: Wait, T: Gate, W, K: BlockTask<L, G, W>>(
    manager: &Manager<L, G>,
    rt: &R,
    alloc: Global,
    gate: &T,
    shared: &W,
    blocks: &JobBlocks,
    claims: &Claims,
    worker: &mut Worker<K>,
)
    requires free { HasNoTokens L.contents manager.now worker.old.pass }
    requires there { AreThere manager.now blocks.now }
    requires chunks { claims.now.chunks ≡ chunk_count (count_in manager.now blocks.now) }
    requires seat { SitsAt claims.now.table.shared.table_id worker.old.seat }
    requires claims { ClaimsNothing claims.now.chunks claims.now.workers worker.old.seat.me.0 }
    requires fits { CanBegin K.fits worker.old.task }
    requires opens { K.opens manager.now blocks.now worker.old.task }
    ensures same { worker.new.number ≡ worker.old.number }
    ensures seat { SitsAt claims.now.table.shared.table_id worker.new.seat }
    ensures part { (worker.new.seat.me.0.parts ≡ 1)
        × (worker.new.seat.me.0.workers ≡ claims.now.workers) }
    ensures works { WorksChunks (DoesAt (K.does manager.now) blocks.now) K.closes
        (count_in manager.now blocks.now) worker.new.seat.me.0.drawn worker.old.pass
        worker.new.pass worker.old.task worker.new.task worker.new.end }
{
    let end = work_chunks(manager, rt, alloc, gate, shared, blocks, claims, worker);
    if end.is_err() {
        worker.task.stop(rt, shared, worker.number);
    }
    worker.end = end;
}
