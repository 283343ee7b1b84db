//! A job from its passes to its workers' ends, whatever it does with the blocks.
ghost use Rattle.std.specs.Prelude.{◌≡◌, ℕ, true, ◌+◌, ◌-◌, ◌<◌, ◌≤◌, ◌++◌, [], ◌∷◌, ◌^◌, Ok};
ghost use Rattle.std.specs.Prelude.{IfErr, IfOk, OnErr, OnOk, map, vec_capacity, vec_len, All};
ghost use Rattle.chunk_claims.specs.Claims.{SitsAt, sum_below};
ghost use Rattle.page_jobs.specs.declared.working.Worker.{Worker};
ghost use Rattle.page_jobs.specs.Beside.{EndsBeside};
ghost use Rattle.page_jobs.specs.Chunks.{chunk_count};
ghost use Rattle.page_jobs.specs.Dealt.{HasRun, HasWorkedSeat, HaveJoined, IsDealing, IsDealtOut};
ghost use Rattle.page_jobs.specs.Dealt.{IsReady, total_drawn};
ghost use Rattle.page_jobs.specs.Jobs.{HaveNoTokens};
ghost use Rattle.page_jobs.specs.JobBlocks.{AreThere, DoesAt, count_in};
ghost use Rattle.backend_pass.specs.Between.{HasNoTokens};
ghost use Rattle.page_jobs.specs.Working.{CanBegin, HaveWorked};

use crate::beside::{Beside, work_last};
use crate::dealing::{deal, gather};
use crate::ending::JobError;
use crate::gate::Gate;
use crate::job_blocks::JobBlocks;
use crate::working::{BlockTask, JobTask, Worker, chunk_count, work};
use atomic_table::Seat;
use backend_pass::{Manager, Pass};
use byte_devices::LogDevice;
use chunk_claims::{Claimant, Claims};
use segment_store::BlockLane;
use std::alloc::{AllocError, Global};
use std::sync::Wait;
use std::thread;
use std::thread::Threads;

/// The workers of a job, once all have ended; the pass that worked beside them, and how its work
/// ended; and the room of the passes that the job was given.
pub(crate) struct Ran<K> {
    pub(crate) workers: Vec<Worker<K>>,
    pub(crate) beside_end: Result<(), JobError>,
    last: Pass,
    passes: Vec<Pass>,
    claims: Claims,
    seat: Seat<(), Claimant>,
}

/// All workers at once, each in a thread of its own. If none can be started, the caller works.
fn work_all<
    L: BlockLane + Send,
    G: LogDevice + Send,
    R: Threads + Wait + Sync,
    T: Gate + Sync,
    W: Sync,
    K: BlockTask<L, G, W> + Send,
>(
    manager: &Manager<L, G>,
    rt: &R,
    alloc: Global,
    gate: &T,
    shared: &W,
    blocks: &JobBlocks,
    claims: &Claims,
    workers: &mut Vec<Worker<K>>,
)
    requires some { 0 < vec_len workers.old }
    requires there { AreThere manager.now blocks.now }
    requires chunks { claims.now.chunks ≡ chunk_count (count_in manager.now blocks.now) }
    requires ready { All (IsReady L.contents manager.now claims.now K.fits
        (K.opens manager.now blocks.now)) workers.old.items }
    ensures count { vec_len workers.new ≡ vec_len workers.old }
    ensures worked { HaveWorked (DoesAt (K.does manager.now) blocks.now) K.closes
        (count_in manager.now blocks.now) workers.old.items workers.new.items }
    ensures seats { All (HasWorkedSeat claims.now) workers.new.items }
{
    let threads = workers.len();
    thread::for_each_mut(
        rt,
        workers.as_mut_slice(),
        threads,
        &|_index, worker| { work(manager, rt, alloc, gate, shared, blocks, claims, worker) },
    );
}

/// All workers at once, and the last pass beside them, in the caller's thread: so `Beside` needn't
/// be `Send`.
fn work_beside<
    L: BlockLane + Send,
    G: LogDevice + Send,
    R: Threads + Wait + Sync,
    T: Gate + Sync,
    B: Beside<L, G>,
    W: Sync,
    K: BlockTask<L, G, W> + Send,
>(
    manager: &Manager<L, G>,
    rt: &R,
    alloc: Global,
    workers: &mut Vec<Worker<K>>,
    last: &mut Pass,
    shared: &W,
    blocks: &JobBlocks,
    claims: &Claims,
    gate: &T,
    beside: &mut B,
) -> Result<(), JobError>
    requires some { 0 < vec_len workers.old }
    requires there { AreThere manager.now blocks.now }
    requires chunks { claims.now.chunks ≡ chunk_count (count_in manager.now blocks.now) }
    requires ready { All (IsReady L.contents manager.now claims.now K.fits
        (K.opens manager.now blocks.now)) workers.old.items }
    requires free { HasNoTokens L.contents manager.now last.old }
    ensures count { vec_len workers.new ≡ vec_len workers.old }
    ensures worked { HaveWorked (DoesAt (K.does manager.now) blocks.now) K.closes
        (count_in manager.now blocks.now) workers.old.items workers.new.items }
    ensures seats { All (HasWorkedSeat claims.now) workers.new.items }
    ensures beside { EndsBeside L.contents manager.now last.old last.new result }
    ensures works { OnOk result
        (B.works manager.now beside.old beside.new last.old last.new (Ok tt)) }
{
    let (_, end) = thread::join_mut(
        rt,
        &mut ||
            requires { (0 < vec_len workers.now)
                × AreThere manager.now blocks.now
                × (claims.now.chunks ≡ chunk_count (count_in manager.now blocks.now))
                × All (IsReady L.contents manager.now claims.now K.fits
                (K.opens manager.now blocks.now)) workers.now.items }
            ensures { (vec_len workers.exit.now ≡ vec_len workers.entry.now)
                × HaveWorked (DoesAt (K.does manager.entry.now) blocks.entry.now) K.closes
                (count_in manager.entry.now blocks.entry.now) workers.entry.now.items
                workers.exit.now.items × All (HasWorkedSeat claims.entry.now)
                workers.exit.now.items }
        { work_all(manager, rt, alloc, gate, shared, blocks, claims, workers) },
        &mut || work_last(manager, rt, last, beside),
    );
    end
}

/// The claims of a job's chunks, and its workers.
struct Dealt<K> {
    claims: Claims,
    seat: Seat<(), Claimant>,
    workers: Vec<Worker<K>>,
}

/// Each pass becomes a worker, which claims chunks of this many blocks.
fn deal_out<K: JobTask>(
    alloc: Global,
    blocks: u32,
    passes: &mut Vec<Pass>,
    task: &mut K,
) -> Result<Dealt<K>, AllocError>
    requires few { vec_len passes.old < 2 ^ 16 }
    requires deals { K.deals (vec_len passes.old) task.old }
    ensures dealt { IfOk result
        (λ dealt. IsDealtOut (K.begins task.old) blocks passes.old.items dealt
        × (passes.new.items ≡ [])) }
    ensures deals { OnOk result (K.deals 0 task.new) }
    ensures refused { OnErr result ((passes.new.items ≡ passes.old.items) × (task.new ≡ task.old)) }
    ensures capacity { vec_capacity passes.new ≡ vec_capacity passes.old }
{
    let (claims, mut seat) = Claims::build(alloc, chunk_count(blocks), passes.len() as u32)?;
    let workers = deal(alloc, &claims, &mut seat, passes, task)?;
    Ok(Dealt {
        claims,
        seat,
        workers,
    })
}

/// Runs a job to its workers' ends: all passes but the last one work, each on the chunks that it
/// claims, and the last one does other work beside them. If memory runs out, the passes are given
/// back.
pub(crate) fn run_job<
    L: BlockLane + Send,
    G: LogDevice + Send,
    R: Threads + Wait + Sync,
    T: Gate + Sync,
    B: Beside<L, G>,
    W: Sync,
    K: BlockTask<L, G, W> + JobTask + Send,
>(
    manager: &Manager<L, G>,
    rt: &R,
    alloc: Global,
    mut passes: Vec<Pass>,
    blocks: &JobBlocks,
    task: &mut K,
    shared: &W,
    gate: &T,
    beside: &mut B,
) -> Result<Ran<K>, Vec<Pass>>
    requires several { 2 ≤ vec_len passes }
    requires few { vec_len passes ≤ 64 }
    requires free { HaveNoTokens L.contents manager.now passes.items }
    requires there { AreThere manager.now blocks.now }
    requires deals { K.deals (vec_len passes - 1) task.old }
    requires starts { (k : K) → K.begins task.old k → CanBegin K.fits k
        × K.opens manager.now blocks.now k }
    ensures ran { IfOk result
        (HasRun L.contents manager.now (count_in manager.now blocks.now)
        (DoesAt (K.does manager.now) blocks.now) K.closes (K.begins task.old)
        (λ p q. B.works manager.now beside.old beside.new p q (Ok tt)) passes.items) }
    ensures deals { OnOk result (K.deals 0 task.new) }
    ensures refused { IfErr result (λ given. (given.items ≡ passes.items) × (task.new ≡ task.old)) }
{
    let mut last = passes.take_last();
    let count = blocks.count(manager);
    match deal_out(alloc, count, &mut passes, task) {
        Ok(mut dealt) => {
            let beside_end = work_beside(
                manager,
                rt,
                alloc,
                &mut dealt.workers,
                &mut last,
                shared,
                blocks,
                &dealt.claims,
                gate,
                beside,
            );
            let Dealt {
                claims,
                seat,
                workers,
            } = dealt;
            Ok(Ran {
                workers,
                beside_end,
                last,
                passes,
                claims,
                seat,
            })
        }
        Err(_) => {
            passes.push_reserved(last);
            Err(passes)
        }
    }
}

impl<K: JobTask> Ran<K> {
    /// The passes, in their order. The job's task gets back what the workers' tasks have.
    pub(crate) fn give_back(self, task: &mut K) -> Vec<Pass>
        requires none { self.passes.items ≡ [] }
        requires room { vec_len self.workers < vec_capacity self.passes }
        requires seats { All (HasWorkedSeat self.claims) self.workers.items
            × (vec_len self.workers ≡ self.claims.workers) × (0 < vec_len self.workers) }
        requires seat { SitsAt self.claims.table.shared.table_id self.seat
            × IsDealing self.claims.chunks self.claims.workers 0 self.seat.me.0 }
        // The numbers that the workers drew are those below one, each once.
        ensures once { (word : ℕ)
            × ((g : ℕ → ℕ) → total_drawn g self.workers.items ≡ sum_below word g) }
        ensures passes { result.items ≡ map (λ (w : Worker K). w.pass) self.workers.items ++
            self.last ∷ [] }
        ensures joined { HaveJoined K.joins self.workers.items task.old task.new }
    {
        let Ran {
            workers,
            beside_end: _,
            last,
            mut passes,
            claims,
            mut seat,
        } = self;
        gather(&claims, &mut seat, workers, &mut passes, task);
        let _drawn = claims.claimed(&mut seat);
        passes.push_reserved(last);
        passes
    }
}
