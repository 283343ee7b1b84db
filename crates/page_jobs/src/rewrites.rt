//! Rewrites.
//!
//! A rewrite's ring is that of a vacuum, for any number of blocks. The gate (`Gate`) hears of the
//! pin under the cleanup lock, once the page is read.
ghost use Rattle.std.specs.Prelude.{◌≡◌, ◌≤◌, ◌⊎◌, ◌^◌, Ok, Err, IfErr, IfOk, OnOk, vec_len};
ghost use Rattle.page_jobs.specs.Beside.{LastDid, StaysBeside};
ghost use Rattle.page_jobs.specs.Completeness.{IsDoneFullOrMemory, IsDoneFullShortOrMemory};
ghost use Rattle.page_jobs.specs.Completeness.{NoDeviceFailsIn, NothingFailsIn};
ghost use Rattle.page_jobs.specs.Dealt.{AllDone, EndsFirst};
ghost use Rattle.page_jobs.specs.Ending.{totals_of_rewrite};
ghost use Rattle.page_jobs.specs.Jobs.{HaveNoTokens, workers_in};
ghost use Rattle.page_jobs.specs.Relations.{MeetNothing};
ghost use Rattle.page_jobs.specs.Rewriters.{AreRewritesCounted, rewritten_totals};
ghost use Rattle.page_jobs.specs.RewriteJobs.{EndsRewrite, RewriteParts, RewritesFork};

use crate::beside::Beside;
use crate::ending::{JobEnd, JobError, Totals};
use crate::gate::Gate;
use crate::job_blocks::{ForkBlocks, JobBlocks};
use crate::puts::first_fault;
use crate::rewriting::Rewriter;
use crate::running::run_job;
use crate::working::Worker;
use backend_pass::{Manager, Pass};
use block_tag::{Fork, RelNo};
use byte_devices::LogDevice;
use page_layout::RewriteTotals;
use segment_store::BlockLane;
use std::alloc::Global;
use std::sync::Wait;
use std::thread::Threads;

/// The totals of all workers.
fn sum_rewritten(workers: &[Worker<Rewriter>]) -> RewriteTotals
    requires counts { AreRewritesCounted workers.now }
    requires few { (rewritten_totals workers.now).blocks ≤ 2 ^ 40 }
    ensures { result ≡ rewritten_totals workers.now }
{
    let mut totals = RewriteTotals::none();
    for worker in workers {
        totals.add(&worker.task.totals);
    }
    totals
}

/// How a rewrite ends: with the totals of all workers; or as the first of the workers that failed;
/// or, if none did, as the work beside them.
fn end_rewrite(
    workers: &[Worker<Rewriter>],
    beside_end: Result<(), JobError>,
) -> Result<Totals, JobError>
    requires counts { AreRewritesCounted workers.now }
    requires few { (rewritten_totals workers.now).blocks ≤ 2 ^ 40 }
    ensures done { IfOk result
        (λ totals. (totals ≡ totals_of_rewrite (rewritten_totals workers.now))
        × AllDone workers.now) }
    ensures beside { OnOk result (beside_end ≡ Ok tt) }
    ensures cause { IfErr result
        (λ e. EndsFirst e workers.now ⊎ (AllDone workers.now × (beside_end ≡ Err e))) }
{
    first_fault(workers)?;
    beside_end?;
    Ok(Totals::of_rewrite(sum_rewritten(workers)))
}

/// Rewrites the blocks of a fork, each under its cleanup lock: the page of a block that the rule
/// changes is put into the log and into its frame (`lazy_vacuum_heap_page`). All passes are given,
/// of which all but the last work, each on the chunks of eight blocks that it claims, and the last
/// one does other work beside them; all are given back.
pub fn rewrite<
    L: BlockLane + Send,
    G: LogDevice + Send,
    R: Threads + Wait + Sync,
    T: Gate + Sync,
    B: Beside<L, G>,
>(
    manager: &Manager<L, G>,
    rt: &R,
    alloc: Global,
    passes: Vec<Pass>,
    rel: RelNo,
    fork: Fork,
    gate: &T,
    beside: &mut B,
) -> JobEnd
    requires several { 2 ≤ vec_len passes }
    requires few { vec_len passes ≤ 64 }
    requires free { HaveNoTokens L.contents manager.now passes.items }
    ensures passes { RewriteParts L.contents manager.now rel.0 fork (workers_in passes.items)
        (workers_in result.passes.items) }
    ensures last { StaysBeside L.contents manager.now passes.items result.passes.items }
    ensures met { OnOk result.end (MeetNothing passes.items result.passes.items) }
    ensures beside { OnOk result.end
        (LastDid (λ p q. B.works manager.now beside.old beside.new p q (Ok tt)) passes.items
        result.passes.items) }
    ensures done { IfOk result.end
        (RewritesFork L.contents manager.now rel.0 fork (workers_in passes.items)
        (workers_in result.passes.items)) }
    ensures cause { IfErr result.end
        (EndsRewrite L.contents manager.now rel.0 fork passes.items result.passes.items) }
    // If no device fails for any of the passes, it ends well, out of memory, at a page past the
    // log's end, or as the log is full.
    ensures short { NoDeviceFailsIn passes.items result.passes.items
        → IsDoneFullShortOrMemory result.end }
    ensures complete { NothingFailsIn L.contents manager.now passes.items result.passes.items
        → IsDoneFullOrMemory result.end }
{
    // The blocks' numbers are those of blocks that have names.
    let _count = manager.blocks(rel, fork);
    let blocks = JobBlocks::Fork(ForkBlocks { rel, fork });
    let mut task = Rewriter::none();
    match run_job(
        manager,
        rt,
        alloc,
        passes,
        &blocks,
        &mut task,
        &(),
        gate,
        beside,
    ) {
        Ok(ran) => {
            let end = end_rewrite(&ran.workers, ran.beside_end);
            let passes = ran.give_back(&mut task);
            JobEnd { passes, end }
        }
        Err(passes) => JobEnd {
            passes,
            end: Err(JobError::Memory),
        },
    }
}
