//! Scans and dumps.
//!
//! What a scan put isn't tied to who read it, since that is lost under the lock. Of the page of a
//! line `PutsTexts` says that it is sound, and that it is the block's page at the opening if it was
//! read at the log's base. If all passes are at the base at the end, the text is that of the pages
//! at the opening. The totals' line is tied to what the passes read.
ghost use Rattle.std.specs.Prelude.{◌≡◌, ℕ, ◌+◌, ◌-◌, ◌<◌, ◌≤◌, List, [], Ok, length, vec_len};
ghost use mathlib.Core.Option.{some};
ghost use lib.ListN.{get_elem?};
ghost use Rattle.backend_pass.specs.Passes.{PassState};
ghost use Rattle.page_jobs.specs.declared.printing.Lines.TheVariants.{Dump, Scan};
ghost use Rattle.page_jobs.specs.ChunkTexts.{IsChunkText, job_of};
ghost use Rattle.page_jobs.specs.Jobs.{HaveNoTokens};
ghost use Rattle.page_jobs.specs.Listings.{IsListed};
ghost use Rattle.page_jobs.specs.Parts.{blocks_in};

use crate::beside::Beside;
use crate::ending::{JobEnd, JobError};
use crate::gate::Gate;
use crate::job_blocks::{ForkBlocks, JobBlocks};
use crate::lending::lend_value;
use crate::listing::Lister;
use crate::printing::Lines;
use crate::puts::{end_of_workers, put_end, sum_totals};
use crate::running::run_job;
use backend_pass::{Manager, Pass};
use block_tag::{Fork, RelNo};
use byte_devices::{LogDevice, Sink};
use page_layout::{Lsn, ScanTotals};
use segment_store::BlockLane;
use std::alloc::Global;
use std::marker::Brand;
use std::mem::replace;
use std::sync::ledger::{Blank, Ledger};
use std::sync::{Mutex, Wait};
use std::thread::Threads;
use text_window::{Naming, Shares, Window};

/// The front of the first pass.
/// It is the job's base, since a manager doesn't show where its log begins. Fronts never fall, so
/// if all passes that are given back are at the log's base, the first one was there before.
fn first_front(passes: &[Pass]) -> Lsn
    requires { 0 < length passes.now }
    ensures { (p : PassState) → get_elem? passes.now 0 ≡ some p → result ≡ p.view.front }
{
    passes[0].front()
}

/// Lists the blocks of a fork: all passes but the last work, and the texts of the chunks go out
/// through a window, which has the sink in the meantime.
fn list_over<
    N: Naming + Send + Sync,
    A: Ledger + Send + Sync,
    L: BlockLane + Send,
    G: LogDevice + Send,
    R: Threads + Wait + Sync,
    O: Sink + Send,
    T: Gate + Sync,
    B: Beside<L, G>,
>(
    manager: &Manager<L, G>,
    rt: &R,
    alloc: Global,
    passes: Vec<Pass>,
    blocks: ForkBlocks,
    lines: Lines,
    base: Lsn,
    sink: O,
    gate: &T,
    beside: &mut B,
    delivered: Blank,
    above: Blank,
) -> (O, JobEnd)
    requires several { 2 ≤ vec_len passes }
    requires few { vec_len passes ≤ 64 }
    requires free { HaveNoTokens L.contents manager.now passes.items }
    requires names { (delivered.name ≡ N.name) × (above.name ≡ A.name) }
    requires parts { (delivered.parts ≡ N.parts) × (above.parts ≡ A.parts) }
    requires workers { (N.parts + 1 ≡ vec_len passes) × (A.parts + 1 ≡ vec_len passes) }
    requires job { N.job ≡ job_of (blocks_in manager.now blocks.rel.0 blocks.fork)
        (vec_len passes - 1) base (O.bytes sink) (O.faults sink) }
    requires base { (p : PassState) → get_elem? passes.items 0 ≡ some p → base ≡ p.view.front }
    // The window takes the texts that the fork's chunks may have, and no others.
    requires takes { (place chunk : ℕ) (text : List ℕ)
        → IsChunkText L.contents manager.now blocks.rel.0 blocks.fork lines place chunk text
        → N.texts place chunk text }
    requires only { (place chunk : ℕ) (text : List ℕ) → N.texts place chunk text
        → IsChunkText L.contents manager.now blocks.rel.0 blocks.fork lines place chunk text }
    ensures lists { IsListed L.contents manager.now blocks.rel.0 blocks.fork lines
        (λ p q. B.works manager.now beside.old beside.new p q (Ok tt)) passes.items
        result.1.passes.items (O.bytes sink) (O.bytes result.0)
        (O.faults sink) (O.faults result.0) result.1.end }
{
    // A fork has fewer than 2^32 blocks, so its chunks can be numbered.
    let _count = manager.blocks(blocks.rel, blocks.fork);
    let backends = passes.len() as u32 - 1;
    let (delivered, delivered_shares) = delivered.open::<N>();
    let (above, above_shares) = above.open::<A>();
    let shares = Shares {
        delivered: delivered_shares,
        above: above_shares,
    };
    let mut task = Lister::of(alloc, lines, shares);
    let window = match Window::build(alloc, 2 * backends, base, sink, delivered, above) {
        Ok(window) => Mutex::new(window),
        Err((_, sink)) => {
            let end = Err(JobError::Memory);
            return (sink, JobEnd { passes, end });
        }
    };
    let run = run_job(
        manager,
        rt,
        alloc,
        passes,
        &JobBlocks::Fork(blocks),
        &mut task,
        &window,
        gate,
        beside,
    );
    let window = window.into_inner();
    match run {
        Ok(ran) => {
            let worked = end_of_workers(&ran.workers, window.stopped_by());
            let totals = sum_totals(&ran.workers);
            let beside_end = ran.beside_end;
            let passes = ran.give_back(&mut task);
            let (mut sink, stop) = window.finish(&mut task.shares);
            let end = put_end(alloc, stop, worked, beside_end, totals, &mut sink);
            (sink, JobEnd { passes, end })
        }
        Err(passes) => {
            let (mut sink, stop) = window.finish(&mut task.shares);
            let worked = Err(JobError::Memory);
            let end = put_end(alloc, stop, worked, Ok(()), ScanTotals::none(), &mut sink);
            (sink, JobEnd { passes, end })
        }
    }
}

/// Lists the blocks of a fork, with ledgers made for this job.
fn list_sink<
    L: BlockLane + Send,
    G: LogDevice + Send,
    R: Threads + Wait + Sync,
    O: Sink + Send,
    T: Gate + Sync,
    B: Beside<L, G>,
>(
    manager: &Manager<L, G>,
    rt: &R,
    alloc: Global,
    passes: Vec<Pass>,
    blocks: ForkBlocks,
    lines: Lines,
    sink: O,
    gate: &T,
    beside: &mut B,
) -> (O, JobEnd)
    requires several { 2 ≤ vec_len passes }
    requires few { vec_len passes ≤ 64 }
    requires free { HaveNoTokens L.contents manager.now passes.items }
    ensures lists { IsListed L.contents manager.now blocks.rel.0 blocks.fork lines
        (λ p q. B.works manager.now beside.old beside.new p q (Ok tt)) passes.items
        result.1.passes.items (O.bytes sink) (O.bytes result.0)
        (O.faults sink) (O.faults result.0) result.1.end }
{
    let base = first_front(&passes);
    let backends = passes.len() as u64 - 1;
    list_over::<Brand, Brand, L, G, R, O, T, B>(
        manager,
        rt,
        alloc,
        passes,
        blocks,
        lines,
        base,
        sink,
        gate,
        beside,
        Blank::new(backends),
        Blank::new(backends),
    )
}

/// Lists the blocks of a fork: all passes but the last work, and what they print is put.
fn list_fork<
    L: BlockLane + Send,
    G: LogDevice + Send,
    R: Threads + Wait + Sync,
    O: Sink + Send,
    T: Gate + Sync,
    B: Beside<L, G>,
>(
    manager: &Manager<L, G>,
    rt: &R,
    alloc: Global,
    mut passes: Vec<Pass>,
    blocks: ForkBlocks,
    lines: Lines,
    out: &mut O,
    gate: &T,
    beside: &mut B,
) -> JobEnd
    requires several { 2 ≤ vec_len passes }
    requires few { vec_len passes ≤ 64 }
    requires free { HaveNoTokens L.contents manager.now passes.items }
    ensures lists { IsListed L.contents manager.now blocks.rel.0 blocks.fork lines
        (λ p q. B.works manager.now beside.old beside.new p q (Ok tt)) passes.items
        result.passes.items (O.bytes out.old) (O.bytes out.new)
        (O.faults out.old) (O.faults out.new) result.end }
{
    let end = lend_value(
        out,
        &mut |sink: O| -> (O, JobEnd)
            requires { (2 ≤ vec_len passes) × (vec_len passes ≤ 64)
                × HaveNoTokens L.contents manager.now passes.items }
            ensures { IsListed L.contents manager.entry.now blocks.rel.0 blocks.fork lines
                (λ p q. B.works manager.entry.now beside.entry.now beside.exit.now p q (Ok tt))
                passes.entry.items result.1.passes.items (O.bytes sink) (O.bytes result.0)
                (O.faults sink) (O.faults result.0) result.1.end
                × (passes.exit.items ≡ []) }
        {
            let mine = replace(&mut passes, Vec::new(alloc));
            list_sink(manager, rt, alloc, mine, blocks, lines, sink, gate, beside)
        },
    );
    passes.destroy_empty();
    end
}

/// Scans the blocks of a fork: a line for each in the order of blocks, then one of their totals.
/// Lines are put while later blocks are still being read. All passes are given, of which all but
/// the last work, each on the chunks of eight blocks that it claims, and the last one does other
/// work beside them; all are given back.
pub fn scan<
    L: BlockLane + Send,
    G: LogDevice + Send,
    R: Threads + Wait + Sync,
    O: Sink + Send,
    T: Gate + Sync,
    B: Beside<L, G>,
>(
    manager: &Manager<L, G>,
    rt: &R,
    alloc: Global,
    passes: Vec<Pass>,
    rel: RelNo,
    fork: Fork,
    out: &mut O,
    gate: &T,
    beside: &mut B,
) -> JobEnd
    requires several { 2 ≤ vec_len passes }
    requires few { vec_len passes ≤ 64 }
    requires free { HaveNoTokens L.contents manager.now passes.items }
    ensures { IsListed L.contents manager.now rel.0 fork Scan
        (λ p q. B.works manager.now beside.old beside.new p q (Ok tt)) passes.items
        result.passes.items (O.bytes out.old) (O.bytes out.new)
        (O.faults out.old) (O.faults out.new) result.end }
{
    let blocks = ForkBlocks { rel, fork };
    list_fork(
        manager,
        rt,
        alloc,
        passes,
        blocks,
        Lines::Scan,
        out,
        gate,
        beside,
    )
}

/// Dumps the blocks of a fork: a scan, with a line for each line pointer of a page after that of
/// its block.
pub fn dump<
    L: BlockLane + Send,
    G: LogDevice + Send,
    R: Threads + Wait + Sync,
    O: Sink + Send,
    T: Gate + Sync,
    B: Beside<L, G>,
>(
    manager: &Manager<L, G>,
    rt: &R,
    alloc: Global,
    passes: Vec<Pass>,
    rel: RelNo,
    fork: Fork,
    out: &mut O,
    gate: &T,
    beside: &mut B,
) -> JobEnd
    requires several { 2 ≤ vec_len passes }
    requires few { vec_len passes ≤ 64 }
    requires free { HaveNoTokens L.contents manager.now passes.items }
    ensures { IsListed L.contents manager.now rel.0 fork Dump
        (λ p q. B.works manager.now beside.old beside.new p q (Ok tt)) passes.items
        result.passes.items (O.bytes out.old) (O.bytes out.new)
        (O.faults out.old) (O.faults out.new) result.end }
{
    let blocks = ForkBlocks { rel, fork };
    list_fork(
        manager,
        rt,
        alloc,
        passes,
        blocks,
        Lines::Dump,
        out,
        gate,
        beside,
    )
}
