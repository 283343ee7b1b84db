//! Jobs over all blocks of a fork, and over listed blocks.
ghost use Rattle.std.specs.Prelude.{◌<◌, ◌≤◌, ◌^◌, All, List, IfErr, IfOk, OnOk, length, vec_len};
ghost use Rattle.page_layout.specs.Scan.{scan_text};
ghost use Rattle.pin_core.specs.State.{Page};
ghost use Rattle.byte_devices.specs.Bytes.{Puts};
ghost use Rattle.frame_table.specs.Seats.{base_of};
ghost use Rattle.page_jobs.specs.Ending.{as_done};
ghost use Rattle.page_jobs.specs.Jobs.{AllAtBase, EndsJob, HaveNoTokens, IsOrigin, workers_in};
ghost use Rattle.page_jobs.specs.JobBlocks.{IsInside};
ghost use Rattle.page_jobs.specs.Loads.{LoadsAll};
ghost use Rattle.page_jobs.specs.RewriteJobs.{RewritesFork};

use backend_pass::{Manager, Pass};
use block_tag::{Fork, RelNo, Tag};
use byte_devices::{LogDevice, Sink};
use page_jobs::{Beside, Gate, JobEnd, dump, load, rewrite, scan};
use segment_store::BlockLane;
use std::alloc::Global;
use std::sync::Wait;
use std::thread::Threads;

/// A scan prints each block once, in the order of the blocks, whichever worker reads it and
/// whenever. (PostgreSQL's parallel scans, by `table_block_parallelscan_nextpage`, keep no order.)
pub fn scan_blocks<
    L: BlockLane + Send,
    G: LogDevice + Send,
    R: Threads + Wait + Sync,
    O: Sink + Send,
    T: Gate + Sync,
    B: Beside<L, G>,
>(
    manager: &Manager<L, G>,
    rt: &R,
    alloc: Global,
    passes: Vec<Pass>,
    rel: RelNo,
    fork: Fork,
    out: &mut O,
    gate: &T,
    beside: &mut B,
) -> JobEnd
    requires several { 2 ≤ vec_len passes }
    requires few { vec_len passes ≤ 64 }
    requires free { HaveNoTokens L.contents manager.now passes.items }
    ensures text { (pages : List Page) → IsOrigin L.contents manager.now rel.0 fork pages
        → AllAtBase (base_of manager.now.table) (workers_in result.passes.items)
        → Puts (scan_text pages) (O.bytes out.old) (O.bytes out.new) (as_done result.end) }
{
    scan(manager, rt, alloc, passes, rel, fork, out, gate, beside)
}

/// A job ends early only for a reason: one of its passes met a fault, the output failed, or it was
/// out of memory.
pub fn dump_blocks<
    L: BlockLane + Send,
    G: LogDevice + Send,
    R: Threads + Wait + Sync,
    O: Sink + Send,
    T: Gate + Sync,
    B: Beside<L, G>,
>(
    manager: &Manager<L, G>,
    rt: &R,
    alloc: Global,
    passes: Vec<Pass>,
    rel: RelNo,
    fork: Fork,
    out: &mut O,
    gate: &T,
    beside: &mut B,
) -> JobEnd
    requires several { 2 ≤ vec_len passes }
    requires few { vec_len passes ≤ 64 }
    requires free { HaveNoTokens L.contents manager.now passes.items }
    ensures cause { IfErr result.end (EndsJob L.contents manager.now rel.0 fork passes.items
        result.passes.items (O.faults out.old) (O.faults out.new)) }
{
    dump(manager, rt, alloc, passes, rel, fork, out, gate, beside)
}

/// A rewrite that ends well has put the page of each block that the rule changes, once, and no
/// other (`lazy_vacuum_heap_rel`).
pub fn rewrite_blocks<
    L: BlockLane + Send,
    G: LogDevice + Send,
    R: Threads + Wait + Sync,
    T: Gate + Sync,
    B: Beside<L, G>,
>(
    manager: &Manager<L, G>,
    rt: &R,
    alloc: Global,
    passes: Vec<Pass>,
    rel: RelNo,
    fork: Fork,
    gate: &T,
    beside: &mut B,
) -> JobEnd
    requires several { 2 ≤ vec_len passes }
    requires few { vec_len passes ≤ 64 }
    requires free { HaveNoTokens L.contents manager.now passes.items }
    ensures done { IfOk result.end (RewritesFork L.contents manager.now rel.0 fork
        (workers_in passes.items) (workers_in result.passes.items)) }
{
    rewrite(manager, rt, alloc, passes, rel, fork, gate, beside)
}

/// A load that ends well has read each listed block, and its passes have seen it in a frame, unless
/// its page isn't sound (`pg_prewarm`).
pub fn load_blocks<
    L: BlockLane + Send,
    G: LogDevice + Send,
    R: Threads + Wait + Sync,
    T: Gate + Sync,
    B: Beside<L, G>,
>(
    manager: &Manager<L, G>,
    rt: &R,
    alloc: Global,
    passes: Vec<Pass>,
    tags: &[Tag],
    gate: &T,
    beside: &mut B,
) -> JobEnd
    requires several { 2 ≤ vec_len passes }
    requires few { vec_len passes ≤ 64 }
    requires free { HaveNoTokens L.contents manager.now passes.items }
    requires short { length tags.now < 2 ^ 32 }
    requires inside { All (IsInside manager.now) tags.now }
    ensures done { OnOk result.end (LoadsAll L.contents manager.now tags.now
        (workers_in passes.items) (workers_in result.passes.items)) }
{
    load(manager, rt, alloc, passes, tags, gate, beside)
}
