//! What jobs count.
ghost use Rattle.std.specs.Prelude.{◌≤◌, OnOk, vec_len};
ghost use Rattle.page_jobs.specs.Jobs.{FoundMoreIn, HaveNoTokens, workers_in};
ghost use Rattle.page_jobs.specs.Parts.{blocks_in};

use backend_pass::{Manager, Pass};
use block_tag::{Fork, RelNo};
use byte_devices::{LogDevice, Sink};
use page_jobs::{Beside, Gate, JobEnd, scan};
use segment_store::BlockLane;
use std::alloc::Global;
use std::sync::Wait;
use std::thread::Threads;

/// A scan that ends well has read each block once, from the pool or from its lane
/// (`pgstat_count_buffer_hit`, `pgstat_count_buffer_read`).
pub fn scan_counts<
    L: BlockLane + Send,
    G: LogDevice + Send,
    R: Threads + Wait + Sync,
    O: Sink + Send,
    T: Gate + Sync,
    B: Beside<L, G>,
>(
    manager: &Manager<L, G>,
    rt: &R,
    alloc: Global,
    passes: Vec<Pass>,
    rel: RelNo,
    fork: Fork,
    out: &mut O,
    gate: &T,
    beside: &mut B,
) -> JobEnd
    requires several { 2 ≤ vec_len passes }
    requires few { vec_len passes ≤ 64 }
    requires free { HaveNoTokens L.contents manager.now passes.items }
    ensures found { OnOk result.end (FoundMoreIn (blocks_in manager.now rel.0 fork)
        (workers_in passes.items) (workers_in result.passes.items)) }
{
    scan(manager, rt, alloc, passes, rel, fork, out, gate, beside)
}
