//! A rewrite, and a checkpoint after it.
use crate::devices::{ByteLog, PageLane, TestCall, calls_of};
use backend_pass::{Config, Manager, StartRefused};
use block_tag::{Fork, RelNo};
use checkpointer::{Checkpoint, CheckpointError, checkpoint};
use manager_bench::bench::catalog;
use page_jobs::{Beside, Gate, JobEnd, JobError, Totals, rewrite};
use page_layout::Lsn;
use std::alloc::{AllocError, Global};
use std::sync::Wait;
use std::thread::Threads;

/// Where the log begins.
const BASE: Lsn = 0x16B3740;

/// What came of them, and the calls of the devices.
#[derive(Drop)]
pub struct Rewritten {
    pub end: Result<Totals, JobError>,
    pub checkpoint: Result<Checkpoint, CheckpointError>,
    pub calls: Vec<TestCall>,
}

/// One pass of a manager of 16 frames rewrites a relation of four blocks, with this work beside it
/// by the other one, which makes a checkpoint after that.
pub fn rewrite_then_checkpoint<R, T, B>(
    rt: &R,
    alloc: Global,
    lane: PageLane,
    log: ByteLog,
    gate: &T,
    beside: &mut B,
) -> Result<Rewritten, AllocError>
where
    R: Threads + Wait + Sync,
    T: Gate + Sync,
    B: Beside<PageLane, ByteLog>,
{
    let Ok(catalog) = catalog(alloc, 4) else {
        return Err(AllocError);
    };
    let mut lanes = Vec::new(alloc);
    lanes.push(lane)?;
    let config = Config {
        frames: 16,
        passes: 2,
        lanes: 1,
    };
    match Manager::start(alloc, config, catalog, lanes, log, BASE) {
        Ok((manager, passes)) => {
            let JobEnd { mut passes, end } = rewrite(
                &manager,
                rt,
                alloc,
                passes,
                RelNo(0),
                Fork::Main,
                gate,
                beside,
            );
            let mut last = passes.take_last();
            let checkpoint = checkpoint(&manager, rt, &mut last);
            passes.push_reserved(last);
            let (lanes, log) = manager.close(passes);
            Ok(Rewritten {
                end,
                checkpoint,
                calls: calls_of(&lanes, &log, alloc)?,
            })
        }
        Err(StartRefused { why: _, lanes, log }) => {
            drop(lanes);
            drop(log);
            Err(AllocError)
        }
    }
}
