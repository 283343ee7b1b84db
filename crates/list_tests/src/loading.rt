//! A load by the passes of a small manager.
ghost use Rattle.std.specs.Prelude.{◌≡◌, ◌≤◌, [], All, length, vec_capacity, vec_len};
ghost use Rattle.page_jobs.specs.JobBlocks.{IsInside};

use crate::lanes::ReadLane;
use backend_pass::{Config, Manager, Pinned, StartRefused};
use block_tag::{Fork, RelNo, Tag};
use byte_devices::LogDevice;
use io_counts::IoCounts;
use manager_bench::bench::catalog;
use page_jobs::{Gate, JobEnd, JobError, NoBeside, Totals, load};
use segment_store::BlockLane;
use std::alloc::{AllocError, Global};
use std::sync::Wait;
use std::thread::Threads;
use test_devices::TestLog;

/// How many blocks the relation has.
const BLOCKS: u32 = 40;

/// Lets every block through.
#[derive(Drop)]
struct OpenGate;

impl Gate for OpenGate {
    fn before(&self, _worker: u32, _block: u32) {}

    fn seen(&self, _worker: u32, _pinned: &Pinned) {}
}

/// What came of a load.
#[derive(Drop)]
pub struct Loaded {
    pub end: Result<Totals, JobError>,
    /// How often the lane was read.
    pub reads: u32,
    /// What all passes counted.
    pub io: IoCounts,
}

/// Lists the blocks with these numbers, but for those past the relation's end.
fn list_blocks<L: BlockLane, G: LogDevice>(
    manager: &Manager<L, G>,
    numbers: &[u32],
    tags: &mut Vec<Tag>,
)
    requires none { tags.old.items ≡ [] }
    requires room { length numbers.now ≤ vec_capacity tags.old }
    ensures inside { All (IsInside manager.now) tags.new.items }
    ensures few { vec_len tags.new ≤ length numbers.now }
{
    let count = manager.blocks(RelNo(0), Fork::Main);
    for number in numbers {
        if *number < count {
            tags.push_reserved(Tag {
                rel: RelNo(0),
                fork: Fork::Main,
                block: *number,
            });
        }
    }
}

/// So many passes of a manager of 16 frames, all but one of them workers, load these blocks of a
/// relation over this lane.
pub fn load_blocks<R: Threads + Wait + Sync>(
    rt: &R,
    alloc: Global,
    passes: u32,
    lane: ReadLane,
    numbers: &[u32],
) -> Result<Loaded, AllocError>
    requires passes { (2 ≤ passes) × (passes ≤ 64) }
    requires few { length numbers.now ≤ 64 }
{
    let Ok(catalog) = catalog(alloc, BLOCKS) else {
        return Err(AllocError);
    };
    let mut tags = Vec::with_capacity(alloc, numbers.len())?;
    let mut lanes = Vec::new(alloc);
    lanes.push(lane)?;
    let config = Config {
        frames: 16,
        passes,
        lanes: 1,
    };
    match Manager::start(alloc, config, catalog, lanes, TestLog::new(alloc, 0), 0) {
        Ok((manager, given)) => {
            list_blocks(&manager, numbers, &mut tags);
            let JobEnd { passes, end } = load(
                &manager,
                rt,
                alloc,
                given,
                &tags,
                &OpenGate,
                &mut NoBeside,
            );
            let (lanes, _log, io) = manager.close_counted(passes);
            Ok(Loaded {
                end,
                reads: lanes.first().map_or(0, |lane| lane.reads),
                io,
            })
        }
        Err(StartRefused { why: _, lanes, log }) => {
            drop(lanes);
            drop(log);
            Err(AllocError)
        }
    }
}
