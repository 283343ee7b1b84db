//! Rewrites that are run.
ghost use Rattle.std.specs.Prelude.{◌≡◌, Ok};

use crate::checks::check_eq;
use crate::devices::TestCall::{Append, ReadBlock, SyncLane, SyncLog, WriteBlock};
use crate::devices::{ByteLog, Failing, Journal, PageLane};
use crate::rewriting::rewrite_then_checkpoint;
use backend_pass::{FlushError, Manager, Pass, Pinned};
use byte_devices::LogDevice;
use checkpointer::Checkpoint;
use page_jobs::{Beside, Gate, NoBeside};
use page_layout::Page;
use segment_store::BlockLane;
use std::alloc::{AllocError, Global};
use std::sync::Wait;
use std::sync::atomic::{AtomicU64, Ordering};
use std::test::Fail;
use std::thread;

/// The header and the line pointers of a page with an item between two dead line pointers: log
/// position 0/16B3740, lower 36, upper 8176, special 8192.
const DEAD_FRONT: [u8; 36] = [
    0x00, 0x00, 0x00, 0x00, 0x40, 0x37, 0x6b, 0x01, 0x00, 0x00, 0x00, 0x00, 0x24, 0x00, 0xf0, 0x1f,
    0x00, 0x20, 0x04, 0x20, 0x00, 0x00, 0x00, 0x00, 0x00, 0x80, 0x01, 0x00, 0xf0, 0x9f, 0x08, 0x00,
    0x00, 0x80, 0x01, 0x00,
];

/// So many pages with two dead line pointers.
fn pages_with_dead(alloc: Global, blocks: u32) -> Result<Vec<Page>, AllocError> {
    let mut bytes = [0u8; 8192];
    bytes[..36].copy_from_slice(&DEAD_FRONT);
    bytes[8176..8180].copy_from_slice(&[0x0a, 0x0b, 0x0c, 0x0d]);
    bytes[8184..8188].copy_from_slice(&[1, 2, 3, 4]);
    let mut pages = Vec::new(alloc);
    for _ in 0..blocks {
        let mut page = Page::zeroed(alloc)?;
        page.fill(&bytes);
        pages.push(page)?;
    }
    Ok(pages)
}

/// A lane of four such pages, and a log.
fn devices(alloc: Global) -> Result<(PageLane, ByteLog), AllocError> {
    let journal = Journal::new(alloc)?;
    let pages = pages_with_dead(alloc, 4)?;
    let lane = PageLane::new(pages, Failing::None, journal.beside(alloc)?);
    Ok((lane, ByteLog::new(alloc, Failing::None, journal)))
}

/// Lets every block through.
#[derive(Drop)]
struct OpenGate;

impl Gate for OpenGate {
    fn before(&self, _worker: u32, _block: u32) {}

    fn seen(&self, _worker: u32, _pinned: &Pinned) {}
}

#[test]
fn a_rewrite_writes_what_its_ring_gives_up(rt: HostRuntime) -> Result<(), Fail> {
    let (lane, log) = devices(rt.alloc())?;
    let run = rewrite_then_checkpoint(&rt, rt.alloc(), lane, log, &OpenGate, &mut NoBeside)?;
    let totals = run.end.ok().ok_or("the rewrite ended early")?;
    check_eq!(rt; (totals.blocks, totals.changed, totals.dead), (4, 4, 8));
    check_eq!(rt;
        run.checkpoint,
        Ok(Checkpoint {
            upto: 0x16B_B7C0,
            written: 2
        })
    );
    check_eq!(rt;
        run.calls.as_slice(),
        [
            ReadBlock(0),
            Append,
            ReadBlock(1),
            Append,
            SyncLog,
            WriteBlock(0),
            ReadBlock(2),
            Append,
            WriteBlock(1),
            ReadBlock(3),
            Append,
            SyncLog,
            WriteBlock(2),
            WriteBlock(3),
            SyncLane
        ]
        .as_slice()
    );
    Ok(())
}

/// How often each of two threads looks for the other, which may be slow to start.
const PATIENCE: u32 = 10_000_000;

/// Where a worker and the work beside it wait for each other.
#[derive(Drop)]
struct Meeting {
    worker: AtomicU64,
    beside: AtomicU64,
    /// How many gave up.
    alone: AtomicU64,
}

impl Meeting {
    fn new() -> Meeting {
        Meeting {
            worker: AtomicU64::new(0),
            beside: AtomicU64::new(0),
            alone: AtomicU64::new(0),
        }
    }

    /// Notes that one has come, and waits for the other.
    fn meet(&self, one: &AtomicU64, other: &AtomicU64) {
        one.fetch_add(1, Ordering::SeqCst);
        for _ in 0..PATIENCE {
            if other.load(Ordering::SeqCst) > 0 {
                return;
            }
            thread::yield_now();
        }
        self.alone.fetch_add(1, Ordering::SeqCst);
    }
}

impl Gate for Meeting {
    fn before(&self, _worker: u32, _block: u32) {
        self.meet(&self.worker, &self.beside);
    }

    fn seen(&self, _worker: u32, _pinned: &Pinned) {}
}

/// Work that waits for a worker.
#[derive(Drop)]
struct MeetWorker<'a> {
    meeting: &'a Meeting,
}

impl<'a, L: BlockLane, G: LogDevice> Beside<L, G> for MeetWorker<'a> {
    ghost works = { λ _ _ _ p q end. (q ≡ p) × (end ≡ Ok tt) };

    fn work<R: Wait>(
        &mut self,
        _manager: &Manager<L, G>,
        _rt: &R,
        _pass: &mut Pass,
    ) -> Result<(), FlushError> {
        let meeting = self.meeting;
        meeting.meet(&meeting.beside, &meeting.worker);
        Ok(())
    }
}

#[test]
fn the_last_pass_works_beside_the_others(rt: HostRuntime) -> Result<(), Fail> {
    let meeting = Meeting::new();
    let mut beside = MeetWorker { meeting: &meeting };
    let (lane, log) = devices(rt.alloc())?;
    let run = rewrite_then_checkpoint(&rt, rt.alloc(), lane, log, &meeting, &mut beside)?;
    let totals = run.end.ok().ok_or("the rewrite ended early")?;
    let met = [
        meeting.worker.load(Ordering::SeqCst),
        meeting.beside.load(Ordering::SeqCst),
        meeting.alone.load(Ordering::SeqCst),
    ];
    check_eq!(rt; (totals.changed, met), (4, [4, 1, 0]));
    Ok(())
}
