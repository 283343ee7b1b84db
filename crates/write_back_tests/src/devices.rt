//! Devices that tell which calls were made, and in which order.
use block_tag::Tag;
use byte_devices::{CallCount, Failed, FaultCount, LogDevice};
use page_layout::Page;
use segment_store::{BlockLane, LaneHistory};
use std::alloc::{AllocError, Global};
use std::sync::Arc;
use std::sync::atomic::{AtomicU64, Ordering};

/// A call of a device, which may have failed.
#[derive(Clone, Copy, PartialEq, Eq, Debug)]
pub enum TestCall {
    ReadBlock(u32),
    WriteBlock(u32),
    SyncLane,
    Append,
    SyncLog,
}

/// A call, and how many were made before it.
#[derive(Clone, Copy)]
pub struct Numbered {
    number: u64,
    call: TestCall,
}

/// The calls of a device, numbered with those of others.
#[derive(Drop)]
pub struct Journal {
    count: Arc<AtomicU64>,
    pub calls: Vec<Numbered>,
}

impl Journal {
    pub fn new(alloc: Global) -> Result<Journal, AllocError> {
        Ok(Journal {
            count: Arc::new(alloc, AtomicU64::new(0))?,
            calls: Vec::new(alloc),
        })
    }

    /// That of another device, whose calls are numbered with these.
    pub fn beside(&self, alloc: Global) -> Result<Journal, AllocError> {
        Ok(Journal {
            count: Arc::try_clone(&self.count)?,
            calls: Vec::new(alloc),
        })
    }

    /// Adds a call. Without memory it is left out.
    fn add(&mut self, call: TestCall) {
        let number = self.count.fetch_add(1, Ordering::SeqCst);
        let _ = self.calls.push(Numbered { number, call });
    }
}

/// Calls in the order in which they were made.
fn in_order(mut numbered: Vec<Numbered>, alloc: Global) -> Result<Vec<TestCall>, AllocError> {
    numbered.sort_unstable_by_key(|n| n.number);
    let mut calls = Vec::new(alloc);
    for n in &numbered {
        calls.push(n.call)?;
    }
    Ok(calls)
}

/// Which call of a device fails, counted from 1: a read of a lane; a write of a lane, or an append
/// to a log; or a sync.
#[derive(Clone, Copy, PartialEq, Eq)]
pub enum Failing {
    None,
    Read(u32),
    Write(u32),
    Sync(u32),
}

/// A lane that keeps the pages of its blocks, whose contents contracts don't know.
#[derive(Drop)]
pub struct PageLane {
    /// The page of each block.
    pub pages: Vec<Page>,
    pub journal: Journal,
    failing: Failing,
    reads: u32,
    writes: u32,
    syncs: u32,
    read_faults: FaultCount,
    write_faults: FaultCount,
    history: LaneHistory,
}

impl PageLane {
    /// Blocks with these pages.
    pub fn new(pages: Vec<Page>, failing: Failing, journal: Journal) -> PageLane {
        PageLane {
            pages,
            journal,
            failing,
            reads: 0,
            writes: 0,
            syncs: 0,
            read_faults: FaultCount::new(),
            write_faults: FaultCount::new(),
            history: LaneHistory::new(),
        }
    }
}

impl BlockLane for PageLane {
    ghost use Rattle.std.specs.Prelude.{None, false};
    ghost use Rattle.segment_store.specs.History.{calls_in, unsynced_in};

    ghost contents = { λ _. None };

    ghost failed_writes = { λ _ _. false };

    ghost unsynced = { λ l. unsynced_in l.history };

    ghost room = { λ _ _. false };

    ghost read_faults = { λ l. l.read_faults.count };

    ghost write_faults = { λ l. l.write_faults.count };

    ghost calls = { λ l. calls_in l.history };

    fn read(&mut self, tag: Tag, page: &mut Page) -> Result<(), Failed> {
        self.history.count_call();
        self.journal.add(TestCall::ReadBlock(tag.block));
        self.reads = self.reads.saturating_add(1);
        if self.failing == Failing::Read(self.reads) {
            self.read_faults.raise();
            return Err(Failed);
        }
        if let Some(kept) = self.pages.get(tag.block as usize) {
            page.copy_from(kept);
        }
        Ok(())
    }

    fn write(&mut self, tag: Tag, page: &Page) -> Result<(), Failed> {
        self.history.count_call();
        self.history.mark_written(tag);
        self.journal.add(TestCall::WriteBlock(tag.block));
        self.writes = self.writes.saturating_add(1);
        if self.failing == Failing::Write(self.writes) {
            self.write_faults.raise();
            return Err(Failed);
        }
        if let Some(kept) = self.pages.get_mut(tag.block as usize) {
            kept.copy_from(page);
        }
        Ok(())
    }

    fn sync(&mut self) -> Result<(), Failed> {
        self.history.count_call();
        self.journal.add(TestCall::SyncLane);
        self.syncs = self.syncs.saturating_add(1);
        if self.failing == Failing::Sync(self.syncs) {
            self.write_faults.raise();
            return Err(Failed);
        }
        self.history.mark_synced();
        Ok(())
    }

    ghost read_faults_fit = { λ l. l.read_faults.fits };

    ghost write_faults_fit = { λ l. l.write_faults.fits };

    ghost whole = { λ _. tt };

    ghost has_room = { λ _. tt };
}

/// A log that has what was appended, whose contents contracts don't know.
#[derive(Drop)]
pub struct ByteLog {
    pub bytes: Vec<u8>,
    pub journal: Journal,
    failing: Failing,
    appends: u32,
    syncs: u32,
    faults: FaultCount,
    history: CallCount,
}

impl ByteLog {
    pub fn new(alloc: Global, failing: Failing, journal: Journal) -> ByteLog {
        ByteLog {
            bytes: Vec::new(alloc),
            journal,
            failing,
            appends: 0,
            syncs: 0,
            faults: FaultCount::new(),
            history: CallCount::new(),
        }
    }
}

impl LogDevice for ByteLog {
    ghost use Rattle.std.specs.Prelude.{None};
    ghost use Rattle.byte_devices.specs.Calls.{calls_counted};

    ghost bytes = { λ _. None };

    ghost synced = { λ _. 0 };

    ghost faults = { λ l. l.faults.count };

    ghost calls = { λ l. calls_counted l.history };

    fn append(&mut self, piece: &[u8]) -> Result<(), Failed> {
        self.history.raise();
        self.journal.add(TestCall::Append);
        self.appends = self.appends.saturating_add(1);
        let fails = self.failing == Failing::Write(self.appends);
        if fails || self.bytes.extend_from_slice(piece).is_err() {
            self.faults.raise();
            return Err(Failed);
        }
        Ok(())
    }

    fn sync(&mut self) -> Result<(), Failed> {
        self.history.raise();
        self.journal.add(TestCall::SyncLog);
        self.syncs = self.syncs.saturating_add(1);
        if self.failing == Failing::Sync(self.syncs) {
            self.faults.raise();
            return Err(Failed);
        }
        Ok(())
    }

    ghost faults_fit = { λ l. l.faults.fits };

    ghost synced_within = { λ _. tt };
}

/// The calls of devices, in the order in which they were made.
pub fn calls_of(
    lanes: &[PageLane],
    log: &ByteLog,
    alloc: Global,
) -> Result<Vec<TestCall>, AllocError> {
    let mut calls = Vec::new(alloc);
    calls.extend_from_slice(&log.journal.calls)?;
    for lane in lanes {
        calls.extend_from_slice(&lane.journal.calls)?;
    }
    in_order(calls, alloc)
}
