//! A lane that keeps its pages, for tests.
use crate::log_bytes::torn_page;
use block_tag::Tag;
use byte_devices::{Failed, FaultCount};
use page_layout::Page;
use segment_store::{BlockLane, LaneHistory};
use std::alloc::{AllocError, Global};
use std::collections::BTreeMap;

/// Which write of a lane fails, and which sync, counted from 1; none if this is 0.
#[derive(Clone, Copy)]
pub struct Failing {
    pub write: u32,
    pub sync: u32,
}

/// A lane that keeps each page that it is given, whose contents contracts don't know.
#[derive(Drop)]
pub struct KeptLane {
    alloc: Global,
    pages: BTreeMap<Tag, Page>,
    failing: Failing,
    writes: u32,
    syncs: u32,
    read_faults: FaultCount,
    write_faults: FaultCount,
    history: LaneHistory,
}

impl KeptLane {
    /// A lane without blocks.
    pub fn new(alloc: Global, failing: Failing) -> KeptLane {
        KeptLane {
            alloc,
            pages: BTreeMap::new(alloc),
            failing,
            writes: 0,
            syncs: 0,
            read_faults: FaultCount::new(),
            write_faults: FaultCount::new(),
            history: LaneHistory::new(),
        }
    }

    /// The page of a block, if the lane has it.
    pub fn page(&self, tag: &Tag) -> Option<&Page> {
        self.pages.get(tag)
    }

    /// How many blocks the lane has.
    pub fn blocks(&self) -> usize {
        self.pages.len()
    }

    /// Takes a block in, with a copy of the page.
    pub fn hold(&mut self, tag: Tag, page: &Page) -> Result<(), AllocError> {
        keep_page(self.alloc, &mut self.pages, tag, page)
    }
}

/// Puts a copy of the page to the pages, or into the place of the block's.
fn keep_page(
    alloc: Global,
    pages: &mut BTreeMap<Tag, Page>,
    tag: Tag,
    page: &Page,
) -> Result<(), AllocError> {
    let mut copy = Page::zeroed(alloc)?;
    copy.copy_from(page);
    pages.insert(tag, copy)?;
    Ok(())
}

/// Puts the first half of the page there, if the block is one of these, as a write does that was
/// cut off.
fn tear_page(pages: &mut BTreeMap<Tag, Page>, tag: &Tag, page: &Page) {
    if let Some(kept) = pages.get_mut(tag) {
        let bytes = torn_page(page.bytes(), kept.bytes());
        kept.fill(&bytes);
    }
}

impl BlockLane for KeptLane {
    ghost use Rattle.std.specs.Prelude.{None, false};
    ghost use Rattle.segment_store.specs.History.{calls_in, unsynced_in};

    ghost contents = { λ _. None };

    ghost failed_writes = { λ _ _. false };

    ghost unsynced = { λ l. unsynced_in l.history };

    ghost room = { λ _ _. false };

    ghost read_faults = { λ l. l.read_faults.count };

    ghost write_faults = { λ l. l.write_faults.count };

    ghost calls = { λ l. calls_in l.history };

    fn read(&mut self, tag: Tag, page: &mut Page) -> Result<(), Failed> {
        self.history.count_call();
        let Some(kept) = self.pages.get(&tag) else {
            self.read_faults.raise();
            return Err(Failed);
        };
        page.copy_from(kept);
        Ok(())
    }

    fn write(&mut self, tag: Tag, page: &Page) -> Result<(), Failed> {
        self.history.count_call();
        self.history.mark_written(tag);
        self.writes = self.writes.saturating_add(1);
        if self.writes == self.failing.write {
            tear_page(&mut self.pages, &tag, page);
            self.write_faults.raise();
            return Err(Failed);
        }
        if keep_page(self.alloc, &mut self.pages, tag, page).is_err() {
            self.write_faults.raise();
            return Err(Failed);
        }
        Ok(())
    }

    fn sync(&mut self) -> Result<(), Failed> {
        self.history.count_call();
        self.syncs = self.syncs.saturating_add(1);
        if self.syncs == self.failing.sync {
            self.write_faults.raise();
            return Err(Failed);
        }
        self.history.mark_synced();
        Ok(())
    }

    ghost read_faults_fit = { λ l. l.read_faults.fits };

    ghost write_faults_fit = { λ l. l.write_faults.fits };

    ghost whole = { λ _. tt };

    ghost has_room = { λ _. tt };
}
