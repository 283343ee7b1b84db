//! A lane for tests.
use crate::pages::{one_item, unsound};
use block_tag::Tag;
use byte_devices::{Failed, FaultCount};
use page_layout::{Lsn, Page};
use segment_store::{BlockLane, LaneHistory};

/// The pages that a lane gives.
#[derive(Clone, Copy)]
enum Given {
    /// What it is asked to fill stays as it is.
    Untouched,
    /// A page with one item, whose first byte is the block's number, at this log position. The page
    /// of the block `unsound` isn't sound.
    Numbered { unsound: Option<u32>, lsn: Lsn },
}

/// A lane whose contents contracts don't know. It counts its reads and writes, and one of its
/// writes may fail. It keeps no page that it was given.
#[derive(Drop)]
pub struct TestLane {
    pub reads: u32,
    pub writes: u32,
    given: Given,
    /// Which write fails, counted from 1; none if this is 0.
    failing: u32,
    faults: FaultCount,
    history: LaneHistory,
}

impl TestLane {
    fn giving(given: Given, failing: u32) -> TestLane {
        TestLane {
            reads: 0,
            writes: 0,
            given,
            failing,
            faults: FaultCount::new(),
            history: LaneHistory::new(),
        }
    }

    /// A lane that fills no page.
    pub fn new(failing: u32) -> TestLane {
        TestLane::giving(Given::Untouched, failing)
    }

    /// A lane whose pages tell their blocks' numbers. The page of the block `unsound` isn't sound.
    pub fn numbered(unsound: Option<u32>) -> TestLane {
        TestLane::giving(Given::Numbered { unsound, lsn: 0 }, 0)
    }

    /// A lane whose pages have this log position, too.
    pub fn positioned(lsn: Lsn) -> TestLane {
        TestLane::giving(Given::Numbered { unsound: None, lsn }, 0)
    }
}

impl BlockLane for TestLane {
    ghost use Rattle.std.specs.Prelude.{None, false};
    ghost use Rattle.segment_store.specs.History.{calls_in, unsynced_in};
    ghost use Rattle.std.proofs.Common.{rules};
    ghost use Prim.{search};

    ghost contents = { λ _. None };

    ghost failed_writes = { λ _ _. false };

    ghost unsynced = { λ l. unsynced_in l.history };

    ghost room = { λ _ _. false };

    ghost read_faults = { λ _. 0 };

    ghost write_faults = { λ l. l.faults.count };

    ghost calls = { λ l. calls_in l.history };

    fn read(&mut self, tag: Tag, page: &mut Page) -> Result<(), Failed> {
        self.history.count_call();
        self.reads = self.reads.saturating_add(1);
        let Given::Numbered {
            unsound: other,
            lsn,
        } = self.given
        else {
            return Ok(());
        };
        if other == Some(tag.block) {
            page.fill(&unsound());
        } else {
            page.fill(&one_item((tag.block % 256) as u8));
            page.set_lsn(lsn);
        }
        Ok(())
    }

    fn write(&mut self, tag: Tag, _page: &Page) -> Result<(), Failed> {
        self.history.count_call();
        self.history.mark_written(tag);
        self.writes = self.writes.saturating_add(1);
        if self.writes == self.failing {
            self.faults.raise();
            return Err(Failed);
        }
        Ok(())
    }

    fn sync(&mut self) -> Result<(), Failed> {
        self.history.count_call();
        self.history.mark_synced();
        Ok(())
    }

    ghost read_faults_fit = { λ _. search rules };

    ghost write_faults_fit = { λ l. l.faults.fits };

    ghost whole = { λ _. tt };

    ghost has_room = { λ _. tt };
}
