//! A lane whose reads are counted, and of which one may fail.
use block_tag::Tag;
use byte_devices::{Failed, FaultCount};
use page_layout::Page;
use segment_store::{BlockLane, LaneHistory};
use test_devices::one_item;

/// A lane whose contents contracts don't know: each page has one item, whose first byte is the
/// block's number. It keeps no page that it was given.
#[derive(Drop)]
pub struct ReadLane {
    pub reads: u32,
    /// The block whose page isn't sound, if any.
    unsound: Option<u32>,
    /// Which read fails, counted from 1; none if this is 0.
    failing: u32,
    faults: FaultCount,
    history: LaneHistory,
}

impl ReadLane {
    pub fn new(unsound: Option<u32>, failing: u32) -> ReadLane {
        ReadLane {
            reads: 0,
            unsound,
            failing,
            faults: FaultCount::new(),
            history: LaneHistory::new(),
        }
    }
}

impl BlockLane for ReadLane {
    ghost use Rattle.std.specs.Prelude.{None, false};
    ghost use Rattle.segment_store.specs.History.{calls_in, unsynced_in};
    ghost use Rattle.std.proofs.Common.{rules};
    ghost use Prim.{search};

    ghost contents = { λ _. None };

    ghost failed_writes = { λ _ _. false };

    ghost unsynced = { λ l. unsynced_in l.history };

    ghost room = { λ _ _. false };

    ghost read_faults = { λ l. l.faults.count };

    ghost write_faults = { λ _. 0 };

    ghost calls = { λ l. calls_in l.history };

    fn read(&mut self, tag: Tag, page: &mut Page) -> Result<(), Failed> {
        self.history.count_call();
        self.reads = self.reads.saturating_add(1);
        if self.reads == self.failing {
            self.faults.raise();
            return Err(Failed);
        }
        let mut bytes = one_item((tag.block % 256) as u8);
        if self.unsound == Some(tag.block) {
            // A flag that no page has.
            bytes[10] = 8;
        }
        page.fill(&bytes);
        Ok(())
    }

    fn write(&mut self, tag: Tag, _page: &Page) -> Result<(), Failed> {
        self.history.count_call();
        self.history.mark_written(tag);
        Ok(())
    }

    fn sync(&mut self) -> Result<(), Failed> {
        self.history.count_call();
        self.history.mark_synced();
        Ok(())
    }

    ghost read_faults_fit = { λ l. l.faults.fits };

    ghost write_faults_fit = { λ _. search rules };

    ghost whole = { λ _. tt };

    ghost has_room = { λ _. tt };
}
