//! A lane of a sample's relation.
ghost use Rattle.std.specs.Prelude.{◌≡◌, []};
ghost use Rattle.segment_store.specs.MemoryLane.{plan_of};

use block_tag::Tag;
use byte_devices::Failed;
use page_layout::{Memory, Page};
use segment_store::{BlockLane, LanePlan, MemLane};
use std::alloc::Global;

/// A lane in memory of which no call fails but the write of a block that it lacks.
#[derive(Drop)]
pub struct SampleLane {
    lane: MemLane,
    ghost reads: { (plan_of lane).reads.failing ≡ [] },
    ghost writes: { (plan_of lane).writes.failing ≡ [] },
    ghost syncs: { (plan_of lane).syncs.failing ≡ [] },
}

impl SampleLane {
    ghost use Rattle.std.specs.Prelude.{OnOk, option_map};
    ghost use Rattle.segment_store.specs.Contents.{no_marks, no_pages, with_page};
    ghost use Rattle.segment_store.specs.MemoryLane.{calls_of, pages_of, unsynced_of};

    /// A lane without blocks.
    pub(crate) fn new(alloc: Global) -> SampleLane
        ensures pages { pages_of result.lane ≡ no_pages }
        ensures unsynced { unsynced_of result.lane ≡ no_marks }
        ensures calls { calls_of result.lane ≡ 0 }
        ensures faults { result.lane.write_faults.count ≡ 0 }
    {
        SampleLane {
            lane: MemLane::new(alloc, LanePlan::none(alloc)),
        }
    }

    /// The page of a tag, if the lane has it.
    pub fn page(&self, tag: &Tag) -> Option<&Page>
        ensures { option_map (λ page. page.now) result ≡ pages_of self.now.lane tag.now }
    {
        self.lane.page(tag)
    }

    /// Takes a block in, with a copy of the page. Out of memory is its only error.
    pub(crate) fn hold(&mut self, alloc: Global, tag: Tag, page: &Page) -> Result<(), Memory>
        ensures pages { OnOk result (pages_of self.new.lane
            ≡ with_page tag page.now (pages_of self.old.lane)) }
        ensures unsynced { unsynced_of self.new.lane ≡ unsynced_of self.old.lane }
        ensures calls { calls_of self.new.lane ≡ calls_of self.old.lane }
        ensures faults { self.new.lane.write_faults ≡ self.old.lane.write_faults }
    {
        self.lane.hold(alloc, tag, page)
    }
}

impl BlockLane for SampleLane {
    ghost use Rattle.std.specs.Prelude.{Some};
    ghost use Rattle.std.proofs.Common.{rules};
    ghost use Rattle.segment_store.specs.Contents.{no_marks};
    ghost use Rattle.segment_store.specs.MemoryLane.{calls_of, pages_of, room_of, there_has_room};
    ghost use Rattle.segment_store.specs.MemoryLane.{unsynced_of, whole_page};
    ghost use Rattle.std.specs.BTreeMap as tree;
    ghost use Rattle.block_tag.specs.contracts.tag.TagOrd.TheImpl as tags;
    ghost use Prim.{search};

    ghost contents = { λ s. Some (pages_of s.lane) };

    ghost failed_writes = { λ _. no_marks };

    ghost unsynced = { λ s. unsynced_of s.lane };

    ghost room = { λ s. room_of s.lane };

    ghost read_faults = { λ _. 0 };

    ghost write_faults = { λ s. s.lane.write_faults.count };

    ghost calls = { λ s. calls_of s.lane };

    fn read(&mut self, tag: Tag, page: &mut Page) -> Result<(), Failed> {
        self.lane.read(tag, page)
    }

    fn write(&mut self, tag: Tag, page: &Page) -> Result<(), Failed> {
        self.lane.write(tag, page)
    }

    fn sync(&mut self) -> Result<(), Failed> {
        self.lane.sync()
    }

    ghost read_faults_fit = { λ _. search rules };

    ghost write_faults_fit = { λ s. s.lane.write_faults.fits };

    ghost whole = { λ s tag. whole_page (tree.get tags.ghosts.cmp s.lane.blocks tag) };

    ghost has_room = { λ s tag. there_has_room (tree.get tags.ghosts.cmp s.lane.blocks tag) };
}
