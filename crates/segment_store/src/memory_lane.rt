//! A lane in memory.
ghost use Rattle.std.specs.Prelude.{[], IsSome, MatchResult, option_map, ◌≡◌, ◌+◌, Some};
ghost use Rattle.std.specs.Prelude.{IfOk, OnOk, OnErr, is_ok, not, ◌&&◌, true, false};
ghost use Rattle.std.specs.Option.{ForSome};
ghost use Rattle.byte_devices.specs.Faults.{CountsOne, HasCause};
ghost use Rattle.segment_store.specs.Contents.{AfterWrite, no_marks, no_pages, with_mark};
ghost use Rattle.segment_store.specs.Contents.{with_page};
ghost use Rattle.segment_store.specs.MemoryLane.{calls_of, fresh_lane_plan, marks_of, pages_of};
ghost use Rattle.segment_store.specs.MemoryLane.{plan_of, room_of, there_has_room, torn_page};
ghost use Rattle.segment_store.specs.MemoryLane.{unsynced_of, whole_page};
ghost use Rattle.byte_devices.specs.Plan.{after_call, fails_next};
ghost use Rattle.std.specs.BTreeMap as tree;
ghost use Rattle.block_tag.specs.contracts.tag.TagOrd.TheImpl as tags;

use crate::device::BlockLane;
use crate::history::LaneHistory;
use crate::memory_block::MemBlock;
use block_tag::Tag;
use byte_devices::{Failed, FaultCount, FaultPlan};
use page_layout::Page;
use std::alloc::{AllocError, Global};
use std::collections::BTreeMap;

/// The calls of a lane that are to fail.
#[derive(Drop)]
pub struct LanePlan {
    pub reads: FaultPlan,
    pub writes: FaultPlan,
    pub syncs: FaultPlan,
}

impl LanePlan {
    /// A plan in which no call is to fail.
    pub fn none(alloc: Global) -> LanePlan
        ensures reads { result.reads ≡ record { calls = 0; failing = [] } }
        ensures writes { result.writes ≡ record { calls = 0; failing = [] } }
        ensures syncs { result.syncs ≡ record { calls = 0; failing = [] } }
    {
        LanePlan {
            reads: FaultPlan::new(Vec::new(alloc)),
            writes: FaultPlan::new(Vec::new(alloc)),
            syncs: FaultPlan::new(Vec::new(alloc)),
        }
    }

    /// A plan of the same calls to fail, with no call made.
    pub fn fresh(&self, alloc: Global) -> Result<LanePlan, AllocError>
        ensures { IfOk result (λ plan. plan ≡ fresh_lane_plan self.now) }
    {
        Ok(LanePlan {
            reads: self.reads.fresh(alloc)?,
            writes: self.writes.fresh(alloc)?,
            syncs: self.syncs.fresh(alloc)?,
        })
    }
}

/// A lane in memory, with places for blocks, of which some may be vacant.
/// It takes all its memory before it is used, so a write allocates nothing. No read, write or sync
/// changes which blocks it has room for.
#[derive(Drop)]
pub struct MemLane {
    blocks: BTreeMap<Tag, MemBlock>,
    plan: LanePlan,
    read_faults: FaultCount,
    write_faults: FaultCount,
    history: LaneHistory,
}

impl MemLane {
    /// A lane without blocks.
    pub fn new(alloc: Global, plan: LanePlan) -> MemLane
        ensures pages { pages_of result ≡ no_pages }
        ensures failed { marks_of result ≡ no_marks }
        ensures room { room_of result ≡ no_marks }
        ensures plan { plan_of result ≡ plan }
        ensures reads { result.read_faults.count ≡ 0 }
        ensures writes { result.write_faults.count ≡ 0 }
        ensures unsynced { unsynced_of result ≡ no_marks }
        ensures calls { calls_of result ≡ 0 }
    {
        MemLane {
            blocks: BTreeMap::new(alloc),
            plan,
            read_faults: FaultCount::new(),
            write_faults: FaultCount::new(),
            history: LaneHistory::new(),
        }
    }

    /// The page of a tag, if the lane has it.
    pub fn page(&self, tag: &Tag) -> Option<&Page>
        ensures { option_map (λ page. page.now) result ≡ pages_of self.now tag.now }
    {
        let block = self.blocks.get(tag)?;
        if block.there { Some(&block.page) } else { None }
    }

    /// How many reads failed.
    pub fn read_faults(&self) -> u64
        ensures { result ≡ ⟦<MemLane as BlockLane>⟧.read_faults self.now }
    {
        self.read_faults.get()
    }

    /// How many writes and syncs failed.
    pub fn write_faults(&self) -> u64
        ensures { result ≡ ⟦<MemLane as BlockLane>⟧.write_faults self.now }
    {
        self.write_faults.get()
    }

    /// Takes a block in, with a copy of the page.
    pub fn hold(&mut self, alloc: Global, tag: Tag, page: &Page) -> Result<(), AllocError>
        ensures pages { OnOk result (pages_of self.new
            ≡ with_page tag page.now (pages_of self.old)) }
        ensures failed { OnOk result (marks_of self.new ≡ with_mark tag false (marks_of self.old)) }
        ensures room { MatchResult result (λ _. room_of self.new
            ≡ with_mark tag true (room_of self.old)) (λ _. room_of self.new ≡ room_of self.old) }
        ensures refused { OnErr result ((pages_of self.new ≡ pages_of self.old)
            × (marks_of self.new ≡ marks_of self.old)) }
        ensures plan { plan_of self.new ≡ plan_of self.old }
        ensures reads { self.new.read_faults ≡ self.old.read_faults }
        ensures writes { self.new.write_faults ≡ self.old.write_faults }
        ensures history { self.new.history ≡ self.old.history }
    {
        let mut copy = Page::zeroed(alloc)?;
        copy.fill(page.bytes());
        let block = MemBlock {
            page: copy,
            failed: false,
            there: true,
        };
        self.blocks.insert(tag, block)?;
        Ok(())
    }

    /// Makes room for a block, so that a write may add it.
    pub fn reserve(&mut self, alloc: Global, tag: Tag) -> Result<(), AllocError>
        ensures room { MatchResult result (λ _. room_of self.new
            ≡ with_mark tag true (room_of self.old)) (λ _. room_of self.new ≡ room_of self.old) }
        ensures pages { pages_of self.new ≡ pages_of self.old }
        ensures failed { marks_of self.new ≡ marks_of self.old }
        ensures plan { plan_of self.new ≡ plan_of self.old }
        ensures reads { self.new.read_faults ≡ self.old.read_faults }
        ensures writes { self.new.write_faults ≡ self.old.write_faults }
        ensures history { self.new.history ≡ self.old.history }
    {
        if self.blocks.get(&tag).is_some() {
            return Ok(());
        }
        let block = MemBlock {
            page: Page::zeroed(alloc)?,
            failed: false,
            there: false,
        };
        self.blocks.insert(tag, block)?;
        Ok(())
    }
}

impl BlockLane for MemLane {
    ghost contents = { λ l. Some (pages_of l) };

    ghost failed_writes = { λ l. marks_of l };

    ghost unsynced = { λ l. unsynced_of l };

    ghost room = { λ l. room_of l };

    ghost read_faults = { λ l. l.read_faults.count };

    ghost write_faults = { λ l. l.write_faults.count };

    ghost calls = { λ l. calls_of l };

    /// Fails if the plan says so.
    fn read(&mut self, tag: Tag, page: &mut Page) -> Result<(), Failed>
        requires { ForSome (Some (pages_of self.old)) (λ pages. IsSome (pages tag)) }
        ensures page { OnOk result (pages_of self.old tag ≡ Some page.new) }
        ensures contents { pages_of self.new ≡ pages_of self.old }
        ensures failed { marks_of self.new ≡ marks_of self.old }
        ensures unsynced { unsynced_of self.new ≡ unsynced_of self.old }
        ensures room { room_of self.new ≡ room_of self.old }
        ensures reads { HasCause self.old.read_faults.count self.new.read_faults.count result }
        ensures counted { CountsOne self.old.read_faults.count self.new.read_faults.count result }
        ensures writes { self.new.write_faults ≡ self.old.write_faults }
        ensures calls { calls_of self.new ≡ calls_of self.old + 1 }
        ensures answer { is_ok result ≡ not (fails_next (plan_of self.old).reads) }
        ensures plan { plan_of self.new ≡ record (plan_of self.old)
            { reads = after_call (plan_of self.old).reads } }
    {
        self.history.count_call();
        let fails = self.plan.reads.fails();
        if !fails {
            if let Some(held) = self.page(&tag) {
                page.copy_from(held);
                return Ok(());
            }
        }
        self.read_faults.raise();
        Err(Failed)
    }

    /// Fails if the plan says so, or if there is no room for the block; a failed write leaves a
    /// torn page of a block that is there.
    fn write(&mut self, tag: Tag, page: &Page) -> Result<(), Failed>
        ensures written { AfterWrite tag page.now (Some (pages_of self.old)) (marks_of self.old)
            (Some (pages_of self.new)) (marks_of self.new) result }
        ensures torn { OnErr result (pages_of self.new tag
            ≡ option_map (λ old. torn_page old page.now) (pages_of self.old tag)) }
        ensures unsynced { unsynced_of self.new ≡ with_mark tag true (unsynced_of self.old) }
        ensures room { room_of self.new ≡ room_of self.old }
        ensures writes { HasCause self.old.write_faults.count self.new.write_faults.count result }
        ensures counted { CountsOne self.old.write_faults.count self.new.write_faults.count result }
        ensures reads { self.new.read_faults ≡ self.old.read_faults }
        ensures calls { calls_of self.new ≡ calls_of self.old + 1 }
        ensures answer { is_ok result ≡ (not (fails_next (plan_of self.old).writes)
            && room_of self.old tag) }
        ensures plan { plan_of self.new ≡ record (plan_of self.old)
            { writes = after_call (plan_of self.old).writes } }
    {
        self.history.count_call();
        self.history.mark_written(tag);
        let fails = self.plan.writes.fails();
        if fails && self.page(&tag).is_none() {
            self.write_faults.raise();
            return Err(Failed);
        }
        let Some(block) = self.blocks.get_mut(&tag) else {
            self.write_faults.raise();
            return Err(Failed);
        };
        if fails {
            block.tear(page);
            self.write_faults.raise();
            return Err(Failed);
        }
        block.take(page);
        Ok(())
    }

    /// Fails if the plan says so.
    fn sync(&mut self) -> Result<(), Failed>
        ensures contents { pages_of self.new ≡ pages_of self.old }
        ensures failed { marks_of self.new ≡ marks_of self.old }
        ensures unsynced { MatchResult result (λ _. unsynced_of self.new ≡ no_marks)
            (λ _. unsynced_of self.new ≡ unsynced_of self.old) }
        ensures room { room_of self.new ≡ room_of self.old }
        ensures writes { HasCause self.old.write_faults.count self.new.write_faults.count result }
        ensures counted { CountsOne self.old.write_faults.count self.new.write_faults.count result }
        ensures reads { self.new.read_faults ≡ self.old.read_faults }
        ensures calls { calls_of self.new ≡ calls_of self.old + 1 }
        ensures answer { is_ok result ≡ not (fails_next (plan_of self.old).syncs) }
        ensures plan { plan_of self.new ≡ record (plan_of self.old)
            { syncs = after_call (plan_of self.old).syncs } }
    {
        self.history.count_call();
        if self.plan.syncs.fails() {
            self.write_faults.raise();
            return Err(Failed);
        }
        self.history.mark_synced();
        Ok(())
    }

    ghost read_faults_fit = { λ l. l.read_faults.fits };

    ghost write_faults_fit = { λ l. l.write_faults.fits };

    ghost whole = { λ l tag. whole_page (tree.get tags.ghosts.cmp l.blocks tag) };

    ghost has_room = { λ l tag. there_has_room (tree.get tags.ghosts.cmp l.blocks tag) };
}
