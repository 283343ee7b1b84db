//! The blocks that a job works on.
ghost use Rattle.std.specs.Prelude.{◌≡◌};
ghost use Rattle.page_jobs.specs.JobBlocks.{AreThere, HasPlace, count_in, tag_in};

use backend_pass::Manager;
use block_tag::{Fork, RelNo, Tag};
use byte_devices::LogDevice;
use segment_store::BlockLane;

/// The blocks of a fork.
#[derive(Clone, Copy)]
pub(crate) struct ForkBlocks {
    pub(crate) rel: RelNo,
    pub(crate) fork: Fork,
}

/// The blocks that a job works on, in order: each has a place among them, from 0 on.
#[derive(Clone, Copy)]
pub(crate) enum JobBlocks<'a> {
    /// Those of a fork.
    Fork(ForkBlocks),
    /// Those of a list.
    Tags(&'a [Tag]),
}

impl JobBlocks<'_> {
    /// How many they are.
    pub(crate) fn count<L: BlockLane, G: LogDevice>(&self, manager: &Manager<L, G>) -> u32
        requires there { AreThere manager.now self.now }
        ensures count { result ≡ count_in manager.now self.now }
    {
        match self {
            JobBlocks::Fork(blocks) => manager.blocks(blocks.rel, blocks.fork),
            JobBlocks::Tags(tags) => tags.len() as u32,
        }
    }

    /// The tag of the block at this place.
    pub(crate) fn tag(&self, place: u32) -> Tag
        requires place { HasPlace self.now place }
        ensures { result ≡ tag_in self.now place }
    {
        match self {
            JobBlocks::Fork(blocks) => Tag {
                rel: blocks.rel,
                fork: blocks.fork,
                block: place,
            },
            JobBlocks::Tags(tags) => tags[place as usize],
        }
    }
}
