//! The blocks that a table holds, and its lanes.
ghost use Rattle.std.specs.Prelude.{◌≡◌, ◌<◌, ◌≤◌, true};
ghost use Rattle.block_tag.specs.Catalogue.{blocks_at};
ghost use Rattle.block_tag.specs.Names.{names_block};
ghost use Rattle.table_rule.specs.Blocks.{has_block};
ghost use Rattle.frame_table.specs.Seats.{lanes_in, relations_of};

use crate::table::FrameTable;
use block_tag::Tag;
use byte_devices::LogDevice;
use segment_store::BlockLane;

impl<L: BlockLane, G: LogDevice> FrameTable<L, G> {
    /// How many lanes it has: 1 to 16.
    pub fn lanes(&self) -> u32
        ensures lanes { result ≡ lanes_in self.now }
        ensures some { (1 ≤ result) × (result ≤ 16) }
    {
        self.config.lanes
    }

    /// How many blocks the fork of a tag's relation has. Each block below names one that the table
    /// holds.
    pub fn blocks(&self, tag: &Tag) -> u32
        ensures count { result ≡ blocks_at (relations_of self.now) tag.now.rel.0 tag.now.fork }
        ensures block { tag.now.block < result → (names_block tag.now ≡ true)
            × (has_block (relations_of self.now) tag.now ≡ true) }
    {
        let _few = self.catalog.len();
        self.catalog.blocks(tag.rel, tag.fork)
    }
}
