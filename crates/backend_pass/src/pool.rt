//! What a manager tells of its pool and of its relations.
ghost use Rattle.std.specs.Prelude.{◌≡◌, ◌<◌, ℕ, true};
ghost use Rattle.block_tag.specs.Catalogue.{blocks_at};
ghost use Rattle.block_tag.specs.Names.{names_block, tag_of_parts};
ghost use Rattle.frame_table.specs.Seats.{frames_of, lanes_in, relations_of};

use crate::manager::Manager;
use block_tag::{Catalog, Fork, RelNo, Tag};
use byte_devices::LogDevice;
use segment_store::BlockLane;

impl<L: BlockLane, G: LogDevice> Manager<L, G> {
    /// How many frames the pool has (`NBuffers`).
    pub fn frames(&self) -> u32
        ensures { result ≡ frames_of self.now.table }
    {
        self.table.frames()
    }

    /// How many lanes it has.
    pub fn lanes(&self) -> u32
        ensures { result ≡ lanes_in self.now.table }
    {
        self.table.lanes()
    }

    /// The relations whose blocks it holds.
    pub fn catalog(&self) -> &Catalog
        ensures { result.now ≡ relations_of self.now.table }
    {
        self.table.catalog()
    }

    /// How many blocks a fork of a relation has (`RelationGetNumberOfBlocksInFork`), none if the
    /// catalogue lacks the relation.
    pub fn blocks(&self, rel: RelNo, fork: Fork) -> u32
        ensures count { result ≡ blocks_at (relations_of self.now.table) rel.0 fork }
        ensures named { (block : ℕ) → block < result
            → names_block (tag_of_parts rel.0 fork block) ≡ true }
    {
        self.table.blocks(&Tag {
            rel,
            fork,
            block: 0,
        })
    }
}
