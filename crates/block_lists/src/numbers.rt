//! The numbers by which a list names a block.
ghost use Rattle.std.specs.Prelude.{◌≡◌, ◌≤◌};
ghost use Rattle.block_lists.specs.Lists.{AreBlockNumbers, numbers_of};

use block_tag::{RelEntry, Tag};

/// The numbers of a block: its tablespace, its database, its relation, its fork, and its own.
pub type BlockNumbers = [u32; 5];

/// The numbers of a tag's block, for the tag's relation.
pub fn numbers_of(relation: RelEntry, tag: Tag) -> BlockNumbers
    ensures numbers { result ≡ numbers_of relation tag }
    ensures good { tag.block ≤ 4294967294 → AreBlockNumbers result }
{
    [
        relation.tablespace,
        relation.database,
        relation.relation,
        tag.fork.number(),
        tag.block,
    ]
}
