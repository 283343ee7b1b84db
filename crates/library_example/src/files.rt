//! Two relations, whose blocks lie in two lanes.
ghost use Rattle.std.specs.Prelude.{◌≡◌, IfOk, OnOk, length, map};
ghost use Rattle.block_tag.specs.Catalogue.{blocks_at};
ghost use Rattle.block_tag.specs.declared.tag.Fork.TheVariants.{Main};
ghost use Rattle.block_tag.specs.Names.{tag_of_parts};
ghost use Rattle.block_tag.specs.declared.tag.Tag.{Tag};
ghost use Rattle.segment_store.specs.Lanes.{HoldTheirs};
ghost use Rattle.table_rule.specs.Shows.{AreLanes, devices};
ghost use Rattle.library_example.specs.Files.{HasBlock, HasBlocks, HasOnlyOwn, IsOldLane};
ghost use Rattle.library_example.specs.Files.{relations};

use crate::counters::page_from;
use block_tag::{Catalog, CatalogError, Fork, RelEntry, RelNo, Tag, lane_of};
use byte_devices::{LogDevice, MemLog};
use page_layout::Page;
use segment_store::{BlockLane, LanePlan, MemLane};
use std::alloc::{AllocError, Global};

/// How many lanes there are.
pub const LANES: u32 = 2;

/// Relation 0 has 12 blocks, and relation 1 has 6: more than the pool has frames.
pub fn catalog(alloc: Global) -> Result<Catalog, CatalogError>
    ensures { IfOk result (λ catalog. catalog ≡ relations) }
{
    let first = RelEntry {
        tablespace: 1663,
        database: 5,
        relation: 16384,
        blocks: [12, 0, 0, 0],
    };
    let second = RelEntry {
        relation: 16385,
        blocks: [6, 0, 0, 0],
        ..first
    };
    Catalog::build(alloc, &[first, second])
}

/// A block of a relation's main fork.
pub fn block(rel: RelNo, number: u32) -> Tag
    ensures { result ≡ tag_of_parts rel.0 Main number }
{
    Tag {
        rel,
        fork: Fork::Main,
        block: number,
    }
}

/// Puts the blocks of a relation into a lane, those that are its own.
fn lay_out(
    alloc: Global,
    catalog: &Catalog,
    rel: RelNo,
    number: u32,
    lane: &mut MemLane,
) -> Result<(), AllocError>
    requires only { HasOnlyOwn number lane.old }
    ensures only { OnOk result (HasOnlyOwn number lane.new) }
    ensures kept { OnOk result ((tag : Tag) → HasBlock lane.old tag → HasBlock lane.new tag) }
    ensures laid { OnOk result
        (HasBlocks lane.new number rel.0 (blocks_at catalog.now rel.0 Main)) }
{
    for at in 0..catalog.blocks(rel, Fork::Main) {
        let tag = block(rel, at);
        if lane_of(&tag, LANES) == number {
            let page = page_from(alloc, u64::from(at) * 100)?;
            lane.hold(alloc, tag, &page)?;
        }
    }
    Ok(())
}

/// The lane of a number, with its blocks. None of its calls is to fail.
fn old_lane(alloc: Global, catalog: &Catalog, number: u32) -> Result<MemLane, AllocError>
    requires { catalog.now ≡ relations }
    ensures { IfOk result (IsOldLane number) }
{
    let mut lane = MemLane::new(alloc, LanePlan::none(alloc));
    lay_out(alloc, catalog, RelNo(0), number, &mut lane)?;
    lay_out(alloc, catalog, RelNo(1), number, &mut lane)?;
    Ok(lane)
}

/// The old files: both lanes, with all blocks. They are what `Manager::start` and `recover` ask
/// for.
pub fn old_lanes(alloc: Global, catalog: &Catalog) -> Result<Vec<MemLane>, AllocError>
    requires { catalog.now ≡ relations }
    ensures complete { IfOk result (λ lanes. AreLanes
        (devices ⟦<MemLane as BlockLane>⟧ ⟦<MemLog as LogDevice>⟧) relations lanes.items) }
    ensures placed { IfOk result (λ lanes. HoldTheirs
        (map ⟦<MemLane as BlockLane>⟧.contents lanes.items)) }
    ensures count { IfOk result (λ lanes. length lanes.items ≡ 2) }
{
    let mut lanes = Vec::new(alloc);
    lanes.push(old_lane(alloc, catalog, 0)?)?;
    lanes.push(old_lane(alloc, catalog, 1)?)?;
    Ok(lanes)
}

/// The page of a block in its lane.
pub fn page_in<'a>(lanes: &'a [MemLane], tag: &Tag) -> Option<&'a Page> {
    lanes.get(lane_of(tag, LANES) as usize)?.page(tag)
}
