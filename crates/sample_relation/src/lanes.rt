//! A sample's relation in lanes.
ghost use Rattle.std.specs.Prelude.{◌≡◌, ◌+◌, ◌<◌, ◌^◌, All, IfOk, OnOk, length, map};
ghost use Rattle.block_tag.specs.declared.tag.Fork.TheVariants.{Main};
ghost use Rattle.segment_store.specs.Contents.{no_marks};
ghost use Rattle.segment_store.specs.Lanes.{HoldPages};
ghost use Rattle.sample_relation.specs.Relations.{sample_relation};

use crate::lane::SampleLane;
use crate::sample_page;
use block_tag::{Fork, RelNo, Tag, lane_of};
use page_layout::{Memory, Page};
use segment_store::BlockLane;
use std::alloc::Global;

/// So many lanes without blocks.
fn empty_lanes(alloc: Global, count: u32) -> Result<Vec<SampleLane>, Memory>
    ensures count { IfOk result (λ made. length made.items ≡ count) }
    ensures synced { IfOk result (λ made.
        All (λ lane. ⟦<SampleLane as BlockLane>⟧.unsynced lane ≡ no_marks) made.items) }
    ensures calls { IfOk result (λ made.
        All (λ lane. ⟦<SampleLane as BlockLane>⟧.calls lane ≡ 0) made.items) }
    ensures faults { IfOk result (λ made.
        All (λ lane. ⟦<SampleLane as BlockLane>⟧.write_faults lane ≡ 0) made.items) }
{
    let mut made = Vec::new(alloc);
    for _ in 0..count {
        made.push(SampleLane::new(alloc))?;
    }
    Ok(made)
}

/// Makes the page of the next block, and puts the block into its lane.
fn add_block(
    alloc: Global,
    seed: u32,
    block: u32,
    page: &mut Page,
    lanes: &mut [SampleLane],
) -> Result<(), Memory>
    requires some { 0 < length lanes.old }
    requires few { length lanes.old < 2 ^ 32 }
    requires held { HoldPages Main (sample_relation seed block)
        (map ⟦<SampleLane as BlockLane>⟧.contents lanes.old) }
    requires synced { All (λ lane. ⟦<SampleLane as BlockLane>⟧.unsynced lane ≡ no_marks) lanes.old }
    requires calls { All (λ lane. ⟦<SampleLane as BlockLane>⟧.calls lane ≡ 0) lanes.old }
    requires faults { All (λ lane. ⟦<SampleLane as BlockLane>⟧.write_faults lane ≡ 0) lanes.old }
    ensures held { OnOk result (HoldPages Main (sample_relation seed (block + 1))
        (map ⟦<SampleLane as BlockLane>⟧.contents lanes.new)) }
    ensures synced { All (λ lane. ⟦<SampleLane as BlockLane>⟧.unsynced lane ≡ no_marks) lanes.new }
    ensures calls { All (λ lane. ⟦<SampleLane as BlockLane>⟧.calls lane ≡ 0) lanes.new }
    ensures faults { All (λ lane. ⟦<SampleLane as BlockLane>⟧.write_faults lane ≡ 0) lanes.new }
{
    sample_page(alloc, seed, block, page)?;
    let tag = Tag {
        rel: RelNo(0),
        fork: Fork::Main,
        block,
    };
    let number = lane_of(&tag, lanes.len() as u32);
    lanes[number as usize].hold(alloc, tag, page)
}

/// Makes the first blocks of the relation with this seed, each in its own lane. Out of memory is
/// its only error.
pub fn sample_lanes(
    alloc: Global,
    seed: u32,
    blocks: u32,
    lanes: u32,
) -> Result<Vec<SampleLane>, Memory>
    requires some { 0 < lanes }
    ensures count { IfOk result (λ made. length made.items ≡ lanes) }
    ensures held { IfOk result (λ made. HoldPages Main (sample_relation seed blocks)
        (map ⟦<SampleLane as BlockLane>⟧.contents made.items)) }
    ensures synced { IfOk result (λ made.
        All (λ lane. ⟦<SampleLane as BlockLane>⟧.unsynced lane ≡ no_marks) made.items) }
    ensures calls { IfOk result (λ made.
        All (λ lane. ⟦<SampleLane as BlockLane>⟧.calls lane ≡ 0) made.items) }
    ensures faults { IfOk result (λ made.
        All (λ lane. ⟦<SampleLane as BlockLane>⟧.write_faults lane ≡ 0) made.items) }
{
    let mut made = empty_lanes(alloc, lanes)?;
    let mut page = Page::zeroed(alloc)?;
    for block in 0..blocks {
        add_block(alloc, seed, block, &mut page, &mut made)?;
    }
    Ok(made)
}
