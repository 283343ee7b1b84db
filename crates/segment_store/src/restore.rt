//! The blocks of lanes in memory, put back into the segments that they came from.
ghost use Rattle.std.specs.Prelude.{◌≡◌, ◌+◌, ◌*◌, ◌<◌, ◌≤◌, ◌^◌, Some, length, map, option_map};
ghost use Rattle.std.specs.Prelude.{vec_capacity};
ghost use Rattle.segment_store.specs.Lanes.{page_in};
ghost use Rattle.segment_store.specs.MemoryHost.{bytes_of};
ghost use Rattle.segment_store.specs.MemoryLane.{pages_of};
ghost use Rattle.segment_store.specs.Relation.{first_blocks};
ghost use Rattle.segment_store.specs.Restored.{given_back, pages_in, with_pages};

use crate::memory_lane::MemLane;
use block_tag::{Fork, RelNo, Tag};
use page_layout::{PAGE_SIZE, Page};

/// The page of a tag in its lane, if it is there.
pub fn page_in<'a>(lanes: &'a [MemLane], tag: &Tag) -> Option<&'a Page>
    ensures { option_map (λ page. page.now) result ≡ page_in
        (map (λ lane. Some (pages_of lane)) lanes.now) tag.now }
{
    if lanes.is_empty() {
        return None;
    }
    let number = tag.hash() % lanes.len() as u64;
    lanes[number as usize].page(tag)
}

/// Puts `count` blocks of a segment, from the block `first` on, as their lanes have them.
fn put_blocks(bytes: &mut [u8], first: u32, count: u32, fork: Fork, lanes: &[MemLane])
    requires whole { 8192 * count ≤ length bytes.old }
    requires numbers { first + count < 2 ^ 32 }
    ensures { bytes.new ≡ with_pages (pages_in fork (map (λ lane. Some (pages_of lane)) lanes.now)
        first (first_blocks bytes.old count)) bytes.old }
{
    for place in 0..count {
        let tag = Tag {
            rel: RelNo(0),
            fork,
            block: first + place,
        };
        if let Some(page) = page_in(lanes, &tag) {
            let start = PAGE_SIZE * place as usize;
            bytes[start..start + PAGE_SIZE].copy_from_slice(page.bytes());
        }
    }
}

/// Puts the blocks of a relation that its lanes have back at their places in its segments.
#[tactic(auto, unfolding(crate::specs::Relation::relation_of, crate::specs::Restored::given_back))]
pub fn give_blocks_back(segments: &mut [Vec<u8>], seg_blocks: u32, fork: Fork, lanes: &[MemLane])
    ensures bytes { bytes_of segments.new ≡ given_back fork seg_blocks
        (map (λ lane. Some (pages_of lane)) lanes.now) (bytes_of segments.old) }
    ensures capacities { map (λ segment. vec_capacity segment) segments.new
        ≡ map (λ segment. vec_capacity segment) segments.old }
{
    let mut first = 0u32;
    for index in 0..segments.len() {
        let segment = &mut segments[index];
        let whole = segment.len() / PAGE_SIZE;
        let left = u32::MAX - first;
        let count = whole.min(seg_blocks as usize).min(left as usize) as u32;
        put_blocks(segment.as_mut_slice(), first, count, fork, lanes);
        first += count;
        if count < seg_blocks {
            return;
        }
    }
}
