//! How a relation in memory grows: room for segments, new pages in them, and how far lanes' blocks
//! go.
//!
//! Only a recovery writes past a relation's end, so the relation grows only if a source is given
//! back with the lanes; otherwise a block past the end is dropped. New pages stand from the old end
//! up to the last block that a lane has. `give_back` has no allocator and can't refuse, so a file
//! in memory takes the memory for all it may have when it is made (`MemFile::with_space`).
ghost use Rattle.std.specs.Prelude.{◌≡◌, ◌+◌, ◌*◌, ◌++◌, ◌≤◌, All, IfOk, OnOk, Some, drop, length};
ghost use Rattle.std.specs.Prelude.{map, replicate, take, vec_capacity, vec_len};
ghost use Rattle.segment_store.specs.Growth.{last_held, new_page_at};
ghost use Rattle.segment_store.specs.MemoryHost.{bytes_of};
ghost use Rattle.segment_store.specs.MemoryLane.{pages_of};
ghost use Rattle.segment_store.specs.Relation.{relation_of};

use crate::memory_lane::MemLane;
use crate::restore::page_in;
use block_tag::{Fork, RelNo, Tag};
use page_layout::PAGE_SIZE;
use std::alloc::{AllocError, Global};

/// Makes room for this many blocks in each segment.
pub fn reserve_blocks(segments: &mut [Vec<u8>], blocks: u32) -> Result<(), AllocError>
    ensures bytes { OnOk result (bytes_of segments.new ≡ bytes_of segments.old) }
    ensures room { OnOk result (
        All (λ segment. 8192 * blocks ≤ vec_capacity segment) segments.new) }
{
    for index in 0..segments.len() {
        segments[index].reserve(PAGE_SIZE * blocks as usize)?;
    }
    Ok(())
}

/// `count` empty segments, each with room for `blocks` blocks.
pub fn empty_segments(alloc: Global, count: usize, blocks: u32) -> Result<Vec<Vec<u8>>, AllocError>
    ensures count { IfOk result (λ spare. vec_len spare ≡ count) }
    ensures room { IfOk result (λ spare.
        All (λ segment. 8192 * blocks ≤ vec_capacity segment) spare.items) }
    ensures empty { IfOk result (λ spare. All (λ segment. vec_len segment ≡ 0) spare.items) }
{
    let mut spare = Vec::new(alloc);
    for _made in 0..count {
        let segment = Vec::with_capacity(alloc, PAGE_SIZE * blocks as usize)?;
        spare.push(segment)?;
    }
    Ok(spare)
}

/// Makes the block at a place of a file's bytes a new page.
fn put_zeros(bytes: &mut [u8], place: usize)
    requires { 8192 * place + 8192 ≤ length bytes.old }
    ensures { bytes.new ≡ take (8192 * place) bytes.old
        ++ (replicate 8192 0 ++ drop (8192 * place + 8192) bytes.old) }
{
    let start = PAGE_SIZE * place;
    bytes[start..start + PAGE_SIZE].copy_from_slice(&[0; PAGE_SIZE]);
}

/// Makes the block at a place of a segment a new page; a shorter segment is filled up with zeros.
pub fn put_new_page(segment: &mut Vec<u8>, place: usize)
    requires { 8192 * place + 8192 ≤ vec_capacity segment.old }
    ensures bytes { segment.new.items ≡ new_page_at place segment.old.items }
    ensures capacity { vec_capacity segment.old ≤ vec_capacity segment.new }
{
    let start = PAGE_SIZE * place;
    let end = start + PAGE_SIZE;
    if segment.len() < end {
        segment.truncate(start);
        let _filled = segment.resize(end, 0);
        return;
    }
    put_zeros(segment.as_mut_slice(), place);
}

/// How many blocks the relation of these segments has.
pub fn count_blocks(segments: &[Vec<u8>], seg_blocks: u32) -> u32
    ensures { result ≡ length (relation_of seg_blocks (bytes_of segments.now)) }
{
    let mut count = 0u32;
    let mut rest = segments;
    while let [segment, others @ ..] = rest {
        let whole = (segment.len() / PAGE_SIZE).min(seg_blocks as usize) as u32;
        count = count.saturating_add(whole);
        if whole < seg_blocks {
            return count;
        }
        rest = others;
    }
    count
}

/// One more than the last of the first `room` blocks that its lane has.
pub fn last_held(lanes: &[MemLane], fork: Fork, room: u32) -> u32
    ensures { result ≡ last_held fork (map (λ lane. Some (pages_of lane)) lanes.now) room }
{
    let mut end = room;
    while end > 0 {
        let tag = Tag {
            rel: RelNo(0),
            fork,
            block: end - 1,
        };
        if let Some(_page) = page_in(lanes, &tag) {
            return end;
        }
        end -= 1;
    }
    0
}
