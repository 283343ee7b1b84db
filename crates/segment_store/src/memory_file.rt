//! A relation's file in memory.
ghost use Rattle.std.specs.Prelude.{◌≡◌, ◌+◌, ◌*◌, ◌≤◌, All, vec_capacity, vec_len};

use crate::growth::{count_blocks, empty_segments, last_held, put_new_page, reserve_blocks};
use crate::memory_lane::MemLane;
use crate::restore::give_blocks_back;
use block_tag::Fork;
use std::alloc::{AllocError, Global};

/// A relation's path and the bytes of its segments, with room for more of them.
#[derive(Drop)]
pub struct MemFile {
    pub(crate) path: String,
    pub(crate) segments: Vec<Vec<u8>>,
    /// The lanes that were given back last, which know the blocks whose last write failed.
    returned: Vec<MemLane>,
    /// Empty segments, which come after the others as the relation grows.
    spare: Vec<Vec<u8>>,
    /// How many segments the relation may have.
    count: u32,
    /// How many blocks each segment has room for.
    blocks: u32,
    ghost roomy: { All (λ segment. 8192 * blocks ≤ vec_capacity segment) segments.items },
    ghost spare_roomy: { All (λ segment. 8192 * blocks ≤ vec_capacity segment) spare.items },
    ghost spare_empty: { All (λ segment. vec_len segment ≡ 0) spare.items },
    ghost enough: { count ≤ vec_len segments + vec_len spare },
    ghost held: { vec_len segments + vec_len spare ≤ vec_capacity segments },
}

impl MemFile {
    ghost use Rattle.std.specs.Prelude.{◌-◌, ◌<◌, [], IfOk, Some, drop, get_or, map};
    ghost use Rattle.std.specs.Prelude.{string_bytes, take};
    ghost use Rattle.segment_store.specs.Growth.{extended, grown, with_new_page};
    ghost use Rattle.segment_store.specs.MemoryFile.{IsSameFile, file_room};
    ghost use Rattle.segment_store.specs.MemoryHost.{bytes_of};
    ghost use Rattle.segment_store.specs.MemoryLane.{pages_of};
    ghost use Rattle.segment_store.specs.Restored.{given_back};

    /// A file whose relation can't grow.
    pub fn new(alloc: Global, path: String, segments: Vec<Vec<u8>>) -> MemFile
        ensures path { string_bytes result.path ≡ string_bytes path }
        ensures segments { result.segments.items ≡ segments.items }
        ensures returned { result.returned.items ≡ [] }
        ensures count { result.count ≡ 0 }
    {
        MemFile {
            path,
            segments,
            returned: Vec::new(alloc),
            spare: Vec::new(alloc),
            count: 0,
            blocks: 0,
        }
    }

    /// A file whose relation may have `count` segments, each with `blocks` blocks.
    pub fn with_space(
        alloc: Global,
        path: String,
        mut segments: Vec<Vec<u8>>,
        count: u32,
        blocks: u32,
    ) -> Result<MemFile, AllocError>
        ensures path { IfOk result (λ file. string_bytes file.path ≡ string_bytes path) }
        ensures segments { IfOk result (λ file.
            bytes_of file.segments.items ≡ bytes_of segments.items) }
        ensures returned { IfOk result (λ file. file.returned.items ≡ []) }
        ensures count { IfOk result (λ file. file.count ≡ count) }
        ensures blocks { IfOk result (λ file. file.blocks ≡ blocks) }
    {
        let more = (count as usize).saturating_sub(segments.len());
        let spare = empty_segments(alloc, more, blocks)?;
        reserve_blocks(segments.as_mut_slice(), blocks)?;
        segments.reserve(more)?;
        Ok(MemFile {
            path,
            segments,
            returned: Vec::new(alloc),
            spare,
            count,
            blocks,
        })
    }

    /// How many blocks the relation may have, with up to `seg_blocks` in each segment.
    pub fn room(&self, seg_blocks: u32) -> u32
        ensures { result ≡ file_room self.now seg_blocks }
    {
        if self.blocks < seg_blocks {
            return 0;
        }
        seg_blocks.saturating_mul(self.count)
    }

    /// Makes the segment of this number, empty, if it isn't there.
    fn make_segment(&mut self, index: usize)
        requires few { index < self.old.count }
        requires next { index ≤ vec_len self.old.segments }
        ensures there { index < vec_len self.new.segments }
        ensures before { take index (bytes_of self.new.segments.items)
            ≡ take index (bytes_of self.old.segments.items) }
        ensures at { get_or (bytes_of self.new.segments.items) index []
            ≡ get_or (bytes_of self.old.segments.items) index [] }
        ensures behind { drop (index + 1) (bytes_of self.new.segments.items)
            ≡ drop (index + 1) (bytes_of self.old.segments.items) }
        ensures same { IsSameFile self.old self.new }
    {
        if index < self.segments.len() {
            return;
        }
        if let Some(segment) = self.spare.pop() {
            let _added = self.segments.push(segment);
        }
    }

    /// Makes a block a new page.
    fn add_page(&mut self, seg_blocks: u32, block: u32)
        requires room { block < file_room self.old seg_blocks }
        requires next { block ≤ seg_blocks * vec_len self.old.segments }
        ensures segments { bytes_of self.new.segments.items
            ≡ with_new_page seg_blocks block (bytes_of self.old.segments.items) }
        ensures there { block < seg_blocks * vec_len self.new.segments }
        ensures same { IsSameFile self.old self.new }
    {
        let index = (block / seg_blocks) as usize;
        self.make_segment(index);
        put_new_page(&mut self.segments[index], (block % seg_blocks) as usize);
    }

    /// Makes the blocks from one on up to another new pages.
    fn extend(&mut self, seg_blocks: u32, from: u32, upto: u32)
        requires room { upto ≤ file_room self.old seg_blocks }
        requires next { from ≤ seg_blocks * vec_len self.old.segments }
        ensures segments { bytes_of self.new.segments.items
            ≡ extended seg_blocks from (upto - from) (bytes_of self.old.segments.items) }
        ensures same { IsSameFile self.old self.new }
    {
        for block in from..upto {
            self.add_page(seg_blocks, block);
        }
    }

    /// Makes the blocks from the relation's end up to the last that its lane has new pages.
    pub(crate) fn grow(&mut self, seg_blocks: u32, fork: Fork, lanes: &[MemLane])
        ensures segments { bytes_of self.new.segments.items
            ≡ grown fork seg_blocks (file_room self.old seg_blocks)
            (map (λ lane. Some (pages_of lane)) lanes.now) (bytes_of self.old.segments.items) }
        ensures same { IsSameFile self.old self.new }
    {
        let blocks = count_blocks(&self.segments, seg_blocks);
        let end = last_held(lanes, fork, self.room(seg_blocks));
        self.extend(seg_blocks, blocks, end);
    }

    /// Forgets the lanes that were given back last.
    pub(crate) fn forget(&mut self)
        ensures returned { self.new.returned.items ≡ [] }
        ensures segments { self.new.segments ≡ self.old.segments }
        ensures path { self.new.path ≡ self.old.path }
        ensures count { self.new.count ≡ self.old.count }
        ensures blocks { self.new.blocks ≡ self.old.blocks }
    {
        self.returned.clear();
    }

    /// Puts the blocks of lanes at their places in the segments, and keeps the lanes.
    pub(crate) fn take_back(&mut self, seg_blocks: u32, fork: Fork, lanes: Vec<MemLane>)
        ensures segments { bytes_of self.new.segments.items
            ≡ given_back fork seg_blocks (map (λ lane. Some (pages_of lane)) lanes.items)
            (bytes_of self.old.segments.items) }
        ensures returned { self.new.returned ≡ lanes }
        ensures path { self.new.path ≡ self.old.path }
        ensures count { self.new.count ≡ self.old.count }
        ensures blocks { self.new.blocks ≡ self.old.blocks }
    {
        give_blocks_back(self.segments.as_mut_slice(), seg_blocks, fork, &lanes);
        self.returned = lanes;
    }
}
