//! A host in memory.
ghost use Rattle.std.specs.Option.{option_map_or};
ghost use Rattle.std.proofs.Common.{refl};
ghost use Rattle.std.specs.Prelude.{option_map, true, ◌↔◌, MatchResult, string_bytes, ◌≡◌, ◌≢◌};
ghost use Rattle.std.specs.Prelude.{◌+◌, ◌++◌, ◌==◌, ◌<◌, ◌≤◌, ◌*◌, ◌/◌, ◌^◌, ◌-◌, [], All, Some};
ghost use Rattle.std.specs.Prelude.{None, IfOk, IfSome, IsErrOf, OnOk, if◌then◌else◌, length, map};
ghost use Rattle.std.specs.Prelude.{max, sum_by, vec_len};
ghost use Rattle.byte_devices.specs.Faults.{Added};
ghost use Rattle.segment_store.specs.Faults.{CountsOneOpening, HasOpeningCause};
ghost use Rattle.segment_store.specs.Contents.{no_marks, with_mark, with_page};
ghost use Rattle.segment_store.specs.Growth.{paths_given, paths_grown, room_given};
ghost use Rattle.segment_store.specs.Lanes.{dealt, own_pages, own_room, rooms_dealt};
ghost use Rattle.segment_store.specs.Logs.{CountsOneLogOpening, HasLogCause, IsOpenedLog};
ghost use Rattle.segment_store.specs.Logs.{IsOpenedSource, empty_log, logs_after, with_log};
ghost use Rattle.segment_store.specs.MemoryFile.{room_at};
ghost use Rattle.segment_store.specs.MemoryHost.{bytes_of, lanes_of, marks_at, open_now};
ghost use Rattle.segment_store.specs.MemoryHost.{openings_of, segments_at};
ghost use Rattle.segment_store.specs.MemoryLane.{fresh_lane_plan, marks_of, pages_of, plan_of};
ghost use Rattle.segment_store.specs.MemoryLane.{room_of as lane_room, unsynced_of};
ghost use Rattle.segment_store.specs.MemoryLog.{logs_at, opened_path};
ghost use Rattle.byte_devices.specs.MemoryLog.{appends_of, as_stored, room_of, syncs_of};
ghost use Rattle.byte_devices.specs.MemorySource.{left_of};
ghost use Rattle.byte_devices.specs.Plan.{after_call, fails_next, fresh_plan};
ghost use Rattle.segment_store.specs.Relation.{block_at, segment_pages, first_blocks, relation_of};
ghost use Rattle.segment_store.specs.Opening.{IsOpened};
ghost use Rattle.segment_store.specs.Paths.{fork_of};
ghost use Rattle.segment_store.specs.Restored.{cleared, marks_after, paths_after};
ghost use Rattle.block_tag.specs.Names.{lane_number};
ghost use Rattle.std.specs.List.{position};
ghost use Rattle.std.specs.Str.{bytes_eq};

use crate::device::BlockLane;
use crate::host::{Host, HostError, LogOpen, Opened};
use crate::memory_file::MemFile;
use crate::memory_lane::{LanePlan, MemLane};
use crate::memory_logs::MemLogs;
use crate::paths::fork_of_path;
use block_tag::{Fork, RelNo, Tag, lane_of};
use byte_devices::{FaultCount, FaultPlan, LogDevice, MemLog, MemSource};
use page_layout::{PAGE_SIZE, Page};
use std::alloc::{AllocError, Global};

/// The place of the first file with a path.
fn file_at(files: &[MemFile], path: &str) -> Option<usize>
    ensures { result ≡ position (λ file. bytes_eq (string_bytes file.path) path.now) files.now }
{
    files.iter().position(|file| file.path.as_str() == path)
}

/// The page at a place of a file's bytes.
#[tactic(auto, unfolding(crate::specs::Relation::block_at))]
fn page_at(alloc: Global, bytes: &[u8], place: usize) -> Result<Page, AllocError>
    requires { 8192 * place + 8192 ≤ length bytes.now }
    ensures { IfOk result (λ page. page ≡ block_at bytes.now place) }
{
    let mut page = Page::zeroed(alloc)?;
    let start = PAGE_SIZE * place;
    page.fill(&bytes[start..start + PAGE_SIZE]);
    Ok(page)
}

/// Adds the first blocks of a file.
fn add_blocks(
    alloc: Global,
    bytes: &[u8],
    count: usize,
    pages: &mut Vec<Page>,
) -> Result<(), AllocError>
    requires { 8192 * count ≤ length bytes.now }
    ensures { OnOk result (pages.new.items ≡ pages.old.items ++ first_blocks bytes.now count) }
{
    for place in 0..count {
        let page = page_at(alloc, bytes, place)?;
        pages.push(page)?;
    }
    Ok(())
}

/// The pages of all blocks that the segments have, up to the first that has fewer than it may have.
fn all_pages(alloc: Global, segments: &[Vec<u8>], seg_blocks: u32) -> Result<Vec<Page>, AllocError>
    ensures { IfOk result (λ pages.
        pages.items ≡ segment_pages seg_blocks (bytes_of segments.now)) }
{
    let mut pages = Vec::new(alloc);
    let mut rest = segments;
    while let [segment, others @ ..] = rest {
        let count = segment.len() / PAGE_SIZE;
        if count < seg_blocks as usize {
            add_blocks(alloc, segment, count, &mut pages)?;
            return Ok(pages);
        }
        add_blocks(alloc, segment, seg_blocks as usize, &mut pages)?;
        rest = others;
    }
    Ok(pages)
}

/// The pages of a relation.
#[tactic(auto, unfolding(crate::specs::Relation::relation_of))]
fn relation_pages(
    alloc: Global,
    segments: &[Vec<u8>],
    seg_blocks: u32,
) -> Result<Vec<Page>, AllocError>
    ensures pages { IfOk result (λ pages.
        pages.items ≡ relation_of seg_blocks (bytes_of segments.now)) }
    ensures few { IfOk result (λ pages. vec_len pages < 2 ^ 32) }
{
    let mut pages = all_pages(alloc, segments, seg_blocks)?;
    pages.truncate(0xFFFF_FFFF);
    Ok(pages)
}

/// Takes a block into the lane of this number, if it is that lane's own.
fn hold_own(
    alloc: Global,
    lane: &mut MemLane,
    tag: Tag,
    page: &Page,
    lanes: u32,
    number: u32,
) -> Result<(), AllocError>
    requires some { 1 ≤ lanes }
    requires unmarked { marks_of lane.old ≡ no_marks }
    ensures pages { OnOk result (pages_of lane.new ≡ (if lane_number tag lanes == number
        then with_page tag page.now (pages_of lane.old) else pages_of lane.old)) }
    ensures failed { OnOk result (marks_of lane.new ≡ no_marks) }
    ensures room { OnOk result (lane_room lane.new
        ≡ (if lane_number tag lanes == number then with_mark tag true (lane_room lane.old)
        else lane_room lane.old)) }
    ensures reads { lane.new.read_faults ≡ lane.old.read_faults }
    ensures writes { lane.new.write_faults ≡ lane.old.write_faults }
    ensures plan { plan_of lane.new ≡ plan_of lane.old }
    ensures history { lane.new.history ≡ lane.old.history }
{
    if lane_of(&tag, lanes) != number {
        return Ok(());
    }
    lane.hold(alloc, tag, page)?;
    Ok(())
}

/// Makes room for a block in the lane of this number, if it is that lane's own.
fn reserve_own(
    alloc: Global,
    lane: &mut MemLane,
    tag: Tag,
    lanes: u32,
    number: u32,
) -> Result<(), AllocError>
    requires { 1 ≤ lanes }
    ensures room { OnOk result (lane_room lane.new
        ≡ (if lane_number tag lanes == number then with_mark tag true (lane_room lane.old)
        else lane_room lane.old)) }
    ensures pages { pages_of lane.new ≡ pages_of lane.old }
    ensures failed { marks_of lane.new ≡ marks_of lane.old }
    ensures reads { lane.new.read_faults ≡ lane.old.read_faults }
    ensures writes { lane.new.write_faults ≡ lane.old.write_faults }
    ensures plan { plan_of lane.new ≡ plan_of lane.old }
    ensures history { lane.new.history ≡ lane.old.history }
{
    if lane_of(&tag, lanes) != number {
        return Ok(());
    }
    lane.reserve(alloc, tag)
}

/// Makes room in the lane of this number for its own blocks from one on up to another.
fn reserve_past(
    alloc: Global,
    lane: &mut MemLane,
    fork: Fork,
    from: u32,
    upto: u32,
    lanes: u32,
    number: u32,
) -> Result<(), AllocError>
    requires lanes { 1 ≤ lanes }
    requires from { from ≤ upto }
    requires room { lane_room lane.old ≡ own_room fork from lanes number }
    ensures room { OnOk result (lane_room lane.new ≡ own_room fork upto lanes number) }
    ensures pages { pages_of lane.new ≡ pages_of lane.old }
    ensures failed { marks_of lane.new ≡ marks_of lane.old }
    ensures reads { lane.new.read_faults ≡ lane.old.read_faults }
    ensures writes { lane.new.write_faults ≡ lane.old.write_faults }
    ensures plan { plan_of lane.new ≡ plan_of lane.old }
    ensures history { lane.new.history ≡ lane.old.history }
{
    for block in from..upto {
        let tag = Tag {
            rel: RelNo(0),
            fork,
            block,
        };
        reserve_own(alloc, lane, tag, lanes, number)?;
    }
    Ok(())
}

/// The lane of this number, with its own blocks of a relation, and with room for its own of the
/// first `room` blocks.
fn own_lane(
    alloc: Global,
    pages: &[Page],
    room: u32,
    fork: Fork,
    lanes: u32,
    number: u32,
    plan: LanePlan,
) -> Result<MemLane, AllocError>
    requires lanes { 1 ≤ lanes }
    requires blocks { length pages.now ≤ room }
    ensures pages { IfOk result (λ lane. pages_of lane ≡ own_pages fork pages.now lanes number) }
    ensures room { IfOk result (λ lane. lane_room lane ≡ own_room fork room lanes number) }
    ensures failed { IfOk result (λ lane. marks_of lane ≡ no_marks) }
    ensures reads { IfOk result (λ lane. lane.read_faults.count ≡ 0) }
    ensures writes { IfOk result (λ lane. lane.write_faults.count ≡ 0) }
    ensures plan { IfOk result (λ lane. plan_of lane ≡ plan) }
    ensures synced { IfOk result (λ lane. unsynced_of lane ≡ no_marks) }
{
    let mut lane = MemLane::new(alloc, plan);
    for block in 0..pages.len() {
        let tag = Tag {
            rel: RelNo(0),
            fork,
            block: block as u32,
        };
        hold_own(alloc, &mut lane, tag, &pages[block], lanes, number)?;
    }
    let held = pages.len() as u32;
    reserve_past(alloc, &mut lane, fork, held, room, lanes, number)?;
    Ok(lane)
}

/// `count` lanes, each with its own blocks of a relation, and with room for its own of the first
/// `room` blocks.
fn deal_lanes(
    alloc: Global,
    pages: &[Page],
    room: u32,
    fork: Fork,
    count: u32,
    plan: &LanePlan,
) -> Result<Vec<MemLane>, AllocError>
    requires lanes { 1 ≤ count }
    requires blocks { length pages.now ≤ room }
    ensures rooms { IfOk result (λ lanes. map lane_room lanes.items ≡ rooms_dealt fork room count) }
    ensures contents { IfOk result (λ lanes. map (λ lane. Some (pages_of lane)) lanes.items
        ≡ dealt fork pages.now count) }
    ensures failed { IfOk result (λ lanes. All (λ lane. marks_of lane ≡ no_marks) lanes.items) }
    ensures reads { IfOk result (λ lanes. sum_by (λ lane. lane.read_faults.count) lanes.items ≡ 0) }
    ensures writes { IfOk result (λ lanes.
        sum_by (λ lane. lane.write_faults.count) lanes.items ≡ 0) }
    ensures plan { IfOk result (λ lanes.
        All (λ lane. plan_of lane ≡ fresh_lane_plan plan.now) lanes.items) }
    ensures synced { IfOk result (λ lanes. All (λ lane. unsynced_of lane ≡ no_marks) lanes.items) }
{
    let mut lanes = Vec::new(alloc);
    for number in 0..count {
        let own = plan.fresh(alloc)?;
        let lane = own_lane(alloc, pages, room, fork, count, number, own)?;
        lanes.push(lane)?;
    }
    Ok(lanes)
}

/// Opens segments as lanes, with room for the blocks past the end that the relation may have.
fn open_segments(
    alloc: Global,
    segments: &[Vec<u8>],
    room: u32,
    fork: Fork,
    seg_blocks: u32,
    count: u32,
    plan: &LanePlan,
) -> Result<Opened<MemLane>, AllocError>
    requires { 1 ≤ count }
    ensures rooms { IfOk result (λ opened.
        map lane_room opened.lanes.items ≡ rooms_dealt fork (max room opened.blocks) count) }
    ensures blocks { IfOk result (λ opened. opened.blocks
        ≡ length (relation_of seg_blocks (bytes_of segments.now))) }
    ensures contents { IfOk result (λ opened. map (λ lane. Some (pages_of lane)) opened.lanes.items
        ≡ dealt fork (relation_of seg_blocks (bytes_of segments.now)) count) }
    ensures failed { IfOk result (λ opened.
        All (λ lane. marks_of lane ≡ no_marks) opened.lanes.items) }
    ensures reads { IfOk result (λ opened.
        sum_by (λ lane. lane.read_faults.count) opened.lanes.items ≡ 0) }
    ensures writes { IfOk result (λ opened.
        sum_by (λ lane. lane.write_faults.count) opened.lanes.items ≡ 0) }
    ensures plan { IfOk result (λ opened.
        All (λ lane. plan_of lane ≡ fresh_lane_plan plan.now) opened.lanes.items) }
    ensures synced { IfOk result (λ opened.
        All (λ lane. unsynced_of lane ≡ no_marks) opened.lanes.items) }
{
    let pages = relation_pages(alloc, segments, seg_blocks)?;
    let blocks = pages.len() as u32;
    let lanes = deal_lanes(alloc, &pages, room.max(blocks), fork, count, plan)?;
    Ok(Opened { blocks, lanes })
}

/// Counts the failed reads of lanes too.
fn count_reads(faults: &mut FaultCount, lanes: &[MemLane])
    ensures { Added faults.old.count (sum_by (λ lane. lane.read_faults.count) lanes.now)
        faults.new.count }
{
    for lane in lanes {
        faults.add(lane.read_faults());
    }
}

/// Counts the failed reads of a source too, if there is one.
fn count_source(faults: &mut FaultCount, source: &Option<MemSource>)
    ensures { Added faults.old.count (option_map_or (λ s. s.faults.count) source.now 0)
        faults.new.count }
{
    if let Some(source) = source {
        faults.add(source.faults());
    }
}

/// Counts the failed writes and syncs of lanes too.
fn count_writes(faults: &mut FaultCount, lanes: &[MemLane])
    ensures { Added faults.old.count (sum_by (λ lane. lane.write_faults.count) lanes.now)
        faults.new.count }
{
    for lane in lanes {
        faults.add(lane.write_faults());
    }
}

/// A host in memory.
/// Relations and logs are two maps: the caller has to see that a log's path names no file of a
/// relation. While a log is open, an empty one is at its path.
#[derive(Drop)]
pub struct MemHost {
    files: Vec<MemFile>,
    openings: FaultPlan,
    lanes: LanePlan,
    logs: MemLogs,
    open_path: String,
    open_seg_blocks: u32,
    read_faults: FaultCount,
    write_faults: FaultCount,
}

impl MemHost {
    /// A host with these files and logs, in which these openings and these calls of each lane are
    /// to fail.
    pub fn new(
        alloc: Global,
        files: Vec<MemFile>,
        openings: FaultPlan,
        lanes: LanePlan,
        logs: MemLogs,
    ) -> MemHost
        ensures contents { ⟦<MemHost as Host>⟧.contents result ≡ Some (segments_at files.items) }
        ensures failed { ⟦<MemHost as Host>⟧.failed_writes result ≡ marks_at files.items }
        ensures room { ⟦<MemHost as Host>⟧.room result ≡ room_at files.items }
        ensures openings { openings_of result ≡ openings }
        ensures lanes { lanes_of result ≡ lanes }
        ensures logs { result.logs ≡ logs }
        ensures reads { ⟦<MemHost as Host>⟧.read_faults result ≡ 0 }
        ensures writes { ⟦<MemHost as Host>⟧.write_faults result ≡ 0 }
    {
        MemHost {
            files,
            openings,
            lanes,
            logs,
            open_path: String::new(alloc),
            open_seg_blocks: 0,
            read_faults: FaultCount::new(),
            write_faults: FaultCount::new(),
        }
    }

    /// The segments at a path, none if there is no file.
    pub fn segments(&self, path: &str) -> &[Vec<u8>]
        ensures { IfSome (⟦<MemHost as Host>⟧.contents self.now)
            (λ paths. bytes_of result.now ≡ paths path.now) }
    {
        match file_at(&self.files, path) {
            Some(index) => self.files[index].segments.as_slice(),
            None => &[],
        }
    }

    /// How many blocks the relation at a path may have, with up to `seg_blocks` in each segment.
    fn room(&self, path: &str, seg_blocks: u32) -> u32
        ensures { result ≡ room_at self.now.files.items path.now seg_blocks }
    {
        match file_at(&self.files, path) {
            Some(index) => self.files[index].room(seg_blocks),
            None => 0,
        }
    }

    /// The log at a path, as it was put or given back last: empty if none was since it was opened.
    pub fn stored_log(&self, path: &str) -> Option<&MemLog>
        ensures { IfSome (⟦<MemHost as Host>⟧.logs self.now)
            (λ logs. option_map (λ log. as_stored log.now) result ≡ logs path.now) }
    {
        self.logs.get(path)
    }

    /// How many openings of relations and of sources failed, and reads of lanes and of sources that
    /// were given back.
    pub fn read_faults(&self) -> u64
        ensures { result ≡ ⟦<MemHost as Host>⟧.read_faults self.now }
    {
        self.read_faults.get()
    }

    /// How many writes and syncs failed of lanes that were given back.
    pub fn write_faults(&self) -> u64
        ensures { result ≡ ⟦<MemHost as Host>⟧.write_faults self.now }
    {
        self.write_faults.get()
    }

    /// Opens the relation at a path as lanes.
    fn open(
        &self,
        alloc: Global,
        path: &str,
        seg_blocks: u32,
        lanes: u32,
    ) -> Result<Opened<MemLane>, HostError>
        requires { 1 ≤ lanes }
        ensures opened { IfOk result (IsOpened
            (λ lane. Some (pages_of lane)) marks_of unsynced_of lane_room
            (λ lane. lane.read_faults.count) (λ lane. lane.write_faults.count)
            (Some (segments_at self.now.files.items))
            (room_at self.now.files.items path.now seg_blocks)
            path.now (fork_of path.now) seg_blocks lanes) }
        ensures missing { IsErrOf result HostError.Missing
            → segments_at self.now.files.items path.now ≡ [] }
        ensures alive { IsErrOf result HostError.Failed → ⊥ }
        ensures plan { IfOk result (λ opened.
            All (λ lane. plan_of lane ≡ fresh_lane_plan self.now.lanes) opened.lanes.items) }
        ensures rooms { IfOk result (λ opened. map lane_room opened.lanes.items
            ≡ rooms_dealt (fork_of path.now)
            (max (room_at self.now.files.items path.now seg_blocks) opened.blocks) lanes) }
    {
        let segments = self.segments(path);
        if segments.is_empty() {
            return Err(HostError::Missing);
        }
        let fork = fork_of_path(path);
        let room = self.room(path, seg_blocks);
        match open_segments(alloc, segments, room, fork, seg_blocks, lanes, &self.lanes) {
            Ok(opened) => Ok(opened),
            Err(_) => Err(HostError::Memory),
        }
    }

    /// Forgets what the lanes of a path that were given back had marked.
    fn forget(&mut self, path: &str)
        ensures contents { segments_at self.new.files.items ≡ segments_at self.old.files.items }
        ensures failed { marks_at self.new.files.items
            ≡ cleared path.now (marks_at self.old.files.items) }
        ensures room { room_at self.new.files.items ≡ room_at self.old.files.items }
        ensures same { self.new ≡ record self.old { files = self.new.files } }
    {
        if let Some(index) = file_at(&self.files, path) {
            self.files[index].forget();
        }
    }

    /// Makes the relation that was opened last as long as lanes' blocks go, if a source is given.
    fn grow(&mut self, source: &Option<MemSource>, lanes: &[MemLane])
        ensures contents { segments_at self.new.files.items ≡ paths_grown (open_now self.old)
            (room_given (room_at self.old.files.items) (open_now self.old) source.now)
            (map (λ lane. Some (pages_of lane)) lanes.now) (segments_at self.old.files.items) }
        ensures failed { marks_at self.new.files.items ≡ marks_at self.old.files.items }
        ensures room { room_at self.new.files.items ≡ room_at self.old.files.items }
        ensures same { self.new ≡ record self.old { files = self.new.files } }
    {
        if source.is_none() {
            return;
        }
        let fork = fork_of_path(&self.open_path);
        if let Some(index) = file_at(&self.files, &self.open_path) {
            self.files[index].grow(self.open_seg_blocks, fork, lanes);
        }
    }

    /// Puts the blocks of lanes at their places in the segments of a path, and keeps the lanes.
    fn take_lanes(&mut self, lanes: Vec<MemLane>)
        ensures contents { segments_at self.new.files.items
            ≡ paths_after (open_now self.old) (map (λ lane. Some (pages_of lane)) lanes.items)
            (segments_at self.old.files.items) }
        ensures failed { segments_at self.old.files.items (string_bytes self.old.open_path) ≢ []
            → marks_at self.new.files.items ≡ marks_after (open_now self.old)
            (map marks_of lanes.items) (marks_at self.old.files.items) }
        ensures room { room_at self.new.files.items ≡ room_at self.old.files.items }
        ensures same { self.new ≡ record self.old { files = self.new.files } }
    {
        let fork = fork_of_path(&self.open_path);
        if let Some(index) = file_at(&self.files, &self.open_path) {
            self.files[index].take_back(self.open_seg_blocks, fork, lanes);
        }
    }
}

impl Host for MemHost {
    type Lane = MemLane;

    type Log = MemLog;

    type Source = MemSource;

    ghost contents = { λ h. Some (segments_at h.files.items) };

    ghost failed_writes = { λ h. marks_at h.files.items };

    ghost open_at = { open_now };

    ghost room = { λ h. room_at h.files.items };

    ghost logs = { λ h. Some (logs_at h.logs.files.items) };

    ghost log_at = { λ h. opened_path h.logs };

    ghost read_faults = { λ h. h.read_faults.count };

    ghost write_faults = { λ h. h.write_faults.count };

    ghost log_faults = { λ h. h.logs.faults.count };

    fn relation(
        &mut self,
        alloc: Global,
        path: &str,
        seg_blocks: u32,
        lanes: u32,
    ) -> Result<Opened<MemLane>, HostError>
        requires seg_blocks { 1 ≤ seg_blocks }
        requires lanes { 1 ≤ lanes }
        ensures opened { IfOk result (IsOpened
            (λ lane. Some (pages_of lane)) marks_of unsynced_of lane_room
            (λ lane. lane.read_faults.count) (λ lane. lane.write_faults.count)
            (Some (segments_at self.old.files.items))
            (room_at self.old.files.items path.now seg_blocks)
            path.now (fork_of path.now) seg_blocks lanes) }
        ensures missing { IsErrOf result HostError.Missing
            → segments_at self.old.files.items path.now ≡ [] }
        ensures contents { Some (segments_at self.new.files.items)
            ≡ Some (segments_at self.old.files.items) }
        ensures failed { MatchResult result (λ _. marks_at self.new.files.items
            ≡ cleared path.now (marks_at self.old.files.items))
            (λ _. marks_at self.new.files.items ≡ marks_at self.old.files.items) }
        ensures open_at { MatchResult result (λ _. open_now self.new
            ≡ record { path = path.now; seg_blocks = seg_blocks })
            (λ _. open_now self.new ≡ open_now self.old) }
        ensures room { room_at self.new.files.items ≡ room_at self.old.files.items }
        ensures reads { HasOpeningCause self.old.read_faults.count self.new.read_faults.count
            result }
        ensures counted { CountsOneOpening self.old.read_faults.count self.new.read_faults.count
            result }
        ensures writes { self.new.write_faults ≡ self.old.write_faults }
        ensures logs { self.new.logs ≡ self.old.logs }
        ensures fault { IsErrOf result HostError.Failed
            ↔ (fails_next (openings_of self.old) ≡ true) }
        ensures openings { openings_of self.new ≡ after_call (openings_of self.old) }
        ensures lanes { lanes_of self.new ≡ lanes_of self.old }
        ensures plan { IfOk result (λ opened.
            All (λ lane. plan_of lane ≡ fresh_lane_plan (lanes_of self.old)) opened.lanes.items) }
        ensures rooms { IfOk result (λ opened. map lane_room opened.lanes.items
            ≡ rooms_dealt (fork_of path.now)
            (max (room_at self.old.files.items path.now seg_blocks) opened.blocks) lanes) }
    {
        if self.openings.fails() {
            self.read_faults.raise();
            return Err(HostError::Failed);
        }
        let Ok(open_path) = String::from_str(alloc, path) else {
            return Err(HostError::Memory);
        };
        let opened = self.open(alloc, path, seg_blocks, lanes)?;
        self.open_path = open_path;
        self.open_seg_blocks = seg_blocks;
        self.forget(path);
        Ok(opened)
    }

    /// Fails if the plan says so.
    fn log(&mut self, alloc: Global, path: &str) -> Result<MemLog, LogOpen>
        ensures opened { IfOk result (IsOpenedLog (λ l. Some (as_stored l).bytes)
            (λ l. (as_stored l).synced) (λ l. l.faults.count)
            (Some (logs_at self.old.logs.files.items))) }
        ensures room { IfOk result (λ log. room_of log ≡ self.old.logs.room) }
        ensures appends { IfOk result (λ log. appends_of log
            ≡ fresh_plan self.old.logs.calls.appends) }
        ensures syncs { IfOk result (λ log. syncs_of log ≡ fresh_plan self.old.logs.calls.syncs) }
        ensures logs { MatchResult result (λ _. Some (logs_at self.new.logs.files.items)
            ≡ Some (with_log path.now empty_log (logs_at self.old.logs.files.items)))
            (λ _. Some (logs_at self.new.logs.files.items)
            ≡ Some (logs_at self.old.logs.files.items)) }
        ensures log_at { MatchResult result (λ _. opened_path self.new.logs ≡ path.now)
            (λ _. opened_path self.new.logs ≡ opened_path self.old.logs) }
        ensures fault { IsErrOf result LogOpen.Failed ↔ (fails_next self.old.logs.openings ≡ true) }
        ensures openings { self.new.logs.openings ≡ after_call self.old.logs.openings }
        ensures log_faults { HasLogCause self.old.logs.faults.count self.new.logs.faults.count
            result }
        ensures counted { CountsOneLogOpening self.old.logs.faults.count self.new.logs.faults.count
            result }
        ensures log_room { self.new.logs.room ≡ self.old.logs.room }
        ensures log_calls { self.new.logs.calls ≡ self.old.logs.calls }
        ensures same { self.new ≡ record self.old { logs = self.new.logs } }
    {
        self.logs.open(alloc, path)
    }

    /// Fails if the plan says so.
    fn bytes(&mut self, alloc: Global, path: &str) -> Result<MemSource, HostError>
        ensures opened { IfOk result (IsOpenedSource (λ s. Some (left_of s)) (λ s. s.faults.count)
            (Some (logs_at self.old.logs.files.items)) path.now) }
        ensures calls { IfOk result (λ source. source.calls
            ≡ fresh_plan self.old.logs.sources.calls) }
        ensures most { IfOk result (λ source. source.most ≡ self.old.logs.sources.most) }
        ensures missing { IsErrOf result HostError.Missing
            → logs_at self.old.logs.files.items path.now ≡ None }
        ensures fault { IsErrOf result HostError.Failed
            ↔ (fails_next self.old.logs.sources.openings ≡ true) }
        ensures openings { self.new.logs.sources.openings
            ≡ after_call self.old.logs.sources.openings }
        ensures plan { self.new.logs.sources.calls ≡ self.old.logs.sources.calls }
        ensures most_stays { self.new.logs.sources.most ≡ self.old.logs.sources.most }
        ensures log_files { self.new.logs ≡ record self.old.logs
            { sources = self.new.logs.sources } }
        ensures reads { HasOpeningCause self.old.read_faults.count self.new.read_faults.count
            result }
        ensures counted { CountsOneOpening self.old.read_faults.count self.new.read_faults.count
            result }
        ensures same { self.new ≡ record self.old {
          logs = self.new.logs;
          read_faults = self.new.read_faults;
        } }
    {
        let opened = self.logs.source(alloc, path);
        if let Err(HostError::Failed) = opened {
            self.read_faults.raise();
        }
        opened
    }

    fn give_back(&mut self, lanes: Vec<MemLane>, log: Option<MemLog>, source: Option<MemSource>)
        ensures contents { Some (segments_at self.new.files.items) ≡ Some (
            paths_given (room_at self.old.files.items) (open_now self.old) source
            (map (λ lane. Some (pages_of lane)) lanes.items) (segments_at self.old.files.items)) }
        ensures failed { segments_at self.old.files.items (string_bytes self.old.open_path) ≢ []
            → marks_at self.new.files.items ≡ marks_after (open_now self.old)
            (map marks_of lanes.items) (marks_at self.old.files.items) }
        ensures open_at { open_now self.new ≡ open_now self.old }
        ensures room { room_at self.new.files.items ≡ room_at self.old.files.items }
        ensures openings { openings_of self.new ≡ openings_of self.old }
        ensures lanes { lanes_of self.new ≡ lanes_of self.old }
        ensures logs { logs_at self.new.logs.files.items
            ≡ logs_after (opened_path self.old.logs) (option_map as_stored log)
            (logs_at self.old.logs.files.items) }
        ensures log_faults { Added self.old.logs.faults.count
            (option_map_or (λ l. l.faults.count) log 0) self.new.logs.faults.count }
        ensures log_at { opened_path self.new.logs ≡ opened_path self.old.logs }
        ensures log_openings { self.new.logs.openings ≡ self.old.logs.openings }
        ensures log_calls { self.new.logs.calls ≡ self.old.logs.calls }
        ensures log_room { self.new.logs.room ≡ self.old.logs.room }
        ensures sources { self.new.logs.sources ≡ self.old.logs.sources }
        ensures reads { Added self.old.read_faults.count
            (sum_by (λ lane. lane.read_faults.count) lanes.items
            + option_map_or (λ s. s.faults.count) source 0) self.new.read_faults.count }
        ensures writes { Added self.old.write_faults.count
            (sum_by (λ lane. lane.write_faults.count) lanes.items) self.new.write_faults.count }
    {
        count_reads(&mut self.read_faults, &lanes);
        count_source(&mut self.read_faults, &source);
        count_writes(&mut self.write_faults, &lanes);
        self.grow(&source, &lanes);
        self.take_lanes(lanes);
        if let Some(log) = log {
            self.logs.take_back(log);
        }
    }

    ghost read_faults_fit = { λ h. h.read_faults.fits };

    ghost write_faults_fit = { λ h. h.write_faults.fits };

    ghost log_faults_fit = { λ h. h.logs.faults.fits };

    ghost logs_told = { λ h log. refl };

    ghost sources_told = { λ h source. refl };
}
