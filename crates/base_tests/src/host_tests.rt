//! Failures that leave a part, on a host in memory.
use crate::checks::check_eq;
use crate::growth_tests::runs_of;
use block_tag::{Fork, RelNo, Tag};
use byte_devices::{Failed, FaultPlan, LogDevice, LogPlan};
use page_layout::Page;
use segment_store::{
    BlockLane, Host, HostError, LanePlan, LogOpen, MemFile, MemHost, MemLane, MemLogs, SourcePlan,
};
use std::alloc::{AllocError, Global};
use std::process::Abort;
use std::test::Fail;

fn tag(block: u32) -> Tag {
    Tag {
        rel: RelNo(0),
        fork: Fork::Main,
        block,
    }
}

/// A page whose bytes are all this one.
fn page_of(alloc: Global, byte: u8) -> Result<Page, AllocError> {
    let mut page = Page::zeroed(alloc)?;
    page.fill(&[byte; 8192]);
    Ok(page)
}

fn write_own(lane: &mut MemLane, tag: Tag, page: &Page) -> Option<Result<(), Failed>> {
    if lane.page(&tag).is_none() {
        return None;
    }
    Some(lane.write(tag, page))
}

fn read_own(lane: &mut MemLane, tag: Tag, page: &mut Page) -> Option<Result<(), Failed>> {
    if lane.page(&tag).is_none() {
        return None;
    }
    Some(lane.read(tag, page))
}

/// Two segments of two blocks: one is full, the other has a block and 100 bytes.
fn two_segments(alloc: Global) -> Result<Vec<Vec<u8>>, AllocError> {
    let mut segments = Vec::new(alloc);
    for run in [(1, 16384), (2, 8292)] {
        segments.push(runs_of(alloc, &[run])?)?;
    }
    Ok(segments)
}

/// A relation of two segments.
fn two_segment_files(alloc: Global) -> Result<Vec<MemFile>, AllocError> {
    let segments = two_segments(alloc)?;
    let path = String::from_str(alloc, "base/5/16384")?;
    let mut files = Vec::new(alloc);
    files.push(MemFile::new(alloc, path, segments))?;
    Ok(files)
}

/// Of the calls this one fails.
fn failing(alloc: Global, call: u64) -> Result<FaultPlan, AllocError> {
    Ok(FaultPlan::new(vec![in alloc; call; 1]?))
}

fn lane_plan(alloc: Global) -> Result<LanePlan, AllocError> {
    let reads = failing(alloc, 1)?;
    let writes = failing(alloc, 2)?;
    let syncs = failing(alloc, 1)?;
    Ok(LanePlan {
        reads,
        writes,
        syncs,
    })
}

/// The second opening of a source fails, the second call of each does, and a call gives three bytes
/// at most.
fn source_plan(alloc: Global) -> Result<SourcePlan, AllocError> {
    Ok(SourcePlan::new(failing(alloc, 2)?, failing(alloc, 2)?, 3))
}

/// A host with a relation of two segments.
fn host_in_memory(alloc: Global) -> Result<Box<MemHost>, AllocError> {
    let files = two_segment_files(alloc)?;
    let lanes = lane_plan(alloc)?;
    let logs = MemLogs::new(
        alloc,
        8,
        FaultPlan::new(Vec::new(alloc)),
        LogPlan::none(alloc),
        source_plan(alloc)?,
    );
    let host = MemHost::new(alloc, files, FaultPlan::new(Vec::new(alloc)), lanes, logs);
    Ok(Box::new(alloc, host)?)
}

/// A block of another lane is read, and the second block of the lane twice.
fn read_lane(lane: &mut MemLane, page: &mut Page) -> [Option<Result<(), Failed>>; 3] {
    let other = read_own(lane, tag(1), page);
    let first = read_own(lane, tag(2), page);
    let second = read_own(lane, tag(2), page);
    [other, first, second]
}

/// The first block of the lane is written, then its second, and the lane is synced.
fn write_lane(lane: &mut MemLane, page: &mut Page) -> [Option<Result<(), Failed>>; 3] {
    page.fill(&[7; 8192]);
    let first = write_own(lane, tag(0), page);
    page.fill(&[8; 8192]);
    let second = write_own(lane, tag(2), page);
    [first, second, Some(lane.sync())]
}

fn use_lane(rt: &impl Abort, lane: &mut MemLane, page: &mut Page) {
    check_eq!(rt;
        read_lane(lane, page),
        [None, Some(Err(Failed)), Some(Ok(()))]
    );
    check_eq!(rt; page.bytes(), [2u8; 8192].as_slice());
    check_eq!(rt;
        write_lane(lane, page),
        [Some(Ok(())), Some(Err(Failed)), Some(Err(Failed))]
    );
}

/// The relation is opened, its first lane used, and all are given back.
fn use_relation(rt: &impl Abort, alloc: Global, host: &mut MemHost) -> Result<(), HostError> {
    let mut page = page_of(alloc, 7).map_err(|_| HostError::Memory)?;
    let mut lanes = host.relation(alloc, "base/5/16384", 2, 2)?.lanes;
    if let Some(lane) = lanes.first_mut() {
        use_lane(rt, lane, &mut page);
    }
    host.give_back(lanes, None, None);
    Ok(())
}

/// The byte at a place, 0 past the end.
fn byte_at(bytes: &[u8], place: usize) -> u8 {
    match bytes.get(place) {
        Some(byte) => *byte,
        None => 0,
    }
}

/// The bytes at these places, 0 past the end.
fn bytes_at(bytes: &[u8], places: [usize; 4]) -> [u8; 4] {
    let [first, second, third, fourth] = places;
    [
        byte_at(bytes, first),
        byte_at(bytes, second),
        byte_at(bytes, third),
        byte_at(bytes, fourth),
    ]
}

/// How long each of two segments is, and its bytes at these places.
fn sizes_and_bytes(
    segments: &[Vec<u8>],
    full_places: [usize; 4],
    short_places: [usize; 4],
) -> Option<([usize; 2], [u8; 4], [u8; 4])> {
    let [full, short] = segments else {
        return None;
    };
    Some((
        [full.len(), short.len()],
        bytes_at(full, full_places),
        bytes_at(short, short_places),
    ))
}

#[test]
fn lanes_are_given_back(rt: HostRuntime) -> Result<(), Fail> {
    let mut host = host_in_memory(rt.alloc())?;
    use_relation(&rt, rt.alloc(), &mut host)?;
    check_eq!(rt; (host.read_faults(), host.write_faults()), (1, 2));
    let found = sizes_and_bytes(
        host.segments("base/5/16384"),
        [0, 8191, 8192, 16383],
        [0, 8190, 8191, 8192],
    );
    check_eq!(rt; found, Some(([16384, 8292], [7, 7, 1, 1], [8, 8, 3, 2])));
    Ok(())
}

/// The bytes of the log at the path `log`, and how many of them are durable.
fn log_of(host: &MemHost) -> Option<(&[u8], usize)> {
    host.stored_log("log")
        .map(|log| (log.bytes(), log.synced()))
}

/// A piece is appended, made durable, and another is appended.
fn append_twice(log: &mut impl LogDevice) -> [Result<(), Failed>; 3] {
    let first = log.append(b"one");
    let synced = log.sync();
    let second = log.append(b"of nine");
    [first, synced, second]
}

/// The log is opened, written, and given back.
fn use_log(rt: &impl Abort, alloc: Global, host: &mut MemHost) -> Result<(), LogOpen> {
    let mut log = host.log(alloc, "log")?;
    check_eq!(rt; append_twice(&mut log), [Ok(()), Ok(()), Err(Failed)]);
    check_eq!(rt; log_of(host), Some((b"".as_slice(), 0)));
    host.give_back(Vec::new(alloc), Some(log), None);
    Ok(())
}

#[test]
fn logs_are_given_back(rt: HostRuntime) -> Result<(), Fail> {
    let mut host = host_in_memory(rt.alloc())?;
    check_eq!(rt; log_of(&host), None);
    use_log(&rt, rt.alloc(), &mut host)?;
    check_eq!(rt; log_of(&host), Some((b"oneof n".as_slice(), 3)));
    Ok(())
}
