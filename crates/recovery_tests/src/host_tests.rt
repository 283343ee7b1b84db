//! Relations of hosts that are recovered by logs beside them.
ghost use Rattle.std.specs.Prelude.{◌≡◌, ◌≤◌};

use crate::bench::{Kept, whole_page};
use crate::checks::{check, check_eq};
use crate::log_bytes::{Record, log_bytes, page_bytes};
use block_tag::{Catalog, CatalogError, Fork, RelEntry, RelNo, Tag};
use byte_devices::{FaultPlan, LogPlan};
use log_recovery::{RecoverError, Redone, recover};
use page_layout::{Lsn, Page};
use segment_files::FileHost;
use segment_store::{BlockLane, Host, LanePlan, MemFile, MemHost, MemLogs, SourcePlan};
use std::alloc::{AllocError, Global};
use std::fs;
use std::process::Abort;
use std::test::Fail;

/// The relation's path, and that of its log.
const PATH: &str = "16384";

const LOG: &str = "16384.log";

/// The one relation that is open.
fn one_relation(alloc: Global) -> Result<Catalog, CatalogError> {
    let relation = RelEntry {
        tablespace: 1663,
        database: 5,
        relation: 16384,
        blocks: [0, 0, 0, 0],
    };
    Catalog::build(alloc, &[relation])
}

/// A log that begins at 4096, with a record of each of these blocks, whose items are 1, 2 and so
/// on.
fn log_of(alloc: Global, blocks: &[u32]) -> Result<Vec<u8>, AllocError> {
    let mut records = Vec::new(alloc);
    let mut position: Lsn = 4096;
    let mut item: u8 = 0;
    for block in blocks {
        item = item.saturating_add(1);
        records.push(Record::new(position, *block, item))?;
        position = position.saturating_add(8224);
    }
    log_bytes(alloc, b"PGBUFLOG", 4096, &records)
}

/// What is told of a log with so many records, each of another block.
fn redone(records: u64) -> Redone
    requires { records ≤ 256 }
{
    Redone {
        base: 4096,
        end: 4096 + 8224 * records,
        entries: records,
        blocks: records,
    }
}

/// Recovers the relation by its log.
fn recover_relation<H: Host>(
    alloc: Global,
    host: &mut H,
    seg_blocks: u32,
) -> Result<Result<Redone, RecoverError>, Fail>
where
    H::Lane: Drop,
    H::Source: Drop,
    requires { 1 ≤ seg_blocks }
{
    let mut lanes = host.relation(alloc, PATH, seg_blocks, 2)?.lanes;
    let mut source = host.bytes(alloc, LOG)?;
    let catalog = one_relation(alloc)?;
    let mut page = Page::zeroed(alloc)?;
    let answer = recover(alloc, &mut lanes, &catalog, &mut source, &mut page);
    host.give_back(lanes, None, Some(source));
    Ok(answer)
}

/// Bytes of a segment.
#[derive(Clone, Copy)]
enum Run {
    /// So many that are all this one.
    Same(u8, usize),
    /// A page with this item and this position.
    Page(u8, Lsn),
}

impl Run {
    fn add_to(self, bytes: &mut Vec<u8>) -> Result<(), AllocError> {
        match self {
            Run::Same(byte, count) => {
                let length = bytes.len().saturating_add(count);
                bytes.resize(length, byte)
            }
            Run::Page(item, lsn) => bytes.extend_from_slice(&page_bytes(item, lsn)),
        }
    }
}

fn segment_of(alloc: Global, runs: &[Run]) -> Result<Vec<u8>, AllocError> {
    let mut bytes = Vec::new(alloc);
    for run in runs {
        run.add_to(&mut bytes)?;
    }
    Ok(bytes)
}

fn segments_of(alloc: Global, segments: &[&[Run]]) -> Result<Vec<Vec<u8>>, AllocError> {
    let mut all = Vec::new(alloc);
    for runs in segments {
        all.push(segment_of(alloc, runs)?)?;
    }
    Ok(all)
}

/// A relation with two blocks a segment, which may have so many segments; and the blocks of a log's
/// records.
#[derive(Clone, Copy)]
struct Case<'a> {
    segments: &'a [&'a [Run]],
    count: u32,
    blocks: &'a [u32],
}

/// No call fails.
fn none(alloc: Global) -> FaultPlan {
    FaultPlan::new(Vec::new(alloc))
}

/// A host in memory with the relation and the log, of which a call gives 1000 bytes at most.
fn host_of(alloc: Global, case: &Case<'_>) -> Result<Box<MemHost>, AllocError> {
    let path = String::from_str(alloc, PATH)?;
    let segments = segments_of(alloc, case.segments)?;
    let mut files = Vec::new(alloc);
    files.push(MemFile::with_space(alloc, path, segments, case.count, 2)?)?;
    let sources = SourcePlan::new(none(alloc), none(alloc), 1000);
    let mut logs = MemLogs::new(alloc, 0, none(alloc), LogPlan::none(alloc), sources);
    logs.put(alloc, LOG, &log_of(alloc, case.blocks)?)?;
    let lanes = LanePlan::none(alloc);
    let host = MemHost::new(alloc, files, none(alloc), lanes, logs);
    Ok(Box::new(alloc, host)?)
}

/// Whether the relation's segments have these bytes.
fn has_segments(alloc: Global, host: &MemHost, wanted: &[&[Run]]) -> Result<bool, AllocError> {
    let wanted = segments_of(alloc, wanted)?;
    let found = host.segments(PATH);
    let mut same = found.len() == wanted.len();
    for (segment, bytes) in found.iter().zip(&wanted) {
        same = same && segment.as_slice() == bytes.as_slice();
    }
    Ok(same)
}

/// The relation is recovered twice: each time the answer is this, and the segments are these then.
/// Returns how many writes failed.
fn recover_twice(
    rt: &impl Abort,
    alloc: Global,
    case: &Case<'_>,
    answer: Result<Redone, RecoverError>,
    wanted: &[&[Run]],
) -> Result<u64, Fail> {
    let mut host = host_of(alloc, case)?;
    for _turn in 0..2 {
        let found = recover_relation(alloc, &mut *host, 2)?;
        check_eq!(rt; found, answer);
        check!(rt; has_segments(alloc, &host, wanted)?);
    }
    check_eq!(rt; host.read_faults(), 0);
    Ok(host.write_faults())
}

/// A partial block becomes whole; after it come a segment of new pages, and one that ends with a
/// record's.
#[test]
fn segments_are_added(rt: HostRuntime) -> Result<(), Fail> {
    let case = Case {
        segments: &[&[Run::Same(1, 16384)], &[Run::Same(2, 8292)]],
        count: 4,
        blocks: &[0, 3, 7],
    };
    let wanted: [&[Run]; 4] = [
        &[Run::Page(1, 12320), Run::Same(1, 8192)],
        &[Run::Same(2, 8192), Run::Page(2, 20544)],
        &[Run::Same(0, 16384)],
        &[Run::Same(0, 8192), Run::Page(3, 28768)],
    ];
    let faults = recover_twice(&rt, rt.alloc(), &case, Ok(redone(3)), &wanted)?;
    check_eq!(rt; faults, 0);
    Ok(())
}

/// A partial block in the gap becomes a new page.
#[test]
fn a_partial_block_is_no_block(rt: HostRuntime) -> Result<(), Fail> {
    let case = Case {
        segments: &[&[Run::Same(1, 16384)], &[Run::Same(2, 8292)]],
        count: 3,
        blocks: &[5],
    };
    let wanted: [&[Run]; 3] = [
        &[Run::Same(1, 16384)],
        &[Run::Same(2, 8192), Run::Same(0, 8192)],
        &[Run::Same(0, 8192), Run::Page(1, 12320)],
    ];
    let faults = recover_twice(&rt, rt.alloc(), &case, Ok(redone(1)), &wanted)?;
    check_eq!(rt; faults, 0);
    Ok(())
}

/// The first segment is short, so that the next one's blocks are none of the relation's: they
/// become new pages up to the record's, and stay after it.
#[test]
fn a_stale_segment_comes_back(rt: HostRuntime) -> Result<(), Fail> {
    let segments: [&[Run]; 2] = [&[Run::Same(1, 8292)], &[Run::Same(9, 16384)]];
    let first: [&[Run]; 2] = [
        &[Run::Same(1, 8192), Run::Same(0, 8192)],
        &[Run::Page(1, 12320), Run::Same(9, 8192)],
    ];
    let second: [&[Run]; 2] = [
        &[Run::Same(1, 8192), Run::Same(0, 8192)],
        &[Run::Same(0, 8192), Run::Page(1, 12320)],
    ];
    for (block, wanted) in [(2, first), (3, second)] {
        let case = Case {
            segments: &segments,
            count: 2,
            blocks: &[block],
        };
        let faults = recover_twice(&rt, rt.alloc(), &case, Ok(redone(1)), &wanted)?;
        check_eq!(rt; faults, 0, "block {block}");
    }
    Ok(())
}

/// The third record's block has no room: the first two are redone, and the fourth isn't.
#[test]
fn a_relation_without_room_keeps_a_part(rt: HostRuntime) -> Result<(), Fail> {
    let case = Case {
        segments: &[&[Run::Same(1, 16384)]],
        count: 2,
        blocks: &[2, 0, 4, 1],
    };
    let wanted: [&[Run]; 2] = [
        &[Run::Page(2, 20544), Run::Same(1, 8192)],
        &[Run::Page(1, 12320)],
    ];
    let answer = Err(RecoverError::WriteFault);
    let faults = recover_twice(&rt, rt.alloc(), &case, answer, &wanted)?;
    check_eq!(rt; faults, 2);
    Ok(())
}

/// A block far past the end, in the eighth segment of a file.
const FAR: u32 = 1_000_000;

/// What the file has there.
fn read_far(rt: &HostRuntime) -> Result<Option<Kept>, Fail> {
    let tag = Tag {
        rel: RelNo(0),
        fork: Fork::Main,
        block: FAR,
    };
    let mut page = Page::zeroed(rt.alloc())?;
    let mut host = Box::new(rt.alloc(), FileHost::new(rt, rt.alloc()))?;
    let mut lanes = host.relation(rt.alloc(), PATH, 131_072, 1)?.lanes;
    let lane = lanes.first_mut().ok_or("no lane")?;
    let read = lane.read(tag, &mut page);
    host.give_back(lanes, None, None);
    read?;
    Ok(Some(Kept::of(&page)))
}

fn remove_files(rt: &HostRuntime) -> Result<(), Fail> {
    fs::remove_file(rt, PATH)?;
    fs::remove_file(rt, LOG)?;
    for number in 1..8 {
        let path = format!(in rt.alloc(); "{PATH}.{number}")?;
        fs::remove_file(rt, path.as_str())?;
    }
    Ok(())
}

/// Writes a file of one block, and a log with a record of the block far past its end.
fn write_files(rt: &HostRuntime) -> Result<(), Fail> {
    fs::write(rt, PATH, page_bytes(100, 2048).as_slice())?;
    let log = log_of(rt.alloc(), &[FAR])?;
    fs::write(rt, LOG, log.as_slice())?;
    Ok(())
}

/// Recovers the file by the log.
fn recover_file(rt: &HostRuntime) -> Result<Result<Redone, RecoverError>, Fail> {
    let mut host = Box::new(rt.alloc(), FileHost::new(rt, rt.alloc()))?;
    recover_relation(rt.alloc(), &mut *host, 131_072)
}

#[test]
fn a_file_grows_far(rt: HostRuntime) -> Result<(), Fail> {
    write_files(&rt)?;
    check_eq!(rt; recover_file(&rt)?, Ok(redone(1)));
    check_eq!(rt; read_far(&rt)?, whole_page(1, 12320));
    let length = fs::metadata(&rt, "16384.7")?.len();
    remove_files(&rt)?;
    check_eq!(rt; length, 675_815_424);
    Ok(())
}
