//! Relations over real files that grow, and a log that is read beside one.
ghost use Rattle.std.specs.Prelude.{◌≤◌};

use crate::checks::{check, check_eq};
use block_tag::{Fork, RelNo, Tag};
use byte_devices::{Failed, Source};
use page_layout::Page;
use segment_files::{FileHost, FileLane};
use segment_store::{BlockLane, Host, HostError};
use std::alloc::{AllocError, Global};
use std::fs;
use std::os::unix::fs::FileExt;
use std::rt::Files;
use std::test::Fail;

/// Runs of equal bytes, one after another.
pub(crate) fn runs_of(alloc: Global, runs: &[(u8, usize)]) -> Result<Vec<u8>, AllocError> {
    let mut bytes = Vec::new(alloc);
    for (byte, count) in runs {
        let length = bytes.len().saturating_add(*count);
        bytes.resize(length, *byte)?;
    }
    Ok(bytes)
}

pub(crate) fn put_file(rt: &HostRuntime, path: &str, runs: &[(u8, usize)]) -> Result<(), Fail> {
    let bytes = runs_of(rt.alloc(), runs)?;
    fs::write(rt, path, bytes.as_slice())?;
    Ok(())
}

/// Whether a file has these bytes. It is removed.
fn had(rt: &HostRuntime, path: &str, runs: &[(u8, usize)]) -> Result<bool, Fail> {
    let wanted = runs_of(rt.alloc(), runs)?;
    let found = fs::read(rt, path)?;
    fs::remove_file(rt, path)?;
    Ok(found.as_slice() == wanted.as_slice())
}

/// Puts files at these paths.
pub(crate) fn put_files(rt: &HostRuntime, files: &[(&str, &[(u8, usize)])]) -> Result<(), Fail> {
    for (path, runs) in files {
        put_file(rt, path, runs)?;
    }
    Ok(())
}

/// Whether each file has these bytes. They are removed.
pub(crate) fn had_all(rt: &HostRuntime, files: &[(&str, &[(u8, usize)])]) -> Result<bool, Fail> {
    let mut same = true;
    for (path, runs) in files {
        same = had(rt, path, runs)? && same;
    }
    Ok(same)
}

fn tag(block: u32) -> Tag {
    Tag {
        rel: RelNo(0),
        fork: Fork::Main,
        block,
    }
}

/// Reads a block, writes a page of 7s to it, and syncs the lane.
fn use_block<R: Files>(lane: &mut FileLane<'_, R>, tag: Tag, page: &mut Page)
where
    R::File: FileExt,
{
    let _read = lane.read(tag, page);
    page.fill(&[7; 8192]);
    let _written = lane.write(tag, page);
    let _synced = lane.sync();
}

fn use_blocks<R: Files>(lane: &mut FileLane<'_, R>, tags: &[Tag], page: &mut Page)
where
    R::File: FileExt,
{
    for tag in tags {
        use_block(lane, *tag, page);
    }
}

/// Has two lanes of the relation at a path use these blocks, one lane after the other. Returns how
/// many reads failed, and how many writes and syncs.
fn use_relation(
    rt: &HostRuntime,
    path: &str,
    seg_blocks: u32,
    tags: &[Tag],
) -> Result<(u64, u64), Fail>
    requires { 1 ≤ seg_blocks }
{
    let mut page = Page::zeroed(rt.alloc())?;
    let mut host = FileHost::new(rt, rt.alloc());
    let mut lanes = host.relation(rt.alloc(), path, seg_blocks, 2)?.lanes;
    for lane in &mut lanes {
        use_blocks(lane, tags, &mut page);
    }
    host.give_back(lanes, None, None);
    Ok((host.read_faults(), host.write_faults()))
}

/// Files, what two lanes do with them as `use_relation` says, what it returns, and what the files
/// have then.
#[derive(Clone, Copy)]
struct Growth<'a> {
    before: &'a [(&'a str, &'a [(u8, usize)])],
    path: &'a str,
    seg_blocks: u32,
    tags: &'a [Tag],
    faults: (u64, u64),
    after: &'a [(&'a str, &'a [(u8, usize)])],
}

/// Whether files grow so.
fn grows(rt: &HostRuntime, growth: &Growth<'_>) -> Result<bool, Fail>
    requires { 1 ≤ growth.now.seg_blocks }
{
    put_files(rt, growth.before)?;
    let faults = use_relation(rt, growth.path, growth.seg_blocks, growth.tags)?;
    Ok(had_all(rt, growth.after)? && faults == growth.faults)
}

/// The first lane can't read the block yet; the second can.
#[test]
fn zeros_fill_the_gap(rt: HostRuntime) -> Result<(), Fail> {
    let growth = Growth {
        before: &[("gap", &[(1, 8192)])],
        path: "gap",
        seg_blocks: 4,
        tags: &[tag(3)],
        faults: (1, 0),
        after: &[("gap", &[(1, 8192), (0, 16384), (7, 8192)])],
    };
    check!(rt; grows(&rt, &growth)?);
    Ok(())
}

#[test]
fn a_partial_block_becomes_whole(rt: HostRuntime) -> Result<(), Fail> {
    let own = Growth {
        before: &[("partial", &[(1, 8192), (2, 100)])],
        path: "partial",
        seg_blocks: 4,
        tags: &[tag(1)],
        faults: (1, 0),
        after: &[("partial", &[(1, 8192), (7, 8192)])],
    };
    let next = Growth {
        tags: &[tag(2)],
        after: &[("partial", &[(1, 8192), (0, 8192), (7, 8192)])],
        ..own
    };
    check_eq!(rt; (grows(&rt, &own)?, grows(&rt, &next)?), (true, true));
    Ok(())
}

/// The first segment is short, but there is a file with the next one's name.
#[test]
fn a_stale_segment_keeps_its_tail(rt: HostRuntime) -> Result<(), Fail> {
    let growth = Growth {
        before: &[("stale", &[(1, 8192)]), ("stale.1", &[(9, 24676)])],
        path: "stale",
        seg_blocks: 4,
        tags: &[tag(5)],
        faults: (1, 0),
        after: &[
            ("stale", &[(1, 8192), (0, 24576)]),
            ("stale.1", &[(0, 8192), (7, 8192), (9, 8292)]),
        ],
    };
    check!(rt; grows(&rt, &growth)?);
    Ok(())
}

/// After the first new block one before it is written, and then one after it.
#[test]
fn segments_are_created(rt: HostRuntime) -> Result<(), Fail> {
    let growth = Growth {
        before: &[("grown", &[(1, 16384)])],
        path: "grown",
        seg_blocks: 2,
        tags: &[tag(5), tag(2), tag(8)],
        faults: (2, 0),
        after: &[
            ("grown", &[(1, 16384)]),
            ("grown.1", &[(7, 8192), (0, 8192)]),
            ("grown.2", &[(0, 8192), (7, 8192)]),
            ("grown.3", &[(0, 16384)]),
            ("grown.4", &[(7, 8192)]),
        ],
    };
    check!(rt; grows(&rt, &growth)?);
    Ok(())
}

#[test]
fn a_far_block_leaves_a_hole(rt: HostRuntime) -> Result<(), Fail> {
    put_file(&rt, "far", &[(1, 8192)])?;
    let faults = use_relation(&rt, "far", 131072, &[tag(100_000)])?;
    let length = fs::metadata(&rt, "far")?.len();
    fs::remove_file(&rt, "far")?;
    check_eq!(rt; (faults, length), ((1, 0), 819_208_192));
    Ok(())
}

#[test]
fn other_blocks_are_faults(rt: HostRuntime) -> Result<(), Fail> {
    let of_a_fork = Tag {
        fork: Fork::Fsm,
        ..tag(1)
    };
    let of_a_relation = Tag {
        rel: RelNo(1),
        ..tag(1)
    };
    let growth = Growth {
        before: &[("own", &[(1, 8192)])],
        path: "own",
        seg_blocks: 4,
        tags: &[of_a_fork, of_a_relation, tag(u32::MAX)],
        faults: (6, 6),
        after: &[("own", &[(1, 8192)])],
    };
    check!(rt; grows(&rt, &growth)?);
    Ok(())
}

/// What two calls give that have room for eight bytes, and what these are in the end.
fn read_twice(source: &mut impl Source) -> ([Result<usize, Failed>; 2], [u8; 8]) {
    let mut piece = [0; 8];
    let first = source.next(&mut piece);
    let second = source.next(&mut piece);
    ([first, second], piece)
}

/// Why files are not read as logs, and what is read of one that is.
type Beside = (
    [Option<HostError>; 2],
    ([Result<usize, Failed>; 2], [u8; 8]),
);

/// Reads logs while the relation is open: another name of its file, one that isn't there, and one
/// that is.
fn read_beside(alloc: Global, host: &mut FileHost<HostRuntime>) -> Result<Beside, HostError> {
    let lanes = host.relation(alloc, "redone", 2, 1)?.lanes;
    let refused = [
        host.bytes(alloc, "redone.link").err(),
        host.bytes(alloc, "redone.none").err(),
    ];
    let mut source = host.bytes(alloc, "redone.log")?;
    let read = read_twice(&mut source);
    host.give_back(lanes, None, Some(source));
    Ok((refused, read))
}

/// The same on a host of its own, and how many of its reads failed.
fn read_on_a_host(rt: &HostRuntime) -> Result<(Beside, u64), HostError> {
    let mut host = FileHost::new(rt, rt.alloc());
    let read = read_beside(rt.alloc(), &mut host)?;
    Ok((read, host.read_faults()))
}

/// Another name of the relation's file isn't read as a log.
#[test]
fn a_log_is_read_beside_a_relation(rt: HostRuntime) -> Result<(), Fail> {
    put_files(&rt, &[("redone", &[(1, 8192)]), ("redone.log", &[(3, 5)])])?;
    fs::hard_link(&rt, "redone", "redone.link")?;
    let found = read_on_a_host(&rt)?;
    let refused = [Some(HostError::Failed), Some(HostError::Missing)];
    let read = ([Ok(5), Ok(0)], [3, 3, 3, 3, 3, 0, 0, 0]);
    check_eq!(rt; found, ((refused, read), 1));
    for path in ["redone", "redone.log", "redone.link"] {
        fs::remove_file(&rt, path)?;
    }
    Ok(())
}
