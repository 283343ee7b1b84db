//! Lanes over the files of several relations.
use crate::checks::{check, check_eq};
use crate::growth_tests::{had_all, put_file, put_files};
use block_tag::{Fork, RelNo, Tag};
use byte_devices::Failed;
use page_layout::Page;
use segment_files::{CatalogFile, FileHost, FileLane};
use segment_store::{BlockLane, Host, HostError, LogOpen};
use std::alloc::Global;
use std::fs;
use std::os::unix::fs::FileExt;
use std::process::Abort;
use std::rt::Files;
use std::test::Fail;

fn main_fork(rel: u32, path: &str) -> CatalogFile<'_> {
    CatalogFile {
        rel: RelNo(rel),
        fork: Fork::Main,
        path,
    }
}

fn tag(rel: u32, fork: Fork, block: u32) -> Tag {
    Tag {
        rel: RelNo(rel),
        fork,
        block,
    }
}

/// Writes a page of this byte to a block of a main fork.
fn write_block<R: Files>(
    lane: &mut FileLane<'_, R>,
    page: &mut Page,
    (rel, block, byte): (u32, u32, u8),
) -> Result<(), Failed>
where
    R::File: FileExt,
{
    page.fill(&[byte; 8192]);
    lane.write(tag(rel, Fork::Main, block), page)
}

/// The first byte of a block.
fn read_block<R: Files>(lane: &mut FileLane<'_, R>, page: &mut Page, tag: Tag) -> Result<u8, Failed>
where
    R::File: FileExt,
{
    lane.read(tag, page)?;
    Ok(page.bytes().first().copied().unwrap_or(0))
}

/// Writes to the third new segment of each of two relations, and again to that of the first.
fn grow_both<R: Files>(lane: &mut FileLane<'_, R>, page: &mut Page) -> [Result<(), Failed>; 4]
where
    R::File: FileExt,
{
    [
        write_block(lane, page, (0, 6, 5)),
        write_block(lane, page, (1, 7, 6)),
        write_block(lane, page, (0, 7, 7)),
        lane.sync(),
    ]
}

/// Reads what was written, blocks beside it, and a block of another relation and of another fork.
fn read_both<R: Files>(lane: &mut FileLane<'_, R>, page: &mut Page) -> [Result<u8, Failed>; 7]
where
    R::File: FileExt,
{
    [
        read_block(lane, page, tag(0, Fork::Main, 2)),
        read_block(lane, page, tag(0, Fork::Main, 6)),
        read_block(lane, page, tag(1, Fork::Main, 7)),
        read_block(lane, page, tag(0, Fork::Main, 7)),
        read_block(lane, page, tag(1, Fork::Main, 6)),
        read_block(lane, page, tag(2, Fork::Main, 0)),
        read_block(lane, page, tag(1, Fork::Fsm, 0)),
    ]
}

/// The first lane grows both relations.
fn grow_by_one<R: Files>(rt: &impl Abort, page: &mut Page, lanes: &mut [FileLane<'_, R>])
where
    R::File: FileExt,
{
    if let Some(lane) = lanes.first_mut() {
        check_eq!(rt; grow_both(lane, page), [Ok(()); 4]);
    }
}

/// Each lane reads both.
fn read_by_each<R: Files>(rt: &impl Abort, page: &mut Page, lanes: &mut [FileLane<'_, R>])
where
    R::File: FileExt,
{
    for lane in lanes {
        let answers = [Ok(3), Ok(5), Ok(6), Ok(7), Ok(0), Err(Failed), Err(Failed)];
        check_eq!(rt; read_both(lane, page), answers);
    }
}

/// Grows both on a host. Neither is opened as a log, to write one or to read one.
fn grow_on(
    rt: &impl Abort,
    alloc: Global,
    host: &mut FileHost<HostRuntime>,
) -> Result<(), HostError> {
    let mut page = Page::zeroed(alloc).map_err(|_| HostError::Memory)?;
    let entries = [main_fork(0, "rows"), main_fork(1, "index")];
    let mut opened = host.relations(alloc, &entries, 2, 3)?;
    check_eq!(rt; opened.blocks.as_slice(), [3, 1].as_slice());
    check_eq!(rt; host.log(alloc, "index").err(), Some(LogOpen::Failed));
    check_eq!(rt; host.bytes(alloc, "index").err(), Some(HostError::Failed));
    grow_by_one(rt, &mut page, &mut opened.lanes);
    read_by_each(rt, &mut page, &mut opened.lanes);
    host.give_back(opened.lanes, None, None);
    Ok(())
}

/// The files before they grow.
const BEFORE: [(&str, &[(u8, usize)]); 3] = [
    ("rows", &[(1, 8192), (2, 8192)]),
    ("rows.1", &[(3, 8192)]),
    ("index", &[(4, 8192)]),
];

/// The files in the end.
const GROWN: [(&str, &[(u8, usize)]); 8] = [
    ("rows", &[(1, 8192), (2, 8192)]),
    ("rows.1", &[(3, 8192), (0, 8192)]),
    ("rows.2", &[(0, 16384)]),
    ("rows.3", &[(5, 8192), (7, 8192)]),
    ("index", &[(4, 8192), (0, 8192)]),
    ("index.1", &[(0, 16384)]),
    ("index.2", &[(0, 16384)]),
    ("index.3", &[(0, 8192), (6, 8192)]),
];

#[test]
fn two_relations_grow_apart(rt: HostRuntime) -> Result<(), Fail> {
    put_files(&rt, &BEFORE)?;
    let mut host = Box::new(rt.alloc(), FileHost::new(&rt, rt.alloc()))?;
    grow_on(&rt, rt.alloc(), &mut host)?;
    check_eq!(rt; (host.read_faults(), host.write_faults()), (7, 0));
    check!(rt; had_all(&rt, &GROWN)?);
    Ok(())
}

/// How the opening of these is refused, if it is.
fn refusal(
    alloc: Global,
    host: &mut FileHost<HostRuntime>,
    entries: &[CatalogFile<'_>],
) -> Option<HostError> {
    host.relations(alloc, entries, 2, 1).err()
}

/// Two relations, or two forks, don't share a file: neither by its path nor by a link, nor as a
/// segment that isn't there yet.
#[test]
fn entries_have_their_own_files(rt: HostRuntime) -> Result<(), Fail> {
    let alloc = rt.alloc();
    put_file(&rt, "own", &[(1, 8192)])?;
    fs::hard_link(&rt, "own", "linked")?;
    let mut host = Box::new(alloc, FileHost::new(&rt, alloc))?;
    let own = main_fork(0, "own");
    let others = [
        main_fork(1, "own"),
        main_fork(1, "linked"),
        main_fork(1, "own.1"),
        main_fork(0, "other"),
    ];
    for other in others {
        let refused = refusal(alloc, &mut host, &[own, other]);
        check_eq!(rt; refused, Some(HostError::Failed), "{}", other.path);
    }
    let missing = refusal(alloc, &mut host, &[own, main_fork(1, "other")]);
    check_eq!(rt;
        (missing, host.read_faults()),
        (Some(HostError::Missing), 4)
    );
    fs::remove_file(&rt, "own")?;
    fs::remove_file(&rt, "linked")?;
    Ok(())
}
