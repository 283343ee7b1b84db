//! Lanes over files that count their syncs, and of which no byte can be read or written.
use crate::checks::check_eq;
use block_tag::{Fork, RelNo, Tag};
use byte_devices::Failed;
use page_layout::Page;
use segment_files::{FileHost, FileLane};
use segment_store::{BlockLane, Host};
use std::alloc::{Allocator, Global};
use std::fs::{File, Metadata, OpenFile, OpenOptions};
use std::io::{ErrorKind, Read, Seek, SeekFrom, Write};
use std::os::unix::fs::FileExt;
use std::process::Abort;
use std::rt::Files;
use std::sync::atomic::{AtomicU32, Ordering};
use std::test::Fail;
use std::{fs, io};

/// Real files, which have their sizes, with syncs that are counted together. One of the syncs
/// fails.
#[derive(Drop)]
struct CountedFiles<'a> {
    rt: &'a HostRuntime,
    syncs: &'a AtomicU32,
    failing: u32,
}

#[derive(Drop)]
struct CountedFile<'a> {
    file: File,
    syncs: &'a AtomicU32,
    failing: u32,
}

impl Read for CountedFile<'_> {
    fn read(&mut self, _buf: &mut [u8]) -> io::Result<usize> {
        Ok(0)
    }
}

impl Write for CountedFile<'_> {
    fn write(&mut self, _buf: &[u8]) -> io::Result<usize> {
        Ok(0)
    }

    fn flush(&mut self) -> io::Result<()> {
        Ok(())
    }
}

impl Seek for CountedFile<'_> {
    fn seek(&mut self, _to: SeekFrom) -> io::Result<u64> {
        Err(ErrorKind::Unsupported.into())
    }
}

impl FileExt for CountedFile<'_> {
    fn read_at(&self, _buf: &mut [u8], _offset: u64) -> io::Result<usize> {
        Ok(0)
    }

    fn write_at(&self, _buf: &[u8], _offset: u64) -> io::Result<usize> {
        Ok(0)
    }
}

impl OpenFile for CountedFile<'_> {
    fn metadata(&self) -> io::Result<Metadata> {
        self.file.metadata()
    }

    fn set_len(&self, _size: u64) -> io::Result<()> {
        Err(ErrorKind::Unsupported.into())
    }

    fn sync_all(&self) -> io::Result<()> {
        let before = self.syncs.fetch_add(1, Ordering::SeqCst);
        if before.checked_add(1) == Some(self.failing) {
            return Err(ErrorKind::Other.into());
        }
        Ok(())
    }

    fn sync_data(&self) -> io::Result<()> {
        Err(ErrorKind::Unsupported.into())
    }
}

impl<'a> Files for CountedFiles<'a> {
    type File = CountedFile<'a>;

    type Dir = CountedFile<'a>;

    fn open_file(&self, how: &OpenOptions, path: &str) -> io::Result<CountedFile<'a>> {
        Ok(CountedFile {
            file: self.rt.open_file(how, path)?,
            syncs: self.syncs,
            failing: self.failing,
        })
    }

    fn open_dir(&self, _path: &str) -> io::Result<CountedFile<'a>> {
        Err(ErrorKind::Unsupported.into())
    }

    fn metadata(&self, path: &str) -> io::Result<Metadata> {
        self.rt.metadata(path)
    }

    fn symlink_metadata(&self, path: &str) -> io::Result<Metadata> {
        self.rt.symlink_metadata(path)
    }

    fn copy(&self, _from: &str, _to: &str) -> io::Result<u64> {
        Err(ErrorKind::Unsupported.into())
    }

    fn rename(&self, _from: &str, _to: &str) -> io::Result<()> {
        Err(ErrorKind::Unsupported.into())
    }

    fn remove_file(&self, _path: &str) -> io::Result<()> {
        Err(ErrorKind::Unsupported.into())
    }

    fn create_dir(&self, _path: &str) -> io::Result<()> {
        Err(ErrorKind::Unsupported.into())
    }

    fn remove_dir(&self, _path: &str) -> io::Result<()> {
        Err(ErrorKind::Unsupported.into())
    }

    fn remove_dir_all<B: Allocator>(&self, _alloc: B, _path: &str) -> io::Result<()> {
        Err(ErrorKind::Unsupported.into())
    }
}

/// Makes a relation of two segments of two blocks, the second of which has one block.
fn make_segments(rt: &HostRuntime, [first, second]: [&str; 2]) -> io::Result<()> {
    fs::write(rt, first, [0u8; 16384].as_slice())?;
    fs::write(rt, second, [0u8; 8192].as_slice())
}

fn remove_segments(rt: &HostRuntime, [first, second]: [&str; 2]) -> io::Result<()> {
    fs::remove_file(rt, first)?;
    fs::remove_file(rt, second)
}

/// A sync's answer, and how many syncs of files there were up to then.
fn sync_lane<R: Files>(lane: &mut FileLane<'_, R>, syncs: &AtomicU32) -> (Result<(), Failed>, u32)
where
    R::File: FileExt,
{
    let synced = lane.sync();
    (synced, syncs.load(Ordering::SeqCst))
}

/// Syncs each lane three times. What the failed sync was to make durable may be lost, so no later
/// one succeeds.
fn sync_lanes<R: Files>(rt: &impl Abort, lanes: &mut [FileLane<'_, R>], syncs: &AtomicU32)
where
    R::File: FileExt,
{
    for lane in lanes {
        let found = [
            sync_lane(lane, syncs),
            sync_lane(lane, syncs),
            sync_lane(lane, syncs),
        ];
        check_eq!(rt; found, [(Ok(()), 2), (Err(Failed), 3), (Err(Failed), 3)]);
    }
}

/// Syncs the lanes of the relation at a path.
fn sync_files(
    rt: &impl Abort,
    alloc: Global,
    host: &mut FileHost<CountedFiles<'_>>,
    path: &str,
    syncs: &AtomicU32,
) -> Result<(), Fail> {
    let mut lanes = host.relation(alloc, path, 2, 1)?.lanes;
    sync_lanes(rt, &mut lanes, syncs);
    host.give_back(lanes, None, None);
    Ok(())
}

#[test]
fn a_sync_reaches_each_segment(rt: HostRuntime) -> Result<(), Fail> {
    let segments = ["synced", "synced.1"];
    make_segments(&rt, segments)?;
    let syncs = AtomicU32::new(0);
    let files = CountedFiles {
        rt: &rt,
        syncs: &syncs,
        failing: 3,
    };
    let mut host = FileHost::new(&files, rt.alloc());
    sync_files(&rt, rt.alloc(), &mut host, "synced", &syncs)?;
    check_eq!(rt; host.write_faults(), 2);
    remove_segments(&rt, segments)?;
    Ok(())
}

/// A read's answer and a write's.
fn use_lane<R: Files>(lane: &mut FileLane<'_, R>, page: &mut Page) -> [Result<(), Failed>; 2]
where
    R::File: FileExt,
{
    let tag = Tag {
        rel: RelNo(0),
        fork: Fork::Main,
        block: 0,
    };
    [lane.read(tag, page), lane.write(tag, page)]
}

fn use_lanes<R: Files>(rt: &impl Abort, lanes: &mut [FileLane<'_, R>], page: &mut Page)
where
    R::File: FileExt,
{
    for lane in lanes {
        check_eq!(rt; use_lane(lane, page), [Err(Failed), Err(Failed)]);
    }
}

/// A block of the relation at a path is read and written.
fn use_files(
    rt: &impl Abort,
    alloc: Global,
    host: &mut FileHost<CountedFiles<'_>>,
    path: &str,
) -> Result<(), Fail> {
    let mut page = Page::zeroed(alloc)?;
    let mut lanes = host.relation(alloc, path, 2, 1)?.lanes;
    use_lanes(rt, &mut lanes, &mut page);
    host.give_back(lanes, None, None);
    Ok(())
}

#[test]
fn short_reads_and_writes_are_faults(rt: HostRuntime) -> Result<(), Fail> {
    let segments = ["short", "short.1"];
    make_segments(&rt, segments)?;
    let syncs = AtomicU32::new(0);
    let files = CountedFiles {
        rt: &rt,
        syncs: &syncs,
        failing: 0,
    };
    let mut host = FileHost::new(&files, rt.alloc());
    use_files(&rt, rt.alloc(), &mut host, "short")?;
    check_eq!(rt; (host.read_faults(), host.write_faults()), (1, 1));
    remove_segments(&rt, segments)?;
    Ok(())
}
