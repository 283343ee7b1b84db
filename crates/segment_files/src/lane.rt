//! Lanes over the files of a catalogue.
ghost use Rattle.std.specs.Prelude.{◌≡◌, ◌≤◌, ◌<◌, ◌-◌, ◌^◌, false, None};
ghost use Rattle.segment_store.specs.Contents.{no_marks};
ghost use Rattle.segment_store.specs.History.{calls_in, unsynced_in};

use crate::opening::open_segment;
use crate::shared::{SharedFiles, files_of};
use block_tag::{Fork, RelNo, Tag, segment_place};
use byte_devices::{Failed, FaultCount};
use page_layout::{PAGE_SIZE, Page};
use segment_store::{BlockLane, LaneHistory};
use std::alloc::Global;
use std::fs::OpenFile;
use std::io;
use std::io::ErrorKind;
use std::os::unix::fs::FileExt;
use std::rt::Files;
use std::sync::Arc;

/// A segment after the shared files: of which relation and fork, which one, and its file.
#[derive(Drop)]
struct AddedSegment<F: Drop> {
    rel: RelNo,
    fork: Fork,
    number: u32,
    file: F,
}

impl<F: Drop> AddedSegment<F> {
    /// Whether it is this segment of this relation's fork.
    fn is(&self, rel: RelNo, fork: Fork, number: u32) -> bool {
        self.rel == rel && self.fork == fork && self.number == number
    }
}

/// The segments of relations, as one lane uses them.
#[derive(Drop)]
struct LaneSegments<'a, R: Files> {
    rt: &'a R,
    alloc: Global,
    /// The segment after the shared files that this lane used last.
    added: Option<AddedSegment<R::File>>,
    /// Whether a sync failed. The system may have dropped pages that it couldn't write, and a later
    /// sync may succeed without them, so it stays true.
    sync_failed: bool,
    seg_blocks: u32,
    ghost some: { 1 ≤ seg_blocks },
}

/// The byte at which a block of a segment begins.
fn start_of(place: u32) -> u64 {
    u64::from(place) * PAGE_SIZE as u64
}

/// Zeroes the blocks `from..upto` of a file, and extends the file to their end if it is shorter.
/// What comes after them stays.
fn zero_blocks<F: FileExt + OpenFile>(file: &F, from: u32, upto: u32) -> io::Result<()> {
    let length = file.metadata()?.len();
    for place in from..upto {
        if start_of(place) >= length {
            break;
        }
        file.write_all_at(&[0; PAGE_SIZE], start_of(place))?;
    }
    if length < start_of(upto) {
        file.set_len(start_of(upto))?;
    }
    Ok(())
}

impl<R: Files> LaneSegments<'_, R>
where
    R::File: FileExt,
{
    /// Syncs the segment that isn't among the shared files, if one is open.
    fn sync_added(&mut self) -> io::Result<()> {
        let Some(added) = &self.added else {
            return Ok(());
        };
        let synced = added.file.sync_all();
        if synced.is_err() {
            self.sync_failed = true;
        }
        synced
    }

    /// Syncs these files, and the segment that isn't among them.
    fn sync_all(&mut self, shared: &[SharedFiles<R::File>]) -> io::Result<()> {
        for files in shared {
            let synced = files.sync();
            if synced.is_err() {
                self.sync_failed = true;
            }
            synced?;
        }
        self.sync_added()
    }

    /// The file of a segment. One that isn't among the shared files is opened when it is needed, or
    /// created if `create` is true. Only the last such one stays open, of whatever relation; it is
    /// synced before the next is opened.
    fn file_of<'s, 'f: 's>(
        &'s mut self,
        files: &'f SharedFiles<R::File>,
        segment: u32,
        create: bool,
    ) -> io::Result<&'s R::File> {
        if (segment as usize) < files.files.len() {
            return Ok(&files.files[segment as usize]);
        }
        let is_open =
            matches!(&self.added, Some(added) if added.is(files.rel, files.fork, segment));
        if !is_open {
            self.sync_added()?;
            let path = files.path.as_str();
            let file = open_segment(self.rt, self.alloc, path, segment, create)?;
            self.added = Some(AddedSegment {
                rel: files.rel,
                fork: files.fork,
                number: segment,
                file,
            });
        }
        match &self.added {
            Some(added) => Ok(&added.file),
            None => Err(ErrorKind::NotFound.into()),
        }
    }

    /// Zeroes all blocks from a fork's end up to this one, and opens or creates its segment.
    fn fill_gap(&mut self, files: &SharedFiles<R::File>, block: u32) -> io::Result<()>
        requires { block < 2 ^ 32 - 1 }
    {
        let end = files.blocks();
        if block < end {
            return Ok(());
        }
        let seg_blocks = self.seg_blocks;
        let (first, end_place) = segment_place(end, seg_blocks);
        let (last, block_place) = segment_place(block, seg_blocks);
        for segment in first..last + 1 {
            let from = if segment == first { end_place } else { 0 };
            let upto = if segment == last {
                block_place
            } else {
                seg_blocks
            };
            let file = self.file_of(files, segment, true)?;
            zero_blocks(file, from, upto)?;
        }
        Ok(())
    }

    fn read(
        &mut self,
        files: &SharedFiles<R::File>,
        block: u32,
        page: &mut Page,
    ) -> io::Result<()> {
        if block >= files.blocks() {
            return Err(ErrorKind::InvalidInput.into());
        }
        let (segment, place) = segment_place(block, self.seg_blocks);
        let file = self.file_of(files, segment, false)?;
        page.read_at(file, start_of(place))
    }

    fn write(&mut self, files: &SharedFiles<R::File>, block: u32, page: &Page) -> io::Result<()>
        requires { block < 2 ^ 32 - 1 }
    {
        self.fill_gap(files, block)?;
        let (segment, place) = segment_place(block, self.seg_blocks);
        let file = self.file_of(files, segment, false)?;
        file.write_all_at(page.bytes(), start_of(place))?;
        files.reach(block);
        Ok(())
    }
}

/// The files of a catalogue, as one lane uses them.
#[derive(Drop)]
struct LaneFiles<'a, R: Files> {
    shared: Arc<Vec<SharedFiles<R::File>>, Global>,
    segments: LaneSegments<'a, R>,
}

impl<R: Files> LaneFiles<'_, R>
where
    R::File: FileExt,
{
    fn read(&mut self, tag: Tag, page: &mut Page) -> io::Result<()> {
        let files = files_of(&self.shared, tag)?;
        self.segments.read(files, tag.block, page)
    }

    fn write(&mut self, tag: Tag, page: &Page) -> io::Result<()> {
        let files = files_of(&self.shared, tag)?;
        self.segments.write(files, tag.block, page)
    }

    /// Fails if any sync of the lane has failed, this one or an earlier one.
    fn sync(&mut self) -> io::Result<()> {
        if self.segments.sync_failed {
            return Err(ErrorKind::Other.into());
        }
        self.segments.sync_all(self.shared.as_slice())
    }
}

/// A lane over the files of a catalogue, which all lanes of one opening share.
///
/// A block past the end of its relation's fork can be written too: the blocks between are zeroed,
/// and missing segments are created. Of each fork of a relation at most one lane at a time may
/// write past the end. Once a sync has failed, each later one does: what that one was to make
/// durable may be lost (PostgreSQL panics then, unless `data_sync_retry` is set).
/// The tool's one relation is a catalogue of one entry.
#[derive(Drop)]
pub struct FileLane<'a, R: Files> {
    files: LaneFiles<'a, R>,
    read_faults: FaultCount,
    write_faults: FaultCount,
    history: LaneHistory,
}

impl<'a, R: Files> FileLane<'a, R> {
    pub(crate) fn new(
        rt: &'a R,
        alloc: Global,
        shared: Arc<Vec<SharedFiles<R::File>>, Global>,
        seg_blocks: u32,
    ) -> FileLane<'a, R>
        requires { 1 ≤ seg_blocks }
        ensures reads { result.read_faults.count ≡ 0 }
        ensures writes { result.write_faults.count ≡ 0 }
        ensures unsynced { unsynced_in result.history ≡ no_marks }
    {
        let segments = LaneSegments {
            rt,
            alloc,
            added: None,
            sync_failed: false,
            seg_blocks,
        };
        FileLane {
            files: LaneFiles { shared, segments },
            read_faults: FaultCount::new(),
            write_faults: FaultCount::new(),
            history: LaneHistory::new(),
        }
    }

    /// How many reads failed.
    pub(crate) fn read_faults(&self) -> u64
        ensures { result ≡ self.now.read_faults.count }
    {
        self.read_faults.get()
    }

    /// How many writes and syncs failed.
    pub(crate) fn write_faults(&self) -> u64
        ensures { result ≡ self.now.write_faults.count }
    {
        self.write_faults.get()
    }
}

impl<R: Files> BlockLane for FileLane<'_, R>
where
    R::File: FileExt,
{
    ghost contents = { λ l. None };

    ghost failed_writes = { λ l. no_marks };

    ghost unsynced = { λ l. unsynced_in l.history };

    ghost room = { λ _ _. false };

    ghost read_faults = { λ l. l.read_faults.count };

    ghost write_faults = { λ l. l.write_faults.count };

    ghost calls = { λ l. calls_in l.history };

    /// Fails for a block past the end of its fork, and for one of a relation or a fork that wasn't
    /// opened.
    fn read(&mut self, tag: Tag, page: &mut Page) -> Result<(), Failed> {
        self.history.count_call();
        if self.files.read(tag, page).is_ok() {
            return Ok(());
        }
        self.read_faults.raise();
        Err(Failed)
    }

    /// Also writes past the end of a fork. Fails for a block of a relation or a fork that wasn't
    /// opened.
    fn write(&mut self, tag: Tag, page: &Page) -> Result<(), Failed> {
        self.history.count_call();
        self.history.mark_written(tag);
        if self.files.write(tag, page).is_ok() {
            return Ok(());
        }
        self.write_faults.raise();
        Err(Failed)
    }

    fn sync(&mut self) -> Result<(), Failed> {
        self.history.count_call();
        if self.files.sync().is_ok() {
            self.history.mark_synced();
            return Ok(());
        }
        self.write_faults.raise();
        Err(Failed)
    }

    ghost read_faults_fit = { λ l. l.read_faults.fits };

    ghost write_faults_fit = { λ l. l.write_faults.fits };

    ghost whole = { λ l. tt };

    ghost has_room = { λ l. tt };
}
