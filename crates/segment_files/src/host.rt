//! A host over the file system.
ghost use Rattle.std.specs.Prelude.{[], ◌+◌, ◌≡◌, ◌≤◌, All, false, None, IfOk, OnOk, length};
ghost use Rattle.std.specs.Prelude.{sum_by};
ghost use Rattle.std.specs.Option.{option_map_or};
ghost use Rattle.segment_store.specs.Contents.{no_marks};
ghost use Rattle.segment_store.specs.History.{unsynced_in};
ghost use Rattle.segment_store.specs.Faults.{HasOpeningCause};
ghost use Rattle.segment_files.specs.Catalog.{HaveNoClashes};
ghost use Rattle.byte_devices.specs.Faults.{Added};

use crate::catalog::{CatalogFile, OpenedCatalog, open_catalog};
use crate::lane::FileLane;
use crate::opening::{FileIdentity, open_empty, open_source};
use crate::shared::SharedFiles;
use block_tag::RelNo;
use byte_devices::{FaultCount, FileLog, FileSource};
use segment_store::{Host, HostError, LogOpen, Opened, fork_of_path};
use std::alloc::Global;
use std::io::{ErrorKind, Read};
use std::os::unix::fs::FileExt;
use std::rt::Files;
use std::sync::Arc;

/// A catalogue as it was opened, and which files it has.
#[derive(Drop)]
struct OpenedFiles<'a, R: Files> {
    opened: OpenedCatalog<FileLane<'a, R>>,
    identities: Vec<FileIdentity>,
}

/// Counts the failed reads of a source, if there is one.
fn count_source<F: Read + Drop>(faults: &mut FaultCount, source: &Option<FileSource<F>>)
    ensures { Added faults.old.count
        (option_map_or (λ s. s.faults.count) source.now 0)
        faults.new.count }
{
    if let Some(source) = source {
        faults.add(source.faults());
    }
}

/// A host over the file system.
#[derive(Drop)]
pub struct FileHost<'a, R: Files> {
    rt: &'a R,
    /// The files of the relations that were opened last.
    opened: Vec<FileIdentity>,
    read_faults: FaultCount,
    write_faults: FaultCount,
    log_faults: FaultCount,
}

impl<'a, R: Files> FileHost<'a, R> {
    pub fn new(rt: &'a R, alloc: Global) -> FileHost<'a, R>
        ensures reads { result.read_faults.count ≡ 0 }
        ensures writes { result.write_faults.count ≡ 0 }
        ensures logs { result.log_faults.count ≡ 0 }
    {
        FileHost {
            rt,
            opened: Vec::new(alloc),
            read_faults: FaultCount::new(),
            write_faults: FaultCount::new(),
            log_faults: FaultCount::new(),
        }
    }

    /// How many openings of relations and of sources failed, and reads of lanes and of sources that
    /// were given back.
    pub fn read_faults(&self) -> u64
        ensures { result ≡ self.now.read_faults.count }
    {
        self.read_faults.get()
    }

    /// How many writes and syncs failed of lanes that were given back.
    pub fn write_faults(&self) -> u64
        ensures { result ≡ self.now.write_faults.count }
    {
        self.write_faults.get()
    }

    /// So many lanes over these files.
    fn lanes_over(
        &self,
        alloc: Global,
        shared: Vec<SharedFiles<R::File>>,
        seg_blocks: u32,
        count: u32,
    ) -> Result<Vec<FileLane<'a, R>>, HostError>
        requires seg_blocks { 1 ≤ seg_blocks }
        ensures count { IfOk result (λ lanes. length lanes.items ≡ count) }
        ensures reads { IfOk result (λ lanes.
            sum_by (λ lane. lane.read_faults.count) lanes.items ≡ 0) }
        ensures writes { IfOk result (λ lanes.
            sum_by (λ lane. lane.write_faults.count) lanes.items ≡ 0) }
        ensures synced { IfOk result (λ lanes.
            All (λ lane. unsynced_in lane.history ≡ no_marks) lanes.items) }
    {
        let files = Arc::new(alloc, shared).map_err(|_| HostError::Memory)?;
        let mut lanes = Vec::new(alloc);
        for _i in 0..count {
            let shared = Arc::try_clone(&files).map_err(|_| HostError::Memory)?;
            lanes
                .push(FileLane::new(self.rt, alloc, shared, seg_blocks))
                .map_err(|_| HostError::Memory)?;
        }
        Ok(lanes)
    }

    /// Opens the files of a catalogue as lanes that share them.
    fn open(
        &self,
        alloc: Global,
        entries: &[CatalogFile<'_>],
        seg_blocks: u32,
        count: u32,
    ) -> Result<OpenedFiles<'a, R>, HostError>
        requires seg_blocks { 1 ≤ seg_blocks }
        ensures blocks { IfOk result (λ found.
            length found.opened.blocks.items ≡ length entries.now) }
        ensures clashes { OnOk result (HaveNoClashes entries.now) }
        ensures count { IfOk result (λ found. length found.opened.lanes.items ≡ count) }
        ensures reads { IfOk result (λ found.
            sum_by (λ lane. lane.read_faults.count) found.opened.lanes.items ≡ 0) }
        ensures writes { IfOk result (λ found.
            sum_by (λ lane. lane.write_faults.count) found.opened.lanes.items ≡ 0) }
        ensures synced { IfOk result (λ found.
            All (λ lane. unsynced_in lane.history ≡ no_marks) found.opened.lanes.items) }
    {
        let files = open_catalog(self.rt, alloc, entries, seg_blocks)?;
        let lanes = self.lanes_over(alloc, files.shared, seg_blocks, count)?;
        Ok(OpenedFiles {
            opened: OpenedCatalog {
                blocks: files.blocks,
                lanes,
            },
            identities: files.identities,
        })
    }

    /// Opens the files of a catalogue, whose segments have up to `seg_blocks` blocks, as `lanes`
    /// lanes: each lane reaches all files. As `Host::relation` it takes the place of what was
    /// opened before.
    ///
    /// `Missing` comes if the first segment of an entry isn't there. `Failed` counts as a failed
    /// read, and comes also if two entries are of one fork of a relation, if the path of one is
    /// that of a segment of another, or if two have a file in common, even if only by a link.
    pub fn relations(
        &mut self,
        alloc: Global,
        entries: &[CatalogFile<'_>],
        seg_blocks: u32,
        lanes: u32,
    ) -> Result<OpenedCatalog<FileLane<'a, R>>, HostError>
        requires seg_blocks { 1 ≤ seg_blocks }
        requires lanes { 1 ≤ lanes }
        ensures blocks { IfOk result (λ opened. length opened.blocks.items ≡ length entries.now) }
        ensures clashes { OnOk result (HaveNoClashes entries.now) }
        ensures count { IfOk result (λ opened. length opened.lanes.items ≡ lanes) }
        ensures lane_reads { IfOk result (λ opened.
            sum_by (λ lane. lane.read_faults.count) opened.lanes.items ≡ 0) }
        ensures lane_writes { IfOk result (λ opened.
            sum_by (λ lane. lane.write_faults.count) opened.lanes.items ≡ 0) }
        ensures synced { IfOk result (λ opened.
            All (λ lane. unsynced_in lane.history ≡ no_marks) opened.lanes.items) }
        ensures reads { HasOpeningCause self.old.read_faults.count self.new.read_faults.count
            result }
        ensures writes { self.new.write_faults.count ≡ self.old.write_faults.count }
        ensures logs { self.new.log_faults.count ≡ self.old.log_faults.count }
    {
        match self.open(alloc, entries, seg_blocks, lanes) {
            Ok(found) => {
                self.opened = found.identities;
                Ok(found.opened)
            }
            Err(HostError::Missing) => Err(HostError::Missing),
            Err(HostError::Memory) => Err(HostError::Memory),
            Err(HostError::Failed) => {
                self.read_faults.raise();
                Err(HostError::Failed)
            }
        }
    }
}

impl<'a, R: Files + Sync> Host for FileHost<'a, R>
where
    R::File: FileExt + Send + Sync,
{
    type Lane = FileLane<'a, R>;

    type Log = FileLog<R::File>;

    type Source = FileSource<R::File>;

    ghost contents = { λ h. None };

    ghost failed_writes = { λ h path block. false };

    ghost open_at = { λ h. record { path = []; seg_blocks = 0 } };

    ghost room = { λ h path seg_blocks. 0 };

    ghost logs = { λ h. None };

    ghost log_at = { λ h. [] };

    ghost read_faults = { λ h. h.read_faults.count };

    ghost write_faults = { λ h. h.write_faults.count };

    ghost log_faults = { λ h. h.log_faults.count };

    fn relation(
        &mut self,
        alloc: Global,
        path: &str,
        seg_blocks: u32,
        lanes: u32,
    ) -> Result<Opened<FileLane<'a, R>>, HostError> {
        let entry = CatalogFile {
            rel: RelNo(0),
            fork: fork_of_path(path),
            path,
        };
        match self.relations(alloc, &[entry], seg_blocks, lanes) {
            Ok(opened) => Ok(Opened {
                blocks: opened.blocks[0],
                lanes: opened.lanes,
            }),
            Err(error) => Err(error),
        }
    }

    fn log(&mut self, _alloc: Global, path: &str) -> Result<FileLog<R::File>, LogOpen> {
        if let Ok(file) = open_empty(self.rt, path, &self.opened) {
            return Ok(FileLog::new(file));
        }
        self.log_faults.raise();
        Err(LogOpen::Failed)
    }

    /// Fails for a file of the relations that were opened last.
    fn bytes(&mut self, _alloc: Global, path: &str) -> Result<FileSource<R::File>, HostError> {
        match open_source(self.rt, path, &self.opened) {
            Ok(file) => Ok(FileSource::new(file)),
            Err(error) if error.kind() == ErrorKind::NotFound => Err(HostError::Missing),
            Err(_) => {
                self.read_faults.raise();
                Err(HostError::Failed)
            }
        }
    }

    fn give_back(
        &mut self,
        lanes: Vec<FileLane<'a, R>>,
        log: Option<FileLog<R::File>>,
        source: Option<FileSource<R::File>>,
    )
        ensures reads { Added self.old.read_faults.count
            (sum_by (λ lane. lane.read_faults.count) lanes.entry.items
            + option_map_or (λ s. s.faults.count) source 0)
            self.new.read_faults.count }
        ensures writes { Added self.old.write_faults.count
            (sum_by (λ lane. lane.write_faults.count) lanes.entry.items)
            self.new.write_faults.count }
        ensures log_faults { Added self.old.log_faults.count
            (option_map_or (λ l. l.faults.count) log 0)
            self.new.log_faults.count }
    {
        for lane in &lanes {
            self.read_faults.add(lane.read_faults());
            self.write_faults.add(lane.write_faults());
        }
        count_source(&mut self.read_faults, &source);
        if let Some(log) = log {
            self.log_faults.add(log.faults());
        }
    }

    ghost read_faults_fit = { λ h. h.read_faults.fits };

    ghost write_faults_fit = { λ h. h.write_faults.fits };

    ghost log_faults_fit = { λ h. h.log_faults.fits };

    ghost logs_told = { λ h log. tt };

    ghost sources_told = { λ h source. tt };
}
