//! The files of a catalogue: how a host is asked for them, and how they are opened.
//!
//! No two entries have a file in common. Paths are compared as text before anything is opened: one
//! that is another's with `.` and digits after it may become a segment of that one. Files that are
//! there are compared by device and inode. Not compared are segments that come later behind another
//! name of their directory, and links that other programs make meanwhile.
ghost use Rattle.std.specs.Prelude.{◌≡◌, ◌+◌, IfOk, OnOk, length};
ghost use Rattle.std.specs.Bool.{OnFalse};
ghost use Rattle.std.specs.List.{list_any};
ghost use Rattle.segment_files.specs.Catalog.{HaveNoClashes, clashes};

use crate::opening::{FileIdentity, Segments, open_files};
use crate::shared::SharedFiles;
use block_tag::{Fork, RelNo};
use segment_store::{HostError, is_file_of};
use std::alloc::Global;
use std::rt::Files;

/// A fork of a relation, by the relation's number in the catalogue, and the path of its first
/// segment.
#[derive(Clone, Copy)]
pub struct CatalogFile<'a> {
    pub rel: RelNo,
    pub fork: Fork,
    pub path: &'a str,
}

/// The files of a catalogue that are open: how many blocks each entry has, in the order of the
/// entries, and the lanes, each of which reaches all files.
#[derive(Drop)]
pub struct OpenedCatalog<L> {
    pub blocks: Vec<u32>,
    pub lanes: Vec<L>,
}

impl CatalogFile<'_> {
    /// Whether both entries are of one fork of a relation, or one's path is a segment's of the
    /// other.
    fn clashes(&self, other: &CatalogFile<'_>) -> bool
        ensures { result ≡ clashes self.now other.now }
    {
        if self.rel == other.rel && self.fork.number() == other.fork.number() {
            return true;
        }
        is_file_of(self.path, other.path) || is_file_of(other.path, self.path)
    }

    /// Whether the entry clashes with one of these.
    fn clashes_with(&self, others: &[CatalogFile<'_>]) -> bool
        ensures { result ≡ list_any (clashes self.now) others.now }
    {
        others.iter().any(|other| self.clashes(other))
    }
}

/// Whether an entry clashes with an earlier one.
fn have_clashes(entries: &[CatalogFile<'_>]) -> bool
    ensures { OnFalse result (HaveNoClashes entries.now) }
{
    for (place, entry) in entries.iter().enumerate() {
        if entry.clashes_with(&entries[..place]) {
            return true;
        }
    }
    false
}

/// The files of a catalogue's entries: what lanes share, how many blocks each entry has, and which
/// files they are.
#[derive(Drop)]
pub(crate) struct CatalogFiles<F: Drop> {
    pub(crate) shared: Vec<SharedFiles<F>>,
    pub(crate) blocks: Vec<u32>,
    pub(crate) identities: Vec<FileIdentity>,
}

impl<F: Drop> CatalogFiles<F> {
    fn new(alloc: Global) -> CatalogFiles<F>
        ensures { length result.blocks.items ≡ 0 }
    {
        CatalogFiles {
            shared: Vec::new(alloc),
            blocks: Vec::new(alloc),
            identities: Vec::new(alloc),
        }
    }

    /// Adds the files of one more entry. That one of them is an earlier entry's, if only by a link,
    /// is a failure.
    fn add(
        &mut self,
        alloc: Global,
        entry: CatalogFile<'_>,
        segments: Segments<F>,
    ) -> Result<(), HostError>
        ensures { OnOk result (length self.new.blocks.items ≡ length self.old.blocks.items + 1) }
    {
        let identities = &self.identities;
        if segments
            .identities
            .iter()
            .any(|found| identities.contains(found))
        {
            return Err(HostError::Failed);
        }
        self.identities
            .extend_from_slice(&segments.identities)
            .map_err(|_| HostError::Memory)?;
        self.blocks
            .push(segments.blocks)
            .map_err(|_| HostError::Memory)?;
        let path = String::from_str(alloc, entry.path).map_err(|_| HostError::Memory)?;
        let files = SharedFiles::new(entry.rel, entry.fork, path, segments);
        self.shared.push(files).map_err(|_| HostError::Memory)
    }
}

/// Opens the files of all entries. That two entries clash, or have a file in common, is a failure.
pub(crate) fn open_catalog<R: Files>(
    rt: &R,
    alloc: Global,
    entries: &[CatalogFile<'_>],
    seg_blocks: u32,
) -> Result<CatalogFiles<R::File>, HostError>
    ensures blocks { IfOk result (λ files. length files.blocks.items ≡ length entries.now) }
    ensures clashes { OnOk result (HaveNoClashes entries.now) }
{
    if have_clashes(entries) {
        return Err(HostError::Failed);
    }
    let mut files = CatalogFiles::new(alloc);
    for entry in entries {
        let segments = open_files(rt, alloc, entry.path, seg_blocks)?;
        files.add(alloc, *entry, segments)?;
    }
    Ok(files)
}
