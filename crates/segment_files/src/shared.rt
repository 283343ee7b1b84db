//! What the lanes over a catalogue's files share.
ghost use Rattle.std.specs.Prelude.{◌≡◌, ◌-◌, ◌<◌, ◌^◌, IfOk, OnOk};

use crate::opening::Segments;
use block_tag::{Fork, LAST_BLOCK, RelNo, Tag};
use std::fs::OpenFile;
use std::io;
use std::io::ErrorKind;
use std::sync::atomic::{AtomicU32, Ordering};

/// The files of a relation's fork that were opened, the path of the first, and how many blocks
/// there are by now.
#[derive(Drop)]
pub(crate) struct SharedFiles<F: Drop> {
    pub(crate) rel: RelNo,
    pub(crate) fork: Fork,
    pub(crate) path: String,
    pub(crate) files: Vec<F>,
    blocks: AtomicU32,
}

impl<F: Drop> SharedFiles<F> {
    pub(crate) fn new(
        rel: RelNo,
        fork: Fork,
        path: String,
        segments: Segments<F>,
    ) -> SharedFiles<F> {
        SharedFiles {
            rel,
            fork,
            path,
            files: segments.files,
            blocks: AtomicU32::new(segments.blocks),
        }
    }

    /// How many blocks the fork has.
    pub(crate) fn blocks(&self) -> u32 {
        self.blocks.load(Ordering::SeqCst)
    }

    /// Moves the end of the fork past this block, if it was before it.
    pub(crate) fn reach(&self, block: u32)
        requires { block < 2 ^ 32 - 1 }
    {
        if block >= self.blocks() {
            self.blocks.store(block + 1, Ordering::SeqCst);
        }
    }
}

impl<F: OpenFile + Drop> SharedFiles<F> {
    pub(crate) fn sync(&self) -> io::Result<()> {
        for file in self.files.as_slice() {
            file.sync_all()?;
        }
        Ok(())
    }
}

/// The files of a block's relation and fork. A block of another relation or another fork is an
/// error.
pub(crate) fn files_of<F: Drop>(shared: &[SharedFiles<F>], tag: Tag) -> io::Result<&SharedFiles<F>>
    ensures block { OnOk result (tag.block < 2 ^ 32 - 1) }
    ensures own { IfOk result (λ files. (files.now.rel ≡ tag.rel) × (files.now.fork ≡ tag.fork)) }
{
    if tag.block > LAST_BLOCK {
        return Err(ErrorKind::InvalidInput.into());
    }
    for files in shared {
        if files.rel == tag.rel && files.fork == tag.fork {
            return Ok(files);
        }
    }
    Err(ErrorKind::InvalidInput.into())
}
