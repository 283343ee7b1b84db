//! Opens the files of relations, and those of logs.
use page_layout::PAGE_SIZE;
use segment_store::HostError;
use std::alloc::{AllocError, Global};
use std::fs::{Metadata, OpenFile, OpenOptions};
use std::io;
use std::io::ErrorKind;
use std::os::unix::fs::MetadataExt;
use std::rt::Files;

/// What tells files apart whatever their paths: two names of one file agree in both numbers.
#[derive(Clone, Copy, PartialEq, Eq)]
pub(crate) struct FileIdentity {
    device: u64,
    inode: u64,
}

impl From<&Metadata> for FileIdentity {
    fn from(found: &Metadata) -> FileIdentity {
        FileIdentity {
            device: found.dev(),
            inode: found.ino(),
        }
    }
}

/// The files of a relation's segments, and how many blocks they have.
#[derive(Drop)]
pub(crate) struct Segments<F: Drop> {
    pub(crate) files: Vec<F>,
    pub(crate) identities: Vec<FileIdentity>,
    pub(crate) blocks: u32,
}

/// The path of a segment: the plain one, or with a dot and the segment's number.
fn segment_path(alloc: Global, path: &str, segment: u32) -> Result<String, AllocError> {
    if segment == 0 {
        return String::from_str(alloc, path);
    }
    format!(in alloc; "{path}.{segment}")
}

/// What is known of a file. A directory, or what else is no file, is an error.
fn regular_file<F: OpenFile>(file: &F) -> io::Result<Metadata> {
    let found = file.metadata()?;
    if !found.is_file() {
        return Err(ErrorKind::InvalidInput.into());
    }
    Ok(found)
}

/// Opens a file for reading and writing or, if that fails though it is there, for reading alone.
fn open_file<R: Files>(rt: &R, path: &str) -> io::Result<R::File> {
    match OpenOptions::new().read(true).write(true).open(rt, path) {
        Ok(file) => Ok(file),
        Err(error) if error.kind() == ErrorKind::NotFound => Err(error),
        Err(_) => OpenOptions::new().read(true).open(rt, path),
    }
}

/// Opens a segment for reading and writing. If it is missing and `create` is true, it is created.
pub(crate) fn open_segment<R: Files>(
    rt: &R,
    alloc: Global,
    path: &str,
    segment: u32,
    create: bool,
) -> io::Result<R::File> {
    let Ok(name) = segment_path(alloc, path, segment) else {
        return Err(ErrorKind::OutOfMemory.into());
    };
    let file = OpenOptions::new()
        .read(true)
        .write(true)
        .create(create)
        .open(rt, name.as_str())?;
    regular_file(&file)?;
    Ok(file)
}

/// Opens a file for writing: it is created, or emptied if it exists. It isn't emptied before it
/// is known to be none of the files that are open: a path may name one of these by a link.
pub(crate) fn open_empty<R: Files>(
    rt: &R,
    path: &str,
    opened: &[FileIdentity],
) -> io::Result<R::File> {
    let file = OpenOptions::new().write(true).create(true).open(rt, path)?;
    let identity = FileIdentity::from(&file.metadata()?);
    if opened.contains(&identity) {
        return Err(ErrorKind::InvalidInput.into());
    }
    file.set_len(0)?;
    Ok(file)
}

/// Opens a file for reading. One of the relations' files, if only by a link, is an error.
pub(crate) fn open_source<R: Files>(
    rt: &R,
    path: &str,
    opened: &[FileIdentity],
) -> io::Result<R::File> {
    let file = OpenOptions::new().read(true).open(rt, path)?;
    let identity = FileIdentity::from(&regular_file(&file)?);
    if opened.contains(&identity) {
        return Err(ErrorKind::InvalidInput.into());
    }
    Ok(file)
}

/// Opens the segments of a relation from the first on, to the first that is short or missing.
pub(crate) fn open_files<R: Files>(
    rt: &R,
    alloc: Global,
    path: &str,
    seg_blocks: u32,
) -> Result<Segments<R::File>, HostError> {
    let mut files = Vec::new(alloc);
    let mut identities = Vec::new(alloc);
    let mut blocks = 0u32;
    for segment in 0..u32::MAX {
        let name = segment_path(alloc, path, segment).map_err(|_| HostError::Memory)?;
        let file = match open_file(rt, name.as_str()) {
            Ok(file) => file,
            Err(error) if error.kind() == ErrorKind::NotFound => break,
            Err(_) => return Err(HostError::Failed),
        };
        let found = regular_file(&file).map_err(|_| HostError::Failed)?;
        let identity = FileIdentity::from(&found);
        identities.push(identity).map_err(|_| HostError::Memory)?;
        files.push(file).map_err(|_| HostError::Memory)?;
        let count = found.len() / PAGE_SIZE as u64;
        if count < u64::from(seg_blocks) {
            blocks = blocks.saturating_add(count as u32);
            break;
        }
        blocks = blocks.saturating_add(seg_blocks);
        if blocks == u32::MAX {
            break;
        }
    }
    if files.is_empty() {
        return Err(HostError::Missing);
    }
    Ok(Segments {
        files,
        identities,
        blocks,
    })
}
