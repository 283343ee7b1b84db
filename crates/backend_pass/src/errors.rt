//! Why a manager is not started, why a block is not read, and why a page is not written.

use crate::pinned::Pinned;
use block_tag::Tag;
use page_layout::Lsn;
use thiserror::Error;

/// One of the numbers of a `Config`.
#[derive(Clone, Copy, PartialEq, Eq, Debug)]
pub enum Setting {
    Frames,
    Passes,
    Lanes,
}

#[derive(Clone, Copy, PartialEq, Eq, Debug, Error)]
pub enum StartError {
    /// A number of the configuration is out of range: frames are 16 to 4096, passes 1 to 64, lanes
    /// 1 to 16.
    #[error("{which:?} out of range: {number}")]
    BadConfig { which: Setting, number: u32 },
    /// Another number of lanes was given than the configuration says.
    #[error("{wanted} lanes wanted, {given} given")]
    LanesDiffer { wanted: u32, given: usize },
    #[error("out of memory")]
    Memory,
}

/// A refusal, with the devices, which were not called.
pub struct StartRefused<L, G> {
    pub why: StartError,
    pub lanes: Vec<L>,
    pub log: G,
}

/// Why a block was not read. What the pass had pinned is as before.
#[derive(Clone, Copy, PartialEq, Eq, Debug, Error)]
pub enum ReadError {
    /// The block is past the end of the relation's fork, which has this many blocks: none if the
    /// catalogue lacks the relation.
    #[error("block {block} of {blocks}")]
    PastEnd { block: u32, blocks: u32 },
    /// Callers have as many tokens of the pass as they may.
    #[error("a pass gives at most 8 tokens")]
    PinsFull,
    /// Each frame, of this many, was seen pinned. The census has their words.
    #[error("each of {frames} frames is pinned")]
    NoUnpinned { frames: u32 },
    /// The lane failed to read the page of this block.
    #[error("a page was not read")]
    ReadFault { tag: Tag },
    /// The lane failed to write the page of this block, whose frame was to be freed.
    #[error("a page was not written")]
    WriteFault { tag: Tag },
    /// The log failed, which is down from now on.
    #[error("the log failed")]
    LogFault,
    /// A call of the log failed before; the log ended here.
    #[error("the log is down at {at}")]
    LogDown { at: Lsn },
    /// A page that was to be written has a position past the log's end.
    #[error("the log ends at {end}, before {lsn}")]
    LogShort { lsn: Lsn, end: Lsn },
    /// The lane gave a page of this block that isn't sound.
    #[error("a page is not sound")]
    Unsound { tag: Tag },
}

/// Why the page of a frame was not written. The frame stays dirty.
#[derive(Clone, Copy, PartialEq, Eq, Debug, Error)]
pub enum FlushError {
    /// The lane failed to write the page of this block.
    #[error("a page was not written")]
    WriteFault { tag: Tag },
    /// The log failed, which is down from now on.
    #[error("the log failed")]
    LogFault,
    /// A call of the log failed before; the log ended here.
    #[error("the log is down at {at}")]
    LogDown { at: Lsn },
    /// The page has a position past the log's end.
    #[error("the log ends at {end}, before {lsn}")]
    LogShort { lsn: Lsn, end: Lsn },
}

/// A refusal, with the token, which is as it was.
pub struct Refused<E> {
    pub pinned: Pinned,
    pub why: E,
}
