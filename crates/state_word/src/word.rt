//! What a state word has in it, field by field, and the names of its flags.
//!
//! A new flag takes a line in each of `StateWord`, `fields`, `flag_of`, `cleared_fields`, `Flag`,
//! `bit_place`, `with_flag`, the masks, and the words of 0 in definitions: a definition can't range
//! over the fields of a record.

/// The fields of a state word, as the contracts read them (`specs/Fields.antt`). The program keeps
/// the packed number, and makes no value of this type.
pub struct StateWord {
    /// The reference count: how many pins stand on the frame.
    pub pins: u32,
    /// The usage count of the clock sweep, at most 5 in a word of the manager.
    pub usage: u32,
    /// `BM_LOCKED`: the header is locked.
    pub locked: bool,
    /// `BM_DIRTY`: the page is to be written.
    pub dirty: bool,
    /// `BM_VALID`: the page is the block's.
    pub valid: bool,
    /// `BM_TAG_VALID`: the frame has a block's tag.
    pub tag_valid: bool,
    /// `BM_IO_IN_PROGRESS`: the page is being read or written.
    pub in_progress: bool,
    /// `BM_IO_ERROR`: the last read or write of the page failed.
    pub failed: bool,
    /// `BM_JUST_DIRTIED`: the page was changed since its write began.
    pub just_dirtied: bool,
    /// `BM_PIN_COUNT_WAITER`: a backend waits until its pin is the only one.
    pub awaited: bool,
    /// `BM_CHECKPOINT_NEEDED`: the checkpoint under way has still to write the page.
    pub checkpoint_needed: bool,
    /// `BM_PERMANENT`: the relation is a permanent one.
    pub permanent: bool,
    /// The number of the backend that waits, or 0 (a field of this project, not of PostgreSQL).
    /// It is in the high half of the word, so that `OtherWaiter` can name it; PostgreSQL keeps it
    /// beside the word, and reports only that there is more than one waiter.
    pub waiter: u32,
}

/// One flag of a state word, by the name that `buf_internals.h` gives it after `BM_`, lowest bit
/// first.
#[derive(Clone, Copy, PartialEq, Eq, Debug)]
pub enum Flag {
    Locked,
    Dirty,
    Valid,
    TagValid,
    IoInProgress,
    IoError,
    JustDirtied,
    PinCountWaiter,
    CheckpointNeeded,
    Permanent,
}

/// How the read or write of a page ended.
#[derive(Clone, Copy, PartialEq, Eq, Debug)]
pub enum IoEnd {
    /// A read gave a sound page.
    ReadOk,
    /// A write was done.
    WriteOk,
    /// A read or a write failed.
    Bad,
}
