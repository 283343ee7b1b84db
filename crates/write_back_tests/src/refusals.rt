//! A put, a flush and a checkpoint, of which one device call fails.
use crate::acts::{Act, Answer, Copied, Played};
use crate::cases::{Case, NO_ACTS, check_case, checkpoint, put, read, refused};
use crate::checks::check_eq;
use crate::devices::Failing;
use crate::devices::TestCall::{Append, ReadBlock, SyncLane, SyncLog, WriteBlock};
use backend_pass::{FlushError, PutError, ReadError};
use checkpointer::CheckpointError;
use manager_bench::bench::block;
use page_layout::Lsn;
use std::alloc::Global;
use std::process::Abort;
use std::sync::Wait;
use std::test::Fail;

/// What the devices hold: the position of the page of block 0 in the lane, and how many bytes the
/// log has.
#[derive(Clone, Copy, PartialEq, Debug)]
struct Stored {
    lsn: Option<Lsn>,
    log: usize,
}

impl Stored {
    fn of(run: &Played) -> Stored {
        Stored {
            lsn: run.page_lsn(0),
            log: run.log.bytes.len(),
        }
    }
}

/// What they hold after a put, a flush and a checkpoint.
const STORED: Stored = Stored {
    lsn: Some(8224),
    log: 8224,
};

/// Fails the test unless this comes of a case, and the devices hold this then.
fn check_stored<R: Abort + Wait>(
    rt: &R,
    alloc: Global,
    case: &Case<'_>,
    stored: Stored,
) -> Result<(), Fail> {
    let run = check_case(rt, alloc, case)?;
    check_eq!(rt; Stored::of(&run), stored);
    Ok(())
}

/// A flush that was made, and whether a page was written; or why not.
fn flush(end: Result<bool, FlushError>) -> Answer {
    Answer::Flush(Some(end))
}

/// A copy of block 0 whose page has this position.
fn copy(lsn: Lsn) -> Answer {
    Answer::Copy(Ok(Copied { lsn, place: lsn }))
}

/// A put that was refused.
fn put_refused(why: PutError) -> Answer {
    Answer::Put(Some(Err(why)))
}

#[test]
fn a_put_is_flushed_and_stored(rt: HostRuntime) -> Result<(), Fail> {
    let case = Case {
        acts: &[
            Act::Read(0),
            Act::Put(0),
            Act::Copy(0),
            Act::Flush(0),
            Act::Checkpoint,
        ],
        answers: &[
            read(0, false),
            put(8224),
            copy(8224),
            flush(Ok(true)),
            checkpoint(8224, 0),
        ],
        calls: Some(&[ReadBlock(0), Append, SyncLog, WriteBlock(0), SyncLane]),
        ..NO_ACTS
    };
    check_stored(&rt, rt.alloc(), &case, STORED)
}

#[test]
fn a_read_that_failed_is_made_again(rt: HostRuntime) -> Result<(), Fail> {
    let case = Case {
        lane_fails: Failing::Read(1),
        acts: &[
            Act::Read(0),
            Act::Read(0),
            Act::Put(0),
            Act::Flush(0),
            Act::Checkpoint,
        ],
        answers: &[
            Answer::Read(Err(ReadError::ReadFault { tag: block(0) })),
            read(0, false),
            put(8224),
            flush(Ok(true)),
            checkpoint(8224, 0),
        ],
        calls: Some(&[
            ReadBlock(0),
            ReadBlock(0),
            Append,
            SyncLog,
            WriteBlock(0),
            SyncLane,
        ]),
        ..NO_ACTS
    };
    check_stored(&rt, rt.alloc(), &case, STORED)
}

#[test]
fn an_append_that_failed_leaves_the_page(rt: HostRuntime) -> Result<(), Fail> {
    let case = Case {
        log_fails: Failing::Write(1),
        acts: &[
            Act::Put(0),
            Act::Copy(0),
            Act::Flush(0),
            Act::Checkpoint,
            Act::Put(0),
        ],
        answers: &[
            put_refused(PutError::LogFault),
            copy(0),
            flush(Ok(true)),
            checkpoint(0, 0),
            put_refused(PutError::LogDown { at: 0 }),
        ],
        calls: Some(&[ReadBlock(0), Append, WriteBlock(0), SyncLane]),
        ..NO_ACTS
    };
    let stored = Stored {
        lsn: Some(0),
        log: 0,
    };
    check_stored(&rt, rt.alloc(), &case, stored)
}

#[test]
fn a_log_that_is_not_synced_keeps_the_page_from_its_lane(rt: HostRuntime) -> Result<(), Fail> {
    let case = Case {
        log_fails: Failing::Sync(1),
        acts: &[
            Act::Put(0),
            Act::Flush(0),
            Act::Flush(0),
            Act::Put(0),
            Act::Checkpoint,
        ],
        answers: &[
            put(8224),
            flush(Err(FlushError::LogFault)),
            flush(Err(FlushError::LogDown { at: 8224 })),
            put_refused(PutError::LogDown { at: 8224 }),
            refused(CheckpointError::LogDown { at: 8224 }),
        ],
        calls: Some(&[ReadBlock(0), Append, SyncLog]),
        ..NO_ACTS
    };
    let stored = Stored {
        lsn: Some(0),
        log: 8224,
    };
    check_stored(&rt, rt.alloc(), &case, stored)
}

#[test]
fn a_write_that_failed_is_made_by_the_next_flush(rt: HostRuntime) -> Result<(), Fail> {
    let case = Case {
        lane_fails: Failing::Write(1),
        acts: &[Act::Put(0), Act::Flush(0), Act::Flush(0), Act::Checkpoint],
        answers: &[
            put(8224),
            flush(Err(FlushError::WriteFault { tag: block(0) })),
            flush(Ok(true)),
            checkpoint(8224, 0),
        ],
        calls: Some(&[
            ReadBlock(0),
            Append,
            SyncLog,
            WriteBlock(0),
            WriteBlock(0),
            SyncLane,
        ]),
        ..NO_ACTS
    };
    check_stored(&rt, rt.alloc(), &case, STORED)
}

#[test]
fn a_lane_that_is_not_synced_is_synced_again(rt: HostRuntime) -> Result<(), Fail> {
    let case = Case {
        lane_fails: Failing::Sync(1),
        acts: &[Act::Put(0), Act::Flush(0), Act::Checkpoint, Act::Checkpoint],
        answers: &[
            put(8224),
            flush(Ok(true)),
            refused(CheckpointError::SyncFault { lane: 0 }),
            checkpoint(8224, 0),
        ],
        calls: Some(&[
            ReadBlock(0),
            Append,
            SyncLog,
            WriteBlock(0),
            SyncLane,
            SyncLane,
        ]),
        ..NO_ACTS
    };
    check_stored(&rt, rt.alloc(), &case, STORED)
}
