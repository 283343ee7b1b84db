//! How a checkpoint ends.
ghost use Rattle.std.specs.Prelude.{◌≡◌};
ghost use Rattle.checkpointer.specs.Refusals.{refusal_of_flush, refusal_of_log};

use backend_pass::{FlushError, FlushLog};
use block_tag::Tag;
use page_layout::Lsn;
use thiserror::Error;

/// What a checkpoint did.
#[derive(Clone, Copy, PartialEq, Eq, Debug)]
pub struct Checkpoint {
    /// The log's end as the checkpoint began. What was logged up to there is in the lanes, but for
    /// blocks whose last write failed.
    pub upto: Lsn,
    /// How many pages it wrote.
    pub written: u32,
}

/// Why a checkpoint stopped before its end.
/// No further lane is synced then. What was marked stays marked; the next checkpoint begins anew,
/// and syncs every lane.
#[derive(Clone, Copy, PartialEq, Eq, Debug, Error)]
pub enum CheckpointError {
    /// The lane failed to write the page of this block.
    #[error("a page was not written")]
    WriteFault { tag: Tag },
    /// The log failed, which is down from now on.
    #[error("the log failed")]
    LogFault,
    /// A call of the log failed before; the log ended here.
    #[error("the log is down at {at}")]
    LogDown { at: Lsn },
    /// A page has a position past the log's end.
    #[error("the log ends at {end}, before {lsn}")]
    LogShort { lsn: Lsn, end: Lsn },
    /// The sync of this lane failed.
    #[error("lane {lane} was not synced")]
    SyncFault { lane: u32 },
}

/// The error of a frame's write that was refused.
pub(crate) fn unwritten(why: FlushError) -> CheckpointError
    ensures { result ≡ refusal_of_flush why }
{
    match why {
        FlushError::WriteFault { tag } => CheckpointError::WriteFault { tag },
        FlushError::LogFault => CheckpointError::LogFault,
        FlushError::LogDown { at } => CheckpointError::LogDown { at },
        FlushError::LogShort { lsn, end } => CheckpointError::LogShort { lsn, end },
    }
}

/// The error of a flush of the log that was refused.
pub(crate) fn unflushed(why: FlushLog) -> CheckpointError
    ensures { result ≡ refusal_of_log why }
{
    match why {
        FlushLog::LogFault => CheckpointError::LogFault,
        FlushLog::LogDown { at } => CheckpointError::LogDown { at },
        FlushLog::LogShort { lsn, end } => CheckpointError::LogShort { lsn, end },
    }
}
