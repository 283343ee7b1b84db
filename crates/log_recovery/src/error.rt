//! Why a recovery ended before its end.
use thiserror::Error;

/// Why a recovery ended before its end.
#[derive(Clone, Copy, PartialEq, Eq, Debug, Error)]
pub enum RecoverError {
    #[error("the log's head is bad")]
    BadLog,
    #[error("a read failed")]
    ReadFault,
    #[error("a write or a sync failed")]
    WriteFault,
    #[error("out of memory")]
    Memory,
}
