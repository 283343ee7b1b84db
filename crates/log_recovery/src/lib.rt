//! Recovery: [`recover`] reads a log back and writes the page of each record to its block, up to
//! the first record that isn't well formed, and then syncs the lanes (`PerformWalRecovery`).
//!
//! Give it the lanes with their old contents, the catalogue and a source of the log's bytes. It may
//! be interrupted and called again, as often as you like. [`Redone`] says where the log begins and
//! ends. docs/LOG_FORMAT.md has the format.
#![tactic(auto)]

mod error;
mod head;
mod laws;
mod records;
mod recovering;
mod redo;

pub use error::RecoverError;
pub use head::HEAD_SIZE;
pub use laws::{
    any_bytes_are_read, crashes_are_recovered, crashes_leave_logs, logs_are_read_once,
    parts_agree_elsewhere, recovered_twice, written_logs_are_read,
};
pub use recovering::{Redone, recover};
