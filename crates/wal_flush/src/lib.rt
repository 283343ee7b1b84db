//! The log in front of the pages (`xlog.c`), over `frame_table`. [`begin_log`] writes the head of a
//! new log, which `Manager::start` needs.
//!
//! The rest is for the crates above: [`insert`] appends a record with a whole page and answers its
//! position (`XLogInsert`), [`flush_to`] makes the log durable up to a position (`XLogFlush`), and
//! [`log_end`] and [`flushed`] load how far it is.
#![tactic(auto)]

mod flushes;
mod head;
mod inserts;
mod outings;
mod words;

pub use flushes::{FlushLog, FlushedBy, flush_to};
pub use head::begin_log;
pub use inserts::{InsertError, insert};
pub use table_rule::LAST_POSITION;
pub use words::{flushed, log_end};
