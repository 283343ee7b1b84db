//! The buffer manager as an engine sees it (`bufmgr.h`): a [`Manager`] has the pool, the lanes and
//! the log, and each backend works through a [`Pass`] of its own.
//!
//! 1. [`Manager::start`] takes a [`Config`], a catalogue, the lanes and a new log, and returns the manager with all
//!    its passes. Give one to each thread, and share the manager by `&`.
//! 2. [`Pass::read_buffer`] pins a block and returns a token, [`Pinned`]; `share`, `exclusive` and `lock_cleanup` trade
//!    it for one with the content lock. Read and `put` pages with that, then unlock and `release`.
//! 3. [`Manager::close`] takes all passes back and returns the devices.
//!
//! Tokens, passes and the manager aren't `Drop`: forget one, and the compiler complains.
//! `docs/LIBRARY.md` says how an engine uses them.
#![tactic(auto)]

mod cleanup;
mod closing;
mod counting;
mod errors;
mod flushing;
mod inspecting;
mod locks;
mod manager;
mod marked;
mod met;
mod pass;
mod pass_memory;
mod pinned;
mod pool;
mod pool_memory;
mod putting;
mod reading;
mod reads;
mod seating;
mod seats;
mod syncs;
mod tokens;

pub use buffer_frames::{HintSeen, Seen, SyncOnly, Synced};
pub use cleanup_lock::{CleanupError, TryCleanup};
pub use content_locks::TryLock;
pub use errors::{FlushError, ReadError, Refused, Setting, StartError, StartRefused};
pub use frame_table::Config;
pub use manager::Manager;
pub use marked::MarkedFrame;
pub use met::Met;
pub use pass::Pass;
pub use pinned::Pinned;
pub use tokens::{Exclusive, Shared};
pub use wal_flush::{FlushLog, InsertError as PutError};
