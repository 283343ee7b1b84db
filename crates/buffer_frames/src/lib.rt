//! What a backend does with one buffer (`bufmgr.c`), below its pass: it works on the shared table
//! and the backend's seat there. Engines call `backend_pass` instead, and `bg_writer` and
//! `checkpointer`.
//!
//! [`read_block`] looks a block up and, if it isn't in the pool, evicts a victim and reads it in.
//! [`read_copy`] and [`share_to_read`] copy the page out, [`put_locked`] changes it through the
//! log, and [`flush_frame`] and [`flush_pinned`] write it to its lane.
//!
//! [`HeldPins`] are the pins that a backend has handed out (`PrivateRefCount`): one pin of the
//! frame table for each frame, and the number of tokens that its callers have, with room for
//! [`MOST_TOKENS`]. Only the first token of a block pins its frame, and only the last one to go
//! gives the pin up.
//!
//! For the background writer and checkpoints (`SyncOneBuffer`) [`sync_one`] writes a buffer unless
//! its state word says that it needn't be written, [`need_checkpoint`] marks one for a checkpoint,
//! and [`sync_lane`] makes the writes to a lane durable. [`inspect`] shows the state word and the
//! tag of a buffer (`pg_buffercache_pages`).
#![tactic(auto)]

mod backend;
mod choosing;
mod entering;
mod erasing;
mod fetching;
mod flushing;
mod hinting;
mod inspecting;
mod lanes;
mod lookup;
mod marking;
mod page_reads;
mod pins;
mod puts;
mod reading;
mod syncing;
mod tags;
mod victims;

pub use backend::Backend;
pub use fetching::{FetchError, FetchedPage, fetch_page};
pub use flushing::{
    FlushedPage, FrameFlushError, VictimPage, flush_frame, flush_pinned, flush_victim,
};
pub use hinting::{HintSeen, Sought};
pub use inspecting::{Seen, inspect};
pub use lanes::sync_lane;
pub use marking::need_checkpoint;
pub use page_reads::{read_copy, share_to_read};
pub use pins::{HeldPin, HeldPins, MOST_TOKENS};
pub use puts::put_locked;
pub use reading::{BlockError, PinnedBlock, read_block};
pub use syncing::{SyncOnly, Synced, sync_one};
pub use victims::VictimError;
