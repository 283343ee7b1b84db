//! Checkpoints (`CheckPointBuffers`). Call [`checkpoint`] with a pass that holds no content lock;
//! other backends may go on meanwhile.
//!
//! `Ok` means that every log record from before it began is durable, and so is its block's page or
//! a later one. An error says why it stopped, and whatever wasn't written is still dirty in the
//! pool. To shut down, make a checkpoint first: `Manager::close` writes nothing.
#![tactic(auto)]

mod checkpoints;
mod ending;
mod lanes;
mod marking;
mod writing;

pub use checkpoints::checkpoint;
pub use ending::{Checkpoint, CheckpointError};
