//! Work that is cut into chunks, which workers claim: each chunk goes to one worker, whichever asks
//! first (`ParallelBlockTableScanDesc`).
//!
//! Build [`Claims`] for this many chunks and workers, and give each worker a [`Claimant`]. A worker
//! claims chunk after chunk until none is left. Chunks are numbered from 0, and what the workers
//! share is one word, the next number.
#![tactic(auto)]

mod claimant;
mod claims;
mod plays;

pub use claimant::Claimant;
pub use claims::{Claims, Work};
