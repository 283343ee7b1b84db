//! What hears of the blocks that a job reads.

use backend_pass::Pinned;

/// Hears of each block that a worker reads, in the worker's thread. A call may hold the worker up.
pub trait Gate {
    /// `worker` is about to read `block`.
    fn before(&self, worker: u32, block: u32);

    /// `worker` has read the page of a block, which it still has pinned.
    fn seen(&self, worker: u32, pinned: &Pinned);
}
