//! Cleanup locks (`LockBufferForCleanup`), over `content_locks`: the exclusive content lock,
//! granted while no other backend pins the buffer. Engines call `Pass::lock_cleanup` and
//! `Pass::try_cleanup` instead.
//!
//! [`lock()`] waits for the other pins to go, and [`try_lock`] doesn't. Whoever gives up a pin
//! calls [`unpin_and_wake`], which wakes the backend that waits.
#![tactic(auto)]

ghost use Rattle.std.specs.Prelude.{◌<◌, ℕ};
ghost use Rattle.history_core.specs.State.{State};
ghost use Rattle.history_core.specs.Laws.{Laws};
ghost use Rattle.cleanup_lock.specs.Cleanup.{OthersAreKeptOut};

mod locking;
mod trying;
mod waking;

pub use locking::{CleanupError, lock};
pub use trying::{TryCleanup, try_lock};
pub use waking::unpin_and_wake;

/// While a backend has the content lock of a frame exclusively no other backend has one there,
/// shared or exclusive. Others may pin the frame.
pub fn others_are_kept_out()
    ensures { (s : State) (f : ℕ) → Laws s → f < s.pool.core.frames → OthersAreKeptOut s f }
{}
