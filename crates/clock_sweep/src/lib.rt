//! The choice of a victim (`StrategyGetBuffer`), after `src/backend/storage/buffer/freelist.c`,
//! over `frame_table`: the ring if the caller has one, the free list, then the clock sweep.
//!
//! [`victim`] returns a frame under its header lock. It gives up only after a [`Census`], an array
//! of the state words, that shows every frame pinned; PostgreSQL counts tries instead. A manager
//! has one [`Sweep`], and each backend a [`QueuePass`] for its free list.
#![tactic(auto)]

mod census;
#[cfg(test)]
mod checks;
mod choice;
mod clock;
mod free_list;
mod held;
mod sweep;
mod taking;

pub use access_rings::Memory;
pub use census::Census;
pub use choice::victim;
pub use clock::hand;
pub use free_list::{QueuePass, QueueView};
pub use held::{LockedFrame, NoUnpinned};
pub use sweep::Sweep;

#[cfg(test)]
mod tests;
