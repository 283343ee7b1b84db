//! Buffer rings, which PostgreSQL calls buffer access strategies: small circles of frames that a
//! bulk read, a bulk write or a vacuum uses again and again, so that one pass over a large relation
//! does not push everything else out of the buffer pool. `src/backend/storage/buffer/README`,
//! "Buffer Ring Replacement Strategy", says what they are for, and
//! `src/backend/storage/buffer/freelist.c` has them.
//!
//! A [`Ring`] is plain data: places in a circle, each with the number of a frame or empty, and a
//! current place. It knows nothing of the pool. Whoever chooses a frame to reuse
//!
//! 1. asks [`Ring::next`] for the frame at the next place, and looks whether it may be taken;
//! 2. takes a frame from elsewhere if it may not, and stores it at that place by [`Ring::keep`];
//! 3. may find that the log would have to be flushed before the ring's frame can be reused, and asks
//!    [`Ring::reject`] whether to choose another one instead.
#![tactic(auto)]

mod ring;

pub use ring::{Memory, Ring, RingKind};
