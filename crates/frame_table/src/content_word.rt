//! Bits of a content word.

/// The bit of an exclusive lock.
pub const EXCLUSIVE: u64 = 1 << 18;

/// The bit of a copy latch that is taken.
pub const COPYING: u64 = 1 << 19;
