//! What a seat has of the claims. No value of it is made: contracts read it. An array of length 0
//! reads there as a list of any length.

/// The claims of some workers: how many chunks and workers there are in all, how many workers'
/// parts it has, the numbers that they drew, and how many of those are past the last chunk.
pub struct Claimant {
    pub chunks: u64,
    pub workers: u64,
    pub parts: u64,
    pub past: u64,
    pub drawn: [u64; 0],
}
