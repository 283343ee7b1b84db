//! What comes of a round.

/// What a round did.
#[derive(Clone, Copy, PartialEq, Eq, Debug)]
pub struct Round {
    /// How many frames it looked at.
    pub looked: u32,
    /// How many pages it wrote.
    pub written: u32,
}
