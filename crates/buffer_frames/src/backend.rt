//! What a backend has of its own besides its seat.

use crate::hinting::Sought;
use clock_sweep::{Census, QueuePass};
use io_counts::Tally;
use page_layout::Page;

/// What a backend works with: its pass of the free list, what it keeps of its look-ups, what it
/// counts, and room for a census and for a page. The pins that it has handed out are not among it:
/// calls on one buffer don't change them.
#[derive(Drop)]
pub struct Backend {
    /// Its pass of the clock's free list.
    pub queue: QueuePass,
    /// Room for the words of a choice that finds each frame pinned.
    pub census: Census,
    /// Room for a page that is read or written.
    pub page: Page,
    /// What its last look-up saw of the block's hint, and how many latches of partitions it took.
    pub lookups: Sought,
    /// What it counts of its hits, reads, writes and victims.
    pub io: Tally,
}
