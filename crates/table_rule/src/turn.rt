//! The latches that a backend takes turns at, and the places of values.

/// A latch: of a partition of the mapping table, of a lane, or of the log.
#[derive(Clone, Copy, PartialEq, Eq, Debug)]
pub enum Turn {
    Partition(u32),
    Lane(u32),
    Log,
}

/// Where a value lies: a frame's page, or what a latch guards.
#[derive(Clone, Copy, PartialEq, Eq, Debug)]
pub enum Place {
    Page(u32),
    Of(Turn),
}
