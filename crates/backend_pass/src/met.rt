//! What a pass shows of itself at any time.

/// How many calls of devices failed, as a pass met them: reads of lanes, their writes and syncs,
/// and calls of the log. A count stands still at its type's last value.
#[derive(Clone, Copy, PartialEq, Eq, Debug)]
pub struct Met {
    pub reads: u64,
    pub writes: u64,
    pub logs: u64,
}

/// The front of a pass, and the faults that it met.
#[derive(Clone, Copy)]
pub struct Shown {
    pub front: u64,
    pub met: Met,
}
