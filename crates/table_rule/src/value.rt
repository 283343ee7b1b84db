//! What lies in a slot of the table.
use crate::noted_lane::NotedLane;
use crate::noted_log::NotedLog;
use page_layout::Page;

/// A tag, packed, and the frame that has it.
#[derive(Clone, Copy, PartialEq, Eq, Debug)]
pub struct Mapped {
    pub tag: u64,
    pub frame: u32,
}

/// A value that one backend at a time has out.
pub enum Value<L, G> {
    /// The page of a frame.
    Page(Page),
    /// The map of a partition.
    Map(Vec<Mapped>),
    Lane(NotedLane<L>),
    Log(NotedLog<G>),
    /// The list in which the lanes came; it is empty while the table runs.
    Lanes(Vec<L>),
    /// It stands in for a value that is out.
    Away,
}
