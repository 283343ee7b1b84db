//! What a buffer manager asks of the outside, as traits: a [`BlockLane`] reads, writes and syncs
//! pages, and a [`Host`] opens a relation's segments and log.
//!
//! In memory there are [`MemLane`], [`MemFile`] and [`MemHost`], whose calls fail when a plan says
//! so; `segment_files` has lanes over files. For a lane of your own keep a [`LaneHistory`], and
//! read docs/LIBRARY.md, "Devices of one's own".
#![tactic(auto)]

mod device;
mod growth;
mod history;
mod host;
mod laws;
mod memory_block;
mod memory_file;
mod memory_host;
mod memory_lane;
mod memory_logs;
mod paths;
mod restore;
mod source_plan;

pub use device::BlockLane;
pub use history::LaneHistory;
pub use host::{Host, HostError, LogOpen, Opened};
pub use laws::{blocks_stand_in_place, given_pages_are_read_back, grown_segments_are_read_back};
pub use memory_file::MemFile;
pub use memory_host::MemHost;
pub use memory_lane::{LanePlan, MemLane};
pub use memory_logs::MemLogs;
pub use paths::{fork_of_path, has_only_digits, is_file_of};
pub use source_plan::SourcePlan;
