//! The table that the backends share (`BufferDescriptors` and more): the frames, the partitions of
//! the mapping table, the lanes and the log in one `atomic_table`, whose rule is the law of
//! `history_core`.
//!
//! Start with [`FrameTable`]. Each of its calls is one step of the protocol, or the call of a
//! device and its return, after loads if it tests or waits, and its contract says which.
//! docs/PROTOCOL.md has the steps in words. Engines use `backend_pass`, a few crates up.
#![tactic(auto)]

mod blocks;
mod build;
mod calls;
mod content;
mod content_plays;
mod content_word;
mod counters;
mod headers;
mod hints;
mod io_right;
mod lane_plays;
mod lanes;
mod log_plays;
mod log_words;
mod logs;
mod map_pins;
mod maps;
mod pages;
mod pin;
mod plays;
mod redo;
mod rights;
mod seats;
mod table;
mod turns;
mod values;
mod word_plays;

pub use content_word::{COPYING, EXCLUSIVE};
pub use io_right::IoRight;
pub use log_words::EndLoad;
pub use pin::{Pin, TryPin};
pub use table::{BuildRefused, FrameTable};
pub use table_rule::{
    Config, LaneCall, LogCall, Mapped, NotedLane, NotedLog, Opening, Place, Rule, Turn, Value,
};
