//! The rule of the table that the backends share: what its words and slots are, where they lie, and
//! what they show of the state of the protocol in `history_core`.
//!
//! [`Opening`] has what a table is built from, [`Value`] what lies in a slot, and [`Rule`] ties
//! both to the protocol. The functions to call are in `frame_table`.
#![tactic(auto)]

mod build;
mod closing;
mod config;
mod layout;
mod noted_lane;
mod noted_log;
mod opening;
mod rule;
mod turn;
mod value;

pub use build::{Room, opening_words, take_back};
pub use closing::take_closed;
pub use config::Config;
pub use layout::{
    COUNTERS, HINTS_PER_FRAME, OTHER_SLOTS, content_place, counter_place, end_place, flushed_place,
    hand_place, hint_place, latch_place, redo_place, state_place, tag_place, turn_slot,
};
pub use noted_lane::{LaneCall, NotedLane};
pub use noted_log::{LAST_POSITION, LogCall, NotedLog, RECORD_SIZE};
pub use opening::Opening;
pub use rule::Rule;
pub use turn::{Place, Turn};
pub use value::{Mapped, Value};
