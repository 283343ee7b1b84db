//! What the calls on a table promise, for the must-fail edits: each function makes a call and
//! states one promise of it, and the edits put wrong bodies in the call's place. If a call promised
//! less, its function wouldn't prove here. There is nothing in it to call.
#![tactic(auto)]

mod backends;
mod frames;
mod pages;
mod victims;
mod words;

pub use backends::{
    count_block, give_token_back, join_queues, join_seats, load_total, publish_counts, record_taken,
};
pub use frames::{
    has_tag, insert_new, inspect_frame, is_of_block, lock_exclusively, lock_victim, lower_usage,
    pin_found, take_tag, unpin,
};
pub use pages::{begin_read, copy, end_write, flush, lock_for_cleanup, put, read, write_flushed};
pub use victims::{choose_victim, free_frame};
pub use words::{add_counter, flush_log, load_counter, load_redo, raise_redo, take_lane_and_log};
