//! What jobs and the commands over them promise, for the must-fail edits: each function makes a
//! call and states one promise of it, and the edits put wrong bodies in the call's place. If a call
//! promised less, its function wouldn't prove here. There is nothing in it to call.
#![tactic(auto)]

mod commands;
mod counts;
mod jobs;

pub use commands::{list_file, rewrite_file};
pub use counts::scan_counts;
pub use jobs::{dump_blocks, load_blocks, rewrite_blocks, scan_blocks};
