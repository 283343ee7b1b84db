//! What the calls of a pass promise, for the must-fail edits: each function makes a call and states
//! one promise of it, and the edits put wrong bodies in the call's place. If a call promised less,
//! its function wouldn't prove here. There is nothing in it to call.
#![tactic(auto)]

mod counts;
mod faults;
mod reads;
mod refusals;
mod writes;

pub use counts::{close_counted, io_totals, publish, publish_and_close};
pub use faults::read_buffer;
pub use reads::{read_new, read_page};
pub use refusals::{lock_cleanup, read_inside};
pub use writes::{flush, put};
