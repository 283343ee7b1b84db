//! Devices for tests, whose contents contracts don't know: [`TestLane`], [`TestLog`], and pages to
//! put into them ([`one_item`]). They are short; copy them to begin a lane or a log over files.
#![tactic(auto)]

mod lane;
mod log;
mod pages;

pub use lane::TestLane;
pub use log::TestLog;
pub use pages::{FRONT, one_item};
