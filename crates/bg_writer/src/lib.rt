//! The background writer (`BgBufferSync`). A [`round`] goes over the frames from the clock's hand
//! on and writes the dirty ones that no backend pins and whose usage count is 0, at most
//! [`MOST_WRITES`] of them, so that backends find clean victims.
//!
//! Give it a pass of its own and call it again and again; when to sleep is up to you. [`Round`]
//! says how many frames it looked at and how many pages it wrote.
#![tactic(auto)]

mod reports;
mod rounds;

pub use reports::Round;
pub use rounds::{MOST_WRITES, round};
