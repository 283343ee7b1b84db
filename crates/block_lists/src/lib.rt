//! Lists of blocks as text, in the manner of the file that `autoprewarm.c` keeps: a line for each
//! block, with its five numbers ([`BlockNumbers`]) in decimal.
//!
//! [`put_list`] writes a list, [`put_tags`] that of tags' blocks in the tags' order, and
//! [`parse_list`] reads one. A block has one line, so leading zeros, signs, further spaces,
//! carriage returns, and a last line without its newline are refused.
#![tactic(auto)]

mod laws;
mod numbers;
mod reading;
mod tags;
mod writing;

pub use laws::{MOST_BYTES, longest_list};
pub use numbers::{BlockNumbers, numbers_of};
pub use reading::{ListError, MOST_LINES, parse_list};
pub use tags::put_tags;
pub use writing::put_list;
