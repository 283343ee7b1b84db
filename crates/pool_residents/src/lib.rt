//! Which blocks a pool holds, as a list of `block_lists`: [`residents`].
#![tactic(auto)]

mod listing;
mod noting;

pub use listing::residents;
