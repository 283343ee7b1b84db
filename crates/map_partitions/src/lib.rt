//! The mapping from tags to frames (`buf_table.c`), and its partitions' latches: [`take_turn`],
//! [`find`], [`enter`] or [`leave_out`], [`give_turn`]. [`load_hint`] and [`store_hint`] are for
//! hints, which spare a look-up the latch.
//!
//! A map is changed after the frame's tag word: the backend stores a tag word in a frame, which
//! names the pair in change, and enters the pair, or leaves it out, before it leaves the latch.
#![tactic(auto)]

mod changes;
mod entries;
mod hints;
mod latches;
mod lookup;

pub use changes::{enter, leave_out};
pub use hints::{load_hint, store_hint};
pub use latches::{give_turn, take_turn};
pub use lookup::find;
