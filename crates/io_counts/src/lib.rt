//! I/O counters (`pg_stat_io`): how often a backend found a block in the pool, read one from its
//! lane, wrote one, and took a frame from one, by the kind of the ring that was given.
//!
//! A backend counts in a [`Tally`] of its own. What is new there goes to the counters of the shared
//! table by [`publish`], and [`load_totals`] loads what all backends have published.
#![tactic(auto)]

mod contexts;
mod loads;
mod publishing;
mod shown;
mod tally;

pub use contexts::{ByContext, ContextCounts, IoEvent, context_of};
pub use loads::load_totals;
pub use publishing::publish;
pub use shown::{IoCounts, IoSums};
pub use tally::Tally;
