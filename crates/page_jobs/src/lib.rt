//! Jobs over all blocks of a fork, or over listed blocks, by several backends at once: [`scan`],
//! [`dump`], [`rewrite`], [`load`]. Each backend works in a thread of its own, on the chunks of
//! blocks that it claims. [`survey`] reads a relation's lanes before a manager is started,
//! [`residents`] lists the blocks that a pool holds, and [`parse_list`] reads such a list.
//!
//! Start a manager with one pass more than there are to be workers, and hand all passes to the job:
//! the last one works beside them, at what a [`Beside`] says. The passes come back in [`JobEnd`].
#![tactic(auto)]

mod beside;
mod dealing;
mod ending;
mod gate;
mod job_blocks;
mod laws;
mod lending;
mod listing;
mod loading;
mod printing;
mod puts;
mod reading;
mod rewrites;
mod rewriting;
mod running;
mod scans;
mod working;

pub use beside::{Beside, NoBeside};
pub use block_lists::{BlockNumbers, ListError, parse_list};
pub use ending::{JobEnd, JobError, Totals};
pub use gate::Gate;
pub use lane_survey::{ReadFault, survey};
pub use laws::{prewarmed_stay, rewrite_closes, rewrite_ends};
pub use loading::load;
pub use pool_residents::residents;
pub use rewrites::rewrite;
pub use scans::{dump, scan};
