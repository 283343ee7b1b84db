//! How blocks are named, after `buf_internals.h`: relations, forks, buffer tags, and the lane of a
//! block.
//!
//! List the relations in a [`Catalog`], an entry ([`RelEntry`]) each, with the number of blocks of
//! every fork. A [`RelNo`] is a place in that list, and a [`Tag`] names one block: relation,
//! [`Fork`] and block number. [`lane_of`] says which of the lanes has it.
#![tactic(auto)]

mod catalogue;
mod tag;

pub use catalogue::{Catalog, CatalogError, MAX_RELATIONS, RelEntry};
pub use tag::{Fork, LAST_BLOCK, PARTITIONS, RelNo, Tag, lane_of, segment_place};
