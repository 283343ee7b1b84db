//! What a table was opened with.
use crate::config::Config;
use block_tag::Catalog;
use std::snapshot::Snapshot;

/// The numbers, the relations, what the devices were, and where the log begins. The relations and
/// the devices stand here for clauses alone.
#[derive(Drop)]
pub struct Opening<L, G> {
    pub config: Config,
    pub catalog: Snapshot<Catalog>,
    pub lanes: Snapshot<Vec<L>>,
    pub log: Snapshot<G>,
    pub base: u64,
}
