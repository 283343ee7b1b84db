//! The catalogue: the relations that a manager knows, with the sizes of their forks at opening.
ghost use Rattle.std.specs.Prelude.{◌≡◌, ◌≤◌, ◌↔◌, [], IfErr, IfNone, IfOk, IfSome, IsTrue, length};
ghost use Rattle.std.specs.Prelude.{position, slice_get};
ghost use Rattle.block_tag.specs.Catalogue.{HasNoTwins, IsCatalogue, IsFirstTwin, blocks_at};
ghost use Rattle.block_tag.specs.Catalogue.{blocks_of, is_twin, IsRefusalOf};

use crate::tag::{Fork, RelNo};
use std::alloc::Global;
use std::marker::Model;
use thiserror::Error;

/// How many relations a catalogue has at most.
pub const MAX_RELATIONS: usize = 1024;

/// A relation: PostgreSQL's three numbers of its files, and how many blocks each fork has.
#[derive(Clone, Copy, PartialEq, Eq, Debug)]
pub struct RelEntry {
    pub tablespace: u32,
    pub database: u32,
    pub relation: u32,
    /// By the forks' numbers.
    pub blocks: [u32; 4],
}

impl RelEntry {
    /// Whether both entries name one relation.
    pub fn is_twin(&self, other: &RelEntry) -> bool
        ensures { result ≡ is_twin self.now other.now }
    {
        self.tablespace == other.tablespace
            && self.database == other.database
            && self.relation == other.relation
    }

    /// How many blocks a fork has.
    pub fn blocks_of(&self, fork: Fork) -> u32
        ensures { result ≡ blocks_of self.now fork }
    {
        let blocks = self.blocks;
        blocks[fork.number() as usize]
    }
}

/// Why a list of relations is no catalogue.
#[derive(Clone, Copy, PartialEq, Eq, Debug, Error)]
pub enum CatalogError {
    #[error("{count} relations, and a catalogue has at most 1024")]
    TooMany { count: usize },
    #[error("the relation at place {second} stands at place {first} already")]
    Twice { first: usize, second: usize },
    #[error("out of memory")]
    Memory,
}

/// At most 1024 relations, no two of which are one. Contracts see it as their list.
#[derive(Drop)]
pub struct Catalog {
    entries: Vec<RelEntry>,
}

impl Model for Catalog {
    ghost use Rattle.std.specs.Prelude.{List};
    ghost use Rattle.block_tag.specs.Catalogue.{IsCatalogue};
    ghost use Rattle.block_tag.specs.declared.catalogue.RelEntry.{RelEntry};

    ghost Value = { List RelEntry };

    ghost view = { λ c. c.entries.items };

    ghost invariant = { λ c. IsCatalogue c.entries.items };
}

impl RelEntry {
    /// The first place among these entries whose relation is this one.
    fn place_among(&self, entries: &[RelEntry]) -> Option<usize>
        ensures { result ≡ position (is_twin self.now) entries.now }
    {
        entries.iter().position(|other| self.is_twin(other))
    }
}

/// The first place whose relation stands earlier, with the place where it stands first.
fn first_twin(entries: &[RelEntry]) -> Option<(usize, usize)>
    ensures none { IfNone result (HasNoTwins entries.now) }
    ensures some { IfSome result (λ places. IsFirstTwin entries.now places.0 places.1) }
{
    for (place, entry) in entries.iter().enumerate() {
        if let Some(first) = entry.place_among(&entries[..place]) {
            return Some((first, place));
        }
    }
    None
}

impl Catalog {
    /// Keeps a list of relations, with their sizes.
    ///
    /// Refuses more than 1024, then a relation that stands twice: the first place whose relation
    /// stood earlier, and where it stood first.
    pub fn build(alloc: Global, entries: &[RelEntry]) -> Result<Catalog, CatalogError>
        ensures ok { IfOk result (λ catalogue.
            (catalogue ≡ entries.now) × IsCatalogue entries.now) }
        ensures refused { IfErr result (IsRefusalOf entries.now) }
    {
        let count = entries.len();
        if count > MAX_RELATIONS {
            return Err(CatalogError::TooMany { count });
        }
        if let Some((first, second)) = first_twin(entries) {
            return Err(CatalogError::Twice { first, second });
        }
        let entries = Vec::from_slice(alloc, entries).map_err(|_| CatalogError::Memory)?;
        Ok(Catalog { entries })
    }

    /// How many relations there are, at most 1024.
    pub fn len(&self) -> usize
        ensures length { result ≡ length self.now }
        ensures few { result ≤ MAX_RELATIONS }
    {
        self.entries.len()
    }

    pub fn is_empty(&self) -> bool
        ensures { IsTrue result ↔ (self.now ≡ []) }
    {
        self.entries.is_empty()
    }

    /// The relation of a number, if the catalogue has it.
    pub fn entry(&self, rel: RelNo) -> Option<RelEntry>
        ensures { result ≡ slice_get self.now rel.0 }
    {
        self.entries.get(rel.0 as usize).copied()
    }

    /// How many blocks a fork of a relation has: none if the catalogue lacks the relation.
    pub fn blocks(&self, rel: RelNo, fork: Fork) -> u32
        ensures { result ≡ blocks_at self.now rel.0 fork }
    {
        match self.entry(rel) {
            Some(entry) => entry.blocks_of(fork),
            None => 0,
        }
    }
}
