//! What a command line asks for.
ghost use Rattle.std.specs.Prelude.{◌≡◌, Some};
ghost use Rattle.block_tag.specs.declared.tag.Fork.TheVariants.{Main};
ghost use Rattle.segment_store.specs.Paths.{fork_of};
ghost use Rattle.command_line.specs.RelationPath.{relation_number};

use crate::numbers::Options;
use block_tag::Fork;

/// What is printed of each block: a line, or also one of each of its line pointers.
#[derive(Clone, Copy, PartialEq, Eq, Debug)]
pub enum Listing {
    Scan,
    Dump,
}

/// `scan PATH` or `dump PATH`: the blocks of a relation are listed.
#[derive(Clone, Copy, Debug)]
pub struct ListRequest<'a> {
    pub path: &'a str,
    /// The number of the relation at the path.
    pub number: u32,
    /// The relation's fork at the path.
    pub fork: Fork,
    pub options: Options,
    pub listing: Listing,
    /// Whether the I/O counts are printed at the end: `--stats`.
    pub stats: bool,
    pub ghost numbered: { relation_number path.now ≡ Some number },
    pub ghost forked: { fork_of path.now ≡ fork },
}

/// `rewrite PATH --log FILE`: the pages of a relation's main fork are rewritten, with a log.
#[derive(Clone, Copy, Debug)]
pub struct RewriteRequest<'a> {
    pub path: &'a str,
    /// The number of the relation at the path.
    pub number: u32,
    pub log: &'a str,
    pub options: Options,
    pub ghost numbered: { relation_number path.now ≡ Some number },
    pub ghost main: { fork_of path.now ≡ Main },
}

/// `recover PATH --log FILE`: the log of a rewrite of a relation's main fork is redone.
///
/// The definitions of which pages are meant, and of what stays, are those of a rewrite. So a
/// recovery is said to have one backend and 128 frames, and is never crowded; it has neither.
#[derive(Clone, Copy, Debug)]
pub struct RecoverRequest<'a> {
    pub path: &'a str,
    /// The number of the relation at the path.
    pub number: u32,
    pub log: &'a str,
    pub lanes: u32,
    pub seg_blocks: u32,
    pub ghost numbered: { relation_number path.now ≡ Some number },
    pub ghost main: { fork_of path.now ≡ Main },
}

/// `sample SEED BLOCKS`: a relation that is made from a seed is scanned and rewritten in memory.
#[derive(Clone, Copy, Debug)]
pub struct SampleRequest {
    pub seed: u32,
    pub blocks: u32,
    pub options: Options,
}

/// A command of the tool.
#[derive(Clone, Copy, Debug)]
pub enum Request<'a> {
    List(ListRequest<'a>),
    Rewrite(RewriteRequest<'a>),
    Recover(RecoverRequest<'a>),
    Sample(SampleRequest),
}
