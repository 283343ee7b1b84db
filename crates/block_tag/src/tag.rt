//! Buffer tags, after `buf_internals.h`: the number of a tag, its hash, its partition, its lane.
ghost use Rattle.std.specs.Prelude.{◌≡◌, ◌%◌, ◌/◌, ◌^◌, ◌≤◌, ◌<◌, true, Some, IfSome};

/// The last block of a fork; the number above it names no block.
pub const LAST_BLOCK: u32 = 0xFFFF_FFFE;

/// How many partitions the mapping from tags to frames has.
pub const PARTITIONS: u32 = 128;

/// A relation's place in the catalogue.
#[derive(Clone, Copy, PartialEq, Eq, PartialOrd, Ord, Hash, Debug)]
pub struct RelNo(pub u32);

/// One of the four files of a relation, in the order of PostgreSQL's fork numbers.
#[derive(Clone, Copy, PartialEq, Eq, PartialOrd, Ord, Hash, Debug)]
pub enum Fork {
    Main,
    Fsm,
    Vm,
    Init,
}

impl Fork {
    ghost use Rattle.block_tag.specs.Names.{fork_number, fork_of_number};

    /// The fork's number, from 0 to 3.
    pub fn number(self) -> u32
        ensures number { result ≡ fork_number self }
        ensures small { result < 4 }
    {
        match self {
            Fork::Main => 0,
            Fork::Fsm => 1,
            Fork::Vm => 2,
            Fork::Init => 3,
        }
    }

    /// The fork of a number; none above 3.
    pub fn from_number(number: u32) -> Option<Fork>
        ensures { result ≡ fork_of_number number }
    {
        match number {
            0 => Some(Fork::Main),
            1 => Some(Fork::Fsm),
            2 => Some(Fork::Vm),
            3 => Some(Fork::Init),
            _ => None,
        }
    }
}

/// The name of a block: a relation of the catalogue, one of its forks, and the block's number
/// there.
/// A tag can be made that names no block, so `names_block` tells, and `pack` takes any tag. A type
/// without such tags would need a proof wherever a definition makes one.
#[derive(Clone, Copy, PartialEq, Eq, PartialOrd, Ord, Hash, Debug)]
pub struct Tag {
    pub rel: RelNo,
    pub fork: Fork,
    pub block: u32,
}

impl Tag {
    ghost use Rattle.block_tag.specs.Names.{hash_of, names_block, packed_tag, partition_number};
    ghost use Rattle.block_tag.specs.Names.{unpacked_tag};

    /// Whether the tag names a block: its relation has a place in a catalogue, and its block isn't
    /// the invalid one.
    pub fn names_block(&self) -> bool
        ensures { result ≡ names_block self.now }
    {
        self.rel.0 < 1024 && self.block <= LAST_BLOCK
    }

    /// The tag in one number: `rel * 2^40 + fork * 2^32 + block`, in 64 bits.
    #[tactic(auto, unfolding(crate::specs::Names::unpacked_tag))]
    pub fn pack(&self) -> u64
        ensures value { result ≡ packed_tag self.now % 2 ^ 64 }
        ensures exact { names_block self.now ≡ true → result ≡ packed_tag self.now }
        ensures inverse { names_block self.now ≡ true → unpacked_tag result ≡ Some self.now }
    {
        let rel = self.rel.0;
        let block = self.block;
        let fork = u64::from(self.fork.number()) * 0x1_0000_0000 + u64::from(block);
        u64::from(rel)
            .wrapping_mul(0x100_0000_0000)
            .wrapping_add(fork)
    }

    /// The tag that a number is: none if its fork is above 3, its block 0xFFFFFFFF, or its relation
    /// 1024 or more.
    #[tactic(auto, unfolding(crate::specs::Names::unpacked_tag))]
    pub fn unpack(packed: u64) -> Option<Tag>
        ensures value { result ≡ unpacked_tag packed }
        ensures valid { IfSome result (λ tag. names_block tag ≡ true) }
        ensures inverse { IfSome result (λ tag. packed_tag tag ≡ packed) }
    {
        let fork = Fork::from_number((packed / 0x1_0000_0000 % 256) as u32)?;
        let tag = Tag {
            rel: RelNo((packed / 0x100_0000_0000) as u32),
            fork,
            block: (packed % 0x1_0000_0000) as u32,
        };
        if !tag.names_block() {
            return None;
        }
        Some(tag)
    }

    /// The sum by which tags are spread over partitions and lanes: `31 * rel + 7 * fork + block`.
    pub fn hash(&self) -> u64
        ensures { result ≡ hash_of self.now }
    {
        let rel = self.rel.0;
        let block = self.block;
        31 * u64::from(rel) + 7 * u64::from(self.fork.number()) + u64::from(block)
    }

    /// The partition of the mapping in which the tag lies.
    pub fn partition(&self) -> u32
        ensures value { result ≡ partition_number self.now }
        ensures within { result < 128 }
    {
        (self.hash() % u64::from(PARTITIONS)) as u32
    }
}

ghost use Rattle.block_tag.specs.Names.{hash_of, lane_number, place_in_segment, segment_of};

/// The lane of a tag, of this many: the tag's hash modulo their number.
pub fn lane_of(tag: &Tag, lanes: u32) -> u32
    requires { 1 ≤ lanes }
    ensures value { result ≡ lane_number tag.now lanes }
    ensures within { result < lanes }
{
    (tag.hash() % u64::from(lanes)) as u32
}

/// The segment file of a block, and the block's place in it, for segments of this many blocks
/// (`md.c`).
pub fn segment_place(block: u32, seg_blocks: u32) -> (u32, u32)
    requires { 1 ≤ seg_blocks }
    ensures segment { result.0 ≡ segment_of seg_blocks block }
    ensures place { result.1 ≡ place_in_segment seg_blocks block }
{
    (block / seg_blocks, block % seg_blocks)
}
