//! Lanes that are recovered, and what they hold.
ghost use Rattle.std.specs.Prelude.{◌≤◌};

use crate::kept_lane::{Failing, KeptLane};
use crate::log_bytes::page_bytes;
use block_tag::{Catalog, CatalogError, Fork, RelEntry, RelNo, Tag, lane_of};
use byte_devices::{FaultPlan, MemSource};
use log_recovery::{RecoverError, Redone, recover};
use page_layout::{Lsn, Page};
use std::alloc::{AllocError, Global};
use std::process::Abort;
use std::test::Fail;

/// Two relations. The records are of the second.
pub fn catalog(alloc: Global) -> Result<Catalog, CatalogError> {
    let first = RelEntry {
        tablespace: 1663,
        database: 5,
        relation: 16385,
        blocks: [3, 0, 0, 0],
    };
    let second = RelEntry {
        relation: 16384,
        ..first
    };
    Catalog::build(alloc, &[first, second])
}

/// A block of the second relation's main fork.
pub fn tag(block: u32) -> Tag {
    Tag {
        rel: RelNo(1),
        fork: Fork::Main,
        block,
    }
}

/// No call fails.
pub const NONE: Failing = Failing { write: 0, sync: 0 };

/// What a page has: its item, its position, and whether its other bytes are those of a page with
/// one item.
#[derive(Clone, Copy, PartialEq, Eq, Debug)]
pub struct Kept {
    pub item: u8,
    pub lsn: Lsn,
    pub whole: bool,
}

impl Kept {
    pub fn of(page: &Page) -> Kept {
        let bytes = page.bytes();
        let item = bytes[8184];
        let lsn = page.lsn();
        Kept {
            item,
            lsn,
            whole: bytes == page_bytes(item, lsn).as_slice(),
        }
    }
}

/// A page with one item.
pub fn whole_page(item: u8, lsn: Lsn) -> Option<Kept> {
    Some(Kept {
        item,
        lsn,
        whole: true,
    })
}

/// What lanes hold: the pages of the blocks 0, 1 and 2, and how many blocks in all.
#[derive(Clone, Copy, PartialEq, Eq, Debug)]
pub struct Held {
    pub pages: [Option<Kept>; 3],
    pub blocks: usize,
}

/// What a block's lane has of it.
fn kept_in(lanes: &[KeptLane], block: u32) -> Option<Kept> {
    let count = u32::try_from(lanes.len()).ok()?;
    if count == 0 {
        return None;
    }
    let tag = tag(block);
    let lane = lanes.get(lane_of(&tag, count) as usize)?;
    lane.page(&tag).map(Kept::of)
}

impl Held {
    pub fn of(lanes: &[KeptLane]) -> Held {
        let mut blocks: usize = 0;
        for lane in lanes {
            blocks = blocks.saturating_add(lane.blocks());
        }
        Held {
            pages: [0, 1, 2].map(|block| kept_in(lanes, block)),
            blocks,
        }
    }
}

/// A page with these bytes is put into the block's lane.
pub fn put_page(
    alloc: Global,
    lanes: &mut [KeptLane],
    block: u32,
    bytes: &[u8; 8192],
) -> Result<(), Fail> {
    let count = u32::try_from(lanes.len())?.max(1);
    let tag = tag(block);
    let lane = lanes
        .get_mut(lane_of(&tag, count) as usize)
        .ok_or("no lane")?;
    let mut page = Page::zeroed(alloc)?;
    page.fill(bytes);
    lane.hold(tag, &page)?;
    Ok(())
}

/// So many lanes without blocks, of which one has calls that fail.
pub fn empty_lanes(
    alloc: Global,
    count: usize,
    faulty: usize,
    failing: Failing,
) -> Result<Vec<KeptLane>, AllocError> {
    let mut lanes = Vec::new(alloc);
    for number in 0..count {
        let fails = if number == faulty { failing } else { NONE };
        lanes.push(KeptLane::new(alloc, fails))?;
    }
    Ok(lanes)
}

/// The pages of the blocks 0, 1 and 2 before a recovery: their items, and their positions.
pub const BEFORE: [(u8, Lsn); 3] = [(100, 2048), (101, 2048), (102, 2048)];

/// Lanes with these pages.
pub fn lanes_before(
    alloc: Global,
    count: usize,
    faulty: usize,
    failing: Failing,
) -> Result<Vec<KeptLane>, Fail> {
    let mut lanes = empty_lanes(alloc, count, faulty, failing)?;
    for (block, (item, lsn)) in BEFORE.into_iter().enumerate() {
        put_page(alloc, &mut lanes, block as u32, &page_bytes(item, lsn))?;
    }
    Ok(lanes)
}

/// A source of these bytes that gives so many a call at most, and whose call of this number fails.
pub fn source(
    alloc: Global,
    bytes: &[u8],
    most: usize,
    failing: u64,
) -> Result<MemSource, AllocError>
    requires { 1 ≤ most }
{
    let calls = FaultPlan::new(vec![in alloc; failing; 1]?);
    Ok(MemSource::new(bytes.to_vec(alloc)?, most, calls))
}

/// What a recovery answers, and what its lanes hold then.
#[derive(Clone, Copy, PartialEq, Eq, Debug)]
pub struct Outcome {
    pub answer: Result<Redone, RecoverError>,
    pub held: Held,
}

/// Recovers lanes by a source.
pub fn recover_lanes(
    rt: &impl Abort,
    alloc: Global,
    lanes: &mut [KeptLane],
    source: &mut MemSource,
) -> Result<Outcome, Fail> {
    assert!(rt; !lanes.is_empty());
    let catalog = catalog(alloc)?;
    let mut page = Page::zeroed(alloc)?;
    let answer = recover(alloc, lanes, &catalog, source, &mut page);
    Ok(Outcome {
        answer,
        held: Held::of(lanes),
    })
}

/// Recovers lanes by all of these bytes, of which a call gives so many at most.
pub fn recover_by_pieces(
    rt: &impl Abort,
    alloc: Global,
    lanes: &mut [KeptLane],
    bytes: &[u8],
    most: usize,
) -> Result<Outcome, Fail>
    requires { 1 ≤ most }
{
    let mut source = source(alloc, bytes, most, 0)?;
    recover_lanes(rt, alloc, lanes, &mut source)
}

/// Recovers lanes by all of these bytes.
pub fn recover_by(
    rt: &impl Abort,
    alloc: Global,
    lanes: &mut [KeptLane],
    bytes: &[u8],
) -> Result<Outcome, Fail> {
    recover_by_pieces(rt, alloc, lanes, bytes, usize::MAX)
}

/// The first bytes of a log, so many.
pub fn first_of(log: &[u8], length: usize) -> Result<&[u8], Fail> {
    match log.get(..length) {
        Some(first) => Ok(first),
        None => Err(Fail::new("the log is short")),
    }
}

/// What recovery by so many bytes of the log with three records leaves of lanes as they are before
/// it.
pub fn outcome_of(length: usize) -> Outcome {
    let (base, end, entries, blocks, first, second) = match length {
        0..=15 => (0, 0, 0, 0, whole_page(100, 2048), whole_page(101, 2048)),
        16..=8239 => (
            4096,
            4096,
            0,
            0,
            whole_page(100, 2048),
            whole_page(101, 2048),
        ),
        8240..=16463 => (
            4096,
            12320,
            1,
            1,
            whole_page(1, 12320),
            whole_page(101, 2048),
        ),
        16464..=24687 => (
            4096,
            20544,
            2,
            2,
            whole_page(1, 12320),
            whole_page(2, 20544),
        ),
        _ => (
            4096,
            28768,
            3,
            2,
            whole_page(3, 28768),
            whole_page(2, 20544),
        ),
    };
    Outcome {
        answer: Ok(Redone {
            base,
            end,
            entries,
            blocks,
        }),
        held: Held {
            pages: [first, second, whole_page(102, 2048)],
            blocks: 3,
        },
    }
}
