//! Lanes in memory, with and without room for a block.
ghost use Rattle.std.specs.Prelude.{◌≡◌, length};

use crate::bench::{Kept, catalog, source, tag, whole_page};
use crate::checks::check_eq;
use crate::log_bytes::{Record, log_bytes, page_bytes};
use block_tag::{Fork, Tag};
use log_recovery::{RecoverError, Redone, recover};
use page_layout::Page;
use segment_store::{LanePlan, MemLane};
use std::alloc::Global;
use std::test::Fail;

/// A lane with block 0, and with room for these.
fn lane_with(alloc: Global, rooms: &[Tag]) -> Result<MemLane, Fail> {
    let mut lane = MemLane::new(alloc, LanePlan::none(alloc));
    let mut page = Page::zeroed(alloc)?;
    page.fill(&page_bytes(100, 2048));
    lane.hold(alloc, tag(0), &page)?;
    for room in rooms {
        lane.reserve(alloc, *room)?;
    }
    Ok(lane)
}

/// Recovers one lane by a log of one record, of this block.
fn recover_one(
    alloc: Global,
    lanes: &mut [MemLane],
    block: Tag,
) -> Result<Result<Redone, RecoverError>, Fail>
    requires { length lanes.old ≡ 1 }
{
    let record = Record {
        fork: block.fork.number(),
        ..Record::new(4096, block.block, 7)
    };
    let bytes = log_bytes(alloc, b"PGBUFLOG", 4096, &[record])?;
    let mut source = source(alloc, &bytes, usize::MAX, 0)?;
    let catalog = catalog(alloc)?;
    let mut page = Page::zeroed(alloc)?;
    let answer = recover(alloc, lanes, &catalog, &mut source, &mut page);
    Ok(answer)
}

/// What a recovery of the lane answers, the lane's pages of block 0 and of that block then, and how
/// many writes and syncs failed.
#[derive(Clone, Copy, PartialEq, Debug)]
struct Recovered {
    answer: Result<Redone, RecoverError>,
    pages: [Option<Kept>; 2],
    faults: u64,
}

fn recover_and_look(
    alloc: Global,
    lanes: &mut [MemLane; 1],
    block: Tag,
) -> Result<Recovered, Fail> {
    let answer = recover_one(alloc, lanes, block)?;
    let [lane] = lanes;
    Ok(Recovered {
        answer,
        pages: [
            lane.page(&tag(0)).map(Kept::of),
            lane.page(&block).map(Kept::of),
        ],
        faults: lane.write_faults(),
    })
}

/// The one record was redone.
const REDONE: Redone = Redone {
    base: 4096,
    end: 12320,
    entries: 1,
    blocks: 1,
};

/// A block of the main fork, and one of the free space map.
fn new_blocks() -> [Tag; 2] {
    let map = Tag {
        fork: Fork::Fsm,
        ..tag(3)
    };
    [tag(5), map]
}

#[test]
fn a_block_with_room_is_taken(rt: HostRuntime) -> Result<(), Fail> {
    let alloc = rt.alloc();
    for block in new_blocks() {
        let mut lanes = [lane_with(alloc, &[block])?];
        let wanted = Recovered {
            answer: Ok(REDONE),
            pages: [whole_page(100, 2048), whole_page(7, 12320)],
            faults: 0,
        };
        check_eq!(rt; recover_and_look(alloc, &mut lanes, block)?, wanted);
        check_eq!(rt; recover_and_look(alloc, &mut lanes, block)?, wanted);
    }
    Ok(())
}

/// Once there is room, the recovery is made again.
#[test]
fn a_block_without_room_is_refused(rt: HostRuntime) -> Result<(), Fail> {
    let alloc = rt.alloc();
    for block in new_blocks() {
        let mut lanes = [lane_with(alloc, &[tag(6)])?];
        let refused = Recovered {
            answer: Err(RecoverError::WriteFault),
            pages: [whole_page(100, 2048), None],
            faults: 1,
        };
        check_eq!(rt; recover_and_look(alloc, &mut lanes, block)?, refused);
        lanes[0].reserve(alloc, block)?;
        let redone = Recovered {
            answer: Ok(REDONE),
            pages: [whole_page(100, 2048), whole_page(7, 12320)],
            faults: 1,
        };
        check_eq!(rt; recover_and_look(alloc, &mut lanes, block)?, redone);
    }
    Ok(())
}
