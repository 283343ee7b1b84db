//! A read whose hint names a frame that can't be pinned.
ghost use Rattle.std.specs.Prelude.{◌≡◌, ◌<◌};
ghost use Rattle.clock_sweep.specs.FreeLists.{IsFreeList};
ghost use Rattle.frame_table.specs.Closes.{CanClose};
ghost use Rattle.frame_table.specs.Seats.{frames_of};
ghost use Rattle.buffer_frames.specs.Tokens.{no_tokens};
ghost use Rattle.table_tests.specs.Work.{IsFresh, KeepsSeat, SeatHoldsNothing, backends_of};

use crate::fixture::{Table, TableSeat};
use block_tag::{Fork, RelNo, Tag};
use buffer_frames::{Backend, HeldPins, HintSeen, PinnedBlock, Sought, read_block};
use cleanup_lock::unpin_and_wake;
use clock_sweep::{Census, QueuePass, Sweep};
use io_counts::Tally;
use map_partitions::store_hint;
use page_layout::Page;
use std::alloc::{AllocError, Global};
use std::sync::Wait;

/// Block 0 of the relation.
const BLOCK: Tag = Tag {
    rel: RelNo(0),
    fork: Fork::Main,
    block: 0,
};

/// What a read of it saw of its hint, and the frame that it came into; None if the read was
/// refused.
#[derive(Clone, Copy, PartialEq, Debug)]
pub struct Sighted {
    pub hint: HintSeen,
    pub frame: Option<u32>,
}

/// Reads it with what a backend without pins needs, and gives its pin up.
fn read_released<R: Wait>(
    table: &Table,
    rt: &R,
    seat: &mut TableSeat,
    held: &HeldPins,
    sweep: &Sweep,
    queue: QueuePass,
    census: Census,
    page: Page,
) -> Sighted
    requires fresh { IsFresh table.now seat.old }
    requires queue { IsFreeList table.now sweep.now queue }
    requires census { census.frames ≡ frames_of table.now }
    requires none { held.now ≡ no_tokens }
    ensures { SeatHoldsNothing table.now seat.new }
{
    let lookups = Sought {
        turns: 0,
        hint: HintSeen::Unused,
    };
    let mut backend = Backend {
        queue,
        census,
        page,
        lookups,
        io: Tally::new(),
    };
    if BLOCK.block >= table.blocks(&BLOCK) {
        return Sighted {
            hint: backend.lookups.hint,
            frame: None,
        };
    }
    match read_block(
        table,
        rt,
        seat,
        held,
        sweep,
        &mut backend,
        &BLOCK,
        &mut None,
    ) {
        Ok(PinnedBlock { pin, fetched: _ }) => {
            let frame = Some(pin.frame());
            unpin_and_wake(table, rt, seat, pin);
            Sighted {
                hint: backend.lookups.hint,
                frame,
            }
        }
        Err(_why) => Sighted {
            hint: backend.lookups.hint,
            frame: None,
        },
    }
}

/// Stores this frame as its hint, and reads it.
fn sight_hint<R: Wait>(
    table: &Table,
    rt: &R,
    seat: &mut TableSeat,
    alloc: Global,
    frame: u32,
) -> Result<Sighted, AllocError>
    requires fresh { IsFresh table.now seat.old }
    requires frame { frame < frames_of table.now }
    ensures { SeatHoldsNothing table.now seat.new }
{
    let (sweep, queue) = Sweep::build(alloc, table.frames())?;
    let census = Census::build(alloc, table.frames())?;
    let page = Page::zeroed(alloc)?;
    let held = HeldPins::build(alloc)?;
    store_hint(table, seat, &BLOCK, frame);
    let sighted = read_released(table, rt, seat, &held, &sweep, queue, census, page);
    held.spend();
    Ok(sighted)
}

/// Does so while another backend has the header of a frame, which may be that one.
fn sight_beside<R: Wait>(
    table: &Table,
    rt: &R,
    seat: &mut TableSeat,
    other: &mut TableSeat,
    alloc: Global,
    hinted: u32,
    locked: u32,
) -> Result<Sighted, AllocError>
    requires fresh { IsFresh table.now seat.old }
    requires rests { SeatHoldsNothing table.now other.old }
    requires frames { (hinted < frames_of table.now) × (locked < frames_of table.now) }
    ensures rests { SeatHoldsNothing table.now seat.new × SeatHoldsNothing table.now other.new }
    ensures keeps { KeepsSeat other.old other.new }
{
    table.lock_header(rt, other, locked);
    let sighted = sight_hint(table, rt, seat, alloc, hinted);
    table.unlock_header(other, locked);
    sighted
}

/// A second backend comes, does so beside the first one, and goes.
pub fn sight_by_two<R: Wait>(
    table: &Table,
    rt: &R,
    seat: &mut TableSeat,
    alloc: Global,
    hinted: u32,
    locked: u32,
) -> Result<Sighted, AllocError>
    requires closes { CanClose table.now seat.old }
    requires alone { (seat.old.me.0.next ≡ 1) × (1 < backends_of table.now) }
    requires frames { (hinted < frames_of table.now) × (locked < frames_of table.now) }
    ensures { CanClose table.now seat.new }
{
    let mut other = table.split(seat);
    let sighted = sight_beside(table, rt, &mut other, seat, alloc, hinted, locked);
    table.join(seat, other);
    sighted
}
