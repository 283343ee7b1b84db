//! Blocks that are pinned until no frame is left.
ghost use Rattle.backend_pass.specs.Managers.{Belongs};
ghost use Rattle.manager_bench.specs.Bench.{IsFree};
ghost use Rattle.backend_pass.specs.Between.{GivesOneBack, HasToken, IsUnlocked, KeepsHeld};

use crate::hinting::refusal;
use backend_pass::{HintSeen, Manager, Pass, Pinned, ReadError};
use byte_devices::LogDevice;
use manager_bench::bench::block;
use manager_bench::reading::{Access, read_once};
use segment_store::BlockLane;
use std::sync::Wait;

/// What came of reads of a block for which no frame was left.
#[derive(Clone, Copy, PartialEq, Debug)]
pub struct Crowded {
    /// The words that each frame was seen with.
    pub census: Option<[u64; 16]>,
    /// What came of a read by a pass without tokens.
    pub refused: Result<Access, ReadError>,
    /// Why a pass that has eight tokens didn't read the block.
    pub full: Option<ReadError>,
    /// What the pass with eight tokens saw of the block's hint.
    pub unused: HintSeen,
    /// What came of a read once block 0 was released.
    pub freed: Result<Access, ReadError>,
}

/// The third pass reads block 16 while the frames are all pinned, eight by the first pass, and
/// after that gave its token of block 0 back.
fn crowd<L: BlockLane, G: LogDevice, R: Wait>(
    manager: &Manager<L, G>,
    rt: &R,
    first: &mut Pass,
    third: &mut Pass,
    held: Pinned,
) -> Crowded
    requires first { Belongs L.contents manager.now first.old }
    requires held { HasToken held first.old }
    requires third { IsFree L.contents manager.now 2 third.old }
    ensures first { GivesOneBack L.contents manager.now held.frame first.old first.new }
    ensures third { IsFree L.contents manager.now 2 third.new }
{
    let refused = read_once(manager, rt, third, 2, block(16), &mut None);
    let census = third.census().first_chunk::<16>().copied();
    let full = refusal(manager, rt, first, block(16));
    let unused = first.hint_seen();
    first.release(manager, rt, held);
    let freed = read_once(manager, rt, third, 2, block(16), &mut None);
    Crowded {
        census,
        refused,
        full,
        unused,
        freed,
    }
}

/// The second pass pins the blocks from this one up to 15 before that.
fn hold_second<L: BlockLane, G: LogDevice, R: Wait>(
    manager: &Manager<L, G>,
    rt: &R,
    first: &mut Pass,
    second: &mut Pass,
    third: &mut Pass,
    held: Pinned,
    number: u32,
) -> Option<Crowded>
    requires first { Belongs L.contents manager.now first.old }
    requires held { HasToken held first.old }
    requires second { Belongs L.contents manager.now second.old }
    requires third { IsFree L.contents manager.now 2 third.old }
    ensures first { GivesOneBack L.contents manager.now held.frame first.old first.new }
    ensures second { KeepsHeld L.contents manager.now second.old second.new }
    ensures third { IsFree L.contents manager.now 2 third.new }
{
    if number > 15 {
        return Some(crowd(manager, rt, first, third, held));
    }
    let Ok(pinned) = second.read_buffer(manager, rt, block(number), &mut None) else {
        first.release(manager, rt, held);
        return None;
    };
    let crowded = hold_second(manager, rt, first, second, third, held, number + 1);
    second.release(manager, rt, pinned);
    crowded
}

/// The first pass, which holds block 0, pins the blocks from this one up to 7 before that. None
/// if one of them comes to that block's frame.
fn hold_first<L: BlockLane, G: LogDevice, R: Wait>(
    manager: &Manager<L, G>,
    rt: &R,
    first: &mut Pass,
    second: &mut Pass,
    third: &mut Pass,
    held: Pinned,
    number: u32,
) -> Option<Crowded>
    requires first { Belongs L.contents manager.now first.old }
    requires held { HasToken held first.old }
    requires second { Belongs L.contents manager.now second.old }
    requires third { IsFree L.contents manager.now 2 third.old }
    ensures first { GivesOneBack L.contents manager.now held.frame first.old first.new }
    ensures second { KeepsHeld L.contents manager.now second.old second.new }
    ensures third { IsFree L.contents manager.now 2 third.new }
{
    if number > 7 {
        return hold_second(manager, rt, first, second, third, held, 8);
    }
    let Ok(pinned) = first.read_buffer(manager, rt, block(number), &mut None) else {
        first.release(manager, rt, held);
        return None;
    };
    if pinned.frame() == held.frame() {
        first.release(manager, rt, pinned);
        first.release(manager, rt, held);
        return None;
    }
    let crowded = hold_first(manager, rt, first, second, third, held, number + 1);
    first.release(manager, rt, pinned);
    crowded
}

/// The first pass pins the blocks 0 to 7, and the second one the blocks 8 to 15. The first one then
/// gives block 0 back.
pub fn crowd_frames<L: BlockLane, G: LogDevice, R: Wait>(
    manager: &Manager<L, G>,
    rt: &R,
    first: &mut Pass,
    second: &mut Pass,
    third: &mut Pass,
) -> Option<Crowded>
    requires first { IsUnlocked L.contents manager.now first.old }
    requires second { Belongs L.contents manager.now second.old }
    requires third { IsFree L.contents manager.now 2 third.old }
    ensures first { KeepsHeld L.contents manager.now first.old first.new }
    ensures second { KeepsHeld L.contents manager.now second.old second.new }
    ensures third { IsFree L.contents manager.now 2 third.new }
{
    let Ok(held) = first.read_buffer(manager, rt, block(0), &mut None) else {
        return None;
    };
    hold_first(manager, rt, first, second, third, held, 1)
}
