//! Two passes that wait for cleanup locks at a time, each on a block of its own.
ghost use Rattle.std.specs.Thread.{IsSync};
ghost use Rattle.manager_bench.specs.Bench.{IsFree, IsFreeIn};
ghost use Rattle.backend_pass.specs.Between.{IsUnlocked, KeepsHeld};

use crate::cleaning::{clean, look_for, wait_beside};
use backend_pass::{CleanupError, Manager, Pass};
use block_tag::Tag;
use byte_devices::LogDevice;
use manager_bench::bench::block;
use segment_store::BlockLane;
use std::sync::Wait;
use std::thread::{Threads, join_mut};
use test_devices::{TestLane, TestLog};

type TestManager = Manager<TestLane, TestLog>;

/// Why the cleanup locks of the blocks 0 and 1 are not taken; None for a block that isn't read.
pub type Waited = (Option<Option<CleanupError>>, Option<Option<CleanupError>>);

/// Pins a block until another pass waits for it, asks for the cleanup lock too, and releases the
/// block.
fn ask_once<L: BlockLane, G: LogDevice, R: Wait>(
    manager: &Manager<L, G>,
    rt: &R,
    pass: &mut Pass,
    tag: Tag,
) -> Option<Option<CleanupError>>
    requires { IsUnlocked L.contents manager.now pass.old }
    ensures { KeepsHeld L.contents manager.now pass.old pass.new }
{
    let Ok(pinned) = pass.read_buffer(manager, rt, tag, &mut None) else {
        return None;
    };
    let pinned = look_for(manager, pass, pinned, true);
    let (pinned, refused) = clean(manager, rt, pass, pinned);
    pass.release(manager, rt, pinned);
    Some(refused)
}

/// Does so at block 0, and at block 1 before block 0 is released: two passes wait at that time.
fn ask_twice<L: BlockLane, G: LogDevice, R: Wait>(
    manager: &Manager<L, G>,
    rt: &R,
    pass: &mut Pass,
) -> Waited
    requires { IsUnlocked L.contents manager.now pass.old }
    ensures { KeepsHeld L.contents manager.now pass.old pass.new }
{
    let Ok(pinned) = pass.read_buffer(manager, rt, block(0), &mut None) else {
        return (None, None);
    };
    let pinned = look_for(manager, pass, pinned, true);
    let (pinned, refused) = clean(manager, rt, pass, pinned);
    let later = ask_once(manager, rt, pass, block(1));
    pass.release(manager, rt, pinned);
    (Some(refused), later)
}

/// Does so by the third pass of a manager.
fn ask_by_third<L: BlockLane, G: LogDevice, R: Wait>(
    manager: &Manager<L, G>,
    rt: &R,
    third: &mut Pass,
) -> Waited
    requires { IsFree L.contents manager.now 2 third.old }
    ensures { IsFree L.contents manager.now 2 third.new }
{
    ask_twice(manager, rt, third)
}

/// Two passes wait, for the blocks 0 and 1.
fn wait_twice<R: Threads + Wait + Sync>(
    manager: &TestManager,
    rt: &R,
    first: &mut Pass,
    second: &mut Pass,
) -> Waited
    requires first { IsFreeIn manager.now 0 first.old }
    requires second { IsFreeIn manager.now 1 second.old }
    ensures first { IsFreeIn manager.now 0 first.new }
    ensures second { IsFreeIn manager.now 1 second.new }
{
    join_mut(
        rt,
        &mut || -> Option<Option<CleanupError>>
            requires { IsSync R.row × IsFreeIn manager.now 0 first.now }
            ensures { IsFreeIn manager.entry.now 0 first.exit.now }
        { wait_beside(manager, rt, first, 0, block(0)) },
        &mut || -> Option<Option<CleanupError>>
            requires { IsSync R.row × IsFreeIn manager.now 1 second.now }
            ensures { IsFreeIn manager.entry.now 1 second.exit.now }
        { wait_beside(manager, rt, second, 1, block(1)) },
    )
}

/// The first two passes wait for the blocks 0 and 1, which the third one pins and asks for. What
/// the third was refused, and the two.
pub fn wait_at_both<R: Threads + Wait + Sync>(
    manager: &TestManager,
    rt: &R,
    first: &mut Pass,
    second: &mut Pass,
    third: &mut Pass,
) -> (Waited, Waited)
    requires first { IsFreeIn manager.now 0 first.old }
    requires second { IsFreeIn manager.now 1 second.old }
    requires third { IsFreeIn manager.now 2 third.old }
    ensures first { IsFreeIn manager.now 0 first.new }
    ensures second { IsFreeIn manager.now 1 second.new }
    ensures third { IsFreeIn manager.now 2 third.new }
{
    join_mut(
        rt,
        &mut || -> Waited
            requires { IsSync R.row × IsFreeIn manager.now 2 third.now }
            ensures { IsFreeIn manager.entry.now 2 third.exit.now }
        { ask_by_third(manager, rt, third) },
        &mut || -> Waited
            requires { IsSync R.row × IsFreeIn manager.now 0 first.now
                × IsFreeIn manager.now 1 second.now }
            ensures { IsFreeIn manager.entry.now 0 first.exit.now
                × IsFreeIn manager.entry.now 1 second.exit.now }
        { wait_twice(manager, rt, first, second) },
    )
}
