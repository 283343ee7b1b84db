//! Cleanup locks, by passes that wait, ask and wake.
ghost use Rattle.std.specs.Prelude.{◌≡◌};
ghost use Rattle.std.specs.Thread.{IsSync};
ghost use Rattle.pin_core.specs.declared.view.Content.TheVariants.{Unlocked};
ghost use Rattle.buffer_frames.specs.Tokens.{IsPinnedFor};
ghost use Rattle.backend_pass.specs.Locks.{HasLock};
ghost use Rattle.backend_pass.specs.Managers.{Belongs};
ghost use Rattle.manager_bench.specs.Bench.{IsFree, IsFreeIn};
ghost use Rattle.backend_pass.specs.Between.{IsUnlocked, KeepsHeld};

use crate::copying::copy_all;
use backend_pass::{CleanupError, Manager, Pass, Pinned, Refused, TryCleanup};
use block_tag::Tag;
use byte_devices::LogDevice;
use manager_bench::bench::block;
use manager_bench::reading::{pin, unpin};
use segment_store::BlockLane;
use state_word::{Flag, has};
use std::alloc::Global;
use std::sync::Wait;
use std::thread::{Threads, join_mut};
use test_devices::{TestLane, TestLog};

type TestManager = Manager<TestLane, TestLog>;

/// How often a pass looks for another one's pin, or wait.
const TRIES: u32 = 1_000_000_000;

/// Tries the cleanup lock, and gives it up. Why it was not taken.
fn try_clean<L: BlockLane, G: LogDevice>(
    manager: &Manager<L, G>,
    pass: &mut Pass,
    pinned: Pinned,
) -> (Pinned, Option<TryCleanup>)
    requires belongs { Belongs L.contents manager.now pass.old }
    requires pinned { IsPinnedFor pinned.tag pinned.frame pass.old.tokens }
    requires unlocked { HasLock Unlocked pinned.frame pass.old }
    ensures token { result.0 ≡ pinned }
    ensures pass { KeepsHeld L.contents manager.now pass.old pass.new }
{
    match pass.try_cleanup(manager, pinned) {
        Ok(exclusive) => (pass.unexclusive(manager, exclusive), None),
        Err(Refused { pinned, why }) => (pinned, Some(why)),
    }
}

/// Takes the cleanup lock, and gives it up. Why it was not taken.
pub fn clean<L: BlockLane, G: LogDevice, R: Wait>(
    manager: &Manager<L, G>,
    rt: &R,
    pass: &mut Pass,
    pinned: Pinned,
) -> (Pinned, Option<CleanupError>)
    requires belongs { Belongs L.contents manager.now pass.old }
    requires pinned { IsPinnedFor pinned.tag pinned.frame pass.old.tokens }
    requires unlocked { HasLock Unlocked pinned.frame pass.old }
    ensures token { result.0 ≡ pinned }
    ensures pass { KeepsHeld L.contents manager.now pass.old pass.new }
{
    match pass.lock_cleanup(manager, rt, pinned) {
        Ok(exclusive) => (pass.unexclusive(manager, exclusive), None),
        Err(Refused { pinned, why }) => (pinned, Some(why)),
    }
}

/// Whether a try saw other pins, and a waiter or none.
fn saw(refused: Option<TryCleanup>, waiter: bool) -> bool {
    match refused {
        Some(TryCleanup::OtherPins { word }) => has(word, Flag::PinCountWaiter) == waiter,
        _ => false,
    }
}

/// Tries until another pass has a pin, or waits.
pub fn look_for<L: BlockLane, G: LogDevice>(
    manager: &Manager<L, G>,
    pass: &mut Pass,
    mut pinned: Pinned,
    waiter: bool,
) -> Pinned
    requires belongs { Belongs L.contents manager.now pass.old }
    requires pinned { IsPinnedFor pinned.tag pinned.frame pass.old.tokens }
    requires unlocked { HasLock Unlocked pinned.frame pass.old }
    ensures token { result ≡ pinned }
    ensures pass { KeepsHeld L.contents manager.now pass.old pass.new }
{
    for _ in 0..TRIES {
        let (back, refused) = try_clean(manager, pass, pinned);
        pinned = back;
        if saw(refused, waiter) {
            return pinned;
        }
    }
    pinned
}

/// Waits for the cleanup lock, once another pass has pinned the block. None if it isn't read.
pub fn wait_beside<L: BlockLane, G: LogDevice, R: Wait>(
    manager: &Manager<L, G>,
    rt: &R,
    pass: &mut Pass,
    _number: u32,
    tag: Tag,
) -> Option<Option<CleanupError>>
    requires { IsFree L.contents manager.now _number pass.old }
    ensures { IsFree L.contents manager.now _number pass.new }
{
    let Ok(pinned) = pin(manager, rt, pass, _number, tag, &mut None) else {
        return None;
    };
    let pinned = look_for(manager, pass, pinned, false);
    let (pinned, refused) = clean(manager, rt, pass, pinned);
    unpin(manager, rt, pass, _number, pinned);
    Some(refused)
}

/// What a pass saw that asked while another waited: the refusal, and how many pages another pass
/// read meanwhile that weren't their blocks'.
#[derive(Clone, Copy, PartialEq, Debug)]
pub struct Asked {
    pub refused: Option<CleanupError>,
    pub wrong: Option<u32>,
}

/// Pins the block 0 until another pass waits, and while a third one reads all blocks; asks for the
/// cleanup lock too, and releases the block.
fn ask_beside<L: BlockLane, G: LogDevice, R: Wait>(
    manager: &Manager<L, G>,
    rt: &R,
    second: &mut Pass,
    third: &mut Pass,
    alloc: Global,
) -> Option<Asked>
    requires second { IsFree L.contents manager.now 1 second.old }
    requires third { IsFree L.contents manager.now 2 third.old }
    ensures second { IsFree L.contents manager.now 1 second.new }
    ensures third { IsFree L.contents manager.now 2 third.new }
{
    let Ok(pinned) = pin(manager, rt, second, 1, block(0), &mut None) else {
        return None;
    };
    let pinned = look_for(manager, second, pinned, true);
    let wrong = copy_all(manager, rt, third, 2, 64, alloc);
    let (pinned, refused) = clean(manager, rt, second, pinned);
    unpin(manager, rt, second, 1, pinned);
    Some(Asked { refused, wrong })
}

/// One pass waits for the cleanup lock of the block 0, and two work beside it.
pub fn wait_and_ask<R: Threads + Wait + Sync>(
    manager: &TestManager,
    rt: &R,
    first: &mut Pass,
    second: &mut Pass,
    third: &mut Pass,
    alloc: Global,
) -> (Option<Option<CleanupError>>, Option<Asked>)
    requires first { IsFreeIn manager.now 0 first.old }
    requires second { IsFreeIn manager.now 1 second.old }
    requires third { IsFreeIn manager.now 2 third.old }
    ensures first { IsFreeIn manager.now 0 first.new }
    ensures second { IsFreeIn manager.now 1 second.new }
    ensures third { IsFreeIn manager.now 2 third.new }
{
    join_mut(
        rt,
        &mut || -> Option<Option<CleanupError>>
            requires { IsSync R.row × IsFreeIn manager.now 0 first.now }
            ensures { IsFreeIn manager.entry.now 0 first.exit.now }
        { wait_beside(manager, rt, first, 0, block(0)) },
        &mut || -> Option<Asked>
            requires { IsSync R.row × IsFreeIn manager.now 1 second.now
                × IsFreeIn manager.now 2 third.now }
            ensures { IsFreeIn manager.entry.now 1 second.exit.now
                × IsFreeIn manager.entry.now 2 third.exit.now }
        { ask_beside(manager, rt, second, third, alloc) },
    )
}

/// Why a pass doesn't get the cleanup lock of the block 0: while another one pins it, and while
/// that shares its content lock.
#[derive(Clone, Copy, PartialEq, Debug)]
pub struct NotAlone {
    pub pinned: Option<TryCleanup>,
    pub shared: Option<TryCleanup>,
}

/// Tries once. None if it is taken, or the block isn't read.
fn try_once<L: BlockLane, G: LogDevice, R: Wait>(
    manager: &Manager<L, G>,
    rt: &R,
    pass: &mut Pass,
    _number: u32,
    tag: Tag,
) -> Option<TryCleanup>
    requires { IsFree L.contents manager.now _number pass.old }
    ensures { IsFree L.contents manager.now _number pass.new }
{
    let Ok(pinned) = pin(manager, rt, pass, _number, tag, &mut None) else {
        return None;
    };
    let (pinned, refused) = try_clean(manager, pass, pinned);
    unpin(manager, rt, pass, _number, pinned);
    refused
}

/// Tries twice beside a second pass. None if that doesn't read the block.
pub fn try_not_alone<L: BlockLane, G: LogDevice, R: Wait>(
    manager: &Manager<L, G>,
    rt: &R,
    first: &mut Pass,
    second: &mut Pass,
) -> Option<NotAlone>
    requires first { IsFree L.contents manager.now 0 first.old }
    requires second { IsFree L.contents manager.now 1 second.old }
    ensures first { IsFree L.contents manager.now 0 first.new }
    ensures second { IsFree L.contents manager.now 1 second.new }
{
    let tag = block(0);
    let Ok(token) = pin(manager, rt, second, 1, tag, &mut None) else {
        return None;
    };
    let pinned = try_once(manager, rt, first, 0, tag);
    let token = second.share(manager, rt, token);
    let shared = try_once(manager, rt, first, 0, tag);
    let token = second.unshare(manager, token);
    unpin(manager, rt, second, 1, token);
    Some(NotAlone { pinned, shared })
}

/// Why a pass doesn't get the cleanup lock of a block of which it has two tokens, and why not once
/// it has one.
#[derive(Clone, Copy, PartialEq, Debug)]
pub struct OwnPins {
    pub twice: Option<TryCleanup>,
    pub once: Option<TryCleanup>,
}

/// Tries with a further token of a block, and gives that back. None if it is taken, or the block
/// isn't read.
fn try_with_another<L: BlockLane, G: LogDevice, R: Wait>(
    manager: &Manager<L, G>,
    rt: &R,
    pass: &mut Pass,
    tag: Tag,
) -> Option<TryCleanup>
    requires { IsUnlocked L.contents manager.now pass.old }
    ensures { KeepsHeld L.contents manager.now pass.old pass.new }
{
    let Ok(pinned) = pass.read_buffer(manager, rt, tag, &mut None) else {
        return None;
    };
    let (pinned, refused) = try_clean(manager, pass, pinned);
    pass.release(manager, rt, pinned);
    refused
}

/// Tries with two tokens of a block, and with the one that is left. None if the block isn't
/// read.
pub fn try_twice<L: BlockLane, G: LogDevice, R: Wait>(
    manager: &Manager<L, G>,
    rt: &R,
    pass: &mut Pass,
    tag: Tag,
) -> Option<OwnPins>
    requires { IsUnlocked L.contents manager.now pass.old }
    ensures { KeepsHeld L.contents manager.now pass.old pass.new }
{
    let Ok(pinned) = pass.read_buffer(manager, rt, tag, &mut None) else {
        return None;
    };
    let twice = try_with_another(manager, rt, pass, tag);
    let (pinned, once) = try_clean(manager, pass, pinned);
    pass.release(manager, rt, pinned);
    Some(OwnPins { twice, once })
}

/// The same while a second pass pins the block. None if that doesn't read it.
pub fn try_twice_beside<L: BlockLane, G: LogDevice, R: Wait>(
    manager: &Manager<L, G>,
    rt: &R,
    first: &mut Pass,
    second: &mut Pass,
    tag: Tag,
) -> Option<OwnPins>
    requires first { IsUnlocked L.contents manager.now first.old }
    requires second { IsFree L.contents manager.now 1 second.old }
    ensures first { KeepsHeld L.contents manager.now first.old first.new }
    ensures second { IsFree L.contents manager.now 1 second.new }
{
    let Ok(token) = pin(manager, rt, second, 1, tag, &mut None) else {
        return None;
    };
    let own = try_twice(manager, rt, first, tag);
    unpin(manager, rt, second, 1, token);
    own
}
