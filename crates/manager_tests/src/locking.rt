//! Content locks that are refused.
ghost use Rattle.pin_core.specs.declared.view.Content.TheVariants.{Unlocked};
ghost use Rattle.manager_bench.specs.Bench.{IsHolding, IsFree};

use backend_pass::{Manager, Pass, Pinned, Refused, TryLock};
use block_tag::Tag;
use byte_devices::LogDevice;
use manager_bench::reading::{pin, unpin};
use segment_store::BlockLane;
use std::sync::Wait;

/// Why the content lock of a block is not taken shared, and why not exclusively; None if it is.
#[derive(Clone, Copy, PartialEq, Debug)]
pub struct Refusals {
    pub shared: Option<TryLock>,
    pub exclusive: Option<TryLock>,
}

/// Tries to share a content lock, and gives it up. Why it was not shared.
fn share_now<L: BlockLane, G: LogDevice>(
    manager: &Manager<L, G>,
    pass: &mut Pass,
    _number: u32,
    pinned: Pinned,
) -> (Pinned, Option<TryLock>)
    requires { IsHolding L.contents Unlocked pinned manager.now _number pass.old }
    ensures { IsHolding L.contents Unlocked result.0 manager.now _number pass.new }
{
    match pass.try_share(manager, pinned) {
        Ok(shared) => (pass.unshare(manager, shared), None),
        Err(Refused { pinned, why }) => (pinned, Some(why)),
    }
}

/// Tries to take a content lock exclusively, and gives it up. Why it was not taken.
fn exclude_now<L: BlockLane, G: LogDevice>(
    manager: &Manager<L, G>,
    pass: &mut Pass,
    _number: u32,
    pinned: Pinned,
) -> (Pinned, Option<TryLock>)
    requires { IsHolding L.contents Unlocked pinned manager.now _number pass.old }
    ensures { IsHolding L.contents Unlocked result.0 manager.now _number pass.new }
{
    match pass.try_exclusive(manager, pinned) {
        Ok(exclusive) => (pass.unexclusive(manager, exclusive), None),
        Err(Refused { pinned, why }) => (pinned, Some(why)),
    }
}

/// Tries the content lock of a block both ways. None if the block isn't read.
pub fn try_both<L: BlockLane, G: LogDevice, R: Wait>(
    manager: &Manager<L, G>,
    rt: &R,
    pass: &mut Pass,
    _number: u32,
    tag: Tag,
) -> Option<Refusals>
    requires { IsFree L.contents manager.now _number pass.old }
    ensures { IsFree L.contents manager.now _number pass.new }
{
    let Ok(pinned) = pin(manager, rt, pass, _number, tag, &mut None) else {
        return None;
    };
    let (pinned, shared) = share_now(manager, pass, _number, pinned);
    let (pinned, exclusive) = exclude_now(manager, pass, _number, pinned);
    unpin(manager, rt, pass, _number, pinned);
    Some(Refusals { shared, exclusive })
}

/// The same by a second pass while the first has the lock exclusively.
pub fn try_beside_exclusive<L: BlockLane, G: LogDevice, R: Wait>(
    manager: &Manager<L, G>,
    rt: &R,
    first: &mut Pass,
    second: &mut Pass,
    tag: Tag,
) -> Option<Refusals>
    requires first { IsFree L.contents manager.now 0 first.old }
    requires second { IsFree L.contents manager.now 1 second.old }
    ensures first { IsFree L.contents manager.now 0 first.new }
    ensures second { IsFree L.contents manager.now 1 second.new }
{
    let Ok(pinned) = pin(manager, rt, first, 0, tag, &mut None) else {
        return None;
    };
    let token = first.exclusive(manager, rt, pinned);
    let refusals = try_both(manager, rt, second, 1, tag);
    let pinned = first.unexclusive(manager, token);
    unpin(manager, rt, first, 0, pinned);
    refusals
}

/// The same by a second pass while the first shares the lock.
pub fn try_beside_shared<L: BlockLane, G: LogDevice, R: Wait>(
    manager: &Manager<L, G>,
    rt: &R,
    first: &mut Pass,
    second: &mut Pass,
    tag: Tag,
) -> Option<Refusals>
    requires first { IsFree L.contents manager.now 0 first.old }
    requires second { IsFree L.contents manager.now 1 second.old }
    ensures first { IsFree L.contents manager.now 0 first.new }
    ensures second { IsFree L.contents manager.now 1 second.new }
{
    let Ok(pinned) = pin(manager, rt, first, 0, tag, &mut None) else {
        return None;
    };
    let token = first.share(manager, rt, pinned);
    let refusals = try_both(manager, rt, second, 1, tag);
    let pinned = first.unshare(manager, token);
    unpin(manager, rt, first, 0, pinned);
    refusals
}
