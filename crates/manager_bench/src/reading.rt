//! Blocks that are read.
ghost use Rattle.std.specs.Prelude.{IfErr, IfOk};
ghost use Rattle.pin_core.specs.declared.view.Content.TheVariants.{Unlocked};
ghost use Rattle.manager_bench.specs.Bench.{IsHolding, IsFree};

use access_rings::Ring;
use backend_pass::{Manager, Pass, Pinned, ReadError};
use block_tag::Tag;
use byte_devices::LogDevice;
use page_layout::{Lsn, Page};
use segment_store::BlockLane;
use std::sync::Wait;

/// The frame that a block was read into, and whether no lane was read.
#[derive(Clone, Copy, PartialEq, Debug)]
pub struct Access {
    pub frame: u32,
    pub hit: bool,
}

/// Pins a block.
pub fn pin<L: BlockLane, G: LogDevice, R: Wait>(
    manager: &Manager<L, G>,
    rt: &R,
    pass: &mut Pass,
    _number: u32,
    tag: Tag,
    ring: &mut Option<Ring>,
) -> Result<Pinned, ReadError>
    requires { IsFree L.contents manager.now _number pass.old }
    ensures pinned { IfOk result (λ pinned.
        IsHolding L.contents Unlocked pinned manager.now _number pass.new) }
    ensures refused { IfErr result (λ _. IsFree L.contents manager.now _number pass.new) }
{
    pass.read_buffer(manager, rt, tag, ring)
}

/// Releases a block.
pub fn unpin<L: BlockLane, G: LogDevice, R: Wait>(
    manager: &Manager<L, G>,
    rt: &R,
    pass: &mut Pass,
    _number: u32,
    pinned: Pinned,
)
    requires { IsHolding L.contents Unlocked pinned manager.now _number pass.old }
    ensures { IsFree L.contents manager.now _number pass.new }
{
    pass.release(manager, rt, pinned);
}

/// Reads a block and releases it.
pub fn read_once<L: BlockLane, G: LogDevice, R: Wait>(
    manager: &Manager<L, G>,
    rt: &R,
    pass: &mut Pass,
    _number: u32,
    tag: Tag,
    ring: &mut Option<Ring>,
) -> Result<Access, ReadError>
    requires { IsFree L.contents manager.now _number pass.old }
    ensures { IsFree L.contents manager.now _number pass.new }
{
    let pinned = pin(manager, rt, pass, _number, tag, ring)?;
    let access = Access {
        frame: pinned.frame(),
        hit: pinned.hit(),
    };
    unpin(manager, rt, pass, _number, pinned);
    Ok(access)
}

/// Copies the page of a block. The place of the read.
pub fn copy_once<L: BlockLane, G: LogDevice, R: Wait>(
    manager: &Manager<L, G>,
    rt: &R,
    pass: &mut Pass,
    _number: u32,
    tag: Tag,
    page: &mut Page,
) -> Result<Lsn, ReadError>
    requires { IsFree L.contents manager.now _number pass.old }
    ensures { IsFree L.contents manager.now _number pass.new }
{
    let pinned = pin(manager, rt, pass, _number, tag, &mut None)?;
    let place = pass.read_page(manager, rt, &pinned, page);
    unpin(manager, rt, pass, _number, pinned);
    Ok(place)
}
