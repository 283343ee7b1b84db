//! Pages that are put, and flushed.
ghost use Rattle.manager_bench.specs.Bench.{IsFree};

use crate::reading::{pin, unpin};
use access_rings::Ring;
use backend_pass::{FlushError, Manager, Pass, PutError};
use block_tag::Tag;
use byte_devices::LogDevice;
use page_layout::{Lsn, Page};
use segment_store::BlockLane;
use std::sync::Wait;

/// Reads a block and puts a page to it. Whether the read was a hit, and what came of the put; None
/// if the block isn't read, or the page is new or isn't sound.
pub fn read_and_put<L: BlockLane, G: LogDevice, R: Wait>(
    manager: &Manager<L, G>,
    rt: &R,
    pass: &mut Pass,
    _number: u32,
    tag: Tag,
    page: &Page,
    ring: &mut Option<Ring>,
) -> Option<(bool, Result<Lsn, PutError>)>
    requires { IsFree L.contents manager.now _number pass.old }
    ensures { IsFree L.contents manager.now _number pass.new }
{
    if page.is_new() || !page.is_sound() {
        return None;
    }
    let Ok(pinned) = pin(manager, rt, pass, _number, tag, ring) else {
        return None;
    };
    let hit = pinned.hit();
    let mut token = pass.exclusive(manager, rt, pinned);
    let end = pass.put(manager, rt, &mut token, page);
    let pinned = pass.unexclusive(manager, token);
    unpin(manager, rt, pass, _number, pinned);
    Some((hit, end))
}

/// The same, but for the hit.
pub fn put_once<L: BlockLane, G: LogDevice, R: Wait>(
    manager: &Manager<L, G>,
    rt: &R,
    pass: &mut Pass,
    _number: u32,
    tag: Tag,
    page: &Page,
    ring: &mut Option<Ring>,
) -> Option<Result<Lsn, PutError>>
    requires { IsFree L.contents manager.now _number pass.old }
    ensures { IsFree L.contents manager.now _number pass.new }
{
    let (_hit, end) = read_and_put(manager, rt, pass, _number, tag, page, ring)?;
    Some(end)
}

/// Flushes a block. None if it isn't read.
pub fn flush_once<L: BlockLane, G: LogDevice, R: Wait>(
    manager: &Manager<L, G>,
    rt: &R,
    pass: &mut Pass,
    _number: u32,
    tag: Tag,
) -> Option<Result<bool, FlushError>>
    requires { IsFree L.contents manager.now _number pass.old }
    ensures { IsFree L.contents manager.now _number pass.new }
{
    let Ok(pinned) = pin(manager, rt, pass, _number, tag, &mut None) else {
        return None;
    };
    let flushed = pass.flush_frame(manager, rt, &pinned);
    unpin(manager, rt, pass, _number, pinned);
    Some(flushed)
}
