//! Pages that are copied.
ghost use Rattle.manager_bench.specs.Bench.{IsFree};

use backend_pass::{Manager, Pass, PutError, ReadError};
use block_tag::Tag;
use byte_devices::LogDevice;
use manager_bench::bench::block;
use manager_bench::putting::read_and_put;
use manager_bench::reading::{copy_once, pin, unpin};
use page_layout::{Lsn, Page};
use segment_store::BlockLane;
use std::alloc::Global;
use std::sync::Wait;
use test_devices::one_item;

/// Copies the page of a block under a content lock that the pass shares. The place of the read.
pub fn copy_shared<L: BlockLane, G: LogDevice, R: Wait>(
    manager: &Manager<L, G>,
    rt: &R,
    pass: &mut Pass,
    _number: u32,
    tag: Tag,
    page: &mut Page,
) -> Result<Lsn, ReadError>
    requires { IsFree L.contents manager.now _number pass.old }
    ensures { IsFree L.contents manager.now _number pass.new }
{
    let pinned = pin(manager, rt, pass, _number, tag, &mut None)?;
    let shared = pass.share(manager, rt, pinned);
    let place = pass.read_shared(manager, rt, &shared, page);
    let pinned = pass.unshare(manager, shared);
    unpin(manager, rt, pass, _number, pinned);
    Ok(place)
}

/// Copies the page of each block up to `blocks`, and counts those that aren't the block's. None
/// if there was no memory, or a read was refused.
pub fn copy_all<L: BlockLane, G: LogDevice, R: Wait>(
    manager: &Manager<L, G>,
    rt: &R,
    pass: &mut Pass,
    _number: u32,
    blocks: u32,
    alloc: Global,
) -> Option<u32>
    requires { IsFree L.contents manager.now _number pass.old }
    ensures { IsFree L.contents manager.now _number pass.new }
{
    let Ok(mut page) = Page::zeroed(alloc) else {
        return None;
    };
    let mut wrong = 0;
    for number in 0..blocks {
        match copy_once(manager, rt, pass, _number, block(number), &mut page) {
            Ok(_place) => {
                if page.bytes() != one_item((number % 256) as u8).as_slice() {
                    wrong += 1;
                }
            }
            Err(_why) => return None,
        }
    }
    Some(wrong)
}

/// What two passes saw of block 0, as the second one put a page to it.
#[derive(Clone, Copy, PartialEq, Debug)]
pub struct SeenPut {
    /// Whether the first pass's read was a hit.
    pub hit: bool,
    /// The places of its copies: before the put, and after it.
    pub places: (Lsn, Lsn),
    /// Whether the second pass's read was a hit, and what came of the put.
    pub put: Option<(bool, Result<Lsn, PutError>)>,
}

/// The first pass pins block 0, and copies its page at this pin before the second one puts `page`
/// to it, and after that.
pub fn copy_around_put<L: BlockLane, G: LogDevice, R: Wait>(
    manager: &Manager<L, G>,
    rt: &R,
    first: &mut Pass,
    second: &mut Pass,
    page: &Page,
    copies: &mut (Page, Page),
) -> Result<SeenPut, ReadError>
    requires first { IsFree L.contents manager.now 0 first.old }
    requires second { IsFree L.contents manager.now 1 second.old }
    ensures first { IsFree L.contents manager.now 0 first.new }
    ensures second { IsFree L.contents manager.now 1 second.new }
{
    let pinned = pin(manager, rt, first, 0, block(0), &mut None)?;
    let earlier = first.read_page(manager, rt, &pinned, &mut copies.0);
    let put = read_and_put(manager, rt, second, 1, block(0), page, &mut None);
    let later = first.read_page(manager, rt, &pinned, &mut copies.1);
    let hit = pinned.hit();
    let places = (earlier, later);
    unpin(manager, rt, first, 0, pinned);
    Ok(SeenPut { hit, places, put })
}
