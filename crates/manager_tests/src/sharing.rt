//! Passes that work in threads of their own.
ghost use Rattle.std.specs.Thread.{IsSync};
ghost use Rattle.manager_bench.specs.Bench.{IsFreeIn};

use crate::copying::copy_all;
use backend_pass::{Manager, Pass};
use manager_bench::bench::block;
use manager_bench::putting::put_once;
use manager_bench::reading::copy_once;
use page_layout::Page;
use std::alloc::Global;
use std::sync::Wait;
use std::thread::{Threads, join_mut};
use table_rule::RECORD_SIZE;
use test_devices::{FRONT, TestLane, TestLog};

type TestManager = Manager<TestLane, TestLog>;

/// Two passes copy the pages of all blocks up to `blocks`. How many pages weren't their blocks'.
pub fn copy_all_twice<R: Threads + Wait + Sync>(
    manager: &TestManager,
    rt: &R,
    first: &mut Pass,
    second: &mut Pass,
    blocks: u32,
    alloc: Global,
) -> (Option<u32>, Option<u32>)
    requires first { IsFreeIn manager.now 0 first.old }
    requires second { IsFreeIn manager.now 1 second.old }
    ensures first { IsFreeIn manager.now 0 first.new }
    ensures second { IsFreeIn manager.now 1 second.new }
{
    join_mut(
        rt,
        &mut || -> Option<u32>
            requires { IsSync R.row × IsFreeIn manager.now 0 first.now }
            ensures { IsFreeIn manager.entry.now 0 first.exit.now }
        { copy_all(manager, rt, first, 0, blocks, alloc) },
        &mut || -> Option<u32>
            requires { IsSync R.row × IsFreeIn manager.now 1 second.now }
            ensures { IsFreeIn manager.entry.now 1 second.exit.now }
        { copy_all(manager, rt, second, 1, blocks, alloc) },
    )
}

/// A page each of whose bytes after its line pointer is this number.
fn numbered(number: u8) -> [u8; 8192] {
    let mut bytes = [number; 8192];
    bytes[..28].copy_from_slice(&FRONT);
    bytes
}

/// Whether a page is the one of the entry that ends at its position, or of none at 0.
fn is_whole(page: &Page) -> bool {
    let number = (page.lsn() / RECORD_SIZE % 256) as u8;
    page.lsn() % RECORD_SIZE == 0 && page.bytes()[8..] == numbered(number)[8..]
}

/// Puts pages to block 0, one after the other, and counts those that became entries.
fn put_often<R: Wait>(
    manager: &TestManager,
    rt: &R,
    pass: &mut Pass,
    _number: u32,
    times: u32,
    alloc: Global,
) -> Option<u32>
    requires { IsFreeIn manager.now _number pass.old }
    ensures { IsFreeIn manager.now _number pass.new }
{
    let Ok(mut page) = Page::zeroed(alloc) else {
        return None;
    };
    let mut entries = 0;
    for time in 0..times {
        page.fill(&numbered(((u64::from(time) + 1) % 256) as u8));
        if let Some(Ok(_lsn)) = put_once(manager, rt, pass, _number, block(0), &page, &mut None) {
            entries += 1;
        }
    }
    Some(entries)
}

/// Copies the page of block 0 so often, and counts the copies that aren't whole.
fn copy_often<R: Wait>(
    manager: &TestManager,
    rt: &R,
    pass: &mut Pass,
    _number: u32,
    times: u32,
    alloc: Global,
) -> Option<u32>
    requires { IsFreeIn manager.now _number pass.old }
    ensures { IsFreeIn manager.now _number pass.new }
{
    let Ok(mut page) = Page::zeroed(alloc) else {
        return None;
    };
    let mut torn = 0;
    for _ in 0..times {
        match copy_once(manager, rt, pass, _number, block(0), &mut page) {
            Ok(_place) => {
                if !is_whole(&page) {
                    torn += 1;
                }
            }
            Err(_why) => return None,
        }
    }
    Some(torn)
}

/// Two passes do so.
fn copy_often_twice<R: Threads + Wait + Sync>(
    manager: &TestManager,
    rt: &R,
    first: &mut Pass,
    second: &mut Pass,
    times: u32,
    alloc: Global,
) -> (Option<u32>, Option<u32>)
    requires first { IsFreeIn manager.now 0 first.old }
    requires second { IsFreeIn manager.now 1 second.old }
    ensures first { IsFreeIn manager.now 0 first.new }
    ensures second { IsFreeIn manager.now 1 second.new }
{
    join_mut(
        rt,
        &mut || -> Option<u32>
            requires { IsSync R.row × IsFreeIn manager.now 0 first.now }
            ensures { IsFreeIn manager.entry.now 0 first.exit.now }
        { copy_often(manager, rt, first, 0, times, alloc) },
        &mut || -> Option<u32>
            requires { IsSync R.row × IsFreeIn manager.now 1 second.now }
            ensures { IsFreeIn manager.entry.now 1 second.exit.now }
        { copy_often(manager, rt, second, 1, times, alloc) },
    )
}

/// How many changes were made, and how many copies of each of two others weren't whole; None if
/// a pass had no memory, or its block wasn't read.
#[derive(Clone, Copy, PartialEq, Debug)]
pub struct Copied {
    pub changes: Option<u32>,
    pub torn: (Option<u32>, Option<u32>),
}

/// Two passes copy the page that a third one changes.
pub fn copy_beside<R: Threads + Wait + Sync>(
    manager: &TestManager,
    rt: &R,
    first: &mut Pass,
    second: &mut Pass,
    third: &mut Pass,
    times: u32,
    alloc: Global,
) -> Copied
    requires first { IsFreeIn manager.now 0 first.old }
    requires second { IsFreeIn manager.now 1 second.old }
    requires third { IsFreeIn manager.now 2 third.old }
    ensures first { IsFreeIn manager.now 0 first.new }
    ensures second { IsFreeIn manager.now 1 second.new }
    ensures third { IsFreeIn manager.now 2 third.new }
{
    let (torn, changes) = join_mut(
        rt,
        &mut || -> (Option<u32>, Option<u32>)
            requires { IsSync R.row × IsFreeIn manager.now 0 first.now
                × IsFreeIn manager.now 1 second.now }
            ensures { IsFreeIn manager.entry.now 0 first.exit.now
                × IsFreeIn manager.entry.now 1 second.exit.now }
        { copy_often_twice(manager, rt, first, second, times, alloc) },
        &mut || -> Option<u32>
            requires { IsSync R.row × IsFreeIn manager.now 2 third.now }
            ensures { IsFreeIn manager.entry.now 2 third.exit.now }
        { put_often(manager, rt, third, 2, times, alloc) },
    );
    Copied { changes, torn }
}
