//! Rounds and checkpoints by a pass beside two others, each in a thread of its own.
ghost use Rattle.std.specs.Thread.{IsSync};
ghost use Rattle.manager_bench.specs.Bench.{IsFreeIn};

use crate::bench::start;
use crate::devices::{ByteLog, PageLane};
use crate::syncing::{checkpoint_once, round_once};
use backend_pass::{Manager, Pass};
use manager_bench::bench::{Bench, block, close};
use manager_bench::putting::put_once;
use manager_bench::reading::copy_once;
use page_layout::{Lsn, Page};
use std::alloc::{AllocError, Global};
use std::sync::Wait;
use std::thread::{self, Threads, join_mut};
use test_devices::one_item;

type TestManager = Manager<PageLane, ByteLog>;

/// How many blocks are put and copied: more than there are frames.
const USED: u32 = 24;

/// What two passes do with blocks.
#[derive(Clone, Copy)]
pub enum Use {
    /// Put a page that tells the block's number.
    Put,
    /// Copy the page, which has to tell that.
    Copy,
}

/// What the third one does beside them.
#[derive(Clone, Copy)]
pub enum TestJob {
    Rounds,
    Checkpoints,
}

/// Puts a page to a block, or copies its page. Whether it was put, or is the block's.
fn use_once<R: Wait>(
    manager: &TestManager,
    rt: &R,
    pass: &mut Pass,
    _number: u32,
    how: Use,
    number: u32,
    page: &mut Page,
) -> bool
    requires { IsFreeIn manager.now _number pass.old }
    ensures { IsFreeIn manager.now _number pass.new }
{
    let tag = block(number);
    let numbered = one_item((number % 256) as u8);
    match how {
        Use::Put => {
            page.fill(&numbered);
            let put = put_once(manager, rt, pass, _number, tag, page, &mut None);
            matches!(put, Some(Ok(_)))
        }
        Use::Copy => {
            let copied = copy_once(manager, rt, pass, _number, tag, page);
            page.set_lsn(0);
            copied.is_ok() && page.bytes() == numbered.as_slice()
        }
    }
}

/// Does so with so many blocks, one after another, and counts those with which it went well. None
/// without memory.
fn use_often<R: Wait>(
    manager: &TestManager,
    rt: &R,
    pass: &mut Pass,
    _number: u32,
    how: Use,
    times: u32,
    alloc: Global,
) -> Option<u32>
    requires { IsFreeIn manager.now _number pass.old }
    ensures { IsFreeIn manager.now _number pass.new }
{
    let Ok(mut page) = Page::zeroed(alloc) else {
        return None;
    };
    let mut well: u32 = 0;
    for time in 0..times {
        if use_once(manager, rt, pass, _number, how, time % USED, &mut page) {
            well = well.saturating_add(1);
        }
    }
    Some(well)
}

/// Two passes do so.
fn use_often_twice<R: Threads + Wait + Sync>(
    manager: &TestManager,
    rt: &R,
    first: &mut Pass,
    second: &mut Pass,
    how: (Use, Use),
    times: u32,
    alloc: Global,
) -> (Option<u32>, Option<u32>)
    requires first { IsFreeIn manager.now 0 first.old }
    requires second { IsFreeIn manager.now 1 second.old }
    ensures first { IsFreeIn manager.now 0 first.new }
    ensures second { IsFreeIn manager.now 1 second.new }
{
    let (one, other) = how;
    join_mut(
        rt,
        &mut || -> Option<u32>
            requires { IsSync R.row × IsFreeIn manager.now 0 first.now }
            ensures { IsFreeIn manager.entry.now 0 first.exit.now }
        { use_often(manager, rt, first, 0, one, times, alloc) },
        &mut || -> Option<u32>
            requires { IsSync R.row × IsFreeIn manager.now 1 second.now }
            ensures { IsFreeIn manager.entry.now 1 second.exit.now }
        { use_often(manager, rt, second, 1, other, times, alloc) },
    )
}

/// Makes a round, which has to look at all 16 frames, or a checkpoint. Where the checkpoint began;
/// None if it was refused.
fn sync_once<R: Wait>(
    manager: &TestManager,
    rt: &R,
    pass: &mut Pass,
    _number: u32,
    job: TestJob,
) -> Option<Lsn>
    requires { IsFreeIn manager.now _number pass.old }
    ensures { IsFreeIn manager.now _number pass.new }
{
    match job {
        TestJob::Rounds => match round_once(manager, rt, pass, _number) {
            Ok(round) if round.looked == 16 => Some(0),
            _ => None,
        },
        TestJob::Checkpoints => match checkpoint_once(manager, rt, pass, _number) {
            Ok(checkpoint) => Some(checkpoint.upto),
            Err(_why) => None,
        },
    }
}

/// Makes so many rounds or checkpoints. Where the last checkpoint began; None if one was refused.
fn sync_often<R: Wait>(
    manager: &TestManager,
    rt: &R,
    pass: &mut Pass,
    _number: u32,
    job: TestJob,
    times: u32,
) -> Option<Lsn>
    requires { IsFreeIn manager.now _number pass.old }
    ensures { IsFreeIn manager.now _number pass.new }
{
    let mut upto = 0;
    for _ in 0..times {
        upto = sync_once(manager, rt, pass, _number, job)?;
        thread::yield_now();
    }
    Some(upto)
}

/// What came of the passes: with how many blocks each of two went well, and where the third one's
/// last checkpoint began.
#[derive(Clone, Copy, PartialEq, Debug)]
pub struct Beside {
    pub used: (Option<u32>, Option<u32>),
    pub upto: Option<Lsn>,
}

/// Two passes use blocks while the third one makes rounds or checkpoints.
fn sync_beside<R: Threads + Wait + Sync>(
    manager: &TestManager,
    rt: &R,
    first: &mut Pass,
    second: &mut Pass,
    third: &mut Pass,
    how: (Use, Use),
    job: TestJob,
    alloc: Global,
) -> Beside
    requires first { IsFreeIn manager.now 0 first.old }
    requires second { IsFreeIn manager.now 1 second.old }
    requires third { IsFreeIn manager.now 2 third.old }
    ensures first { IsFreeIn manager.now 0 first.new }
    ensures second { IsFreeIn manager.now 1 second.new }
    ensures third { IsFreeIn manager.now 2 third.new }
{
    let (upto, used) = join_mut(
        rt,
        &mut || -> Option<Lsn>
            requires { IsSync R.row × IsFreeIn manager.now 2 third.now }
            ensures { IsFreeIn manager.entry.now 2 third.exit.now }
        { sync_often(manager, rt, third, 2, job, 40) },
        &mut || -> (Option<u32>, Option<u32>)
            requires { IsSync R.row × IsFreeIn manager.now 0 first.now
                × IsFreeIn manager.now 1 second.now }
            ensures { IsFreeIn manager.entry.now 0 first.exit.now
                × IsFreeIn manager.entry.now 1 second.exit.now }
        { use_often_twice(manager, rt, first, second, how, 200, alloc) },
    );
    Beside { used, upto }
}

/// What came of the passes, and the devices after them.
#[derive(Drop)]
pub struct Ran {
    pub beside: Beside,
    pub lanes: Vec<PageLane>,
    pub log: ByteLog,
}

/// Two passes of a manager of 16 frames over these devices use blocks while the third one makes
/// rounds or checkpoints, and the manager is closed.
pub fn run_beside<R: Threads + Wait + Sync>(
    rt: &R,
    alloc: Global,
    lanes: Vec<PageLane>,
    log: ByteLog,
    how: (Use, Use),
    job: TestJob,
) -> Result<Ran, AllocError> {
    let Bench {
        manager,
        mut first,
        mut second,
        mut third,
        passes,
    } = start(alloc, 16, lanes, log)?;
    let beside = sync_beside(
        &manager,
        rt,
        &mut first,
        &mut second,
        &mut third,
        how,
        job,
        alloc,
    );
    let (lanes, log) = close(manager, first, second, third, passes);
    Ok(Ran { beside, lanes, log })
}
