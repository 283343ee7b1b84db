//! What the three passes of a manager do one after another, and what comes of it.
ghost use Rattle.std.specs.Prelude.{◌≡◌, ◌≤◌, ◌%◌};
ghost use Rattle.history_core.specs.State.{last_position};
ghost use Rattle.manager_bench.specs.Bench.{IsFreeIn};

use crate::choosing::read_in_order;
use crate::cleaning::{
    Asked, NotAlone, OwnPins, try_not_alone, try_twice, try_twice_beside, wait_and_ask,
};
use crate::copying::{SeenPut, copy_around_put, copy_shared};
use crate::crowding::{Crowded, crowd_frames};
use crate::hinting::{Sighted, hints_beside_own, sight_once};
use crate::locking::{Refusals, try_beside_exclusive, try_beside_shared};
use crate::sharing::{Copied, copy_all_twice, copy_beside};
use crate::waiting::{Waited, wait_at_both};
use backend_pass::{CleanupError, FlushError, HintSeen, Manager, Pass, PutError, ReadError};
use io_counts::IoCounts;
use manager_bench::bench::{Bench, block, close_counted, start};
use manager_bench::counting::{publish_once, totals_once};
use manager_bench::putting::{flush_once, put_once};
use manager_bench::reading::{Access, read_once};
use page_layout::{Lsn, Page};
use std::alloc::{AllocError, Global};
use std::sync::Wait;
use std::thread::Threads;
use test_devices::{TestLane, TestLog, one_item};

type TestManager = Manager<TestLane, TestLog>;

/// What a pass does alone.
#[derive(Clone, Copy)]
pub enum Own {
    /// It reads this block.
    Read(u32),
    /// It reads the blocks from the one up to the other.
    ReadInOrder(u32, u32),
    /// It reads this block, and tells what it saw of its hint.
    Sight(u32),
    /// It holds block 0, and reads others for their hints.
    SightBeside,
    /// It puts a page to this block.
    Put(u32),
    /// It flushes this block.
    Flush(u32),
    /// It copies the page of this block under a content lock that it shares.
    CopyShared(u32),
    /// It tries the cleanup lock of this block with two tokens of it, and with one.
    CleanTwice(u32),
    /// It publishes what it has counted, and says what that is.
    Publish,
    /// It loads the sums of what all passes have published.
    Totals,
}

/// What the first pass and the second one do together.
#[derive(Clone, Copy)]
pub enum Pair {
    /// The first copies the page of block 0 before and after the second puts one.
    CopyAroundPut,
    /// The second tries the content lock of this block, which the first has exclusively.
    LockBesideExclusive(u32),
    /// The second tries the content lock of this block, which the first shares.
    LockBesideShared(u32),
    /// The first tries the cleanup lock of block 0, which the second pins.
    CleanBeside,
    /// The first tries the cleanup lock of this block, which the second pins, with two tokens of
    /// it, and with one.
    CleanTwiceBeside(u32),
    /// Each copies the pages of all blocks up to this one, in a thread of its own.
    CopyAll(u32),
}

/// What all three do together.
#[derive(Clone, Copy)]
pub enum All {
    /// They pin blocks until no frame is left.
    Crowd,
    /// The first waits for the cleanup lock of block 0, and the others work beside it.
    WaitAtOne,
    /// The first and the second wait for the cleanup locks of two blocks, which the third pins.
    WaitAtBoth,
    /// The third puts so many pages to block 0, and the others copy its page as often.
    CopyBeside(u32),
}

/// What is done, and by which passes.
#[derive(Clone, Copy)]
pub enum Act {
    First(Own),
    Second(Own),
    Third(Own),
    Two(Pair),
    Three(All),
}

/// What came of an act; None if a block wasn't read, or there was no memory.
#[derive(Clone, Copy, PartialEq, Debug)]
pub enum Answer {
    Read(Result<Access, ReadError>),
    ReadInOrder(Result<(u32, u64), ReadError>),
    Sight(Result<Sighted, ReadError>),
    SightBeside(Option<[HintSeen; 3]>),
    Put(Option<Result<Lsn, PutError>>),
    Flush(Option<Result<bool, FlushError>>),
    Copy(Result<Lsn, ReadError>),
    CleanTwice(Option<OwnPins>),
    CopyAroundPut(Result<SeenPut, ReadError>),
    Lock(Option<Refusals>),
    CleanBeside(Option<NotAlone>),
    CopyAll(Option<u32>, Option<u32>),
    Crowd(Option<Crowded>),
    WaitAtOne(Option<Option<CleanupError>>, Option<Asked>),
    WaitAtBoth(Waited, Waited),
    CopyBeside(Copied),
    /// What a pass has counted, or what all have published.
    Io(IoCounts),
}

/// The pages that passes put and copy.
#[derive(Drop)]
pub struct Pages {
    /// The page that is put.
    pub put: Page,
    /// The pages that are copied before a put and after it.
    pub copies: (Page, Page),
    /// The page that is copied under a content lock.
    pub shared: Page,
}

impl Pages {
    /// A page with one item to put, whose first byte is 7.
    fn new(alloc: Global) -> Result<Pages, AllocError> {
        let mut put = Page::zeroed(alloc)?;
        put.fill(&one_item(7));
        let copies = (Page::zeroed(alloc)?, Page::zeroed(alloc)?);
        let shared = Page::zeroed(alloc)?;
        Ok(Pages {
            put,
            copies,
            shared,
        })
    }
}

/// Does what a pass does alone.
fn perform_own<R: Wait>(
    manager: &TestManager,
    rt: &R,
    pass: &mut Pass,
    _number: u32,
    own: Own,
    pages: &mut Pages,
) -> Answer
    requires { IsFreeIn manager.now _number pass.old }
    ensures { IsFreeIn manager.now _number pass.new }
{
    match own {
        Own::Read(at) => {
            Answer::Read(read_once(manager, rt, pass, _number, block(at), &mut None))
        }
        Own::ReadInOrder(from, end) => {
            Answer::ReadInOrder(read_in_order(manager, rt, pass, _number, from, end))
        }
        Own::Sight(at) => Answer::Sight(sight_once(manager, rt, pass, _number, block(at))),
        Own::SightBeside => Answer::SightBeside(hints_beside_own(manager, rt, pass)),
        Own::Put(at) => {
            let page = &pages.put;
            Answer::Put(put_once(manager, rt, pass, _number, block(at), page, &mut None))
        }
        Own::Flush(at) => Answer::Flush(flush_once(manager, rt, pass, _number, block(at))),
        Own::CopyShared(at) => {
            let page = &mut pages.shared;
            Answer::Copy(copy_shared(manager, rt, pass, _number, block(at), page))
        }
        Own::CleanTwice(at) => Answer::CleanTwice(try_twice(manager, rt, pass, block(at))),
        Own::Publish => Answer::Io(publish_once(manager, pass, _number)),
        Own::Totals => Answer::Io(totals_once(manager, pass, _number)),
    }
}

/// Does what the first pass and the second one do together.
fn perform_pair<R: Threads + Wait + Sync>(
    manager: &TestManager,
    rt: &R,
    first: &mut Pass,
    second: &mut Pass,
    pair: Pair,
    pages: &mut Pages,
    alloc: Global,
) -> Answer
    requires first { IsFreeIn manager.now 0 first.old }
    requires second { IsFreeIn manager.now 1 second.old }
    ensures first { IsFreeIn manager.now 0 first.new }
    ensures second { IsFreeIn manager.now 1 second.new }
{
    match pair {
        Pair::CopyAroundPut => {
            let Pages { put, copies, .. } = pages;
            Answer::CopyAroundPut(copy_around_put(manager, rt, first, second, put, copies))
        }
        Pair::LockBesideExclusive(at) => {
            Answer::Lock(try_beside_exclusive(manager, rt, first, second, block(at)))
        }
        Pair::LockBesideShared(at) => {
            Answer::Lock(try_beside_shared(manager, rt, first, second, block(at)))
        }
        Pair::CleanBeside => Answer::CleanBeside(try_not_alone(manager, rt, first, second)),
        Pair::CleanTwiceBeside(at) => {
            Answer::CleanTwice(try_twice_beside(manager, rt, first, second, block(at)))
        }
        Pair::CopyAll(blocks) => {
            let (one, other) = copy_all_twice(manager, rt, first, second, blocks, alloc);
            Answer::CopyAll(one, other)
        }
    }
}

/// Does what all three passes do together.
fn perform_three<R: Threads + Wait + Sync>(
    manager: &TestManager,
    rt: &R,
    first: &mut Pass,
    second: &mut Pass,
    third: &mut Pass,
    all: All,
    alloc: Global,
) -> Answer
    requires first { IsFreeIn manager.now 0 first.old }
    requires second { IsFreeIn manager.now 1 second.old }
    requires third { IsFreeIn manager.now 2 third.old }
    ensures first { IsFreeIn manager.now 0 first.new }
    ensures second { IsFreeIn manager.now 1 second.new }
    ensures third { IsFreeIn manager.now 2 third.new }
{
    match all {
        All::Crowd => Answer::Crowd(crowd_frames(manager, rt, first, second, third)),
        All::WaitAtOne => {
            let (waited, asked) = wait_and_ask(manager, rt, first, second, third, alloc);
            Answer::WaitAtOne(waited, asked)
        }
        All::WaitAtBoth => {
            let (asked, waited) = wait_at_both(manager, rt, first, second, third);
            Answer::WaitAtBoth(asked, waited)
        }
        All::CopyBeside(times) => {
            Answer::CopyBeside(copy_beside(manager, rt, first, second, third, times, alloc))
        }
    }
}

/// Does one act.
fn perform<R: Threads + Wait + Sync>(
    manager: &TestManager,
    rt: &R,
    first: &mut Pass,
    second: &mut Pass,
    third: &mut Pass,
    act: Act,
    pages: &mut Pages,
    alloc: Global,
) -> Answer
    requires first { IsFreeIn manager.now 0 first.old }
    requires second { IsFreeIn manager.now 1 second.old }
    requires third { IsFreeIn manager.now 2 third.old }
    ensures first { IsFreeIn manager.now 0 first.new }
    ensures second { IsFreeIn manager.now 1 second.new }
    ensures third { IsFreeIn manager.now 2 third.new }
{
    match act {
        Act::First(own) => perform_own(manager, rt, first, 0, own, pages),
        Act::Second(own) => perform_own(manager, rt, second, 1, own, pages),
        Act::Third(own) => perform_own(manager, rt, third, 2, own, pages),
        Act::Two(pair) => perform_pair(manager, rt, first, second, pair, pages, alloc),
        Act::Three(all) => perform_three(manager, rt, first, second, third, all, alloc),
    }
}

/// Does acts in order.
fn perform_all<R: Threads + Wait + Sync>(
    manager: &TestManager,
    rt: &R,
    first: &mut Pass,
    second: &mut Pass,
    third: &mut Pass,
    acts: &[Act],
    pages: &mut Pages,
    alloc: Global,
) -> Result<Vec<Answer>, AllocError>
    requires first { IsFreeIn manager.now 0 first.old }
    requires second { IsFreeIn manager.now 1 second.old }
    requires third { IsFreeIn manager.now 2 third.old }
    ensures first { IsFreeIn manager.now 0 first.new }
    ensures second { IsFreeIn manager.now 1 second.new }
    ensures third { IsFreeIn manager.now 2 third.new }
{
    let mut answers = Vec::new(alloc);
    for next in acts {
        let answer = perform(manager, rt, first, second, third, *next, pages, alloc);
        answers.push(answer)?;
    }
    Ok(answers)
}

/// What came of acts, the pages, and the devices after them.
#[derive(Drop)]
pub struct Played {
    pub answers: Vec<Answer>,
    pub pages: Pages,
    pub lanes: Vec<TestLane>,
    pub log: TestLog,
    /// The sums of what the passes counted.
    pub io: IoCounts,
}

impl Played {
    /// How many reads and writes the one lane counted.
    pub fn lane_calls(&self) -> Option<(u32, u32)> {
        match self.lanes.as_slice() {
            [lane] => Some((lane.reads, lane.writes)),
            _ => None,
        }
    }
}

/// The passes of a manager of so many blocks over these devices do acts in order, and the manager
/// is closed.
pub fn play<R: Threads + Wait + Sync>(
    rt: &R,
    alloc: Global,
    blocks: u32,
    lane: TestLane,
    log: TestLog,
    base: Lsn,
    acts: &[Act],
) -> Result<Box<Played>, AllocError>
    requires base { (base % 8 ≡ 0) × (base ≤ last_position) }
{
    let mut pages = Pages::new(alloc)?;
    let Bench {
        manager,
        mut first,
        mut second,
        mut third,
        passes,
    } = start(alloc, blocks, lane, log, base)?;
    let answers = perform_all(
        &manager,
        rt,
        &mut first,
        &mut second,
        &mut third,
        acts,
        &mut pages,
        alloc,
    );
    let (lanes, log, io) = close_counted(manager, first, second, third, passes);
    let played = Played {
        answers: answers?,
        pages,
        lanes,
        log,
        io,
    };
    Ok(Box::new(alloc, played)?)
}

/// The same with so many blocks whose pages tell their numbers, over a log that begins at 0.
pub fn play_numbered<R: Threads + Wait + Sync>(
    rt: &R,
    alloc: Global,
    blocks: u32,
    acts: &[Act],
) -> Result<Box<Played>, AllocError> {
    let lane = TestLane::numbered(None);
    play(rt, alloc, blocks, lane, TestLog::new(alloc, 0), 0, acts)
}
