//! What three passes do one after another, and what comes of it.
ghost use Rattle.manager_bench.specs.Bench.{IsFree};

use crate::bench::start;
use crate::devices::{ByteLog, PageLane, TestCall, calls_of};
use crate::syncing::{checkpoint_once, round_once};
use access_rings::Ring;
use backend_pass::{FlushError, Manager, Met, Pass, PutError, ReadError};
use bg_writer::Round;
use byte_devices::LogDevice;
use checkpointer::{Checkpoint, CheckpointError};
use io_counts::IoCounts;
use manager_bench::bench::{Bench, block, close};
use manager_bench::putting::{flush_once, put_once};
use manager_bench::reading::{Access, copy_once, pin, read_once, unpin};
use page_layout::{Lsn, Page};
use segment_store::BlockLane;
use std::alloc::{AllocError, Global};
use std::sync::Wait;
use test_devices::one_item;

/// What a pass does.
#[derive(Clone, Copy)]
pub enum Act {
    /// The first pass puts a page to this block.
    Put(u32),
    /// The first pass reads this block.
    Read(u32),
    /// The third pass reads this block.
    ReadBeside(u32),
    /// The first pass copies the page of this block.
    Copy(u32),
    /// The first pass flushes this block.
    Flush(u32),
    /// The second pass makes a round.
    Round,
    /// The second pass makes a round while the third one pins this block.
    RoundBeside(u32),
    /// The second pass makes a checkpoint.
    Checkpoint,
}

/// The page of a block that was copied: its position, and the place of the read.
#[derive(Clone, Copy, PartialEq, Debug)]
pub struct Copied {
    pub lsn: Lsn,
    pub place: Lsn,
}

/// What came of an act.
#[derive(Clone, Copy, PartialEq, Debug)]
pub enum Answer {
    Put(Option<Result<Lsn, PutError>>),
    Read(Result<Access, ReadError>),
    Copy(Result<Copied, ReadError>),
    /// None if the block isn't read.
    Flush(Option<Result<bool, FlushError>>),
    /// None if the block beside isn't read.
    Round(Option<Result<Round, FlushError>>),
    Checkpoint(Result<Checkpoint, CheckpointError>),
}

/// What the first pass works with.
#[derive(Drop)]
struct Tools {
    /// The page that it puts.
    page: Page,
    /// The page that it copies to.
    copied: Page,
    /// The ring by which it puts and reads, if any.
    ring: Option<Ring>,
}

impl Tools {
    /// A page with one item to put, whose first byte is 200.
    fn new(alloc: Global, ring: Option<Ring>) -> Result<Tools, AllocError> {
        let mut page = Page::zeroed(alloc)?;
        page.fill(&one_item(200));
        let copied = Page::zeroed(alloc)?;
        Ok(Tools { page, copied, ring })
    }
}

/// Makes a round while another pass pins a block. None if that isn't read.
fn round_beside<L: BlockLane, G: LogDevice, R: Wait>(
    manager: &Manager<L, G>,
    rt: &R,
    second: &mut Pass,
    third: &mut Pass,
    number: u32,
) -> Option<Result<Round, FlushError>>
    requires second { IsFree L.contents manager.now 1 second.old }
    requires third { IsFree L.contents manager.now 2 third.old }
    ensures second { IsFree L.contents manager.now 1 second.new }
    ensures third { IsFree L.contents manager.now 2 third.new }
{
    let Ok(pinned) = pin(manager, rt, third, 2, block(number), &mut None) else {
        return None;
    };
    let came = round_once(manager, rt, second, 1);
    unpin(manager, rt, third, 2, pinned);
    Some(came)
}

/// Copies the page of a block.
fn copy<L: BlockLane, G: LogDevice, R: Wait>(
    manager: &Manager<L, G>,
    rt: &R,
    first: &mut Pass,
    number: u32,
    page: &mut Page,
) -> Result<Copied, ReadError>
    requires first { IsFree L.contents manager.now 0 first.old }
    ensures first { IsFree L.contents manager.now 0 first.new }
{
    let place = copy_once(manager, rt, first, 0, block(number), page)?;
    Ok(Copied {
        lsn: page.lsn(),
        place,
    })
}

/// Does one act.
fn perform<L: BlockLane, G: LogDevice, R: Wait>(
    manager: &Manager<L, G>,
    rt: &R,
    first: &mut Pass,
    second: &mut Pass,
    third: &mut Pass,
    act: Act,
    tools: &mut Tools,
) -> Answer
    requires first { IsFree L.contents manager.now 0 first.old }
    requires second { IsFree L.contents manager.now 1 second.old }
    requires third { IsFree L.contents manager.now 2 third.old }
    ensures first { IsFree L.contents manager.now 0 first.new }
    ensures second { IsFree L.contents manager.now 1 second.new }
    ensures third { IsFree L.contents manager.now 2 third.new }
{
    let Tools { page, copied, ring } = tools;
    match act {
        Act::Put(number) => Answer::Put(put_once(manager, rt, first, 0, block(number), page, ring)),
        Act::Read(number) => Answer::Read(read_once(manager, rt, first, 0, block(number), ring)),
        Act::ReadBeside(number) => {
            Answer::Read(read_once(manager, rt, third, 2, block(number), &mut None))
        }
        Act::Copy(number) => Answer::Copy(copy(manager, rt, first, number, copied)),
        Act::Flush(number) => Answer::Flush(flush_once(manager, rt, first, 0, block(number))),
        Act::Round => Answer::Round(Some(round_once(manager, rt, second, 1))),
        Act::RoundBeside(number) => {
            Answer::Round(round_beside(manager, rt, second, third, number))
        }
        Act::Checkpoint => Answer::Checkpoint(checkpoint_once(manager, rt, second, 1)),
    }
}

/// Does acts in order.
fn perform_all<L: BlockLane, G: LogDevice, R: Wait>(
    manager: &Manager<L, G>,
    rt: &R,
    first: &mut Pass,
    second: &mut Pass,
    third: &mut Pass,
    acts: &[Act],
    tools: &mut Tools,
    alloc: Global,
) -> Result<Vec<Answer>, AllocError>
    requires first { IsFree L.contents manager.now 0 first.old }
    requires second { IsFree L.contents manager.now 1 second.old }
    requires third { IsFree L.contents manager.now 2 third.old }
    ensures first { IsFree L.contents manager.now 0 first.new }
    ensures second { IsFree L.contents manager.now 1 second.new }
    ensures third { IsFree L.contents manager.now 2 third.new }
{
    let mut answers = Vec::new(alloc);
    for next in acts {
        let answer = perform(manager, rt, first, second, third, *next, tools);
        answers.push(answer)?;
    }
    Ok(answers)
}

/// What came of acts, and the devices after them.
#[derive(Drop)]
pub struct Played {
    pub answers: Vec<Answer>,
    /// The calls of the devices, in the order in which they were made.
    pub calls: Vec<TestCall>,
    /// What the second pass met.
    pub met: Met,
    /// What each of the three counted.
    pub io: [IoCounts; 3],
    pub lanes: Vec<PageLane>,
    pub log: ByteLog,
}

impl Played {
    /// The position of a block's page in the first lane.
    pub fn page_lsn(&self, block: usize) -> Option<Lsn> {
        let page = self.lanes.first()?.pages.get(block)?;
        Some(page.lsn())
    }
}

/// The passes of a manager of so many frames over these devices do acts in order, the first one by
/// a ring, if any, and the manager is closed.
pub fn play<R: Wait>(
    rt: &R,
    alloc: Global,
    frames: u32,
    lanes: Vec<PageLane>,
    log: ByteLog,
    ring: Option<Ring>,
    acts: &[Act],
) -> Result<Box<Played>, AllocError> {
    let mut tools = Tools::new(alloc, ring)?;
    let Bench {
        manager,
        mut first,
        mut second,
        mut third,
        passes,
    } = start(alloc, frames, lanes, log)?;
    let answers = perform_all(
        &manager,
        rt,
        &mut first,
        &mut second,
        &mut third,
        acts,
        &mut tools,
        alloc,
    );
    let met = second.met();
    let io = [first.io(), second.io(), third.io()];
    let (lanes, log) = close(manager, first, second, third, passes);
    let answers = answers?;
    let calls = calls_of(&lanes, &log, alloc)?;
    let played = Played {
        answers,
        calls,
        met,
        io,
        lanes,
        log,
    };
    Ok(Box::new(alloc, played)?)
}
