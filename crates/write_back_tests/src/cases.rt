//! Acts as data: what is played, and what is to come of it.
use crate::acts::{Act, Answer, Played, play};
use crate::bench::BLOCKS;
use crate::checks::check_eq;
use crate::devices::{ByteLog, Failing, Journal, PageLane, TestCall};
use access_rings::{Ring, RingKind};
use bg_writer::Round;
use checkpointer::{Checkpoint, CheckpointError};
use io_counts::IoCounts;
use manager_bench::reading::Access;
use page_layout::{Lsn, Page};
use std::alloc::{AllocError, Global};
use std::process::Abort;
use std::sync::Wait;
use std::test::Fail;
use test_devices::one_item;

/// Acts over a manager, and what is to come of them.
#[derive(Clone, Copy)]
pub struct Case<'a> {
    pub frames: u32,
    /// How many lanes, of which the last one may fail.
    pub lanes: u32,
    pub lane_fails: Failing,
    pub log_fails: Failing,
    /// The ring of the first pass, if any.
    pub ring: Option<RingKind>,
    /// Into how many blocks it first puts a page, one after another.
    pub puts: u32,
    /// What is done after that.
    pub acts: &'a [Act],
    /// The answers to these acts.
    pub answers: &'a [Answer],
    /// The calls of the devices after those puts, if they are to be compared.
    pub calls: Option<&'a [TestCall]>,
}

/// No act, by a manager of 16 frames over a lane and a log that don't fail.
pub const NO_ACTS: Case<'static> = Case {
    frames: 16,
    lanes: 1,
    lane_fails: Failing::None,
    log_fails: Failing::None,
    ring: None,
    puts: 0,
    acts: &[],
    answers: &[],
    calls: None,
};

/// The pages of a relation, each with one item that tells its block's number.
fn numbered_pages(alloc: Global) -> Result<Vec<Page>, AllocError> {
    let mut pages = Vec::new(alloc);
    for number in 0..BLOCKS {
        let mut page = Page::zeroed(alloc)?;
        page.fill(&one_item((number % 256) as u8));
        pages.push(page)?;
    }
    Ok(pages)
}

/// So many lanes, of which the last one may fail, and a log.
pub fn devices(
    alloc: Global,
    lanes: u32,
    lane_fails: Failing,
    log_fails: Failing,
) -> Result<(Vec<PageLane>, ByteLog), AllocError> {
    let journal = Journal::new(alloc)?;
    let mut made = Vec::new(alloc);
    for number in 1..=lanes {
        let fails = if number == lanes {
            lane_fails
        } else {
            Failing::None
        };
        let pages = numbered_pages(alloc)?;
        made.push(PageLane::new(pages, fails, journal.beside(alloc)?))?;
    }
    Ok((made, ByteLog::new(alloc, log_fails, journal)))
}

/// The puts and the acts of a case.
fn acts_of(alloc: Global, case: &Case<'_>) -> Result<Vec<Act>, AllocError> {
    let mut acts = Vec::new(alloc);
    for number in 0..case.puts {
        acts.push(Act::Put(number))?;
    }
    acts.extend_from_slice(case.acts)?;
    Ok(acts)
}

/// A ring of this kind, if any, over 16 frames.
fn ring_of(alloc: Global, kind: Option<RingKind>) -> Result<Option<Ring>, Fail> {
    match kind {
        Some(kind) => Ok(Some(Ring::build(alloc, kind, 16)?)),
        None => Ok(None),
    }
}

fn play_case<R: Wait>(rt: &R, alloc: Global, case: &Case<'_>) -> Result<Box<Played>, Fail> {
    let acts = acts_of(alloc, case)?;
    let ring = ring_of(alloc, case.ring)?;
    let (lanes, log) = devices(alloc, case.lanes, case.lane_fails, case.log_fails)?;
    Ok(play(rt, alloc, case.frames, lanes, log, ring, &acts)?)
}

/// Plays a case, and fails the test unless this comes of it. A put takes a read of the lane and an
/// append.
pub fn check_case<R: Abort + Wait>(
    rt: &R,
    alloc: Global,
    case: &Case<'_>,
) -> Result<Box<Played>, Fail> {
    let run = play_case(rt, alloc, case)?;
    let puts = case.puts as usize;
    check_eq!(rt; run.answers.get(puts..), Some(case.answers));
    if case.calls.is_some() {
        check_eq!(rt; run.calls.get(2 * puts..), case.calls);
    }
    Ok(run)
}

/// A put that ends here.
pub fn put(lsn: Lsn) -> Answer {
    Answer::Put(Some(Ok(lsn)))
}

/// A read that came to this frame.
pub fn read(frame: u32, hit: bool) -> Answer {
    Answer::Read(Ok(Access { frame, hit }))
}

/// A round that was made.
pub fn round(looked: u32, written: u32) -> Answer {
    Answer::Round(Some(Ok(Round { looked, written })))
}

/// A checkpoint that was made.
pub fn checkpoint(upto: Lsn, written: u32) -> Answer {
    Answer::Checkpoint(Ok(Checkpoint { upto, written }))
}

/// What a pass counts that is given no ring.
pub fn no_ring(hits: u64, reads: u64, writes: u64, evictions: u64) -> IoCounts {
    IoCounts {
        hits: [hits, 0, 0, 0],
        reads: [reads, 0, 0, 0],
        writes: [writes, 0, 0, 0],
        evictions: [evictions, 0, 0, 0],
        reuses: [0; 4],
    }
}

/// A checkpoint that was refused.
pub fn refused(why: CheckpointError) -> Answer {
    Answer::Checkpoint(Err(why))
}
