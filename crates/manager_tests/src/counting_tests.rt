//! What passes count, and publish.
use crate::acts::Act::{First, Second, Third, Three, Two};
use crate::acts::{Act, All, Answer, Own, Pair, play, play_numbered};
use crate::checks::check_eq;
use io_counts::IoCounts;
use std::alloc::Global;
use std::process::Abort;
use std::sync::Wait;
use std::test::Fail;
use std::thread::Threads;
use test_devices::{TestLane, TestLog};

/// So many hits, reads and evictions without a ring, and nothing else.
fn counts(hits: u64, reads: u64, evictions: u64) -> IoCounts {
    IoCounts {
        hits: [hits, 0, 0, 0],
        reads: [reads, 0, 0, 0],
        writes: [0; 4],
        evictions: [evictions, 0, 0, 0],
        reuses: [0; 4],
    }
}

/// The first pass reads block 0, and the second one finds it and puts a page to it. Others see
/// nothing of that until it is published, and each count is published once.
#[test]
fn what_passes_publish_is_added_up(rt: HostRuntime) -> Result<(), Fail> {
    let acts = [
        Two(Pair::CopyAroundPut),
        Third(Own::Totals),
        First(Own::Publish),
        Second(Own::Publish),
        Third(Own::Totals),
        First(Own::Publish),
        Third(Own::Totals),
    ];
    let run = play_numbered(&rt, rt.alloc(), 64, &acts)?;
    let wanted = [
        Answer::Io(counts(0, 0, 0)),
        Answer::Io(counts(0, 1, 0)),
        Answer::Io(counts(1, 0, 0)),
        Answer::Io(counts(1, 1, 0)),
        Answer::Io(counts(0, 1, 0)),
        Answer::Io(counts(1, 1, 0)),
    ];
    check_eq!(rt; run.answers.get(1..), Some(wanted.as_slice()));
    check_eq!(rt; run.io, counts(1, 1, 0));
    Ok(())
}

/// Which page isn't sound, if any; what is done with 64 blocks; and how many hits, reads and
/// evictions all passes count.
type Row = (Option<u32>, &'static [Act], u64, u64, u64);

static ROWS: [Row; 4] = [
    // Block 16 takes the frame of block 0.
    (None, &[First(Own::ReadInOrder(0, 17))], 0, 17, 1),
    // So it does here, after two reads of it that are refused.
    (None, &[Three(All::Crowd)], 0, 17, 1),
    // A further token of each block is a hit.
    (
        None,
        &[First(Own::CleanTwice(0)), First(Own::CleanTwice(1))],
        2,
        2,
        0,
    ),
    // Block 5 is refused once it was read. Its frame keeps the tag until block 21 takes it.
    (
        Some(5),
        &[
            First(Own::Read(5)),
            First(Own::ReadInOrder(6, 21)),
            First(Own::Read(21)),
        ],
        0,
        17,
        1,
    ),
];

/// Fails the test unless the passes count what the row says.
fn check_row<R: Abort + Threads + Wait + Sync>(
    rt: &R,
    alloc: Global,
    row: &Row,
) -> Result<(), Fail> {
    let (unsound, acts, hits, reads, evictions) = *row;
    let lane = TestLane::numbered(unsound);
    let run = play(rt, alloc, 64, lane, TestLog::new(alloc, 0), 0, acts)?;
    check_eq!(rt; run.io, counts(hits, reads, evictions));
    Ok(())
}

#[test]
fn reads_and_victims_are_counted(rt: HostRuntime) -> Result<(), Fail> {
    for row in &ROWS {
        check_row(&rt, rt.alloc(), row)?;
    }
    Ok(())
}
