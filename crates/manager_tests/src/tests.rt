//! Managers that are run.
use crate::acts::Act::{First, Second, Third, Three, Two};
use crate::acts::{Act, All, Answer, Own, Pair, play, play_numbered};
use crate::checks::check_eq;
use crate::cleaning::{Asked, NotAlone, OwnPins};
use crate::copying::SeenPut;
use crate::crowding::Crowded;
use crate::hinting::Sighted;
use crate::locking::Refusals;
use crate::sharing::Copied;
use backend_pass::{
    CleanupError, Config, FlushError, HintSeen, Manager, PutError, ReadError, Setting, StartError,
    StartRefused, TryCleanup, TryLock,
};
use block_tag::Catalog;
use manager_bench::bench::block;
use manager_bench::reading::Access;
use page_layout::Lsn;
use std::alloc::Global;
use std::process::Abort;
use std::sync::Wait;
use std::test::Fail;
use std::thread::Threads;
use test_devices::{TestLane, TestLog, one_item};
use wal_flush::begin_log;

/// What a start with these numbers is refused for, and how many devices came back.
fn refusal(
    alloc: Global,
    frames: u32,
    passes: u32,
    lanes: u32,
) -> Result<Option<(StartError, usize)>, Fail> {
    let config = Config {
        frames,
        passes,
        lanes,
    };
    let catalog = Catalog::build(alloc, &[])?;
    let mut lanes = Vec::new(alloc);
    lanes.push(TestLane::new(0))?;
    match Manager::start(alloc, config, catalog, lanes, TestLog::new(alloc, 0), 0) {
        Ok((manager, passes)) => {
            let (_lanes, _log) = manager.close(passes);
            Ok(None)
        }
        Err(StartRefused { why, lanes, log: _ }) => Ok(Some((why, lanes.len()))),
    }
}

#[test]
fn a_manager_is_refused_and_started(rt: HostRuntime) -> Result<(), Fail> {
    let found = [
        refusal(rt.alloc(), 15, 3, 1)?,
        refusal(rt.alloc(), 16, 3, 2)?,
        refusal(rt.alloc(), 4096, 64, 1)?,
    ];
    let frames = StartError::BadConfig {
        which: Setting::Frames,
        number: 15,
    };
    let lanes = StartError::LanesDiffer {
        wanted: 2,
        given: 1,
    };
    check_eq!(rt; found, [Some((frames, 1)), Some((lanes, 1)), None]);
    Ok(())
}

/// Fails the test unless this comes of acts over 64 blocks, whose pages tell their numbers.
fn check_acts<R: Abort + Threads + Wait + Sync>(
    rt: &R,
    alloc: Global,
    acts: &[Act],
    wanted: &[Answer],
) -> Result<(), Fail> {
    let run = play_numbered(rt, alloc, 64, acts)?;
    check_eq!(rt; run.answers.as_slice(), wanted);
    Ok(())
}

/// A block that was read into this frame.
fn access(frame: u32, hit: bool) -> Access {
    Access { frame, hit }
}

#[test]
fn an_unsound_page_is_refused(rt: HostRuntime) -> Result<(), Fail> {
    let acts = [
        First(Own::Read(4)),
        First(Own::Read(5)),
        First(Own::Read(0xFFFF_FFFE)),
    ];
    let lane = TestLane::numbered(Some(5));
    let log = TestLog::new(rt.alloc(), 0);
    let run = play(&rt, rt.alloc(), 64, lane, log, 0, &acts)?;
    let past = ReadError::PastEnd {
        block: 0xFFFF_FFFE,
        blocks: 64,
    };
    let wanted = [
        Answer::Read(Ok(access(0, false))),
        Answer::Read(Err(ReadError::Unsound { tag: block(5) })),
        Answer::Read(Err(past)),
    ];
    check_eq!(rt; run.answers.as_slice(), wanted.as_slice());
    check_eq!(rt; run.lane_calls(), Some((2, 0)));
    Ok(())
}

#[test]
fn no_frame_is_left(rt: HostRuntime) -> Result<(), Fail> {
    let crowded = Crowded {
        census: Some([0x8304_0001; 16]),
        refused: Err(ReadError::NoUnpinned { frames: 16 }),
        full: Some(ReadError::PinsFull),
        unused: HintSeen::Unused,
        freed: Ok(access(0, false)),
    };
    let wanted = [Answer::Crowd(Some(crowded))];
    check_acts(&rt, rt.alloc(), &[Three(All::Crowd)], &wanted)
}

/// The free list gives the frames in their order, while the clock's hand stays at 0. Then the clock
/// takes the first frame whose usage count it finds at 0: that of the second block, since the first
/// block was read once more.
#[test]
fn fresh_frames_come_before_the_clock(rt: HostRuntime) -> Result<(), Fail> {
    let acts = [
        First(Own::ReadInOrder(0, 3)),
        First(Own::ReadInOrder(3, 16)),
        First(Own::Read(0)),
        First(Own::Read(16)),
        First(Own::Read(17)),
    ];
    let wanted = [
        Answer::ReadInOrder(Ok((3, 0))),
        Answer::ReadInOrder(Ok((13, 0))),
        Answer::Read(Ok(access(0, true))),
        Answer::Read(Ok(access(1, false))),
        Answer::Read(Ok(access(2, false))),
    ];
    check_acts(&rt, rt.alloc(), &acts, &wanted)
}

/// A read that came to this frame, what it saw of the hint, and how many latches its pass had taken
/// by then.
fn sighted(frame: u32, hit: bool, hint: HintSeen, turns: u64) -> Answer {
    Answer::Sight(Ok(Sighted {
        access: access(frame, hit),
        hint,
        turns,
    }))
}

/// The blocks 0 and 64 have one hint word. It names no frame, then that of the block that was
/// entered, or found by the map, last.
#[test]
fn a_right_hint_takes_no_latch(rt: HostRuntime) -> Result<(), Fail> {
    let acts = [
        First(Own::Sight(0)),
        First(Own::Sight(0)),
        First(Own::Sight(64)),
        Second(Own::Sight(0)),
        First(Own::Sight(0)),
    ];
    let run = play_numbered(&rt, rt.alloc(), 65, &acts)?;
    let had = HintSeen::Had { frame: 0 };
    let wanted = [
        sighted(0, false, HintSeen::Nothing, 2),
        sighted(0, true, had, 2),
        sighted(1, false, HintSeen::Other { tag: block(0) }, 4),
        sighted(0, true, HintSeen::Other { tag: block(64) }, 1),
        sighted(0, true, had, 4),
    ];
    check_eq!(rt; run.answers.as_slice(), wanted.as_slice());
    Ok(())
}

#[test]
fn a_hint_at_an_own_frame_is_passed_over(rt: HostRuntime) -> Result<(), Fail> {
    let run = play_numbered(&rt, rt.alloc(), 65, &[First(Own::SightBeside)])?;
    let seen = [
        HintSeen::Own { frame: 0 },
        HintSeen::Unused,
        HintSeen::Unused,
    ];
    let wanted = [Answer::SightBeside(Some(seen))];
    check_eq!(rt; run.answers.as_slice(), wanted.as_slice());
    Ok(())
}

#[test]
fn pages_are_their_blocks_in_two_threads(rt: HostRuntime) -> Result<(), Fail> {
    let run = play_numbered(&rt, rt.alloc(), 64, &[Two(Pair::CopyAll(64))])?;
    let wanted = [Answer::CopyAll(Some(0), Some(0))];
    check_eq!(rt; run.answers.as_slice(), wanted.as_slice());
    let (reads, writes) = run.lane_calls().ok_or("no lane")?;
    check_eq!(rt; (reads >= 64, writes), (true, 0));
    Ok(())
}

#[test]
fn copies_beside_changes_are_whole(rt: HostRuntime) -> Result<(), Fail> {
    let run = play_numbered(&rt, rt.alloc(), 64, &[Three(All::CopyBeside(10000))])?;
    let copied = Copied {
        changes: Some(10000),
        torn: (Some(0), Some(0)),
    };
    let wanted = [Answer::CopyBeside(copied)];
    check_eq!(rt; run.answers.as_slice(), wanted.as_slice());
    check_eq!(rt; run.log.bytes.len(), 82_240_000);
    Ok(())
}

#[test]
fn a_content_lock_that_another_has_is_busy(rt: HostRuntime) -> Result<(), Fail> {
    let acts = [
        Two(Pair::LockBesideExclusive(0)),
        Two(Pair::LockBesideShared(0)),
    ];
    let busy = Some(TryLock::Busy { word: 262144 });
    let exclusive = Refusals {
        shared: busy,
        exclusive: busy,
    };
    let shared = Refusals {
        shared: None,
        exclusive: Some(TryLock::Busy { word: 1 }),
    };
    let wanted = [Answer::Lock(Some(exclusive)), Answer::Lock(Some(shared))];
    check_acts(&rt, rt.alloc(), &acts, &wanted)
}

/// The record of the block 5 that starts here, with a page of one item whose position ends it.
fn push_record(bytes: &mut Vec<u8>, start: u16, end: u16, item: u8) -> Result<(), Fail> {
    let mut page = one_item(item);
    page[4..6].copy_from_slice(&end.to_le_bytes());
    bytes.extend_from_slice(&[1, 0, 0, 0, 0, 0, 0, 0, 0, 0, 0, 0, 0, 0x40, 0, 0])?;
    bytes.extend_from_slice(&[0, 0, 0, 0, 5, 0, 0, 0])?;
    bytes.extend_from_slice(&start.to_le_bytes())?;
    bytes.extend_from_slice(&[0, 0, 0, 0, 0, 0])?;
    bytes.extend_from_slice(&page)?;
    Ok(())
}

/// The log of two puts of the page to block 5.
fn two_records(alloc: Global) -> Result<Vec<u8>, Fail> {
    let mut bytes = Vec::new(alloc);
    bytes.extend_from_slice(b"PGBUFLOG\0\0\0\0\0\0\0\0")?;
    push_record(&mut bytes, 0, 0x2020, 7)?;
    push_record(&mut bytes, 0x2020, 0x4040, 7)?;
    Ok(bytes)
}

/// A put whose record ends here.
fn put(lsn: Lsn) -> Answer {
    Answer::Put(Some(Ok(lsn)))
}

/// A put that was refused.
fn put_refused(why: PutError) -> Answer {
    Answer::Put(Some(Err(why)))
}

/// A flush that was refused.
fn flush_refused(why: FlushError) -> Answer {
    Answer::Flush(Some(Err(why)))
}

#[test]
fn two_puts_are_two_records(rt: HostRuntime) -> Result<(), Fail> {
    let acts = [First(Own::Put(5)), Second(Own::Put(5))];
    let lane = TestLane::numbered(None);
    let mut log = TestLog::new(rt.alloc(), 0);
    check_eq!(rt; begin_log(&mut log, 0), Ok(()));
    let run = play(&rt, rt.alloc(), 64, lane, log, 0, &acts)?;
    let wanted = [put(8224), put(16448)];
    check_eq!(rt; run.answers.as_slice(), wanted.as_slice());
    check_eq!(rt; run.log.bytes.len(), 16464);
    check_eq!(rt; run.log.bytes, two_records(rt.alloc())?);
    Ok(())
}

/// A pass sees it at a pin that it had before. A read under a shared content lock sees it, too.
#[test]
fn a_read_sees_what_another_put(rt: HostRuntime) -> Result<(), Fail> {
    let acts = [Two(Pair::CopyAroundPut), Third(Own::CopyShared(0))];
    let run = play_numbered(&rt, rt.alloc(), 64, &acts)?;
    let seen = SeenPut {
        hit: false,
        places: (0, 8224),
        put: Some((true, Ok(8224))),
    };
    let wanted = [Answer::CopyAroundPut(Ok(seen)), Answer::Copy(Ok(8224))];
    check_eq!(rt; run.answers.as_slice(), wanted.as_slice());
    let (before, after) = &run.pages.copies;
    check_eq!(rt; before.bytes(), one_item(0).as_slice());
    check_eq!(rt; after.bytes().get(8184..8188), Some([7, 0, 0, 0].as_slice()));
    check_eq!(rt; after.lsn(), 8224);
    check_eq!(rt; run.pages.shared.bytes(), after.bytes());
    check_eq!(rt; run.lane_calls(), Some((1, 0)));
    Ok(())
}

/// The last position that a log may reach.
const LAST: Lsn = 0x4000_0000_0000_0000;

#[test]
fn the_last_position_fills_the_log(rt: HostRuntime) -> Result<(), Fail> {
    let acts = [First(Own::Put(5)), First(Own::Put(5))];
    let lane = TestLane::numbered(None);
    let log = TestLog::new(rt.alloc(), 0);
    let run = play(&rt, rt.alloc(), 64, lane, log, LAST - 8224, &acts)?;
    let wanted = [put(LAST), put_refused(PutError::LogFull { end: LAST })];
    check_eq!(rt; run.answers.as_slice(), wanted.as_slice());
    Ok(())
}

#[test]
fn a_position_behind_the_log_is_refused(rt: HostRuntime) -> Result<(), Fail> {
    let acts = [First(Own::Put(5)), First(Own::Flush(5))];
    let lane = TestLane::positioned(LAST + 8);
    let log = TestLog::new(rt.alloc(), 0);
    let run = play(&rt, rt.alloc(), 64, lane, log, LAST, &acts)?;
    let short = FlushError::LogShort {
        lsn: LAST + 8,
        end: LAST,
    };
    let wanted = [
        put_refused(PutError::LogFull { end: LAST }),
        flush_refused(short),
    ];
    check_eq!(rt; run.answers.as_slice(), wanted.as_slice());
    Ok(())
}

#[test]
fn an_append_that_failed_leaves_the_first_put_unflushed(rt: HostRuntime) -> Result<(), Fail> {
    let acts = [First(Own::Put(5)), First(Own::Put(5)), First(Own::Flush(5))];
    let lane = TestLane::numbered(None);
    let mut log = TestLog::new(rt.alloc(), 3);
    check_eq!(rt; begin_log(&mut log, 0), Ok(()));
    let run = play(&rt, rt.alloc(), 64, lane, log, 0, &acts)?;
    let wanted = [
        put(8224),
        put_refused(PutError::LogFault),
        flush_refused(FlushError::LogDown { at: 8224 }),
    ];
    check_eq!(rt; run.answers.as_slice(), wanted.as_slice());
    check_eq!(rt; run.log.bytes.len(), 8240);
    Ok(())
}

#[test]
fn a_waiter_is_named_and_woken(rt: HostRuntime) -> Result<(), Fail> {
    let asked = Asked {
        refused: Some(CleanupError::OtherWaiter { backend: 0 }),
        wrong: Some(0),
    };
    let wanted = [Answer::WaitAtOne(Some(None), Some(asked))];
    check_acts(&rt, rt.alloc(), &[Three(All::WaitAtOne)], &wanted)
}

#[test]
fn a_try_that_is_not_alone_is_refused(rt: HostRuntime) -> Result<(), Fail> {
    let refusals = NotAlone {
        pinned: Some(TryCleanup::OtherPins { word: 0x8308_0002 }),
        shared: Some(TryCleanup::Busy { word: 1 }),
    };
    let wanted = [Answer::CleanBeside(Some(refusals))];
    check_acts(&rt, rt.alloc(), &[Two(Pair::CleanBeside)], &wanted)
}

#[test]
fn two_waiters_at_two_frames_are_woken(rt: HostRuntime) -> Result<(), Fail> {
    let asked = (
        Some(Some(CleanupError::OtherWaiter { backend: 0 })),
        Some(Some(CleanupError::OtherWaiter { backend: 1 })),
    );
    let wanted = [Answer::WaitAtBoth(asked, (Some(None), Some(None)))];
    check_acts(&rt, rt.alloc(), &[Three(All::WaitAtBoth)], &wanted)
}

#[test]
fn a_try_with_two_tokens_is_refused(rt: HostRuntime) -> Result<(), Fail> {
    let acts = [Two(Pair::CleanTwiceBeside(0)), First(Own::CleanTwice(0))];
    let twice = Some(TryCleanup::LocalPins { count: 2 });
    let beside = OwnPins {
        twice,
        once: Some(TryCleanup::OtherPins { word: 0x8308_0002 }),
    };
    let alone = OwnPins { twice, once: None };
    let wanted = [
        Answer::CleanTwice(Some(beside)),
        Answer::CleanTwice(Some(alone)),
    ];
    check_acts(&rt, rt.alloc(), &acts, &wanted)
}
