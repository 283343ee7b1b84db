//! Rounds and checkpoints that are run.
use crate::acts::{Act, Answer};
use crate::cases::{
    Case, NO_ACTS, check_case, checkpoint, devices, no_ring, put, read, refused, round,
};
use crate::checks::check_eq;
use crate::devices::TestCall::{Append, ReadBlock, SyncLane, SyncLog, WriteBlock};
use crate::devices::{Failing, PageLane};
use crate::sharing::{TestJob, Use, run_beside};
use backend_pass::{FlushError, Met};
use checkpointer::CheckpointError;
use manager_bench::bench::block;
use page_layout::{Lsn, Page};
use std::test::Fail;
use table_rule::RECORD_SIZE;
use test_devices::one_item;

#[test]
fn a_round_leaves_a_used_page_to_a_checkpoint(rt: HostRuntime) -> Result<(), Fail> {
    let case = Case {
        acts: &[Act::Put(0), Act::Round, Act::Checkpoint, Act::Checkpoint],
        answers: &[
            put(8224),
            round(16, 0),
            checkpoint(8224, 1),
            checkpoint(8224, 0),
        ],
        calls: Some(&[
            ReadBlock(0),
            Append,
            SyncLog,
            WriteBlock(0),
            SyncLane,
            SyncLane,
        ]),
        ..NO_ACTS
    };
    let run = check_case(&rt, rt.alloc(), &case)?;
    // The write is the second pass's.
    let counted = [
        no_ring(0, 1, 0, 0),
        no_ring(0, 0, 1, 0),
        no_ring(0, 0, 0, 0),
    ];
    check_eq!(rt; run.io, counted);
    Ok(())
}

#[test]
fn a_checkpoint_writes_pages_in_the_order_of_their_tags(rt: HostRuntime) -> Result<(), Fail> {
    let case = Case {
        acts: &[
            Act::Put(9),
            Act::Put(3),
            Act::Put(12),
            Act::Put(0),
            Act::Checkpoint,
        ],
        answers: &[
            put(8224),
            put(16448),
            put(24672),
            put(32896),
            checkpoint(32896, 4),
        ],
        calls: Some(&[
            ReadBlock(9),
            Append,
            ReadBlock(3),
            Append,
            ReadBlock(12),
            Append,
            ReadBlock(0),
            Append,
            SyncLog,
            WriteBlock(0),
            WriteBlock(3),
            WriteBlock(9),
            WriteBlock(12),
            SyncLane,
        ]),
        ..NO_ACTS
    };
    check_case(&rt, rt.alloc(), &case)?;
    Ok(())
}

#[test]
fn a_write_that_failed_is_made_by_the_next_checkpoint(rt: HostRuntime) -> Result<(), Fail> {
    let case = Case {
        lane_fails: Failing::Write(2),
        puts: 3,
        acts: &[Act::Checkpoint, Act::Checkpoint],
        answers: &[
            refused(CheckpointError::WriteFault { tag: block(1) }),
            checkpoint(24672, 2),
        ],
        calls: Some(&[
            SyncLog,
            WriteBlock(0),
            WriteBlock(1),
            WriteBlock(1),
            WriteBlock(2),
            SyncLane,
        ]),
        ..NO_ACTS
    };
    let run = check_case(&rt, rt.alloc(), &case)?;
    // The write that failed isn't counted.
    let counted = [
        no_ring(0, 3, 0, 0),
        no_ring(0, 0, 3, 0),
        no_ring(0, 0, 0, 0),
    ];
    check_eq!(rt; run.io, counted);
    let met = Met {
        reads: 0,
        writes: 1,
        logs: 0,
    };
    check_eq!(rt; run.met, met);
    let stored = [run.page_lsn(0), run.page_lsn(1), run.page_lsn(2)];
    check_eq!(rt; stored, [Some(8224), Some(16448), Some(24672)]);
    Ok(())
}

#[test]
fn a_lane_that_is_not_synced_is_named(rt: HostRuntime) -> Result<(), Fail> {
    let case = Case {
        lanes: 2,
        lane_fails: Failing::Sync(1),
        acts: &[Act::Put(0), Act::Checkpoint, Act::Checkpoint],
        answers: &[
            put(8224),
            refused(CheckpointError::SyncFault { lane: 1 }),
            checkpoint(8224, 0),
        ],
        calls: Some(&[
            ReadBlock(0),
            Append,
            SyncLog,
            WriteBlock(0),
            SyncLane,
            SyncLane,
            SyncLane,
            SyncLane,
        ]),
        ..NO_ACTS
    };
    let run = check_case(&rt, rt.alloc(), &case)?;
    let met = Met {
        reads: 0,
        writes: 1,
        logs: 0,
    };
    check_eq!(rt; run.met, met);
    Ok(())
}

#[test]
fn a_log_that_failed_stops_each_checkpoint(rt: HostRuntime) -> Result<(), Fail> {
    let case = Case {
        log_fails: Failing::Sync(1),
        acts: &[Act::Put(0), Act::Checkpoint, Act::Checkpoint],
        answers: &[
            put(8224),
            refused(CheckpointError::LogFault),
            refused(CheckpointError::LogDown { at: 8224 }),
        ],
        calls: Some(&[ReadBlock(0), Append, SyncLog]),
        ..NO_ACTS
    };
    let run = check_case(&rt, rt.alloc(), &case)?;
    let met = Met {
        reads: 0,
        writes: 0,
        logs: 1,
    };
    check_eq!(rt; run.met, met);
    Ok(())
}

#[test]
fn a_round_starts_at_the_hand(rt: HostRuntime) -> Result<(), Fail> {
    let case = Case {
        puts: 16,
        acts: &[
            // The clock passes each frame once. Block 16 takes the frame of block 0, and block 17
            // that of block 2, as block 1 is used again.
            Act::Read(16),
            Act::Read(1),
            Act::Read(17),
            // Block 5 is used, too, and block 7 is pinned.
            Act::Read(5),
            Act::RoundBeside(7),
            Act::Round,
            // The clock passes block 5.
            Act::Read(18),
            Act::Read(19),
            Act::Read(20),
            Act::Round,
        ],
        answers: &[
            read(0, false),
            read(1, true),
            read(2, false),
            read(5, true),
            round(16, 12),
            round(16, 0),
            read(3, false),
            read(4, false),
            read(6, false),
            round(16, 1),
        ],
        calls: Some(&[
            SyncLog,
            WriteBlock(0),
            ReadBlock(16),
            WriteBlock(2),
            ReadBlock(17),
            WriteBlock(3),
            WriteBlock(4),
            WriteBlock(6),
            WriteBlock(8),
            WriteBlock(9),
            WriteBlock(10),
            WriteBlock(11),
            WriteBlock(12),
            WriteBlock(13),
            WriteBlock(14),
            WriteBlock(15),
            WriteBlock(1),
            ReadBlock(18),
            ReadBlock(19),
            ReadBlock(20),
            WriteBlock(5),
        ]),
        ..NO_ACTS
    };
    check_case(&rt, rt.alloc(), &case)?;
    Ok(())
}

#[test]
fn a_round_writes_100_pages(rt: HostRuntime) -> Result<(), Fail> {
    let case = Case {
        frames: 128,
        puts: 128,
        acts: &[Act::Read(128), Act::Round, Act::Round, Act::Round],
        answers: &[
            read(0, false),
            round(100, 100),
            round(128, 27),
            round(128, 0),
        ],
        ..NO_ACTS
    };
    let run = check_case(&rt, rt.alloc(), &case)?;
    // The first pass writes block 0, whose frame it takes for block 128.
    let counted = [
        no_ring(0, 129, 1, 1),
        no_ring(0, 0, 127, 0),
        no_ring(0, 0, 0, 0),
    ];
    check_eq!(rt; run.io, counted);
    Ok(())
}

#[test]
fn a_round_ends_with_a_write_that_failed(rt: HostRuntime) -> Result<(), Fail> {
    let case = Case {
        lane_fails: Failing::Write(3),
        puts: 16,
        acts: &[Act::Read(16), Act::Round, Act::Round],
        answers: &[
            read(0, false),
            Answer::Round(Some(Err(FlushError::WriteFault { tag: block(2) }))),
            round(16, 14),
        ],
        ..NO_ACTS
    };
    check_case(&rt, rt.alloc(), &case)?;
    Ok(())
}

/// The block of a record of the log.
fn block_of(record: &[u8]) -> Option<u32> {
    let bytes = record.get(20..)?.first_chunk::<4>()?;
    Some(u32::from_le_bytes(*bytes))
}

/// How many records of the log up to a position aren't in the lane, nor later ones of their blocks.
fn unstored(log: &[u8], lane: &PageLane, upto: Lsn) -> u32 {
    let mut missing: u32 = 0;
    let mut end: Lsn = 0;
    for record in log.chunks_exact(RECORD_SIZE as usize) {
        end = end.saturating_add(RECORD_SIZE);
        let stored = match block_of(record) {
            Some(number) => lane.pages.get(number as usize).map_or(0, Page::lsn),
            None => 0,
        };
        if end <= upto && stored < end {
            missing = missing.saturating_add(1);
        }
    }
    missing
}

/// How many pages of the lane aren't their blocks'.
fn wrong(lane: &mut PageLane) -> u32 {
    let mut wrong: u32 = 0;
    for (number, page) in lane.pages.iter_mut().enumerate() {
        page.set_lsn(0);
        if page.bytes() != one_item((number % 256) as u8).as_slice() {
            wrong = wrong.saturating_add(1);
        }
    }
    wrong
}

#[test]
fn a_checkpoint_stores_what_was_put_before_it(rt: HostRuntime) -> Result<(), Fail> {
    let (lanes, log) = devices(rt.alloc(), 1, Failing::None, Failing::None)?;
    let both = (Use::Put, Use::Put);
    let mut run = run_beside(&rt, rt.alloc(), lanes, log, both, TestJob::Checkpoints)?;
    check_eq!(rt; run.beside.used, (Some(200), Some(200)));
    let upto = run.beside.upto.ok_or("a checkpoint was refused")?;
    let lane = run.lanes.first_mut().ok_or("no lane")?;
    check_eq!(rt; run.log.bytes.len(), 400 * RECORD_SIZE as usize);
    check_eq!(rt; unstored(&run.log.bytes, lane, upto), 0);
    check_eq!(rt; wrong(lane), 0);
    Ok(())
}

#[test]
fn rounds_are_made_beside_puts_and_reads(rt: HostRuntime) -> Result<(), Fail> {
    let (lanes, log) = devices(rt.alloc(), 1, Failing::None, Failing::None)?;
    let each = (Use::Put, Use::Copy);
    let mut run = run_beside(&rt, rt.alloc(), lanes, log, each, TestJob::Rounds)?;
    check_eq!(rt; run.beside.used, (Some(200), Some(200)));
    check_eq!(rt; run.beside.upto, Some(0));
    let lane = run.lanes.first_mut().ok_or("no lane")?;
    check_eq!(rt; wrong(lane), 0);
    Ok(())
}
