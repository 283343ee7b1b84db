//! Loads of listed blocks that are run.
use crate::checks::check_eq;
use crate::lanes::ReadLane;
use crate::loading::load_blocks;
use io_counts::IoCounts;
use manager_bench::bench::block;
use page_jobs::{JobError, Totals};
use std::test::Fail;

/// What a load counts.
const NO_TOTALS: Totals = Totals {
    blocks: 0,
    used: 0,
    new: 0,
    invalid: 0,
    normal: 0,
    redirect: 0,
    dead: 0,
    unused: 0,
    changed: 0,
    same: 0,
    skipped: 0,
};

/// What passes count that are given no ring, and evict nothing.
fn found(hits: u64, reads: u64) -> IoCounts {
    IoCounts {
        hits: [hits, 0, 0, 0],
        reads: [reads, 0, 0, 0],
        writes: [0; 4],
        evictions: [0; 4],
        reuses: [0; 4],
    }
}

#[test]
fn a_block_whose_page_is_not_sound_is_passed_over(rt: HostRuntime) -> Result<(), Fail> {
    let lane = ReadLane::new(Some(7), 0);
    let run = load_blocks(&rt, rt.alloc(), 2, lane, &[3, 7, 1])?;
    check_eq!(rt; run.end, Ok(NO_TOTALS));
    check_eq!(rt; run.reads, 3);
    check_eq!(rt; run.io, found(0, 3));
    Ok(())
}

#[test]
fn a_block_that_is_listed_twice_is_read_twice(rt: HostRuntime) -> Result<(), Fail> {
    let run = load_blocks(&rt, rt.alloc(), 2, ReadLane::new(None, 0), &[5, 2, 5])?;
    check_eq!(rt; run.end, Ok(NO_TOTALS));
    check_eq!(rt; run.reads, 2);
    check_eq!(rt; run.io, found(1, 2));
    Ok(())
}

#[test]
fn an_empty_list_is_loaded(rt: HostRuntime) -> Result<(), Fail> {
    let run = load_blocks(&rt, rt.alloc(), 2, ReadLane::new(None, 0), &[])?;
    check_eq!(rt; run.end, Ok(NO_TOTALS));
    check_eq!(rt; run.io, found(0, 0));
    Ok(())
}

#[test]
fn several_workers_load_each_block_once(rt: HostRuntime) -> Result<(), Fail> {
    let numbers = [
        19, 3, 0, 8, 21, 5, 17, 2, 1, 4, 6, 7, 9, 10, 11, 12, 13, 14, 15, 16, 18, 20, 22, 23, 24,
    ];
    let run = load_blocks(&rt, rt.alloc(), 4, ReadLane::new(None, 0), &numbers)?;
    check_eq!(rt; run.end, Ok(NO_TOTALS));
    check_eq!(rt; run.reads, 25);
    check_eq!(rt; (run.io.hits, run.io.reads), ([0; 4], [25, 0, 0, 0]));
    Ok(())
}

#[test]
fn the_first_read_that_fails_ends_a_load(rt: HostRuntime) -> Result<(), Fail> {
    let numbers = [4, 9, 6];
    for (before, number) in numbers.iter().enumerate() {
        let failing = before as u32 + 1;
        let run = load_blocks(&rt, rt.alloc(), 2, ReadLane::new(None, failing), &numbers)?;
        let tag = block(*number);
        check_eq!(rt; run.end, Err(JobError::ReadFault { tag }), "read {failing}");
        check_eq!(rt; run.reads, failing, "read {failing}");
        check_eq!(rt; run.io, found(0, before as u64), "read {failing}");
    }
    Ok(())
}
