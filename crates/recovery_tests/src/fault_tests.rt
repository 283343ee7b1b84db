//! Recoveries of which one call fails, and those that are made after them.
use crate::bench::{
    Held, NONE, Outcome, lanes_before, outcome_of, recover_by, recover_lanes, source, whole_page,
};
use crate::checks::check_eq;
use crate::kept_lane::{Failing, KeptLane};
use crate::log_bytes::three_records;
use log_recovery::RecoverError;
use page_layout::Lsn;
use std::alloc::Global;
use std::process::Abort;
use std::test::Fail;

/// The lanes are recovered by all of the log, and hold what is to be.
fn recover_again(
    rt: &impl Abort,
    alloc: Global,
    lanes: &mut [KeptLane],
    log: &[u8],
) -> Result<(), Fail> {
    let again = recover_by(rt, alloc, lanes, log)?;
    check_eq!(rt; again, outcome_of(log.len()));
    Ok(())
}

/// The call of the source for the head, those for the three records, or the last.
#[test]
fn a_read_fails(rt: HostRuntime) -> Result<(), Fail> {
    let alloc = rt.alloc();
    let log = three_records(alloc)?;
    for (call, length) in [(1, 0), (2, 16), (3, 8240), (4, 16464), (5, 24688)] {
        let mut source = source(alloc, &log, usize::MAX, call)?;
        let mut lanes = lanes_before(alloc, 3, 0, NONE)?;
        let found = recover_lanes(&rt, alloc, &mut lanes, &mut source)?;
        let wanted = Outcome {
            answer: Err(RecoverError::ReadFault),
            ..outcome_of(length)
        };
        check_eq!(rt; (found, source.faults()), (wanted, 1), "call {call}");
        recover_again(&rt, alloc, &mut lanes, &log)?;
    }
    Ok(())
}

/// Writes that fail, and the items and positions of the blocks 0 and 1 then. Of a torn page the
/// position is new, and the item that of the page before.
static TORN: [(u32, (u8, Lsn), (u8, Lsn)); 3] = [
    (1, (100, 12320), (101, 2048)),
    (2, (1, 12320), (101, 20544)),
    (3, (1, 28768), (2, 20544)),
];

#[test]
fn a_write_fails(rt: HostRuntime) -> Result<(), Fail> {
    let alloc = rt.alloc();
    let log = three_records(alloc)?;
    for (write, first, second) in &TORN {
        let failing = Failing {
            write: *write,
            sync: 0,
        };
        let mut lanes = lanes_before(alloc, 1, 0, failing)?;
        let found = recover_by(&rt, alloc, &mut lanes, &log)?;
        let pages = [
            whole_page(first.0, first.1),
            whole_page(second.0, second.1),
            whole_page(102, 2048),
        ];
        let wanted = Outcome {
            answer: Err(RecoverError::WriteFault),
            held: Held { pages, blocks: 3 },
        };
        check_eq!(rt; found, wanted, "write {write}");
        recover_again(&rt, alloc, &mut lanes, &log)?;
    }
    Ok(())
}

#[test]
fn a_sync_fails(rt: HostRuntime) -> Result<(), Fail> {
    let alloc = rt.alloc();
    let log = three_records(alloc)?;
    for lane in 0..3 {
        let mut lanes = lanes_before(alloc, 3, lane, Failing { write: 0, sync: 1 })?;
        let found = recover_by(&rt, alloc, &mut lanes, &log)?;
        let wanted = Outcome {
            answer: Err(RecoverError::WriteFault),
            ..outcome_of(24688)
        };
        check_eq!(rt; found, wanted, "lane {lane}");
        recover_again(&rt, alloc, &mut lanes, &log)?;
    }
    Ok(())
}
