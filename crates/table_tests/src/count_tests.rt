//! Counts of I/O events.
use crate::checks::check_eq;
use access_rings::RingKind;
use io_counts::{ByContext, IoEvent};
use std::test::Fail;

/// The last value of a count.
const LAST: u64 = 0xFFFF_FFFF_FFFF;

/// It begins one below, since no run counts so far.
#[test]
fn a_count_stands_still_at_its_last_value(rt: HostRuntime) -> Result<(), Fail> {
    let mut io = ByContext::none();
    io.vacuum.hits = LAST - 1;
    for _ in 0..5 {
        io.count(Some(RingKind::Vacuum), IoEvent::Hit);
    }
    let mut wanted = ByContext::none();
    wanted.vacuum.hits = LAST;
    check_eq!(rt; io, wanted);
    Ok(())
}
