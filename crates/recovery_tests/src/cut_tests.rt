//! A log of three records that is cut at each of its lengths.
ghost use Rattle.std.specs.Prelude.{◌≤◌};

use crate::bench::{NONE, first_of, lanes_before, outcome_of, recover_by_pieces};
use crate::checks::check_eq;
use crate::log_bytes::three_records;
use std::alloc::Global;
use std::process::Abort;
use std::test::Fail;

/// Recovers so many lanes by the first bytes of the log, of which a call gives so many at most.
fn recover_cut(
    rt: &impl Abort,
    alloc: Global,
    log: &[u8],
    length: usize,
    most: usize,
    lanes: usize,
) -> Result<(), Fail>
    requires { 1 ≤ most }
{
    let bytes = first_of(log, length)?;
    let mut lanes = lanes_before(alloc, lanes, 0, NONE)?;
    let found = recover_by_pieces(rt, alloc, &mut lanes, bytes, most)?;
    check_eq!(rt; found, outcome_of(length), "{length} bytes, {most} a call");
    Ok(())
}

#[test]
fn a_log_is_cut_anywhere(rt: HostRuntime) -> Result<(), Fail> {
    let alloc = rt.alloc();
    let log = three_records(alloc)?;
    check_eq!(rt; log.len(), 24688);
    for length in 0..24689 {
        recover_cut(&rt, alloc, &log, length, usize::MAX, 1)?;
    }
    Ok(())
}

#[test]
fn a_log_is_read_by_seven_bytes(rt: HostRuntime) -> Result<(), Fail> {
    let alloc = rt.alloc();
    let log = three_records(alloc)?;
    for length in 0..24689 {
        recover_cut(&rt, alloc, &log, length, 7, 3)?;
    }
    Ok(())
}

/// Whether a head or a record ends within 40 bytes of this length.
fn is_near_an_end(length: usize) -> bool {
    let mut near = false;
    for end in [16usize, 8240, 16464, 24688] {
        near = near || length.abs_diff(end) <= 40;
    }
    near
}

#[test]
fn a_log_is_read_byte_by_byte(rt: HostRuntime) -> Result<(), Fail> {
    let alloc = rt.alloc();
    let log = three_records(alloc)?;
    for length in 0..24689 {
        if length % 500 == 0 || is_near_an_end(length) {
            recover_cut(&rt, alloc, &log, length, 1, 3)?;
        }
    }
    Ok(())
}
