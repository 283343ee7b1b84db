//! Heads and records that aren't well formed.
use crate::bench::{NONE, Outcome, lanes_before, outcome_of, recover_by};
use crate::checks::check_eq;
use crate::log_bytes::{Image, Record, log_bytes};
use log_recovery::{RecoverError, Redone};
use std::alloc::Global;
use std::process::Abort;
use std::test::Fail;

/// What recovery by these bytes leaves of three lanes.
fn recover_three(rt: &impl Abort, alloc: Global, bytes: &[u8]) -> Result<Outcome, Fail> {
    let mut lanes = lanes_before(alloc, 3, 0, NONE)?;
    recover_by(rt, alloc, &mut lanes, bytes)
}

/// The last position that a log may reach.
const LAST: u64 = 0x4000_0000_0000_0000;

/// The lanes are left as they were.
#[test]
fn a_bad_head_is_refused(rt: HostRuntime) -> Result<(), Fail> {
    let alloc = rt.alloc();
    let record = Record::new(4096, 0, 1);
    for (mark, base) in [
        (b"QGBUFLOG", 4096),
        (b"PGBUFLOg", 4096),
        (b"PGBUFLOG", 4097),
        (b"PGBUFLOG", 4100),
        (b"PGBUFLOG", LAST + 8),
        (b"PGBUFLOG", 0xFFFF_FFFF_FFFF_FFF8),
    ] {
        let bytes = log_bytes(alloc, mark, base, &[record])?;
        let wanted = Outcome {
            answer: Err(RecoverError::BadLog),
            ..outcome_of(0)
        };
        check_eq!(rt;
            recover_three(&rt, alloc, &bytes)?,
            wanted,
            "{mark:?} {base}"
        );
    }
    Ok(())
}

/// Records of block 1 at 12320, each with one field that isn't well formed.
fn bad_records() -> [Record; 13] {
    let good = Record::new(12320, 1, 2);
    [
        Record { kind: 0, ..good },
        Record { kind: 2, ..good },
        Record { kind: 3, ..good },
        Record {
            tablespace: 1664,
            ..good
        },
        Record {
            database: 6,
            ..good
        },
        Record {
            relation: 16386,
            ..good
        },
        Record { fork: 4, ..good },
        Record {
            block: u32::MAX,
            ..good
        },
        Record {
            position: 12328,
            ..good
        },
        Record { lsn: 12320, ..good },
        Record { lsn: 20552, ..good },
        Record {
            image: Image::Unsound,
            ..good
        },
        Record {
            image: Image::New,
            ..good
        },
    ]
}

/// The record after it is as it is to be, but isn't read.
#[test]
fn reading_ends_before_a_bad_record(rt: HostRuntime) -> Result<(), Fail> {
    let alloc = rt.alloc();
    let before = Record::new(4096, 0, 1);
    let after = Record::new(20544, 0, 3);
    for (number, bad) in bad_records().into_iter().enumerate() {
        let bytes = log_bytes(alloc, b"PGBUFLOG", 4096, &[before, bad, after])?;
        check_eq!(rt;
            recover_three(&rt, alloc, &bytes)?,
            outcome_of(8240),
            "record {number}"
        );
    }
    Ok(())
}

/// One record fits before the last position, or none does.
#[test]
fn records_end_at_the_last_position(rt: HostRuntime) -> Result<(), Fail> {
    let alloc = rt.alloc();
    for (base, entries) in [(LAST - 8224, 1), (LAST - 8216, 0), (LAST, 0)] {
        let records = [Record::new(base, 0, 1), Record::new(base + 8224, 0, 3)];
        let bytes = log_bytes(alloc, b"PGBUFLOG", base, &records)?;
        let redone = Redone {
            base,
            end: base + 8224 * entries,
            entries,
            blocks: entries,
        };
        let found = recover_three(&rt, alloc, &bytes)?;
        check_eq!(rt; found.answer, Ok(redone), "from {base}");
    }
    Ok(())
}
