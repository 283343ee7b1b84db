//! Rewrites in which a call of a device fails, and recoveries after them.
use crate::checks::check_eq;
use crate::recover_fault_tests::check_recovery;
use crate::test_hosts::{Answer, Call, Failing, answer_of, error_line, failing_of, stored};
use crate::test_pages::{dead_items_page, repeated, rewrite_log};
use std::alloc::Global;
use std::process::Abort;
use std::sync::Wait;
use std::test::Fail;
use std::thread::Threads;

/// With as few frames the ring gives up the first page as the third is read.
const LINE: &str = "rewrite base/5/16384 --log w --lanes 1 --frames 16";

/// What a rewrite of four pages prints.
const TEXT: &str =
    "blocks 4 changed 4 same 0 skipped 0 new 0 invalid 0 dead 8\nlog 0/16B3740 0/16BB7C0\n";

/// The log that an older rewrite left.
const OLD_LOG: &[u8] = b"old";

/// A call that fails, of a device's calls the one with this number; the status; how many of the
/// first pages are rewritten; which one was torn; and how many bytes FILE has of the whole
/// rewrite's log: none if it is the old one.
type Row = (Call, u64, u8, usize, Option<usize>, Option<usize>);

/// Each call of a rewrite of four pages, as they come. A record has 8224 bytes, and the log takes
/// half of a piece whose append fails.
static FAULTS: [Row; 24] = [
    // The survey reads each page.
    (Call::Opening, 1, 4, 0, None, None),
    (Call::Read, 1, 4, 0, None, None),
    (Call::Read, 2, 4, 0, None, None),
    (Call::Read, 3, 4, 0, None, None),
    (Call::Read, 4, 4, 0, None, None),
    (Call::LogOpening, 1, 6, 0, None, None),
    (Call::Append, 1, 6, 0, None, Some(8)),
    // Blocks 0 and 1.
    (Call::Read, 5, 4, 0, None, Some(16)),
    (Call::Append, 2, 6, 0, None, Some(4128)),
    (Call::Read, 6, 4, 0, None, Some(8240)),
    (Call::Append, 3, 6, 0, None, Some(12352)),
    // Block 0 gives its frame up to block 2.
    (Call::LogSync, 1, 6, 0, None, Some(16464)),
    (Call::Write, 1, 5, 0, Some(0), Some(16464)),
    (Call::Read, 7, 4, 1, None, Some(16464)),
    (Call::Append, 4, 6, 1, None, Some(20576)),
    // Block 1 gives its frame up to block 3. The log was flushed past its record.
    (Call::Write, 2, 5, 1, Some(1), Some(24688)),
    (Call::Read, 8, 4, 2, None, Some(24688)),
    (Call::Append, 5, 6, 2, None, Some(28800)),
    // The checkpoint. After a fault there is none: block 2 was dirty before.
    (Call::LogSync, 2, 6, 2, None, Some(32912)),
    (Call::Write, 3, 5, 2, Some(2), Some(32912)),
    (Call::Write, 4, 5, 3, Some(3), Some(32912)),
    (Call::Sync, 1, 5, 4, None, Some(32912)),
    // The text goes out in one piece.
    (Call::Put, 1, 7, 4, None, Some(32912)),
    (Call::Put, 2, 0, 4, None, Some(32912)),
];

/// What is put of the text: half of it if the put fails, as the sink takes it.
fn text_put(status: u8) -> &'static str {
    match status {
        0 => TEXT,
        7 => "blocks 4 changed 4 same 0 skipped 0 new 0 ",
        _ => "",
    }
}

/// Rewrites these pages on a host of which these calls fail, with a log, if there is one.
fn rewrite_over<R: Threads + Wait + Sync>(
    rt: &R,
    alloc: Global,
    pages: &[u8],
    log: Option<&[u8]>,
    failing: Failing,
) -> Result<Box<Answer>, Fail> {
    answer_of(rt, alloc, LINE, stored(&[pages], log), failing)
}

/// Fails the test unless a rewrite in which the row's call fails ends so, and what it leaves is
/// recovered. The count of write faults rises with status 5 alone.
fn check_fault<R: Abort + Threads + Wait + Sync>(
    rt: &R,
    alloc: Global,
    row: &Row,
) -> Result<(), Fail> {
    let (call, number, status, rewritten, torn, length) = *row;
    let numbers = [number];
    let failing = failing_of(call, &numbers);
    let pages = repeated(alloc, &dead_items_page(), 4)?;
    let answer = rewrite_over(rt, alloc, &pages, Some(OLD_LOG), failing)?;
    answer.check(rt, status, text_put(status), error_line(status));
    let whole = rewrite_log(alloc)?;
    let log = match length {
        Some(length) => whole.get(..length),
        None => Some(OLD_LOG),
    };
    let left = (
        answer.has_pages(4, rewritten, torn),
        answer.has_log(log),
        answer.write_faults > 0,
    );
    check_eq!(rt; left, (true, true, status == 5), "{call:?} {number}");
    let recovered = if length.is_some() { log } else { None };
    check_recovery(rt, alloc, answer.relation_bytes(), recovered)
}

#[test]
fn one_call_fails(rt: HostRuntime) -> Result<(), Fail> {
    for row in &FAULTS {
        check_fault(&rt, rt.alloc(), row)?;
    }
    Ok(())
}
