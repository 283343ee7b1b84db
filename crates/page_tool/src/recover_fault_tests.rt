//! Recoveries in which a call of a device fails, and recoveries of what is left of a relation.
use crate::checks::{check, check_eq};
use crate::test_hosts::{Call, NONE_FAIL, answer_of, error_line, failing_of, roomy, stored};
use crate::test_pages::{dead_items_page, one_page_log, rewritten_page};
use std::alloc::Global;
use std::process::Abort;
use std::sync::Wait;
use std::test::Fail;
use std::thread::Threads;

const LINE: &str = "recover base/5/16384 --log w --lanes 1";

/// What a recovery prints, by how many records its log has: that of one page's rewrite, or of
/// four's.
static REDONE: [&str; 5] = [
    "log 0/16B3740 0/16B3740 entries 0\nblocks 0 redone\n",
    "log 0/16B3740 0/16B5760 entries 1\nblocks 1 redone\n",
    "log 0/16B3740 0/16B7780 entries 2\nblocks 2 redone\n",
    "log 0/16B3740 0/16B97A0 entries 3\nblocks 3 redone\n",
    "log 0/16B3740 0/16BB7C0 entries 4\nblocks 4 redone\n",
];

/// A call that fails, of a device's calls the one with this number; the status; of how many pages
/// the record was redone; and which one was torn.
type Row = (Call, u64, u8, usize, Option<usize>);

/// Each call of a recovery of one page. Its log is read in four pieces: the head, the record in
/// two, and nothing after it.
static FAULTS: [Row; 9] = [
    (Call::Opening, 1, 4, 0, None),
    (Call::SourceOpening, 1, 4, 0, None),
    (Call::SourceCall, 1, 4, 0, None),
    (Call::SourceCall, 2, 4, 0, None),
    (Call::SourceCall, 3, 4, 0, None),
    (Call::Write, 1, 5, 0, Some(0)),
    (Call::SourceCall, 4, 4, 1, None),
    (Call::Sync, 1, 5, 1, None),
    (Call::Put, 1, 7, 1, None),
];

/// What is put of the text: half of it if the put fails, as the sink takes it, and else nothing.
fn text_put(status: u8) -> &'static str {
    match status {
        7 => "log 0/16B3740 0/16B5760 e",
        _ => "",
    }
}

/// How many whole records a log of this length has.
fn records_in(length: usize) -> usize {
    length.saturating_sub(16) / 8224
}

/// How a recovery by a log ends: its status, its output and its error stream.
fn recovery_by(log: Option<&[u8]>) -> (u8, &'static str, &'static str) {
    let Some(log) = log else {
        return (3, "", "page_tool: missing: w\n");
    };
    if log.len() < 16 {
        return (0, "log 0/0 0/0 entries 0\nblocks 0 redone\n", "");
    }
    match REDONE.get(records_in(log.len())) {
        Some(text) => (0, text, ""),
        None => (0, "", ""),
    }
}

/// Fails the test unless what is left of a relation here, with these bytes of the log of its
/// rewrite, is recovered if no call fails: each page that has a whole record is that one, and no
/// other is.
pub(crate) fn check_recovery<R: Abort + Threads + Wait + Sync>(
    rt: &R,
    alloc: Global,
    left: &[u8],
    log: Option<&[u8]>,
) -> Result<(), Fail> {
    let answer = answer_of(rt, alloc, LINE, stored(&[left], log), NONE_FAIL)?;
    let (status, out, err) = recovery_by(log);
    answer.check(rt, status, out, err);
    let redone = match log {
        Some(log) => records_in(log.len()),
        None => 0,
    };
    let ends = (
        answer.has_pages(left.len() / 8192, redone, None),
        answer.has_log(log),
    );
    check_eq!(rt; ends, (true, true), "{redone}");
    Ok(())
}

/// Fails the test unless a recovery in which the row's call fails ends so, and one after it is
/// whole.
fn check_fault<R: Abort + Threads + Wait + Sync>(
    rt: &R,
    alloc: Global,
    row: &Row,
) -> Result<(), Fail> {
    let (call, number, status, redone, torn) = *row;
    let numbers = [number];
    let failing = failing_of(call, &numbers);
    let log = one_page_log(alloc, 0)?;
    let page = dead_items_page();
    let answer = answer_of(rt, alloc, LINE, stored(&[&page], Some(&log)), failing)?;
    answer.check(rt, status, text_put(status), error_line(status));
    let ends = (
        answer.has_pages(1, redone, torn),
        answer.has_log(Some(&log)),
    );
    check_eq!(rt; ends, (true, true), "{call:?} {number}");
    check_recovery(rt, alloc, answer.relation_bytes(), Some(&log))
}

#[test]
fn one_call_of_a_recovery_fails(rt: HostRuntime) -> Result<(), Fail> {
    for row in &FAULTS {
        check_fault(&rt, rt.alloc(), row)?;
    }
    Ok(())
}

/// Two pages, one after the other.
fn two_pages(alloc: Global, first: &[u8], second: &[u8]) -> Result<Vec<u8>, Fail> {
    let mut bytes = first.to_vec(alloc)?;
    bytes.extend_from_slice(second)?;
    Ok(bytes)
}

/// A relation of three blocks, in segments of two, gets block 5 if it may have three segments. If
/// it may have two, nothing is written.
#[test]
fn a_relation_grows_into_its_room(rt: HostRuntime) -> Result<(), Fail> {
    let alloc = rt.alloc();
    let log = one_page_log(alloc, 5)?;
    let line = "recover base/5/16384 --log w --segment-blocks 2";
    let page = dead_items_page();
    let first = two_pages(alloc, &page, &page)?;
    let longer = two_pages(alloc, &page, &[0; 8192])?;
    let third = two_pages(alloc, &[0; 8192], &rewritten_page(0))?;

    let answer = answer_of(
        &rt,
        alloc,
        line,
        roomy(&[&first, &page], &log, 3),
        NONE_FAIL,
    )?;
    answer.check(&rt, 0, REDONE[1], "");
    check!(rt; answer.has_segments(&[&first, &longer, &third]));

    let answer = answer_of(
        &rt,
        alloc,
        line,
        roomy(&[&first, &page], &log, 2),
        NONE_FAIL,
    )?;
    answer.check(&rt, 5, "", error_line(5));
    check!(rt; answer.has_segments(&[&first, &page]));
    Ok(())
}
