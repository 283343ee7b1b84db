//! Commands by several workers, and scans in which a call of a device fails.
use crate::checks::check_eq;
use crate::test_hosts::{
    Answer, Call, CountingSink, Failing, NONE_FAIL, answer_at, answer_of, answer_to, error_line,
    failing_of, pages,
};
use crate::test_pages::{dead_items_page, numbered_page, one_item_page, repeated};
use backend_pass::Pinned;
use page_jobs::Gate;
use std::alloc::Global;
use std::process::Abort;
use std::sync::Wait;
use std::sync::atomic::{AtomicBool, AtomicU64, Ordering};
use std::test::Fail;
use std::thread::{Threads, yield_now};

/// How often a worker that is held looks for the other before it gives up.
const TURNS: u32 = 10_000_000;

/// Which of two or more workers a gate holds, and until when.
#[derive(Clone, Copy)]
enum Holds {
    Nobody,
    /// The first, before each of its blocks, until another one has come, and these until the first
    /// has.
    Each,
    /// The one that takes block 0, until block 8 was called, with which the next chunk begins.
    BlockZero,
}

/// Waits until this was set; false if it gave up.
fn has_come(came: &AtomicBool) -> bool {
    for _ in 0..TURNS {
        if came.load(Ordering::SeqCst) {
            return true;
        }
        yield_now();
    }
    false
}

/// Lets the other threads run for a while.
fn wait_a_while() {
    for _ in 0..1000 {
        yield_now();
    }
}

/// Holds workers. It counts the pins of blocks below 64, and adds up 1 << block of each: 64 pins
/// that add up to all ones are one of each block.
#[derive(Drop)]
struct HoldingGate {
    holds: Holds,
    first_came: AtomicBool,
    other_came: AtomicBool,
    gave_up: AtomicBool,
    pins: AtomicU64,
    sum: AtomicU64,
}

impl HoldingGate {
    fn new(holds: Holds) -> HoldingGate {
        HoldingGate {
            holds,
            first_came: AtomicBool::new(false),
            other_came: AtomicBool::new(false),
            gave_up: AtomicBool::new(false),
            pins: AtomicU64::new(0),
            sum: AtomicU64::new(0),
        }
    }

    fn wait_for(&self, came: &AtomicBool) {
        if !has_come(came) {
            self.gave_up.store(true, Ordering::SeqCst);
        }
    }

    /// Whether it saw each of 64 blocks pinned once, and didn't give up.
    fn pinned_once(&self) -> bool {
        self.seen() == (false, 64, u64::MAX)
    }

    /// Whether it gave up, how many pins it saw, and what their blocks add up to.
    fn seen(&self) -> (bool, u64, u64) {
        (
            self.gave_up.load(Ordering::SeqCst),
            self.pins.load(Ordering::SeqCst),
            self.sum.load(Ordering::SeqCst),
        )
    }
}

impl Gate for HoldingGate {
    fn before(&self, worker: u32, block: u32) {
        match (self.holds, worker, block) {
            (Holds::Nobody, _, _) => {}
            (Holds::Each, 0, _) => {
                self.first_came.store(true, Ordering::SeqCst);
                self.wait_for(&self.other_came);
            }
            (Holds::Each, _, _) => {
                self.other_came.store(true, Ordering::SeqCst);
                self.wait_for(&self.first_came);
            }
            (Holds::BlockZero, _, 0) => self.wait_for(&self.other_came),
            (Holds::BlockZero, _, 8) => self.other_came.store(true, Ordering::SeqCst),
            (Holds::BlockZero, _, _) => {}
        }
    }

    fn seen(&self, _worker: u32, pinned: &Pinned) {
        let block = pinned.tag().block;
        if block < 64 {
            self.pins.fetch_add(1, Ordering::SeqCst);
            self.sum.fetch_add(1 << block, Ordering::SeqCst);
        }
    }
}

/// 65 pages, each with its number in its item and the log position 0/0, and the text of their scan.
fn numbered_pages(alloc: Global) -> Result<(Vec<u8>, String), Fail> {
    let mut bytes = Vec::new(alloc);
    let mut text = String::new(alloc);
    for number in 0u8..65 {
        bytes.extend_from_slice(&numbered_page(number))?;
        text.push_str(&format!(in alloc;
            "{number} lsn 0/0 flags 0 lower 28 upper 8184 special 8192 items 1 normal 1 redirect 0 dead 0 unused 0\n"
        )?)?;
    }
    text.push_str("blocks 65 used 65 new 0 invalid 0 normal 65 redirect 0 dead 0 unused 0\n")?;
    Ok((bytes, text))
}

/// Runs a command over a relation of these pages, with this gate.
fn answer_over<R: Threads + Wait + Sync>(
    rt: &R,
    alloc: Global,
    command: &str,
    bytes: &[u8],
    gate: &HoldingGate,
) -> Result<Box<Answer>, Fail> {
    answer_at(rt, alloc, command, pages(&[bytes]), NONE_FAIL, gate)
}

/// Runs a command by one worker, and by so many that are held: each block is pinned once, and the
/// output is the same.
fn check_held<R: Abort + Threads + Wait + Sync>(
    rt: &R,
    alloc: Global,
    command: &str,
    bytes: &[u8],
    backends: u32,
    holds: Holds,
) -> Result<(), Fail> {
    let free = HoldingGate::new(Holds::Nobody);
    let alone = answer_over(rt, alloc, command, bytes, &free)?;
    let gate = HoldingGate::new(holds);
    let line = format!(in alloc; "{command} --backends {backends}")?;
    let answer = answer_over(rt, alloc, line.as_str(), bytes, &gate)?;
    let pinned = (free.pinned_once(), gate.pinned_once());
    check_eq!(rt; pinned, (true, true), "{line}");
    check_eq!(rt; (alone.status, answer.status), (0, 0), "{line}");
    check_eq!(rt; answer.out.as_slice(), alone.out.as_slice(), "{line}");
    Ok(())
}

/// How many workers are held, and how.
static HELD: [(u32, Holds); 4] = [
    (2, Holds::Each),
    (2, Holds::BlockZero),
    (7, Holds::Each),
    (7, Holds::BlockZero),
];

/// Workers work side by side, each on chunks that it claims: one doesn't do all.
#[test]
fn workers_work_side_by_side(rt: HostRuntime) -> Result<(), Fail> {
    let alloc = rt.alloc();
    let (bytes, _text) = numbered_pages(alloc)?;
    let changed = repeated(alloc, &dead_items_page(), 65)?;
    for (backends, holds) in &HELD {
        let (backends, holds) = (*backends, *holds);
        check_held(&rt, alloc, "scan base/5/16384", &bytes, backends, holds)?;
        check_held(&rt, alloc, "dump base/5/16384", &bytes, backends, holds)?;
        let rewrite = "rewrite base/5/16384 --log w";
        check_held(&rt, alloc, rewrite, &changed, backends, holds)?;
    }
    Ok(())
}

/// How many workers a sample has.
static WORKERS: [u32; 3] = [1, 2, 7];

/// A sample pins its sound blocks, which are 0, 1 and 3, once in each of its three parts.
#[test]
fn a_sample_pins_its_blocks(rt: HostRuntime) -> Result<(), Fail> {
    let alloc = rt.alloc();
    for backends in &WORKERS {
        let gate = HoldingGate::new(Holds::Nobody);
        let line = format!(in alloc; "sample 7 4 --backends {backends}")?;
        let answer = answer_at(&rt, alloc, line.as_str(), pages(&[]), NONE_FAIL, &gate)?;
        check_eq!(rt; (answer.status, gate.seen()), (0, (false, 9, 33)), "{line}");
    }
    Ok(())
}

/// Holds the first worker before its first block until the other one has read a page, and then for
/// a while.
#[derive(Drop)]
struct SecondWorkerGate {
    other_read: AtomicBool,
    came: AtomicBool,
}

impl Gate for SecondWorkerGate {
    fn before(&self, worker: u32, _block: u32) {
        if worker == 0 && has_come(&self.other_read) {
            wait_a_while();
            self.came.store(true, Ordering::SeqCst);
        }
    }

    fn seen(&self, worker: u32, _pinned: &Pinned) {
        if worker != 0 {
            self.other_read.store(true, Ordering::SeqCst);
        }
    }
}

/// The second worker's first record isn't written, and the first worker finds the log down: the
/// status is that of a log fault, and no page is written. Half of a record follows the head of the
/// log.
#[test]
fn the_log_is_down_for_the_others(rt: HostRuntime) -> Result<(), Fail> {
    let alloc = rt.alloc();
    let bytes = repeated(alloc, &dead_items_page(), 65)?;
    let failing = failing_of(Call::Append, &[2]);
    let gate = SecondWorkerGate {
        other_read: AtomicBool::new(false),
        came: AtomicBool::new(false),
    };
    let line = "rewrite base/5/16384 --log w --backends 2";
    let answer = answer_at(&rt, alloc, line, pages(&[&bytes]), failing, &gate)?;
    answer.check(&rt, 6, "", error_line(6));
    let log_length = match &answer.log {
        Some(log) => log.len(),
        None => 0,
    };
    let came = gate.came.load(Ordering::SeqCst);
    let left = (came, answer.has_pages(65, 0, None), log_length);
    check_eq!(rt; left, (true, true, 4128));
    Ok(())
}

/// The texts of chunks go out in their order.
#[test]
fn chunks_are_printed_in_order(rt: HostRuntime) -> Result<(), Fail> {
    let alloc = rt.alloc();
    let (bytes, text) = numbered_pages(alloc)?;
    let line = "scan base/5/16384 --backends 4";
    let answer = answer_of(&rt, alloc, line, pages(&[&bytes]), NONE_FAIL)?;
    answer.check(&rt, 0, text.as_str(), "");
    Ok(())
}

/// One worker meets a fault, and the others stop: what is put is a prefix of the text.
#[test]
fn one_worker_meets_a_fault(rt: HostRuntime) -> Result<(), Fail> {
    let alloc = rt.alloc();
    let (bytes, text) = numbered_pages(alloc)?;
    let failing = failing_of(Call::Read, &[5]);
    for backends in [2, 7] {
        let line = format!(in alloc; "scan base/5/16384 --lanes 1 --backends {backends}")?;
        let answer = answer_of(&rt, alloc, line.as_str(), pages(&[&bytes]), failing)?;
        let begins = text.as_bytes().starts_with(&answer.out);
        check_eq!(rt;
            (answer.status, begins, answer.err.as_slice()),
            (4, true, READ_FAULT.as_bytes())
        );
    }
    Ok(())
}

/// Notes how many pieces were put before block 8, and before block 16.
#[derive(Drop)]
struct OutputGate<'a> {
    puts: &'a AtomicU64,
    before_8: AtomicU64,
    before_16: AtomicU64,
}

impl Gate for OutputGate<'_> {
    fn before(&self, _worker: u32, block: u32) {
        let puts = self.puts.load(Ordering::SeqCst);
        match block {
            8 => self.before_8.store(puts, Ordering::SeqCst),
            16 => self.before_16.store(puts, Ordering::SeqCst),
            _ => {}
        }
    }

    fn seen(&self, _worker: u32, _pinned: &Pinned) {}
}

/// The text of a chunk is put before the next chunk is read.
#[test]
fn output_begins_at_once(rt: HostRuntime) -> Result<(), Fail> {
    let alloc = rt.alloc();
    let (bytes, _text) = numbered_pages(alloc)?;
    let puts = AtomicU64::new(0);
    let mut out = CountingSink::new(&puts);
    let gate = OutputGate {
        puts: &puts,
        before_8: AtomicU64::new(0),
        before_16: AtomicU64::new(0),
    };
    let line = "scan base/5/16384 --backends 1";
    let answer = answer_to(
        &rt,
        alloc,
        line,
        pages(&[&bytes]),
        NONE_FAIL,
        &gate,
        &mut out,
    )?;
    let before_8 = gate.before_8.load(Ordering::SeqCst);
    let before_16 = gate.before_16.load(Ordering::SeqCst);
    let all = puts.load(Ordering::SeqCst);
    check_eq!(rt; (answer.status, before_8, before_16, all), (0, 1, 2, 10));
    Ok(())
}

/// Holds block 0 until block 39 was called, and then for some turns more. Of two workers, one has
/// the first chunk then, and the other the next four, of which the window takes the texts of three.
/// It notes whether a block after those was called meanwhile.
#[derive(Drop)]
struct FullWindowGate {
    came: AtomicBool,
    let_go: AtomicBool,
    went_on: AtomicBool,
}

impl Gate for FullWindowGate {
    fn before(&self, _worker: u32, block: u32) {
        if block == 0 {
            has_come(&self.came);
            wait_a_while();
            self.let_go.store(true, Ordering::SeqCst);
        }
        if block == 39 {
            self.came.store(true, Ordering::SeqCst);
        }
        if block >= 40 && !self.let_go.load(Ordering::SeqCst) {
            self.went_on.store(true, Ordering::SeqCst);
        }
    }

    fn seen(&self, _worker: u32, _pinned: &Pinned) {}
}

/// A worker whose text finds no room in the window waits with it, and reads nothing meanwhile.
#[test]
fn a_full_window_holds_workers_up(rt: HostRuntime) -> Result<(), Fail> {
    let alloc = rt.alloc();
    let (bytes, text) = numbered_pages(alloc)?;
    let gate = FullWindowGate {
        came: AtomicBool::new(false),
        let_go: AtomicBool::new(false),
        went_on: AtomicBool::new(false),
    };
    let line = "scan base/5/16384 --backends 2";
    let answer = answer_at(&rt, alloc, line, pages(&[&bytes]), NONE_FAIL, &gate)?;
    answer.check(&rt, 0, text.as_str(), "");
    let came = gate.came.load(Ordering::SeqCst);
    let went_on = gate.went_on.load(Ordering::SeqCst);
    check_eq!(rt; (came, went_on), (true, false));
    Ok(())
}

/// How many backends scan, and which put fails: that of a chunk's text, or that of the totals.
static FAILING_PUTS: [(u32, u64); 4] = [(1, 51), (1, 101), (7, 51), (7, 101)];

/// The text of each chunk of 800 pages goes out in one piece, and the totals in another: what was
/// put before a piece that fails stays.
#[test]
fn later_pieces_may_fail(rt: HostRuntime) -> Result<(), Fail> {
    let alloc = rt.alloc();
    let bytes = repeated(alloc, &one_item_page(), 800)?;
    let line = "scan base/5/16384";
    let whole = answer_of(&rt, alloc, line, pages(&[&bytes]), NONE_FAIL)?;
    for (backends, put) in &FAILING_PUTS {
        let line = format!(in alloc; "scan base/5/16384 --backends {backends}")?;
        let puts = [*put];
        let failing = failing_of(Call::Put, &puts);
        let cut = answer_of(&rt, alloc, line.as_str(), pages(&[&bytes]), failing)?;
        let (text, piece) = (whole.out.as_slice(), cut.out.as_slice());
        let is_cut = piece.len() > 32768 && piece.len() < text.len() && text.starts_with(piece);
        check_eq!(rt; (whole.status, cut.status, is_cut), (0, 7, true), "{line}");
    }
    Ok(())
}

/// Scans of three new pages, which are one chunk, the calls that fail, the status, and what is
/// printed: of a chunk that wasn't read to its end nothing.
static FAULTS: [(&str, Failing, u8, &str, &str); 5] = [
    (
        "scan base/5/16384 --lanes 1",
        Failing {
            reads: &[3],
            ..NONE_FAIL
        },
        4,
        "",
        READ_FAULT,
    ),
    (
        // The second read of the lane of blocks 0 and 2 is that of block 2.
        "scan base/5/16384 --lanes 2",
        Failing {
            reads: &[2],
            ..NONE_FAIL
        },
        4,
        "",
        READ_FAULT,
    ),
    (
        "scan base/5/16384",
        Failing {
            openings: &[1],
            ..NONE_FAIL
        },
        4,
        "",
        READ_FAULT,
    ),
    (
        "scan base/5/16384",
        Failing {
            puts: &[1],
            ..NONE_FAIL
        },
        7,
        "0 new\n1 n",
        "page_tool: output fault\n",
    ),
    (
        // The text, its totals and the counts are put one after the other.
        "scan base/5/16384 --stats",
        Failing {
            puts: &[3],
            ..NONE_FAIL
        },
        7,
        "0 new\n1 new\n2 new\nblocks 3 used 0 new 3 invalid 0 normal 0 redirect 0 dead 0 unused 0\nio hits 0 reads 3 writes",
        "page_tool: output fault\n",
    ),
];

const READ_FAULT: &str = "page_tool: read fault\n";

#[test]
fn stops_at_a_fault(rt: HostRuntime) -> Result<(), Fail> {
    let alloc = rt.alloc();
    let new = [0; 3 * 8192];
    for (line, failing, status, out, err) in &FAULTS {
        let answer = answer_of(&rt, alloc, line, pages(&[&new]), *failing)?;
        answer.check(&rt, *status, out, err);
    }
    Ok(())
}
