//! Runs of the tests on hosts in memory.
use crate::OpenGate;
use crate::checks::check_eq;
use crate::run::run;
use crate::test_pages::{dead_items_page, rewritten_page};
use byte_devices::{Failed, FaultPlan, LogPlan, MemSink, Sink};
use page_jobs::Gate;
use segment_store::{LanePlan, MemFile, MemHost, MemLogs, SourcePlan};
use std::alloc::Global;
use std::process::Abort;
use std::sync::Wait;
use std::sync::atomic::{AtomicU64, Ordering};
use std::test::Fail;
use std::thread::Threads;

/// The relation of the tests.
pub(crate) const RELATION: &str = "base/5/16384";

/// The path of the log.
pub(crate) const LOG: &str = "w";

/// How many bytes each log has room for: its head and 65 records.
const LOG_ROOM: usize = 16 + 65 * 8224;

/// The calls of a run that are to fail, by their numbers from 1: those of a lane, of a log and of a
/// source are numbered anew at each opening.
#[derive(Clone, Copy)]
pub(crate) struct Failing<'a> {
    pub openings: &'a [u64],
    pub reads: &'a [u64],
    pub writes: &'a [u64],
    pub syncs: &'a [u64],
    pub log_openings: &'a [u64],
    pub appends: &'a [u64],
    pub log_syncs: &'a [u64],
    pub source_openings: &'a [u64],
    pub source_calls: &'a [u64],
    pub puts: &'a [u64],
}

pub(crate) const NONE_FAIL: Failing<'static> = Failing {
    openings: &[],
    reads: &[],
    writes: &[],
    syncs: &[],
    log_openings: &[],
    appends: &[],
    log_syncs: &[],
    source_openings: &[],
    source_calls: &[],
    puts: &[],
};

/// What a call is of, and does.
#[derive(Clone, Copy, Debug)]
pub(crate) enum Call {
    Opening,
    Read,
    Write,
    Sync,
    LogOpening,
    Append,
    LogSync,
    SourceOpening,
    SourceCall,
    Put,
}

/// The calls of this kind and these numbers fail.
pub(crate) fn failing_of(call: Call, numbers: &[u64]) -> Failing<'_> {
    let mut failing = NONE_FAIL;
    match call {
        Call::Opening => failing.openings = numbers,
        Call::Read => failing.reads = numbers,
        Call::Write => failing.writes = numbers,
        Call::Sync => failing.syncs = numbers,
        Call::LogOpening => failing.log_openings = numbers,
        Call::Append => failing.appends = numbers,
        Call::LogSync => failing.log_syncs = numbers,
        Call::SourceOpening => failing.source_openings = numbers,
        Call::SourceCall => failing.source_calls = numbers,
        Call::Put => failing.puts = numbers,
    }
    failing
}

fn plan(alloc: Global, failing: &[u64]) -> Result<FaultPlan, Fail> {
    Ok(FaultPlan::new(failing.to_vec(alloc)?))
}

/// Three plans.
fn plans(alloc: Global, failing: [&[u64]; 3]) -> Result<[FaultPlan; 3], Fail> {
    let [first, second, third] = failing;
    Ok([
        plan(alloc, first)?,
        plan(alloc, second)?,
        plan(alloc, third)?,
    ])
}

/// What a host has before a run.
#[derive(Clone, Copy)]
pub(crate) struct Before<'a> {
    /// The segments of the relation of the tests.
    pub relation: &'a [&'a [u8]],
    /// How many segments, and each of how many blocks, it may grow to; `None`: it can't grow.
    pub space: Option<(u32, u32)>,
    /// The bytes of the log, if there is one.
    pub log: Option<&'a [u8]>,
}

/// A relation of these segments that can't grow, and no log.
pub(crate) fn pages<'a>(relation: &'a [&'a [u8]]) -> Before<'a> {
    Before {
        relation,
        space: None,
        log: None,
    }
}

/// The same with a log, if there is one.
pub(crate) fn stored<'a>(relation: &'a [&'a [u8]], log: Option<&'a [u8]>) -> Before<'a> {
    Before {
        relation,
        space: None,
        log,
    }
}

/// A relation of these segments that can have `count` of them, each of two blocks, and a log.
pub(crate) fn roomy<'a>(relation: &'a [&'a [u8]], log: &'a [u8], count: u32) -> Before<'a> {
    Before {
        relation,
        space: Some((count, 2)),
        log: Some(log),
    }
}

fn segments_of(alloc: Global, relation: &[&[u8]]) -> Result<Vec<Vec<u8>>, Fail> {
    let mut segments = Vec::new(alloc);
    for segment in relation {
        segments.push(segment.to_vec(alloc)?)?;
    }
    Ok(segments)
}

fn file_of(alloc: Global, before: Before) -> Result<MemFile, Fail> {
    let path = String::from_str(alloc, RELATION)?;
    let segments = segments_of(alloc, before.relation)?;
    match before.space {
        Some((count, blocks)) => Ok(MemFile::with_space(alloc, path, segments, count, blocks)?),
        None => Ok(MemFile::new(alloc, path, segments)),
    }
}

fn files_of(alloc: Global, before: Before) -> Result<Vec<MemFile>, Fail> {
    let mut files = Vec::new(alloc);
    files.push(file_of(alloc, before)?)?;
    Ok(files)
}

fn lane_plan(alloc: Global, failing: Failing) -> Result<LanePlan, Fail> {
    let calls = [failing.reads, failing.writes, failing.syncs];
    let [reads, writes, syncs] = plans(alloc, calls)?;
    Ok(LanePlan {
        reads,
        writes,
        syncs,
    })
}

/// A call gives a page at most.
fn source_plan(alloc: Global, failing: Failing) -> Result<SourcePlan, Fail> {
    let openings = plan(alloc, failing.source_openings)?;
    let calls = plan(alloc, failing.source_calls)?;
    Ok(SourcePlan::new(openings, calls, 8192))
}

fn empty_logs(alloc: Global, failing: Failing) -> Result<MemLogs, Fail> {
    let sources = source_plan(alloc, failing)?;
    let openings = plan(alloc, failing.log_openings)?;
    let calls = LogPlan {
        appends: plan(alloc, failing.appends)?,
        syncs: plan(alloc, failing.log_syncs)?,
    };
    Ok(MemLogs::new(alloc, LOG_ROOM, openings, calls, sources))
}

fn logs_of(alloc: Global, before: Before, failing: Failing) -> Result<MemLogs, Fail> {
    let mut logs = empty_logs(alloc, failing)?;
    if let Some(bytes) = before.log {
        logs.put(alloc, LOG, bytes)?;
    }
    Ok(logs)
}

/// A host that has this. It is boxed: to drop a box takes the prover a twentieth of the time.
fn host_of(alloc: Global, before: Before, failing: Failing) -> Result<Box<MemHost>, Fail> {
    let openings = plan(alloc, failing.openings)?;
    let lanes = lane_plan(alloc, failing)?;
    let logs = logs_of(alloc, before, failing)?;
    let files = files_of(alloc, before)?;
    let host = MemHost::new(alloc, files, openings, lanes, logs);
    Ok(Box::new(alloc, host)?)
}

/// Whether a block has its page with dead line pointers; of the first blocks, so many, whether it
/// has the rewritten one.
fn is_left(block: usize, page: &[u8], rewritten: usize) -> bool {
    if block < rewritten {
        return page == rewritten_page(block).as_slice();
    }
    page == dead_items_page().as_slice()
}

/// Counts the pieces that are put, and drops them. No put fails.
#[derive(Drop)]
pub(crate) struct CountingSink<'a> {
    puts: &'a AtomicU64,
}

impl<'a> CountingSink<'a> {
    pub(crate) fn new(puts: &'a AtomicU64) -> CountingSink<'a> {
        CountingSink { puts }
    }
}

impl Sink for CountingSink<'_> {
    ghost use Rattle.std.specs.Prelude.{None};
    ghost use Rattle.std.proofs.Common.{rules};
    ghost use Prim.{search};

    ghost bytes = { λ _. None };

    ghost faults = { λ _. 0 };

    fn put(&mut self, _piece: &[u8]) -> Result<(), Failed> {
        self.puts.fetch_add(1, Ordering::SeqCst);
        Ok(())
    }

    ghost faults_fit = { λ _. search rules };
}

/// The status of a run, what it wrote, and what it left.
#[derive(Drop)]
pub(crate) struct Answer {
    pub status: u8,
    pub out: Vec<u8>,
    pub err: Vec<u8>,
    /// The segments of the relation.
    pub relation: Vec<Vec<u8>>,
    /// The bytes of the log, if there is one.
    pub log: Option<Vec<u8>>,
    pub write_faults: u64,
}

impl Answer {
    /// Fails the test unless the run ended with this status, and wrote these texts.
    pub(crate) fn check<R: Abort>(&self, rt: &R, status: u8, out: &str, err: &str) {
        check_eq!(rt; self.err.as_slice(), err.as_bytes(), "on the error stream");
        check_eq!(rt; self.status, status, "{err}");
        check_eq!(rt; self.out.as_slice(), out.as_bytes(), "{out}");
    }

    /// Whether the relation has these segments.
    pub(crate) fn has_segments(&self, wanted: &[&[u8]]) -> bool {
        let mut same = self.relation.len() == wanted.len();
        for (segment, bytes) in self.relation.iter().zip(wanted) {
            same = same && segment.as_slice() == *bytes;
        }
        same
    }

    /// The bytes of the relation, if it has one segment.
    pub(crate) fn relation_bytes(&self) -> &[u8] {
        match self.relation.as_slice() {
            [segment] => segment.as_slice(),
            _ => &[],
        }
    }

    /// Whether the relation has so many pages with dead line pointers, of which the first ones, so
    /// many, are rewritten. Of the torn block any page will do.
    pub(crate) fn has_pages(&self, count: usize, rewritten: usize, torn: Option<usize>) -> bool {
        let bytes = self.relation_bytes();
        let mut same = bytes.len() % 8192 == 0 && bytes.len() / 8192 == count;
        for (block, page) in bytes.chunks(8192).enumerate() {
            same = same && (torn == Some(block) || is_left(block, page, rewritten));
        }
        same
    }

    /// Whether the log has these bytes; for `None`, whether there is none.
    pub(crate) fn has_log(&self, bytes: Option<&[u8]>) -> bool {
        match (&self.log, bytes) {
            (Some(log), Some(bytes)) => log.as_slice() == bytes,
            (None, None) => true,
            _ => false,
        }
    }
}

/// The line of a status on the error stream.
pub(crate) fn error_line(status: u8) -> &'static str {
    match status {
        0 => "",
        4 => "page_tool: read fault\n",
        5 => "page_tool: write fault\n",
        6 => "page_tool: log fault\n",
        _ => "page_tool: output fault\n",
    }
}

fn words_of(alloc: Global, line: &str) -> Result<Vec<String>, Fail> {
    let mut words = Vec::new(alloc);
    for word in line.split_whitespace() {
        words.push(String::from_str(alloc, word)?)?;
    }
    Ok(words)
}

fn log_left(alloc: Global, host: &MemHost) -> Result<Option<Vec<u8>>, Fail> {
    match host.stored_log(LOG) {
        Some(log) => Ok(Some(log.bytes().to_vec(alloc)?)),
        None => Ok(None),
    }
}

fn relation_left(alloc: Global, host: &MemHost) -> Result<Vec<Vec<u8>>, Fail> {
    let mut segments = Vec::new(alloc);
    for segment in host.segments(RELATION) {
        segments.push(segment.to_vec(alloc)?)?;
    }
    Ok(segments)
}

fn answer_by(
    alloc: Global,
    status: u8,
    err: &MemSink,
    host: &MemHost,
) -> Result<Box<Answer>, Fail> {
    let answer = Answer {
        status,
        out: Vec::new(alloc),
        err: err.bytes().to_vec(alloc)?,
        relation: relation_left(alloc, host)?,
        log: log_left(alloc, host)?,
        write_faults: host.write_faults(),
    };
    Ok(Box::new(alloc, answer)?)
}

/// A sink in memory with so much room, of which these puts fail.
fn sink(alloc: Global, room: usize, failing: &[u64]) -> Result<MemSink, Fail> {
    Ok(MemSink::new(alloc, room, plan(alloc, failing)?)?)
}

/// Runs a command line, its words separated by blanks, on a host that has this, and of which these
/// calls fail. Its output goes to a sink, and isn't in the answer.
pub(crate) fn answer_to<R: Threads + Wait + Sync, G: Gate + Sync, O: Sink + Send>(
    rt: &R,
    alloc: Global,
    line: &str,
    before: Before,
    failing: Failing,
    gate: &G,
    out: &mut O,
) -> Result<Box<Answer>, Fail> {
    let words = words_of(alloc, line)?;
    let mut err = sink(alloc, 1 << 16, &[])?;
    let mut host = host_of(alloc, before, failing)?;
    let status = run(rt, alloc, &words, &mut *host, out, &mut err, gate);
    answer_by(alloc, status, &err, &host)
}

/// The same with the output in the answer.
pub(crate) fn answer_at<R: Threads + Wait + Sync, G: Gate + Sync>(
    rt: &R,
    alloc: Global,
    line: &str,
    before: Before,
    failing: Failing,
    gate: &G,
) -> Result<Box<Answer>, Fail> {
    let mut out = sink(alloc, 1 << 20, failing.puts)?;
    let mut answer = answer_to(rt, alloc, line, before, failing, gate, &mut out)?;
    answer.out = out.bytes().to_vec(alloc)?;
    Ok(answer)
}

/// The same with a gate that lets every block through.
pub(crate) fn answer_of<R: Threads + Wait + Sync>(
    rt: &R,
    alloc: Global,
    line: &str,
    before: Before,
    failing: Failing,
) -> Result<Box<Answer>, Fail> {
    answer_at(rt, alloc, line, before, failing, &OpenGate)
}
