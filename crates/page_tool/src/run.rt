//! Runs a command line.
ghost use Rattle.std.specs.Prelude.{◌≡◌, ◌≢◌, ◌≤◌, ◌⊎◌, None, IfErr, IfSome};
ghost use Rattle.byte_devices.specs.Bytes.{Puts};
ghost use Rattle.relation_commands.specs.declared.error.ToolError.{ToolError};
ghost use Rattle.relation_commands.specs.Answers.{BadLogIf, CountsLater, CrowdedIf, Ends};
ghost use Rattle.relation_commands.specs.Answers.{FailsNone, FaultIf, IsComplete, IsNoRewrite};
ghost use Rattle.relation_commands.specs.Answers.{LeavesFiles, LimitIf, MissingIf, PrintsAtEnd};
ghost use Rattle.relation_commands.specs.Answers.{PutsLogOf, SaysAs, SaysStatus, UsageIf};
ghost use Rattle.relation_commands.specs.Answers.{WritesNoPath, Wrote, WroteCounted, WroteLogOf};
ghost use Rattle.relation_commands.specs.Answers.{counted_asked, counts_of, text_asked};
ghost use Rattle.relation_commands.specs.Listings.{PutsCounted};
ghost use Rattle.command_line.specs.Request.{NamesNoPath, options_of};
ghost use Rattle.command_line.specs.Spelled.{request_in};
ghost use Rattle.relation_commands.specs.RewriteFiles.{BecomesOf, files_in};
ghost use Rattle.relation_commands.specs.Status.{status_of, status_of_error};

use byte_devices::Sink;
use page_jobs::Gate;
use relation_commands::{
    Request, ToolError, list_relation, read_request, recover_relation, rewrite_relation, sample,
};
use segment_store::Host;
use std::alloc::Global;
use std::sync::Wait;
use std::thread::Threads;

/// What is said if there is no memory for a line.
pub const MEMORY_LINE: &[u8] = b"page_tool: out of memory\n";

/// Says a refusal on the error stream, and answers its status; if there is no memory for its
/// line, that is said, and is the status.
fn say<E: Sink>(alloc: Global, error: &ToolError<'_>, err: &mut E) -> u8
    ensures { SaysAs error.now (E.bytes err.old) (E.bytes err.new)
        (E.faults err.old) (E.faults err.new) result
        ⊎ SaysAs ToolError.Memory (E.bytes err.old) (E.bytes err.new)
        (E.faults err.old) (E.faults err.new) result }
{
    let Ok(line) = error.line(alloc) else {
        let _ = err.put(MEMORY_LINE);
        return ToolError::Memory.status();
    };
    let _ = err.put(line.as_bytes());
    error.status()
}

/// Does what the words ask for.
fn perform<'a, H: Host, R: Threads + Wait + Sync, O: Sink + Send, G: Gate + Sync>(
    rt: &R,
    alloc: Global,
    words: &'a [String],
    host: &mut H,
    out: &mut O,
    gate: &G,
) -> Result<(), ToolError<'a>>
    ensures later { let faults = counts_of H.read_faults H.write_faults H.log_faults O.faults in
        CountsLater (faults host.old out.old) (faults host.new out.new) }
    ensures ends { let faults = counts_of H.read_faults H.write_faults H.log_faults O.faults in
        Ends (request_in words.now) (H.contents host.old) (H.logs host.old)
        (faults host.old out.old) (faults host.new out.new) result }
    ensures text { IfSome (request_in words.now) (λ a. IfSome (text_asked a (H.contents host.old))
        (λ text. Puts text (O.bytes out.old) (O.bytes out.new) result)) }
    ensures counted { IfSome (request_in words.now)
        (λ a. IfSome (counted_asked a (H.contents host.old))
        (λ t. PutsCounted t (O.bytes out.old) (O.bytes out.new) result)) }
    ensures recovers { IfSome (request_in words.now) (λ a. PutsLogOf a (H.logs host.old)
        (O.bytes out.old) (O.bytes out.new) result) }
    ensures silent { IfErr result (λ e. status_of_error e ≤ 3 → O.bytes out.new ≡ O.bytes out.old) }
    ensures bad_log_silent { IfErr result
        (λ e. status_of_error e ≡ 10 → O.bytes out.new ≡ O.bytes out.old) }
    ensures silent_to_end { PrintsAtEnd (request_in words.now)
        → IfErr result (λ e. status_of_error e ≢ 7 → O.bytes out.new ≡ O.bytes out.old) }
    ensures no_command { request_in words.now ≡ None → O.bytes out.new ≡ O.bytes out.old }
    ensures files { let files = files_in H.contents H.failed_writes H.logs
        H.write_faults H.log_faults in
        BecomesOf (files host.old) (files host.new)
        (LeavesFiles (request_in words.now) (status_of result)) }
    ensures listed { WritesNoPath (request_in words.now)
        → (H.contents host.new ≡ H.contents host.old)
        × (H.write_faults host.new ≡ H.write_faults host.old) }
    ensures unlogged { IsNoRewrite (request_in words.now)
        → (H.logs host.new ≡ H.logs host.old)
        × (H.log_faults host.new ≡ H.log_faults host.old) }
    ensures failed { WritesNoPath (request_in words.now)
        → IfSome (H.contents host.old) (λ paths. FailsNone (request_in words.now) paths
        (H.failed_writes host.old) (H.failed_writes host.new)) }
    ensures untouched { NamesNoPath (request_in words.now) → host.new ≡ host.old }
{
    match read_request(alloc, words) {
        Ok(Some(Request::List(request))) => list_relation(rt, alloc, &request, host, out, gate),
        Ok(Some(Request::Rewrite(request))) => {
            rewrite_relation(rt, alloc, &request, host, out, gate)
        }
        Ok(Some(Request::Recover(request))) => recover_relation(alloc, &request, host, out),
        Ok(Some(Request::Sample(request))) => sample(rt, alloc, &request, out, gate),
        Ok(None) => Err(ToolError::Usage),
        Err(_) => Err(ToolError::Memory),
    }
}

/// Runs a command line: the words after the program's name.
///
/// - `scan PATH` prints a line for each block of the relation at the path, and their totals.
/// - `dump PATH` prints besides a line for each line pointer of a page.
/// - With `--stats`, which needs one backend and no rounds of the background writer, both print the
///   I/O counts in one line more.
/// - `rewrite PATH --log FILE` rewrites each page that has dead line pointers or room between its
///   items, with a log of the pages at FILE, and prints the totals and the log's positions.
/// - `recover PATH --log FILE` redoes the log of a rewrite: each record's page is written to its
///   block, and the relation is synced. It prints where the log begins and ends, how many records
///   it has, and how many blocks were redone.
/// - `sample SEED BLOCKS` makes a relation of BLOCKS blocks from the number SEED, in memory, scans
///   it, rewrites it with a log in memory, and scans it again. It prints the totals of each scan,
///   and between them what a rewrite prints. It doesn't call the host.
///
/// The blocks are read and written by as many backends as `--backends` says, through a buffer
/// manager of `--frames` frames, but for a recovery, which has none. The answer is the status that
/// the program ends with; a refusal has its line on the error stream.
pub fn run<H: Host, R: Threads + Wait + Sync, O: Sink + Send, E: Sink, G: Gate + Sync>(
    rt: &R,
    alloc: Global,
    words: &[String],
    host: &mut H,
    out: &mut O,
    err: &mut E,
    gate: &G,
) -> u8
    ensures status { result ≤ 10 }

    // When each refusal comes, by the words, the numbers of the options, what is at the paths, and
    // the counts of faults.
    ensures usage { UsageIf (request_in words.now) result }
    ensures crowded { IfSome (request_in words.now) (λ a. CrowdedIf (options_of a) result) }
    ensures missing { IfSome (request_in words.now) (λ a. MissingIf a (H.contents host.old)
        (H.logs host.old) (H.read_faults host.old) (H.read_faults host.new) result) }
    ensures bad_log { IfSome (request_in words.now) (λ a. BadLogIf a (H.contents host.old)
        (H.logs host.old) (H.read_faults host.old) (H.read_faults host.new) result) }
    ensures over_limit { IfSome (request_in words.now) (λ a. LimitIf a (H.contents host.old)
        (H.read_faults host.old) (H.read_faults host.new) result) }
    ensures faults { let faults = counts_of H.read_faults H.write_faults H.log_faults O.faults in
        FaultIf (request_in words.now) (faults host.old out.old) (faults host.new out.new) result }

    // What is out: the text that is asked for, if it is known, or a prefix of it. Of the counts
    // that follow a listing's text the hits and reads add up to its blocks.
    ensures text { IfSome (request_in words.now) (λ a. IfSome (text_asked a (H.contents host.old))
        (λ text. Wrote text (O.bytes out.old) (O.bytes out.new) result)) }
    ensures counted { IfSome (request_in words.now)
        (λ a. IfSome (counted_asked a (H.contents host.old))
        (λ t. WroteCounted t (O.bytes out.old) (O.bytes out.new) result)) }
    ensures recovers { IfSome (request_in words.now) (λ a. WroteLogOf a (H.logs host.old)
        (O.bytes out.old) (O.bytes out.new) result) }
    ensures silent { 1 ≤ result → result ≤ 3 → O.bytes out.new ≡ O.bytes out.old }
    ensures bad_log_silent { result ≡ 10 → O.bytes out.new ≡ O.bytes out.old }
    ensures silent_to_end { PrintsAtEnd (request_in words.now)
        → 1 ≤ result → result ≢ 7 → result ≢ 8 → O.bytes out.new ≡ O.bytes out.old }
    ensures no_command { request_in words.now ≡ None → O.bytes out.new ≡ O.bytes out.old }
    ensures quiet { result ≡ 0
        → (E.bytes err.new ≡ E.bytes err.old) × (E.faults err.new ≡ E.faults err.old) }
    ensures says { SaysStatus (request_in words.now) (H.contents host.old) (H.logs host.old)
        (E.bytes err.old) (E.bytes err.new) (E.faults err.old) (E.faults err.new) result }

    // What is left of the files. Only a rewrite and a recovery change relations, and only a rewrite
    // changes logs, if they are known; known or not, no other command raises their counts. The
    // host isn't called if no path is asked for.
    ensures files { let files = files_in H.contents H.failed_writes H.logs
        H.write_faults H.log_faults in
        BecomesOf (files host.old) (files host.new) (LeavesFiles (request_in words.now) result) }
    ensures listed { WritesNoPath (request_in words.now)
        → (H.contents host.new ≡ H.contents host.old)
        × (H.write_faults host.new ≡ H.write_faults host.old) }
    ensures unlogged { IsNoRewrite (request_in words.now)
        → (H.logs host.new ≡ H.logs host.old)
        × (H.log_faults host.new ≡ H.log_faults host.old) }
    ensures failed { WritesNoPath (request_in words.now)
        → IfSome (H.contents host.old) (λ paths. FailsNone (request_in words.now) paths
        (H.failed_writes host.old) (H.failed_writes host.new)) }
    ensures untouched { NamesNoPath (request_in words.now) → host.new ≡ host.old }

    // No count falls, and none rises if all went well; and all goes well if none rises,
    // unless memory is short.
    ensures later { let faults = counts_of H.read_faults H.write_faults H.log_faults O.faults in
        CountsLater (faults host.old out.old) (faults host.new out.new) }
    ensures done { let faults = counts_of H.read_faults H.write_faults H.log_faults O.faults in
        result ≡ 0 → faults host.new out.new ≡ faults host.old out.old }
    ensures complete { let faults = counts_of H.read_faults H.write_faults H.log_faults O.faults in
        IfSome (request_in words.now) (λ a. IsComplete a (H.contents host.old) (H.logs host.old)
        (faults host.old out.old) (faults host.new out.new) result) }
{
    match perform(rt, alloc, words, host, out, gate) {
        Ok(()) => 0,
        Err(error) => say(alloc, &error, err),
    }
}
