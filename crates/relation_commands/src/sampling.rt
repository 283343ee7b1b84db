//! A relation that is made from a number is scanned, rewritten and scanned again, in memory.
//!
//! A sample has three managers over the same lanes, each closed before the next starts: for a scan,
//! a rewrite with its checkpoint, and a second scan. Each has a log in memory with room for a
//! record of each block in the rewrite. The plans of the lanes (`SampleLane`) name no call that
//! fails, so a sample meets no fault but that of the output. Its lines are put at once.
ghost use Rattle.std.specs.Prelude.{◌≡◌, ◌≢◌, ◌≤◌, ◌%◌, List, IfErr, IfOk, OnOk, length};
ghost use Rattle.std.specs.Prelude.{sum_by};
ghost use Rattle.command_line.specs.Numbers.{HasOptionsInRange};
ghost use Rattle.byte_devices.specs.Bytes.{Puts};
ghost use Rattle.page_layout.specs.Scan.{totals_of};
ghost use Rattle.pin_core.specs.State.{Page};
ghost use Rattle.history_core.specs.State.{last_position};
ghost use Rattle.relation_commands.specs.Crowded.{IsCrowded};
ghost use Rattle.relation_commands.specs.RewriteCommand.{IsPutRefusal};
ghost use Rattle.relation_commands.specs.Rewriting.{HavePages};
ghost use Rattle.relation_commands.specs.Samples.{IsSampleRefusal, sample_text};
ghost use Rattle.relation_commands.specs.SampleSteps.{AreTold, HaveAll, IsSampleRewritten};
ghost use Rattle.relation_commands.specs.SampleSteps.{sample_lines, sample_totals_of};
ghost use Rattle.relation_commands.specs.Status.{status_of_error};
ghost use Rattle.sample_relation.specs.Relations.{sample_relation};

use crate::discard::Discard;
use crate::error::{ToolError, crowding_in};
use crate::lines::put_lines;
use crate::listing::{Listed, ListingEnd, list};
use crate::rewrite_command::survey_base;
use crate::rewriting::{RewriteEnd, RewriteError, rewrite_lanes};
use crate::starting::{RelationFork, new_log};
use block_tag::Fork;
use byte_devices::Sink;
use command_line::{Listing, Options, SampleRequest};
use page_jobs::Gate;
use page_layout::{Lsn, Memory, Position, RewriteTotals, ScanTotals, all_positions};
use sample_relation::sample_lanes;
use segment_store::BlockLane;
use std::alloc::{AllocError, Global};
use std::sync::Wait;
use std::thread::Threads;
use table_rule::RECORD_SIZE;

/// The number of the relation.
const RELATION_NUMBER: u32 = 1;

/// A log from one position to another.
#[derive(Clone, Copy)]
struct LogSpan {
    base: Lsn,
    end: Lsn,
}

/// What a sample prints: the totals of its relation, those of the rewrite, the log's positions, and
/// the totals of the pages after it.
#[derive(Clone, Copy)]
struct SampleTotals {
    before: ScanTotals,
    rewrite: RewriteTotals,
    log: LogSpan,
    after: ScanTotals,
}

/// The totals of a scan, and the lanes that it was given.
#[derive(Drop)]
struct Scanned<L> {
    lanes: Vec<L>,
    totals: ScanTotals,
}

/// The totals of a rewrite, the positions of its log, and the lanes that it was given.
#[derive(Drop)]
struct Rewritten<L> {
    lanes: Vec<L>,
    totals: RewriteTotals,
    log: LogSpan,
}

/// Scans the blocks from their lanes, with a log that begins at `base`, and drops the lines.
fn scan_lanes<L: BlockLane + Send + Drop, R: Threads + Wait + Sync, G: Gate + Sync>(
    rt: &R,
    alloc: Global,
    options: &Options,
    relation: RelationFork,
    base: Lsn,
    lanes: Vec<L>,
    gate: &G,
) -> Result<Scanned<L>, Memory>
    requires range { HasOptionsInRange options.now }
    requires count { length lanes.items ≡ options.now.lanes }
    requires told { AreTold L.contents L.failed_writes L.read_faults }
    requires writes { sum_by L.write_faults lanes.items ≡ 0 }
    requires all { HaveAll L.contents relation lanes.items }
    requires base { (base % 8 ≡ 0) × (base ≤ last_position) }
    ensures count { IfOk result (λ scanned. length scanned.lanes.items ≡ length lanes.items) }
    ensures pages { IfOk result (λ scanned. (pages : List Page)
        → HavePages L.contents relation lanes.items pages
        → HavePages L.contents relation scanned.lanes.items pages) }
    ensures writes { IfOk result (λ scanned. sum_by L.write_faults scanned.lanes.items ≡ 0) }
    ensures totals { IfOk result (λ scanned. (pages : List Page)
        → HavePages L.contents relation lanes.items pages
        → scanned.totals ≡ totals_of pages) }
{
    let listed = Listed {
        relation,
        base,
        listing: Listing::Scan,
        stats: false,
        rounds: options.rounds,
    };
    let ListingEnd { lanes, end } = list(rt, alloc, options, listed, lanes, &mut Discard, gate);
    match end {
        Ok(totals) => Ok(Scanned { lanes, totals }),
        Err(_) => Err(AllocError),
    }
}

/// Rewrites the blocks over their lanes, with a log in memory that begins where that of a rewrite
/// does, and a checkpoint.
fn rewrite_sample<L: BlockLane + Send + Drop, R: Threads + Wait + Sync, G: Gate + Sync>(
    rt: &R,
    alloc: Global,
    options: &Options,
    relation: RelationFork,
    mut lanes: Vec<L>,
    gate: &G,
) -> Result<Rewritten<L>, Memory>
    requires range { HasOptionsInRange options.now }
    requires count { length lanes.items ≡ options.now.lanes }
    requires told { AreTold L.contents L.failed_writes L.read_faults }
    requires writes { sum_by L.write_faults lanes.items ≡ 0 }
    requires all { HaveAll L.contents relation lanes.items }
    ensures count { IfOk result (λ rewritten. length rewritten.lanes.items ≡ length lanes.items) }
    ensures rewrites { IfOk result (λ rewritten. (pages : List Page)
        → HavePages L.contents relation lanes.items pages
        → IsSampleRewritten L.contents relation pages rewritten) }
    ensures writes { IfOk result (λ rewritten. sum_by L.write_faults rewritten.lanes.items ≡ 0) }
    ensures end { IfOk result (λ rewritten. (rewritten.log.end % 8 ≡ 0)
        × (rewritten.log.end ≤ last_position)) }
{
    all_positions();
    let Ok(base) = survey_base(alloc, relation, &mut lanes) else {
        return Err(AllocError);
    };
    let log = new_log(alloc, base, relation.blocks)?;
    let RewriteEnd { lanes, log: _, end } = rewrite_lanes(
        rt, alloc, options, relation, lanes, log, base, gate,
    );
    match end {
        Ok(totals) => {
            let end = base + RECORD_SIZE * totals.changed;
            let log = LogSpan { base, end };
            Ok(Rewritten { lanes, totals, log })
        }
        Err(_) => Err(AllocError),
    }
}

/// Scans the blocks, rewrites them and scans them again, over the same lanes.
fn sample_over<L: BlockLane + Send + Drop, R: Threads + Wait + Sync, G: Gate + Sync>(
    rt: &R,
    alloc: Global,
    options: &Options,
    relation: RelationFork,
    lanes: Vec<L>,
    gate: &G,
) -> Result<SampleTotals, Memory>
    requires range { HasOptionsInRange options.now }
    requires count { length lanes.items ≡ options.now.lanes }
    requires told { AreTold L.contents L.failed_writes L.read_faults }
    requires writes { sum_by L.write_faults lanes.items ≡ 0 }
    requires all { HaveAll L.contents relation lanes.items }
    ensures totals { IfOk result (λ totals. (pages : List Page)
        → HavePages L.contents relation lanes.items pages
        → totals ≡ sample_totals_of pages) }
{
    let scanned = scan_lanes(rt, alloc, options, relation, 0, lanes, gate)?;
    let rewritten = rewrite_sample(rt, alloc, options, relation, scanned.lanes, gate)?;
    let LogSpan { end, .. } = rewritten.log;
    let rescanned = scan_lanes(rt, alloc, options, relation, end, rewritten.lanes, gate)?;
    Ok(SampleTotals {
        before: scanned.totals,
        rewrite: rewritten.totals,
        log: rewritten.log,
        after: rescanned.totals,
    })
}

/// Makes the sample's relation in lanes, and what is printed of it.
fn total_sample<R: Threads + Wait + Sync, G: Gate + Sync>(
    rt: &R,
    alloc: Global,
    request: &SampleRequest,
    gate: &G,
) -> Result<SampleTotals, Memory>
    requires range { HasOptionsInRange request.now.options }
    requires size { request.now.blocks ≤ 16384 }
    ensures { IfOk result (λ totals.
        totals ≡ sample_totals_of (sample_relation request.now.seed request.now.blocks)) }
{
    let SampleRequest {
        seed,
        blocks,
        options,
    } = *request;
    let relation = RelationFork {
        number: RELATION_NUMBER,
        fork: Fork::Main,
        blocks,
    };
    let lanes = sample_lanes(alloc, seed, blocks, options.lanes)?;
    sample_over(rt, alloc, &options, relation, lanes, gate)
}

/// Puts the totals.
fn put_sample<O: Sink>(
    alloc: Global,
    totals: &SampleTotals,
    out: &mut O,
) -> Result<(), RewriteError>
    ensures text { Puts (sample_lines totals.now) (O.bytes out.old) (O.bytes out.new) result }
    ensures later { O.faults out.old ≤ O.faults out.new }
    ensures quiet { OnOk result (O.faults out.new ≡ O.faults out.old) }
    ensures cause { IfErr result (IsPutRefusal (O.faults out.old) (O.faults out.new)) }
    ensures silent { IfErr result
        (λ e. e ≢ RewriteError.OutFault → O.bytes out.new ≡ O.bytes out.old) }
{
    let SampleTotals {
        before,
        rewrite,
        log,
        after,
    } = totals;
    let base = Position(log.base);
    let end = Position(log.end);
    let lines = format!(in alloc; "{before}\n{rewrite}\nlog {base} {end}\n{after}\n");
    put_lines(lines, out)
}

/// Makes a sample's relation in memory, scans it, rewrites it with a log and a checkpoint, and
/// scans it again, each with a buffer manager of its own over the same lanes; prints the totals.
pub fn sample<'a, R: Threads + Wait + Sync, O: Sink, G: Gate + Sync>(
    rt: &R,
    alloc: Global,
    request: &SampleRequest,
    out: &mut O,
    gate: &G,
) -> Result<(), ToolError<'a>>
    requires range { HasOptionsInRange request.now.options }
    requires size { request.now.blocks ≤ 16384 }
    ensures text { Puts (sample_text request.now.seed request.now.blocks)
        (O.bytes out.old) (O.bytes out.new) result }
    ensures roomy { OnOk result (¬ IsCrowded request.now.options) }
    ensures quiet { OnOk result (O.faults out.new ≡ O.faults out.old) }
    ensures later { O.faults out.old ≤ O.faults out.new }
    ensures cause { IfErr result (IsSampleRefusal request.now.options
        (O.faults out.old) (O.faults out.new)) }
    ensures silent { IfErr result (λ e. status_of_error e ≢ 7 → O.bytes out.new ≡ O.bytes out.old) }
{
    if let Some(crowding) = crowding_in(&request.options) {
        return Err(ToolError::Crowded(crowding));
    }
    match total_sample(rt, alloc, request, gate) {
        Ok(totals) => {
            put_sample(alloc, &totals, out).map_err(|error| ToolError::from_rewrite(error))
        }
        Err(_) => Err(ToolError::Memory),
    }
}
