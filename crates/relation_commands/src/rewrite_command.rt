//! Rewrites the relation at a path, with a log of its new pages at another.
//!
//! FILE is opened once the survey is done and the positions are tested, so neither refusal empties
//! a file. The text is put after the files are given back, so an output fault leaves the relation
//! rewritten.
ghost use Rattle.std.specs.Prelude.{◌≡◌, ◌≢◌, ◌≤◌, ◌<◌, ◌*◌, ◌+◌, ◌%◌, ◌^◌, List, IfErr, IfOk};
ghost use Rattle.std.specs.Prelude.{IfSome, MatchResult, OnOk, length, map, option_map, sum_by};
ghost use Rattle.std.specs.Option.{option_map_or};
ghost use Rattle.command_line.specs.Numbers.{HasOptionsInRange};
ghost use Rattle.byte_devices.specs.Bytes.{Puts};
ghost use Rattle.segment_store.specs.Lanes.{HasBlocks};
ghost use Rattle.segment_store.specs.Opening.{IsOpened};
ghost use Rattle.segment_store.specs.Paths.{fork_of};
ghost use Rattle.pin_core.specs.State.{Page};
ghost use Rattle.table_rule.specs.Shows.{IsNewLog, devices};
ghost use Rattle.lane_survey.specs.Survey.{AreOnlyRead};
ghost use Rattle.relation_commands.specs.Answers.{CountsLater, EndsCommand, counts};
ghost use Rattle.relation_commands.specs.Limits.{largest_lsn, log_base};
ghost use Rattle.command_line.specs.Request.{asked, rewrite_asked};
ghost use Rattle.relation_commands.specs.RewriteCommand.{AreSurveyed, HasFaultOf, IsLogRefusal};
ghost use Rattle.relation_commands.specs.RewriteCommand.{IsPutRefusal, IsSurveyRefusal};
ghost use Rattle.relation_commands.specs.RewriteCommand.{LeavesByEnd, MeetsLimit, OpensLog};
ghost use Rattle.relation_commands.specs.RewriteCommand.{StaysBelowLimit};
ghost use Rattle.relation_commands.specs.RewriteFiles.{BecomesOf, IsHeadBegun, RewritesFiles};
ghost use Rattle.relation_commands.specs.RewriteFiles.{files_in, pages_at};
ghost use Rattle.relation_commands.specs.RewriteTexts.{rewrite_lines, rewrite_text};
ghost use Rattle.relation_commands.specs.Rewriting.{HavePages};
ghost use Rattle.page_layout.specs.Outcomes.{rewrite_totals_of};
ghost use Rattle.history_core.specs.Log.{record_size};
ghost use Rattle.history_core.specs.State.{last_position};
ghost use Rattle.relation_commands.specs.Status.{log_error, status_of, status_of_error};

use crate::error::{ToolError, crowding_in};
use crate::limits::log_base;
use crate::lines::put_lines;
use crate::rewriting::{RewriteEnd, RewriteError, rewrite_lanes};
use crate::starting::RelationFork;
use block_tag::Fork;
use byte_devices::Sink;
use command_line::{Request, RewriteRequest};
use page_jobs::{Gate, survey};
use page_layout::{Lsn, Page, Position, RewriteTotals};
use segment_store::{BlockLane, Host, LogOpen, Opened};
use std::alloc::Global;
use std::sync::Wait;
use std::thread::Threads;
use table_rule::RECORD_SIZE;
use wal_flush::begin_log;

/// The largest log position of the pages that the lanes have of the relation.
fn survey_lanes<L: BlockLane>(
    alloc: Global,
    relation: RelationFork,
    lanes: &mut [L],
) -> Result<Lsn, RewriteError>
    requires some { 0 < length lanes.old }
    requires has { HasBlocks relation.fork relation.blocks (map L.contents lanes.old) }
    requires reads { sum_by L.read_faults lanes.old ≡ 0 }
    ensures same { AreOnlyRead L.contents L.failed_writes L.unsynced L.write_faults
        lanes.old lanes.new }
    ensures quiet { OnOk result (sum_by L.read_faults lanes.new ≡ 0) }
    ensures largest { IfOk result
        (λ largest. (pages : List Page) → HavePages L.contents relation lanes.old pages
        → largest ≡ largest_lsn pages) }
    ensures cause { IfErr result
        (IsSurveyRefusal L.contents relation lanes.old (sum_by L.read_faults lanes.new)) }
{
    let Ok(catalog) = relation.catalog(alloc) else {
        return Err(RewriteError::Memory);
    };
    let Ok(mut page) = Page::zeroed(alloc) else {
        return Err(RewriteError::Memory);
    };
    match survey(lanes, &catalog, &mut page) {
        Ok(largest) => Ok(largest),
        Err(_) => Err(RewriteError::ReadFault),
    }
}

/// Where the log of a rewrite of the relation begins, by the pages that the lanes have of it.
pub(crate) fn survey_base<L: BlockLane>(
    alloc: Global,
    relation: RelationFork,
    lanes: &mut [L],
) -> Result<Lsn, RewriteError>
    requires some { 0 < length lanes.old }
    requires has { HasBlocks relation.fork relation.blocks (map L.contents lanes.old) }
    requires reads { sum_by L.read_faults lanes.old ≡ 0 }
    ensures same { AreOnlyRead L.contents L.failed_writes L.unsynced L.write_faults
        lanes.old lanes.new }
    ensures quiet { OnOk result (sum_by L.read_faults lanes.new ≡ 0) }
    ensures within { IfOk result
        (λ base. (base % 8 ≡ 0) × (base + record_size * relation.blocks ≤ last_position)) }
    ensures base { IfOk result
        (λ base. (pages : List Page) → HavePages L.contents relation lanes.old pages
        → base ≡ log_base pages) }
    ensures cause { IfErr result
        (IsSurveyRefusal L.contents relation lanes.old (sum_by L.read_faults lanes.new)) }
{
    let largest = match survey_lanes(alloc, relation, lanes) {
        Ok(largest) => largest,
        Err(error) => return Err(error),
    };
    match log_base(largest, relation.blocks) {
        Ok(base) => Ok(base),
        Err(limit) => Err(RewriteError::OverLimit(limit)),
    }
}

/// Why no log is begun, and the log if it was opened.
struct LogRefused<G> {
    error: RewriteError,
    log: Option<G>,
}

/// What a log that couldn't be opened means to a rewrite.
fn open_error(error: LogOpen) -> RewriteError
    ensures { result ≡ log_error error }
{
    match error {
        LogOpen::Failed => RewriteError::LogFault,
        LogOpen::Memory => RewriteError::Memory,
    }
}

/// Opens a log at a path, and begins it at the position `base`.
fn open_log<H: Host>(
    alloc: Global,
    path: &str,
    base: Lsn,
    host: &mut H,
) -> Result<H::Log, LogRefused<H::Log>>
    ensures begun { IfOk result (IsNewLog (devices H.Lane.BlockLane H.Log.LogDevice) base) }
    ensures quiet { IfOk result (λ log. H.Log.faults log ≡ 0) }
    ensures logs { MatchResult result
        (λ log. OpensLog (Some log) path.now (H.logs host.old) (H.logs host.new)
        (H.log_at host.new))
        (λ refused. OpensLog refused.log path.now (H.logs host.old) (H.logs host.new)
        (H.log_at host.new)) }
    ensures head { IfErr result
        (λ refused. IfSome refused.log
        (λ log. (0 < H.Log.faults log) × IfSome (H.Log.bytes log) (IsHeadBegun base))) }
    ensures counted { OnOk result (H.log_faults host.new ≡ H.log_faults host.old) }
    ensures later { H.log_faults host.old ≤ H.log_faults host.new }
    ensures cause { IfErr result
        (λ refused. IsLogRefusal (H.log_faults host.old) (H.log_faults host.new)
        (option_map_or H.Log.faults refused.log 0) refused.error) }
    ensures contents { H.contents host.new ≡ H.contents host.old }
    ensures failed { IfSome (H.contents host.old)
        (λ _. H.failed_writes host.new ≡ H.failed_writes host.old) }
    ensures open_at { IfSome (H.contents host.old) (λ _. H.open_at host.new ≡ H.open_at host.old) }
    ensures reads { H.read_faults host.new ≡ H.read_faults host.old }
    ensures writes { H.write_faults host.new ≡ H.write_faults host.old }
{
    let mut log = match host.log(alloc, path) {
        Ok(log) => log,
        Err(error) => {
            return Err(LogRefused {
                error: open_error(error),
                log: None,
            });
        }
    };
    match begin_log(&mut log, base) {
        Ok(()) => Ok(log),
        Err(_) => Err(LogRefused {
            error: RewriteError::LogFault,
            log: Some(log),
        }),
    }
}

/// Rewrites the relation that is open over its lanes, which were surveyed, with a new log that
/// begins at `base`, and gives both back.
fn rewrite_and_give_back<H: Host, R: Threads + Wait + Sync, T: Gate + Sync>(
    rt: &R,
    alloc: Global,
    request: &RewriteRequest,
    relation: RelationFork,
    lanes: Vec<H::Lane>,
    base: Lsn,
    host: &mut H,
    gate: &T,
) -> Result<RewriteTotals, RewriteError>
    requires range { HasOptionsInRange request.now.options }
    requires open_at { IfSome (H.contents host.old)
        (λ _. H.open_at host.old
        ≡ record { path = request.now.path.now; seg_blocks = request.now.options.seg_blocks }) }
    requires surveyed { AreSurveyed H.Lane.contents H.Lane.failed_writes H.Lane.read_faults
        H.Lane.write_faults (H.contents host.old) (rewrite_asked request.now) relation
        base lanes.items }
    ensures cause { HasFaultOf (counts (H.read_faults host.old) (H.write_faults host.old)
        (H.log_faults host.old) 0)
        (counts (H.read_faults host.new) (H.write_faults host.new) (H.log_faults host.new) 0) result }
    ensures limit { IfErr result
        (MeetsLimit (option_map (pages_at (rewrite_asked request.now)) (H.contents host.old))) }
    ensures totals { IfOk result
        (λ totals. IfSome (H.contents host.old)
        (λ paths. totals ≡ rewrite_totals_of (pages_at (rewrite_asked request.now) paths))) }
    ensures files { let files = files_in H.contents H.failed_writes H.logs
        H.write_faults H.log_faults in
        BecomesOf (files host.old) (files host.new)
        (LeavesByEnd (rewrite_asked request.now) result) }
{
    match open_log(alloc, request.log, base, host) {
        Ok(log) => {
            let options = &request.options;
            let RewriteEnd { lanes, log, end } = rewrite_lanes(
                rt, alloc, options, relation, lanes, log, base, gate,
            );
            host.give_back(lanes, Some(log), None);
            end
        }
        Err(LogRefused { error, log }) => {
            host.give_back(lanes, log, None);
            Err(error)
        }
    }
}

/// Puts the totals of a rewrite, and where its log begins and ends.
fn put_totals<O: Sink>(
    alloc: Global,
    totals: &RewriteTotals,
    base: Lsn,
    out: &mut O,
) -> Result<(), RewriteError>
    ensures text { base + record_size * totals.now.changed < 2 ^ 64
        → Puts (rewrite_lines totals.now base (base + record_size * totals.now.changed))
        (O.bytes out.old) (O.bytes out.new) result }
    ensures later { O.faults out.old ≤ O.faults out.new }
    ensures quiet { OnOk result (O.faults out.new ≡ O.faults out.old) }
    ensures cause { IfErr result (IsPutRefusal (O.faults out.old) (O.faults out.new)) }
    ensures silent { IfErr result
        (λ e. e ≢ RewriteError.OutFault → O.bytes out.new ≡ O.bytes out.old) }
{
    let end = base.saturating_add(RECORD_SIZE.saturating_mul(totals.changed));
    let base = Position(base);
    let end = Position(end);
    put_lines(format!(in alloc; "{totals}\nlog {base} {end}\n"), out)
}

/// Rewrites the relation over its lanes, which were surveyed, gives them back with the log, and
/// prints the totals.
fn rewrite_surveyed<H: Host, R: Threads + Wait + Sync, O: Sink, T: Gate + Sync>(
    rt: &R,
    alloc: Global,
    request: &RewriteRequest,
    relation: RelationFork,
    lanes: Vec<H::Lane>,
    base: Lsn,
    host: &mut H,
    out: &mut O,
    gate: &T,
) -> Result<(), RewriteError>
    requires range { HasOptionsInRange request.now.options }
    requires open_at { IfSome (H.contents host.old)
        (λ _. H.open_at host.old
        ≡ record { path = request.now.path.now; seg_blocks = request.now.options.seg_blocks }) }
    requires surveyed { AreSurveyed H.Lane.contents H.Lane.failed_writes H.Lane.read_faults
        H.Lane.write_faults (H.contents host.old) (rewrite_asked request.now) relation
        base lanes.items }
    ensures cause { HasFaultOf (counts (H.read_faults host.old) (H.write_faults host.old)
        (H.log_faults host.old) (O.faults out.old))
        (counts (H.read_faults host.new) (H.write_faults host.new) (H.log_faults host.new) (O.faults out.new)) result }
    ensures limit { StaysBelowLimit
        (option_map (pages_at (rewrite_asked request.now)) (H.contents host.old)) result }
    ensures files { let files = files_in H.contents H.failed_writes H.logs
        H.write_faults H.log_faults in
        BecomesOf (files host.old) (files host.new)
        (LeavesByEnd (rewrite_asked request.now) result) }
    ensures text { IfSome (H.contents host.old)
        (λ paths. Puts (rewrite_text (pages_at (rewrite_asked request.now) paths)) (O.bytes out.old)
        (O.bytes out.new) result) }
    ensures silent { IfErr result
        (λ e. e ≢ RewriteError.OutFault → O.bytes out.new ≡ O.bytes out.old) }
{
    match rewrite_and_give_back(rt, alloc, request, relation, lanes, base, host, gate) {
        Ok(totals) => put_totals(alloc, &totals, base, out),
        Err(error) => Err(error),
    }
}

/// Rewrites a relation that is open, gives its lanes and its log back, and prints the totals.
fn rewrite_opened<H: Host, R: Threads + Wait + Sync, O: Sink, G: Gate + Sync>(
    rt: &R,
    alloc: Global,
    request: &RewriteRequest,
    opened: Opened<H::Lane>,
    host: &mut H,
    out: &mut O,
    gate: &G,
) -> Result<(), RewriteError>
    requires range { HasOptionsInRange request.now.options }
    requires open_at { IfSome (H.contents host.old)
        (λ _. H.open_at host.old
        ≡ record { path = request.now.path.now; seg_blocks = request.now.options.seg_blocks }) }
    requires opened { IsOpened H.Lane.contents H.Lane.failed_writes H.Lane.unsynced H.Lane.room
        H.Lane.read_faults H.Lane.write_faults (H.contents host.old)
        (H.room host.old request.now.path.now request.now.options.seg_blocks) request.now.path.now
        (fork_of request.now.path.now) request.now.options.seg_blocks
        request.now.options.lanes opened }
    ensures cause { HasFaultOf (counts (H.read_faults host.old) (H.write_faults host.old)
        (H.log_faults host.old) (O.faults out.old))
        (counts (H.read_faults host.new) (H.write_faults host.new) (H.log_faults host.new) (O.faults out.new)) result }
    ensures limit { StaysBelowLimit
        (option_map (pages_at (rewrite_asked request.now)) (H.contents host.old)) result }
    ensures files { let files = files_in H.contents H.failed_writes H.logs
        H.write_faults H.log_faults in
        BecomesOf (files host.old) (files host.new)
        (LeavesByEnd (rewrite_asked request.now) result) }
    ensures text { IfSome (H.contents host.old)
        (λ paths. Puts (rewrite_text (pages_at (rewrite_asked request.now) paths)) (O.bytes out.old)
        (O.bytes out.new) result) }
    ensures silent { IfErr result
        (λ e. e ≢ RewriteError.OutFault → O.bytes out.new ≡ O.bytes out.old) }
{
    let relation = RelationFork {
        number: request.number,
        fork: Fork::Main,
        blocks: opened.blocks,
    };
    let mut lanes = opened.lanes;
    match survey_base(alloc, relation, &mut lanes) {
        Ok(base) => rewrite_surveyed(rt, alloc, request, relation, lanes, base, host, out, gate),
        Err(error) => {
            host.give_back(lanes, None, None);
            Err(error)
        }
    }
}

/// Rewrites the relation at a path, with a log of its new pages at another.
pub fn rewrite_relation<'a, H: Host, R: Threads + Wait + Sync, O: Sink, G: Gate + Sync>(
    rt: &R,
    alloc: Global,
    request: &RewriteRequest<'a>,
    host: &mut H,
    out: &mut O,
    gate: &G,
) -> Result<(), ToolError<'a>>
    requires range { HasOptionsInRange request.now.options }
    ensures later { CountsLater (counts (H.read_faults host.old) (H.write_faults host.old)
        (H.log_faults host.old) (O.faults out.old))
        (counts (H.read_faults host.new) (H.write_faults host.new) (H.log_faults host.new) (O.faults out.new)) }
    ensures ends { EndsCommand (asked (Request.Rewrite request.now)) (H.contents host.old)
        (H.logs host.old)
        (counts (H.read_faults host.old) (H.write_faults host.old) (H.log_faults host.old) (O.faults out.old))
        (counts (H.read_faults host.new) (H.write_faults host.new) (H.log_faults host.new) (O.faults out.new)) result }
    ensures files { let files = files_in H.contents H.failed_writes H.logs
        H.write_faults H.log_faults in
        BecomesOf (files host.old) (files host.new)
        (RewritesFiles (rewrite_asked request.now) (status_of result)) }
    ensures text { IfSome (H.contents host.old)
        (λ paths. Puts (rewrite_text (pages_at (rewrite_asked request.now) paths)) (O.bytes out.old)
        (O.bytes out.new) result) }
    ensures silent { IfErr result (λ e. status_of_error e ≢ 7 → O.bytes out.new ≡ O.bytes out.old) }
{
    let RewriteRequest { path, options, .. } = *request;
    if let Some(crowding) = crowding_in(&options) {
        return Err(ToolError::Crowded(crowding));
    }
    match host.relation(alloc, path, options.seg_blocks, options.lanes) {
        Err(error) => Err(ToolError::from_host(error, path)),
        Ok(opened) => match rewrite_opened(rt, alloc, request, opened, host, out, gate) {
            Ok(()) => Ok(()),
            Err(error) => Err(ToolError::from_rewrite(error)),
        },
    }
}
