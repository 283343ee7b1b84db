//! Recovers the relation at a path, by the log of a rewrite at another.
ghost use Rattle.std.specs.Prelude.{◌≡◌, ◌≢◌, ◌≤◌, ◌<◌, IfErr, IfOk, IfSome, OnOk, length, map};
ghost use Rattle.command_line.specs.Numbers.{HasOptionsInRange};
ghost use Rattle.byte_devices.specs.Bytes.{Puts};
ghost use Rattle.segment_store.specs.Lanes.{HoldTheirs};
ghost use Rattle.segment_store.specs.Logs.{IsOpenedSource};
ghost use Rattle.segment_store.specs.Opening.{IsOpened};
ghost use Rattle.segment_store.specs.Paths.{fork_of};
ghost use Rattle.relation_commands.specs.Answers.{CountsLater, EndsCommand, PutsLogOf, counts};
ghost use Rattle.relation_commands.specs.RecoverCommand.{EndsRedo, TellsLogOf};
ghost use Rattle.relation_commands.specs.RecoverFiles.{RecoversFiles, catalog_of};
ghost use Rattle.relation_commands.specs.RecoverTexts.{redone_lines};
ghost use Rattle.command_line.specs.Request.{asked, options_of, recover_asked, recovering};
ghost use Rattle.relation_commands.specs.RewriteCommand.{IsPutRefusal};
ghost use Rattle.relation_commands.specs.RewriteFiles.{BecomesOf, files_in};
ghost use Rattle.relation_commands.specs.Status.{status_of, status_of_error};

use crate::error::ToolError;
use crate::lines::put_lines;
use crate::rewriting::RewriteError;
use crate::starting::RelationFork;
use block_tag::Fork;
use byte_devices::{Sink, Source};
use command_line::{RecoverRequest, Request};
use log_recovery::{RecoverError, Redone, recover};
use page_layout::{Page, Position};
use segment_store::{BlockLane, Host, Opened};
use std::alloc::Global;

/// Redoes what is read of a log over lanes that hold blocks of the relation at a path.
fn redo_lanes<L: BlockLane, S: Source>(
    alloc: Global,
    request: &RecoverRequest,
    lanes: &mut [L],
    source: &mut S,
) -> Result<Redone, RecoverError>
    requires some { 0 < length lanes.old }
    requires placed { HoldTheirs (map L.contents lanes.old) }
    ensures { EndsRedo L.contents L.failed_writes L.room L.read_faults L.write_faults
        S.left S.faults (catalog_of request.now.path.now) lanes.old lanes.new source.old
        source.new result }
{
    let relation = RelationFork {
        number: request.number,
        fork: Fork::Main,
        // Records name a relation by its numbers, however many blocks it has: FILE is the same log
        // in a second recovery, when PATH has grown.
        blocks: 0,
    };
    let Ok(catalog) = relation.catalog(alloc) else {
        return Err(RecoverError::Memory);
    };
    let Ok(mut page) = Page::zeroed(alloc) else {
        return Err(RecoverError::Memory);
    };
    recover(alloc, lanes, &catalog, source, &mut page)
}

/// Redoes a log over the lanes of a relation that is open, and gives both back, however it ends. If
/// the first 16 bytes were read and are no head, that is the answer (status 10), before anything is
/// written. A read fault before that is status 4, and no clause can say more: over files nothing is
/// known of what a failed read would have given.
fn redo_and_give_back<'a, H: Host>(
    alloc: Global,
    request: &RecoverRequest<'a>,
    opened: Opened<H::Lane>,
    mut source: H::Source,
    host: &mut H,
) -> Result<Redone, ToolError<'a>>
    requires range { (1 ≤ request.now.lanes) × (1 ≤ request.now.seg_blocks) }
    requires open_at { IfSome (H.contents host.old) (λ _. H.open_at host.old
        ≡ record { path = request.now.path.now; seg_blocks = request.now.seg_blocks }) }
    requires opened { IsOpened H.Lane.contents H.Lane.failed_writes H.Lane.unsynced H.Lane.room
        H.Lane.read_faults H.Lane.write_faults (H.contents host.old)
        (H.room host.old request.now.path.now request.now.seg_blocks)
        request.now.path.now (fork_of request.now.path.now)
        request.now.seg_blocks request.now.lanes opened }
    requires source { IsOpenedSource H.Source.left H.Source.faults (H.logs host.old)
        request.now.log.now source }
    ensures later { CountsLater
        (counts (H.read_faults host.old) (H.write_faults host.old) (H.log_faults host.old) 0)
        (counts (H.read_faults host.new) (H.write_faults host.new) (H.log_faults host.new) 0) }
    ensures ends { EndsCommand (recovering (recover_asked request.now))
        (H.contents host.old) (H.logs host.old)
        (counts (H.read_faults host.old) (H.write_faults host.old) (H.log_faults host.old) 0)
        (counts (H.read_faults host.new) (H.write_faults host.new) (H.log_faults host.new) 0)
        result }
    ensures files { let files = files_in H.contents H.failed_writes H.logs
        H.write_faults H.log_faults in
        BecomesOf (files host.old) (files host.new)
        (RecoversFiles (recover_asked request.now) (status_of result)) }
    ensures tells { IfOk result (TellsLogOf (recover_asked request.now) (H.logs host.old)) }
    ensures logs { H.logs host.new ≡ H.logs host.old }
    ensures log_faults { H.log_faults host.new ≡ H.log_faults host.old }
{
    let mut lanes = opened.lanes;
    let end = redo_lanes(alloc, request, &mut lanes, &mut source);
    host.give_back(lanes, None, Some(source));
    end.map_err(|error| ToolError::from_recovery(error, request.log))
}

/// Opens the log of a relation that is open, and redoes it.
fn redo_opened<'a, H: Host>(
    alloc: Global,
    request: &RecoverRequest<'a>,
    opened: Opened<H::Lane>,
    host: &mut H,
) -> Result<Redone, ToolError<'a>>
    requires range { (1 ≤ request.now.lanes) × (1 ≤ request.now.seg_blocks) }
    requires open_at { IfSome (H.contents host.old) (λ _. H.open_at host.old
        ≡ record { path = request.now.path.now; seg_blocks = request.now.seg_blocks }) }
    requires opened { IsOpened H.Lane.contents H.Lane.failed_writes H.Lane.unsynced H.Lane.room
        H.Lane.read_faults H.Lane.write_faults (H.contents host.old)
        (H.room host.old request.now.path.now request.now.seg_blocks)
        request.now.path.now (fork_of request.now.path.now)
        request.now.seg_blocks request.now.lanes opened }
    ensures later { CountsLater
        (counts (H.read_faults host.old) (H.write_faults host.old) (H.log_faults host.old) 0)
        (counts (H.read_faults host.new) (H.write_faults host.new) (H.log_faults host.new) 0) }
    ensures ends { EndsCommand (recovering (recover_asked request.now))
        (H.contents host.old) (H.logs host.old)
        (counts (H.read_faults host.old) (H.write_faults host.old) (H.log_faults host.old) 0)
        (counts (H.read_faults host.new) (H.write_faults host.new) (H.log_faults host.new) 0)
        result }
    ensures files { let files = files_in H.contents H.failed_writes H.logs
        H.write_faults H.log_faults in
        BecomesOf (files host.old) (files host.new)
        (RecoversFiles (recover_asked request.now) (status_of result)) }
    ensures tells { IfOk result (TellsLogOf (recover_asked request.now) (H.logs host.old)) }
    ensures logs { H.logs host.new ≡ H.logs host.old }
    ensures log_faults { H.log_faults host.new ≡ H.log_faults host.old }
{
    match host.bytes(alloc, request.log) {
        Ok(source) => redo_and_give_back(alloc, request, opened, source, host),
        Err(error) => {
            host.give_back(opened.lanes, None, None);
            Err(ToolError::from_host(error, request.log))
        }
    }
}

/// Opens the relation, then its log, and redoes the log. In this order a FILE that is a segment of
/// PATH by a link is known as one, and refused; and if neither is there, the status is 3 for PATH.
fn redo_relation<'a, H: Host>(
    alloc: Global,
    request: &RecoverRequest<'a>,
    host: &mut H,
) -> Result<Redone, ToolError<'a>>
    requires range { (1 ≤ request.now.lanes) × (1 ≤ request.now.seg_blocks) }
    ensures later { CountsLater
        (counts (H.read_faults host.old) (H.write_faults host.old) (H.log_faults host.old) 0)
        (counts (H.read_faults host.new) (H.write_faults host.new) (H.log_faults host.new) 0) }
    ensures ends { EndsCommand (recovering (recover_asked request.now))
        (H.contents host.old) (H.logs host.old)
        (counts (H.read_faults host.old) (H.write_faults host.old) (H.log_faults host.old) 0)
        (counts (H.read_faults host.new) (H.write_faults host.new) (H.log_faults host.new) 0)
        result }
    ensures files { let files = files_in H.contents H.failed_writes H.logs
        H.write_faults H.log_faults in
        BecomesOf (files host.old) (files host.new)
        (RecoversFiles (recover_asked request.now) (status_of result)) }
    ensures tells { IfOk result (TellsLogOf (recover_asked request.now) (H.logs host.old)) }
    ensures logs { H.logs host.new ≡ H.logs host.old }
    ensures log_faults { H.log_faults host.new ≡ H.log_faults host.old }
{
    let RecoverRequest {
        path,
        lanes,
        seg_blocks,
        ..
    } = *request;
    match host.relation(alloc, path, seg_blocks, lanes) {
        Ok(opened) => redo_opened(alloc, request, opened, host),
        Err(error) => Err(ToolError::from_host(error, path)),
    }
}

/// Puts where a log begins and ends, how many entries it has, and how many blocks were redone.
fn put_redone<O: Sink>(alloc: Global, redone: &Redone, out: &mut O) -> Result<(), RewriteError>
    ensures text { Puts (redone_lines redone.now) (O.bytes out.old) (O.bytes out.new) result }
    ensures later { O.faults out.old ≤ O.faults out.new }
    ensures quiet { OnOk result (O.faults out.new ≡ O.faults out.old) }
    ensures cause { IfErr result (IsPutRefusal (O.faults out.old) (O.faults out.new)) }
    ensures silent { IfErr result
        (λ e. e ≢ RewriteError.OutFault → O.bytes out.new ≡ O.bytes out.old) }
{
    let Redone {
        base,
        end,
        entries,
        blocks,
    } = *redone;
    let base = Position(base);
    let end = Position(end);
    let lines = format!(in alloc; "log {base} {end} entries {entries}\nblocks {blocks} redone\n");
    put_lines(lines, out)
}

/// Recovers the relation at a path by the log at another: each record's page is written to its
/// block, in order.
pub fn recover_relation<'a, H: Host, O: Sink>(
    alloc: Global,
    request: &RecoverRequest<'a>,
    host: &mut H,
    out: &mut O,
) -> Result<(), ToolError<'a>>
    requires range { HasOptionsInRange (options_of (asked (Request.Recover request.now))) }
    ensures later { CountsLater
        (counts (H.read_faults host.old) (H.write_faults host.old) (H.log_faults host.old)
        (O.faults out.old))
        (counts (H.read_faults host.new) (H.write_faults host.new) (H.log_faults host.new)
        (O.faults out.new)) }
    ensures ends { EndsCommand (asked (Request.Recover request.now))
        (H.contents host.old) (H.logs host.old)
        (counts (H.read_faults host.old) (H.write_faults host.old) (H.log_faults host.old)
        (O.faults out.old))
        (counts (H.read_faults host.new) (H.write_faults host.new) (H.log_faults host.new)
        (O.faults out.new)) result }
    ensures files { let files = files_in H.contents H.failed_writes H.logs
        H.write_faults H.log_faults in
        BecomesOf (files host.old) (files host.new)
        (RecoversFiles (recover_asked request.now) (status_of result)) }
    ensures text { PutsLogOf (asked (Request.Recover request.now)) (H.logs host.old)
        (O.bytes out.old) (O.bytes out.new) result }
    ensures silent { IfErr result (λ e. status_of_error e ≢ 7 → O.bytes out.new ≡ O.bytes out.old) }
    ensures logs { H.logs host.new ≡ H.logs host.old }
    ensures log_faults { H.log_faults host.new ≡ H.log_faults host.old }
{
    match redo_relation(alloc, request, host) {
        Ok(redone) => {
            put_redone(alloc, &redone, out).map_err(|error| ToolError::from_rewrite(error))
        }
        Err(error) => Err(error),
    }
}
