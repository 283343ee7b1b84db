//! The commands `scan` and `dump` over a host.
ghost use Rattle.std.specs.Prelude.{◌≡◌, ◌≤◌, IfErr, IfSome};
ghost use Rattle.command_line.specs.Numbers.{HasOptionsInRange};
ghost use Rattle.byte_devices.specs.Bytes.{Puts};
ghost use Rattle.segment_store.specs.Opening.{IsOpened};
ghost use Rattle.segment_store.specs.Paths.{fork_of};
ghost use Rattle.relation_commands.specs.Answers.{EndsCommand, counted_asked, counts_of};
ghost use Rattle.relation_commands.specs.Answers.{text_asked};
ghost use Rattle.relation_commands.specs.Causes.{HasListingCause};
ghost use Rattle.relation_commands.specs.Listings.{NoneFails, PutsCounted};
ghost use Rattle.command_line.specs.Request.{asked};
ghost use Rattle.relation_commands.specs.Status.{status_of_error};

use crate::error::{ToolError, crowding_in};
use crate::listing::{Listed, ListingEnd, ListingError, list};
use crate::starting::RelationFork;
use byte_devices::Sink;
use command_line::{ListRequest, Request};
use page_jobs::Gate;
use segment_store::{Host, Opened};
use std::alloc::Global;
use std::sync::Wait;
use std::thread::Threads;

/// Lists the blocks of a relation that is open, and gives its lanes back.
fn list_opened<H: Host, R: Threads + Wait + Sync, O: Sink + Send, G: Gate + Sync>(
    rt: &R,
    alloc: Global,
    request: &ListRequest,
    opened: Opened<H::Lane>,
    host: &mut H,
    out: &mut O,
    gate: &G,
) -> Result<(), ListingError>
    requires open_at { IfSome (H.contents host.old)
        (λ _. H.open_at host.old
        ≡ record { path = request.now.path.now; seg_blocks = request.now.options.seg_blocks }) }
    requires range { HasOptionsInRange request.now.options }
    requires opened { IsOpened H.Lane.contents H.Lane.failed_writes H.Lane.unsynced H.Lane.room
        H.Lane.read_faults H.Lane.write_faults (H.contents host.old)
        (H.room host.old request.now.path.now request.now.options.seg_blocks) request.now.path.now
        (fork_of request.now.path.now) request.now.options.seg_blocks
        request.now.options.lanes opened }
    ensures contents { H.contents host.new ≡ H.contents host.old }
    ensures failed { IfSome (H.contents host.old)
        (λ paths. NoneFails request.now.options.seg_blocks paths request.now.path.now
        (H.failed_writes host.old) (H.failed_writes host.new)) }
    ensures writes { H.write_faults host.new ≡ H.write_faults host.old }
    ensures logs { H.logs host.new ≡ H.logs host.old }
    ensures log_faults { H.log_faults host.new ≡ H.log_faults host.old }
    ensures cause { HasListingCause (H.read_faults host.old) (H.read_faults host.new)
        (O.faults out.old) (O.faults out.new) result }
    ensures text { IfSome (text_asked (asked (Request.List request.now)) (H.contents host.old))
        (λ text. Puts text (O.bytes out.old) (O.bytes out.new) result) }
    ensures counted { IfSome (counted_asked (asked (Request.List request.now))
        (H.contents host.old)) (λ t. PutsCounted t (O.bytes out.old) (O.bytes out.new) result) }
{
    let relation = RelationFork {
        number: request.number,
        fork: request.fork,
        blocks: opened.blocks,
    };
    let options = &request.options;
    let listed = Listed {
        relation,
        // A listing appends nothing to its log.
        base: 0,
        listing: request.listing,
        stats: request.stats,
        rounds: options.rounds,
    };
    let ListingEnd { lanes, end } = list(rt, alloc, options, listed, opened.lanes, out, gate);
    host.give_back(lanes, None, None);
    end.map(|_totals| ())
}

/// Lists the blocks of the relation at a path. If their I/O counts are asked for, these follow the
/// text, in one line.
pub fn list_relation<'a, H: Host, R: Threads + Wait + Sync, O: Sink + Send, G: Gate + Sync>(
    rt: &R,
    alloc: Global,
    request: &ListRequest<'a>,
    host: &mut H,
    out: &mut O,
    gate: &G,
) -> Result<(), ToolError<'a>>
    requires { HasOptionsInRange request.now.options }
    ensures contents { H.contents host.new ≡ H.contents host.old }
    ensures failed { IfSome (H.contents host.old)
        (λ paths. NoneFails request.now.options.seg_blocks paths request.now.path.now
        (H.failed_writes host.old) (H.failed_writes host.new)) }
    ensures writes { H.write_faults host.new ≡ H.write_faults host.old }
    ensures logs { H.logs host.new ≡ H.logs host.old }
    ensures log_faults { H.log_faults host.new ≡ H.log_faults host.old }
    ensures later { (H.read_faults host.old ≤ H.read_faults host.new)
        × (O.faults out.old ≤ O.faults out.new) }
    ensures ends { let faults = counts_of H.read_faults H.write_faults H.log_faults O.faults in
        EndsCommand (asked (Request.List request.now)) (H.contents host.old) (H.logs host.old)
        (faults host.old out.old) (faults host.new out.new) result }
    ensures text { IfSome (text_asked (asked (Request.List request.now)) (H.contents host.old))
        (λ text. Puts text (O.bytes out.old) (O.bytes out.new) result) }
    ensures counted { IfSome (counted_asked (asked (Request.List request.now))
        (H.contents host.old)) (λ t. PutsCounted t (O.bytes out.old) (O.bytes out.new) result) }
    ensures silent { IfErr result (λ e. status_of_error e ≤ 3 → O.bytes out.new ≡ O.bytes out.old) }
{
    let ListRequest { path, options, .. } = *request;
    if let Some(crowding) = crowding_in(&options) {
        return Err(ToolError::Crowded(crowding));
    }
    match host.relation(alloc, path, options.seg_blocks, options.lanes) {
        Err(error) => Err(ToolError::from_host(error, path)),
        Ok(opened) => list_opened(rt, alloc, request, opened, host, out, gate).map_err(
            |error| ToolError::from_listing(error),
        ),
    }
}
