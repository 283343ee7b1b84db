//! Commands of `page_tool`, whose errors are its statuses.
ghost use Rattle.std.specs.Prelude.{◌≡◌};
ghost use Rattle.command_line.specs.Numbers.{HasOptionsInRange};
ghost use Rattle.command_line.specs.declared.request.Request.TheVariants.{List, Rewrite};
ghost use Rattle.relation_commands.specs.Answers.{EndsCommand, counts_of};
ghost use Rattle.command_line.specs.Request.{asked};

use byte_devices::Sink;
use page_jobs::Gate;
use relation_commands::{ListRequest, RewriteRequest, ToolError, list_relation, rewrite_relation};
use segment_store::Host;
use std::alloc::Global;
use std::sync::Wait;
use std::thread::Threads;

/// A scan or a dump is refused only for a reason, as a read fault that the host counted.
pub fn list_file<'a, H: Host, R: Threads + Wait + Sync, O: Sink + Send, G: Gate + Sync>(
    rt: &R,
    alloc: Global,
    request: &ListRequest<'a>,
    host: &mut H,
    out: &mut O,
    gate: &G,
) -> Result<(), ToolError<'a>>
    requires { HasOptionsInRange request.now.options }
    ensures { let faults = counts_of H.read_faults H.write_faults H.log_faults O.faults in
        EndsCommand (asked (List request.now)) (H.contents host.old) (H.logs host.old)
        (faults host.old out.old) (faults host.new out.new) result }
{
    list_relation(rt, alloc, request, host, out, gate)
}

/// A rewrite is refused only for a reason, as a write fault that the host counted.
pub fn rewrite_file<'a, H: Host, R: Threads + Wait + Sync, O: Sink, G: Gate + Sync>(
    rt: &R,
    alloc: Global,
    request: &RewriteRequest<'a>,
    host: &mut H,
    out: &mut O,
    gate: &G,
) -> Result<(), ToolError<'a>>
    requires { HasOptionsInRange request.now.options }
    ensures { let faults = counts_of H.read_faults H.write_faults H.log_faults O.faults in
        EndsCommand (asked (Rewrite request.now)) (H.contents host.old) (H.logs host.old)
        (faults host.old out.old) (faults host.new out.new) result }
{
    rewrite_relation(rt, alloc, request, host, out, gate)
}
