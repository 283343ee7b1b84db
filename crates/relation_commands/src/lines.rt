//! The lines that a command prints in the end.
ghost use Rattle.std.specs.Prelude.{◌≡◌, ◌≢◌, ◌≤◌, ℕ, List, IfErr, IfOk, OnOk, string_bytes};
ghost use Rattle.byte_devices.specs.Bytes.{Puts};
ghost use Rattle.relation_commands.specs.RewriteCommand.{IsPutRefusal};

use crate::rewriting::RewriteError;
use byte_devices::Sink;
use std::alloc::AllocError;

/// Puts lines, unless there was no memory for them.
pub(crate) fn put_lines<O: Sink>(
    lines: Result<String, AllocError>,
    out: &mut O,
) -> Result<(), RewriteError>
    ensures text { (text : List ℕ) → IfOk lines (λ lines. string_bytes lines ≡ text)
        → Puts text (O.bytes out.old) (O.bytes out.new) result }
    ensures later { O.faults out.old ≤ O.faults out.new }
    ensures quiet { OnOk result (O.faults out.new ≡ O.faults out.old) }
    ensures cause { IfErr result (IsPutRefusal (O.faults out.old) (O.faults out.new)) }
    ensures silent { IfErr result
        (λ e. e ≢ RewriteError.OutFault → O.bytes out.new ≡ O.bytes out.old) }
{
    let Ok(lines) = lines else {
        return Err(RewriteError::Memory);
    };
    match out.put(lines.as_bytes()) {
        Ok(()) => Ok(()),
        Err(_) => Err(RewriteError::OutFault),
    }
}
