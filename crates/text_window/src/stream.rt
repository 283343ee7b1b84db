//! Texts are put in the order of their chunks.
ghost use Rattle.std.specs.Prelude.{◌≡◌, ◌+◌, ◌<◌, ◌^◌, None, OnErr, OnOk, slice_index_or};
ghost use Rattle.byte_devices.specs.Faults.{Rose};
ghost use Rattle.text_window.specs.Texts.{IsBroken, IsStream, waiting_count};

use crate::naming::Naming;
use crate::waiting::Waiting;
use byte_devices::{Failed, Sink};

/// Puts the text of the next chunk, and those that follow it without a gap.
pub(crate) fn put_waiting<N: Naming, O: Sink>(
    sink: &mut O,
    next: &mut u32,
    waiting: &mut Waiting,
    buffer: &mut Vec<u8>,
    _largest: u64,
) -> Result<(), Failed>
    requires stream { IsStream N.texts N.job _largest next.old waiting.old (O.bytes sink.old) }
    requires few { N.job.chunks < 2 ^ 32 }
    ensures goes_on { OnOk result (IsStream N.texts N.job _largest next.new waiting.new
        (O.bytes sink.new)) }
    ensures quiet { OnOk result (O.faults sink.new ≡ O.faults sink.old) }
    ensures counted { OnOk result
        (next.new + waiting_count waiting.new ≡ next.old + waiting_count waiting.old) }
    ensures broken { OnErr result (IsBroken N.texts N.job _largest next.new waiting.new
        (O.bytes sink.new)) }
    ensures rose { OnErr result (Rose (O.faults sink.old) (O.faults sink.new)) }
    ensures first { slice_index_or waiting.new 0 None ≡ None }
{
    while waiting.take(buffer) {
        sink.put(buffer)?;
        *next += 1;
        waiting.shift();
    }
    Ok(())
}
