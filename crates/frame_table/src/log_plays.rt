//! What a step at the log tells its seat.
ghost use Rattle.std.specs.Prelude.{ℕ, List, [], Option, None};
ghost use Rattle.block_tag.specs.declared.catalogue.RelEntry.{RelEntry};
ghost use Rattle.table_rule.specs.declared.noted_log.LogCall.{LogCall};
ghost use Rattle.table_rule.specs.declared.noted_log.LogCall.TheVariants.{Untouched};
ghost use Rattle.frame_table.specs.Entering.{tells_end};
ghost use Rattle.frame_table.specs.LogWork.{log_came, log_went};

use atomic_table::Play;
use byte_devices::LogDevice;
use pin_core::View;
use std::marker::{Brand, PhantomData};
use table_rule::Value;

/// The slot of the log, the call that was made while it was out, and what its device tells then.
/// Each call picks it.
pub(crate) trait AtLog {
    ghost slot: { ℕ };

    ghost call: { LogCall };

    // The bytes, if they are known.
    ghost bytes: { Option (List ℕ) };

    ghost faults: { ℕ };
}

impl AtLog for Brand {
    ghost slot = { 0 };

    ghost call = { Untouched };

    ghost bytes = { None };

    ghost faults = { 0 };
}

pub(crate) struct LogOut<D> {
    log: PhantomData<D>,
}

impl<L, G: LogDevice, D: AtLog> Play<Value<L, G>, View> for LogOut<D> {
    ghost then = { log_went G.bytes G.synced G.faults G.calls D.slot };
}

pub(crate) struct LogBack<D> {
    log: PhantomData<D>,
}

impl<L, G, D: AtLog> Play<Value<L, G>, View> for LogBack<D> {
    ghost then = { log_came D.bytes D.faults D.call };
}

/// The relations, the frame whose page is entered, and the log's end after that entry. Each call
/// picks it.
pub(crate) trait AtEnd {
    ghost relations: { List RelEntry };

    ghost frame: { ℕ };

    ghost end: { ℕ };
}

impl AtEnd for Brand {
    ghost relations = { [] };

    ghost frame = { 0 };

    ghost end = { 0 };
}

pub(crate) struct StoreEnd<D> {
    entry: PhantomData<D>,
}

impl<L, G, D: AtEnd> Play<Value<L, G>, View> for StoreEnd<D> {
    ghost then = { tells_end D.relations D.frame D.end };
}
