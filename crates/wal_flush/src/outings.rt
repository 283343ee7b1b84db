//! The log's latch is taken, and the log goes out to be called.
ghost use Rattle.std.specs.Prelude.{◌≡◌, ◌≤◌, ◌∷◌, true, false, vec_capacity, None, IfErr, IfOk};
ghost use Rattle.pin_core.specs.declared.view.LogChange.TheVariants as change;
ghost use Rattle.history_core.specs.Log.{record_size};
ghost use Rattle.table_rule.specs.declared.noted_log.LogCall.TheVariants as log_call;
ghost use Rattle.table_rule.specs.declared.turn.Turn.TheVariants.{Log};
ghost use Rattle.table_rule.specs.declared.turn.Place.TheVariants.{Of};
ghost use Rattle.table_rule.specs.declared.value.Value.TheVariants as value;
ghost use Rattle.table_rule.specs.Layout.{slot_of};
ghost use Rattle.frame_table.specs.LogWork.{LogWent};
ghost use Rattle.frame_table.specs.Opened.{LoggedOrOpening};
ghost use Rattle.frame_table.specs.Seats.{CanTurn, Grows, IsSeat, SameSeat, frames_of};
ghost use Rattle.wal_flush.specs.Latched.{FindsDown, Opens, opened_log};

use atomic_table::Seat;
use byte_devices::LogDevice;
use frame_table::{EndLoad, FrameTable, NotedLog, Turn, Value};
use page_layout::Lsn;
use pin_core::View;
use segment_store::BlockLane;
use std::sync::Wait;

/// Waits until the log's latch is free, takes it, and loads the log's end.
pub(crate) fn take_end<L: BlockLane, G: LogDevice, R: Wait>(
    table: &FrameTable<L, G>,
    rt: &R,
    seat: &mut Seat<Value<L, G>, View>,
) -> Lsn
    requires seat { IsSeat table.now seat.old }
    requires free { seat.old.me.0.log.held ≡ false }
    ensures seat { SameSeat seat.old seat.new }
    ensures grows { Grows seat.old.me.0 seat.new.me.0 }
    ensures can { CanTurn table.now seat.new Log }
    ensures held { seat.new.me.0.log ≡ opened_log result }
    ensures links { seat.new.me.0.links ≡ seat.old.me.0.links }
    ensures front { seat.old.me.0.front ≤ result }
    ensures later { seat.old.me.0.end_seen ≤ result }
    ensures logged { LoggedOrOpening L.contents table.now result seat.old.me.0 }
    ensures did { Opens result seat.old.me.0 seat.new.me.0 }
{
    table.take_turn(rt, seat, Turn::Log);
    table.load_log_end(seat, EndLoad::Plain)
}

/// The log goes out to the holder of its latch, for one call. If it is down it comes back at once,
/// and this is the mark of its failure.
pub(crate) fn take_log<L: BlockLane, G: LogDevice>(
    table: &FrameTable<L, G>,
    seat: &mut Seat<Value<L, G>, View>,
) -> Result<NotedLog<G>, Lsn>
    requires seat { CanTurn table.now seat.old Log }
    requires held { (seat.old.me.0.log.held ≡ true) × (seat.old.me.0.log.out ≡ None) }
    ensures seat { (seat.new.table_id ≡ seat.old.table_id) × (seat.new.id ≡ seat.old.id) }
    ensures hand { IfOk result (λ _. seat.new.me.1 ≡ (
      slot_of (frames_of table.now) (Of Log),
      value.Away,
    ) ∷ seat.old.me.1) }
    ensures call { IfOk result (λ log. log.call ≡ log_call.Untouched) }
    ensures room { IfOk result (λ log. record_size ≤ vec_capacity log.buffer) }
    ensures up { IfOk result (λ log. log.down ≡ None) }
    ensures unnoted { IfOk result (λ _. seat.new.me.0.log.change ≡ change.Untouched) }
    ensures went { IfOk result (λ log. LogWent G.bytes G.synced G.faults G.calls log seat.old.me.0
        seat.new.me.0) }
    ensures back { IfErr result (λ _. seat.new.me.1 ≡ seat.old.me.1) }
    ensures down { IfErr result (λ at. FindsDown at seat.old.me.0 seat.new.me.0) }
{
    let log = table.log_out(seat);
    let Some(at) = log.down() else {
        return Ok(log);
    };
    table.log_back(seat, log);
    Err(at)
}
