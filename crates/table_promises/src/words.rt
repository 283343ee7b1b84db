//! The words that no frame has.
ghost use Rattle.std.specs.Prelude.{◌≡◌, ◌+◌, ◌<◌, ◌≤◌, [], ◌∷◌, ◌++◌, IfOk, None, false, true};
ghost use Rattle.history_core.specs.Balances.{added_to};
ghost use Rattle.history_core.specs.Words.{counter_count, most_published};
ghost use Rattle.table_rule.specs.declared.turn.Turn.TheVariants.{Lane, Log};
ghost use Rattle.frame_table.specs.Latches.{MayTake};
ghost use Rattle.frame_table.specs.Seats.{CanTurn, IsSeat, base_of};
ghost use Rattle.frame_table.specs.WordSteps.{load_counter, view_of, view_published};
ghost use Rattle.wal_flush.specs.Flushes.{Flushed};

use atomic_table::Seat;
use byte_devices::LogDevice;
use frame_table::{EndLoad, FrameTable, Turn, Value};
use page_layout::Lsn;
use pin_core::View;
use segment_store::BlockLane;
use std::sync::Wait;
use wal_flush::{FlushLog, flush_to};

/// The redo position is raised under the log's latch, and to the log's end, which is answered
/// (`CreateCheckPoint` stores `RedoRecPtr` while it holds all insertion locks). The flushed
/// position can't be raised so: that needs a sync.
pub fn raise_redo<L: BlockLane, G: LogDevice, R: Wait>(
    table: &FrameTable<L, G>,
    rt: &R,
    seat: &mut Seat<Value<L, G>, View>,
) -> Lsn
    requires seat { IsSeat table.now seat.old }
    requires turn { CanTurn table.now seat.old Log }
    requires free { MayTake Log seat.old.me.0 }
    requires home { (seat.old.me.0.log.out ≡ None) × (seat.old.me.0.log.appended ≡ None) }
    ensures raised { seat.new.me.0.redo_raised ≡ seat.old.me.0.redo_raised ++ result ∷ [] }
{
    table.take_turn(rt, seat, Turn::Log);
    let end = table.load_log_end(seat, EndLoad::Plain);
    table.raise_redo(seat, end);
    table.leave_turn(seat, Turn::Log);
    end
}

/// The redo position is loaded under the log's latch (`XLogInsertRecord` looks at `RedoRecPtr`
/// again while it holds an insertion lock), so it stands until the latch is left.
pub fn load_redo<L: BlockLane, G: LogDevice, R: Wait>(
    table: &FrameTable<L, G>,
    rt: &R,
    seat: &mut Seat<Value<L, G>, View>,
) -> Lsn
    requires seat { IsSeat table.now seat.old }
    requires turn { CanTurn table.now seat.old Log }
    requires free { MayTake Log seat.old.me.0 }
    requires home { (seat.old.me.0.log.out ≡ None) × (seat.old.me.0.log.appended ≡ None) }
    ensures { base_of table.now ≤ result }
{
    table.take_turn(rt, seat, Turn::Log);
    let redo = table.load_redo(seat);
    table.leave_turn(seat, Turn::Log);
    redo
}

/// A flush of the log that is Ok has seen a flushed position that is as far: it was, or a good sync
/// raised it (`XLogWrite` sets `LogwrtResult.Flush` after `issue_xlog_fsync`).
pub fn flush_log<L: BlockLane, G: LogDevice, R: Wait>(
    table: &FrameTable<L, G>,
    rt: &R,
    seat: &mut Seat<Value<L, G>, View>,
    lsn: Lsn,
) -> Result<(), FlushLog>
    requires seat { IsSeat table.now seat.old }
    requires free { seat.old.me.0.log.held ≡ false }
    ensures { IfOk result (λ _. Flushed lsn seat.old.me.0 seat.new.me.0) }
{
    flush_to(table, rt, seat, lsn)
}

/// What a backend adds to a counter is added once (`pgstat_count_io_op_n`).
pub fn add_counter<L: BlockLane, G: LogDevice>(
    table: &FrameTable<L, G>,
    seat: &mut Seat<Value<L, G>, View>,
    number: u32,
    more: u64,
)
    requires seat { IsSeat table.now seat.old }
    requires below { number < counter_count }
    requires room { added_to number seat.old.me.0 + more ≤ most_published }
    ensures { seat.new.me.0 ≡ view_published number more seat.old.me.0 }
{
    table.add_counter(seat, number, more);
}

/// Latches are taken in one order, those of partitions, then of lanes, then the log's, and one of a
/// kind at a time: so no two backends wait for each other (`LWLockAcquire` leaves that to callers).
pub fn take_lane_and_log<L: BlockLane, G: LogDevice, R: Wait>(
    table: &FrameTable<L, G>,
    rt: &R,
    seat: &mut Seat<Value<L, G>, View>,
    lane: u32,
)
    requires lane { CanTurn table.now seat.old (Lane lane) }
    requires log { CanTurn table.now seat.old Log }
    requires free { MayTake (Lane lane) seat.old.me.0 }
    ensures held { seat.new.me.0.log.held ≡ true }
{
    let first = Turn::Lane(lane);
    let last = Turn::Log;
    table.take_turn(rt, seat, first);
    table.take_turn(rt, seat, last);
}

/// The counter that is answered is the one of that number (`pg_stat_get_io`).
pub fn load_counter<L: BlockLane, G: LogDevice>(
    table: &FrameTable<L, G>,
    seat: &mut Seat<Value<L, G>, View>,
    number: u32,
) -> u64
    requires seat { IsSeat table.now seat.old }
    requires below { number < counter_count }
    ensures { seat.new.me.0 ≡ view_of (load_counter number) result seat.old.me.0 }
{
    table.load_counter(seat, number)
}
