//! Flushes (`XLogFlush`).
ghost use Rattle.std.specs.Prelude.{◌≡◌, ◌<◌, ◌≤◌, false, IfErr, IfOk, MatchResult};
ghost use Rattle.table_rule.specs.declared.turn.Turn.TheVariants.{Log};
ghost use Rattle.frame_table.specs.Seats.{CanTurn, IsSeat, OnlyRises, SameSeat};
ghost use Rattle.frame_table.specs.Latches.{MayLeave};
ghost use Rattle.wal_flush.specs.Latched.{KeepsWork, opened_log};
ghost use Rattle.wal_flush.specs.declared.flushes.FlushedBy.{FlushedBy};
ghost use Rattle.wal_flush.specs.Flushes.{Awaits, Flushed, FlushRefused, FlushSeesEnd, HolderFlushed, HolderRefused, ShortOf, SyncRefused, SyncsLog, as_looked, flushed_view, unflushed_view};

use crate::outings::{take_end, take_log};
use atomic_table::Seat;
use byte_devices::LogDevice;
use frame_table::{FrameTable, Turn, Value};
use page_layout::Lsn;
use pin_core::View;
use segment_store::BlockLane;
use std::sync::Wait;
use std::thread;
use thiserror::Error;

/// Why the log was not flushed.
#[derive(Clone, Copy, PartialEq, Eq, Debug, Error)]
pub enum FlushLog {
    /// The position asked for is past the log's end.
    #[error("the log ends at {end}, before {lsn}")]
    LogShort { lsn: Lsn, end: Lsn },
    /// A call of the log failed before, where the log ended here.
    #[error("the log is down at {at}")]
    LogDown { at: Lsn },
    /// The sync failed: the log is down from now on.
    #[error("the log failed")]
    LogFault,
}

/// By how many syncs of a flush the log got as far as was asked for, which the contract of
/// `flush_to` names.
#[derive(Clone, Copy, PartialEq, Eq, Debug)]
pub enum FlushedBy {
    /// It was flushed so far already, or was by the time that the latch was taken.
    NoSync,
    /// The holder of the latch made one.
    OneSync,
}

/// Syncs the log, and raises the flushed position to its end, as it was loaded under the latch.
fn sync<L: BlockLane, G: LogDevice>(
    table: &FrameTable<L, G>,
    seat: &mut Seat<Value<L, G>, View>,
    end: Lsn,
) -> Result<(), FlushLog>
    requires seat { CanTurn table.now seat.old Log }
    requires held { seat.old.me.0.log ≡ opened_log end }
    ensures seat { SameSeat seat.old seat.new }
    ensures can { CanTurn table.now seat.new Log }
    ensures leaves { MayLeave Log seat.new.me.0 }
    ensures flushed { seat.new.me.0.flushed ≡ seat.old.me.0.flushed }
    ensures synced { IfOk result (λ _. SyncsLog seat.old.me.0 seat.new.me.0) }
    ensures cause { IfErr result (λ why. SyncRefused end why seat.old.me.0 seat.new.me.0) }
{
    let mut log = match take_log(table, seat) {
        Ok(log) => log,
        Err(at) => return Err(FlushLog::LogDown { at }),
    };
    let result = log.sync(end);
    table.log_back(seat, log);
    match result {
        Ok(()) => {
            table.raise_flushed(seat, end);
            Ok(())
        }
        Err(_failed) => Err(FlushLog::LogFault),
    }
}

/// Looks at the flushed position once more, under the latch, and syncs the log if no other backend
/// has flushed it as far as `lsn` meanwhile.
fn flush_held<L: BlockLane, G: LogDevice>(
    table: &FrameTable<L, G>,
    seat: &mut Seat<Value<L, G>, View>,
    lsn: Lsn,
    end: Lsn,
) -> Result<FlushedBy, FlushLog>
    requires seat { CanTurn table.now seat.old Log }
    requires held { seat.old.me.0.log ≡ opened_log end }
    ensures seat { SameSeat seat.old seat.new }
    ensures can { CanTurn table.now seat.new Log }
    ensures leaves { MayLeave Log seat.new.me.0 }
    ensures flushed { IfOk result (λ by. HolderFlushed lsn end by seat.old.me.0 seat.new.me.0) }
    ensures unflushed { IfErr result (λ _. seat.old.me.0.flushed < lsn
        → seat.new.me.0.flushed < lsn) }
    ensures cause { IfErr result (λ why. HolderRefused lsn end why seat.old.me.0 seat.new.me.0) }
{
    if lsn > end {
        return Err(FlushLog::LogShort { lsn, end });
    }
    if lsn <= table.load_flushed(seat) {
        return Ok(FlushedBy::NoSync);
    }
    match sync(table, seat, end) {
        Ok(()) => Ok(FlushedBy::OneSync),
        Err(why) => Err(why),
    }
}

/// Loads the flushed position until it is `lsn` or more. Once it was raised that far the first load
/// shows it, since it never falls; but a backend knows of it only what it has loaded.
fn await_flushed<L: BlockLane, G: LogDevice, R: Wait>(
    table: &FrameTable<L, G>,
    rt: &R,
    seat: &mut Seat<Value<L, G>, View>,
    lsn: Lsn,
)
    requires { IsSeat table.now seat.old }
    ensures seat { SameSeat seat.old seat.new }
    ensures flushed { lsn ≤ seat.new.me.0.flushed }
    ensures did { Awaits lsn seat.old.me.0 seat.new.me.0 }
{
    for _ in rt.forever() {
        if lsn <= table.load_flushed(seat) {
            return;
        }
        thread::yield_now();
    }
    unreachable!()
}

/// Makes the log durable up to the position `lsn` (`XLogFlush`). The backend has then seen a
/// flushed position of `lsn` or more.
///
/// If the flushed position is so far already no device is called. Else it waits for the log's latch
/// and looks once more: if another backend has flushed the log so far meanwhile no device is called
/// either, whether the log is down by then or not. Else it makes one sync at most. It refuses if
/// the log ends before `lsn`, as for the position of a page that was on disk before the log began;
/// then, if it isn't flushed so far under the latch, if it is down, and if the sync fails.
pub fn flush_to<L: BlockLane, G: LogDevice, R: Wait>(
    table: &FrameTable<L, G>,
    rt: &R,
    seat: &mut Seat<Value<L, G>, View>,
    lsn: Lsn,
) -> Result<(), FlushLog>
    requires seat { IsSeat table.now seat.old }
    requires free { seat.old.me.0.log.held ≡ false }
    ensures seat { SameSeat seat.old seat.new }
    ensures work { KeepsWork seat.old.me.0 seat.new.me.0 }
    ensures rises { OnlyRises seat.old.me.0 seat.new.me.0 }
    ensures flushed { MatchResult result (λ _. lsn ≤ seat.new.me.0.flushed)
        (λ _. seat.new.me.0.flushed < lsn) }
    ensures left { IfErr result (λ why. seat.new.me.0 ≡ as_looked (unflushed_view why seat.old.me.0)
        seat.new.me.0) }
    ensures view { IfOk result (λ _. (by : FlushedBy)
        × (seat.new.me.0 ≡ as_looked (flushed_view by seat.old.me.0) seat.new.me.0)) }
    ensures did { IfOk result (λ _. Flushed lsn seat.old.me.0 seat.new.me.0) }
    ensures seen { IfErr result (λ why. FlushSeesEnd why seat.old.me.0 seat.new.me.0) }
    ensures short { IfErr result (ShortOf L.contents table.now seat.old.me.0) }
    ensures cause { IfErr result (FlushRefused lsn seat.old.me.0 seat.new.me.0) }
{
    if lsn <= table.load_flushed(seat) {
        return Ok(());
    }
    let end = take_end(table, rt, seat);
    let result = flush_held(table, seat, lsn, end);
    table.leave_turn(seat, Turn::Log);
    match result {
        Ok(by) => match by {
            FlushedBy::NoSync => Ok(()),
            FlushedBy::OneSync => {
                await_flushed(table, rt, seat, lsn);
                Ok(())
            }
        },
        Err(why) => Err(why),
    }
}
