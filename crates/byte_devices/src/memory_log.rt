//! Logs in memory.
ghost use Rattle.std.specs.Prelude.{◌≡◌, ◌+◌, ◌≤◌, ◌++◌, [], Some, IfOk, OnErr, is_ok, length, not};
ghost use Rattle.byte_devices.specs.Bytes.{Puts, Syncs};
ghost use Rattle.byte_devices.specs.Calls.{calls_counted};
ghost use Rattle.byte_devices.specs.Faults.{CountsOne, HasCause};
ghost use Rattle.byte_devices.specs.Memory.{prefix_of, takes_piece};
ghost use Rattle.byte_devices.specs.Plan.{after_call, fails_next, fresh_plan};

use crate::count::{CallCount, FaultCount};
use crate::device::{Failed, LogDevice, Sink};
use crate::memory::MemSink;
use crate::plan::FaultPlan;
use std::alloc::{AllocError, Global};

/// The calls of a log that are to fail.
#[derive(Drop)]
pub struct LogPlan {
    pub appends: FaultPlan,
    pub syncs: FaultPlan,
}

impl LogPlan {
    /// A plan in which no call is to fail.
    pub fn none(alloc: Global) -> LogPlan
        ensures appends { result.appends ≡ record { calls = 0; failing = [] } }
        ensures syncs { result.syncs ≡ record { calls = 0; failing = [] } }
    {
        LogPlan {
            appends: FaultPlan::new(Vec::new(alloc)),
            syncs: FaultPlan::new(Vec::new(alloc)),
        }
    }

    /// A plan of the same calls to fail, with no call made.
    pub fn fresh(&self, alloc: Global) -> Result<LogPlan, AllocError>
        ensures appends { IfOk result (λ plan. plan.appends ≡ fresh_plan self.now.appends) }
        ensures syncs { IfOk result (λ plan. plan.syncs ≡ fresh_plan self.now.syncs) }
    {
        Ok(LogPlan {
            appends: self.appends.fresh(alloc)?,
            syncs: self.syncs.fresh(alloc)?,
        })
    }
}

/// A log in memory, with room for a fixed number of bytes.
#[derive(Drop)]
pub struct MemLog {
    /// The bytes, the room, and which appends are to fail.
    sink: MemSink,
    synced: usize,
    syncs: FaultPlan,
    faults: FaultCount,
    calls: CallCount,
    ghost within: { synced ≤ length sink.bytes },
}

impl MemLog {
    /// An empty log that takes its memory now, and no more later.
    pub fn new(alloc: Global, room: usize, plan: LogPlan) -> Result<MemLog, AllocError>
        ensures bytes { IfOk result (λ log. log.sink.bytes ≡ []) }
        ensures synced { IfOk result (λ log. log.synced ≡ 0) }
        ensures room { IfOk result (λ log. log.sink.room ≡ room) }
        ensures appends { IfOk result (λ log. log.sink.puts ≡ plan.appends) }
        ensures syncs { IfOk result (λ log. log.syncs ≡ plan.syncs) }
        ensures faults { IfOk result (λ log. log.faults.count ≡ 0) }
        ensures calls { IfOk result (λ log. calls_counted log.calls ≡ 0) }
    {
        let sink = MemSink::new(alloc, room, plan.appends)?;
        Ok(MemLog {
            sink,
            synced: 0,
            syncs: plan.syncs,
            faults: FaultCount::new(),
            calls: CallCount::new(),
        })
    }

    /// The bytes that were appended.
    pub fn bytes(&self) -> &[u8]
        ensures { result.now ≡ self.now.sink.bytes }
    {
        self.sink.bytes()
    }

    /// How many of the bytes are durable.
    pub fn synced(&self) -> usize
        ensures { result ≡ ⟦<MemLog as LogDevice>⟧.synced self.now }
    {
        self.synced
    }

    /// How many calls failed.
    pub fn faults(&self) -> u64
        ensures { result ≡ ⟦<MemLog as LogDevice>⟧.faults self.now }
    {
        self.faults.get()
    }
}

impl LogDevice for MemLog {
    ghost bytes = { λ l. Some l.sink.bytes };

    ghost synced = { λ l. l.synced };

    ghost faults = { λ l. l.faults.count };

    ghost calls = { λ l. calls_counted l.calls };

    /// Fails if the plan says so, or if there is no room for the piece.
    fn append(&mut self, piece: &[u8]) -> Result<(), Failed>
        ensures bytes { Puts piece.now (Some self.old.sink.bytes) (Some self.new.sink.bytes)
            result }
        ensures synced { self.new.synced ≡ self.old.synced }
        ensures faults { HasCause self.old.faults.count self.new.faults.count result }
        ensures counted { CountsOne self.old.faults.count self.new.faults.count result }
        ensures calls { calls_counted self.new.calls ≡ calls_counted self.old.calls + 1 }
        ensures answer { is_ok result ≡ takes_piece self.old.sink piece.now }
        ensures left { OnErr result (self.new.sink.bytes
            ≡ self.old.sink.bytes ++ prefix_of self.old.sink piece.now) }
        ensures appends { self.new.sink.puts ≡ after_call self.old.sink.puts }
        ensures syncs { self.new.syncs ≡ self.old.syncs }
        ensures room { self.new.sink.room ≡ self.old.sink.room }
    {
        self.calls.raise();
        if self.sink.put(piece).is_ok() {
            return Ok(());
        }
        self.faults.raise();
        Err(Failed)
    }

    /// Fails if the plan says so.
    fn sync(&mut self) -> Result<(), Failed>
        ensures sink { self.new.sink ≡ self.old.sink }
        ensures synced { Syncs self.old.sink.bytes self.old.synced self.new.synced result }
        ensures faults { HasCause self.old.faults.count self.new.faults.count result }
        ensures counted { CountsOne self.old.faults.count self.new.faults.count result }
        ensures calls { calls_counted self.new.calls ≡ calls_counted self.old.calls + 1 }
        ensures answer { is_ok result ≡ not (fails_next self.old.syncs) }
        ensures syncs { self.new.syncs ≡ after_call self.old.syncs }
    {
        self.calls.raise();
        if self.syncs.fails() {
            self.faults.raise();
            return Err(Failed);
        }
        self.synced = self.sink.bytes().len();
        Ok(())
    }

    ghost faults_fit = { λ l. l.faults.fits };

    ghost synced_within = { λ l. l.within };
}
