//! Counts of faults, and of calls.
ghost use Rattle.std.specs.Prelude.{◌≡◌, ◌+◌, ◌-◌, ◌^◌, ◌<◌, min};

use std::snapshot::Snapshot;

/// How many calls failed, as far as a `u64` goes: a count stands still at `u64::MAX`.
#[derive(Drop)]
pub struct FaultCount {
    count: u64,
    ghost fits: { count < 2 ^ 64 },
}

impl FaultCount {
    pub fn new() -> FaultCount
        ensures { result.count ≡ 0 }
    {
        FaultCount { count: 0 }
    }

    pub fn get(&self) -> u64
        ensures { result ≡ self.now.count }
    {
        self.count
    }

    /// Counts this many more.
    pub fn add(&mut self, more: u64)
        ensures { self.new.count ≡ min (self.old.count + more) (2 ^ 64 - 1) }
    {
        self.count = self.count.saturating_add(more);
    }

    /// Counts one more.
    pub fn raise(&mut self)
        ensures { self.new.count ≡ min (self.old.count + 1) (2 ^ 64 - 1) }
    {
        self.add(1);
    }
}

/// How many calls were made, however many. Clauses read the number; at run time nothing does.
#[derive(Drop)]
pub enum CallCount {
    Zero,
    After(Snapshot<CallCount>),
}

impl CallCount {
    ghost use Rattle.byte_devices.specs.Calls.{calls_counted};

    pub fn new() -> CallCount
        ensures { calls_counted result ≡ 0 }
    {
        CallCount::Zero
    }

    /// Counts one more.
    pub fn raise(&mut self)
        ensures { calls_counted self.new ≡ calls_counted self.old + 1 }
    {
        *self = CallCount::After(Snapshot::of(self));
    }
}
