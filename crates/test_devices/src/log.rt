//! A log for tests.
use byte_devices::{CallCount, Failed, FaultCount, LogDevice};
use std::alloc::Global;

/// A log whose contents contracts don't know. It has what was appended, and one of its calls may
/// fail.
#[derive(Drop)]
pub struct TestLog {
    pub bytes: Vec<u8>,
    /// How many syncs were done.
    pub syncs: u32,
    /// How many calls were made.
    calls: u32,
    /// Which call fails, counted from 1; none if this is 0.
    failing: u32,
    faults: FaultCount,
    history: CallCount,
}

impl TestLog {
    ghost use Rattle.std.specs.Prelude.{◌≡◌, ◌+◌};
    ghost use Rattle.byte_devices.specs.Calls.{calls_counted};

    pub fn new(alloc: Global, failing: u32) -> TestLog {
        TestLog {
            bytes: Vec::new(alloc),
            syncs: 0,
            calls: 0,
            failing,
            faults: FaultCount::new(),
            history: CallCount::new(),
        }
    }

    /// Whether this call is the one that fails.
    fn fails(&mut self) -> bool
        ensures faults { self.new.faults ≡ self.old.faults }
        ensures history { calls_counted self.new.history ≡ calls_counted self.old.history + 1 }
    {
        self.history.raise();
        self.calls = self.calls.saturating_add(1);
        self.calls == self.failing
    }
}

impl LogDevice for TestLog {
    ghost use Rattle.std.specs.Prelude.{None};
    ghost use Rattle.byte_devices.specs.Calls.{calls_counted};

    ghost bytes = { λ _. None };

    ghost synced = { λ _. 0 };

    ghost faults = { λ l. l.faults.count };

    ghost calls = { λ l. calls_counted l.history };

    fn append(&mut self, piece: &[u8]) -> Result<(), Failed> {
        if self.fails() || self.bytes.extend_from_slice(piece).is_err() {
            self.faults.raise();
            return Err(Failed);
        }
        Ok(())
    }

    fn sync(&mut self) -> Result<(), Failed> {
        if self.fails() {
            self.faults.raise();
            return Err(Failed);
        }
        self.syncs = self.syncs.saturating_add(1);
        Ok(())
    }

    ghost faults_fit = { λ l. l.faults.fits };

    ghost synced_within = { λ _. tt };
}
