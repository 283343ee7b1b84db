//! A source in memory.
ghost use Rattle.std.specs.Prelude.{[], ◌≡◌, ◌<◌, ◌≤◌, Some, IfOk, OnErr, is_ok, length, min, not};
ghost use Rattle.byte_devices.specs.Faults.{CountsOne, HasCause};
ghost use Rattle.byte_devices.specs.Plan.{after_call, fails_next};
ghost use Rattle.byte_devices.specs.Sources.{Takes};

use crate::count::FaultCount;
use crate::device::{Failed, Source};
use crate::plan::FaultPlan;

/// A source in memory, which gives at most `most` bytes a call.
#[derive(Drop)]
pub struct MemSource {
    bytes: Vec<u8>,
    at: usize,
    most: usize,
    calls: FaultPlan,
    faults: FaultCount,
    ghost within: { at ≤ length bytes.items },
    ghost some: { 1 ≤ most },
}

impl MemSource {
    ghost use Rattle.byte_devices.specs.MemorySource.{left_of};

    pub fn new(bytes: Vec<u8>, most: usize, calls: FaultPlan) -> MemSource
        requires { 1 ≤ most }
        ensures left { left_of result ≡ bytes.items }
        ensures most { result.most ≡ most }
        ensures calls { result.calls ≡ calls }
        ensures faults { result.faults.count ≡ 0 }
    {
        MemSource {
            bytes,
            at: 0,
            most,
            calls,
            faults: FaultCount::new(),
        }
    }

    /// How many calls failed.
    pub fn faults(&self) -> u64
        ensures { result ≡ self.now.faults.count }
    {
        self.faults.get()
    }
}

impl Source for MemSource {
    ghost use Rattle.byte_devices.specs.MemorySource.{left_of};

    ghost left = { λ s. Some (left_of s) };

    ghost faults = { λ s. s.faults.count };

    /// Fails if the plan says so.
    fn next(&mut self, piece: &mut [u8]) -> Result<usize, Failed>
        ensures size { length piece.new ≡ length piece.old }
        ensures within { IfOk result (λ n. n ≤ length piece.old) }
        ensures taken { IfOk result (λ n.
            Takes n piece.new (Some (left_of self.old)) (Some (left_of self.new))) }
        ensures end { IfOk result (λ n. n ≡ 0 → 0 < length piece.old → left_of self.old ≡ []) }
        ensures kept { OnErr result (left_of self.new ≡ left_of self.old) }
        ensures faults { HasCause self.old.faults.count self.new.faults.count result }
        ensures counted { CountsOne self.old.faults.count self.new.faults.count result }
        ensures answer { is_ok result ≡ not (fails_next self.old.calls) }
        ensures count { IfOk result (λ n.
            n ≡ min (length piece.old) (min self.old.most (length (left_of self.old)))) }
        ensures calls { self.new.calls ≡ after_call self.old.calls }
        ensures most { self.new.most ≡ self.old.most }
    {
        if self.calls.fails() {
            self.faults.raise();
            return Err(Failed);
        }
        let count = piece.len().min(self.most).min(self.bytes.len() - self.at);
        let end = self.at + count;
        piece[..count].copy_from_slice(&self.bytes[self.at..end]);
        self.at = end;
        Ok(count)
    }

    ghost faults_fit = { λ s. s.faults.fits };
}
