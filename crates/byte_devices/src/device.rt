//! Logs, sinks of bytes, and sources of bytes.
ghost use Rattle.std.specs.Prelude.{[], ◌≡◌, ◌+◌, ◌<◌, ◌≤◌, ◌^◌, ℕ, List, OnErr, Option, None};
ghost use Rattle.std.specs.Prelude.{IfOk, IfSome, length};
ghost use Rattle.byte_devices.specs.Bytes.{Puts, Syncs};
ghost use Rattle.byte_devices.specs.Faults.{HasCause};
ghost use Rattle.byte_devices.specs.Sources.{Takes};

use thiserror::Error;

/// A call failed, and a count of faults rose.
#[derive(Clone, Copy, PartialEq, Eq, Debug, Error)]
#[error("the device failed")]
pub struct Failed;

/// A log: bytes that are appended one piece after another, the first of which are durable.
///
/// A call leaves what its clauses don't name as it was. The count never falls, and rises only in a
/// call that fails.
pub trait LogDevice {
    /// The bytes so far, if the contents are known.
    ghost bytes: { Self → Option (List ℕ) };

    /// How many of the bytes a sync has made durable; it says something only if the contents are
    /// known.
    ghost synced: { Self → ℕ };

    /// How many calls failed.
    ghost faults: { Self → ℕ };

    /// How many calls were made.
    ghost calls: { Self → ℕ };

    /// Adds the piece; a failed call adds a prefix of it. What is added isn't durable before a
    /// sync. Contents that aren't known stay unknown.
    fn append(&mut self, piece: &[u8]) -> Result<(), Failed>
        ensures bytes { Puts piece.now (bytes self.old) (bytes self.new) result }
        ensures unknown { bytes self.old ≡ None → bytes self.new ≡ None }
        ensures synced { IfSome (bytes self.old) (λ _. synced self.new ≡ synced self.old) }
        ensures faults { HasCause (faults self.old) (faults self.new) result }
        ensures calls { calls self.new ≡ calls self.old + 1 };

    /// Makes all bytes so far durable. After a failed call no more of them are taken as durable
    /// than before.
    /// A disk may hold more then, but nobody can rely on that.
    fn sync(&mut self) -> Result<(), Failed>
        ensures bytes { bytes self.new ≡ bytes self.old }
        ensures synced { IfSome (bytes self.old) (λ known.
            Syncs known (synced self.old) (synced self.new) result) }
        ensures faults { HasCause (faults self.old) (faults self.new) result }
        ensures calls { calls self.new ≡ calls self.old + 1 };

    ghost faults_fit: { (log : Self) → faults log < 2 ^ 64 };

    ghost synced_within: { (log : Self) → IfSome (bytes log) (λ known. synced log ≤ length known) };
}

/// Bytes that are written one piece after another.
pub trait Sink {
    /// The bytes so far, if the contents are known.
    ghost bytes: { Self → Option (List ℕ) };

    /// How many calls failed.
    ghost faults: { Self → ℕ };

    /// Adds the piece; a failed call adds a prefix of it.
    fn put(&mut self, piece: &[u8]) -> Result<(), Failed>
        ensures bytes { Puts piece.now (bytes self.old) (bytes self.new) result }
        ensures faults { HasCause (faults self.old) (faults self.new) result };

    ghost faults_fit: { (sink : Self) → faults sink < 2 ^ 64 };
}

/// Bytes that are read one piece after another.
///
/// The count never falls, and rises only in a call that fails.
pub trait Source {
    /// The bytes left, if they are known.
    ghost left: { Self → Option (List ℕ) };

    /// How many calls failed.
    ghost faults: { Self → ℕ };

    /// Takes the next bytes into the beginning of the piece, and says how many. 0 for a piece that
    /// isn't empty is the end.
    fn next(&mut self, piece: &mut [u8]) -> Result<usize, Failed>
        ensures size { length piece.new ≡ length piece.old }
        ensures within { IfOk result (λ n. n ≤ length piece.old) }
        ensures taken { IfOk result (λ n. Takes n piece.new (left self.old) (left self.new)) }
        ensures end { IfOk result (λ n. n ≡ 0 → 0 < length piece.old
            → IfSome (left self.old) (λ bytes. bytes ≡ [])) }
        ensures kept { OnErr result (left self.new ≡ left self.old) }
        ensures faults { HasCause (faults self.old) (faults self.new) result };

    ghost faults_fit: { (source : Self) → faults source < 2 ^ 64 };
}
