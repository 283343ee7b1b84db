//! The host: relations and logs by their paths.
ghost use Rattle.std.specs.Prelude.{◌≡◌, ◌≢◌, ℕ, ◌+◌, ◌<◌, ◌≤◌, ◌^◌, List, [], Option, IfOk};
ghost use Rattle.std.specs.Prelude.{IfSome, IsErrOf, IsSome, MatchResult, map, option_map, sum_by};
ghost use Rattle.std.specs.Option.{option_map_or};
ghost use Rattle.byte_devices.specs.Faults.{Added};
ghost use Rattle.segment_store.specs.Faults.{HasOpeningCause};
ghost use Rattle.segment_store.specs.Growth.{paths_given};
ghost use Rattle.segment_store.specs.Logs.{HasLogCause, IsOpenedLog, IsOpenedSource, Logs};
ghost use Rattle.segment_store.specs.Logs.{empty_log, given_log, logs_after, with_log};
ghost use Rattle.segment_store.specs.Opening.{IsOpened};
ghost use Rattle.segment_store.specs.Paths.{OpenAt, PathMarks, Paths, fork_of};
ghost use Rattle.segment_store.specs.Restored.{cleared, marks_after};

use crate::device::BlockLane;
use byte_devices::{LogDevice, Source};
use std::alloc::Global;
use thiserror::Error;

/// A relation that is open: how many blocks it has, and its lanes.
#[derive(Drop)]
pub struct Opened<L> {
    pub blocks: u32,
    pub lanes: Vec<L>,
}

/// Why a path isn't open.
#[derive(Clone, Copy, PartialEq, Eq, Debug, Error)]
pub enum HostError {
    #[error("nothing is there")]
    Missing,
    #[error("the host failed")]
    Failed,
    #[error("out of memory")]
    Memory,
}

/// Why a log isn't open.
#[derive(Clone, Copy, PartialEq, Eq, Debug, Error)]
pub enum LogOpen {
    #[error("the host failed")]
    Failed,
    #[error("out of memory")]
    Memory,
}

/// Relations by their paths, each a list of segments, as PostgreSQL's `md.c` keeps them, and logs
/// by theirs.
///
/// A count of faults never falls, and rises only in an opening that fails, or in `give_back` by
/// those of the lanes, of the log and of the source.
pub trait Host {
    type Lane: BlockLane + Send;

    type Log: LogDevice + Send;

    type Source: Source;

    /// The bytes of the segments at each path, if the contents are known; none if the relation
    /// isn't there.
    ghost contents: { Self → Option Paths };

    /// The blocks of each path whose last write since the opening failed; it says something only if
    /// the contents are known.
    ghost failed_writes: { Self → PathMarks };

    /// The relation that was opened last; it says something only if the contents are known.
    ghost open_at: { Self → OpenAt };

    /// How many blocks the relation at a path may have, by how many each segment may have;
    /// it says something only if the contents are known.
    ghost room: { Self → List ℕ → ℕ → ℕ };

    /// The logs at their paths, if they are known.
    ghost logs: { Self → Option Logs };

    /// The path of the log that was opened last; it says something only if the logs are known.
    ghost log_at: { Self → List ℕ };

    /// How many openings of relations and of sources failed, and reads of lanes and of sources that
    /// were given back.
    ghost read_faults: { Self → ℕ };

    /// How many writes and syncs failed of lanes that were given back.
    ghost write_faults: { Self → ℕ };

    /// How many openings of logs failed, and calls of logs that were given back.
    ghost log_faults: { Self → ℕ };

    /// Opens the relation at a path, whose segments have up to `seg_blocks` blocks, as `lanes`
    /// lanes.
    /// They may have room for blocks past its end, as far as the relation may grow.
    /// `Missing` comes only if the first segment isn't there, and `Ok` never does then.
    fn relation(
        &mut self,
        alloc: Global,
        path: &str,
        seg_blocks: u32,
        lanes: u32,
    ) -> Result<Opened<Self::Lane>, HostError>
        requires seg_blocks { 1 ≤ seg_blocks }
        requires lanes { 1 ≤ lanes }
        ensures opened { IfOk result (IsOpened
            Self.Lane.contents Self.Lane.failed_writes Self.Lane.unsynced Self.Lane.room
            Self.Lane.read_faults Self.Lane.write_faults
            (contents self.old) (room self.old path.now seg_blocks)
            path.now (fork_of path.now) seg_blocks lanes) }
        ensures missing { IsErrOf result HostError.Missing
            → IfSome (contents self.old) (λ paths. paths path.now ≡ []) }
        ensures contents { contents self.new ≡ contents self.old }
        ensures failed { IfSome (contents self.old) (λ _.
            MatchResult result (λ _. failed_writes self.new
            ≡ cleared path.now (failed_writes self.old))
            (λ _. failed_writes self.new ≡ failed_writes self.old)) }
        ensures open_at { IfSome (contents self.old) (λ _.
            MatchResult result (λ _. open_at self.new
            ≡ record { path = path.now; seg_blocks = seg_blocks })
            (λ _. open_at self.new ≡ open_at self.old)) }
        ensures room { room self.new ≡ room self.old }
        ensures logs { logs self.new ≡ logs self.old }
        ensures log_at { IfSome (logs self.old) (λ _. log_at self.new ≡ log_at self.old) }
        ensures reads { HasOpeningCause (read_faults self.old) (read_faults self.new) result }
        ensures writes { write_faults self.new ≡ write_faults self.old }
        ensures log_faults { log_faults self.new ≡ log_faults self.old };

    /// Opens an empty log at a path: it is created, or emptied if it exists. A refusal leaves the
    /// logs as they were.
    fn log(&mut self, alloc: Global, path: &str) -> Result<Self::Log, LogOpen>
        ensures opened { IfOk result (IsOpenedLog Self.Log.bytes Self.Log.synced Self.Log.faults
            (logs self.old)) }
        ensures logs { MatchResult result (λ _. logs self.new
            ≡ option_map (with_log path.now empty_log) (logs self.old))
            (λ _. logs self.new ≡ logs self.old) }
        ensures log_at { IfSome (logs self.old) (λ _. MatchResult result
            (λ _. log_at self.new ≡ path.now) (λ _. log_at self.new ≡ log_at self.old)) }
        ensures log_faults { HasLogCause (log_faults self.old) (log_faults self.new) result }
        ensures contents { contents self.new ≡ contents self.old }
        ensures failed { IfSome (contents self.old) (λ _.
            failed_writes self.new ≡ failed_writes self.old) }
        ensures open_at { IfSome (contents self.old) (λ _. open_at self.new ≡ open_at self.old) }
        ensures room { room self.new ≡ room self.old }
        ensures reads { read_faults self.new ≡ read_faults self.old }
        ensures writes { write_faults self.new ≡ write_faults self.old };

    /// Opens what is at a log's path for reading, from its first byte on; it stays as it is.
    /// `Missing` comes only if nothing is there, and `Ok` never does then.
    fn bytes(&mut self, alloc: Global, path: &str) -> Result<Self::Source, HostError>
        ensures opened { IfOk result (IsOpenedSource Self.Source.left Self.Source.faults
            (logs self.old) path.now) }
        ensures missing { IsErrOf result HostError.Missing
            → IfSome (logs self.old) (λ logs. logs path.now ≡ None) }
        ensures reads { HasOpeningCause (read_faults self.old) (read_faults self.new) result }
        ensures contents { contents self.new ≡ contents self.old }
        ensures failed { IfSome (contents self.old) (λ _.
            failed_writes self.new ≡ failed_writes self.old) }
        ensures open_at { IfSome (contents self.old) (λ _. open_at self.new ≡ open_at self.old) }
        ensures room { room self.new ≡ room self.old }
        ensures logs { logs self.new ≡ logs self.old }
        ensures log_at { IfSome (logs self.old) (λ _. log_at self.new ≡ log_at self.old) }
        ensures writes { write_faults self.new ≡ write_faults self.old }
        ensures log_faults { log_faults self.new ≡ log_faults self.old };

    /// Takes back the lanes of the relation that was opened last: their blocks go to their places
    /// in its segments.
    /// Without a source a block past the end is dropped. With one, whose records were redone over
    /// the lanes, the relation grows first, by new pages up to the last block that its lane has;
    /// the source's faults are counted. Takes back the log that was opened last, if one is given:
    /// it stands at its path as it is now.
    fn give_back(
        &mut self,
        lanes: Vec<Self::Lane>,
        log: Option<Self::Log>,
        source: Option<Self::Source>,
    )
        ensures contents { contents self.new ≡ option_map
            (paths_given (room self.old) (open_at self.old) source
            (map Self.Lane.contents lanes.items))
            (contents self.old) }
        ensures failed { IfSome (contents self.old) (λ paths. paths (open_at self.old).path ≢ []
            → failed_writes self.new ≡ marks_after (open_at self.old)
            (map Self.Lane.failed_writes lanes.items) (failed_writes self.old)) }
        ensures open_at { IfSome (contents self.old) (λ _. open_at self.new ≡ open_at self.old) }
        ensures room { room self.new ≡ room self.old }
        ensures logs { logs self.new ≡ option_map (logs_after (log_at self.old)
            (given_log Self.Log.bytes Self.Log.synced log)) (logs self.old) }
        ensures log_at { IfSome (logs self.old) (λ _. log_at self.new ≡ log_at self.old) }
        ensures log_faults { Added (log_faults self.old) (option_map_or Self.Log.faults log 0)
            (log_faults self.new) }
        ensures reads { Added (read_faults self.old) (sum_by Self.Lane.read_faults lanes.items
            + option_map_or Self.Source.faults source 0) (read_faults self.new) }
        ensures writes { Added (write_faults self.old) (sum_by Self.Lane.write_faults lanes.items)
            (write_faults self.new) };

    ghost read_faults_fit: { (host : Self) → read_faults host < 2 ^ 64 };

    ghost write_faults_fit: { (host : Self) → write_faults host < 2 ^ 64 };

    ghost log_faults_fit: { (host : Self) → log_faults host < 2 ^ 64 };

    /// If the logs are known, so are the bytes of each log that the host opens, also after calls to
    /// it.
    /// This is said of every log of the type, since all that is known of the log that a manager
    /// gives back is its type.
    ghost logs_told: { (host : Self) (log : Self.Log) → IfSome (logs host)
        (λ _. IsSome (Self.Log.bytes log)) };

    /// If the logs are known, so are the bytes left of each source that the host opens, also after
    /// calls to it.
    ghost sources_told: { (host : Self) (source : Self.Source)
        → IfSome (logs host) (λ _. IsSome (Self.Source.left source)) };
}
