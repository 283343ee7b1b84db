//! The logs of a host in memory.
ghost use Rattle.std.specs.Prelude.{◌≡◌, [], Some, None, IfOk, IsErrOf, IsSomeAnd};
ghost use Rattle.std.specs.Prelude.{MatchResult, option_map, string_bytes, true, ◌↔◌};
ghost use Rattle.std.specs.List.{position};
ghost use Rattle.std.specs.Str.{bytes_eq};
ghost use Rattle.byte_devices.specs.Faults.{Added};
ghost use Rattle.segment_store.specs.Logs.{CountsOneLogOpening, HasLogCause, empty_log, logs_after};
ghost use Rattle.segment_store.specs.Logs.{with_log};
ghost use Rattle.segment_store.specs.MemoryLog.{all_durable, logs_at, opened_path};
ghost use Rattle.byte_devices.specs.MemorySource.{left_of};
ghost use Rattle.byte_devices.specs.MemoryLog.{appends_of, as_stored, room_of, syncs_of};
ghost use Rattle.byte_devices.specs.Plan.{after_call, fails_next, fresh_plan};

use crate::host::{HostError, LogOpen};
use crate::source_plan::SourcePlan;
use byte_devices::{FaultCount, FaultPlan, LogDevice, LogPlan, MemLog, MemSource};
use std::alloc::{AllocError, Global};

/// A log's path, and the log as it was put or given back last: empty if none was since it was
/// opened.
#[derive(Drop)]
pub struct LogFile {
    path: String,
    log: MemLog,
}

/// The place of the first log with a path.
fn log_index(logs: &[LogFile], path: &str) -> Option<usize>
    ensures { result ≡ position (λ file. bytes_eq (string_bytes file.path) path.now) logs.now }
{
    logs.iter().position(|file| file.path.as_str() == path)
}

/// A log of these bytes, all of them durable.
fn durable_log(alloc: Global, bytes: &[u8]) -> Result<MemLog, AllocError>
    ensures { IfOk result (λ log. as_stored log ≡ all_durable bytes.now) }
{
    let mut log = MemLog::new(alloc, bytes.len(), LogPlan::none(alloc))?;
    let _appended = log.append(bytes);
    let _synced = log.sync();
    Ok(log)
}

/// Logs by their paths, each with room for the same number of bytes.
#[derive(Drop)]
pub struct MemLogs {
    files: Vec<LogFile>,
    room: usize,
    openings: FaultPlan,
    calls: LogPlan,
    sources: SourcePlan,
    open_path: String,
    faults: FaultCount,
}

impl MemLogs {
    /// No logs. Each that is opened has this room; these openings and these calls of each log are
    /// to fail.
    pub fn new(
        alloc: Global,
        room: usize,
        openings: FaultPlan,
        calls: LogPlan,
        sources: SourcePlan,
    ) -> MemLogs
        ensures files { result.files.items ≡ [] }
        ensures room { result.room ≡ room }
        ensures openings { result.openings ≡ openings }
        ensures calls { result.calls ≡ calls }
        ensures sources { result.sources ≡ sources }
        ensures open_path { opened_path result ≡ [] }
        ensures faults { result.faults.count ≡ 0 }
    {
        MemLogs {
            files: Vec::new(alloc),
            room,
            openings,
            calls,
            sources,
            open_path: String::new(alloc),
            faults: FaultCount::new(),
        }
    }

    /// The log at a path, as it was put or given back last.
    pub fn get(&self, path: &str) -> Option<&MemLog>
        ensures { option_map (λ log. as_stored log.now) result
            ≡ logs_at self.now.files.items path.now }
    {
        match log_index(&self.files, path) {
            Some(index) => Some(&self.files[index].log),
            None => None,
        }
    }

    /// Puts a log at a path in the place of what stands there.
    fn place(&mut self, alloc: Global, path: &str, log: MemLog) -> Result<(), AllocError>
        ensures files { MatchResult result (λ _. logs_at self.new.files.items
            ≡ with_log path.now (as_stored log) (logs_at self.old.files.items))
            (λ _. self.new.files.items ≡ self.old.files.items) }
        ensures same { self.new ≡ record self.old { files = self.new.files } }
    {
        if let Some(index) = log_index(&self.files, path) {
            self.files[index].log = log;
            return Ok(());
        }
        let path = String::from_str(alloc, path)?;
        self.files.push(LogFile { path, log })?;
        Ok(())
    }

    /// Puts a log with these bytes, all of them durable, at a path.
    pub fn put(&mut self, alloc: Global, path: &str, bytes: &[u8]) -> Result<(), AllocError>
        ensures files { MatchResult result (λ _. logs_at self.new.files.items
            ≡ with_log path.now (all_durable bytes.now) (logs_at self.old.files.items))
            (λ _. self.new.files.items ≡ self.old.files.items) }
        ensures same { self.new ≡ record self.old { files = self.new.files } }
    {
        let log = durable_log(alloc, bytes)?;
        self.place(alloc, path, log)
    }

    /// Makes an empty log, and has one stand at the path.
    fn make_log(&mut self, alloc: Global, path: &str) -> Result<MemLog, AllocError>
        ensures bytes { IfOk result (λ log. (as_stored log).bytes ≡ []) }
        ensures synced { IfOk result (λ log. (as_stored log).synced ≡ 0) }
        ensures room { IfOk result (λ log. room_of log ≡ self.old.room) }
        ensures appends { IfOk result (λ log. appends_of log ≡ fresh_plan self.old.calls.appends) }
        ensures syncs { IfOk result (λ log. syncs_of log ≡ fresh_plan self.old.calls.syncs) }
        ensures faults { IfOk result (λ log. log.faults.count ≡ 0) }
        ensures files { MatchResult result (λ _. logs_at self.new.files.items
            ≡ with_log path.now empty_log (logs_at self.old.files.items))
            (λ _. self.new.files.items ≡ self.old.files.items) }
        ensures open_path { MatchResult result (λ _. opened_path self.new ≡ path.now)
            (λ _. opened_path self.new ≡ opened_path self.old) }
        ensures same { self.new ≡ record self.old {
          files = self.new.files;
          open_path = self.new.open_path;
        } }
    {
        let calls = self.calls.fresh(alloc)?;
        let log = MemLog::new(alloc, self.room, calls)?;
        let open_path = String::from_str(alloc, path)?;
        self.put(alloc, path, &[])?;
        self.open_path = open_path;
        Ok(log)
    }

    /// Opens an empty log at a path. Fails if the plan says so.
    pub fn open(&mut self, alloc: Global, path: &str) -> Result<MemLog, LogOpen>
        ensures bytes { IfOk result (λ log. (as_stored log).bytes ≡ []) }
        ensures synced { IfOk result (λ log. (as_stored log).synced ≡ 0) }
        ensures room { IfOk result (λ log. room_of log ≡ self.old.room) }
        ensures appends { IfOk result (λ log. appends_of log ≡ fresh_plan self.old.calls.appends) }
        ensures syncs { IfOk result (λ log. syncs_of log ≡ fresh_plan self.old.calls.syncs) }
        ensures faultless { IfOk result (λ log. log.faults.count ≡ 0) }
        ensures files { MatchResult result (λ _. logs_at self.new.files.items
            ≡ with_log path.now empty_log (logs_at self.old.files.items))
            (λ _. self.new.files.items ≡ self.old.files.items) }
        ensures open_path { MatchResult result (λ _. opened_path self.new ≡ path.now)
            (λ _. opened_path self.new ≡ opened_path self.old) }
        ensures fault { IsErrOf result LogOpen.Failed ↔ (fails_next self.old.openings ≡ true) }
        ensures openings { self.new.openings ≡ after_call self.old.openings }
        ensures faults { HasLogCause self.old.faults.count self.new.faults.count result }
        ensures counted { CountsOneLogOpening self.old.faults.count self.new.faults.count result }
        ensures room_stays { self.new.room ≡ self.old.room }
        ensures calls { self.new.calls ≡ self.old.calls }
        ensures sources { self.new.sources ≡ self.old.sources }
    {
        if self.openings.fails() {
            self.faults.raise();
            return Err(LogOpen::Failed);
        }
        match self.make_log(alloc, path) {
            Ok(log) => Ok(log),
            Err(_) => Err(LogOpen::Memory),
        }
    }

    /// Opens the bytes of the log at a path. Fails if the plan says so.
    pub fn source(&mut self, alloc: Global, path: &str) -> Result<MemSource, HostError>
        ensures opened { IfOk result (λ source.
            IsSomeAnd (logs_at self.old.files.items path.now) (λ log. left_of source ≡ log.bytes)) }
        ensures faultless { IfOk result (λ source. source.faults.count ≡ 0) }
        ensures calls { IfOk result (λ source. source.calls ≡ fresh_plan self.old.sources.calls) }
        ensures most { IfOk result (λ source. source.most ≡ self.old.sources.most) }
        ensures missing { IsErrOf result HostError.Missing
            → logs_at self.old.files.items path.now ≡ None }
        ensures fault { IsErrOf result HostError.Failed
            ↔ (fails_next self.old.sources.openings ≡ true) }
        ensures openings { self.new.sources.openings ≡ after_call self.old.sources.openings }
        ensures plan { self.new.sources.calls ≡ self.old.sources.calls }
        ensures most_stays { self.new.sources.most ≡ self.old.sources.most }
        ensures same { self.new ≡ record self.old { sources = self.new.sources } }
    {
        if self.sources.openings.fails() {
            return Err(HostError::Failed);
        }
        let Some(log) = self.get(path) else {
            return Err(HostError::Missing);
        };
        let Ok(bytes) = Vec::from_slice(alloc, log.bytes()) else {
            return Err(HostError::Memory);
        };
        let Ok(calls) = self.sources.calls.fresh(alloc) else {
            return Err(HostError::Memory);
        };
        Ok(MemSource::new(bytes, self.sources.most, calls))
    }

    /// Takes the log that was opened last back, and counts its faults too.
    pub fn take_back(&mut self, log: MemLog)
        ensures files { logs_at self.new.files.items ≡ logs_after (opened_path self.old)
            (Some (as_stored log)) (logs_at self.old.files.items) }
        ensures faults { Added self.old.faults.count log.faults.count self.new.faults.count }
        ensures same { self.new ≡ record self.old {
          files = self.new.files;
          faults = self.new.faults;
        } }
    {
        self.faults.add(log.faults());
        if let Some(index) = log_index(&self.files, &self.open_path) {
            self.files[index].log = log;
        }
    }
}
