//! What holds of the log that bytes are read as, whatever a crash left of them.
ghost use Rattle.log_recovery.specs.Crash.{CrashesRecover, SurvivorsAreRead};
ghost use Rattle.log_recovery.specs.Laws.{ArePartsOf, AreLeftRead, AreLogs, AreReadBack};
ghost use Rattle.log_recovery.specs.Laws.{AreReadOnce, AreReadSomehow, IsCompleted, IsOneLog};
ghost use Rattle.log_recovery.specs.Laws.{IsRedoneOnce, LogsAreLeft, LogsAreReadBack};
ghost use Rattle.log_recovery.specs.Laws.{PagesAreSettled};

use segment_store::BlockLane;

/// Bytes are read as at most one log, which is one of whole pages.
pub fn logs_are_read_once()
    ensures once { AreReadOnce }
    ensures one { IsOneLog }
    ensures logs { AreLogs }
{}

/// A log's bytes are read back as the log, whatever shorter than a record follows them.
pub fn written_logs_are_read()
    ensures entries { AreReadBack }
    ensures logs { LogsAreReadBack }
{}

/// A beginning of a log's bytes is read as its first entries, or as all and one more; after a crash
/// they survive.
pub fn crashes_leave_logs()
    ensures entries { AreLeftRead }
    ensures logs { LogsAreLeft }
    ensures survive { SurvivorsAreRead }
{}

/// After a crash redo of what is read of the log gives each block that can be redone its page after
/// these entries, but for excepted blocks.
pub fn crashes_are_recovered()
    ensures { CrashesRecover }
{}

/// Redo after redo, or after a part of one, is redo.
pub fn recovered_twice()
    ensures settled { PagesAreSettled }
    ensures same { IsRedoneOnce }
    ensures completed { IsCompleted }
{}

/// What a recovery leaves that ended before its end agrees with what was there, but for blocks of
/// the log.
pub fn parts_agree_elsewhere<L: BlockLane>()
    ensures { ArePartsOf L.contents L.failed_writes }
{}

/// Bytes that don't begin with a bad head are read as some log.
pub fn any_bytes_are_read()
    ensures { AreReadSomehow }
{}
