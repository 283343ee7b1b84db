//! Work beside the workers of a job.
ghost use Rattle.std.specs.Prelude.{◌≡◌, Result, Ok, IfErr, IsOk, OnOk};
ghost use Rattle.backend_pass.specs.declared.errors.FlushError.{FlushError};
ghost use Rattle.backend_pass.specs.declared.manager.Manager.{Manager};
ghost use Rattle.backend_pass.specs.FrameFlushes.{RefusesFrame};
ghost use Rattle.backend_pass.specs.Managers.{Belongs};
ghost use Rattle.backend_pass.specs.Passes.{KeepsCallers, KeepsMark, PassState, SamePass};
ghost use Rattle.backend_pass.specs.Reading.{NothingFails};
ghost use Rattle.page_jobs.specs.Beside.{EndsBeside, fault_of_flush};
ghost use Rattle.backend_pass.specs.Between.{HasNoTokens};

use crate::ending::JobError;
use backend_pass::{FlushError, Manager, Pass};
use byte_devices::LogDevice;
use segment_store::BlockLane;
use std::sync::Wait;

/// What the last pass of a job does while the others work on the blocks, as rounds of a background
/// writer are.
pub trait Beside<L: BlockLane, G: LogDevice> {
    // What its work did, between two states of it and of the pass, and how that ended.
    // A refusal because the log is down, or a page is past its end, raises no count of faults; so
    // if no call failed there may be one still. A job that is Ok says that this work was Ok.
    ghost works: { Manager L G → Self → Self → PassState → PassState → Result Unit FlushError
        → Type 0 };

    /// Works with the pass, once for a job. It may write pages that are dirty; it reads and puts
    /// none.
    fn work<R: Wait>(
        &mut self,
        manager: &Manager<L, G>,
        rt: &R,
        pass: &mut Pass,
    ) -> Result<(), FlushError>
        requires free { HasNoTokens L.contents manager.now pass.old }
        ensures works { works manager.now self.old self.new pass.old pass.new result }
        ensures belongs { Belongs L.contents manager.now pass.new }
        ensures same { SamePass pass.old pass.new }
        ensures callers { KeepsCallers pass.old pass.new }
        ensures mark { KeepsMark pass.old pass.new }
        ensures met { OnOk result (pass.new.view.met ≡ pass.old.view.met) }
        ensures cause { IfErr result (RefusesFrame L.contents manager.now.table pass.old pass.new) }

        // It ends if the log isn't down, no call fails, and no page has a position past the log's
        // end.
        ensures complete { NothingFails L.contents manager.now.table pass.old pass.new
            → IsOk result };
}

/// No work.
#[derive(Drop)]
pub struct NoBeside;

impl<L: BlockLane, G: LogDevice> Beside<L, G> for NoBeside {
    ghost works = { λ _ _ _ p q end. (q ≡ p) × (end ≡ Ok tt) };

    fn work<R: Wait>(
        &mut self,
        _manager: &Manager<L, G>,
        _rt: &R,
        _pass: &mut Pass,
    ) -> Result<(), FlushError> {
        Ok(())
    }
}

/// What ends a job whose work beside the workers was refused for this reason.
fn fault_of_flush(why: FlushError) -> JobError
    ensures { result ≡ fault_of_flush why }
{
    match why {
        FlushError::WriteFault { tag } => JobError::WriteFault { tag },
        FlushError::LogFault => JobError::LogFault,
        FlushError::LogDown { at } => JobError::LogDown { at },
        FlushError::LogShort { lsn, end } => JobError::LogShort { lsn, end },
    }
}

/// The last pass works, and its end is one of the job's.
pub(crate) fn work_last<L: BlockLane, G: LogDevice, R: Wait, B: Beside<L, G>>(
    manager: &Manager<L, G>,
    rt: &R,
    last: &mut Pass,
    beside: &mut B,
) -> Result<(), JobError>
    requires free { HasNoTokens L.contents manager.now last.old }
    ensures ends { EndsBeside L.contents manager.now last.old last.new result }
    ensures works { OnOk result
        (B.works manager.now beside.old beside.new last.old last.new (Ok tt)) }
{
    match beside.work(manager, rt, last) {
        Ok(()) => Ok(()),
        Err(why) => Err(fault_of_flush(why)),
    }
}
