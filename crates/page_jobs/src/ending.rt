//! How a job ends.
//!
//! A rewrite's error is that of the first worker that failed, in the order of workers and not of
//! time. A scan's is that of the failed put or of the worker that stopped the window, whichever was
//! first. A refusal of the work beside is reported only if nothing else failed; then a scan puts
//! the workers' texts and no totals.
ghost use Rattle.std.specs.Prelude.{◌≡◌};
ghost use Rattle.page_jobs.specs.Ending.{no_job_totals, totals_of_rewrite, totals_of_scan};

use backend_pass::Pass;
use block_tag::Tag;
use page_layout::{Lsn, RewriteTotals, ScanTotals};
use std::alloc::AllocError;
use thiserror::Error;

/// Why a job ended before its end.
#[derive(Clone, Copy, PartialEq, Eq, Debug, Error)]
pub enum JobError {
    /// The lane failed to read the page of this block.
    #[error("a page was not read")]
    ReadFault { tag: Tag },
    /// The lane failed to write the page of this block.
    #[error("a page was not written")]
    WriteFault { tag: Tag },
    /// The log failed, which is down from now on.
    #[error("the log failed")]
    LogFault,
    /// A call of the log failed before; the log ended here.
    #[error("the log is down at {at}")]
    LogDown { at: Lsn },
    /// A page that was to be written is of a position past the log's end.
    #[error("the log ends at {end}, before {lsn}")]
    LogShort { lsn: Lsn, end: Lsn },
    /// A record at the log's end, given here, would pass the last position.
    #[error("the log is full at {end}")]
    LogFull { end: Lsn },
    #[error("the output failed")]
    OutFault,
    #[error("out of memory")]
    Memory,
}

impl From<AllocError> for JobError {
    ghost use Rattle.std.specs.Prelude.{◌≡◌};
    ghost use Rattle.page_jobs.specs.declared.ending.JobError.TheVariants.{Memory};

    ghost from_gives = { λ _ e. e ≡ Memory };

    fn from(_error: AllocError) -> JobError {
        JobError::Memory
    }
}

/// What a job counts of the blocks: of a scan and a dump how many there are of each kind, and how
/// many line pointers of each state the used ones have; of a rewrite what became of them, and how
/// many dead line pointers the changed ones had. What a job doesn't count is 0, and so is all that
/// a load could count.
#[derive(Clone, Copy, PartialEq, Eq, Debug)]
pub struct Totals {
    pub blocks: u64,
    pub used: u64,
    pub new: u64,
    pub invalid: u64,
    pub normal: u64,
    pub redirect: u64,
    pub dead: u64,
    pub unused: u64,
    pub changed: u64,
    pub same: u64,
    pub skipped: u64,
}

impl Totals {
    /// Those of a job that counts nothing.
    pub(crate) fn none() -> Totals
        ensures { result ≡ no_job_totals }
    {
        Totals::of_rewrite(RewriteTotals::none())
    }

    /// The totals of a scan.
    pub(crate) fn of_scan(scan: ScanTotals) -> Totals
        ensures { result ≡ totals_of_scan scan }
    {
        let ScanTotals {
            blocks,
            used,
            new,
            invalid,
            normal,
            redirect,
            dead,
            unused,
        } = scan;
        Totals {
            blocks,
            used,
            new,
            invalid,
            normal,
            redirect,
            dead,
            unused,
            changed: 0,
            same: 0,
            skipped: 0,
        }
    }

    /// The totals of a rewrite.
    pub(crate) fn of_rewrite(rewrite: RewriteTotals) -> Totals
        ensures { result ≡ totals_of_rewrite rewrite }
    {
        let RewriteTotals {
            blocks,
            changed,
            same,
            skipped,
            new,
            invalid,
            dead,
        } = rewrite;
        Totals {
            blocks,
            used: 0,
            new,
            invalid,
            normal: 0,
            redirect: 0,
            dead,
            unused: 0,
            changed,
            same,
            skipped,
        }
    }
}

/// A job's end, with all passes that it was given, in their order.
pub struct JobEnd {
    pub passes: Vec<Pass>,
    pub end: Result<Totals, JobError>,
}
