//! The end of a scan or a dump: how it ended, and the line of the totals.
ghost use Rattle.std.specs.Prelude.{◌≡◌, ◌≤◌, ◌^◌, ◌⊎◌, Ok, false, IfErr, IfOk, OnOk};
ghost use Rattle.byte_devices.specs.Bytes.{Puts};
ghost use Rattle.byte_devices.specs.Faults.{Rose};
ghost use Rattle.text_window.specs.Texts.{is_output};
ghost use Rattle.page_jobs.specs.declared.ending.JobError.TheVariants.{Memory, OutFault};
ghost use Rattle.page_jobs.specs.Dealt.{AllDone, AnyEnds, EndsAsStopper, EndsFirst, PutsEnd};
ghost use Rattle.page_jobs.specs.Dealt.{PutsNoEnd, TotalsAreInRange, job_totals};
ghost use Rattle.page_jobs.specs.Ending.{as_done, totals_of_scan};
ghost use Rattle.page_jobs.specs.Printed.{totals_line};

use crate::ending::{JobError, Totals};
use crate::listing::Lister;
use crate::working::Worker;
use byte_devices::{Failed, Sink};
use page_layout::ScanTotals;
use std::alloc::Global;
use std::sync::ledger::Ledger;
use text_window::{Naming, Stop};

/// Why the first of the workers that failed ended.
pub(crate) fn first_fault<K>(workers: &[Worker<K>]) -> Result<(), JobError>
    ensures done { OnOk result (AllDone workers.now) }
    ensures cause { IfErr result (λ e. EndsFirst e workers.now) }
{
    for worker in workers {
        worker.end?;
    }
    Ok(())
}

/// How the worker that stopped the job ended, if a worker did.
fn end_of_stopper<K>(workers: &[Worker<K>], stopped_by: Option<u32>) -> Result<(), JobError>
    ensures stopper { EndsAsStopper stopped_by workers.now result }
    ensures cause { IfErr result (λ e. AnyEnds e workers.now) }
{
    match stopped_by {
        Some(number) => match workers.get(number as usize) {
            Some(worker) => worker.end,
            None => Ok(()),
        },
        None => Ok(()),
    }
}

/// How the workers ended: as the one that stopped the job, or else as the first that failed. A
/// worker that another one stopped ends as out of memory, which isn't why the job ends.
pub(crate) fn end_of_workers<K>(
    workers: &[Worker<K>],
    stopped_by: Option<u32>,
) -> Result<(), JobError>
    ensures done { OnOk result (AllDone workers.now) }
    ensures stopper { EndsAsStopper stopped_by workers.now result }
    ensures cause { IfErr result (λ e. AnyEnds e workers.now) }
{
    end_of_stopper(workers, stopped_by)?;
    first_fault(workers)
}

/// The totals of all workers.
pub(crate) fn sum_totals<N: Naming, A: Ledger>(workers: &[Worker<Lister<N, A>>]) -> ScanTotals
    requires counts { TotalsAreInRange workers.now }
    requires few { (job_totals workers.now).blocks ≤ 2 ^ 40 }
    ensures { result ≡ job_totals workers.now }
{
    let mut totals = ScanTotals::none();
    for worker in workers {
        totals.add(&worker.task.printed.totals);
    }
    totals
}

/// Puts the line of the totals.
fn put_totals<O: Sink>(alloc: Global, totals: ScanTotals, out: &mut O) -> Result<(), JobError>
    ensures text { Puts (totals_line totals) (O.bytes out.old) (O.bytes out.new) result }
    ensures later { O.faults out.old ≤ O.faults out.new }
    ensures ok { OnOk result (O.faults out.new ≡ O.faults out.old) }
    ensures cause { IfErr result (λ e. ((e ≡ Memory) × (O.faults out.new ≡ O.faults out.old))
        ⊎ ((e ≡ OutFault) × Rose (O.faults out.old) (O.faults out.new))) }
{
    let line = format!(in alloc; "{totals}\n")?;
    if let Err(Failed) = out.put(line.as_bytes()) {
        return Err(JobError::OutFault);
    }
    Ok(())
}

/// Ends a job: as its output failed; or as a worker did; or as the work beside them; or else with
/// its totals, whose line is put.
pub(crate) fn put_end<O: Sink>(
    alloc: Global,
    stop: Option<Stop>,
    worked: Result<(), JobError>,
    beside_end: Result<(), JobError>,
    totals: ScanTotals,
    out: &mut O,
) -> Result<Totals, JobError>
    ensures text { PutsEnd (is_output stop) worked beside_end totals
        (O.bytes out.old) (O.bytes out.new) (as_done result) }
    ensures done { OnOk result ((is_output stop ≡ false) × (worked ≡ Ok tt) × (beside_end ≡ Ok tt)
        × (O.faults out.new ≡ O.faults out.old)) }
    ensures totals { IfOk result (λ t. t ≡ totals_of_scan totals) }
    ensures later { O.faults out.old ≤ O.faults out.new }
    ensures cause { IfErr result (λ e. PutsNoEnd (is_output stop) worked beside_end
        (O.faults out.old) (O.faults out.new) e) }
{
    if let Some(Stop::Output) = stop {
        return Err(JobError::OutFault);
    }
    worked?;
    beside_end?;
    put_totals(alloc, totals, out)?;
    Ok(Totals::of_scan(totals))
}
