//! Loads: listed blocks are read into the pool, and copied nowhere (`pg_prewarm`).
//!
//! A load uses no ring, so a block may stay in any frame that was free or whose block was evicted.
//! It sets no pass's mark.
ghost use Rattle.std.specs.Prelude.{◌≡◌, ◌<◌, ◌≤◌, ◌⊎◌, ◌^◌, All, Err, IfErr, IfOk, Ok, OnOk};
ghost use Rattle.std.specs.Prelude.{length, vec_len};
ghost use Rattle.backend_pass.specs.Between.{HasNoTokens};
ghost use Rattle.page_jobs.specs.Beside.{LastDid, StaysBeside};
ghost use Rattle.page_jobs.specs.Completeness.{IsDoneOrMemory, IsDoneShortOrMemory};
ghost use Rattle.page_jobs.specs.Completeness.{NoDeviceFailsIn, NothingFailsIn};
ghost use Rattle.page_jobs.specs.Dealt.{AllDone, EndsFirst};
ghost use Rattle.page_jobs.specs.Ending.{no_job_totals};
ghost use Rattle.page_jobs.specs.JobBlocks.{IsInside};
ghost use Rattle.page_jobs.specs.Jobs.{FoundMoreIn, HaveNoTokens, workers_in};
ghost use Rattle.page_jobs.specs.Loads.{EndsLoad, LoadsAll, LoadsBlock, LoadsParts, MarksStay};
ghost use Rattle.page_jobs.specs.Relations.{MeetNothing};

use crate::beside::Beside;
use crate::ending::{JobEnd, JobError, Totals};
use crate::gate::Gate;
use crate::job_blocks::JobBlocks;
use crate::puts::first_fault;
use crate::reading::{fault_of, pin_with_retries};
use crate::running::run_job;
use crate::working::{BlockTask, Buffers, JobTask, Worker};
use access_rings::Ring;
use backend_pass::{Manager, Pass};
use block_tag::Tag;
use byte_devices::LogDevice;
use segment_store::BlockLane;
use std::alloc::{AllocError, Global};
use std::sync::Wait;
use std::thread::Threads;

/// Reads a block, tells the gate of the pin, and gives it up at once; or finds that the block's
/// page isn't sound.
fn load_block<L: BlockLane, G: LogDevice, R: Wait, T: Gate>(
    manager: &Manager<L, G>,
    rt: &R,
    gate: &T,
    worker: u32,
    pass: &mut Pass,
    tag: Tag,
) -> Result<(), JobError>
    requires free { HasNoTokens L.contents manager.now pass.old }
    requires block { IsInside manager.now tag }
    ensures loads { LoadsBlock L.contents manager.now tag pass.old pass.new result }
{
    match pin_with_retries(manager, rt, pass, tag, &mut None) {
        Ok(pinned) => {
            gate.seen(worker, &pinned);
            pass.release(manager, rt, pinned);
            Ok(())
        }
        Err(why) => match fault_of(why) {
            Some(error) => Err(error),
            None => Ok(()),
        },
    }
}

/// Blocks are loaded. There is nothing to count or to put in order.
#[derive(Drop)]
pub(crate) struct Loader;

impl JobTask for Loader {
    ghost begins = { λ _ _. Unit {0} };

    ghost deals = { λ _ _. Unit {0} };

    ghost joins = { λ _ _ _. Unit {0} };

    fn begin(&mut self, _alloc: Global) -> Loader {
        Loader
    }

    fn join(&mut self, _other: Loader) {}
}

impl<L: BlockLane, G: LogDevice> BlockTask<L, G, ()> for Loader {
    ghost does = { λ m tag p q _ _ end. LoadsBlock L.contents m tag p q end };

    ghost closes = { λ _ _ _ _ end. end ≡ Ok tt };

    ghost opens = { λ _ _ _. Unit {0} };

    ghost fits = { λ _ _. Unit {0} };

    fn ring(&self, _alloc: Global, _blocks: u32, _frames: u32) -> Result<Option<Ring>, AllocError> {
        Ok(None)
    }

    fn work_block<R: Wait, T: Gate>(
        &mut self,
        manager: &Manager<L, G>,
        rt: &R,
        _alloc: Global,
        gate: &T,
        worker: u32,
        pass: &mut Pass,
        tag: Tag,
        _buffers: &mut Buffers,
    ) -> Result<(), JobError> {
        load_block(manager, rt, gate, worker, pass, tag)
    }

    fn end_chunk<R: Wait>(
        &mut self,
        _manager: &Manager<L, G>,
        _rt: &R,
        _shared: &(),
        _blocks: &JobBlocks,
        _chunk: u32,
        _pass: &Pass,
    ) -> Result<(), JobError> {
        Ok(())
    }

    // The others go on.
    fn stop<R: Wait>(&self, _rt: &R, _shared: &(), _worker: u32) {}
}

/// How a load ends: well, with nothing counted; or as the first of the workers that failed; or, if
/// none did, as the work beside them.
fn end_load(
    workers: &[Worker<Loader>],
    beside_end: Result<(), JobError>,
) -> Result<Totals, JobError>
    ensures done { OnOk result (AllDone workers.now) }
    ensures beside { OnOk result (beside_end ≡ Ok tt) }
    ensures totals { IfOk result (λ totals. totals ≡ no_job_totals) }
    ensures cause { IfErr result
        (λ e. EndsFirst e workers.now ⊎ (AllDone workers.now × (beside_end ≡ Err e))) }
{
    first_fault(workers)?;
    beside_end?;
    Ok(Totals::none())
}

/// Loads the listed blocks: each is read, and released at once; one whose page isn't sound is
/// passed over. All passes are given, of which all but the last work, each on the chunks of eight
/// blocks of the list that it claims, and the last one does other work beside them; all are given
/// back. A block that is listed twice is read twice.
pub fn load<
    L: BlockLane + Send,
    G: LogDevice + Send,
    R: Threads + Wait + Sync,
    T: Gate + Sync,
    B: Beside<L, G>,
>(
    manager: &Manager<L, G>,
    rt: &R,
    alloc: Global,
    passes: Vec<Pass>,
    tags: &[Tag],
    gate: &T,
    beside: &mut B,
) -> JobEnd
    requires several { 2 ≤ vec_len passes }
    requires few { vec_len passes ≤ 64 }
    requires free { HaveNoTokens L.contents manager.now passes.items }
    requires short { length tags.now < 2 ^ 32 }
    requires inside { All (IsInside manager.now) tags.now }
    ensures passes { LoadsParts L.contents manager.now tags.now (workers_in passes.items)
        (workers_in result.passes.items) }
    ensures last { StaysBeside L.contents manager.now passes.items result.passes.items }
    ensures marks { MarksStay passes.items result.passes.items }
    ensures met { OnOk result.end (MeetNothing passes.items result.passes.items) }
    ensures beside { OnOk result.end
        (LastDid (λ p q. B.works manager.now beside.old beside.new p q (Ok tt)) passes.items
        result.passes.items) }
    ensures done { OnOk result.end
        (LoadsAll L.contents manager.now tags.now (workers_in passes.items)
        (workers_in result.passes.items)) }
    // The hits and reads of the passes that work are one for each listed block.
    ensures found { OnOk result.end
        (FoundMoreIn (length tags.now) (workers_in passes.items)
        (workers_in result.passes.items)) }
    ensures totals { IfOk result.end (λ totals. totals ≡ no_job_totals) }
    ensures cause { IfErr result.end
        (EndsLoad L.contents manager.now tags.now passes.items result.passes.items) }
    // If no device fails for any of the passes, it ends well, out of memory, or at a page past the
    // log's end.
    ensures short { NoDeviceFailsIn passes.items result.passes.items
        → IsDoneShortOrMemory result.end }
    ensures complete { NothingFailsIn L.contents manager.now passes.items result.passes.items
        → IsDoneOrMemory result.end }
{
    let blocks = JobBlocks::Tags(tags);
    let mut task = Loader;
    match run_job(
        manager,
        rt,
        alloc,
        passes,
        &blocks,
        &mut task,
        &(),
        gate,
        beside,
    ) {
        Ok(ran) => {
            let end = end_load(&ran.workers, ran.beside_end);
            let passes = ran.give_back(&mut task);
            JobEnd { passes, end }
        }
        Err(passes) => JobEnd {
            passes,
            end: Err(JobError::Memory),
        },
    }
}
