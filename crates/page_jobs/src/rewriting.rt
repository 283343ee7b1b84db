//! A worker rewrites a block. All calls of the pass are made here.
//!
//! A worker's outcomes are 'not sound', 'kept', 'refused' or 'changed', one a block, of the pass's
//! chunks in the order in which it claimed them: of all, or of the first blocks. A pass's calls
//! grow by exactly those of the list, so the same definitions cover an early end. A retry reads and
//! puts nothing, so it doesn't show.
//!
//! A pass's mark stays if no put was tried. A refused put may leave its frame dirty, so it sets the
//! mark.
ghost use Rattle.std.specs.Prelude.{◌≡◌, ◌<◌, ◌≤◌, ◌+◌, ◌^◌, [], ◌∷◌, Ok, IfErr, IfOk};
ghost use Rattle.block_tag.specs.Catalogue.{blocks_at};
ghost use Rattle.pin_core.specs.declared.view.Content.TheVariants as content;
ghost use Rattle.buffer_frames.specs.Tokens.{IsPinnedFor, no_tokens, tokens_less};
ghost use Rattle.backend_pass.specs.Locks.{HasLock};
ghost use Rattle.backend_pass.specs.Managers.{Belongs};
ghost use Rattle.page_layout.specs.Outcomes.{IsRewriteWithin, no_rewrite_totals};
ghost use Rattle.frame_table.specs.Seats.{relations_of};
ghost use Rattle.backend_pass.specs.Between.{HasNoTokens};
ghost use Rattle.page_jobs.specs.Reads.{RefusesBlock};
ghost use Rattle.page_jobs.specs.Rewriting.{CountsRewrites, LocksOne, RewritesBlock, RewritesHeld};
ghost use Rattle.page_jobs.specs.Rewriting.{RewritesLocked, fault_of_put};

use crate::ending::JobError;
use crate::gate::Gate;
use crate::job_blocks::JobBlocks;
use crate::reading::{fault_of, pin_with_retries};
use crate::working::{BlockTask, Buffers, JobTask};
use access_rings::{Ring, RingKind};
use backend_pass::{Exclusive, Manager, Pass, PutError, ReadError, Refused};
use block_tag::Tag;
use byte_devices::LogDevice;
use page_layout::{PageRewrite, Rewrite, RewriteTotals, rewritten};
use segment_store::BlockLane;
use std::alloc::{AllocError, Global};
use std::sync::Wait;
use std::thread;

/// Pins a block, and takes its cleanup lock. If another backend waits for that lock, it gives up
/// its pin, which the other one waits for, and tries again.
fn lock_block<L: BlockLane, G: LogDevice, R: Wait>(
    manager: &Manager<L, G>,
    rt: &R,
    pass: &mut Pass,
    tag: Tag,
    ring: &mut Option<Ring>,
) -> Result<Exclusive, ReadError>
    requires free { HasNoTokens L.contents manager.now pass.old }
    requires block { tag.block < blocks_at (relations_of manager.now.table) tag.rel.0 tag.fork }
    ensures locked { IfOk result (LocksOne L.contents manager.now tag pass.old pass.new) }
    ensures refused { IfErr result (RefusesBlock L.contents manager.now tag pass.old pass.new) }
{
    for _ in rt.forever() {
        let pinned = pin_with_retries(manager, rt, pass, tag, ring)?;
        match pass.lock_cleanup(manager, rt, pinned) {
            Ok(exclusive) => return Ok(exclusive),
            Err(Refused { pinned, why: _ }) => pass.release(manager, rt, pinned),
        }
        thread::yield_now();
    }
    unreachable!()
}

/// Reads the page of a block under its cleanup lock, tells the gate of the pin, and puts the
/// rewritten page if that is another one.
fn rewrite_locked<L: BlockLane, G: LogDevice, R: Wait, T: Gate>(
    manager: &Manager<L, G>,
    rt: &R,
    gate: &T,
    worker: u32,
    pass: &mut Pass,
    exclusive: &mut Exclusive,
    buffers: &mut Buffers,
) -> Result<PageRewrite, PutError>
    requires belongs { Belongs L.contents manager.now pass.old }
    requires pinned { IsPinnedFor exclusive.old.pinned.tag exclusive.old.pinned.frame
        pass.old.tokens }
    requires locked { HasLock content.Exclusive exclusive.old.pinned.frame pass.old }
    ensures same { exclusive.new ≡ exclusive.old }
    ensures rewrites { RewritesLocked L.contents manager.now exclusive.old.pinned.tag pass.old
        pass.new result }
{
    let _place = pass.read_exclusive(manager, rt, exclusive, &mut buffers.page);
    gate.seen(worker, exclusive.pinned());
    if buffers.page.is_new() {
        return Ok(PageRewrite::New);
    }
    let what = rewritten(&buffers.page, &mut buffers.after);
    if let Rewrite::Changed { .. } = what {
        let _lsn = pass.put(manager, rt, exclusive, &buffers.after)?;
    }
    Ok(PageRewrite::Used(what))
}

/// The same, and then gives up the lock and the pin.
fn rewrite_held<L: BlockLane, G: LogDevice, R: Wait, T: Gate>(
    manager: &Manager<L, G>,
    rt: &R,
    gate: &T,
    worker: u32,
    pass: &mut Pass,
    mut exclusive: Exclusive,
    buffers: &mut Buffers,
) -> Result<PageRewrite, PutError>
    requires belongs { Belongs L.contents manager.now pass.old }
    requires pinned { IsPinnedFor exclusive.pinned.tag exclusive.pinned.frame pass.old.tokens }
    requires last { tokens_less exclusive.pinned.frame pass.old.tokens ≡ no_tokens }
    requires locked { HasLock content.Exclusive exclusive.pinned.frame pass.old }
    ensures rewrites { RewritesHeld L.contents manager.now exclusive.pinned.tag
        exclusive.pinned.frame pass.old pass.new result }
{
    let answer = rewrite_locked(manager, rt, gate, worker, pass, &mut exclusive, buffers);
    let pinned = pass.unexclusive(manager, exclusive);
    pass.release(manager, rt, pinned);
    answer
}

/// What ends the job if a put was refused for this reason.
fn fault_of_put(why: PutError) -> JobError
    ensures { result ≡ fault_of_put why }
{
    match why {
        PutError::LogFull { end } => JobError::LogFull { end },
        PutError::LogDown { at } => JobError::LogDown { at },
        PutError::LogFault => JobError::LogFault,
    }
}

/// Rewrites a block.
fn rewrite_block<L: BlockLane, G: LogDevice, R: Wait, T: Gate>(
    manager: &Manager<L, G>,
    rt: &R,
    gate: &T,
    worker: u32,
    pass: &mut Pass,
    tag: Tag,
    buffers: &mut Buffers,
) -> Result<PageRewrite, JobError>
    requires free { HasNoTokens L.contents manager.now pass.old }
    requires block { tag.block < blocks_at (relations_of manager.now.table) tag.rel.0 tag.fork }
    ensures rewrites { RewritesBlock L.contents manager.now tag.rel.0 tag.fork tag.block pass.old
        pass.new result }
{
    match lock_block(manager, rt, pass, tag, &mut buffers.ring) {
        Ok(exclusive) => match rewrite_held(manager, rt, gate, worker, pass, exclusive, buffers) {
            Ok(what) => Ok(what),
            Err(why) => Err(fault_of_put(why)),
        },
        Err(why) => match fault_of(why) {
            Some(error) => Err(error),
            None => Ok(PageRewrite::Invalid),
        },
    }
}

/// Blocks are rewritten, and this became of them so far.
#[derive(Drop)]
pub(crate) struct Rewriter {
    pub(crate) totals: RewriteTotals,
}

impl Rewriter {
    /// One that has rewritten none.
    pub(crate) fn none() -> Rewriter
        ensures { result.totals ≡ no_rewrite_totals }
    {
        Rewriter {
            totals: RewriteTotals::none(),
        }
    }
}

impl JobTask for Rewriter {
    ghost begins = { λ _ l. l.totals ≡ no_rewrite_totals };

    ghost deals = { λ _ _. Unit {0} };

    ghost joins = { λ k _ l. l ≡ k };

    fn begin(&mut self, _alloc: Global) -> Rewriter {
        Rewriter::none()
    }

    // What each worker's task counted is added up before.
    fn join(&mut self, _other: Rewriter) {}
}

impl<L: BlockLane, G: LogDevice> BlockTask<L, G, ()> for Rewriter {
    ghost does = { λ m tag p q k l end. CountsRewrites L.contents m tag.rel.0 tag.fork
        (tag.block ∷ []) p q k.totals l.totals end };

    ghost closes = { λ _ _ k l end. (l ≡ k) × (end ≡ Ok tt) };

    ghost opens = { λ _ _ _. Unit {0} };

    ghost fits = { λ k n. IsRewriteWithin k.totals k.totals.blocks
        × (k.totals.blocks + n ≤ 2 ^ 32) };

    fn ring(&self, alloc: Global, _blocks: u32, frames: u32) -> Result<Option<Ring>, AllocError> {
        let ring = Ring::build(alloc, RingKind::Vacuum, frames)?;
        Ok(Some(ring))
    }

    fn work_block<R: Wait, T: Gate>(
        &mut self,
        manager: &Manager<L, G>,
        rt: &R,
        _alloc: Global,
        gate: &T,
        worker: u32,
        pass: &mut Pass,
        tag: Tag,
        buffers: &mut Buffers,
    ) -> Result<(), JobError> {
        let what = rewrite_block(manager, rt, gate, worker, pass, tag, buffers)?;
        self.totals.count(&what);
        Ok(())
    }

    fn end_chunk<R: Wait>(
        &mut self,
        _manager: &Manager<L, G>,
        _rt: &R,
        _shared: &(),
        _blocks: &JobBlocks,
        _chunk: u32,
        _pass: &Pass,
    ) -> Result<(), JobError> {
        Ok(())
    }

    // Nothing is put in order here, so the others go on.
    fn stop<R: Wait>(&self, _rt: &R, _shared: &(), _worker: u32) {}
}
