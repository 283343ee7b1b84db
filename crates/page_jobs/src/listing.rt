//! What a scan or a dump does with a block.
//!
//! A worker that fails stops the window, as a failed put does; the first reason stays. The reason
//! is the worker's number, since under the lock nothing ties an error to a pass. The others find
//! out when they deliver their next text, drop it and end as out of memory, the one answer that
//! needs no cause. A rewrite prints nothing until its end, so its workers don't stop each other.
ghost use Rattle.std.specs.Prelude.{◌≡◌, ◌+◌, ◌<◌, ◌≤◌, ◌/◌, ◌^◌, [], ◌∷◌, IfOk, is_some, nat_lt};
ghost use Rattle.page_layout.specs.Scan.{IsWithin, no_totals};
ghost use Rattle.text_window.specs.Shares.{HoldsParts, IsMerged, KeepsParts};
ghost use Rattle.page_jobs.specs.ChunkTexts.{ClosesText, HasDelivered, OpensBlocks};
ghost use Rattle.page_jobs.specs.Parts.{ListsBlocks};

use crate::ending::JobError;
use crate::gate::Gate;
use crate::job_blocks::JobBlocks;
use crate::printing::{Lines, Printed};
use crate::reading::copy_if_sound;
use crate::working::{BlockTask, Buffers, JobTask};
use access_rings::{Ring, RingKind};
use backend_pass::{Manager, Pass};
use block_tag::Tag;
use byte_devices::{LogDevice, Sink};
use page_layout::Lsn;
use segment_store::BlockLane;
use std::alloc::{AllocError, Global};
use std::sync::ledger::Ledger;
use std::sync::{Mutex, Wait};
use std::thread;
use text_window::{Delivery, Naming, Shares, Window};

/// Blocks are read and printed: what is printed of the chunk that is read now, the totals so far,
/// and the worker's shares of what it delivered.
#[derive(Drop)]
pub(crate) struct Lister<N: Naming, A: Ledger> {
    pub(crate) lines: Lines,
    pub(crate) printed: Printed,
    pub(crate) shares: Shares<N, A>,
}

/// A ring if there are more blocks than a quarter of the frames (`initscan`).
fn ring_for(alloc: Global, blocks: u32, frames: u32) -> Result<Option<Ring>, AllocError>
    requires { (16 ≤ frames) × (frames ≤ 4096) }
    ensures { IfOk result (λ ring. is_some ring ≡ nat_lt (frames / 4) blocks) }
{
    if blocks <= frames / 4 {
        return Ok(None);
    }
    let ring = Ring::build(alloc, RingKind::BulkRead, frames)?;
    Ok(Some(ring))
}

impl<N: Naming, A: Ledger> Lister<N, A> {
    /// A lister that has printed nothing.
    pub(crate) fn of(alloc: Global, lines: Lines, shares: Shares<N, A>) -> Lister<N, A>
        ensures lines { result.lines ≡ lines }
        ensures text { result.printed.text.items ≡ [] }
        ensures totals { result.printed.totals ≡ no_totals }
        ensures shares { result.shares ≡ shares }
    {
        Lister {
            lines,
            printed: Printed::none(alloc),
            shares,
        }
    }
}

/// Delivers the text of a chunk to the window, and waits while the window has no room for it; or
/// finds that the job has stopped.
fn deliver_text<N: Naming, A: Ledger, O: Sink, R: Wait>(
    rt: &R,
    window: &Mutex<Window<N, A, O>>,
    chunk: u32,
    place: Lsn,
    text: &mut Vec<u8>,
    shares: &mut Shares<N, A>,
) -> Result<(), JobError>
    requires chunk { chunk < N.job.chunks }
    requires text { N.texts place chunk text.old.items }
    requires parts { (0 < shares.old.delivered.parts) × (0 < shares.old.above.parts) }
    ensures parts { KeepsParts shares.old shares.new }
    ensures delivered { HasDelivered shares.old.delivered.amount shares.new.delivered.amount
        result }
    ensures above { place ≤ N.job.base → shares.new.above.amount ≡ shares.old.above.amount }
{
    for _ in rt.forever() {
        // The lock is released before the pause.
        let delivery = window.lock(rt).deliver(chunk, place, text, shares);
        match delivery {
            Delivery::Delivered => return Ok(()),
            // The window has the reason. This error ends the worker, and not the job.
            Delivery::Stopped => return Err(JobError::Memory),
            Delivery::Later => {}
        }
        thread::yield_now();
    }
    unreachable!()
}

impl<N: Naming, A: Ledger> JobTask for Lister<N, A> {
    ghost begins = { λ k l. (l.lines ≡ k.lines) × (l.printed.text.items ≡ [])
        × (l.printed.totals ≡ no_totals) × HoldsParts 1 l.shares };

    ghost deals = { λ n k. HoldsParts n k.shares };

    ghost joins = { λ k other l. IsMerged k.shares other.shares l.shares };

    fn begin(&mut self, alloc: Global) -> Lister<N, A> {
        Lister::of(alloc, self.lines, self.shares.split())
    }

    fn join(&mut self, other: Lister<N, A>) {
        let Lister {
            lines: _,
            printed: _,
            shares,
        } = other;
        self.shares.merge(shares);
    }
}

impl<L: BlockLane, G: LogDevice, N: Naming, A: Ledger, O: Sink> BlockTask<
    L,
    G,
    Mutex<Window<N, A, O>>,
> for Lister<N, A> {
    ghost does = { λ m tag p q k l end. (l.lines ≡ k.lines) × (l.shares ≡ k.shares)
        × ListsBlocks L.contents m tag.rel.0 tag.fork k.lines (tag.block ∷ []) p q k.printed.text.items l.printed.text.items k.printed.totals l.printed.totals end };

    ghost closes = { λ _ q k l end. ClosesText N.job.base q.view.front k l end };

    ghost opens = { λ m blocks k. OpensBlocks L.contents m blocks N.texts N.job k };

    ghost fits = { λ k n. IsWithin k.printed.totals k.printed.totals.blocks
        × (k.printed.totals.blocks + n ≤ 2 ^ 32) };

    fn ring(&self, alloc: Global, blocks: u32, frames: u32) -> Result<Option<Ring>, AllocError> {
        ring_for(alloc, blocks, frames)
    }

    fn work_block<R: Wait, T: Gate>(
        &mut self,
        manager: &Manager<L, G>,
        rt: &R,
        alloc: Global,
        gate: &T,
        worker: u32,
        pass: &mut Pass,
        tag: Tag,
        buffers: &mut Buffers,
    ) -> Result<(), JobError> {
        let found = copy_if_sound(
            manager,
            rt,
            gate,
            worker,
            pass,
            tag,
            &mut buffers.ring,
            &mut buffers.page,
        )?;
        self.printed
            .add(alloc, self.lines, tag.block, &found, &buffers.page)?;
        Ok(())
    }

    fn end_chunk<R: Wait>(
        &mut self,
        _manager: &Manager<L, G>,
        rt: &R,
        shared: &Mutex<Window<N, A, O>>,
        _blocks: &JobBlocks,
        chunk: u32,
        pass: &Pass,
    ) -> Result<(), JobError> {
        let place = pass.front();
        deliver_text(
            rt,
            shared,
            chunk,
            place,
            &mut self.printed.text,
            &mut self.shares,
        )?;
        // The window left another buffer there, with an older text.
        self.printed.text.clear();
        Ok(())
    }

    fn stop<R: Wait>(&self, rt: &R, shared: &Mutex<Window<N, A, O>>, worker: u32) {
        shared.lock(rt).stop(worker);
    }
}
