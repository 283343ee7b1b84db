//! The free list of a pool.
ghost use Rattle.std.specs.Prelude.{◌≡◌, [], IfOk};
ghost use Rattle.crossbeam_queue.specs.Passes.{view, IsPassOf};
ghost use Rattle.clock_sweep.specs.FreeFrames.{all_parts, queue_view};

use crate::free_list::{Filling, FreeFrames, Freeing, Parting, QueuePass, QueueView, Taking};
use access_rings::Memory;
use crossbeam_queue::{Pass, RuledArrayQueue};
use std::alloc::{AllocError, Global};
use std::sync::Wait;

type FreeQueue = RuledArrayQueue<u32, QueueView, FreeFrames>;

/// The free list of a pool, a queue that the backends share (`BufferStrategyControl`).
#[derive(Drop)]
pub struct Sweep {
    queue: FreeQueue,
}

/// Lists all frames of a pool, frame 0 first.
fn list_all(queue: &FreeQueue, pass: &mut Pass<u32, QueueView>, frames: u32) -> Result<(), Memory>
    requires pass { IsPassOf queue.now pass.old }
    requires known { view pass.old ≡ queue_view all_parts 0 [] [] }
    ensures pass { IsPassOf queue.now pass.new }
    ensures known { IfOk result (λ _. view pass.new ≡ queue_view all_parts frames [] []) }
{
    for frame in 0..frames {
        // No other thread can be in the way, so no push fails. If one did, the answer would be out
        // of memory, which needs no cause.
        match queue.try_push_as::<Filling>(pass, frame) {
            Ok(()) => {}
            Err(_) => return Err(AllocError),
        }
    }
    Ok(())
}

impl Sweep {
    ghost use Rattle.std.specs.Prelude.{◌≡◌, ◌<◌, [], IfOk, MatchOption};
    ghost use Rattle.std.specs.Bool.{OnFalse, OnTrue};
    ghost use Rattle.clock_sweep.specs.FreeFrames.{ListHad, SameQueue, Settles, all_parts, joined_parts, kept_part, new_part, pushing, queue_view, taking};
    ghost use Rattle.clock_sweep.specs.FreeLists.{IsOfSweep};

    /// Makes the free list of so many frames, all free and frame 0 first, and its first pass, which
    /// has all parts. Nothing is allocated after that.
    pub fn build(alloc: Global, frames: u32) -> Result<(Sweep, QueuePass), Memory>
        requires some { 0 < frames }
        ensures pass { IfOk result (λ s. IsOfSweep s.0 s.1) }
        ensures known { IfOk result (λ s. s.1.known ≡ queue_view all_parts frames [] []) }
    {
        let (queue, mut pass) = FreeQueue::ruled(alloc, frames as usize)?;
        list_all(&queue, &mut pass, frames)?;
        Ok((Sweep { queue }, QueuePass { pass }))
    }

    /// Splits off a pass, which gets one of this pass's parts.
    pub fn split(&self, pass: &mut QueuePass) -> QueuePass
        requires pass { IsOfSweep self.now pass.old }
        requires parts { 1 < pass.old.known.parts }
        ensures pass { IsOfSweep self.now pass.new × IsOfSweep self.now result }
        ensures kept { pass.new ≡ record pass.old { known = kept_part pass.old.known } }
        ensures new { result ≡ record pass.old { known = new_part pass.old.known } }
    {
        QueuePass {
            pass: self.queue.another::<Parting>(&mut pass.pass),
        }
    }

    /// Joins another pass into this one: its parts, and what it pushed and took.
    pub fn join(&self, pass: &mut QueuePass, other: QueuePass)
        requires pass { IsOfSweep self.now pass.old }
        requires other { IsOfSweep self.now other }
        ensures pass { IsOfSweep self.now pass.new }
        ensures known { pass.new ≡ record pass.old {
          known = joined_parts pass.old.known other.known;
        } }
    {
        let QueuePass { pass: theirs } = other;
        self.queue.absorb::<Parting>(&mut pass.pass, theirs);
    }

    /// Pushes a frame of the pool, which is then the last of the list (`StrategyFreeBuffer` puts it
    /// first). Returns false only if the list was full at one moment of the call; then the frame is
    /// left to the clock. A frame may be listed more than once.
    pub fn free<R: Wait>(&self, rt: &R, pass: &mut QueuePass, frame: u32) -> bool
        requires pass { IsOfSweep self.now pass.old }
        requires inside { frame < pass.old.known.frames }
        ensures pass { IsOfSweep self.now pass.new }
        ensures same { SameQueue pass.old pass.new }
        ensures pushed { OnTrue result (pass.new ≡ pushing frame pass.old) }
        ensures full { OnFalse result ((pass.new ≡ pass.old)
            × ListHad pass.old.known.frames pass.old.known) }
    {
        let answer = self.queue.push_as::<Freeing, R>(rt, &mut pass.pass, frame);
        answer.is_ok()
    }

    /// Pops the first frame. Returns None only if the list was empty at one moment of the call.
    pub(crate) fn take<R: Wait>(&self, rt: &R, pass: &mut QueuePass) -> Option<u32>
        requires { IsOfSweep self.now pass.old }
        ensures pass { IsOfSweep self.now pass.new }
        ensures same { SameQueue pass.old pass.new }
        ensures took { MatchOption result ((pass.new ≡ pass.old) × ListHad 0 pass.old.known)
            (λ f. (f < pass.old.known.frames) × (pass.new ≡ taking f pass.old)) }
    {
        self.queue.pop_as::<Taking, R>(rt, &mut pass.pass)
    }

    /// Ends the free list, with the pass that has all parts: each frame was taken once, and once
    /// more for each time that it was pushed, but for those that the list still has.
    pub fn close(self, mut pass: QueuePass)
        requires pass { IsOfSweep self pass }
        requires whole { pass.known.parts ≡ all_parts }
        ensures { Settles pass.known }
    {
        self.queue.learn_as::<Taking>(&mut pass.pass);
    }
}
