//! The window, which the workers of a job share.
//!
//! Output begins with the first chunk, and the window has two slots for each worker, so the memory
//! that a job takes doesn't grow with the relation. If the reader of the output is slow, all
//! workers wait for it. A text is one put, under the lock, and a failed put is never tried again.
ghost use Rattle.std.specs.Prelude.{◌≡◌, ◌+◌, ◌<◌, ◌≤◌, ◌^◌, ◌≢◌, None, Some, true, is_some, max};
ghost use Rattle.std.specs.Prelude.{replicate, IfErr, IfOk, MatchBool};
ghost use Rattle.byte_devices.specs.Faults.{Rose};
ghost use Rattle.text_window.specs.declared.window.Delivery.TheVariants.{Delivered, Later, Stopped};
ghost use Rattle.text_window.specs.declared.window.Stop.TheVariants.{Output};
ghost use Rattle.text_window.specs.Shares.{KeepsParts};
ghost use Rattle.text_window.specs.Texts.{HasFreeSlot, IsFinished, is_output, stopped_for};
ghost use Rattle.text_window.specs.Texts.{worker_of};

use crate::naming::Naming;
use crate::shares::Shares;
use crate::stream::put_waiting;
use crate::waiting::Waiting;
use byte_devices::{Failed, Sink};
use std::alloc::{AllocError, Global};
use std::marker::Model;
use std::sync::ledger::{Book, Ledger, Share};

/// Why a job stops.
#[derive(Clone, Copy, PartialEq, Eq, Debug)]
pub enum Stop {
    /// A put failed.
    Output,
    /// The worker of this number failed.
    Worker(u32),
}

/// The answer to a delivery.
#[derive(Clone, Copy, PartialEq, Eq, Debug)]
pub enum Delivery {
    /// It is put, or waits in the window.
    Delivered,
    /// There is no free slot for it: its chunk is too far ahead, or, which no job does, was
    /// delivered before. The worker keeps it, and tries again.
    Later,
    /// The job stops.
    Stopped,
}

/// A sink, and the texts that wait until the texts of all chunks before theirs are put. The workers
/// of a job share it under a lock. Whenever the lock is free:
///
/// - The sink has the texts of the chunks before `next`, in order. After a put that failed it may
///   also have a prefix of the next chunk's text.
/// - The slots belong to the chunks from `next` on, and the first slot is free.
/// - Each text that was put or waits may be its chunk's, with nothing of it read past the place
///   `largest`. That is the log's base as long as no text is counted as read past it.
/// - Unless a put failed, as many texts were put or wait as were delivered.
pub struct Window<N: Naming, A: Ledger, O: Sink> {
    sink: O,
    next: u32,
    waiting: Waiting,
    buffer: Vec<u8>,
    base: u64,
    largest: u64,
    stop: Option<Stop>,
    delivered: Book<N>,
    above: Book<A>,
}

impl<N: Naming, A: Ledger, O: Sink> Model for Window<N, A, O> {
    ghost use Rattle.std.specs.Prelude.{◌≡◌};
    ghost use Rattle.text_window.specs.Texts.{IsWindow, WindowState};

    ghost Value = { WindowState };

    ghost view = { λ w. record {
      stop = w.stop;
      largest = w.largest;
      next = w.next;
      waiting = w.waiting;
      bytes = O.bytes w.sink;
      faults = O.faults w.sink;
      delivered = w.delivered.total;
      above = w.above.total;
    } };

    ghost invariant = { λ w. (w.base ≡ N.job.base)
        × IsWindow N.texts N.job w.stop w.largest w.next w.waiting (O.bytes w.sink) (O.faults w.sink)
        w.delivered.total w.above.total };
}

/// Counts a text, if it was read past the log's base.
fn count_above<A: Ledger>(book: &mut Book<A>, mine: &mut Share<A>, place: u64, base: u64)
    requires { 0 < mine.old.parts }
    ensures parts { mine.new.parts ≡ mine.old.parts }
    ensures past { base < place → (book.new.total ≡ book.old.total + 1)
        × (mine.new.amount ≡ mine.old.amount + 1) }
    ensures within { place ≤ base → (book.new.total ≡ book.old.total)
        × (mine.new.amount ≡ mine.old.amount) }
    ensures later { book.old.total ≤ book.new.total }
{
    if place > base {
        book.add(mine, 1);
    }
}

impl<N: Naming, A: Ledger, O: Sink> Window<N, A, O> {
    /// Returns a window with `width` free slots. If memory runs out, returns `sink` with the error.
    pub fn build(
        alloc: Global,
        width: u32,
        base: u64,
        sink: O,
        delivered: Book<N>,
        above: Book<A>,
    ) -> Result<Window<N, A, O>, (AllocError, O)>
        requires width { (0 < width) × (N.job.width ≡ width) }
        requires base { N.job.base ≡ base }
        requires few { N.job.chunks < 2 ^ 32 }
        requires sink { (N.job.before ≡ O.bytes sink) × (N.job.faults ≡ O.faults sink) }
        requires books { (delivered.total ≡ 0) × (above.total ≡ 0) }
        ensures built { IfOk result (λ w. (w.stop ≡ None) × (w.next ≡ 0)) }
        ensures slots { IfOk result (λ w. w.waiting ≡ replicate width None) }
        ensures counts { IfOk result (λ w.
            (w.largest ≡ base) × (w.delivered ≡ 0) × (w.above ≡ 0)) }
        ensures refused { IfErr result (λ r. r.1 ≡ sink) }
    {
        match Waiting::build(alloc, width) {
            Ok(waiting) => Ok(Window {
                sink,
                next: 0,
                waiting,
                buffer: Vec::new(alloc),
                base,
                largest: base,
                stop: None,
                delivered,
                above,
            }),
            Err(error) => Err((error, sink)),
        }
    }

    /// Takes the text of a chunk, of which nothing was read past `place`. If the chunk is the next
    /// one, its text is put, with those that follow it without a gap; otherwise it waits. Once the
    /// text is taken, `text` holds another buffer, whose contents are stale.
    pub fn deliver(
        &mut self,
        chunk: u32,
        place: u64,
        text: &mut Vec<u8>,
        mine: &mut Shares<N, A>,
    ) -> Delivery
        requires chunk { chunk < N.job.chunks }
        requires text { N.texts place chunk text.old.items }
        requires parts { (0 < mine.old.delivered.parts) × (0 < mine.old.above.parts) }
        ensures parts { KeepsParts mine.old mine.new }
        ensures delivered { result ≡ Delivered →
            mine.new.delivered.amount ≡ mine.old.delivered.amount + 1 }
        ensures goes_on { result ≡ Delivered → (self.old.stop ≡ None) × (self.new.stop ≡ None) }
        ensures later { result ≡ Later →
            (self.new ≡ self.old) × (mine.new ≡ mine.old) × (text.new ≡ text.old) }
        ensures free { self.old.stop ≡ None → HasFreeSlot self.old chunk → result ≢ Later }
        ensures stopped { result ≡ Stopped → is_some self.new.stop ≡ true }
        ensures output { result ≡ Stopped → self.old.stop ≡ None → self.new.stop ≡ Some Output }
        ensures stays { is_some self.old.stop ≡ true → (result ≡ Stopped)
            × (self.new ≡ self.old) × (mine.new ≡ mine.old) × (text.new ≡ text.old) }
        ensures above { place ≤ N.job.base → mine.new.above.amount ≡ mine.old.above.amount }
        ensures late { result ≡ Delivered → N.job.base < place →
            mine.new.above.amount ≡ mine.old.above.amount + 1 }
        ensures largest { result ≡ Delivered →
            self.new.largest ≡ max self.old.largest place }
    {
        if self.stop.is_some() {
            return Delivery::Stopped;
        }
        if chunk < self.next {
            return Delivery::Later;
        }
        let ahead = (chunk - self.next) as usize;
        if !self.waiting.put_in(ahead, text) {
            return Delivery::Later;
        }
        self.delivered.add(&mut mine.delivered, 1);
        count_above(&mut self.above, &mut mine.above, place, self.base);
        self.largest = self.largest.max(place);
        let Window {
            sink,
            next,
            waiting,
            buffer,
            base: _,
            largest,
            stop,
            delivered: _,
            above: _,
        } = self;
        match put_waiting::<N, O>(sink, next, waiting, buffer, *largest) {
            Ok(()) => Delivery::Delivered,
            Err(Failed) => {
                *stop = Some(Stop::Output);
                Delivery::Stopped
            }
        }
    }

    /// This worker failed: the job stops, unless it was stopped before.
    pub fn stop(&mut self, worker: u32)
        ensures { self.new ≡ stopped_for worker self.old }
    {
        self.stop = self.stop.or(Some(Stop::Worker(worker)));
    }

    /// The worker whose failure stopped the job, if one did.
    pub fn stopped_by(&self) -> Option<u32>
        ensures { result ≡ worker_of self.now.stop }
    {
        match self.stop {
            Some(Stop::Worker(worker)) => Some(worker),
            Some(Stop::Output) | None => None,
        }
    }

    /// After the job: its sink, and why it stopped. With the parts of all workers, the shares
    /// determine what the sink holds.
    pub fn finish(self, all: &mut Shares<N, A>) -> (O, Option<Stop>)
        requires parts { (all.old.delivered.parts ≡ N.parts) × (all.old.above.parts ≡ A.parts) }
        ensures put { IsFinished N.texts N.job all.old.delivered.amount all.old.above.amount
            (is_output result.1) (O.bytes result.0) }
        ensures faults { MatchBool (is_output result.1)
            (Rose N.job.faults (O.faults result.0))
            (O.faults result.0 ≡ N.job.faults) }
        ensures stop { result.1 ≡ self.stop }
        ensures sink { (O.bytes result.0 ≡ self.bytes) × (O.faults result.0 ≡ self.faults) }
    {
        let Window {
            sink,
            next: _,
            waiting: _,
            buffer: _,
            base: _,
            largest: _,
            stop,
            mut delivered,
            mut above,
        } = self;
        delivered.audit(&mut all.delivered);
        above.audit(&mut all.above);
        (sink, stop)
    }
}
