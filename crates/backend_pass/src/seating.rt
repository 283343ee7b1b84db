//! Passes take their seats.
ghost use Rattle.std.specs.Prelude.{◌≡◌, ◌≢◌, ◌<◌, ◌≤◌, [], vec_capacity, vec_len};
ghost use Rattle.io_counts.specs.Counts.{no_io};
ghost use Rattle.table_rule.specs.Shows.{starting};
ghost use Rattle.clock_sweep.specs.FreeFrames.{all_parts, kept_part, new_part, queue_view};
ghost use Rattle.clock_sweep.specs.FreeLists.{IsFreeList, IsOfSweep};
ghost use Rattle.frame_table.specs.FrameSteps.{kept_view, split_view};
ghost use Rattle.frame_table.specs.Seats.{Fits, base_of, frames_of};
ghost use Rattle.buffer_frames.specs.declared.hinting.HintSeen.TheVariants.{Unused};
ghost use Rattle.backend_pass.specs.PassMemories.{AreForFrames};
ghost use Rattle.backend_pass.specs.Managers.{AreNewPasses};
ghost use Rattle.backend_pass.specs.Passes.{IsFreshView};

use crate::manager::Manager;
use crate::met::{Met, Shown};
use crate::pass::Pass;
use crate::pass_memory::PassMemory;
use crate::seats::{return_seat, take_seat};
use atomic_table::Seat;
use buffer_frames::{Backend, HintSeen, Sought};
use byte_devices::LogDevice;
use clock_sweep::QueuePass;
use crossbeam_utils::CachePadded;
use frame_table::Value;
use io_counts::Tally;
use pin_core::View;
use segment_store::BlockLane;

impl Pass {
    /// A pass at this seat, which has done nothing yet.
    fn seated<L: BlockLane, G: LogDevice>(
        number: u32,
        seat: Seat<Value<L, G>, View>,
        queue: QueuePass,
        memory: PassMemory,
        base: u64,
    ) -> Pass
        requires hand { seat.me.1 ≡ [] }
        requires fresh { IsFreshView number seat.id base seat.me.0 }
        ensures { result ≡ record {
          table = seat.table_id;
          id = seat.id;
          view = seat.me.0;
          queue = queue;
          tokens = [];
          census = memory.census;
          marked = [];
          hint = Unused;
          io = no_io;
        } }
    {
        let PassMemory {
            held,
            census,
            marked,
            page,
        } = memory;
        let met = Met {
            reads: 0,
            writes: 0,
            logs: 0,
        };
        let lookups = Sought {
            turns: 0,
            hint: HintSeen::Unused,
        };
        Pass {
            number,
            seat: seat.into_badge(),
            held,
            backend: Backend {
                queue,
                census,
                page,
                lookups,
                io: Tally::new(),
            },
            marked,
            shown: CachePadded::new(Shown { front: base, met }),
        }
    }

    /// The pass of the next number, by the first one.
    fn split<L: BlockLane, G: LogDevice>(
        &mut self,
        manager: &Manager<L, G>,
        number: u32,
        memory: PassMemory,
        base: u64,
    ) -> Pass
        requires first { (self.old.table ≡ manager.now.table.table.shared.table_id)
            × (self.old.id ≡ 0) }
        requires next { (self.old.view.next ≡ number) × (number ≢ 0)
            × (number < manager.now.table.table.shared.key.config.passes) }
        requires base { base ≡ base_of manager.now.table }
        requires queue { IsOfSweep manager.now.sweep self.old.queue }
        requires parts { 1 < self.old.queue.known.parts }
        ensures first { self.new ≡ record self.old { view = kept_view self.old.view; queue = record self.old.queue { known = kept_part self.old.queue.known } } }
        ensures table { result.table ≡ self.old.table }
        ensures view { result.view ≡ split_view base self.old.view }
        ensures queue { result.queue
            ≡ record self.old.queue { known = new_part self.old.queue.known } }
        ensures fresh { (result.tokens ≡ [])
            × (result.census ≡ memory.census) × (result.hint ≡ Unused) × (result.io ≡ no_io) }
    {
        let mut seat = take_seat::<L, G>(&mut self.seat);
        let other = manager.table.split(&mut seat);
        return_seat(&mut self.seat, seat);
        let queue = manager.sweep.split(&mut self.backend.queue);
        Pass::seated(number, other, queue, memory, base)
    }
}

/// All passes of a manager that was just opened: the first one has its seat and its pass of the
/// free list, and those of the others are split from it.
pub(crate) fn seat_passes<L: BlockLane, G: LogDevice>(
    manager: &Manager<L, G>,
    seat: Seat<Value<L, G>, View>,
    queue: QueuePass,
    mut memories: Vec<PassMemory>,
    mut passes: Vec<Pass>,
    count: u32,
    base: u64,
) -> Vec<Pass>
    requires seat { Fits manager.now.table seat × (seat.id ≡ 0)
        × (seat.me ≡ (starting manager.now.table.table.shared.key, [])) }
    requires base { base ≡ base_of manager.now.table }
    requires count { (1 ≤ count) × (count ≤ all_parts)
        × (count ≡ manager.now.table.table.shared.key.config.passes) }
    requires queue { IsFreeList manager.now.table manager.now.sweep queue }
    requires known { queue.known ≡ queue_view all_parts (frames_of manager.now.table) [] [] }
    requires memories { (vec_len memories ≡ count)
        × AreForFrames (frames_of manager.now.table) memories.items }
    requires room { (passes.items ≡ []) × (count ≤ vec_capacity passes) }
    ensures { AreNewPasses L.contents manager.now count result.items }
{
    let mut first = Pass::seated(0, seat, queue, memories.take_last(), base);
    for number in 1..count {
        let pass = first.split(manager, number, memories.take_last(), base);
        passes.push_reserved(pass);
    }
    memories.destroy_empty();
    passes.push_reserved(first);
    passes.rotate_right(1);
    passes
}
