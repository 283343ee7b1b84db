//! Passes give their seats back.
//!
//! The contracts say what a pass has swept, not which frames its checkpoint visited: no call of a
//! pass keeps those notes.
ghost use Rattle.std.specs.Prelude.{◌≡◌, ◌<◌, []};
ghost use Rattle.clock_sweep.specs.FreeLists.{IsOfSweep};
ghost use Rattle.frame_table.specs.Seats.{Fits, SameSeat};
ghost use Rattle.buffer_frames.specs.Tokens.{no_tokens};
ghost use Rattle.buffer_frames.specs.Rests.{OnlyTokens};
ghost use Rattle.backend_pass.specs.Managers.{HaveQueues, AreSpent, IsFirstAt, first_in, is_first};
ghost use Rattle.backend_pass.specs.Closing.{joined_queues, joined_views};

use crate::manager::Manager;
use crate::pass::Pass;
use atomic_table::Seat;
use buffer_frames::Backend;
use byte_devices::LogDevice;
use clock_sweep::QueuePass;
use frame_table::Value;
use pin_core::View;
use segment_store::BlockLane;

impl Pass {
    /// Whether it is the first pass, which has the first seat.
    fn is_first(&self) -> bool
        ensures { result ≡ is_first self.now }
    {
        self.number == 0
    }

    /// A pass without tokens ends, and its seat and its pass of the free list are left.
    pub(crate) fn leave<L: BlockLane, G: LogDevice>(self) -> (Seat<Value<L, G>, View>, QueuePass)
        requires { self.tokens ≡ no_tokens }
        ensures table { result.0.table_id ≡ self.table }
        ensures me { (result.0.me.0 ≡ self.view) × (result.0.me.1 ≡ []) }
        ensures rests { OnlyTokens no_tokens self.view }
        ensures first { self.view.number ≡ 0 → result.0.id ≡ 0 }
        ensures queue { result.1 ≡ self.queue }
    {
        let Pass {
            number: _,
            seat,
            held,
            backend,
            marked: _,
            shown: _,
        } = self;
        let Backend {
            queue,
            census: _,
            page: _,
            lookups: _,
            io: _,
        } = backend;
        held.spend();
        (seat.into_seat::<Value<L, G>>(), queue)
    }
}

/// The index of the first pass.
pub(crate) fn place_of_first(passes: &[Pass]) -> usize
    requires { 0 < (first_in passes.now).next }
    ensures { IsFirstAt result passes.now }
{
    for place in 0..passes.len() {
        if passes[place].is_first() {
            return place;
        }
    }
    unreachable!()
}

/// The first seat and its pass of the free list take in what the other passes know, one after the
/// other.
pub(crate) fn join_all<L: BlockLane, G: LogDevice>(
    manager: &Manager<L, G>,
    seat: &mut Seat<Value<L, G>, View>,
    queue: &mut QueuePass,
    mut others: Vec<Pass>,
)
    requires seat { Fits manager.now.table seat.old × (seat.old.id ≡ 0) }
    requires others { AreSpent manager.now.table.table.shared.table_id others.items }
    requires queue { IsOfSweep manager.now.sweep queue.old }
    requires queues { HaveQueues manager.now others.items }
    ensures seat { SameSeat seat.old seat.new }
    ensures joined { seat.new.me.0 ≡ joined_views seat.old.me.0 others.items }
    ensures queue { IsOfSweep manager.now.sweep queue.new }
    ensures known { queue.new ≡ joined_queues queue.old others.items }
{
    others.reverse();
    while let Some(pass) = others.pop() {
        let (other, theirs) = pass.leave();
        manager.table.join(seat, other);
        manager.sweep.join(queue, theirs);
    }
    others.destroy_empty();
}
