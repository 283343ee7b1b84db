//! What a backend counts, and what becomes of it as the backend goes.
ghost use Rattle.std.specs.Prelude.{◌≡◌, ◌≢◌, ◌+◌, ◌<◌, [], IfOk, None, false, is_some, true};
ghost use Rattle.block_tag.specs.Names.{lane_number, names_block};
ghost use Rattle.pin_core.specs.State.{joined_view};
ghost use Rattle.pin_core.specs.Steps.{HoldsNoHeader, HoldsNothing};
ghost use Rattle.history_core.specs.Balances.{added_to};
ghost use Rattle.history_core.specs.Words.{counter_count, most_published};
ghost use Rattle.table_rule.specs.Blocks.{has_block};
ghost use Rattle.frame_table.specs.Seats.{Fits, IsSeat, frames_of, lanes_in, relations_of};
ghost use Rattle.io_counts.specs.Additions.{additions, io_added, view_adding};
ghost use Rattle.io_counts.specs.Counts.{context_of};
ghost use Rattle.clock_sweep.specs.Choosing.{Chooses, frame_at_place, ring_gone_on};
ghost use Rattle.clock_sweep.specs.FreeFrames.{joined_parts};
ghost use Rattle.clock_sweep.specs.FreeLists.{IsOfSweep};
ghost use Rattle.buffer_frames.specs.Backends.{IsFurnished, choice_of};
ghost use Rattle.buffer_frames.specs.Keeps.{IsReady};
ghost use Rattle.buffer_frames.specs.Reads.{ReadsAndCounts};
ghost use Rattle.buffer_frames.specs.Tokens.{IsNew, held_at, tokens_less};

use access_rings::Ring;
use atomic_table::Seat;
use block_tag::Tag;
use buffer_frames::{Backend, BlockError, HeldPins, PinnedBlock, read_block};
use byte_devices::LogDevice;
use clock_sweep::{Census, LockedFrame, NoUnpinned, QueuePass, Sweep, victim};
use frame_table::{FrameTable, Pin, Value};
use io_counts::{Tally, publish};
use pin_core::View;
use segment_store::BlockLane;
use std::sync::Wait;

/// A token that comes back counts no more, and with the last one its pin goes out, to be given up
/// (`UnpinBuffer`, by `PrivateRefCount`).
pub fn give_token_back(held: &mut HeldPins, frame: u32) -> Option<Pin>
    requires pinned { held_at held.old frame ≢ None }
    ensures tokens { held.new ≡ tokens_less frame held.old }
{
    held.take_token(frame)
}

/// A backend records each frame that it takes off the free list (`StrategyGetBuffer` sets its
/// `freeNext` to `FREENEXT_NOT_IN_LIST`). Its pass can be split: an edit takes frames with the part
/// that it splits off.
pub fn record_taken<L: BlockLane, G: LogDevice, R: Wait>(
    table: &FrameTable<L, G>,
    rt: &R,
    seat: &mut Seat<Value<L, G>, View>,
    sweep: &Sweep,
    queue: &mut QueuePass,
    census: &mut Census,
    ring: &mut Option<Ring>,
) -> Result<LockedFrame, NoUnpinned>
    requires seat { IsSeat table.now seat.old }
    requires headless { HoldsNoHeader seat.old.me.0 }
    requires queue { IsOfSweep sweep.now queue.old }
    requires parts { 1 < queue.old.known.parts }
    requires census { census.old.frames ≡ frames_of table.now }
    ensures { IfOk result (Chooses (frames_of table.now) (frame_at_place (ring_gone_on ring.old))
        seat.old.me.0 queue.old seat.new.me.0 queue.new) }
{
    victim(table, rt, seat, sweep, queue, census, ring)
}

/// What a read of a block did is counted once, in the context of its ring: a hit; each page that a
/// lane gave or took; and each tag that a victim lost, as a reuse if the frame came from the ring's
/// current place, and else as an eviction (`pgstat_count_io_op`).
pub fn count_block<L: BlockLane, G: LogDevice, R: Wait>(
    table: &FrameTable<L, G>,
    rt: &R,
    seat: &mut Seat<Value<L, G>, View>,
    held: &HeldPins,
    sweep: &Sweep,
    backend: &mut Backend,
    tag: &Tag,
    ring: &mut Option<Ring>,
) -> Result<PinnedBlock, BlockError>
    requires ready { IsReady table.now held.now seat.old }
    requires own { IsFurnished table.now sweep.now backend.old seat.old.me.0 }
    requires tag { names_block tag.now ≡ true }
    requires block { has_block (relations_of table.now) tag.now ≡ true }
    requires new { IsNew tag.now held.now }
    ensures { ReadsAndCounts L.contents table.now tag.now held.now (is_some ring.old)
        backend.new.lookups.hint (choice_of backend.old ring.old) (choice_of backend.new ring.new)
        (context_of ring.old) (lane_number tag.now (lanes_in table.now))
        seat.old.me.0 seat.new.me.0 backend.old.io.counted backend.new.io.counted result }
{
    read_block(table, rt, seat, held, sweep, backend, tag, ring)
}

/// What a backend publishes is what it has counted since it last did, once (`pgstat_flush_io`). It
/// may publish one read more: an edit adds one that may have been published already.
pub fn publish_counts<L: BlockLane, G: LogDevice>(
    table: &FrameTable<L, G>,
    seat: &mut Seat<Value<L, G>, View>,
    tally: &mut Tally,
)
    requires seat { IsSeat table.now seat.old }
    requires told { io_added seat.old.me.0 ≡ tally.old.published }
    requires room { added_to 1 seat.old.me.0 < most_published }
    ensures { seat.new.me.0
        ≡ view_adding (additions tally.old.published tally.old.counted) seat.old.me.0 }
{
    publish(table, seat, tally);
}

/// What a backend read and put stays in the history that the table is closed with: the first
/// backend takes it over.
pub fn join_seats<L: BlockLane, G: LogDevice>(
    table: &FrameTable<L, G>,
    seat: &mut Seat<Value<L, G>, View>,
    other: Seat<Value<L, G>, View>,
)
    requires seat { Fits table.now seat.old × (seat.old.id ≡ 0) }
    requires other { Fits table.now other × (other.me.1 ≡ []) × (other.me.0.emptied ≡ false) }
    requires free { HoldsNothing other.me.0 }
    ensures joined { seat.new.me.0 ≡ joined_view seat.old.me.0 other.me.0 }
{
    table.join(seat, other);
}

/// So does what it took from the free list and pushed there.
pub fn join_queues(sweep: &Sweep, queue: &mut QueuePass, other: QueuePass)
    requires queue { IsOfSweep sweep.now queue.old }
    requires other { IsOfSweep sweep.now other }
    ensures known { queue.new
        ≡ record queue.old { known = joined_parts queue.old.known other.known } }
{
    sweep.join(queue, other);
}

/// Once all other backends are joined into the first, a counter is what that one has added, its own
/// and theirs.
pub fn load_total<L: BlockLane, G: LogDevice>(
    table: &FrameTable<L, G>,
    seat: &mut Seat<Value<L, G>, View>,
    number: u32,
) -> u64
    requires seat { IsSeat table.now seat.old }
    requires below { number < counter_count }
    ensures exact { seat.old.me.0.number ≡ 0 → seat.old.me.0.joined + 1 ≡ seat.old.me.0.next
        → result ≡ added_to number seat.old.me.0 }
{
    table.load_counter(seat, number)
}
