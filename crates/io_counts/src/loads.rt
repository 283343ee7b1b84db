//! What all backends have published.
ghost use Rattle.std.specs.Prelude.{◌≡◌, ◌+◌, ◌≤◌};
ghost use Rattle.history_core.specs.Words.{counter_count};
ghost use Rattle.frame_table.specs.Seats.{IsSeat, SameSeat};
ghost use Rattle.io_counts.specs.Additions.{added_in, io_added};
ghost use Rattle.io_counts.specs.Sums.{AreAllSmall, AreSmall};
ghost use Rattle.io_counts.specs.Tallies.{AreAllAtMost, AreAtMost};
ghost use Rattle.io_counts.specs.Totals.{LoadsContext, LoadsCounters, loads_in, loads_of};
ghost use Rattle.io_counts.specs.Totals.{view_loading};

use crate::contexts::{ByContext, ContextCounts};
use atomic_table::Seat;
use byte_devices::LogDevice;
use frame_table::{FrameTable, Value};
use pin_core::View;
use segment_store::BlockLane;

/// Loads the counters of a context, which are numbered from `base` on.
fn load_context<L: BlockLane, G: LogDevice>(
    table: &FrameTable<L, G>,
    seat: &mut Seat<Value<L, G>, View>,
    base: u32,
) -> ContextCounts
    requires seat { IsSeat table.now seat.old }
    requires below { base + 5 ≤ counter_count }
    ensures seat { SameSeat seat.old seat.new }
    ensures view { seat.new.me.0 ≡ view_loading (loads_in base result) seat.old.me.0 }
    ensures least { AreAtMost (added_in base seat.old.me.0) result }
    ensures most { AreSmall result }
    ensures did { LoadsContext base result seat.old.me.0 seat.new.me.0 }
{
    let hits = table.load_counter(seat, base);
    let reads = table.load_counter(seat, base + 1);
    let writes = table.load_counter(seat, base + 2);
    let evictions = table.load_counter(seat, base + 3);
    let reuses = table.load_counter(seat, base + 4);
    ContextCounts {
        hits,
        reads,
        writes,
        evictions,
        reuses,
    }
}

/// Loads the counters, one after the other, at different moments. It takes no memory, and doesn't
/// wait.
pub fn load_totals<L: BlockLane, G: LogDevice>(
    table: &FrameTable<L, G>,
    seat: &mut Seat<Value<L, G>, View>,
) -> ByContext
    requires seat { IsSeat table.now seat.old }
    ensures seat { SameSeat seat.old seat.new }
    ensures view { seat.new.me.0 ≡ view_loading (loads_of result) seat.old.me.0 }
    // Each shows at least what this backend has published.
    ensures least { AreAllAtMost (io_added seat.old.me.0) result }
    // And at most what 64 backends count.
    ensures most { AreAllSmall result }
    ensures did { LoadsCounters result seat.old.me.0 seat.new.me.0 }
{
    let no_ring = load_context(table, seat, 0);
    let bulk_read = load_context(table, seat, 5);
    let bulk_write = load_context(table, seat, 10);
    let vacuum = load_context(table, seat, 15);
    ByContext {
        no_ring,
        bulk_read,
        bulk_write,
        vacuum,
    }
}
