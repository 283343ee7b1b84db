//! What a backend counted goes to the counters of the table.
//!
//! The counters are numbered by contexts, five for each, in the order of `ByContext`; within a
//! context in the order of `ContextCounts`.
ghost use Rattle.std.specs.Prelude.{◌≡◌, ◌≢◌, ◌⊎◌, ℕ, ◌+◌, ◌<◌, ◌≤◌};
ghost use Rattle.history_core.specs.Balances.{added_to};
ghost use Rattle.history_core.specs.Words.{counter_count, most_published};
ghost use Rattle.frame_table.specs.Seats.{IsSeat, SameSeat};
ghost use Rattle.io_counts.specs.Additions.{added_in, addition, additions, additions_in, io_added};
ghost use Rattle.io_counts.specs.Additions.{view_adding};
ghost use Rattle.io_counts.specs.Tallies.{AreAtMost, last_counts};

use crate::contexts::ContextCounts;
use crate::tally::Tally;
use atomic_table::Seat;
use byte_devices::LogDevice;
use frame_table::{FrameTable, Value};
use pin_core::View;
use segment_store::BlockLane;

/// Adds to a counter what was counted past what was published.
fn publish_count<L: BlockLane, G: LogDevice>(
    table: &FrameTable<L, G>,
    seat: &mut Seat<Value<L, G>, View>,
    number: u32,
    published: u64,
    counted: u64,
)
    requires seat { IsSeat table.now seat.old }
    requires below { number < counter_count }
    requires told { added_to number seat.old.me.0 ≡ published }
    requires grew { published ≤ counted }
    requires within { counted ≤ most_published }
    ensures seat { SameSeat seat.old seat.new }
    ensures view { seat.new.me.0
        ≡ view_adding (addition number published counted) seat.old.me.0 }
    ensures told { added_to number seat.new.me.0 ≡ counted }
    ensures others { (other : ℕ) → other ≢ number
        → added_to other seat.new.me.0 ≡ added_to other seat.old.me.0 }
{
    if published < counted {
        table.add_counter(seat, number, counted - published);
    }
}

/// Adds to the counters of a context, which are numbered from `base` on, what was counted past what
/// was published.
fn publish_context<L: BlockLane, G: LogDevice>(
    table: &FrameTable<L, G>,
    seat: &mut Seat<Value<L, G>, View>,
    base: u32,
    published: &ContextCounts,
    counted: &ContextCounts,
)
    requires seat { IsSeat table.now seat.old }
    requires below { base + 5 ≤ counter_count }
    requires told { added_in base seat.old.me.0 ≡ published.now }
    requires grew { AreAtMost published.now counted.now }
    requires within { AreAtMost counted.now last_counts }
    ensures seat { SameSeat seat.old seat.new }
    ensures view { seat.new.me.0
        ≡ view_adding (additions_in base published.now counted.now) seat.old.me.0 }
    ensures told { added_in base seat.new.me.0 ≡ counted.now }
    ensures others { (other : ℕ) → (other < base) ⊎ (base + 5 ≤ other)
        → added_to other seat.new.me.0 ≡ added_to other seat.old.me.0 }
{
    publish_count(table, seat, base, published.hits, counted.hits);
    publish_count(table, seat, base + 1, published.reads, counted.reads);
    publish_count(table, seat, base + 2, published.writes, counted.writes);
    publish_count(
        table,
        seat,
        base + 3,
        published.evictions,
        counted.evictions,
    );
    publish_count(table, seat, base + 4, published.reuses, counted.reuses);
}

/// Adds to the counters what the tally has counted since it was last published: one addition for
/// each count that grew. It takes no memory, and doesn't wait.
pub fn publish<L: BlockLane, G: LogDevice>(
    table: &FrameTable<L, G>,
    seat: &mut Seat<Value<L, G>, View>,
    tally: &mut Tally,
)
    requires seat { IsSeat table.now seat.old }
    requires told { io_added seat.old.me.0 ≡ tally.old.published }
    ensures seat { SameSeat seat.old seat.new }
    ensures view { seat.new.me.0
        ≡ view_adding (additions tally.old.published tally.old.counted) seat.old.me.0 }
    ensures tally { tally.new ≡ record tally.old { published = tally.old.counted } }
    ensures told { io_added seat.new.me.0 ≡ tally.old.counted }
{
    let published = tally.published;
    let counted = tally.counted;
    publish_context(table, seat, 0, &published.no_ring, &counted.no_ring);
    publish_context(table, seat, 5, &published.bulk_read, &counted.bulk_read);
    publish_context(table, seat, 10, &published.bulk_write, &counted.bulk_write);
    publish_context(table, seat, 15, &published.vacuum, &counted.vacuum);
    tally.published = counted;
}
