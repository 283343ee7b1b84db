//! A pass's I/O counts (`pg_stat_io`).
//!
//! A pass counts for itself, and shares nothing of that until it publishes. So a hit costs no
//! shared word.
ghost use Rattle.std.specs.Prelude.{◌≡◌};
ghost use Rattle.io_counts.specs.Additions.{additions, io_added, view_adding};
ghost use Rattle.io_counts.specs.Totals.{LoadsCounters, loads_of, view_loading};
ghost use Rattle.io_counts.specs.Tallies.{AreAllAtMost, last_io};
ghost use Rattle.io_counts.specs.Sums.{AreAllSmall, io_shown, io_sum};

use crate::manager::Manager;
use crate::pass::Pass;
use crate::seats::{return_seat, take_seat};
use byte_devices::LogDevice;
use frame_table::FrameTable;
use io_counts::{ByContext, IoCounts, load_totals, publish};
use segment_store::BlockLane;

impl Pass {
    ghost use Rattle.io_counts.specs.declared.contexts.ByContext.{ByContext};
    ghost use Rattle.backend_pass.specs.Managers.{Belongs};
    ghost use Rattle.backend_pass.specs.Passes.{HasPublished, KeepsCallers, taken_in};

    /// What the pass has counted of its hits, reads, writes and victims. Each count stands still
    /// at 2^48 - 1.
    pub fn io(&self) -> IoCounts
        ensures shown { result ≡ io_shown self.now.io }

        // Each count is at most 2^48 - 1. So `sums` can be called.
        ensures within { AreAllAtMost self.now.io last_io }

        // If no eviction and no reuse is counted, the pass took no tag from a frame.
        ensures taken { taken_in self.now.io ≡ 0 → self.now.view.cleared ≡ 0 }
    {
        self.backend.io.counted().shown()
    }

    /// Adds to the counters of the table what the pass has counted and not yet published, by one
    /// addition for each count that grew.
    fn publish_at<L: BlockLane, G: LogDevice>(&mut self, table: &FrameTable<L, G>)
        requires table { self.old.table ≡ table.now.table.shared.table_id }
        ensures new { self.new ≡ record self.old {
          view = view_adding (additions (io_added self.old.view) self.old.io) self.old.view;
        } }
        ensures published { HasPublished self.new }
    {
        let mut seat = take_seat::<L, G>(&mut self.seat);
        publish(table, &mut seat, &mut self.backend.io);
        return_seat(&mut self.seat, seat);
    }

    /// Publishes what the pass has counted since it last did, and adds all that it has counted.
    pub(crate) fn sum_up<L: BlockLane, G: LogDevice>(
        &mut self,
        table: &FrameTable<L, G>,
        io: &mut ByContext,
    )
        requires table { self.old.table ≡ table.now.table.shared.table_id }
        requires small { AreAllSmall io.old }
        ensures new { self.new ≡ record self.old {
          view = view_adding (additions (io_added self.old.view) self.old.io) self.old.view;
        } }
        ensures published { HasPublished self.new }
        ensures sum { io.new ≡ io_sum io.old self.old.io }
        ensures within { AreAllAtMost self.old.io last_io }
        ensures taken { taken_in self.old.io ≡ 0 → self.old.view.cleared ≡ 0 }
    {
        self.publish_at(table);
        io.add(&self.backend.io.counted());
    }

    /// Publishes what the pass has counted since it last did: one addition to the counters of the
    /// table for each count that grew. It takes no memory, and doesn't wait.
    pub fn publish<L: BlockLane, G: LogDevice>(&mut self, manager: &Manager<L, G>)
        requires belongs { Belongs L.contents manager.now self.old }
        ensures belongs { Belongs L.contents manager.now self.new }
        ensures callers { KeepsCallers self.old self.new }
        ensures new { self.new ≡ record self.old {
          view = view_adding (additions (io_added self.old.view) self.old.io) self.old.view;
        } }

        // The table's counters have all that the pass has counted then.
        ensures published { HasPublished self.new }
    {
        self.publish_at(&manager.table);
    }

    /// Loads the sums of what all passes have published, one counter after the other, so they are
    /// of different moments. It takes no memory, and doesn't wait.
    pub fn io_totals<L: BlockLane, G: LogDevice>(&mut self, manager: &Manager<L, G>) -> IoCounts
        requires belongs { Belongs L.contents manager.now self.old }
        ensures belongs { Belongs L.contents manager.now self.new }
        ensures callers { KeepsCallers self.old self.new }

        // Each of them is at least what the pass itself has published, and at most what 64 passes
        // count.
        ensures new { (io : ByContext) × (result ≡ io_shown io)
            × (self.new ≡ record self.old { view = view_loading (loads_of io) self.old.view })
            × AreAllAtMost (io_added self.old.view) io × AreAllSmall io }

        // Each was loaded in a state in which it is the sum of what all passes have published.
        ensures did { (io : ByContext) × (result ≡ io_shown io)
            × LoadsCounters io self.old.view self.new.view }
    {
        let mut seat = take_seat::<L, G>(&mut self.seat);
        let totals = load_totals(&manager.table, &mut seat);
        return_seat(&mut self.seat, seat);
        totals.shown()
    }
}
