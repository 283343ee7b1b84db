//! What passes count.
ghost use Rattle.std.specs.Prelude.{◌≡◌, ◌≤◌, vec_len};
ghost use Rattle.io_counts.specs.declared.contexts.ByContext.{ByContext};
ghost use Rattle.table_rule.specs.Shows.{devices};
ghost use Rattle.io_counts.specs.Additions.{io_added, io_counters};
ghost use Rattle.io_counts.specs.Sums.{AreAllSmall, io_shown};
ghost use Rattle.io_counts.specs.Tallies.{AreAllAtMost};
ghost use Rattle.io_counts.specs.Totals.{loads_of, view_loading};
ghost use Rattle.backend_pass.specs.Closing.{ClosesAll};
ghost use Rattle.backend_pass.specs.Counts.{io_in_all};
ghost use Rattle.backend_pass.specs.Managers.{AreAll, Belongs};
ghost use Rattle.backend_pass.specs.Passes.{HasPublished};

use backend_pass::{Manager, Pass};
use byte_devices::LogDevice;
use io_counts::IoCounts;
use segment_store::BlockLane;

/// Once a pass has published, the table's counters have all that it has counted
/// (`pgstat_report_stat`).
pub fn publish<L: BlockLane, G: LogDevice>(manager: &Manager<L, G>, pass: &mut Pass)
    requires { Belongs L.contents manager.now pass.old }
    ensures { HasPublished pass.new }
{
    pass.publish(manager);
}

/// The totals are those of the table's counters, each loaded in this call. None is less than what
/// the pass has published, or more than what 64 passes count (`pg_stat_get_io`).
pub fn io_totals<L: BlockLane, G: LogDevice>(manager: &Manager<L, G>, pass: &mut Pass) -> IoCounts
    requires { Belongs L.contents manager.now pass.old }
    ensures { (io : ByContext) × (result ≡ io_shown io)
        × (pass.new ≡ record pass.old { view = view_loading (loads_of io) pass.old.view })
        × AreAllAtMost (io_added pass.old.view) io × AreAllSmall io }
{
    pass.io_totals(manager)
}

/// A close answers the sums of what all passes have counted (`pg_stat_get_io`).
pub fn close_counted<L: BlockLane, G: LogDevice>(
    manager: Manager<L, G>,
    passes: Vec<Pass>,
) -> (Vec<L>, G, IoCounts)
    requires all { AreAll manager passes.items }
    requires few { vec_len passes ≤ 64 }
    ensures { result.2 ≡ io_shown (io_in_all passes.items) }
{
    manager.close_counted(passes)
}

/// A close publishes what the passes had left to publish: it gives the devices back in a state
/// whose counters have all that the passes counted (`pgstat_shutdown_hook` reports once more).
pub fn publish_and_close<L: BlockLane, G: LogDevice>(
    manager: Manager<L, G>,
    passes: Vec<Pass>,
) -> (Vec<L>, G)
    requires all { AreAll manager passes.items }
    requires few { vec_len passes ≤ 64 }
    ensures { (x : ClosesAll (devices L.BlockLane G.LogDevice) manager.table.table.shared.key
        passes.items result.0.items result.1)
        × (io_counters x.state.counter ≡ io_in_all passes.items) }
{
    let (lanes, log, _sums) = manager.close_counted(passes);
    (lanes, log)
}
