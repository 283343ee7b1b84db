//! What passes count.
ghost use Rattle.manager_bench.specs.Bench.{IsFree};

use backend_pass::{Manager, Pass};
use byte_devices::LogDevice;
use io_counts::IoCounts;
use segment_store::BlockLane;

/// Publishes what a pass has counted, which is answered.
pub fn publish_once<L: BlockLane, G: LogDevice>(
    manager: &Manager<L, G>,
    pass: &mut Pass,
    _number: u32,
) -> IoCounts
    requires { IsFree L.contents manager.now _number pass.old }
    ensures { IsFree L.contents manager.now _number pass.new }
{
    pass.publish(manager);
    pass.io()
}

/// The sums of what all passes have published.
pub fn totals_once<L: BlockLane, G: LogDevice>(
    manager: &Manager<L, G>,
    pass: &mut Pass,
    _number: u32,
) -> IoCounts
    requires { IsFree L.contents manager.now _number pass.old }
    ensures { IsFree L.contents manager.now _number pass.new }
{
    pass.io_totals(manager)
}
