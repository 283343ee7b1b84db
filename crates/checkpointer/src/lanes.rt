//! A checkpoint syncs the lanes.
ghost use Rattle.std.specs.Prelude.{◌≡◌, IfErr, IsOk, OnOk};
ghost use Rattle.frame_table.specs.Seats.{frames_of};
ghost use Rattle.backend_pass.specs.Managers.{Belongs};
ghost use Rattle.checkpointer.specs.Marked.{HasNoneLeft};
ghost use Rattle.checkpointer.specs.Refusals.{StopsSyncing};
ghost use Rattle.checkpointer.specs.Stages.{SyncsLanes};

use backend_pass::{Manager, Pass};
use byte_devices::{Failed, LogDevice};
use segment_store::BlockLane;
use std::sync::Wait;

/// Syncs each lane (`ProcessSyncRequests`), or returns the one whose sync failed.
pub(crate) fn sync_lanes<L: BlockLane, G: LogDevice, R: Wait>(
    manager: &Manager<L, G>,
    rt: &R,
    pass: &mut Pass,
) -> Result<(), u32>
    requires belongs { Belongs L.contents manager.now pass.old }
    requires none_left { HasNoneLeft (frames_of manager.now.table) pass.old.view }
    ensures syncs { OnOk result (SyncsLanes L.contents manager.now pass.old pass.new) }
    ensures stops { IfErr result (StopsSyncing L.contents manager.now pass.old pass.new) }
    ensures complete { pass.new.view.met ≡ pass.old.view.met → IsOk result }
{
    for lane in 0..manager.lanes() {
        match pass.sync_lane(manager, rt, lane) {
            Ok(()) => {}
            Err(Failed) => return Err(lane),
        }
    }
    Ok(())
}
