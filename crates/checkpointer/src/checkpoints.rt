//! A checkpoint.
//!
//! A checkpoint calls `begin_checkpoint`, `need_checkpoint`, `sync_one`, `flush_log` and
//! `sync_lane` of a pass, in this order. In another order less can be said at the end. Beginning a
//! checkpoint forgets what the last one marked; `sync_lane` sets the pass's mark.
ghost use Rattle.std.specs.Prelude.{◌≡◌, ℕ, IfErr, IfOk, IsOk};
ghost use Rattle.backend_pass.specs.Between.{HasNoLock};
ghost use Rattle.backend_pass.specs.Managers.{Belongs};
ghost use Rattle.backend_pass.specs.Passes.{KeepsCallers, NoDeviceFails};
ghost use Rattle.backend_pass.specs.Reading.{NothingFails};
ghost use Rattle.checkpointer.specs.Checkpoints.{Begins, Completes};
ghost use Rattle.checkpointer.specs.Refusals.{IsCompleteOrShort, Stops, met_checkpointing};

use crate::ending::{Checkpoint, CheckpointError, unflushed, unwritten};
use crate::lanes::sync_lanes;
use crate::marking::mark_frames;
use crate::writing::write_marked;
use backend_pass::{Manager, Pass};
use byte_devices::LogDevice;
use segment_store::BlockLane;
use std::sync::Wait;

/// Makes a checkpoint (`CheckPointBuffers`): marks each dirty frame, writes those still marked in
/// the order of their tags, flushes the log up to where it ended at first, and syncs each lane. The
/// pass has no content lock.
pub fn checkpoint<L: BlockLane, G: LogDevice, R: Wait>(
    manager: &Manager<L, G>,
    rt: &R,
    pass: &mut Pass,
) -> Result<Checkpoint, CheckpointError>
    requires belongs { Belongs L.contents manager.now pass.old }
    requires unlocked { HasNoLock pass.old }
    ensures belongs { Belongs L.contents manager.now pass.new }
    ensures callers { KeepsCallers pass.old pass.new }

    // If it completes, it wrote the frames that it noted as dirty and no other, in the order of
    // their tags, and what was logged up to its beginning is stored.
    ensures completes { IfOk result
        (λ done. Completes L.contents manager.now.table done pass.old.view pass.new.view) }

    // If it stops, this is why, how far it came in that order, and which devices were called.
    ensures stops { IfErr result
        (λ why. (upto : ℕ) × Begins upto pass.old.view pass.new.view
        × Stops L.contents manager.now upto pass.old.view pass.new.view why) }
    ensures met { pass.new.view.met ≡ met_checkpointing result pass.old.view.met }

    // It completes if no device fails and the log isn't down, unless a page is past the log's end.
    ensures short { NoDeviceFails pass.old pass.new → IsCompleteOrShort result }

    // So it completes if no device fails, the log isn't down, and no page has a position past the
    // end that was seen.
    ensures complete { NothingFails L.contents manager.now.table pass.old pass.new → IsOk result }
{
    pass.forget_marked();
    let upto = pass.begin_checkpoint(manager);
    mark_frames(manager, rt, pass);
    let written = match write_marked(manager, rt, pass) {
        Ok(written) => written,
        Err(why) => return Err(unwritten(why)),
    };
    match pass.flush_log(manager, rt, upto) {
        Ok(()) => {}
        Err(why) => return Err(unflushed(why)),
    }
    match sync_lanes(manager, rt, pass) {
        Ok(()) => Ok(Checkpoint { upto, written }),
        Err(lane) => Err(CheckpointError::SyncFault { lane }),
    }
}
