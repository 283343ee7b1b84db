//! Rounds and checkpoints by a pass that has no token.
ghost use Rattle.manager_bench.specs.Bench.{IsFree};

use backend_pass::{FlushError, Manager, Pass};
use bg_writer::{Round, round};
use byte_devices::LogDevice;
use checkpointer::{Checkpoint, CheckpointError, checkpoint};
use segment_store::BlockLane;
use std::sync::Wait;

/// Makes a round.
pub fn round_once<L: BlockLane, G: LogDevice, R: Wait>(
    manager: &Manager<L, G>,
    rt: &R,
    pass: &mut Pass,
    _number: u32,
) -> Result<Round, FlushError>
    requires { IsFree L.contents manager.now _number pass.old }
    ensures { IsFree L.contents manager.now _number pass.new }
{
    round(manager, rt, pass)
}

/// Makes a checkpoint.
pub fn checkpoint_once<L: BlockLane, G: LogDevice, R: Wait>(
    manager: &Manager<L, G>,
    rt: &R,
    pass: &mut Pass,
    _number: u32,
) -> Result<Checkpoint, CheckpointError>
    requires { IsFree L.contents manager.now _number pass.old }
    ensures { IsFree L.contents manager.now _number pass.new }
{
    checkpoint(manager, rt, pass)
}
