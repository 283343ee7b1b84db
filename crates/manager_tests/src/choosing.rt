//! Victims, by the frames that blocks are read into.
ghost use Rattle.manager_bench.specs.Bench.{IsFree};

use backend_pass::{Manager, Pass, ReadError};
use byte_devices::LogDevice;
use manager_bench::bench::block;
use manager_bench::reading::read_once;
use segment_store::BlockLane;
use std::sync::Wait;

/// Reads the blocks from `from` up to `end`. How many were read into the frame of their own number,
/// and where the clock's hand is then.
pub fn read_in_order<L: BlockLane, G: LogDevice, R: Wait>(
    manager: &Manager<L, G>,
    rt: &R,
    pass: &mut Pass,
    _number: u32,
    from: u32,
    end: u32,
) -> Result<(u32, u64), ReadError>
    requires { IsFree L.contents manager.now _number pass.old }
    ensures { IsFree L.contents manager.now _number pass.new }
{
    let mut own = 0;
    for number in from..end {
        let access = read_once(manager, rt, pass, _number, block(number), &mut None)?;
        if access.frame == number {
            own += 1;
        }
    }
    Ok((own, pass.hand(manager)))
}
