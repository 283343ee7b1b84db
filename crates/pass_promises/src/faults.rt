//! Faults.
ghost use Rattle.std.specs.Prelude.{◌≡◌};
ghost use Rattle.backend_pass.specs.Managers.{Belongs};
ghost use Rattle.backend_pass.specs.Reading.{met_reading};

use access_rings::Ring;
use backend_pass::{Manager, Pass, Pinned, ReadError};
use block_tag::Tag;
use byte_devices::LogDevice;
use segment_store::BlockLane;
use std::sync::Wait;

/// A fault is answered only if one was met (`mdread` reports it).
pub fn read_buffer<L: BlockLane, G: LogDevice, R: Wait>(
    manager: &Manager<L, G>,
    rt: &R,
    pass: &mut Pass,
    tag: Tag,
    ring: &mut Option<Ring>,
) -> Result<Pinned, ReadError>
    requires { Belongs L.contents manager.now pass.old }
    ensures { pass.new.view.met ≡ met_reading result pass.old.view.met }
{
    pass.read_buffer(manager, rt, tag, ring)
}
