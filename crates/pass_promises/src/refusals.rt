//! What is granted, and what is refused.
ghost use Rattle.std.specs.Prelude.{◌≡◌, IfOk};
ghost use Rattle.pin_core.specs.declared.view.Content.TheVariants as lock;
ghost use Rattle.frame_table.specs.Seats.{relations_of};
ghost use Rattle.cleanup_lock.specs.Cleanup.{GrantsCleanup};
ghost use Rattle.buffer_frames.specs.Tokens.{IsPinnedFor};
ghost use Rattle.backend_pass.specs.Locks.{HasLock};
ghost use Rattle.backend_pass.specs.Managers.{Belongs};
ghost use Rattle.backend_pass.specs.Reading.{at_once_of, refused_at_once};

use access_rings::Ring;
use backend_pass::{CleanupError, Exclusive, Manager, Pass, Pinned, ReadError, Refused};
use block_tag::Tag;
use byte_devices::LogDevice;
use segment_store::BlockLane;
use std::sync::Wait;

/// A block past the end, and a token too many, are refused at once, in this order, and nothing else
/// is refused so.
pub fn read_inside<L: BlockLane, G: LogDevice, R: Wait>(
    manager: &Manager<L, G>,
    rt: &R,
    pass: &mut Pass,
    tag: Tag,
    ring: &mut Option<Ring>,
) -> Result<Pinned, ReadError>
    requires { Belongs L.contents manager.now pass.old }
    ensures { at_once_of result
        ≡ refused_at_once (relations_of manager.now.table) pass.old.tokens tag }
{
    pass.read_buffer(manager, rt, tag, ring)
}

/// A cleanup lock is granted for a count of one pin that was seen under the exclusive lock
/// (`LockBufferForCleanup`).
pub fn lock_cleanup<L: BlockLane, G: LogDevice, R: Wait>(
    manager: &Manager<L, G>,
    rt: &R,
    pass: &mut Pass,
    pinned: Pinned,
) -> Result<Exclusive, Refused<CleanupError>>
    requires belongs { Belongs L.contents manager.now pass.old }
    requires pinned { IsPinnedFor pinned.tag pinned.frame pass.old.tokens }
    requires unlocked { HasLock lock.Unlocked pinned.frame pass.old }
    ensures { IfOk result (λ _. GrantsCleanup pass.old.view.number pinned.frame
        pass.old.view pass.new.view) }
{
    pass.lock_cleanup(manager, rt, pinned)
}
