//! Blocks that are found or read, and their pages.
ghost use Rattle.std.specs.Prelude.{◌≡◌, None};
ghost use Rattle.pin_core.specs.declared.view.Content.TheVariants as lock;
ghost use Rattle.frame_table.specs.Seats.{relations_of};
ghost use Rattle.buffer_frames.specs.PageReads.{ReadsPage};
ghost use Rattle.buffer_frames.specs.Tokens.{IsNew, IsPinnedFor};
ghost use Rattle.backend_pass.specs.Locks.{HasLock};
ghost use Rattle.backend_pass.specs.Managers.{Belongs};
ghost use Rattle.backend_pass.specs.Reading.{ReadsBlock, refused_at_once};

use access_rings::Ring;
use backend_pass::{Manager, Pass, Pinned, ReadError};
use block_tag::Tag;
use byte_devices::LogDevice;
use page_layout::{Lsn, Page};
use segment_store::BlockLane;
use std::sync::Wait;

/// A block of the fork is pinned, unless a device failed, its page isn't sound, or each frame was
/// seen pinned in this call (`StrategyGetBuffer`: "no unpinned buffers available").
pub fn read_new<L: BlockLane, G: LogDevice, R: Wait>(
    manager: &Manager<L, G>,
    rt: &R,
    pass: &mut Pass,
    tag: Tag,
    ring: &mut Option<Ring>,
) -> Result<Pinned, ReadError>
    requires belongs { Belongs L.contents manager.now pass.old }
    requires inside { refused_at_once (relations_of manager.now.table) pass.old.tokens tag ≡ None }
    requires new { IsNew tag pass.old.tokens }
    ensures { ReadsBlock L.contents manager.now.table tag ring.old ring.new
        pass.old pass.new result }
{
    pass.read_buffer(manager, rt, tag, ring)
}

/// The page is read in the call, at a place in the log that is not before those of earlier reads.
pub fn read_page<L: BlockLane, G: LogDevice, R: Wait>(
    manager: &Manager<L, G>,
    rt: &R,
    pass: &mut Pass,
    pinned: &Pinned,
    page: &mut Page,
) -> Lsn
    requires belongs { Belongs L.contents manager.now pass.old }
    requires pinned { IsPinnedFor pinned.now.tag pinned.now.frame pass.old.tokens }
    requires unlocked { HasLock lock.Unlocked pinned.now.frame pass.old }
    ensures { ReadsPage L.contents manager.now.table pinned.now.tag page.new result
        pass.old.view pass.new.view }
{
    pass.read_page(manager, rt, pinned, page)
}
