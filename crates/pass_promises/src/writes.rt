//! Pages that are put and written.
ghost use Rattle.std.specs.Prelude.{◌≡◌, false, true};
ghost use Rattle.block_tag.specs.Names.{lane_number};
ghost use Rattle.page_layout.specs.Soundness.{is_new_page, is_sound_page};
ghost use Rattle.pin_core.specs.declared.view.Content.TheVariants as lock;
ghost use Rattle.frame_table.specs.Seats.{lanes_in, relations_of};
ghost use Rattle.buffer_frames.specs.Flushing.{FlushAnswer};
ghost use Rattle.buffer_frames.specs.Puts.{PutAnswer};
ghost use Rattle.buffer_frames.specs.Tokens.{IsPinnedFor};
ghost use Rattle.backend_pass.specs.FrameFlushes.{page_answer};
ghost use Rattle.backend_pass.specs.Locks.{HasLock};
ghost use Rattle.backend_pass.specs.Managers.{Belongs};

use backend_pass::{Exclusive, FlushError, Manager, Pass, Pinned, PutError};
use byte_devices::LogDevice;
use page_layout::{Lsn, Page};
use segment_store::BlockLane;
use std::sync::Wait;

/// A put that is Ok has inserted the page into the log, once, and it is the frame's page then
/// (`XLogInsert`).
pub fn put<L: BlockLane, G: LogDevice, R: Wait>(
    manager: &Manager<L, G>,
    rt: &R,
    pass: &mut Pass,
    exclusive: &mut Exclusive,
    page: &Page,
) -> Result<Lsn, PutError>
    requires belongs { Belongs L.contents manager.now pass.old }
    requires pinned { IsPinnedFor exclusive.old.pinned.tag exclusive.old.pinned.frame
        pass.old.tokens }
    requires locked { HasLock lock.Exclusive exclusive.old.pinned.frame pass.old }
    requires sound { is_sound_page page.now ≡ true }
    requires used { is_new_page page.now ≡ false }
    ensures { PutAnswer (relations_of manager.now.table) exclusive.old.pinned.frame
        exclusive.old.pinned.tag page.now pass.old.view pass.new.view result }
{
    pass.put(manager, rt, exclusive, page)
}

/// A flush that says that it wrote has written the frame's page (`FlushOneBuffer`).
pub fn flush<L: BlockLane, G: LogDevice, R: Wait>(
    manager: &Manager<L, G>,
    rt: &R,
    pass: &mut Pass,
    pinned: &Pinned,
) -> Result<bool, FlushError>
    requires belongs { Belongs L.contents manager.now pass.old }
    requires pinned { IsPinnedFor pinned.now.tag pinned.now.frame pass.old.tokens }
    requires unlocked { HasLock lock.Unlocked pinned.now.frame pass.old }
    ensures { FlushAnswer L.contents manager.now.table
        (lane_number pinned.now.tag (lanes_in manager.now.table)) pinned.now.tag pinned.now.frame
        pass.old.view pass.new.view (page_answer result) }
{
    pass.flush_frame(manager, rt, pinned)
}
