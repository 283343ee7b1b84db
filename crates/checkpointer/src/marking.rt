//! A checkpoint marks what it has to write.
ghost use Rattle.std.specs.Prelude.{◌≡◌, ◌≢◌, ◌+◌, ◌<◌, ◌≤◌, ℕ, [], length, true};
ghost use Rattle.frame_table.specs.Seats.{frames_of};
ghost use Rattle.pin_core.specs.declared.view.View.{View};
ghost use Rattle.pin_core.specs.State.{link};
ghost use Rattle.backend_pass.specs.Managers.{Belongs};
ghost use Rattle.checkpointer.specs.Marked.{AreInside, AreMarked, HasVisited, HasNoneToWrite};
ghost use Rattle.checkpointer.specs.Marked.{ListsDirty, NotesInOrder};
ghost use Rattle.checkpointer.specs.Stages.{MarksFrames};

use backend_pass::{Manager, MarkedFrame, Pass};
use byte_devices::LogDevice;
use segment_store::BlockLane;
use std::sync::Wait;

/// Sets BM_CHECKPOINT_NEEDED in a frame that is dirty, and lists it.
fn mark_frame<L: BlockLane, G: LogDevice, R: Wait>(
    manager: &Manager<L, G>,
    rt: &R,
    pass: &mut Pass,
    frame: u32,
)
    requires belongs { Belongs L.contents manager.now pass.old }
    requires inside { frame < frames_of manager.now.table }
    requires room { length pass.old.marked ≤ frame }
    ensures marks { MarksFrames L.contents manager.now pass.old pass.new }
    ensures visited { (link pass.new.view frame).visited ≡ true }
    ensures others { (g : ℕ) → g ≢ frame → link pass.new.view g ≡ link pass.old.view g }
    ensures marked { AreMarked pass.old.marked pass.old.view
        → AreMarked pass.new.marked pass.new.view }
    ensures inside { AreInside (frames_of manager.now.table) pass.old.marked
        → AreInside (frames_of manager.now.table) pass.new.marked }
    ensures room { length pass.new.marked ≤ frame + 1 }
    ensures notes { (v : View) → NotesInOrder v frame pass.old.view pass.old.marked
        → NotesInOrder v (frame + 1) pass.new.view pass.new.marked }
{
    let Some(tag) = pass.need_checkpoint(manager, rt, frame) else {
        return;
    };
    pass.note_marked(MarkedFrame {
        tag: tag.pack(),
        frame,
    });
}

/// Sets BM_CHECKPOINT_NEEDED in each dirty frame, and lists these in the order of their tags
/// (`BufferSync`).
pub(crate) fn mark_frames<L: BlockLane, G: LogDevice, R: Wait>(
    manager: &Manager<L, G>,
    rt: &R,
    pass: &mut Pass,
)
    requires belongs { Belongs L.contents manager.now pass.old }
    requires not_left_to_write { HasNoneToWrite pass.old.view }
    requires none { pass.old.marked ≡ [] }
    ensures marks { MarksFrames L.contents manager.now pass.old pass.new }
    ensures visited { HasVisited (frames_of manager.now.table) pass.new.view }
    ensures marked { AreMarked pass.new.marked pass.new.view }
    ensures inside { AreInside (frames_of manager.now.table) pass.new.marked }
    ensures lists { ListsDirty (frames_of manager.now.table) pass.new.marked pass.old.view
        pass.new.view }
{
    for frame in 0..manager.frames() {
        mark_frame(manager, rt, pass, frame);
    }
    pass.sort_marked();
}
