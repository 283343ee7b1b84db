//! A checkpoint writes what it marked.
ghost use Rattle.std.specs.Prelude.{◌≡◌, ◌<◌, ℕ, false, IfErr, IfOk, IsOk, OnOk};
ghost use Rattle.frame_table.specs.Seats.{frames_of};
ghost use Rattle.pin_core.specs.declared.view.Content.TheVariants.{Unlocked};
ghost use Rattle.pin_core.specs.State.{link};
ghost use Rattle.backend_pass.specs.Between.{HasNoLock};
ghost use Rattle.backend_pass.specs.Locks.{HasLock};
ghost use Rattle.backend_pass.specs.Managers.{Belongs};
ghost use Rattle.backend_pass.specs.Reading.{NothingFails};
ghost use Rattle.checkpointer.specs.Marked.{AreInside, AreMarked, HasVisited, HasNoneLeft};
ghost use Rattle.checkpointer.specs.Marked.{KeepsEachNote};
ghost use Rattle.checkpointer.specs.Refusals.{StopsWriting};
ghost use Rattle.checkpointer.specs.Stages.{WritesMarked, pages_by};
ghost use Rattle.checkpointer.specs.Writes.{SyncsUntilPassed, SyncsWhileNeeded, WritesInOrder};
ghost use Rattle.checkpointer.specs.Writes.{WritesUpTo};

use backend_pass::{FlushError, Manager, Pass, SyncOnly, Synced};
use byte_devices::LogDevice;
use segment_store::BlockLane;
use std::sync::Wait;

/// How many pages were written for a frame, by its result.
fn pages(synced: Synced) -> u32
    ensures { result ≡ pages_by synced }
{
    match synced {
        Synced::Written => 1,
        Synced::Skipped | Synced::Clean => 0,
    }
}

/// Writes a frame until it is seen without BM_CHECKPOINT_NEEDED, and returns how many times that
/// was. If another backend dirties the frame while it is written the flag stays, and it is written
/// once more.
fn write_frame<L: BlockLane, G: LogDevice, R: Wait>(
    manager: &Manager<L, G>,
    rt: &R,
    pass: &mut Pass,
    frame: u32,
) -> Result<u32, FlushError>
    requires belongs { Belongs L.contents manager.now pass.old }
    requires inside { frame < frames_of manager.now.table }
    requires unlocked { HasLock Unlocked frame pass.old }
    ensures writes { IfOk result
        (λ written. WritesMarked L.contents manager.now written pass.old pass.new) }
    ensures not_left_to_write { OnOk result ((link pass.new.view frame).left_to_write ≡ false) }
    ensures notes { OnOk result (KeepsEachNote pass.old.view pass.new.view) }
    ensures marked { pass.new.marked ≡ pass.old.marked }
    ensures passed { OnOk result
        (SyncsUntilPassed L.contents manager.now.table frame pass.old.view pass.new.view) }
    ensures stops { IfErr result (StopsWriting L.contents manager.now
        (SyncsWhileNeeded L.contents manager.now.table frame pass.old.view) frame pass.old pass.new) }
    ensures complete { NothingFails L.contents manager.now.table pass.old pass.new → IsOk result }
{
    let mut written = 0u32;
    for _ in rt.forever() {
        let synced = match pass.sync_one(manager, rt, frame, SyncOnly::Needed) {
            Ok(synced) => synced,
            Err(why) => return Err(why),
        };
        if let Synced::Skipped = synced {
            return Ok(written);
        }
        written = written.saturating_add(pages(synced));
    }
    unreachable!()
}

/// Writes each frame that was marked and needs it still, and returns how many pages were written
/// (`BufferSync`).
pub(crate) fn write_marked<L: BlockLane, G: LogDevice, R: Wait>(
    manager: &Manager<L, G>,
    rt: &R,
    pass: &mut Pass,
) -> Result<u32, FlushError>
    requires belongs { Belongs L.contents manager.now pass.old }
    requires unlocked { HasNoLock pass.old }
    requires visited { HasVisited (frames_of manager.now.table) pass.old.view }
    requires marked { AreMarked pass.old.marked pass.old.view }
    requires inside { AreInside (frames_of manager.now.table) pass.old.marked }
    ensures writes { IfOk result
        (λ written. WritesMarked L.contents manager.now written pass.old pass.new) }
    ensures none_left { OnOk result (HasNoneLeft (frames_of manager.now.table) pass.new.view) }
    ensures in_order { OnOk result (WritesInOrder L.contents manager.now.table
        pass.old.view pass.old.marked pass.new.view) }
    ensures stops { IfErr result (λ why. (f : ℕ) × StopsWriting L.contents manager.now
        (WritesUpTo L.contents manager.now.table pass.old.marked f pass.old.view) f pass.old pass.new why) }
    ensures complete { NothingFails L.contents manager.now.table pass.old pass.new → IsOk result }
{
    let mut written = 0u32;
    for place in 0..pass.marked().len() {
        let frame = pass.marked()[place].frame;
        match write_frame(manager, rt, pass, frame) {
            Ok(more) => written = written.saturating_add(more),
            Err(why) => return Err(why),
        }
    }
    Ok(written)
}
