//! A round of the background writer.
//!
//! A round loads the clock's hand once and never moves it; the clock may move on meanwhile.
ghost use Rattle.std.specs.Prelude.{◌≡◌, ◌+◌, ◌<◌, ◌%◌, ℕ, IfErr, IfOk, IsOk};
ghost use Rattle.pin_core.specs.State.{link};
ghost use Rattle.clock_sweep.specs.Keeping.{SamePins};
ghost use Rattle.buffer_frames.specs.Flushing.{met_flushing};
ghost use Rattle.buffer_frames.specs.Working.{KeepsNotes};
ghost use Rattle.buffer_frames.specs.Syncs.{WritesPages};
ghost use Rattle.backend_pass.specs.FrameFlushes.{IsOkOrShort, RefusesFrame, frame_answer};
ghost use Rattle.backend_pass.specs.Managers.{Belongs};
ghost use Rattle.backend_pass.specs.Passes.{KeepsCallers, KeepsMark, NoDeviceFails, SamePass};
ghost use Rattle.backend_pass.specs.Reading.{NothingFails};
ghost use Rattle.bg_writer.specs.Rounds.{Rounds, pages_written_for};

use crate::reports::Round;
use backend_pass::{FlushError, Manager, Pass, SyncOnly, Synced};
use byte_devices::LogDevice;
use segment_store::BlockLane;
use std::sync::Wait;

/// How many pages a round writes at most (`bgwriter_lru_maxpages`).
pub const MOST_WRITES: u32 = 100;

/// The frame that stands this many places past the clock's hand.
fn frame_past(hand: u64, places: u32, frames: u32) -> u32
    requires { places < frames }
    ensures { result ≡ (hand + places) % frames }
{
    let frames = u64::from(frames);
    ((hand % frames + u64::from(places)) % frames) as u32
}

/// How many pages were written for a frame.
fn pages(synced: Synced) -> u32
    ensures { result ≡ pages_written_for synced }
{
    match synced {
        Synced::Written => 1,
        _ => 0,
    }
}

/// Writes dirty frames that no backend pins and whose usage count is 0, so that victims needn't be
/// written (`BgBufferSync`). It looks at the frames in order from the clock's hand on, until it has
/// looked at all of them or written 100 pages.
pub fn round<L: BlockLane, G: LogDevice, R: Wait>(
    manager: &Manager<L, G>,
    rt: &R,
    pass: &mut Pass,
) -> Result<Round, FlushError>
    requires belongs { Belongs L.contents manager.now pass.old }
    ensures belongs { Belongs L.contents manager.now pass.new }
    ensures same { SamePass pass.old pass.new }
    ensures callers { KeepsCallers pass.old pass.new }
    ensures mark { KeepsMark pass.old pass.new }
    ensures pins { SamePins pass.old.view pass.new.view }
    ensures notes { (f : ℕ) → KeepsNotes (link pass.old.view f) (link pass.new.view f) }

    // The frames were looked at in order from the hand on, as this call loaded it, and each was
    // passed over exactly for its state word then, or written; and this is where that ended.
    ensures rounds { Rounds L.contents manager.now.table pass.old.view pass.new.view result }

    ensures cause { IfErr result (RefusesFrame L.contents manager.now.table pass.old pass.new) }

    // This many pages went to lanes.
    ensures written { IfOk result (λ round. WritesPages round.written pass.old.view pass.new.view) }
    ensures met { pass.new.view.met ≡ met_flushing (frame_answer result) pass.old.view.met }

    // It ends well if no device fails and the log isn't down, unless a page is past the log's end.
    ensures short { NoDeviceFails pass.old pass.new → IsOkOrShort result }

    // So it ends well if no device fails, the log isn't down, and no page has a position past the
    // end that was seen.
    ensures complete { NothingFails L.contents manager.now.table pass.old pass.new → IsOk result }
{
    let frames = manager.frames();
    let hand = pass.hand(manager);
    let mut written = 0;
    for looked in 0..frames {
        if written == MOST_WRITES {
            return Ok(Round { looked, written });
        }
        let frame = frame_past(hand, looked, frames);
        let synced = match pass.sync_one(manager, rt, frame, SyncOnly::NotRecentlyUsed) {
            Ok(synced) => synced,
            Err(why) => return Err(why),
        };
        written += pages(synced);
    }
    Ok(Round {
        looked: frames,
        written,
    })
}
