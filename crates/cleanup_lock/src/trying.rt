//! The cleanup lock without a wait (`ConditionalLockBufferForCleanup`).
ghost use Rattle.std.specs.Prelude.{◌≡◌, IfErr, IfOk};
ghost use Rattle.pin_core.specs.State.{link};
ghost use Rattle.frame_table.specs.Content.{exclusive_link};
ghost use Rattle.frame_table.specs.Seats.{CanStep, Looked, SameMarks, SameSeat, Touches};
ghost use Rattle.cleanup_lock.specs.Cleanup.{CanLockForCleanup, GrantsTry, RefusesTry, refused_tokens, tried_local_pins};

use atomic_table::Seat;
use byte_devices::LogDevice;
use content_locks::{TryLock, try_exclusive, unexclusive};
use frame_table::{FrameTable, Value};
use pin_core::View;
use segment_store::BlockLane;
use state_word::pins;

/// Why a cleanup lock was not taken without a wait.
#[derive(Clone, Copy, PartialEq, Eq, Debug)]
pub enum TryCleanup {
    /// Callers have so many tokens of the backend's pin, and not one.
    LocalPins { count: u32 },
    /// The content word shows that the content lock is held.
    Busy { word: u64 },
    /// The content word changed from the one to the other.
    Changed { was: u64, now: u64 },
    /// Other backends pin the frame: the state word, loaded under the exclusive lock.
    OtherPins { word: u64 },
}

/// Takes the cleanup lock of a pinned frame of whose pin callers have so many tokens, if no backend
/// has the content lock and no other pins the frame. It doesn't wait.
pub fn try_lock<L: BlockLane, G: LogDevice>(
    table: &FrameTable<L, G>,
    seat: &mut Seat<Value<L, G>, View>,
    frame: u32,
    tokens: u32,
) -> Result<(), TryCleanup>
    requires seat { CanStep table.now seat.old frame }
    requires view { CanLockForCleanup (link seat.old.me.0 frame) }
    ensures seat { SameSeat seat.old seat.new }
    ensures touches { Touches frame seat.old.me.0 seat.new.me.0 }
    ensures marks { SameMarks seat.old.me.0 seat.new.me.0 }
    ensures local { tried_local_pins result ≡ refused_tokens tokens }
    ensures locked { IfOk result (λ _. Looked (exclusive_link (link seat.old.me.0 frame))
        (link seat.new.me.0 frame)) }
    ensures left { IfErr result (λ _. Looked (link seat.old.me.0 frame) (link seat.new.me.0 frame)) }
    ensures granted { IfOk result (λ _. GrantsTry frame seat.old.me.0 seat.new.me.0) }
    ensures cause { IfErr result (RefusesTry frame seat.old.me.0 seat.new.me.0) }
{
    if tokens != 1 {
        return Err(TryCleanup::LocalPins { count: tokens });
    }
    match try_exclusive(table, seat, frame) {
        Ok(()) => {
            let word = table.look(seat, frame);
            if pins(word) == 1 {
                return Ok(());
            }
            unexclusive(table, seat, frame);
            Err(TryCleanup::OtherPins { word })
        }
        Err(TryLock::Busy { word }) => Err(TryCleanup::Busy { word }),
        Err(TryLock::Changed { was, now }) => Err(TryCleanup::Changed { was, now }),
    }
}
