//! Pins are given up, and waiters woken (`UnpinBuffer`).
//!
//! Pins of victims and of wrong hints are given up so, too: another backend may pin such a frame
//! and wait for it. The header is locked only if the word that the unpin left has
//! `BM_PIN_COUNT_WAITER` and a count of 1. PostgreSQL locks it for the bit alone, and looks at the
//! count then.
ghost use Rattle.std.specs.Prelude.{◌≡◌, false};
ghost use Rattle.state_word.specs.Fields.{fields};
ghost use Rattle.pin_core.specs.State.{link};
ghost use Rattle.pin_core.specs.Steps.{HoldsNoHeader};
ghost use Rattle.frame_table.specs.Seats.{CanStep, Looked, MayUnpin, SameMarks, SameSeat, Touches, unpinned_link};
ghost use Rattle.cleanup_lock.specs.Waking.{Wakes, Woken, is_lone_waiter};

use atomic_table::Seat;
use byte_devices::LogDevice;
use frame_table::{FrameTable, Pin, Value};
use pin_core::View;
use segment_store::BlockLane;
use state_word::{Flag, has, pins};
use std::sync::Wait;

/// Whether a state word shows a backend that waits, and its pin alone.
fn shows_lone_waiter(word: u64) -> bool
    ensures { result ≡ is_lone_waiter (fields word) }
{
    has(word, Flag::PinCountWaiter) && pins(word) == 1
}

/// Wakes the backend that waits, if its pin is the only one still: another backend may have pinned
/// the frame meanwhile, and will wake it then.
fn wake<L: BlockLane, G: LogDevice, R: Wait>(
    table: &FrameTable<L, G>,
    rt: &R,
    seat: &mut Seat<Value<L, G>, View>,
    frame: u32,
)
    requires seat { CanStep table.now seat.old frame }
    requires headless { HoldsNoHeader seat.old.me.0 }
    requires settled { (link seat.old.me.0 frame).pending ≡ false }
    ensures seat { SameSeat seat.old seat.new }
    ensures touches { Touches frame seat.old.me.0 seat.new.me.0 }
    ensures marks { SameMarks seat.old.me.0 seat.new.me.0 }
    ensures left { Looked (link seat.old.me.0 frame) (link seat.new.me.0 frame) }
    ensures did { Wakes frame seat.old.me.0 seat.new.me.0 }
{
    let word = table.lock_header(rt, seat, frame);
    if shows_lone_waiter(word) {
        table.clear_waiter(seat, frame, word);
        return;
    }
    table.unlock_header(seat, frame);
}

/// Gives up a pin, once the header is not locked, and wakes the backend that waits for its own pin
/// to be the only one. Each pin of a backend is to be given up so.
pub fn unpin_and_wake<L: BlockLane, G: LogDevice, R: Wait>(
    table: &FrameTable<L, G>,
    rt: &R,
    seat: &mut Seat<Value<L, G>, View>,
    pin: Pin,
)
    requires seat { CanStep table.now seat.old pin.frame }
    requires headless { HoldsNoHeader seat.old.me.0 }
    requires settled { (link seat.old.me.0 pin.frame).pending ≡ false }
    requires pinned { MayUnpin (link seat.old.me.0 pin.frame) }
    ensures seat { SameSeat seat.old seat.new }
    ensures touches { Touches pin.frame seat.old.me.0 seat.new.me.0 }
    ensures marks { SameMarks seat.old.me.0 seat.new.me.0 }
    ensures unpinned { Looked (unpinned_link (link seat.old.me.0 pin.frame))
        (link seat.new.me.0 pin.frame) }
    ensures did { Woken pin.frame seat.old.me.0 seat.new.me.0 }
{
    let frame = pin.frame();
    let left = table.unpin(rt, seat, pin);
    if shows_lone_waiter(left) {
        wake(table, rt, seat, frame);
        return;
    }
}
