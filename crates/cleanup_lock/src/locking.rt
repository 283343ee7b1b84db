//! The cleanup lock, and the wait for it (`LockBufferForCleanup`).
//!
//! `lock` locks the header too, since it sets the waiter by the same word; `try_lock` loads the
//! word once without it. The wait is a loop of loads, which ends when the bit is clear or another
//! backend's.
//!
//! PostgreSQL's waiter sleeps, and clears a bit that is still its own. Here the backend that wakes
//! it clears the bit, at a count of 1. So a backend that was refused because another one waits may
//! find the lock free at once.
ghost use Rattle.std.specs.Prelude.{◌≡◌, ◌<◌, IfErr, IfOk, None, Some};
ghost use Rattle.state_word.specs.Fields.{fields};
ghost use Rattle.pin_core.specs.State.{link};
ghost use Rattle.pin_core.specs.Steps.{HoldsNoHeader};
ghost use Rattle.page_core.specs.Steps.{MayWait};
ghost use Rattle.frame_table.specs.Content.{exclusive_link};
ghost use Rattle.frame_table.specs.Seats.{CanStep, Looked, SameMarks, SameSeat, Touches, locked_link};
ghost use Rattle.cleanup_lock.specs.Cleanup.{Attempted, CanLockForCleanup, ChangesContent, GrantsCleanup, LooksUnderBoth, RefusesCleanup, WaitsUntilOver, is_waiter, local_pins, refused_tokens, unawaited_link};

use atomic_table::Seat;
use byte_devices::LogDevice;
use content_locks::{exclusive, unexclusive};
use frame_table::{FrameTable, Value};
use pin_core::View;
use segment_store::BlockLane;
use state_word::{Flag, has, pins, waiter};
use std::sync::Wait;
use std::thread;
use thiserror::Error;

/// Why a cleanup lock was not taken.
#[derive(Clone, Copy, PartialEq, Eq, Debug, Error)]
pub enum CleanupError {
    /// Callers have so many tokens of the backend's pin, and not one.
    #[error("the backend has pinned the buffer {count} times")]
    LocalPins { count: u32 },
    /// The backend of this number waits for the frame already.
    #[error("backend {backend} is already waiting for the buffer's only pin")]
    OtherWaiter { backend: u32 },
}

/// What came of one attempt.
enum Attempt {
    Granted,
    OtherWaiter { backend: u32 },
    /// There were other pins, and they may have gone.
    Waited,
}

/// Whether a state word shows the backend of this number as the waiter.
fn shows_waiter(word: u64, number: u32) -> bool
    ensures { result ≡ is_waiter number (fields word) }
{
    has(word, Flag::PinCountWaiter) && waiter(word) == number
}

/// Takes the content lock exclusively, once no backend has it, and then the header's lock, and
/// loads the state word under both.
fn look_under_exclusive<L: BlockLane, G: LogDevice, R: Wait>(
    table: &FrameTable<L, G>,
    rt: &R,
    seat: &mut Seat<Value<L, G>, View>,
    frame: u32,
) -> u64
    requires seat { CanStep table.now seat.old frame }
    requires headless { HoldsNoHeader seat.old.me.0 }
    requires view { CanLockForCleanup (link seat.old.me.0 frame) }
    requires no_wait { (link seat.old.me.0 frame).waits ≡ None }
    ensures seat { SameSeat seat.old seat.new }
    ensures touches { Touches frame seat.old.me.0 seat.new.me.0 }
    ensures marks { SameMarks seat.old.me.0 seat.new.me.0 }
    ensures held { Looked (locked_link result (exclusive_link (link seat.old.me.0 frame)))
        (link seat.new.me.0 frame) }
    ensures some { 0 < (fields result).pins }
    ensures did { LooksUnderBoth frame result seat.old.me.0 seat.new.me.0 }
{
    exclusive(table, rt, seat, frame);
    table.lock_header(rt, seat, frame);
    table.look(seat, frame)
}

/// Waits until the bit is clear or another backend's.
fn wait<L: BlockLane, G: LogDevice, R: Wait>(
    table: &FrameTable<L, G>,
    rt: &R,
    seat: &mut Seat<Value<L, G>, View>,
    frame: u32,
    number: u32,
)
    requires seat { CanStep table.now seat.old frame }
    requires waits { (link seat.old.me.0 frame).waits ≡ Some number }
    ensures seat { SameSeat seat.old seat.new }
    ensures touches { Touches frame seat.old.me.0 seat.new.me.0 }
    ensures marks { SameMarks seat.old.me.0 seat.new.me.0 }
    ensures over { Looked (unawaited_link (link seat.old.me.0 frame)) (link seat.new.me.0 frame) }
    ensures did { WaitsUntilOver number frame seat.old.me.0 seat.new.me.0 }
{
    for _ in rt.forever() {
        let word = table.look(seat, frame);
        if !shows_waiter(word, number) {
            return;
        }
        thread::yield_now();
    }
    unreachable!()
}

/// One attempt: the lock is granted if the backend's pin is the only one. Else the backend becomes
/// the waiter, if there is none, gives the content lock up and waits.
fn attempt_lock<L: BlockLane, G: LogDevice, R: Wait>(
    table: &FrameTable<L, G>,
    rt: &R,
    seat: &mut Seat<Value<L, G>, View>,
    frame: u32,
    number: u32,
) -> Attempt
    requires seat { CanStep table.now seat.old frame }
    requires headless { HoldsNoHeader seat.old.me.0 }
    requires view { CanLockForCleanup (link seat.old.me.0 frame) }
    requires may { MayWait number seat.old.me.0 }
    ensures seat { SameSeat seat.old seat.new }
    ensures touches { Touches frame seat.old.me.0 seat.new.me.0 }
    ensures marks { SameMarks seat.old.me.0 seat.new.me.0 }
    ensures leaves { ChangesContent result (link seat.old.me.0 frame) (link seat.new.me.0 frame) }
    ensures did { Attempted number frame seat.old.me.0 seat.new.me.0 result }
{
    let word = look_under_exclusive(table, rt, seat, frame);
    if pins(word) == 1 {
        table.unlock_header(seat, frame);
        return Attempt::Granted;
    }
    if has(word, Flag::PinCountWaiter) {
        table.unlock_header(seat, frame);
        unexclusive(table, seat, frame);
        return Attempt::OtherWaiter {
            backend: waiter(word),
        };
    }
    table.set_waiter(seat, frame, word, number);
    unexclusive(table, seat, frame);
    wait(table, rt, seat, frame, number);
    Attempt::Waited
}

/// Takes the cleanup lock of a pinned frame, by the backend of this number, of whose pin callers
/// have so many tokens. It waits until no other backend has the content lock or pins the frame; one
/// backend at a time may wait so.
pub fn lock<L: BlockLane, G: LogDevice, R: Wait>(
    table: &FrameTable<L, G>,
    rt: &R,
    seat: &mut Seat<Value<L, G>, View>,
    frame: u32,
    tokens: u32,
    number: u32,
) -> Result<(), CleanupError>
    requires seat { CanStep table.now seat.old frame }
    requires headless { HoldsNoHeader seat.old.me.0 }
    requires view { CanLockForCleanup (link seat.old.me.0 frame) }
    requires may { MayWait number seat.old.me.0 }
    ensures seat { SameSeat seat.old seat.new }
    ensures touches { Touches frame seat.old.me.0 seat.new.me.0 }
    ensures marks { SameMarks seat.old.me.0 seat.new.me.0 }
    ensures local { local_pins result ≡ refused_tokens tokens }
    ensures locked { IfOk result (λ _. Looked (exclusive_link (link seat.old.me.0 frame))
        (link seat.new.me.0 frame)) }
    ensures left { IfErr result (λ _. Looked (link seat.old.me.0 frame) (link seat.new.me.0 frame)) }
    ensures granted { IfOk result (λ _. GrantsCleanup number frame seat.old.me.0 seat.new.me.0) }
    ensures cause { IfErr result (RefusesCleanup number frame seat.old.me.0 seat.new.me.0) }
{
    if tokens != 1 {
        return Err(CleanupError::LocalPins { count: tokens });
    }
    for _ in rt.forever() {
        match attempt_lock(table, rt, seat, frame, number) {
            Attempt::Granted => return Ok(()),
            Attempt::OtherWaiter { backend } => return Err(CleanupError::OtherWaiter { backend }),
            Attempt::Waited => {}
        }
    }
    unreachable!()
}
