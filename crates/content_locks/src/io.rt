//! The rights to read a page and to write it (`StartBufferIO`, `TerminateBufferIO`).
ghost use Rattle.std.specs.Prelude.{◌≡◌, ℕ, true, IfNone, IfSome, MatchOption};
ghost use Rattle.state_word.specs.declared.word.IoEnd.TheVariants.{ReadOk};
ghost use Rattle.state_word.specs.Fields.{fields, io_ended_fields, unlocked_fields};
ghost use Rattle.pin_core.specs.State.{link};
ghost use Rattle.pin_core.specs.Steps.{HoldsNoHeader};
ghost use Rattle.page_core.specs.Steps.{HasNoIo, HasNoWriteOut};
ghost use Rattle.frame_table.specs.Seats.{CanStep, Looked, MarksBegun, MarksEnded, SameMarks, SameSeat, Touches};
ghost use Rattle.frame_table.specs.Content.{begun_link, finished_link};
ghost use Rattle.content_locks.specs.Io.{BeginsIo, MayEndIo, CanStartIo, EndsIo, FindsNothing, TriedIo, is_input, is_nothing};

use atomic_table::Seat;
use byte_devices::LogDevice;
use frame_table::{FrameTable, IoRight, Value};
use pin_core::View;
use segment_store::BlockLane;
use state_word::{Flag, IoEnd, has};
use std::sync::Wait;
use std::thread;

/// Whether a page is read or written (`forInput` of `StartBufferIO`).
#[derive(Clone, Copy)]
pub enum Direction {
    /// The page is read: from its lane into its frame.
    Input,
    /// The page is written: from its frame to its lane.
    Output,
}

impl Direction {
    ghost use Rattle.std.specs.Prelude.{◌≡◌};
    ghost use Rattle.content_locks.specs.Io.{is_input};

    /// Whether the page is read.
    fn is_input(self) -> bool
        ensures { result ≡ is_input self }
    {
        match self {
            Direction::Input => true,
            Direction::Output => false,
        }
    }
}

/// What came of one try to begin.
enum TryIo {
    /// Another backend reads or writes the page.
    InProgress,
    /// The page is read, or clean.
    Nothing,
    Begun(IoRight),
}

/// Whether a state word shows nothing to do: a page that is valid, or for a write one that isn't
/// dirty.
fn shows_nothing(word: u64, direction: Direction) -> bool
    ensures { result ≡ is_nothing (is_input direction) (fields word) }
{
    match direction {
        Direction::Input => has(word, Flag::Valid),
        Direction::Output => !has(word, Flag::Dirty),
    }
}

fn try_io<L: BlockLane, G: LogDevice, R: Wait>(
    table: &FrameTable<L, G>,
    rt: &R,
    seat: &mut Seat<Value<L, G>, View>,
    frame: u32,
    direction: Direction,
) -> TryIo
    requires seat { CanStep table.now seat.old frame }
    requires headless { HoldsNoHeader seat.old.me.0 }
    requires quiet { HasNoIo seat.old.me.0 }
    requires view { CanStartIo (is_input direction) (link seat.old.me.0 frame) }
    ensures seat { SameSeat seat.old seat.new }
    ensures touches { Touches frame seat.old.me.0 seat.new.me.0 }
    ensures tried { TriedIo (is_input direction) frame seat.old.me.0 seat.new.me.0 result }
{
    let word = table.lock_header(rt, seat, frame);
    if has(word, Flag::IoInProgress) {
        table.unlock_header(seat, frame);
        return TryIo::InProgress;
    }
    if shows_nothing(word, direction) {
        // The word is held already. But to lock a header shows a pin no flag, and this load does:
        // a backend that finds nothing to read has a pin that has seen BM_VALID.
        table.look(seat, frame);
        table.unlock_header(seat, frame);
        return TryIo::Nothing;
    }
    TryIo::Begun(table.begin_io(seat, frame, word, direction.is_input()))
}

/// Waits until no other backend reads or writes the page, and begins to read it, or to write it. It
/// answers None if the word that it held shows nothing to do: the page is valid, or for a write it
/// isn't dirty.
pub fn start_io<L: BlockLane, G: LogDevice, R: Wait>(
    table: &FrameTable<L, G>,
    rt: &R,
    seat: &mut Seat<Value<L, G>, View>,
    frame: u32,
    direction: Direction,
) -> Option<IoRight>
    requires seat { CanStep table.now seat.old frame }
    requires headless { HoldsNoHeader seat.old.me.0 }
    requires quiet { HasNoIo seat.old.me.0 }
    requires view { CanStartIo (is_input direction) (link seat.old.me.0 frame) }
    ensures seat { SameSeat seat.old seat.new }
    ensures touches { Touches frame seat.old.me.0 seat.new.me.0 }
    ensures marks { MatchOption result (SameMarks seat.old.me.0 seat.new.me.0)
        (λ _. MarksBegun (is_input direction) seat.old.me.0 seat.new.me.0) }
    ensures right { IfSome result (λ r. (r.frame ≡ frame) × (r.input ≡ is_input direction)) }
    ensures begun { IfSome result (λ _. Looked (begun_link (is_input direction) (link seat.old.me.0 frame))
        (link seat.new.me.0 frame)) }
    ensures left { IfNone result (Looked (link seat.old.me.0 frame) (link seat.new.me.0 frame)) }
    ensures seen { IfNone result (is_input direction ≡ true
        → (link seat.new.me.0 frame).seen_valid ≡ true) }
    ensures did { IfSome result (λ _. BeginsIo (is_input direction) frame seat.old.me.0
        seat.new.me.0) }
    ensures cause { IfNone result (FindsNothing (is_input direction) frame seat.old.me.0 seat.new.me.0) }
{
    for _ in rt.forever() {
        match try_io(table, rt, seat, frame, direction) {
            TryIo::InProgress => thread::yield_now(),
            TryIo::Nothing => return None,
            TryIo::Begun(right) => return Some(right),
        }
    }
    unreachable!()
}

/// Ends the read or the write of a page. After a good read the pin has seen `BM_VALID`.
pub fn end_io<L: BlockLane, G: LogDevice, R: Wait>(
    table: &FrameTable<L, G>,
    rt: &R,
    seat: &mut Seat<Value<L, G>, View>,
    right: IoRight,
    end: IoEnd,
)
    requires seat { CanStep table.now seat.old right.frame }
    requires headless { HoldsNoHeader seat.old.me.0 }
    requires no_write { HasNoWriteOut seat.old.me.0 right.frame }
    requires view { MayEndIo end (link seat.old.me.0 right.frame) }
    ensures seat { SameSeat seat.old seat.new }
    ensures touches { Touches right.frame seat.old.me.0 seat.new.me.0 }
    ensures marks { (word : ℕ) × MarksEnded (unlocked_fields (io_ended_fields end (fields word)))
        seat.old.me.0 seat.new.me.0 }
    ensures ended { Looked (finished_link end (link seat.old.me.0 right.frame))
        (link seat.new.me.0 right.frame) }
    ensures seen { end ≡ ReadOk → (link seat.new.me.0 right.frame).seen_valid ≡ true }
    ensures did { EndsIo end right.frame seat.old.me.0 seat.new.me.0 }
{
    let word = table.lock_header(rt, seat, right.frame());
    table.finish_io(seat, right, word, end);
}
