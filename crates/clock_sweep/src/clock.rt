//! The clock, and the census.
ghost use Rattle.std.specs.Prelude.{◌≡◌, ◌<◌, ◌≤◌, ℕ, false, IfErr, IfNone, IfOk, IfSome};
ghost use Rattle.pin_core.specs.declared.view.View.{View};
ghost use Rattle.pin_core.specs.Steps.{HoldsNoHeader};
ghost use Rattle.frame_table.specs.WordSteps.{DidWord, load_hand, view_of};
ghost use Rattle.frame_table.specs.Seats.{CanStep, Grows, IsSeat, SameSeat, frames_of};
ghost use Rattle.clock_sweep.specs.CensusList.{new_census};
ghost use Rattle.clock_sweep.specs.Choosing.{Comes, Counts, FindsUnpinned, NextIs, Sweeps, Takes, Treats};

use crate::census::Census;
use crate::held::{LockedFrame, NoUnpinned};
use atomic_table::Seat;
use byte_devices::LogDevice;
use frame_table::{FrameTable, Value};
use pin_core::View;
use segment_store::BlockLane;
use state_word::{pins, usage};
use std::sync::Wait;

/// The next frame of the clock, and how many tries are left.
#[derive(Clone, Copy)]
struct Next {
    frame: u32,
    tries: u32,
}

/// What the clock does with a frame.
enum Treated {
    /// It is the victim.
    Chosen(LockedFrame),
    /// The clock goes on, with so many tries left.
    Passed(u32),
}

/// The clock's hand, as it was loaded: it counts up, and points at its remainder by the number of
/// frames.
pub fn hand<L: BlockLane, G: LogDevice>(
    table: &FrameTable<L, G>,
    seat: &mut Seat<Value<L, G>, View>,
) -> u64
    requires { IsSeat table.now seat.old }
    ensures seat { SameSeat seat.old seat.new }
    ensures grows { Grows seat.old.me.0 seat.new.me.0 }
    ensures view { seat.new.me.0 ≡ view_of load_hand result seat.old.me.0 }
    ensures did { DidWord load_hand seat.old.me.0 seat.new.me.0 result }
{
    table.load_hand(seat)
}

/// Loads all frames in order, up to the first that no backend pins. The census has their words if
/// there is none.
fn take_census<L: BlockLane, G: LogDevice>(
    table: &FrameTable<L, G>,
    seat: &mut Seat<Value<L, G>, View>,
    census: &mut Census,
) -> Option<u32>
    requires seat { IsSeat table.now seat.old }
    requires census { census.old ≡ new_census (frames_of table.now) }
    ensures seat { SameSeat seat.old seat.new }
    ensures found { IfSome result (λ frame. FindsUnpinned (frames_of table.now) frame seat.old.me.0
        seat.new.me.0) }
    ensures cleared { IfSome result (λ _. census.new ≡ census.old) }
    ensures none { IfNone result (Counts seat.old.me.0 seat.old.me.0 (frames_of table.now)
        seat.new.me.0 census.new.words) }
    ensures room { census.new.frames ≡ census.old.frames }
{
    for frame in 0..table.frames() {
        let word = table.look(seat, frame);
        if pins(word) == 0 {
            census.clear();
            return Some(frame);
        }
        census.note(word);
    }
    None
}

/// Moves the clock's hand on while tries are left (`ClockSweepTick`), and takes a census if none is
/// left.
fn next_frame<L: BlockLane, G: LogDevice>(
    table: &FrameTable<L, G>,
    seat: &mut Seat<Value<L, G>, View>,
    census: &mut Census,
    tries: u32,
) -> Option<Next>
    requires seat { IsSeat table.now seat.old }
    requires tries { tries ≤ frames_of table.now }
    requires census { census.old ≡ new_census (frames_of table.now) }
    ensures seat { SameSeat seat.old seat.new }
    ensures next { IfSome result (λ next. NextIs (frames_of table.now) tries seat.old.me.0
        seat.new.me.0 next.frame next.tries) }
    ensures inside { IfSome result (λ next. (next.frame < frames_of table.now) × (0 < next.tries)
        × (next.tries ≤ frames_of table.now)) }
    ensures cleared { IfSome result (λ _. census.new ≡ census.old) }
    ensures tired { IfNone result (tries ≡ 0) }
    ensures none { IfNone result (Counts seat.old.me.0 seat.old.me.0 (frames_of table.now)
        seat.new.me.0 census.new.words) }
    ensures room { census.new.frames ≡ census.old.frames }
{
    if tries == 0 {
        let frame = take_census(table, seat, census)?;
        return Some(Next {
            frame,
            tries: table.frames(),
        });
    }
    let hand = table.add_hand(seat);
    Some(Next {
        frame: (hand % u64::from(table.frames())) as u32,
        tries,
    })
}

/// A tick of the clock at a frame, with so many tries left.
fn treat<L: BlockLane, G: LogDevice, R: Wait>(
    table: &FrameTable<L, G>,
    rt: &R,
    seat: &mut Seat<Value<L, G>, View>,
    frame: u32,
    tries: u32,
) -> Treated
    requires seat { CanStep table.now seat.old frame }
    requires headless { HoldsNoHeader seat.old.me.0 }
    requires tries { 0 < tries }
    ensures seat { SameSeat seat.old seat.new }
    ensures treats { Treats (frames_of table.now) frame tries seat.old.me.0 seat.new.me.0 result }
{
    let word = table.lock_header(rt, seat, frame);
    if pins(word) != 0 {
        table.unlock_header(seat, frame);
        return Treated::Passed(tries - 1);
    }
    if usage(word) != 0 {
        table.lower_usage(seat, frame, word);
        return Treated::Passed(table.frames());
    }
    Treated::Chosen(LockedFrame {
        frame,
        word,
        from_ring: false,
    })
}

/// Chooses a frame by the clock (`StrategyGetBuffer`).
pub(crate) fn from_clock<L: BlockLane, G: LogDevice, R: Wait>(
    table: &FrameTable<L, G>,
    rt: &R,
    seat: &mut Seat<Value<L, G>, View>,
    census: &mut Census,
) -> Result<LockedFrame, NoUnpinned>
    requires seat { IsSeat table.now seat.old }
    requires headless { HoldsNoHeader seat.old.me.0 }
    requires census { census.old ≡ new_census (frames_of table.now) }
    ensures seat { SameSeat seat.old seat.new }
    ensures inside { IfOk result (λ held. held.frame < frames_of table.now) }
    ensures source { IfOk result (λ held. held.from_ring ≡ false) }
    ensures comes { IfOk result (λ held. (v : View) × (left : ℕ)
        × Comes (frames_of table.now) seat.old.me.0 v held.frame left
        × Takes 0 held v seat.new.me.0) }
    ensures cleared { IfOk result (λ _. census.new ≡ census.old) }
    ensures frames { IfErr result (λ why. why.frames ≡ frames_of table.now) }
    ensures none { IfErr result (λ _. (tired : View) × Sweeps (frames_of table.now) seat.old.me.0
        tired 0 × Counts tired tired (frames_of table.now) seat.new.me.0 census.new.words) }
    ensures room { census.new.frames ≡ census.old.frames }
{
    let mut tries = table.frames();
    for _ in rt.forever() {
        let Some(next) = next_frame(table, seat, census, tries) else {
            return Err(NoUnpinned {
                frames: table.frames(),
            });
        };
        match treat(table, rt, seat, next.frame, next.tries) {
            Treated::Chosen(held) => return Ok(held),
            Treated::Passed(left) => tries = left,
        }
    }
    unreachable!()
}
