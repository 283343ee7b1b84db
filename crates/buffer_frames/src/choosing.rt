//! A victim is chosen and pinned.
ghost use Rattle.std.specs.Prelude.{◌≡◌, ◌<◌, true, IfOk, IfErr, None, Some, length};
ghost use Rattle.std.specs.List.{All};
ghost use Rattle.state_word.specs.Fields.{fields};
ghost use Rattle.frame_table.specs.Seats.{frames_of};
ghost use Rattle.clock_sweep.specs.CensusList.{new_census};
ghost use Rattle.clock_sweep.specs.Choosing.{FindsNone, frame_at_place, ring_gone_on};
ghost use Rattle.clock_sweep.specs.FreeFrames.{SameQueue};
ghost use Rattle.clock_sweep.specs.FreeLists.{IsFreeList};
ghost use Rattle.buffer_frames.specs.Rests.{LinksRest};
ghost use Rattle.buffer_frames.specs.Bringing.{PushesNone};
ghost use Rattle.buffer_frames.specs.Keeps.{IsReady, Keeps};
ghost use Rattle.buffer_frames.specs.Outside.{chosen_of, ring_shape};
ghost use Rattle.buffer_frames.specs.Stages.{HasVictim};
ghost use Rattle.buffer_frames.specs.VictimChoices.{ChoosesVictim, choice_state};

use crate::pins::HeldPins;
use access_rings::Ring;
use atomic_table::Seat;
use byte_devices::LogDevice;
use clock_sweep::{Census, NoUnpinned, QueuePass, Sweep, victim};
use frame_table::{FrameTable, Pin, Value};
use pin_core::View;
use segment_store::BlockLane;
use std::sync::Wait;

/// A frame that was chosen and pinned.
pub(crate) struct Chosen {
    pub(crate) pin: Pin,
    /// Whether it came from the ring's current place.
    pub(crate) from_ring: bool,
}

/// Chooses a victim and pins it, its usage count unchanged (`GetVictimBuffer`).
pub(crate) fn choose<L: BlockLane, G: LogDevice, R: Wait>(
    table: &FrameTable<L, G>,
    rt: &R,
    seat: &mut Seat<Value<L, G>, View>,
    _held: &HeldPins,
    sweep: &Sweep,
    queue: &mut QueuePass,
    census: &mut Census,
    ring: &mut Option<Ring>,
) -> Result<Chosen, NoUnpinned>
    requires ready { IsReady table.now _held.now seat.old }
    requires queue { IsFreeList table.now sweep.now queue.old }
    requires census { census.old.frames ≡ frames_of table.now }
    ensures keeps { Keeps chosen_of None table.now seat.old seat.new }
    ensures queue { IsFreeList table.now sweep.now queue.new }
    ensures lasts { SameQueue queue.old queue.new }
    ensures unpushed { PushesNone queue.old queue.new }
    ensures room { census.new.frames ≡ census.old.frames }
    ensures ring { ring_shape ring.new ≡ ring_shape ring.old }
    ensures inside { IfOk result (λ chosen. chosen.pin.frame < frames_of table.now) }
    ensures pinned { IfOk result (λ chosen. HasVictim chosen.pin.frame _held.now seat.new.me.0) }
    ensures place { IfOk result
        (λ chosen. chosen.from_ring ≡ true → frame_at_place ring.new ≡ Some chosen.pin.frame) }
    ensures no_census { IfOk result (λ _. census.new ≡ new_census (frames_of table.now)) }
    ensures rests { IfErr result (λ _. LinksRest _held.now seat.new.me.0) }
    ensures frames { IfErr result (λ why. why.frames ≡ frames_of table.now) }
    ensures did { IfOk result (λ chosen. ChoosesVictim (frames_of table.now) chosen.pin.frame
        chosen.from_ring
        seat.old.me.0 (choice_state queue.old ring.old census.old)
        seat.new.me.0 (choice_state queue.new ring.new census.new)) }
    ensures cause { IfErr result (λ _. FindsNone (frames_of table.now) (frame_at_place (ring_gone_on ring.old))
        seat.old.me.0 queue.old seat.new.me.0 queue.new census.new.words) }
    ensures counted { IfErr result (λ _. length census.new.words ≡ frames_of table.now) }
    ensures each { IfErr result (λ _. All (λ word. 0 < (fields word).pins) census.new.words) }
    ensures passed { IfErr result (λ _. ring.new ≡ ring_gone_on ring.old) }
{
    match victim(table, rt, seat, sweep, queue, census, ring) {
        Ok(held) => {
            let word = held.word();
            let from_ring = held.is_from_ring();
            let frame = held.into_frame();
            let pin = table.victim_pin(seat, frame, word);
            Ok(Chosen { pin, from_ring })
        }
        Err(why) => Err(why),
    }
}
