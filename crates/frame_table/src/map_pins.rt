//! Pins of frames that a map gives.
ghost use Rattle.std.specs.Prelude.{◌≡◌, true, false};
ghost use Rattle.state_word.specs.Fields.{fields, pinned_fields};
ghost use Rattle.block_tag.specs.Names.{names_block, packed_tag};
ghost use Rattle.pin_core.specs.declared.view.Role.TheVariants.{Absent};
ghost use Rattle.pin_core.specs.State.{link};
ghost use Rattle.pin_core.specs.Kinds as kinds;
ghost use Rattle.frame_table.specs.Kinds.{pins};
ghost use Rattle.frame_table.specs.Seats.{CanStep, Finds, Looked, SameMarks, SameSeat, Touches, mapped_link};
ghost use Rattle.frame_table.specs.FrameSteps.{Did, Tried, chosen, has_locked, if_found};

use crate::pin::Pin;
use crate::plays::{Does, Step};
use crate::table::FrameTable;
use atomic_table::Seat;
use block_tag::Tag;
use byte_devices::LogDevice;
use pin_core::View;
use segment_store::BlockLane;
use state_word::{Flag, has, pinned};
use std::marker::Brand;
use std::sync::Wait;
use std::thread;
use table_rule::{Value, state_place};

impl<L: BlockLane, G: LogDevice> FrameTable<L, G> {
    fn swap_mapped<D: Does>(
        &self,
        seat: &mut Seat<Value<L, G>, View>,
        frame: u32,
        _tag: u64,
        _ring: bool,
        was: u64,
        new: u64,
    ) -> u64
        requires kind { D.choice ≡ if_found (pins (kinds.pin_mapped _tag _ring)) }
        requires seat { CanStep self.now seat.old frame }
        requires absent { (link seat.old.me.0 frame).role ≡ Absent }
        requires finds { Finds seat.old.me.0 _tag frame }
        requires was { has_locked was ≡ false }
        requires new { fields new ≡ pinned_fields _ring (fields was) }
        ensures seat { SameSeat seat.old seat.new }
        ensures did { Did (chosen (if_found (pins (kinds.pin_mapped _tag _ring))) was result) frame
            seat.old.me.0 seat.new.me.0 result }
    {
        self.table
            .shared
            .compare_exchange::<Step<D>>(seat, state_place(frame), was, new)
    }

    fn try_mapped(
        &self,
        seat: &mut Seat<Value<L, G>, View>,
        frame: u32,
        tag: u64,
        ring: bool,
    ) -> bool
        requires seat { CanStep self.now seat.old frame }
        requires absent { (link seat.old.me.0 frame).role ≡ Absent }
        requires finds { Finds seat.old.me.0 tag frame }
        ensures seat { SameSeat seat.old seat.new }
        ensures did { Tried (pins (kinds.pin_mapped tag ring)) frame seat.old.me.0 seat.new.me.0
            result }
    {
        let was = self.look(seat, frame);
        if has(was, Flag::Locked) {
            return false;
        }
        let new = pinned(was, ring);
        self.swap_mapped::<Brand>(seat, frame, tag, ring, was, new) == was
    }

    /// Pins the frame that the map of the tag's partition gives for the tag, once its header is not
    /// locked (`BufferAlloc`, if the block is found). A backend that holds that header itself
    /// would wait forever.
    pub fn pin<R: Wait>(
        &self,
        rt: &R,
        seat: &mut Seat<Value<L, G>, View>,
        tag: Tag,
        frame: u32,
        ring: bool,
    ) -> Pin
        requires seat { CanStep self.now seat.old frame }
        requires absent { (link seat.old.me.0 frame).role ≡ Absent }
        requires tag { names_block tag ≡ true }
        requires finds { Finds seat.old.me.0 (packed_tag tag) frame }
        ensures seat { SameSeat seat.old seat.new }
        ensures touches { Touches frame seat.old.me.0 seat.new.me.0 }
        ensures marks { SameMarks seat.old.me.0 seat.new.me.0 }
        ensures pin { result.frame ≡ frame }
        ensures pinned { Looked (mapped_link (packed_tag tag) ring (link seat.old.me.0 frame))
            (link seat.new.me.0 frame) }
        ensures did { Tried (pins (kinds.pin_mapped (packed_tag tag) ring)) frame seat.old.me.0
            seat.new.me.0 true }
    {
        let packed = tag.pack();
        for _ in rt.forever() {
            if self.try_mapped(seat, frame, packed, ring) {
                return Pin { frame };
            }
            thread::yield_now();
        }
        unreachable!()
    }
}
