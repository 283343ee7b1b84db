//! Calls at tag words, and calls under a buffer header.
//!
//! A call under a header swaps the word that the call that locked the header answered.
ghost use Rattle.std.specs.Prelude.{◌≡◌, ◌≢◌, ◌+◌, ◌<◌, ◌≤◌, ◌^◌, ℕ, true, false, Some, None, IfSome, is_some};
ghost use Rattle.state_word.specs.Fields.{fields, unlocked_fields};
ghost use Rattle.block_tag.specs.Names.{names_block, packed_tag, partition_number, unpacked_tag};
ghost use Rattle.pin_core.specs.declared.view.View.{View};
ghost use Rattle.pin_core.specs.declared.view.MapChange.TheVariants.{Entering};
ghost use Rattle.pin_core.specs.declared.view.Role.TheVariants.{Absent, HandedOut};
ghost use Rattle.pin_core.specs.State.{hold, link, no_tag};
ghost use Rattle.pin_core.specs.Kinds as kinds;
ghost use Rattle.pin_core.specs.Steps.{HasNoVictim};
ghost use Rattle.table_rule.specs.Blocks.{has_block, is_block};
ghost use Rattle.table_rule.specs.Layout.{tag_partition};
ghost use Rattle.frame_table.specs.Kinds.{pins};
ghost use Rattle.frame_table.specs.Seats.{CanErase, CanStep, CanStoreAs, HasFlag, HasOnlyPin};
ghost use Rattle.frame_table.specs.Seats.{HasRoom, HoldsNumber, IsUsed, MayStoreTag, NamesStored};
ghost use Rattle.frame_table.specs.Seats.{SameMarks, SameSeat, Stores, Touches, assigned_link};
ghost use Rattle.frame_table.specs.Seats.{cleared_link, cleared_stored, partitions_stored};
ghost use Rattle.frame_table.specs.Seats.{read_link, relations_of, stored_link, tag_word};
ghost use Rattle.frame_table.specs.Seats.{unlocked_link, victim_link};
ghost use Rattle.frame_table.specs.FrameSteps.{Did, always, storing};

use crate::pin::Pin;
use crate::plays::{Assign, Clear, Does, EraseTag, LoadTag, LowerUsage, Related, Step, VictimPin};
use crate::table::FrameTable;
use atomic_table::Seat;
use block_tag::Tag;
use byte_devices::LogDevice;
use pin_core::View;
use segment_store::BlockLane;
use state_word::{assigned, cleared, pinned_by_holder, unlock_with, usage_down};
use std::marker::Brand;
use table_rule::{Value, state_place, tag_place};

/// The tag word of a frame without a tag.
const NO_TAG: u64 = u64::MAX;

impl<L: BlockLane, G: LogDevice> FrameTable<L, G> {
    fn load_packed<D: Related>(&self, seat: &mut Seat<Value<L, G>, View>, frame: u32) -> u64
        requires known { D.relations ≡ relations_of self.now }
        requires seat { CanStep self.now seat.old frame }
        requires right { kinds.CanLoadTag (link seat.old.me.0 frame).role
            (link seat.old.me.0 frame).header }
        ensures seat { SameSeat seat.old seat.new }
        ensures block { result ≢ no_tag → is_block (relations_of self.now) result ≡ true }
        ensures did { Did (pins kinds.load_tag) frame seat.old.me.0 seat.new.me.0 result }
    {
        self.table.shared.load::<LoadTag<D>>(seat, tag_place(frame))
    }

    /// The tag of a frame that the backend pins, or whose header it holds: that of a block of the
    /// relations. A pin remembers it, unless the backend stored the frame's tag word itself.
    pub fn load_tag(&self, seat: &mut Seat<Value<L, G>, View>, frame: u32) -> Option<Tag>
        requires seat { CanStep self.now seat.old frame }
        requires right { kinds.CanLoadTag (link seat.old.me.0 frame).role
            (link seat.old.me.0 frame).header }
        ensures seat { SameSeat seat.old seat.new }
        ensures touches { Touches frame seat.old.me.0 seat.new.me.0 }
        ensures marks { SameMarks seat.old.me.0 seat.new.me.0 }
        ensures named { IfSome result (λ tag. names_block tag ≡ true) }
        ensures listed { IfSome result (λ tag. has_block (relations_of self.now) tag ≡ true) }
        ensures placed { IfSome result (λ tag. tag_partition (packed_tag tag) ≡ partition_number tag) }
        ensures tagged { (link seat.old.me.0 frame).role ≡ HandedOut → is_some result ≡ true }
        ensures handed { IfSome result (λ tag. (link seat.old.me.0 frame).role ≡ HandedOut
            → (link seat.new.me.0 frame).tag ≡ Some (packed_tag tag)) }
        ensures settled { IfSome result (λ tag. (link seat.old.me.0 frame).role ≢ Absent
            → (link seat.old.me.0 frame).pending ≡ false
            → (link seat.new.me.0 frame).tag ≡ Some (packed_tag tag)) }
        // Under the header there is a tag exactly if the held word has `BM_TAG_VALID`.
        ensures flagged { (link seat.old.me.0 frame).pending ≡ false
            → IfSome (link seat.old.me.0 frame).header (λ word. is_some result ≡ word.tag_valid) }
        ensures read { link seat.new.me.0 frame ≡ read_link result (link seat.old.me.0 frame) }
        ensures did { Did (pins kinds.load_tag) frame seat.old.me.0 seat.new.me.0
            (tag_word result) }
    {
        let word = self.load_packed::<Brand>(seat, frame);
        Tag::unpack(word)
    }

    /// Pins the frame that the clock sweep chose, and unlocks its header (`GetVictimBuffer`). The
    /// word is the one that is held.
    pub fn victim_pin(&self, seat: &mut Seat<Value<L, G>, View>, frame: u32, word: u64) -> Pin
        requires seat { CanStep self.now seat.old frame }
        requires held { HoldsNumber HasRoom word (link seat.old.me.0 frame) }
        requires few { (fields word).pins ≤ 64 }
        requires absent { (link seat.old.me.0 frame).role ≡ Absent }
        requires only { HasNoVictim seat.old.me.0 }
        ensures seat { SameSeat seat.old seat.new }
        ensures touches { Touches frame seat.old.me.0 seat.new.me.0 }
        ensures marks { SameMarks seat.old.me.0 seat.new.me.0 }
        ensures pin { result.frame ≡ frame }
        ensures pinned { link seat.new.me.0 frame ≡ victim_link (link seat.old.me.0 frame) }
        ensures did { Did (pins kinds.pin_victim) frame seat.old.me.0 seat.new.me.0 word }
    {
        self.table
            .shared
            .swap::<Step<VictimPin>>(seat, state_place(frame), pinned_by_holder(word));
        Pin { frame }
    }

    /// The clock sweep passes the frame: its usage count falls, and its header is unlocked
    /// (`StrategyGetBuffer`). The word is the one that is held.
    pub fn lower_usage(&self, seat: &mut Seat<Value<L, G>, View>, frame: u32, word: u64)
        requires seat { CanStep self.now seat.old frame }
        requires held { HoldsNumber IsUsed word (link seat.old.me.0 frame) }
        ensures seat { SameSeat seat.old seat.new }
        ensures touches { Touches frame seat.old.me.0 seat.new.me.0 }
        ensures marks { SameMarks seat.old.me.0 seat.new.me.0 }
        ensures lowered { link seat.new.me.0 frame ≡ unlocked_link (link seat.old.me.0 frame) }
        ensures did { Did (pins kinds.lower_usage) frame seat.old.me.0 seat.new.me.0 word }
    {
        self.table
            .shared
            .swap::<Step<LowerUsage>>(seat, state_place(frame), unlock_with(usage_down(word)));
    }

    fn store_packed<D: Does>(
        &self,
        seat: &mut Seat<Value<L, G>, View>,
        frame: u32,
        _tag: Tag,
        packed: u64,
    )
        requires kind { D.choice ≡ always (storing (Some _tag)) }
        requires packed { (packed ≡ packed_tag _tag) × (unpacked_tag packed ≡ Some _tag) }
        requires seat { CanStep self.now seat.old frame }
        requires alone { HasOnlyPin (link seat.old.me.0 frame) }
        requires tag { MayStoreTag (relations_of self.now) _tag seat.old.me.0 frame }
        ensures seat { SameSeat seat.old seat.new }
        ensures did { (now : ℕ) × Did (storing (Some _tag)) frame seat.old.me.0 seat.new.me.0 now }
    {
        self.table
            .shared
            .swap::<Step<D>>(seat, tag_place(frame), packed);
    }

    fn store_none(&self, seat: &mut Seat<Value<L, G>, View>, frame: u32)
        requires seat { CanStep self.now seat.old frame }
        requires alone { HasOnlyPin (link seat.old.me.0 frame) }
        requires tag { CanErase seat.old.me.0 frame }
        ensures seat { SameSeat seat.old seat.new }
        ensures did { (now : ℕ) × Did (storing None) frame seat.old.me.0 seat.new.me.0 now }
    {
        self.table
            .shared
            .swap::<Step<EraseTag>>(seat, tag_place(frame), NO_TAG);
    }

    /// Stores a tag in a frame without one, whose tag the map of its partition lacks
    /// (`BufferAlloc`), or takes a frame's tag away (`InvalidateVictimBuffer`). The pair is named
    /// in change then, until the map is back with it.
    pub fn store_tag(&self, seat: &mut Seat<Value<L, G>, View>, frame: u32, tag: Option<Tag>)
        requires seat { CanStep self.now seat.old frame }
        requires alone { HasOnlyPin (link seat.old.me.0 frame) }
        requires tag { CanStoreAs (relations_of self.now) tag seat.old.me.0 frame }
        ensures seat { SameSeat seat.old seat.new }
        ensures stores { Stores frame seat.old.me.0 seat.new.me.0 }
        ensures marks { SameMarks seat.old.me.0 seat.new.me.0 }
        ensures stored { link seat.new.me.0 frame ≡ stored_link (link seat.old.me.0 frame) }
        ensures named { seat.new.me.0.partitions ≡ partitions_stored tag frame seat.old.me.0 }
        ensures names { NamesStored tag frame seat.old.me.0 seat.new.me.0 }
        ensures cleared { seat.new.me.0.cleared ≡ cleared_stored tag seat.old.me.0.cleared }
        ensures did { (now : ℕ) × Did (storing tag) frame seat.old.me.0 seat.new.me.0 now }
    {
        match tag {
            Some(tag) => self.store_packed::<Brand>(seat, frame, tag, tag.pack()),
            None => self.store_none(seat, frame),
        }
    }

    /// A frame whose tag was stored gets `BM_TAG_VALID`, and its header is unlocked
    /// (`BufferAlloc`). The pin is the caller's from now on. The word is the one that is held.
    pub fn assign(&self, seat: &mut Seat<Value<L, G>, View>, frame: u32, word: u64)
        requires seat { CanStep self.now seat.old frame }
        requires held { HoldsNumber (HasFlag false) word (link seat.old.me.0 frame) }
        requires stored { (link seat.old.me.0 frame).pending ≡ true }
        ensures seat { SameSeat seat.old seat.new }
        ensures touches { Touches frame seat.old.me.0 seat.new.me.0 }
        ensures marks { SameMarks seat.old.me.0 seat.new.me.0 }
        ensures assigned { link seat.new.me.0 frame ≡ assigned_link (link seat.new.me.0 frame).tag
            (link seat.old.me.0 frame) }
        ensures tag { (p tag : ℕ) → (hold seat.old.me.0 p).change ≡ Entering tag frame
            → (hold seat.old.me.0 p).changed ≡ false → (link seat.new.me.0 frame).tag ≡ Some tag }
        ensures did { Did (pins kinds.assign) frame seat.old.me.0 seat.new.me.0 word }
    {
        self.table
            .shared
            .swap::<Step<Assign>>(seat, state_place(frame), unlock_with(assigned(word)));
    }

    /// A frame whose tag was taken away loses its flags, and its header is unlocked
    /// (`InvalidateVictimBuffer`). The word is the one that is held.
    pub fn clear(&self, seat: &mut Seat<Value<L, G>, View>, frame: u32, word: u64)
        requires seat { CanStep self.now seat.old frame }
        requires held { HoldsNumber (HasFlag true) word (link seat.old.me.0 frame) }
        requires stored { (link seat.old.me.0 frame).pending ≡ true }
        ensures seat { SameSeat seat.old seat.new }
        ensures touches { Touches frame seat.old.me.0 seat.new.me.0 }
        ensures marks { SameMarks seat.old.me.0 seat.new.me.0 }
        ensures cleared { link seat.new.me.0 frame ≡ cleared_link (link seat.old.me.0 frame) }
        ensures did { Did (pins kinds.clear) frame seat.old.me.0 seat.new.me.0 word }
    {
        self.table
            .shared
            .swap::<Step<Clear>>(seat, state_place(frame), unlock_with(cleared(word)));
    }
}
