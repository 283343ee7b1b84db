//! Passes.

use crate::manager::Manager;
use crate::marked::MarkedFrame;
use crate::met::{Met, Shown};
use crate::pinned::Pinned;
use crate::seats::{return_seat, take_seat};
use atomic_table::Badge;
use buffer_frames::{Backend, HeldPins, HintSeen};
use byte_devices::LogDevice;
use cleanup_lock::unpin_and_wake;
use crossbeam_utils::CachePadded;
use page_layout::Lsn;
use pin_core::View;
use segment_store::BlockLane;
use std::marker::Model;
use std::sync::Wait;

/// A backend of a manager: the seat that it works with, the pins that it has handed out, what else
/// it has of its own, and room for the frames that a checkpoint marks. `Manager::close` takes it
/// back.
pub struct Pass {
    pub(crate) number: u32,
    pub(crate) seat: Badge<View>,
    pub(crate) held: HeldPins,
    pub(crate) backend: Backend,
    pub(crate) marked: Vec<MarkedFrame>,
    pub(crate) shown: CachePadded<Shown>,
}

impl Model for Pass {
    ghost use Rattle.std.specs.Prelude.{◌≡◌, ◌≤◌, ◌∷◌, [], vec_capacity};
    ghost use Rattle.crossbeam_utils.specs.Padded.{padded_value};
    ghost use Rattle.buffer_frames.specs.Rests.{OnlyTokens};
    ghost use Rattle.backend_pass.specs.Passes.{IsCounted, IsNumbered, IsShown, PassState, view_in};

    ghost Value = { PassState };

    ghost view = { λ p. record {
      table = p.seat.table_id;
      id = p.seat.id;
      view = view_in p.seat.views;
      queue = p.backend.queue;
      tokens = p.held;
      census = p.backend.census;
      marked = p.marked.items;
      hint = p.backend.lookups.hint;
      io = p.backend.io.counted;
    } };

    // Its seat has one view, which holds what its tokens say and nothing else. It has room to mark
    // each frame, and counts the latches of partitions that it took, and its hits, reads, writes
    // and victims.
    ghost invariant = { λ p. let v = view_in p.seat.views in
        (p.seat.views ≡ v ∷ [])
        × OnlyTokens p.held v
        × IsNumbered p.number p.seat.id v
        × IsShown v (padded_value p.shown)
        × (p.backend.census.frames ≤ vec_capacity p.marked)
        × IsCounted v p.backend.lookups.turns p.backend.io };
}

impl Pass {
    ghost use Rattle.std.specs.Prelude.{◌≡◌, ◌≢◌, ℕ};
    ghost use Rattle.block_tag.specs.Names.{packed_tag};
    ghost use Rattle.pin_core.specs.declared.view.Content.TheVariants.{Unlocked};
    ghost use Rattle.pin_core.specs.State.{link};
    ghost use Rattle.frame_table.specs.Seats.{HasResident};
    ghost use Rattle.cleanup_lock.specs.Waking.{Woken};
    ghost use Rattle.buffer_frames.specs.Tokens.{IsPinnedFor, held_at, tokens_less, tokens_of};
    ghost use Rattle.backend_pass.specs.Locks.{HasLock};
    ghost use Rattle.backend_pass.specs.Managers.{Belongs};
    ghost use Rattle.buffer_frames.specs.Outside.{shown_count};
    ghost use Rattle.backend_pass.specs.Passes.{KeepsCalls, KeepsDevices, KeepsLocks, KeepsMark};
    ghost use Rattle.backend_pass.specs.Passes.{KeepsLookups, SamePass};

    /// The faults that the pass met.
    pub fn met(&self) -> Met
        ensures reads { result.reads ≡ shown_count self.now.view.met.reads }
        ensures writes { result.writes ≡ shown_count self.now.view.met.writes }
        ensures logs { result.logs ≡ shown_count self.now.view.met.logs }
    {
        self.shown.met
    }

    /// The largest place in the log of what the pass has read and put; where the log begins, before
    /// that.
    pub fn front(&self) -> Lsn
        ensures { result ≡ self.now.view.front }
    {
        self.shown.front
    }

    /// How many latches of partitions the pass took. The number stands still at its type's last
    /// value.
    pub fn turns(&self) -> u64
        ensures { result ≡ shown_count self.now.view.turns }
    {
        self.backend.lookups.turns
    }

    /// What the last `read_buffer` saw of its block's hint.
    pub fn hint_seen(&self) -> HintSeen
        ensures { result ≡ self.now.hint }
    {
        self.backend.lookups.hint
    }

    /// The state words of the frames, from frame 0 on, if the last choice of a victim found every
    /// frame pinned; else empty. They were loaded at different moments.
    pub fn census(&self) -> &[u64]
        ensures { result.now ≡ self.now.census.words }
    {
        self.backend.census.census()
    }

    /// Releases a token (`ReleaseBuffer`). The last token of a frame gives up its pin.
    pub fn release<L: BlockLane, G: LogDevice, R: Wait>(
        &mut self,
        manager: &Manager<L, G>,
        rt: &R,
        pinned: Pinned,
    )
        requires belongs { Belongs L.contents manager.now self.old }
        requires pinned { IsPinnedFor pinned.tag pinned.frame self.old.tokens }
        requires unlocked { tokens_of (held_at self.old.tokens pinned.frame) ≡ 1
            → HasLock Unlocked pinned.frame self.old }
        ensures belongs { Belongs L.contents manager.now self.new }
        ensures same { SamePass self.old self.new }
        ensures lookups { KeepsLookups self.old self.new }
        ensures tokens { self.new.tokens ≡ tokens_less pinned.frame self.old.tokens }
        ensures census { self.new.census ≡ self.old.census }
        ensures calls { KeepsCalls self.old self.new }
        ensures mark { KeepsMark self.old self.new }
        ensures locks { KeepsLocks self.old self.new }
        ensures devices { KeepsDevices self.old self.new }
        ensures down { self.new.view.saw_down ≡ self.old.view.saw_down }

        // With the last token the pin is given up, by one step after loads of the state word, and
        // the backend is woken that waits for its own pin to be the only one.
        ensures unpins { tokens_of (held_at self.old.tokens pinned.frame) ≡ 1
            → Woken pinned.frame self.old.view self.new.view }

        // So the view lists the block, which that pin has seen in the frame with BM_VALID.
        ensures resident { tokens_of (held_at self.old.tokens pinned.frame) ≡ 1
            → HasResident pinned.frame (packed_tag pinned.tag) self.new.view }

        // What the pass has at other frames is untouched, and all of it if another token of the
        // frame is left.
        ensures others { (g : ℕ) → g ≢ pinned.frame → link self.new.view g ≡ link self.old.view g }
        ensures left { tokens_of (held_at self.old.tokens pinned.frame) ≢ 1
            → self.new.view ≡ self.old.view }
    {
        let Pinned {
            frame,
            tag: _,
            hit: _,
        } = pinned;
        let Some(pin) = self.held.take_token(frame) else {
            return;
        };
        let mut seat = take_seat::<L, G>(&mut self.seat);
        unpin_and_wake(&manager.table, rt, &mut seat, pin);
        return_seat(&mut self.seat, seat);
    }
}
