//! Calls at state words.
ghost use Rattle.std.specs.Prelude.{◌≡◌, ◌≢◌, ℕ, ◌<◌, map, true, false, Some, None, IfOk, IfErr, MatchOption, MatchResult};
ghost use Rattle.state_word.specs.Fields.{fields, locked_fields, pinned_fields, unpinned_fields};
ghost use Rattle.pin_core.specs.declared.view.View.{View};
ghost use Rattle.pin_core.specs.declared.view.Role.TheVariants.{Absent, HandedOut};
ghost use Rattle.pin_core.specs.State.{link};
ghost use Rattle.pin_core.specs.Kinds as kinds;
ghost use Rattle.pin_core.specs.Steps.{HoldsNoHeader};
ghost use Rattle.frame_table.specs.Kinds.{pins};
ghost use Rattle.frame_table.specs.Opened.{FitsHeld, FitsOpening};
ghost use Rattle.frame_table.specs.Seats.{CanStep, MayUnpin, HoldsHeader, IsWordOf, Looked, SameMarks, SameSeat, Touches, lanes_in, opened_of, relations_of, loaded_link, locked_link, pinned_link, unlocked_link, unpinned_link};
ghost use Rattle.frame_table.specs.FrameSteps.{Did, Looks, Refuses, Unpinned, chosen, has_locked, has_tag, if_found, if_unlocked, looking};

use crate::pin::{Pin, TryPin};
use crate::plays::{AtLook, Does, LockHeader, Look, Step, UnlockHeader, Unpin};
use crate::table::FrameTable;
use atomic_table::Seat;
use byte_devices::LogDevice;
use pin_core::View;
use segment_store::BlockLane;
use state_word::{Flag, LOCKED, has, locked, pinned, unpinned};
use std::marker::Brand;
use std::sync::Wait;
use std::thread;
use table_rule::{Value, state_place};

impl<L: BlockLane, G: LogDevice> FrameTable<L, G> {
    fn look_at<D: AtLook>(&self, seat: &mut Seat<Value<L, G>, View>, _frame: u32) -> u64
        requires frame { D.frame ≡ _frame }
        requires known { (D.relations ≡ relations_of self.now) × (D.lanes ≡ lanes_in self.now)
            × (D.held ≡ map L.contents (opened_of self.now)) }
        requires seat { CanStep self.now seat.old _frame }
        ensures seat { SameSeat seat.old seat.new }
        ensures fits { FitsHeld (relations_of self.now) (lanes_in self.now)
            (map L.contents (opened_of self.now)) (link seat.old.me.0 _frame) (fields result) }
        ensures did { Did looking _frame seat.old.me.0 seat.new.me.0 result }
    {
        self.table.shared.load::<Look<D>>(seat, state_place(_frame))
    }

    /// The state word of a frame. By it a pin sees that the page is valid, a wait is over if the
    /// word has no waiter, and the backend's checkpoint passes a frame that isn't dirty.
    pub fn look(&self, seat: &mut Seat<Value<L, G>, View>, frame: u32) -> u64
        requires { CanStep self.now seat.old frame }
        ensures seat { SameSeat seat.old seat.new }
        ensures touches { Touches frame seat.old.me.0 seat.new.me.0 }
        ensures marks { SameMarks seat.old.me.0 seat.new.me.0 }
        ensures link { Looked (link seat.old.me.0 frame) (link seat.new.me.0 frame) }
        ensures loaded { link seat.new.me.0 frame ≡ loaded_link (fields result)
            (link seat.old.me.0 frame) }
        ensures word { IsWordOf (link seat.old.me.0 frame) (fields result) }
        ensures opening { FitsOpening L.contents self.now (link seat.old.me.0 frame)
            (fields result) }
        ensures seen { (link seat.old.me.0 frame).role ≡ HandedOut → (fields result).valid ≡ true
            → (link seat.new.me.0 frame).seen_valid ≡ true }
        ensures over { (fields result).awaited ≡ false → (link seat.new.me.0 frame).waits ≡ None }
        ensures visited { (fields result).dirty ≡ false
            → (link seat.new.me.0 frame).visited ≡ true }
        ensures written { (fields result).checkpoint_needed ≡ false
            → (link seat.new.me.0 frame).left_to_write ≡ false }
        ensures did { Did looking frame seat.old.me.0 seat.new.me.0 result }
    {
        self.look_at::<Brand>(seat, frame)
    }

    fn swap_pin<D: Does>(
        &self,
        seat: &mut Seat<Value<L, G>, View>,
        frame: u32,
        _ring: bool,
        was: u64,
        new: u64,
    ) -> u64
        requires kind { D.choice ≡ if_found (pins (kinds.pin _ring)) }
        requires seat { CanStep self.now seat.old frame }
        requires absent { (link seat.old.me.0 frame).role ≡ Absent }
        requires was { (has_locked was ≡ false) × (has_tag was ≡ true) }
        requires new { fields new ≡ pinned_fields _ring (fields was) }
        ensures seat { SameSeat seat.old seat.new }
        ensures did { Did (chosen (if_found (pins (kinds.pin _ring))) was result) frame
            seat.old.me.0 seat.new.me.0 result }
    {
        self.table
            .shared
            .compare_exchange::<Step<D>>(seat, state_place(frame), was, new)
    }

    /// Pins a frame that has a tag, if its word doesn't change meanwhile (`PinBuffer`).
    pub fn try_pin(
        &self,
        seat: &mut Seat<Value<L, G>, View>,
        frame: u32,
        ring: bool,
    ) -> Result<Pin, TryPin>
        requires seat { CanStep self.now seat.old frame }
        requires absent { (link seat.old.me.0 frame).role ≡ Absent }
        ensures seat { SameSeat seat.old seat.new }
        ensures touches { Touches frame seat.old.me.0 seat.new.me.0 }
        ensures marks { SameMarks seat.old.me.0 seat.new.me.0 }
        ensures pin { IfOk result (λ p. p.frame ≡ frame) }
        ensures pinned { IfOk result (λ _. Looked (pinned_link ring (link seat.old.me.0 frame))
            (link seat.new.me.0 frame)) }
        ensures left { IfErr result (λ _. Looked (link seat.old.me.0 frame) (link seat.new.me.0 frame)) }
        ensures did { MatchResult result (λ _. (v : View) × (was : ℕ)
            × Did looking frame seat.old.me.0 v was
            × Did (pins (kinds.pin ring)) frame v seat.new.me.0 was)
            (Refuses frame seat.old.me.0 seat.new.me.0) }
    {
        let was = self.look(seat, frame);
        if has(was, Flag::Locked) {
            return Err(TryPin::Locked { word: was });
        }
        if !has(was, Flag::TagValid) {
            return Err(TryPin::Untagged { word: was });
        }
        let now = self.swap_pin::<Brand>(seat, frame, ring, was, pinned(was, ring));
        if now == was {
            Ok(Pin { frame })
        } else {
            Err(TryPin::Changed { was, now })
        }
    }

    /// Gives up a pin, once the header is not locked, and answers the word that is left
    /// (`UnpinBuffer`). A backend that holds that header itself would wait forever.
    pub fn unpin<R: Wait>(&self, rt: &R, seat: &mut Seat<Value<L, G>, View>, pin: Pin) -> u64
        requires seat { CanStep self.now seat.old pin.frame }
        requires pinned { MayUnpin (link seat.old.me.0 pin.frame) }
        ensures seat { SameSeat seat.old seat.new }
        ensures touches { Touches pin.frame seat.old.me.0 seat.new.me.0 }
        ensures marks { SameMarks seat.old.me.0 seat.new.me.0 }
        ensures unpinned { Looked (unpinned_link (link seat.old.me.0 pin.frame))
            (link seat.new.me.0 pin.frame) }
        ensures did { Unpinned pin.frame result seat.old.me.0 seat.new.me.0 }
    {
        let Pin { frame } = pin;
        for _ in rt.forever() {
            if let Some(left) = self.try_unpin(seat, frame) {
                return left;
            }
            thread::yield_now();
        }
        unreachable!()
    }

    fn try_unpin(&self, seat: &mut Seat<Value<L, G>, View>, frame: u32) -> Option<u64>
        requires seat { CanStep self.now seat.old frame }
        requires pinned { MayUnpin (link seat.old.me.0 frame) }
        ensures seat { SameSeat seat.old seat.new }
        ensures did { MatchOption result (Looks frame seat.old.me.0 seat.new.me.0)
            (λ left. Unpinned frame left seat.old.me.0 seat.new.me.0) }
    {
        let was = self.look(seat, frame);
        if has(was, Flag::Locked) {
            return None;
        }
        let left = unpinned(was);
        let now = self
            .table
            .shared
            .compare_exchange::<Step<Unpin>>(seat, state_place(frame), was, left);
        if now != was {
            return None;
        }
        Some(left)
    }

    /// Waits until the header is not locked, and locks it (`LockBufHdr`). The word that is held.
    pub fn lock_header<R: Wait>(
        &self,
        rt: &R,
        seat: &mut Seat<Value<L, G>, View>,
        frame: u32,
    ) -> u64
        requires seat { CanStep self.now seat.old frame }
        requires headless { HoldsNoHeader seat.old.me.0 }
        ensures seat { SameSeat seat.old seat.new }
        ensures touches { Touches frame seat.old.me.0 seat.new.me.0 }
        ensures marks { SameMarks seat.old.me.0 seat.new.me.0 }
        ensures locked { Looked (locked_link result (link seat.old.me.0 frame))
            (link seat.new.me.0 frame) }
        ensures word { IsWordOf (link seat.old.me.0 frame) (fields result) }
        ensures did { (v : View) × (was : ℕ) × Looks frame seat.old.me.0 v
            × Did (pins kinds.lock_header) frame v seat.new.me.0 was
            × (fields result ≡ locked_fields (fields was)) }
    {
        for _ in rt.forever() {
            let found = self.or_lock(seat, frame);
            if !has(found, Flag::Locked) {
                return locked(found);
            }
            thread::yield_now();
        }
        unreachable!()
    }

    fn or_lock(&self, seat: &mut Seat<Value<L, G>, View>, frame: u32) -> u64
        requires seat { CanStep self.now seat.old frame }
        requires headless { HoldsNoHeader seat.old.me.0 }
        ensures seat { SameSeat seat.old seat.new }
        ensures did { Did (chosen (if_unlocked (pins kinds.lock_header)) LOCKED result) frame
            seat.old.me.0 seat.new.me.0 result }
    {
        self.table
            .shared
            .fetch_or::<Step<LockHeader>>(seat, state_place(frame), LOCKED)
    }

    /// Unlocks the header that the backend holds, the word as it was (`UnlockBufHdr`).
    pub fn unlock_header(&self, seat: &mut Seat<Value<L, G>, View>, frame: u32)
        requires seat { CanStep self.now seat.old frame }
        requires held { HoldsHeader (link seat.old.me.0 frame) }
        ensures seat { SameSeat seat.old seat.new }
        ensures touches { Touches frame seat.old.me.0 seat.new.me.0 }
        ensures marks { SameMarks seat.old.me.0 seat.new.me.0 }
        ensures unlocked { link seat.new.me.0 frame ≡ unlocked_link (link seat.old.me.0 frame) }
        ensures did { (was : ℕ) × Did (pins kinds.unlock_header) frame seat.old.me.0 seat.new.me.0
            was }
    {
        self.table
            .shared
            .fetch_and::<Step<UnlockHeader>>(seat, state_place(frame), !LOCKED);
    }
}
