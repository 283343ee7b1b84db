//! Cleanup locks that a pass takes (`LockBufferForCleanup`). They are given up as exclusive locks.

use crate::errors::Refused;
use crate::manager::Manager;
use crate::pass::Pass;
use crate::pinned::Pinned;
use crate::seats::{return_seat, take_seat};
use crate::tokens::Exclusive;
use byte_devices::LogDevice;
use cleanup_lock::{CleanupError, TryCleanup, lock, try_lock};
use segment_store::BlockLane;
use std::sync::Wait;

impl Pass {
    ghost use Rattle.std.specs.Prelude.{◌≡◌, ◌≢◌, ℕ, IfErr, IfOk};
    ghost use Rattle.pin_core.specs.declared.view.Content.TheVariants as lock;
    ghost use Rattle.pin_core.specs.State.{link};
    ghost use Rattle.frame_table.specs.Content.{HoldsNoUnentered};
    ghost use Rattle.cleanup_lock.specs.Cleanup.{GrantsCleanup, GrantsTry, RefusesCleanup};
    ghost use Rattle.cleanup_lock.specs.Cleanup.{RefusesTry, local_pins, refused_tokens};
    ghost use Rattle.cleanup_lock.specs.Cleanup.{tried_local_pins};
    ghost use Rattle.buffer_frames.specs.Tokens.{IsPinnedFor, held_at, tokens_of};
    ghost use Rattle.backend_pass.specs.Cleanups.{why_of};
    ghost use Rattle.backend_pass.specs.Locks.{ChangesLock, HasLock, IsTagged};
    ghost use Rattle.backend_pass.specs.Managers.{Belongs};
    ghost use Rattle.backend_pass.specs.Passes.{KeepsCalls, KeepsDevices, KeepsLocks, KeepsMark};
    ghost use Rattle.backend_pass.specs.Passes.{KeepsLookups, SamePass};

    /// Takes the cleanup lock of the frame of the pass's only token there, which has the token's
    /// block: the exclusive content lock, while no other backend pins the frame
    /// (`LockBufferForCleanup`). It waits for that, one backend at a time. A refusal gives the
    /// token back.
    pub fn lock_cleanup<L: BlockLane, G: LogDevice, R: Wait>(
        &mut self,
        manager: &Manager<L, G>,
        rt: &R,
        pinned: Pinned,
    ) -> Result<Exclusive, Refused<CleanupError>>
        requires belongs { Belongs L.contents manager.now self.old }
        requires pinned { IsPinnedFor pinned.tag pinned.frame self.old.tokens }
        requires unlocked { HasLock lock.Unlocked pinned.frame self.old }
        ensures belongs { Belongs L.contents manager.now self.new }
        ensures same { SamePass self.old self.new }
        ensures lookups { KeepsLookups self.old self.new }
        ensures tokens { self.new.tokens ≡ self.old.tokens }
        ensures census { self.new.census ≡ self.old.census }
        ensures calls { KeepsCalls self.old self.new }
        ensures mark { KeepsMark self.old self.new }
        ensures devices { KeepsDevices self.old self.new }
        ensures others { (g : ℕ) → g ≢ pinned.frame → link self.new.view g ≡ link self.old.view g }
        ensures tagged { IsTagged pinned.tag pinned.frame self.new }

        // It is refused for the pass's other tokens exactly when there are any.
        ensures local { local_pins (why_of result)
            ≡ refused_tokens (tokens_of (held_at self.old.tokens pinned.frame)) }

        ensures token { IfOk result (λ taken. taken.pinned ≡ pinned) }
        ensures lock { IfOk result
            (λ _. ChangesLock lock.Exclusive pinned.frame self.old self.new) }
        ensures none_unentered { IfOk result
            (λ _. HoldsNoUnentered (link self.new.view pinned.frame)) }
        ensures granted { IfOk result
            (λ _. GrantsCleanup self.old.view.number pinned.frame self.old.view self.new.view) }
        ensures back { IfErr result (λ refused. refused.pinned ≡ pinned) }
        ensures kept { IfErr result (λ _. KeepsLocks self.old self.new) }
        ensures cause { IfErr result
            (λ refused. RefusesCleanup self.old.view.number pinned.frame self.old.view
            self.new.view refused.why) }
    {
        let tokens = self.held.tokens(pinned.frame);
        let number = self.number;
        let mut seat = take_seat::<L, G>(&mut self.seat);
        let answer = lock(&manager.table, rt, &mut seat, pinned.frame, tokens, number);
        return_seat(&mut self.seat, seat);
        match answer {
            Ok(()) => Ok(Exclusive { pinned }),
            Err(why) => Err(Refused { pinned, why }),
        }
    }

    /// Takes it without waiting, neither for the content lock nor for other pins
    /// (`ConditionalLockBufferForCleanup`). A refusal gives the token back.
    pub fn try_cleanup<L: BlockLane, G: LogDevice>(
        &mut self,
        manager: &Manager<L, G>,
        pinned: Pinned,
    ) -> Result<Exclusive, Refused<TryCleanup>>
        requires belongs { Belongs L.contents manager.now self.old }
        requires pinned { IsPinnedFor pinned.tag pinned.frame self.old.tokens }
        requires unlocked { HasLock lock.Unlocked pinned.frame self.old }
        ensures belongs { Belongs L.contents manager.now self.new }
        ensures same { SamePass self.old self.new }
        ensures lookups { KeepsLookups self.old self.new }
        ensures tokens { self.new.tokens ≡ self.old.tokens }
        ensures census { self.new.census ≡ self.old.census }
        ensures calls { KeepsCalls self.old self.new }
        ensures mark { KeepsMark self.old self.new }
        ensures devices { KeepsDevices self.old self.new }
        ensures others { (g : ℕ) → g ≢ pinned.frame → link self.new.view g ≡ link self.old.view g }
        ensures tagged { IsTagged pinned.tag pinned.frame self.new }
        ensures local { tried_local_pins (why_of result)
            ≡ refused_tokens (tokens_of (held_at self.old.tokens pinned.frame)) }
        ensures token { IfOk result (λ taken. taken.pinned ≡ pinned) }
        ensures lock { IfOk result
            (λ _. ChangesLock lock.Exclusive pinned.frame self.old self.new) }
        ensures none_unentered { IfOk result
            (λ _. HoldsNoUnentered (link self.new.view pinned.frame)) }
        ensures granted { IfOk result (λ _. GrantsTry pinned.frame self.old.view self.new.view) }
        ensures back { IfErr result (λ refused. refused.pinned ≡ pinned) }
        ensures kept { IfErr result (λ _. KeepsLocks self.old self.new) }
        ensures cause { IfErr result
            (λ refused. RefusesTry pinned.frame self.old.view self.new.view refused.why) }
    {
        let tokens = self.held.tokens(pinned.frame);
        let mut seat = take_seat::<L, G>(&mut self.seat);
        let answer = try_lock(&manager.table, &mut seat, pinned.frame, tokens);
        return_seat(&mut self.seat, seat);
        match answer {
            Ok(()) => Ok(Exclusive { pinned }),
            Err(why) => Err(Refused { pinned, why }),
        }
    }
}
