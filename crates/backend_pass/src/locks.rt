//! Content locks that a pass takes and gives up (`LockBuffer`).
//!
//! The content lock is the pass's, so of a frame's tokens at most one is `Shared` or `Exclusive`. A
//! pass that asked for the lock again with another token would wait for itself; the contracts don't
//! allow that.

use crate::errors::Refused;
use crate::manager::Manager;
use crate::pass::Pass;
use crate::pinned::Pinned;
use crate::seats::{return_seat, take_seat};
use crate::tokens::{Exclusive, Shared};
use byte_devices::LogDevice;
use content_locks::{TryLock, exclusive, share, try_exclusive, try_share, unexclusive, unshare};
use segment_store::BlockLane;
use std::sync::Wait;

impl Pass {
    ghost use Rattle.std.specs.Prelude.{◌≡◌, ◌≢◌, ◌++◌, ◌∷◌, [], ℕ, IfErr, IfOk};
    ghost use Rattle.block_tag.specs.Names.{packed_tag};
    ghost use Rattle.pin_core.specs.declared.view.Content.TheVariants as lock;
    ghost use Rattle.pin_core.specs.State.{link};
    ghost use Rattle.page_core.specs.Kinds as kinds;
    ghost use Rattle.history_core.specs.Unentered.{HoldsUnentered};
    ghost use Rattle.frame_table.specs.Content.{HoldsNoUnentered};
    ghost use Rattle.frame_table.specs.FrameSteps.{Did};
    ghost use Rattle.frame_table.specs.Kinds.{pages};
    ghost use Rattle.content_locks.specs.Locks.{LocksAtOnce, LocksContent, RefusesLock};
    ghost use Rattle.content_locks.specs.Locks.{ShowsExclusive, ShowsLock};
    ghost use Rattle.buffer_frames.specs.Tokens.{IsPinnedFor};
    ghost use Rattle.backend_pass.specs.Locks.{ChangesLock, HasLock};
    ghost use Rattle.backend_pass.specs.Managers.{Belongs};
    ghost use Rattle.backend_pass.specs.Passes.{KeepsCalls, KeepsDevices, KeepsLocks, KeepsMark};
    ghost use Rattle.backend_pass.specs.Passes.{KeepsLookups, SameButUnentered, SamePass};

    /// Takes the content lock of a token's frame in shared mode, once no backend has it exclusively
    /// (`BUFFER_LOCK_SHARE`).
    pub fn share<L: BlockLane, G: LogDevice, R: Wait>(
        &mut self,
        manager: &Manager<L, G>,
        rt: &R,
        pinned: Pinned,
    ) -> Shared
        requires belongs { Belongs L.contents manager.now self.old }
        requires pinned { IsPinnedFor pinned.tag pinned.frame self.old.tokens }
        requires unlocked { HasLock lock.Unlocked pinned.frame self.old }
        ensures belongs { Belongs L.contents manager.now self.new }
        ensures same { SamePass self.old self.new }
        ensures lookups { KeepsLookups self.old self.new }
        ensures tokens { self.new.tokens ≡ self.old.tokens }
        ensures census { self.new.census ≡ self.old.census }
        ensures calls { KeepsCalls self.old self.new }
        ensures mark { KeepsMark self.old self.new }
        ensures devices { KeepsDevices self.old self.new }
        ensures token { result.pinned ≡ pinned }
        ensures lock { ChangesLock lock.Shared pinned.frame self.old self.new }
        ensures did { LocksContent kinds.share pinned.frame self.old.view self.new.view }
    {
        let mut seat = take_seat::<L, G>(&mut self.seat);
        share(&manager.table, rt, &mut seat, pinned.frame);
        return_seat(&mut self.seat, seat);
        Shared { pinned }
    }

    /// Takes it in exclusive mode, once no backend has it (`BUFFER_LOCK_EXCLUSIVE`).
    pub fn exclusive<L: BlockLane, G: LogDevice, R: Wait>(
        &mut self,
        manager: &Manager<L, G>,
        rt: &R,
        pinned: Pinned,
    ) -> Exclusive
        requires belongs { Belongs L.contents manager.now self.old }
        requires pinned { IsPinnedFor pinned.tag pinned.frame self.old.tokens }
        requires unlocked { HasLock lock.Unlocked pinned.frame self.old }
        ensures belongs { Belongs L.contents manager.now self.new }
        ensures same { SamePass self.old self.new }
        ensures lookups { KeepsLookups self.old self.new }
        ensures tokens { self.new.tokens ≡ self.old.tokens }
        ensures census { self.new.census ≡ self.old.census }
        ensures calls { KeepsCalls self.old self.new }
        ensures mark { KeepsMark self.old self.new }
        ensures devices { KeepsDevices self.old self.new }
        ensures token { result.pinned ≡ pinned }
        ensures lock { ChangesLock lock.Exclusive pinned.frame self.old self.new }
        ensures none_unentered { HoldsNoUnentered (link self.new.view pinned.frame) }
        ensures did { LocksContent kinds.exclude pinned.frame self.old.view self.new.view }
    {
        let mut seat = take_seat::<L, G>(&mut self.seat);
        exclusive(&manager.table, rt, &mut seat, pinned.frame);
        return_seat(&mut self.seat, seat);
        Exclusive { pinned }
    }

    /// Takes it in shared mode without waiting. A refusal returns the token.
    pub fn try_share<L: BlockLane, G: LogDevice>(
        &mut self,
        manager: &Manager<L, G>,
        pinned: Pinned,
    ) -> Result<Shared, Refused<TryLock>>
        requires belongs { Belongs L.contents manager.now self.old }
        requires pinned { IsPinnedFor pinned.tag pinned.frame self.old.tokens }
        requires unlocked { HasLock lock.Unlocked pinned.frame self.old }
        ensures belongs { Belongs L.contents manager.now self.new }
        ensures same { SamePass self.old self.new }
        ensures lookups { KeepsLookups self.old self.new }
        ensures tokens { self.new.tokens ≡ self.old.tokens }
        ensures census { self.new.census ≡ self.old.census }
        ensures calls { KeepsCalls self.old self.new }
        ensures mark { KeepsMark self.old self.new }
        ensures devices { KeepsDevices self.old self.new }
        ensures token { IfOk result (λ taken. taken.pinned ≡ pinned) }
        ensures lock { IfOk result (λ _. ChangesLock lock.Shared pinned.frame self.old self.new) }
        ensures did { IfOk result
            (λ _. LocksAtOnce kinds.share pinned.frame self.old.view self.new.view) }
        ensures back { IfErr result (λ refused. refused.pinned ≡ pinned) }
        ensures kept { IfErr result (λ _. KeepsLocks self.old self.new) }
        ensures others { (g : ℕ) → g ≢ pinned.frame → link self.new.view g ≡ link self.old.view g }
        ensures cause { IfErr result
            (λ refused. RefusesLock ShowsExclusive pinned.frame self.old.view
            self.new.view refused.why) }
    {
        let mut seat = take_seat::<L, G>(&mut self.seat);
        let answer = try_share(&manager.table, &mut seat, pinned.frame);
        return_seat(&mut self.seat, seat);
        match answer {
            Ok(()) => Ok(Shared { pinned }),
            Err(why) => Err(Refused { pinned, why }),
        }
    }

    /// Takes it in exclusive mode without waiting (`ConditionalLockBuffer`). A refusal returns the
    /// token.
    pub fn try_exclusive<L: BlockLane, G: LogDevice>(
        &mut self,
        manager: &Manager<L, G>,
        pinned: Pinned,
    ) -> Result<Exclusive, Refused<TryLock>>
        requires belongs { Belongs L.contents manager.now self.old }
        requires pinned { IsPinnedFor pinned.tag pinned.frame self.old.tokens }
        requires unlocked { HasLock lock.Unlocked pinned.frame self.old }
        ensures belongs { Belongs L.contents manager.now self.new }
        ensures same { SamePass self.old self.new }
        ensures lookups { KeepsLookups self.old self.new }
        ensures tokens { self.new.tokens ≡ self.old.tokens }
        ensures census { self.new.census ≡ self.old.census }
        ensures calls { KeepsCalls self.old self.new }
        ensures mark { KeepsMark self.old self.new }
        ensures devices { KeepsDevices self.old self.new }
        ensures token { IfOk result (λ taken. taken.pinned ≡ pinned) }
        ensures lock { IfOk result
            (λ _. ChangesLock lock.Exclusive pinned.frame self.old self.new) }
        ensures none_unentered { IfOk result
            (λ _. HoldsNoUnentered (link self.new.view pinned.frame)) }
        ensures did { IfOk result
            (λ _. LocksAtOnce kinds.exclude pinned.frame self.old.view self.new.view) }
        ensures back { IfErr result (λ refused. refused.pinned ≡ pinned) }
        ensures kept { IfErr result (λ _. KeepsLocks self.old self.new) }
        ensures others { (g : ℕ) → g ≢ pinned.frame → link self.new.view g ≡ link self.old.view g }
        ensures cause { IfErr result
            (λ refused. RefusesLock ShowsLock pinned.frame self.old.view
            self.new.view refused.why) }
    {
        let mut seat = take_seat::<L, G>(&mut self.seat);
        let answer = try_exclusive(&manager.table, &mut seat, pinned.frame);
        return_seat(&mut self.seat, seat);
        match answer {
            Ok(()) => Ok(Exclusive { pinned }),
            Err(why) => Err(Refused { pinned, why }),
        }
    }

    /// Releases the shared lock (`BUFFER_LOCK_UNLOCK`) and returns the token.
    pub fn unshare<L: BlockLane, G: LogDevice>(
        &mut self,
        manager: &Manager<L, G>,
        shared: Shared,
    ) -> Pinned
        requires belongs { Belongs L.contents manager.now self.old }
        requires pinned { IsPinnedFor shared.pinned.tag shared.pinned.frame self.old.tokens }
        requires locked { HasLock lock.Shared shared.pinned.frame self.old }
        ensures belongs { Belongs L.contents manager.now self.new }
        ensures same { SamePass self.old self.new }
        ensures lookups { KeepsLookups self.old self.new }
        ensures tokens { self.new.tokens ≡ self.old.tokens }
        ensures census { self.new.census ≡ self.old.census }
        ensures calls { KeepsCalls self.old self.new }
        ensures mark { KeepsMark self.old self.new }
        ensures devices { KeepsDevices self.old self.new }
        ensures token { result ≡ shared.pinned }
        ensures lock { ChangesLock lock.Unlocked shared.pinned.frame self.old self.new }
        ensures did { (was : ℕ)
            × Did (pages kinds.unshare) shared.pinned.frame self.old.view self.new.view was }
    {
        let Shared { pinned } = shared;
        let mut seat = take_seat::<L, G>(&mut self.seat);
        unshare(&manager.table, &mut seat, pinned.frame);
        return_seat(&mut self.seat, seat);
        pinned
    }

    /// Releases the exclusive lock and returns the token. If puts were made under it and none was
    /// done, the pass notes the block as unentered.
    pub fn unexclusive<L: BlockLane, G: LogDevice>(
        &mut self,
        manager: &Manager<L, G>,
        exclusive: Exclusive,
    ) -> Pinned
        requires belongs { Belongs L.contents manager.now self.old }
        requires pinned { IsPinnedFor exclusive.pinned.tag exclusive.pinned.frame self.old.tokens }
        requires locked { HasLock lock.Exclusive exclusive.pinned.frame self.old }
        ensures belongs { Belongs L.contents manager.now self.new }
        ensures same { SameButUnentered self.old self.new }

        // The block is noted as unentered exactly if the frame was marked dirty under the lock and
        // no entry made.
        ensures noted { HoldsUnentered (link self.old.view exclusive.pinned.frame)
            → self.new.view.unentered
            ≡ self.old.view.unentered ++ packed_tag exclusive.pinned.tag ∷ [] }
        ensures unentered { HoldsNoUnentered (link self.old.view exclusive.pinned.frame)
            → self.new.view.unentered ≡ self.old.view.unentered }
        ensures lookups { KeepsLookups self.old self.new }
        ensures tokens { self.new.tokens ≡ self.old.tokens }
        ensures census { self.new.census ≡ self.old.census }
        ensures calls { KeepsCalls self.old self.new }
        ensures mark { KeepsMark self.old self.new }
        ensures devices { KeepsDevices self.old self.new }
        ensures down { self.new.view.saw_down ≡ self.old.view.saw_down }
        ensures token { result ≡ exclusive.pinned }
        ensures lock { ChangesLock lock.Unlocked exclusive.pinned.frame self.old self.new }
        ensures did { (was : ℕ)
            × Did (pages kinds.unexclude) exclusive.pinned.frame self.old.view self.new.view was }
    {
        let Exclusive { pinned } = exclusive;
        let mut seat = take_seat::<L, G>(&mut self.seat);
        unexclusive(&manager.table, &mut seat, pinned.frame);
        return_seat(&mut self.seat, seat);
        pinned
    }
}
