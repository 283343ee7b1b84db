//! A pass reads pages.

use crate::manager::Manager;
use crate::met::Shown;
use crate::pass::Pass;
use crate::pinned::Pinned;
use crate::seats::{return_seat, take_seat};
use crate::tokens::{Exclusive, Shared};
use buffer_frames::{read_copy, share_to_read};
use byte_devices::LogDevice;
use crossbeam_utils::CachePadded;
use page_layout::{Lsn, Page};
use segment_store::BlockLane;
use std::sync::Wait;

impl Pass {
    ghost use Rattle.std.specs.Prelude.{◌≡◌, ◌≢◌, ℕ};
    ghost use Rattle.pin_core.specs.declared.view.Content.TheVariants as lock;
    ghost use Rattle.pin_core.specs.State.{link};
    ghost use Rattle.frame_table.specs.Content.{HoldsNoUnentered};
    ghost use Rattle.buffer_frames.specs.Tokens.{IsPinnedFor};
    ghost use Rattle.backend_pass.specs.Locks.{HasLock};
    ghost use Rattle.backend_pass.specs.Managers.{Belongs};
    ghost use Rattle.buffer_frames.specs.PageReads.{ReadsPage, ReadsUnder, SharesToRead};
    ghost use Rattle.backend_pass.specs.Passes.{KeepsDevices, KeepsLocks, KeepsMark, KeepsLookups};
    ghost use Rattle.backend_pass.specs.Passes.{SamePass};

    /// Reads the page of a token's block under the content lock that the pass has.
    fn read_locked<L: BlockLane, G: LogDevice, R: Wait>(
        &mut self,
        manager: &Manager<L, G>,
        rt: &R,
        pinned: &Pinned,
        page: &mut Page,
    ) -> Lsn
        requires belongs { Belongs L.contents manager.now self.old }
        requires pinned { IsPinnedFor pinned.now.tag pinned.now.frame self.old.tokens }
        requires locked { (link self.old.view pinned.now.frame).content ≢ lock.Unlocked }
        ensures belongs { Belongs L.contents manager.now self.new }
        ensures same { SamePass self.old self.new }
        ensures lookups { KeepsLookups self.old self.new }
        ensures tokens { self.new.tokens ≡ self.old.tokens }
        ensures census { self.new.census ≡ self.old.census }
        ensures mark { KeepsMark self.old self.new }
        ensures devices { KeepsDevices self.old self.new }
        ensures locks { KeepsLocks self.old self.new }
        ensures others { (g : ℕ) → g ≢ pinned.now.frame
            → link self.new.view g ≡ link self.old.view g }
        ensures reads { ReadsPage L.contents manager.now.table pinned.now.tag page.new result
            self.old.view self.new.view }
        ensures did { ReadsUnder (link self.old.view pinned.now.frame).content pinned.now.frame
            page.new result self.old.view self.new.view }
        ensures none_unentered { HoldsNoUnentered (link self.old.view pinned.now.frame)
            → HoldsNoUnentered (link self.new.view pinned.now.frame) }
    {
        let frame = pinned.frame;
        let tag = pinned.tag;
        let mut seat = take_seat::<L, G>(&mut self.seat);
        let place = read_copy(&manager.table, rt, &mut seat, frame, tag, page);
        return_seat(&mut self.seat, seat);
        let met = self.shown.met;
        self.shown = CachePadded::new(Shown { front: place, met });
        place
    }

    /// Copies the page of a token's block and returns its place in the log. Takes the content lock
    /// in shared mode for that, and releases it.
    pub fn read_page<L: BlockLane, G: LogDevice, R: Wait>(
        &mut self,
        manager: &Manager<L, G>,
        rt: &R,
        pinned: &Pinned,
        page: &mut Page,
    ) -> Lsn
        requires belongs { Belongs L.contents manager.now self.old }
        requires pinned { IsPinnedFor pinned.now.tag pinned.now.frame self.old.tokens }
        requires unlocked { HasLock lock.Unlocked pinned.now.frame self.old }
        ensures belongs { Belongs L.contents manager.now self.new }
        ensures same { SamePass self.old self.new }
        ensures lookups { KeepsLookups self.old self.new }
        ensures tokens { self.new.tokens ≡ self.old.tokens }
        ensures census { self.new.census ≡ self.old.census }
        ensures mark { KeepsMark self.old self.new }
        ensures devices { KeepsDevices self.old self.new }
        ensures locks { KeepsLocks self.old self.new }
        ensures others { (g : ℕ) → g ≢ pinned.now.frame
            → link self.new.view g ≡ link self.old.view g }
        ensures reads { ReadsPage L.contents manager.now.table pinned.now.tag page.new result
            self.old.view self.new.view }
        ensures did { SharesToRead pinned.now.frame page.new result self.old.view self.new.view }
    {
        let frame = pinned.frame;
        let tag = pinned.tag;
        let mut seat = take_seat::<L, G>(&mut self.seat);
        let place = share_to_read(&manager.table, rt, &mut seat, frame, tag, page);
        return_seat(&mut self.seat, seat);
        let met = self.shown.met;
        self.shown = CachePadded::new(Shown { front: place, met });
        place
    }

    /// Copies the page under the shared content lock that the token has, and returns its place in
    /// the log.
    pub fn read_shared<L: BlockLane, G: LogDevice, R: Wait>(
        &mut self,
        manager: &Manager<L, G>,
        rt: &R,
        shared: &Shared,
        page: &mut Page,
    ) -> Lsn
        requires belongs { Belongs L.contents manager.now self.old }
        requires pinned { IsPinnedFor shared.now.pinned.tag shared.now.pinned.frame
            self.old.tokens }
        requires locked { HasLock lock.Shared shared.now.pinned.frame self.old }
        ensures belongs { Belongs L.contents manager.now self.new }
        ensures same { SamePass self.old self.new }
        ensures lookups { KeepsLookups self.old self.new }
        ensures tokens { self.new.tokens ≡ self.old.tokens }
        ensures census { self.new.census ≡ self.old.census }
        ensures mark { KeepsMark self.old self.new }
        ensures devices { KeepsDevices self.old self.new }
        ensures locks { KeepsLocks self.old self.new }
        ensures others { (g : ℕ) → g ≢ shared.now.pinned.frame
            → link self.new.view g ≡ link self.old.view g }
        ensures reads { ReadsPage L.contents manager.now.table shared.now.pinned.tag page.new result
            self.old.view self.new.view }
        ensures did { ReadsUnder lock.Shared shared.now.pinned.frame page.new result self.old.view
            self.new.view }
    {
        self.read_locked(manager, rt, &shared.pinned, page)
    }

    /// Copies the page under the exclusive content lock that the token has, and returns its place
    /// in the log.
    pub fn read_exclusive<L: BlockLane, G: LogDevice, R: Wait>(
        &mut self,
        manager: &Manager<L, G>,
        rt: &R,
        exclusive: &Exclusive,
        page: &mut Page,
    ) -> Lsn
        requires belongs { Belongs L.contents manager.now self.old }
        requires pinned { IsPinnedFor exclusive.now.pinned.tag exclusive.now.pinned.frame
            self.old.tokens }
        requires locked { HasLock lock.Exclusive exclusive.now.pinned.frame self.old }
        ensures belongs { Belongs L.contents manager.now self.new }
        ensures same { SamePass self.old self.new }
        ensures lookups { KeepsLookups self.old self.new }
        ensures tokens { self.new.tokens ≡ self.old.tokens }
        ensures census { self.new.census ≡ self.old.census }
        ensures mark { KeepsMark self.old self.new }
        ensures devices { KeepsDevices self.old self.new }
        ensures locks { KeepsLocks self.old self.new }
        ensures others { (g : ℕ) → g ≢ exclusive.now.pinned.frame
            → link self.new.view g ≡ link self.old.view g }
        ensures reads { ReadsPage L.contents manager.now.table exclusive.now.pinned.tag page.new
            result self.old.view self.new.view }
        ensures none_unentered { HoldsNoUnentered (link self.old.view exclusive.now.pinned.frame)
            → HoldsNoUnentered (link self.new.view exclusive.now.pinned.frame) }
        ensures did { ReadsUnder lock.Exclusive exclusive.now.pinned.frame page.new result
            self.old.view self.new.view }
    {
        self.read_locked(manager, rt, &exclusive.pinned, page)
    }
}
