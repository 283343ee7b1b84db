//! A pass puts a page.
ghost use Rattle.std.specs.Prelude.{◌≡◌};
ghost use Rattle.backend_pass.specs.Passes.{shown_after_put};

use crate::flushing::show_block;
use crate::manager::Manager;
use crate::met::Shown;
use crate::pass::Pass;
use crate::seats::{return_seat, take_seat};
use crate::tokens::Exclusive;
use buffer_frames::put_locked;
use byte_devices::LogDevice;
use crossbeam_utils::CachePadded;
use page_layout::{Lsn, Page};
use segment_store::BlockLane;
use std::sync::Wait;
use wal_flush::InsertError as PutError;

impl Shown {
    /// After a put: its position is the front. After a refusal a fault of the log is counted.
    fn after_put(self, answer: &Result<Lsn, PutError>) -> Shown
        ensures { result ≡ shown_after_put answer.now self }
    {
        match answer {
            Ok(lsn) => Shown {
                front: *lsn,
                met: self.met,
            },
            Err(PutError::LogFault) => self.after_log_fault(),
            Err(_) => self,
        }
    }
}

impl Pass {
    ghost use Rattle.std.specs.Prelude.{◌≡◌, ◌≢◌, ℕ, IfErr, IfOk, false, true};
    ghost use Rattle.page_layout.specs.Soundness.{is_new_page, is_sound_page};
    ghost use Rattle.pin_core.specs.declared.view.Content.TheVariants as content;
    ghost use Rattle.pin_core.specs.State.{link};
    ghost use Rattle.block_tag.specs.Names.{packed_tag};
    ghost use Rattle.frame_table.specs.Content.{HoldsNoUnentered};
    ghost use Rattle.frame_table.specs.Seats.{relations_of};
    ghost use Rattle.wal_flush.specs.Inserts.{AddsTorn};
    ghost use Rattle.buffer_frames.specs.Tokens.{IsPinnedFor};
    ghost use Rattle.buffer_frames.specs.Working.{Made};
    ghost use Rattle.backend_pass.specs.Locks.{HasLock};
    ghost use Rattle.backend_pass.specs.Managers.{Belongs};
    ghost use Rattle.backend_pass.specs.Passes.{KeepsCalls, KeepsLocks, KeepsLookups, SameButTorn};
    ghost use Rattle.buffer_frames.specs.Puts.{IsDoneOrFull, PutAnswer, met_put, put_calls};

    /// Makes the given page, which is sound and not new, the page of a frame whose content lock the
    /// caller has exclusively: marks the frame dirty (`MarkBufferDirty`), inserts the page into the
    /// log (`XLogInsert`), and copies it into the frame with its position there. Returns that
    /// position. After a refusal the frame's page is as it was.
    pub fn put<L: BlockLane, G: LogDevice, R: Wait>(
        &mut self,
        manager: &Manager<L, G>,
        rt: &R,
        exclusive: &mut Exclusive,
        page: &Page,
    ) -> Result<Lsn, PutError>
        requires belongs { Belongs L.contents manager.now self.old }
        requires pinned { IsPinnedFor exclusive.old.pinned.tag exclusive.old.pinned.frame
            self.old.tokens }
        requires locked { HasLock content.Exclusive exclusive.old.pinned.frame self.old }
        requires sound { is_sound_page page.now ≡ true }
        requires used { is_new_page page.now ≡ false }
        ensures belongs { Belongs L.contents manager.now self.new }
        ensures same { SameButTorn self.old self.new }
        ensures lookups { KeepsLookups self.old self.new }
        ensures token { exclusive.new ≡ exclusive.old }
        ensures tokens { self.new.tokens ≡ self.old.tokens }
        ensures io { self.new.io ≡ self.old.io }
        ensures census { self.new.census ≡ self.old.census }
        ensures locks { KeepsLocks self.old self.new }
        ensures others { (g : ℕ) → g ≢ exclusive.old.pinned.frame
            → link self.new.view g ≡ link self.old.view g }
        ensures marked { self.new.view.dirtied_or_synced ≡ true }

        // The page is the frame's, and stands in the log at the position answered, past all that
        // the pass has read and put; or this is why not.
        ensures answer { PutAnswer (relations_of manager.now.table) exclusive.old.pinned.frame
            exclusive.old.pinned.tag page.now self.old.view self.new.view result }
        ensures devices { Made (put_calls result) self.old.view self.new.view }
        ensures met { self.new.view.met ≡ met_put result self.old.view.met }
        ensures torn { AddsTorn (packed_tag exclusive.old.pinned.tag) page.now result
            self.old.view.torn self.new.view.torn }

        ensures unentered { self.new.view.unentered ≡ self.old.view.unentered }

        // If it is done, the block isn't noted as unentered when the lock is released.
        ensures none_unentered { IfOk result
            (λ _. HoldsNoUnentered (link self.new.view exclusive.old.pinned.frame)) }

        // If it is refused, the frame is marked dirty under the lock, and an entry was made under
        // it exactly if one was before.
        ensures dirtied { IfErr result
            (λ _. (link self.new.view exclusive.old.pinned.frame).dirtied ≡ true) }
        ensures entered { IfErr result
            (λ _. (link self.new.view exclusive.old.pinned.frame).entered
            ≡ (link self.old.view exclusive.old.pinned.frame).entered) }
        ensures refused { IfErr result (λ _. KeepsCalls self.old self.new) }
        ensures place_loads { self.new.view.place_loads ≡ self.old.view.place_loads }

        // It is done if the log isn't seen down, or full.
        ensures complete { self.new.view.saw_down ≡ false → IsDoneOrFull self.new.view result }
    {
        let frame = exclusive.pinned.frame;
        let tag = exclusive.pinned.tag;
        show_block(&manager.table, tag);
        self.backend.page.copy_from(page);
        let mut seat = take_seat::<L, G>(&mut self.seat);
        let answer = put_locked(
            &manager.table,
            rt,
            &mut seat,
            &self.held,
            frame,
            tag,
            &mut self.backend.page,
        );
        return_seat(&mut self.seat, seat);
        let shown = self.shown.after_put(&answer);
        self.shown = CachePadded::new(shown);
        answer
    }
}
