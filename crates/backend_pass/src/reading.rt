//! A pass reads a block.
//!
//! Rings are passed as `&mut Option<Ring>`: if a reference stood inside the `Option`, no clause
//! could tell the caller what it refers to after a call.
ghost use Rattle.std.specs.Prelude.{◌≡◌};
ghost use Rattle.buffer_frames.specs.Fetching.{fetched_by};
ghost use Rattle.backend_pass.specs.Reading.{read_refusal, shown_after};

use crate::errors::ReadError;
use crate::manager::Manager;
use crate::met::{Met, Shown};
use crate::pass::Pass;
use crate::pinned::Pinned;
use crate::seats::{return_seat, take_seat};
use access_rings::Ring;
use block_tag::Tag;
use buffer_frames::{
    BlockError, FetchError, FetchedPage, FrameFlushError, HintSeen, MOST_TOKENS, PinnedBlock,
    VictimError, read_block,
};
use byte_devices::LogDevice;
use crossbeam_utils::CachePadded;
use io_counts::{IoEvent, context_of};
use segment_store::BlockLane;
use std::sync::Wait;
use wal_flush::FlushLog;

/// The refusal of a pass whose frames refuse the block of this tag.
fn read_error(why: BlockError, tag: Tag) -> ReadError
    ensures { result ≡ read_refusal tag why }
{
    match why {
        BlockError::NoFrame(VictimError::NoUnpinned { frames }) => ReadError::NoUnpinned { frames },
        BlockError::NoFrame(VictimError::Flush(FrameFlushError::WriteFault { tag })) => {
            ReadError::WriteFault { tag }
        }
        BlockError::NoFrame(VictimError::Flush(FrameFlushError::Log(FlushLog::LogFault))) => {
            ReadError::LogFault
        }
        BlockError::NoFrame(VictimError::Flush(FrameFlushError::Log(FlushLog::LogDown { at }))) => {
            ReadError::LogDown { at }
        }
        BlockError::NoFrame(
            VictimError::Flush(FrameFlushError::Log(FlushLog::LogShort { lsn, end })),
        ) => { ReadError::LogShort { lsn, end } }
        BlockError::Unread(FetchError::ReadFault) => ReadError::ReadFault { tag },
        BlockError::Unread(FetchError::Unsound) => ReadError::Unsound { tag },
    }
}

/// Whether a block was there already, so that no lane was read for it.
fn is_hit(fetched: FetchedPage) -> bool
    ensures { fetched_by result ≡ fetched }
{
    match fetched {
        FetchedPage::Hit => true,
        FetchedPage::Read => false,
    }
}

impl Shown {
    /// After a refusal: a fault is counted.
    fn after(self, why: &ReadError) -> Shown
        ensures { result ≡ shown_after why.now self }
    {
        let Shown { front, met } = self;
        let Met {
            reads,
            writes,
            logs,
        } = met;
        match why {
            ReadError::ReadFault { tag: _ } => Shown {
                front,
                met: Met {
                    reads: reads.saturating_add(1),
                    writes,
                    logs,
                },
            },
            ReadError::WriteFault { tag: _ } => Shown {
                front,
                met: Met {
                    reads,
                    writes: writes.saturating_add(1),
                    logs,
                },
            },
            ReadError::LogFault => Shown {
                front,
                met: Met {
                    reads,
                    writes,
                    logs: logs.saturating_add(1),
                },
            },
            _ => self,
        }
    }
}

impl Pass {
    ghost use Rattle.std.specs.Prelude.{◌≡◌, ◌≢◌, ◌<◌, ◌≤◌, ◌↔◌, ℕ, None, Some, Ok, Err, IfErr};
    ghost use Rattle.std.specs.Prelude.{IfOk, is_some, true};
    ghost use Rattle.block_tag.specs.Names.{names_block};
    ghost use Rattle.pin_core.specs.declared.view.Content.TheVariants.{Unlocked};
    ghost use Rattle.pin_core.specs.State.{link};
    ghost use Rattle.history_core.specs.State.{last_count};
    ghost use Rattle.table_rule.specs.Blocks.{has_block};
    ghost use Rattle.frame_table.specs.Opened.{WasSoundAtOpening};
    ghost use Rattle.frame_table.specs.Seats.{frames_of, relations_of};
    ghost use Rattle.buffer_frames.specs.Tokens.{IsNew, IsPinnedFor, count_of, held_at};
    ghost use Rattle.buffer_frames.specs.Tokens.{tokens_less, tokens_more, tokens_of};
    ghost use Rattle.buffer_frames.specs.Hinting.{TakesTurns};
    ghost use Rattle.buffer_frames.specs.Outside.{ring_shape, shown_count};
    ghost use Rattle.io_counts.specs.declared.contexts.IoEvent.TheVariants.{Hit};
    ghost use Rattle.io_counts.specs.Counts.{context_of, io_with, one_of};
    ghost use Rattle.buffer_frames.specs.declared.hinting.HintSeen.TheVariants.{Unused};
    ghost use Rattle.backend_pass.specs.Managers.{Belongs};
    ghost use Rattle.backend_pass.specs.HintsSeen.{IsUnusedOrHad, ShowsHint, StoresHints};
    ghost use Rattle.backend_pass.specs.Passes.{KeepsCalls, KeepsLocks, KeepsMark, NoDeviceFails};
    ghost use Rattle.backend_pass.specs.Passes.{SamePass};
    ghost use Rattle.backend_pass.specs.Reading.{IsReadUnsoundAllPinnedOrShort};
    ghost use Rattle.backend_pass.specs.Reading.{IsReadUnsoundOrAllPinned, NothingFails};
    ghost use Rattle.backend_pass.specs.Reading.{ReadingCensus, ReadsBlock, at_once_of};
    ghost use Rattle.backend_pass.specs.Reading.{met_reading, refused_at_once};
    ghost use Rattle.buffer_frames.specs.Fetching.{WasUnsoundAtOpening};
    ghost use Rattle.backend_pass.specs.declared.errors.ReadError.{ReadError};
    ghost use Rattle.backend_pass.specs.declared.errors.ReadError.TheVariants.{Unsound};
    ghost use Rattle.block_tag.specs.declared.tag.Tag.{Tag};

    /// Reads a block that callers have no token of.
    fn read_new<L: BlockLane, G: LogDevice, R: Wait>(
        &mut self,
        manager: &Manager<L, G>,
        rt: &R,
        tag: &Tag,
        ring: &mut Option<Ring>,
    ) -> Result<Pinned, ReadError>
        requires belongs { Belongs L.contents manager.now self.old }
        requires room { count_of self.old.tokens < MOST_TOKENS }
        requires tag { names_block tag.now ≡ true }
        requires block { has_block (relations_of manager.now.table) tag.now ≡ true }
        requires new { IsNew tag.now self.old.tokens }
        ensures belongs { Belongs L.contents manager.now self.new }
        ensures same { SamePass self.old self.new }
        ensures calls { KeepsCalls self.old self.new }
        ensures mark { KeepsMark self.old self.new }
        ensures locks { KeepsLocks self.old self.new }
        ensures ring { ring_shape ring.new ≡ ring_shape ring.old }
        ensures answer { ReadsBlock L.contents manager.now.table tag.now ring.old ring.new self.old
            self.new result }
        ensures census { ReadingCensus (frames_of manager.now.table) self.old.census
            self.new.census result }
        ensures met { self.new.view.met ≡ met_reading result self.old.view.met }
        ensures turns { TakesTurns self.new.hint self.old.view.turns self.new.view.turns }
        ensures hints { StoresHints (frames_of manager.now.table) tag.now self.new.hint
            self.old.view.hints self.new.view.hints result }
        ensures back { IfOk result
            (λ pinned. tokens_less pinned.frame self.new.tokens ≡ self.old.tokens) }
    {
        let mut seat = take_seat::<L, G>(&mut self.seat);
        let answer = read_block(
            &manager.table,
            rt,
            &mut seat,
            &self.held,
            &manager.sweep,
            &mut self.backend,
            tag,
            ring,
        );
        return_seat(&mut self.seat, seat);
        match answer {
            Ok(PinnedBlock { pin, fetched }) => {
                let frame = pin.frame();
                let tag = *tag;
                let hit = is_hit(fetched);
                self.held.add_pin(pin, tag);
                Ok(Pinned { frame, tag, hit })
            }
            Err(cause) => {
                let why = read_error(cause, *tag);
                let shown = self.shown.after(&why);
                self.shown = CachePadded::new(shown);
                Err(why)
            }
        }
    }

    /// Pins a block and returns a token of it (`ReadBuffer_common`). If callers have one already,
    /// no lane is read and no shared word changes. Otherwise the block is looked up, by its hint
    /// and then in the map, and, if no frame has it, read into one, chosen by the ring if one is
    /// given. A refusal leaves the pass's pins as they were.
    pub fn read_buffer<L: BlockLane, G: LogDevice, R: Wait>(
        &mut self,
        manager: &Manager<L, G>,
        rt: &R,
        tag: Tag,
        ring: &mut Option<Ring>,
    ) -> Result<Pinned, ReadError>
        requires belongs { Belongs L.contents manager.now self.old }
        ensures belongs { Belongs L.contents manager.now self.new }
        ensures same { SamePass self.old self.new }
        ensures calls { KeepsCalls self.old self.new }
        ensures mark { KeepsMark self.old self.new }
        ensures locks { KeepsLocks self.old self.new }
        ensures ring { ring_shape ring.new ≡ ring_shape ring.old }
        ensures census { ReadingCensus (frames_of manager.now.table) self.old.census
            self.new.census result }
        ensures met { self.new.view.met ≡ met_reading result self.old.view.met }

        // A block past the end and one token too many are refused, in this order, before anything
        // is looked at, and nothing else is refused so. The pass, but for its hint, and the ring
        // are as they were.
        ensures exact { at_once_of result
            ≡ refused_at_once (relations_of manager.now.table) self.old.tokens tag }
        ensures at_once { (why : ReadError)
            → refused_at_once (relations_of manager.now.table) self.old.tokens tag ≡ Some why
            → (self.new ≡ record self.old { hint = Unused }) × (ring.new ≡ ring.old) }

        // A further token of a block that is pinned changes nothing but the count of its tokens,
        // the pass's hint and its count of hits, and leaves the ring as it was.
        ensures again { refused_at_once (relations_of manager.now.table) self.old.tokens tag ≡ None
            → (f : ℕ) → IsPinnedFor tag f self.old.tokens
            → (result ≡ Ok (record { frame = f; tag = tag; hit = true }))
            × (self.new ≡ record self.old {
              tokens = tokens_more f self.old.tokens;
              hint = Unused;
              io = io_with (context_of ring.old) (one_of Hit) self.old.io;
            })
            × (ring.new ≡ ring.old) }

        // Any other block is looked up.
        ensures new { refused_at_once (relations_of manager.now.table) self.old.tokens tag ≡ None
            → IsNew tag self.old.tokens
            → ReadsBlock L.contents manager.now.table tag ring.old ring.new self.old self.new result }

        // What is told of the hint was seen in this call.
        ensures hint { ShowsHint (frames_of manager.now.table) tag self.old.tokens
            (is_some ring.old) self.old.view self.new.view self.new.hint }

        // It took no latch of a partition exactly when the hint was not loaded, or gave the frame.
        // What `turns` shows says so too, unless it stood at its last value.
        ensures turns { IsUnusedOrHad self.new.hint ↔ (self.new.view.turns ≡ self.old.view.turns) }
        ensures shown { shown_count self.old.view.turns ≢ last_count
            → (IsUnusedOrHad self.new.hint
            ↔ (shown_count self.new.view.turns ≡ shown_count self.old.view.turns)) }
        ensures rises { self.old.view.turns ≤ self.new.view.turns }

        // If it took one and is Ok, it has stored the frame that it answers in the block's hint
        // word, and no other hint. A refusal has stored none, unless the block had a frame and its
        // page didn't come.
        ensures stored { StoresHints (frames_of manager.now.table) tag self.new.hint
            self.old.view.hints self.new.view.hints result }

        // If no device fails and the log isn't down, the block is read, unless its page isn't
        // sound, each frame is pinned, or a victim's page is past the log's end.
        ensures short { refused_at_once (relations_of manager.now.table) self.old.tokens tag ≡ None
            → NoDeviceFails self.old self.new → IsReadUnsoundAllPinnedOrShort result }

        // If no page had a position past the log end that the pass had seen, the last of these
        // doesn't happen.
        ensures complete { refused_at_once (relations_of manager.now.table) self.old.tokens tag
            ≡ None → NothingFails L.contents manager.now.table self.old self.new
            → IsReadUnsoundOrAllPinned result }

        // It is called unsound only if it was unsound as the table was opened, as far as that is
        // known.
        ensures unsound { (failed : Tag) → result ≡ Err (Unsound failed)
            → (failed ≡ tag) × WasUnsoundAtOpening L.contents manager.now.table tag }

        ensures tag { IfOk result (λ pinned. pinned.tag ≡ tag) }
        ensures pinned { IfOk result (λ pinned. IsPinnedFor tag pinned.frame self.new.tokens) }
        ensures seen { IfOk result (λ pinned. (link self.new.view pinned.frame).seen_valid ≡ true) }
        ensures sound { IfOk result (λ _. WasSoundAtOpening L.contents manager.now.table tag) }
        ensures refused { IfErr result (λ _. self.new.tokens ≡ self.old.tokens) }

        // The token may be given back at once, which leaves the tokens of before.
        ensures back { IfOk result
            (λ pinned. tokens_less pinned.frame self.new.tokens ≡ self.old.tokens) }
        ensures last { IfOk result
            (λ pinned. tokens_of (held_at self.new.tokens pinned.frame) ≡ 1
            → (link self.new.view pinned.frame).content ≡ Unlocked) }
    {
        let blocks = manager.table.blocks(&tag);
        if tag.block >= blocks {
            self.backend.lookups.hint = HintSeen::Unused;
            return Err(ReadError::PastEnd {
                block: tag.block,
                blocks,
            });
        }
        if self.held.is_full() {
            self.backend.lookups.hint = HintSeen::Unused;
            return Err(ReadError::PinsFull);
        }
        let Some(frame) = self.held.frame_of(&tag) else {
            return self.read_new(manager, rt, &tag, ring);
        };
        self.backend.lookups.hint = HintSeen::Unused;
        self.held.add_token(frame);
        self.backend.io.count(context_of(ring), IoEvent::Hit);
        Ok(Pinned {
            frame,
            tag,
            hit: true,
        })
    }
}
