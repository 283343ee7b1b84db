//! A lane that is out.
//!
//! A lane goes out with its number and room for the note of one call, and only the lane with that
//! number may come back: two unknown lanes with the same counts can't be exchanged.
ghost use Rattle.std.specs.Prelude.{◌≡◌, ◌≤◌, Some, OnOk, IfSome, IsSome, MatchResult};
ghost use Rattle.std.specs.Option.{ForSome};
ghost use Rattle.page_layout.specs.Fields.{lsn_of};
ghost use Rattle.pin_core.specs.State.{lane_hold};
ghost use Rattle.table_rule.specs.declared.noted_lane.LaneCall.TheVariants as lane_call;
ghost use Rattle.table_rule.specs.LaneCalls.{LaneDid, NotesRead, NotesWritten, NotesWriteFailed, lane_devices};

use crate::value::Value;
use atomic_table::Seat;
use block_tag::Tag;
use byte_devices::Failed;
use page_layout::Page;
use pin_core::View;
use segment_store::BlockLane;
use std::snapshot::Snapshot;

/// The one call of a lane that was made since it went out. The pages stand here for clauses alone.
#[derive(Drop)]
pub enum LaneCall {
    Untouched,
    /// The page was read for this frame.
    Read {
        frame: u32,
        tag: Tag,
        page: Snapshot<Page>,
    },
    ReadFailed {
        tag: Tag,
    },
    /// The page of this frame was written.
    Written {
        frame: u32,
        tag: Tag,
        page: Snapshot<Page>,
    },
    WriteFailed {
        frame: u32,
        tag: Tag,
        page: Snapshot<Page>,
    },
    Synced,
    SyncFailed,
}

/// A lane, with its number in the table, and the call of it that was made since it went out.
pub struct NotedLane<L> {
    number: u32,
    device: L,
    call: LaneCall,
}

impl<L> NotedLane<L> {
    /// A lane that wasn't called.
    pub(crate) fn new(number: u32, device: L) -> NotedLane<L>
        ensures { result ≡ record { number = number; device = device; call = lane_call.Untouched } }
    {
        NotedLane {
            number,
            device,
            call: LaneCall::Untouched,
        }
    }

    /// The lane without the note of a call.
    pub fn without_call(self) -> NotedLane<L>
        ensures number { result.number ≡ self.number }
        ensures device { result.device ≡ self.device }
        ensures call { result.call ≡ lane_call.Untouched }
    {
        NotedLane::new(self.number, self.into_device())
    }

    /// The lane itself.
    pub(crate) fn into_device(self) -> L
        ensures { result ≡ self.device }
    {
        let NotedLane {
            number: _number,
            device,
            call: _call,
        } = self;
        device
    }
}

impl<L: BlockLane> NotedLane<L> {
    /// Reads a block of the lane into the page, for a frame (`smgrread`).
    pub fn read(&mut self, frame: u32, tag: Tag, page: &mut Page) -> Result<(), Failed>
        requires untouched { self.old.call ≡ lane_call.Untouched }
        requires held { ForSome (L.contents self.old.device) (λ pages. IsSome (pages tag)) }
        ensures number { self.new.number ≡ self.old.number }
        ensures page { OnOk result (IfSome (L.contents self.old.device) (λ pages. pages tag ≡ Some page.new)) }
        ensures call { MatchResult result (λ _. NotesRead frame tag page.new self.new.call)
            (λ _. self.new.call ≡ lane_call.ReadFailed tag) }
        ensures did { LaneDid (lane_devices L.BlockLane) self.old.device self.new.device
            self.new.call }
    {
        match self.device.read(tag, page) {
            Ok(()) => {
                self.call = LaneCall::Read {
                    frame,
                    tag,
                    page: Snapshot::of(page),
                };
                Ok(())
            }
            Err(failed) => {
                self.call = LaneCall::ReadFailed { tag };
                Err(failed)
            }
        }
    }

    /// Writes the page of a frame to a block of the lane (`smgrwrite`). As the lane went out with
    /// the seat, its backend had seen the log flushed up to the page's position.
    pub fn write<G>(
        &mut self,
        _seat: &Seat<Value<L, G>, View>,
        frame: u32,
        tag: Tag,
        page: &Page,
    ) -> Result<(), Failed>
        requires untouched { self.old.call ≡ lane_call.Untouched }
        requires held { ForSome (L.contents self.old.device) (λ pages. IsSome (pages tag)) }
        requires log_first { lsn_of page.now
            ≤ (lane_hold _seat.now.me.0 self.old.number).flushed }
        ensures number { self.new.number ≡ self.old.number }
        ensures call { MatchResult result (λ _. NotesWritten frame tag page.now self.new.call)
            (λ _. NotesWriteFailed frame tag page.now self.new.call) }
        ensures did { LaneDid (lane_devices L.BlockLane) self.old.device self.new.device
            self.new.call }
    {
        let noted = Snapshot::of(page);
        match self.device.write(tag, page) {
            Ok(()) => {
                self.call = LaneCall::Written {
                    frame,
                    tag,
                    page: noted,
                };
                Ok(())
            }
            Err(failed) => {
                self.call = LaneCall::WriteFailed {
                    frame,
                    tag,
                    page: noted,
                };
                Err(failed)
            }
        }
    }

    /// Makes the writes so far last (`smgrimmedsync`).
    pub fn sync(&mut self) -> Result<(), Failed>
        requires untouched { self.old.call ≡ lane_call.Untouched }
        ensures number { self.new.number ≡ self.old.number }
        ensures call { MatchResult result (λ _. self.new.call ≡ lane_call.Synced)
            (λ _. self.new.call ≡ lane_call.SyncFailed) }
        ensures did { LaneDid (lane_devices L.BlockLane) self.old.device self.new.device
            self.new.call }
    {
        match self.device.sync() {
            Ok(()) => {
                self.call = LaneCall::Synced;
                Ok(())
            }
            Err(failed) => {
                self.call = LaneCall::SyncFailed;
                Err(failed)
            }
        }
    }
}
