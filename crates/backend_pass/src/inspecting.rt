//! A pass looks at a frame.
use crate::manager::Manager;
use crate::pass::Pass;
use crate::seats::{return_seat, take_seat};
use buffer_frames::{Seen, inspect};
use byte_devices::LogDevice;
use segment_store::BlockLane;
use std::sync::Wait;

impl Pass {
    ghost use Rattle.std.specs.Prelude.{◌≡◌, ◌<◌, true, IfSome, is_some};
    ghost use Rattle.state_word.specs.Fields.{fields};
    ghost use Rattle.block_tag.specs.Names.{names_block};
    ghost use Rattle.pin_core.specs.State.{link};
    ghost use Rattle.table_rule.specs.Blocks.{has_block};
    ghost use Rattle.frame_table.specs.Seats.{IsWordOf, Touches, frames_of, relations_of};
    ghost use Rattle.buffer_frames.specs.Inspections.{Inspects};
    ghost use Rattle.backend_pass.specs.Managers.{Belongs};
    ghost use Rattle.backend_pass.specs.Passes.{KeepsCallers, KeepsDevices, KeepsMark, SamePass};

    /// Looks at a frame's state word and at the tag of its block, under its header, as
    /// `pg_buffercache_pages` does. It waits while another backend holds the header, and takes no
    /// memory.
    pub fn inspect<L: BlockLane, G: LogDevice, R: Wait>(
        &mut self,
        manager: &Manager<L, G>,
        rt: &R,
        frame: u32,
    ) -> Seen
        requires belongs { Belongs L.contents manager.now self.old }
        requires inside { frame < frames_of manager.now.table }
        ensures belongs { Belongs L.contents manager.now self.new }
        ensures same { SamePass self.old self.new }
        ensures callers { KeepsCallers self.old self.new }
        ensures marked { self.new.marked ≡ self.old.marked }
        ensures mark { KeepsMark self.old self.new }
        ensures devices { KeepsDevices self.old self.new }
        ensures touches { Touches frame self.old.view self.new.view }

        // Word and tag are those that the frame had while the header was held.
        ensures inspects { Inspects frame result self.old.view self.new.view }
        ensures word { IsWordOf (link self.old.view frame) (fields result.word) }
        ensures locked { (fields result.word).locked ≡ true }

        // There is a tag exactly if the word has BM_TAG_VALID: that of a block of the relations.
        ensures tag { is_some result.tag ≡ (fields result.word).tag_valid }
        ensures named { IfSome result.tag (λ tag. names_block tag ≡ true) }
        ensures listed { IfSome result.tag
            (λ tag. has_block (relations_of manager.now.table) tag ≡ true) }
    {
        let mut seat = take_seat::<L, G>(&mut self.seat);
        let seen = inspect(&manager.table, rt, &mut seat, &self.held, frame);
        return_seat(&mut self.seat, seat);
        seen
    }
}
