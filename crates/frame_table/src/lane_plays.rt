//! What the steps of a lane that goes out, or of a value that comes back, tell their seat.
ghost use Rattle.std.specs.Prelude.{ℕ, List, [], Option, None};
ghost use Rattle.block_tag.specs.declared.catalogue.RelEntry.{RelEntry};
ghost use Rattle.segment_store.specs.Contents.{Pages};
ghost use Rattle.pin_core.specs.declared.view.View.{View};
ghost use Rattle.history_core.specs.Steps.{Event};
ghost use Rattle.table_rule.specs.LaneCalls.{lane_devices};
ghost use Rattle.frame_table.specs.LaneWork.{came_by, lane_went};

use atomic_table::Play;
use pin_core::View;
use segment_store::BlockLane;
use std::marker::{Brand, PhantomData};
use table_rule::Value;

/// Which lane a step is at, of how many, the relations, how many frames there are, what the lane
/// held at the start, if that was known, and its slot. Each call picks it.
pub(crate) trait AtLane {
    ghost opened: { Option Pages };

    ghost relations: { List RelEntry };

    ghost lanes: { ℕ };

    ghost frames: { ℕ };

    ghost lane: { ℕ };

    ghost slot: { ℕ };
}

impl AtLane for Brand {
    ghost opened = { None };

    ghost relations = { [] };

    ghost lanes = { 0 };

    ghost frames = { 0 };

    ghost lane = { 0 };

    ghost slot = { 0 };
}

pub(crate) struct LaneOut<D> {
    lane: PhantomData<D>,
}

impl<L: BlockLane, G, D: AtLane> Play<Value<L, G>, View> for LaneOut<D> {
    ghost then = { lane_went (lane_devices L.BlockLane) D.opened D.relations D.lanes D.frames
        D.lane D.slot };
}

/// By which steps a value comes back, and what they make of the view. Each call picks it.
pub(crate) trait Returns {
    ghost events: { ℕ → List Event };

    ghost after: { View → View };
}

impl Returns for Brand {
    ghost events = { λ i. [] };

    ghost after = { λ v. v };
}

pub(crate) struct Back<D> {
    steps: PhantomData<D>,
}

impl<L, G, D: Returns> Play<Value<L, G>, View> for Back<D> {
    ghost then = { came_by D.events D.after };
}
