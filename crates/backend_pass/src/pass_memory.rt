//! The memory of a pass, which is taken before a table is opened.
ghost use Rattle.std.specs.Prelude.{◌≡◌, ◌≤◌, [], IfOk, vec_capacity};
ghost use Rattle.clock_sweep.specs.CensusList.{new_census};

use crate::marked::MarkedFrame;
use buffer_frames::HeldPins;
use clock_sweep::Census;
use page_layout::Page;
use std::alloc::{AllocError, Global};

/// What a pass needs beside its seat.
pub(crate) struct PassMemory {
    pub(crate) held: HeldPins,
    pub(crate) census: Census,
    pub(crate) marked: Vec<MarkedFrame>,
    pub(crate) page: Page,
    ghost empty: { held ≡ [] },
    ghost no_frame_marked: { marked.items ≡ [] },
    ghost room: { census.frames ≤ vec_capacity marked },
}

impl PassMemory {
    /// For a pool of this many frames.
    pub(crate) fn take(alloc: Global, frames: u32) -> Result<PassMemory, AllocError>
        ensures { IfOk result (λ memory. memory.census ≡ new_census frames) }
    {
        let census = Census::build(alloc, frames)?;
        let marked = Vec::with_capacity(alloc, frames as usize)?;
        let page = Page::zeroed(alloc)?;
        let held = HeldPins::build(alloc)?;
        Ok(PassMemory {
            held,
            census,
            marked,
            page,
        })
    }

    pub(crate) fn spend(self) {
        let PassMemory {
            held,
            census: _,
            marked: _,
            page: _,
        } = self;
        held.spend();
    }
}
