//! What a backend counts.

use crate::contexts::{ByContext, IoEvent};
use access_rings::RingKind;
use std::marker::Model;

/// The counts of one backend, and what it has published of them.
#[derive(Debug, Drop)]
pub struct Tally {
    pub(crate) counted: ByContext,
    pub(crate) published: ByContext,
}

impl Model for Tally {
    ghost use Rattle.io_counts.specs.Tallies.{IsTally, TallyState, tally_state};

    ghost Value = { TallyState };

    ghost view = { λ t. tally_state t.counted t.published };

    ghost invariant = { λ t. IsTally (tally_state t.counted t.published) };
}

impl Tally {
    ghost use Rattle.std.specs.Prelude.{◌≡◌};
    ghost use Rattle.io_counts.specs.Counts.{io_with, one_of};
    ghost use Rattle.io_counts.specs.Tallies.{IsTally, new_tally};

    /// The tally of a backend that has counted nothing.
    pub fn new() -> Tally
        ensures { result ≡ new_tally }
    {
        Tally {
            counted: ByContext::none(),
            published: ByContext::none(),
        }
    }

    /// What was counted.
    pub fn counted(&self) -> ByContext
        ensures counted { result ≡ self.now.counted }
        ensures tally { IsTally self.now }
    {
        self.counted
    }

    /// Counts an event in the context of a ring of this kind, or of none.
    #[inline(always)]
    pub fn count(&mut self, context: Option<RingKind>, event: IoEvent)
        ensures { self.new
            ≡ record self.old { counted = io_with context (one_of event) self.old.counted } }
    {
        self.counted.count(context, event);
    }
}
