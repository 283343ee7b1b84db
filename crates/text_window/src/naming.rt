//! What contracts say of a window's job.
ghost use Rattle.std.specs.Prelude.{ℕ, List, None};
ghost use Rattle.text_window.specs.Texts.{Job};

use std::marker::Brand;
use std::sync::ledger::Ledger;

/// A job, and the texts that its chunks may have. The function that runs the job picks them.
pub trait Naming: Ledger {
    // This may be the text of the chunk, if nothing of it was read past this place.
    ghost texts: { ℕ → ℕ → List ℕ → Type 0 };

    ghost job: { Job };
}

impl Naming for Brand {
    ghost texts = { λ place chunk text. Unit {0} };

    ghost job = { record { chunks = 0; width = 0; base = 0; before = None; faults = 0 } };
}
