//! What workers count.
//!
//! Behind the lock nothing is known of passes, or of who claimed a chunk; so numbers go out of the
//! lock by two ledgers, of which each worker has a share. With all shares back: if as many texts
//! were delivered as there are chunks, all of them are out; and if none was read past the base, and
//! that is where the log begins, each is the text of the pages at the opening.
ghost use Rattle.std.specs.Prelude.{ℕ, ◌+◌};

use std::sync::ledger::{Ledger, Share};

/// A worker's shares of two ledgers: `delivered` counts the texts that were delivered, and `above`
/// those of them that were read past the log's base.
#[derive(Drop)]
pub struct Shares<N: Ledger, A: Ledger> {
    pub delivered: Share<N>,
    pub above: Share<A>,
}

impl<N: Ledger, A: Ledger> Shares<N, A> {
    ghost use Rattle.text_window.specs.Shares.{HoldsParts, IsMerged};

    /// Splits off one part of each ledger, for a worker that begins.
    pub fn split(&mut self) -> Shares<N, A>
        requires { (n : ℕ) × HoldsParts (n + 1) self.old }
        ensures split { HoldsParts 1 result }
        ensures left { (n : ℕ) → HoldsParts (n + 1) self.old → HoldsParts n self.new }
    {
        Shares {
            delivered: self.delivered.split_off(1, 0),
            above: self.above.split_off(1, 0),
        }
    }

    /// Takes in the parts of a worker that has ended, and what it counted.
    pub fn merge(&mut self, other: Shares<N, A>)
        ensures { IsMerged self.old other self.new }
    {
        let Shares { delivered, above } = other;
        self.delivered.merge(delivered);
        self.above.merge(above);
    }
}
