//! The law of the table, and what each step tells.
ghost use Rattle.chunk_claims.specs.Claims.{ClaimsHold, Draws, Counts, first_claimant};
ghost use Rattle.chunk_claims.specs.Claims.{joined_claimants, less_a_part, spent_claimant};
ghost use Rattle.chunk_claims.specs.Claims.{with_one_part};

use crate::claimant::Claimant;
use crate::claims::Work;
use atomic_table::{Join, Play, Split, TableRule};

/// The numbers that were drawn are those below the word, each once, and each worker drew at most
/// one past the last chunk.
pub(crate) struct ClaimsLaw;

impl TableRule<(), Claimant, Work> for ClaimsLaw {
    ghost holds = { ClaimsHold };

    ghost first = { first_claimant };
}

/// A number is drawn.
pub(crate) struct Draw;

impl Play<(), Claimant> for Draw {
    ghost then = { Draws };
}

/// The word is loaded.
pub(crate) struct Count;

impl Play<(), Claimant> for Count {
    ghost then = { Counts };
}

/// A worker gets a seat.
pub(crate) struct Part;

impl Split<Claimant> for Part {
    ghost left = { less_a_part };

    ghost right = { with_one_part };
}

/// The claims of two seats are one's.
pub(crate) struct Both;

impl Join<Claimant> for Both {
    ghost both = { joined_claimants };

    ghost spent = { spent_claimant };
}
