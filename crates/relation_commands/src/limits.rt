//! The log positions of a rewrite: where its log begins, and the last one.
ghost use Rattle.std.specs.Prelude.{◌≡◌, ◌≤◌, ◌*◌, ◌+◌, IfErr, IfOk, Some};
ghost use Rattle.history_core.specs.Log.{record_size};
ghost use Rattle.history_core.specs.State.{last_position};
ghost use Rattle.relation_commands.specs.Limits.{PassesLimit, rounded_up};
ghost use Rattle.relation_commands.specs.Status.{position_limit_text};

use page_layout::{Lsn, Position};
use std::fmt;
use table_rule::RECORD_SIZE;
use wal_flush::LAST_POSITION;

/// What would take the log past its last position.
#[derive(Clone, Copy, PartialEq, Eq, Debug)]
pub enum PositionLimit {
    /// A record of each of these blocks, changed or not, in a log that begins past the largest
    /// position of their pages. So if the pages are known, the log doesn't become full on the way.
    OfPages { largest: Lsn, blocks: u32 },
    /// A page whose position is past the log's end.
    OfPage { lsn: Lsn, end: Lsn },
    /// A record more in a log that ends here.
    OfLog { end: Lsn },
}

impl fmt::Display for PositionLimit {
    ghost output = { λ l. Some (position_limit_text l) };

    fn fmt<W: fmt::Write>(&self, f: &mut fmt::Formatter<W>) -> fmt::Result {
        match *self {
            PositionLimit::OfPages { largest, blocks } => {
                let largest = Position(largest);
                write!(f, "page {largest}, blocks {blocks}")
            }
            PositionLimit::OfPage { lsn, end } => {
                let lsn = Position(lsn);
                let end = Position(end);
                write!(f, "page {lsn}, end {end}")
            }
            PositionLimit::OfLog { end } => {
                let end = Position(end);
                write!(f, "end {end}")
            }
        }
    }
}

/// Where the log of a rewrite begins, by the largest position of the pages and the number of
/// blocks: at that position, rounded up to a multiple of 8. It is refused if a record of each block
/// could pass the last position.
pub(crate) fn log_base(largest: Lsn, blocks: u32) -> Result<Lsn, PositionLimit>
    ensures base { IfOk result
        (λ base. (base ≡ rounded_up largest) × (base + record_size * blocks ≤ last_position)) }
    ensures over { IfErr result
        (λ limit. (limit ≡ PositionLimit.OfPages largest blocks) × PassesLimit largest blocks) }
{
    let over = PositionLimit::OfPages { largest, blocks };
    // Tested before it is rounded up, which a position near 2^64 couldn't be.
    if largest > LAST_POSITION {
        return Err(over);
    }
    let base = (largest + 7) / 8 * 8;
    if base + RECORD_SIZE * Lsn::from(blocks) > LAST_POSITION {
        return Err(over);
    }
    Ok(base)
}
