//! Pages of 8192 bytes, as PostgreSQL's "Database Page Layout" has them.
//!
//! A [`Page`] has [`Header`] and [`Item`]s; `is_sound` tests what `PageIsVerifiedExtended` does,
//! but for the checksum. [`rewritten`] takes the dead line pointers out, as a vacuum does
//! (`lazy_vacuum_heap_page`). [`append_line`] and [`dump_lines`] are the text that a scan and a
//! dump print of a page.
#![tactic(auto)]

mod dump;
mod hex;
mod laws;
mod line;
mod outcomes;
mod page;
mod rewrite;
mod scan;
mod summary;
mod text;

pub use dump::dump_lines;
pub use laws::{all_positions, all_sums};
pub use outcomes::{PageRewrite, RewriteTotals};
pub use page::{Header, Item, Lsn, Memory, PAGE_SIZE, Page};
pub use rewrite::{Rewrite, rewritten};
pub use scan::ScanTotals;
pub use summary::{PageSummary, PointerCounts, UsedPage};
pub use text::{Position, append_line, scan_line};
