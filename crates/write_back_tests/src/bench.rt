//! A small manager over devices that tell of their calls.
ghost use Rattle.std.specs.Prelude.{IfOk};
ghost use Rattle.manager_bench.specs.Bench.{IsFreeIn};

use crate::devices::{ByteLog, PageLane};
use manager_bench::bench::{Bench, catalog, start_over};
use std::alloc::{AllocError, Global};

/// How many blocks the relation has.
pub const BLOCKS: u32 = 160;

/// A manager of so many frames over these devices, and its three passes.
pub fn start(
    alloc: Global,
    frames: u32,
    lanes: Vec<PageLane>,
    log: ByteLog,
) -> Result<Bench<PageLane, ByteLog>, AllocError>
    ensures first { IfOk result (λ b. IsFreeIn b.manager 0 b.first) }
    ensures second { IfOk result (λ b. IsFreeIn b.manager 1 b.second) }
    ensures third { IfOk result (λ b. IsFreeIn b.manager 2 b.third) }
{
    let Ok(catalog) = catalog(alloc, BLOCKS) else {
        return Err(AllocError);
    };
    start_over(alloc, frames, catalog, lanes, log, 0)
}
