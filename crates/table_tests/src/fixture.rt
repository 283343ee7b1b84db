//! A small table.
ghost use Rattle.std.specs.Prelude.{◌≡◌, ◌<◌, IfOk};
ghost use Rattle.frame_table.specs.Closes.{CanClose};
ghost use Rattle.frame_table.specs.Seats.{frames_of};
ghost use Rattle.table_tests.specs.Work.{backends_of};

use atomic_table::Seat;
use block_tag::{Catalog, CatalogError, RelEntry};
use frame_table::{BuildRefused, Config, FrameTable, Value};
use pin_core::View;
use std::alloc::{AllocError, Global};
use test_devices::{TestLane, TestLog};

pub type Table = FrameTable<TestLane, TestLog>;

pub type TableSeat = Seat<Value<TestLane, TestLog>, View>;

/// One relation of 64 blocks.
fn catalog(alloc: Global) -> Result<Catalog, CatalogError> {
    let entry = RelEntry {
        tablespace: 0,
        database: 0,
        relation: 16384,
        blocks: [64, 0, 0, 0],
    };
    Catalog::build(alloc, &[entry])
}

/// A table of 16 frames over one lane and a log that begins at 8, for four backends, whose first
/// one holds nothing.
pub fn table(alloc: Global) -> Result<(Table, TableSeat), AllocError>
    ensures frames { IfOk result (λ t. frames_of t.0 ≡ 16) }
    ensures backends { IfOk result (λ t. backends_of t.0 ≡ 4) }
    ensures closes { IfOk result (λ t. CanClose t.0 t.1) }
    ensures alone { IfOk result (λ t. t.1.me.0.next ≡ 1) }
{
    let Ok(catalog) = catalog(alloc) else {
        return Err(AllocError);
    };
    let config = Config {
        frames: 16,
        passes: 4,
        lanes: 1,
    };
    let mut lanes = Vec::new(alloc);
    lanes.push(TestLane::new(0))?;
    match FrameTable::build(alloc, config, catalog, lanes, TestLog::new(alloc, 0), 8) {
        Ok(built) => Ok(built),
        Err(BuildRefused { lanes, log }) => {
            drop(lanes);
            drop(log);
            Err(AllocError)
        }
    }
}
