//! A small manager.
ghost use Rattle.std.specs.Prelude.{◌≡◌, ◌≤◌, ◌%◌, [], IfOk, vec_capacity};
ghost use Rattle.history_core.specs.State.{last_position};
ghost use Rattle.table_rule.specs.Shows.{AreLanes, IsNewLog, devices};
ghost use Rattle.manager_bench.specs.Bench.{IsFree, IsFreeIn};

use backend_pass::{Config, Manager, Pass, StartRefused};
use block_tag::{Catalog, CatalogError, Fork, RelEntry, RelNo, Tag};
use byte_devices::LogDevice;
use io_counts::IoCounts;
use segment_store::BlockLane;
use std::alloc::{AllocError, Global};
use test_devices::{TestLane, TestLog};

/// A manager and its three passes.
pub struct Bench<L: BlockLane, G: LogDevice> {
    pub manager: Manager<L, G>,
    pub first: Pass,
    pub second: Pass,
    pub third: Pass,
    /// Empty, with room for the three passes.
    pub passes: Vec<Pass>,
    ghost room: { (passes.items ≡ []) × (3 ≤ vec_capacity passes) },
}

/// One relation of so many blocks.
pub fn catalog(alloc: Global, blocks: u32) -> Result<Catalog, CatalogError> {
    let entry = RelEntry {
        tablespace: 0,
        database: 0,
        relation: 16384,
        blocks: [blocks, 0, 0, 0],
    };
    Catalog::build(alloc, &[entry])
}

/// The tag of a block of its main fork.
pub fn block(number: u32) -> Tag {
    Tag {
        rel: RelNo(0),
        fork: Fork::Main,
        block: number,
    }
}

/// A manager of so many frames over these devices. A start that is refused is an `AllocError`, too.
pub fn start_over<L: BlockLane + Drop, G: LogDevice + Drop>(
    alloc: Global,
    frames: u32,
    catalog: Catalog,
    lanes: Vec<L>,
    log: G,
    base: u64,
) -> Result<Bench<L, G>, AllocError>
    requires base { (base % 8 ≡ 0) × (base ≤ last_position) }
    requires devices { AreLanes (devices L.BlockLane G.LogDevice) catalog lanes.items }
    requires log { IsNewLog (devices L.BlockLane G.LogDevice) base log }
    ensures first { IfOk result (λ b. IsFree L.contents b.manager 0 b.first) }
    ensures second { IfOk result (λ b. IsFree L.contents b.manager 1 b.second) }
    ensures third { IfOk result (λ b. IsFree L.contents b.manager 2 b.third) }
{
    let Ok(count) = u32::try_from(lanes.len()) else {
        return Err(AllocError);
    };
    let room = Vec::with_capacity(alloc, 3)?;
    let config = Config {
        frames,
        passes: 3,
        lanes: count,
    };
    match Manager::start(alloc, config, catalog, lanes, log, base) {
        Ok((manager, mut passes)) => {
            let third = passes.take_last();
            let second = passes.take_last();
            let first = passes.take_last();
            passes.destroy_empty();
            Ok(Bench {
                manager,
                first,
                second,
                third,
                passes: room,
            })
        }
        Err(StartRefused { why: _, lanes, log }) => {
            drop(lanes);
            drop(log);
            room.destroy_empty();
            Err(AllocError)
        }
    }
}

/// A manager of 16 frames over one lane, of one relation of so many blocks.
pub fn start(
    alloc: Global,
    blocks: u32,
    lane: TestLane,
    log: TestLog,
    base: u64,
) -> Result<Bench<TestLane, TestLog>, AllocError>
    requires base { (base % 8 ≡ 0) × (base ≤ last_position) }
    ensures first { IfOk result (λ b. IsFreeIn b.manager 0 b.first) }
    ensures second { IfOk result (λ b. IsFreeIn b.manager 1 b.second) }
    ensures third { IfOk result (λ b. IsFreeIn b.manager 2 b.third) }
{
    let Ok(catalog) = catalog(alloc, blocks) else {
        return Err(AllocError);
    };
    let mut lanes = Vec::new(alloc);
    lanes.push(lane)?;
    start_over(alloc, 16, catalog, lanes, log, base)
}

/// The manager is closed, with the sums of what its passes counted. `passes` is empty, with room
/// for its three.
pub fn close_counted<L: BlockLane, G: LogDevice>(
    manager: Manager<L, G>,
    first: Pass,
    second: Pass,
    third: Pass,
    mut passes: Vec<Pass>,
) -> (Vec<L>, G, IoCounts)
    requires first { IsFree L.contents manager 0 first }
    requires second { IsFree L.contents manager 1 second }
    requires third { IsFree L.contents manager 2 third }
    requires room { (passes.items ≡ []) × (3 ≤ vec_capacity passes) }
{
    passes.push_reserved(third);
    passes.push_reserved(first);
    passes.push_reserved(second);
    manager.close_counted(passes)
}

/// The manager is closed.
pub fn close<L: BlockLane, G: LogDevice>(
    manager: Manager<L, G>,
    first: Pass,
    second: Pass,
    third: Pass,
    passes: Vec<Pass>,
) -> (Vec<L>, G)
    requires first { IsFree L.contents manager 0 first }
    requires second { IsFree L.contents manager 1 second }
    requires third { IsFree L.contents manager 2 third }
    requires room { (passes.items ≡ []) × (3 ≤ vec_capacity passes) }
{
    let (lanes, log, _io) = close_counted(manager, first, second, third, passes);
    (lanes, log)
}
