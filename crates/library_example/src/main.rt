//! A small engine over the buffer manager, in memory. Three backends change the pages of two
//! relations, a checkpoint writes them, and the log redoes them on the old files. Then one backend
//! changes pages without the others and without a checkpoint, and its log redoes them on the lanes
//! that the manager gives back.
#![tactic(auto)]

ghost use Rattle.std.specs.Prelude.{◌<◌, IfOk, map, vec_len};
ghost use Rattle.segment_store.specs.Lanes.{HoldTheirs};
ghost use Rattle.table_rule.specs.Shows.{AreLanes, devices};

mod backends;
mod counters;
mod files;

use crate::backends::{BACKENDS, work_alone_and_close, work_and_close};
use crate::counters::{Counter, counter_of};
use crate::files::{LANES, block, catalog, old_lanes, page_in};
use backend_pass::{Config, Manager, StartRefused};
use block_tag::{Catalog, Fork, RelNo};
use byte_devices::{FaultPlan, LogDevice, LogPlan, MemLog, MemSource};
use log_recovery::{Redone, recover};
use page_layout::{Lsn, Page};
use segment_store::{BlockLane, MemLane};
use std::alloc::Global;
use std::sync::Wait;
use std::thread::Threads;
use wal_flush::begin_log;

/// Where the log begins, and for how many bytes it has room.
const BASE: Lsn = 4096;

const ROOM: usize = 1_000_000;

/// Starts a manager over these lanes and a new log, and lets three backends work, or the first one
/// without the others. The lanes and the log afterwards: the log can be redone on the lanes, as on
/// these before.
fn run<R: Threads + Wait + Sync>(
    rt: &R,
    alloc: Global,
    catalog: Catalog,
    lanes: Vec<MemLane>,
    alone: bool,
) -> anyhow::Result<(Vec<MemLane>, MemLog)>
    requires complete { AreLanes (devices ⟦<MemLane as BlockLane>⟧ ⟦<MemLog as LogDevice>⟧)
        catalog lanes.items }
    requires placed { HoldTheirs (map ⟦<MemLane as BlockLane>⟧.contents lanes.items) }
    ensures some { IfOk result (λ given. 0 < vec_len given.0) }
    ensures placed { IfOk result (λ given.
        HoldTheirs (map ⟦<MemLane as BlockLane>⟧.contents given.0.items)) }
{
    let mut log = MemLog::new(alloc, ROOM, LogPlan::none(alloc))?;
    begin_log(&mut log, BASE)?;
    let config = Config {
        frames: 16,
        passes: BACKENDS,
        lanes: LANES,
    };
    match Manager::start(alloc, config, catalog, lanes, log, BASE) {
        Ok((manager, passes)) if alone => {
            let given = work_alone_and_close(manager, rt, alloc, passes)?;
            Ok(given)
        }
        Ok((manager, passes)) => work_and_close(manager, rt, alloc, passes),
        Err(StartRefused { why, lanes, log }) => {
            drop(lanes);
            drop(log);
            Err(why.into())
        }
    }
}

/// Redoes a log on lanes.
fn redo(
    alloc: Global,
    catalog: &Catalog,
    log: &MemLog,
    lanes: &mut Vec<MemLane>,
) -> anyhow::Result<Redone>
    requires some { 0 < vec_len lanes.old }
    requires placed { HoldTheirs (map ⟦<MemLane as BlockLane>⟧.contents lanes.old.items) }
{
    let none = FaultPlan::new(Vec::new(alloc));
    let mut source = MemSource::new(log.bytes().to_vec(alloc)?, usize::MAX, none);
    let mut page = Page::zeroed(alloc)?;
    let redone = recover(alloc, lanes.as_mut_slice(), catalog, &mut source, &mut page)?;
    Ok(redone)
}

/// Prints the counter of each block of a relation, and counts the blocks whose page is the same in
/// both.
fn compare(
    rt: &impl Print,
    catalog: &Catalog,
    rel: RelNo,
    closed: &[MemLane],
    redone: &[MemLane],
) -> anyhow::Result<u32> {
    let mut same: u32 = 0;
    for number in 0..catalog.blocks(rel, Fork::Main) {
        let tag = block(rel, number);
        let (Some(page), Some(other)) = (page_in(closed, &tag), page_in(redone, &tag)) else {
            continue;
        };
        let Counter { count, pointers } = counter_of(page);
        println!(rt;
            "relation {} block {number} count {count} pointers {pointers}",
            rel.0
        )?;
        if page.bytes() == other.bytes() {
            same = same.saturating_add(1);
        }
    }
    Ok(same)
}

fn main(rt: HostRuntime) -> anyhow::Result<()> {
    let alloc = rt.alloc();
    let relations = catalog(alloc)?;
    let lanes = old_lanes(alloc, &relations)?;
    let mut redone_lanes = old_lanes(alloc, &relations)?;
    let (lanes, log) = run(&rt, alloc, catalog(alloc)?, lanes, false)?;
    println!(rt; "the log has {} bytes", log.bytes().len())?;
    let redone = redo(alloc, &relations, &log, &mut redone_lanes)?;
    println!(rt;
        "redo wrote {} entries to {} blocks",
        redone.entries, redone.blocks
    )?;
    for rel in [RelNo(0), RelNo(1)] {
        let same = compare(&rt, &relations, rel, &lanes, &redone_lanes)?;
        println!(rt;
            "relation {} has {same} pages that are the same after redo",
            rel.0
        )?;
    }
    let lanes = old_lanes(alloc, &relations)?;
    let (mut lanes, log) = run(&rt, alloc, catalog(alloc)?, lanes, true)?;
    println!(rt;
        "after one backend alone the log has {} bytes",
        log.bytes().len()
    )?;
    let redone = redo(alloc, &relations, &log, &mut lanes)?;
    println!(rt;
        "redo on the lanes given back wrote {} entries to {} blocks",
        redone.entries, redone.blocks
    )?;
    Ok(())
}
