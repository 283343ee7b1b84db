//! The blocks of a relation that is open are listed by the backends of a buffer manager.
//!
//! A listing has a manager of its own. Its catalogue has one relation: tablespace and database 0,
//! the number in PATH, and blocks in PATH's fork. It has a pass for each backend and one besides,
//! and a log in memory that begins at 0 with room for its head alone.
ghost use Rattle.std.specs.Prelude.{◌≡◌, ◌≤◌, ◌%◌, false, true, List, Ok, Err, IfOk, IfErr, OnOk};
ghost use Rattle.std.specs.Prelude.{All, length, map, sum_by, vec_len};
ghost use Rattle.byte_devices.specs.Bytes.{Puts};
ghost use Rattle.segment_store.specs.Contents.{no_marks};
ghost use Rattle.segment_store.specs.Lanes.{HasBlocks, HoldPages};
ghost use Rattle.pin_core.specs.State.{Page};
ghost use Rattle.command_line.specs.Numbers.{HasOptionsInRange};
ghost use Rattle.io_counts.specs.Sums.{io_shown, sums_of};
ghost use Rattle.table_rule.specs.Shows.{devices};
ghost use Rattle.frame_table.specs.Seats.{base_of, opened_of, relations_of};
ghost use Rattle.backend_pass.specs.Closing.{ClosesAll};
ghost use Rattle.backend_pass.specs.Counts.{io_in_all};
ghost use Rattle.backend_pass.specs.Managers.{AreAll};
ghost use Rattle.page_jobs.specs.Beside.{LastDid, StaysBeside};
ghost use Rattle.page_jobs.specs.Ending.{as_done};
ghost use Rattle.page_jobs.specs.Jobs.{AllAtBase, EndsJob, FoundMoreIn, HaveNoTokens, IsOrigin};
ghost use Rattle.page_jobs.specs.Jobs.{ReadParts, workers_in};
ghost use Rattle.page_jobs.specs.Relations.{IsCatalogOf, MeetNothing};
ghost use Rattle.page_layout.specs.Scan.{totals_of};
ghost use Rattle.history_core.specs.State.{last_position};
ghost use Rattle.relation_commands.specs.Causes.{HasListingCause, listing_end, listing_error};
ghost use Rattle.relation_commands.specs.Causes.{scan_totals_in};
ghost use Rattle.relation_commands.specs.Listings.{LeavesLanes, PutsCounted, counted_text};
ghost use Rattle.relation_commands.specs.Listings.{io_line, text_of};
ghost use Rattle.relation_commands.specs.Rounds.{MakesRounds};
ghost use Rattle.relation_commands.specs.Starting.{IsStarted};

use crate::beside::Rounds;
use crate::starting::{RelationFork, new_log, start};
use backend_pass::{Manager, Pass};
use block_tag::RelNo;
use byte_devices::{LogDevice, MemLog, Sink};
use command_line::{Listing, Options};
use io_counts::IoSums;
use page_jobs::{Gate, JobEnd, JobError, Totals, dump, scan};
use page_layout::{Lsn, ScanTotals};
use segment_store::BlockLane;
use std::alloc::Global;
use std::sync::Wait;
use std::thread::Threads;

/// Why a listing ended before its end.
#[derive(Clone, Copy, PartialEq, Eq, Debug)]
pub enum ListingError {
    ReadFault,
    OutFault,
    Memory,
}

impl ListingError {
    /// What the end of a job means to a listing. A listing writes no page and no log record, so no
    /// fault of theirs can end it.
    fn from_job(error: JobError) -> ListingError
        ensures { result ≡ listing_error error }
    {
        match error {
            JobError::ReadFault { .. } => ListingError::ReadFault,
            JobError::OutFault => ListingError::OutFault,
            JobError::Memory
            | JobError::WriteFault { .. }
            | JobError::LogFault
            | JobError::LogDown { .. }
            | JobError::LogShort { .. }
            | JobError::LogFull { .. } => ListingError::Memory,
        }
    }
}

/// The totals of a scan among those of a job.
fn scan_totals(totals: Totals) -> ScanTotals
    ensures { result ≡ scan_totals_in totals }
{
    ScanTotals {
        blocks: totals.blocks,
        used: totals.used,
        new: totals.new,
        invalid: totals.invalid,
        normal: totals.normal,
        redirect: totals.redirect,
        dead: totals.dead,
        unused: totals.unused,
    }
}

/// The end of a listing, by that of its job.
fn end_of_job(end: Result<Totals, JobError>) -> Result<ScanTotals, ListingError>
    ensures { result ≡ listing_end end }
{
    match end {
        Ok(totals) => Ok(scan_totals(totals)),
        Err(error) => Err(ListingError::from_job(error)),
    }
}

/// A fork of a relation, how it is listed, whether its I/O counts are printed, where the log begins
/// meanwhile, and how many rounds the background writer makes.
#[derive(Clone, Copy)]
pub(crate) struct Listed {
    pub(crate) relation: RelationFork,
    pub(crate) base: Lsn,
    pub(crate) listing: Listing,
    pub(crate) stats: bool,
    pub(crate) rounds: u32,
}

/// How a listing ended, with the lanes that it was given.
#[derive(Drop)]
pub(crate) struct ListingEnd<L> {
    pub(crate) lanes: Vec<L>,
    pub(crate) end: Result<ScanTotals, ListingError>,
}

/// The backends read the blocks, and what is printed of them is put.
fn list_blocks<L: BlockLane + Send, R: Threads + Wait + Sync, O: Sink + Send, T: Gate + Sync>(
    manager: &Manager<L, MemLog>,
    rt: &R,
    alloc: Global,
    passes: Vec<Pass>,
    listed: Listed,
    out: &mut O,
    gate: &T,
) -> JobEnd
    requires catalog { IsCatalogOf listed.relation.fork listed.relation.blocks
        (relations_of manager.now.table) }
    requires several { 2 ≤ vec_len passes }
    requires few { vec_len passes ≤ 64 }
    requires free { HaveNoTokens L.contents manager.now passes.items }
    ensures passes { ReadParts L.contents manager.now 0 listed.relation.fork
        (workers_in passes.items) (workers_in result.passes.items) }
    ensures last { StaysBeside L.contents manager.now passes.items result.passes.items }
    ensures met { OnOk result.end (MeetNothing passes.items result.passes.items) }
    // The passes that work counted each block once, as a hit or as a read.
    ensures found { OnOk result.end (FoundMoreIn listed.relation.blocks
        (workers_in passes.items) (workers_in result.passes.items)) }
    // Beside them the last pass made this many rounds of the background writer.
    ensures beside { OnOk result.end (LastDid
        (λ p q. MakesRounds L.contents manager.now listed.rounds p q (Ok tt))
        passes.items result.passes.items) }
    ensures text { (pages : List Page) → IsOrigin L.contents manager.now 0 listed.relation.fork
        pages → AllAtBase (base_of manager.now.table) (workers_in result.passes.items)
        → Puts (text_of listed.listing pages) (O.bytes out.old) (O.bytes out.new) (as_done result.end) }
    ensures totals { (pages : List Page) → IsOrigin L.contents manager.now 0 listed.relation.fork
        pages → AllAtBase (base_of manager.now.table) (workers_in result.passes.items)
        → IfOk result.end (λ totals. scan_totals_in totals ≡ totals_of pages) }
    ensures quiet { OnOk result.end (O.faults out.new ≡ O.faults out.old) }
    ensures later { O.faults out.old ≤ O.faults out.new }
    ensures cause { IfErr result.end
        (EndsJob L.contents manager.now 0 listed.relation.fork passes.items result.passes.items
        (O.faults out.old) (O.faults out.new)) }
{
    let (rel, fork) = (RelNo(0), listed.relation.fork);
    let mut work = Rounds::new(listed.rounds);
    match listed.listing {
        Listing::Scan => scan(manager, rt, alloc, passes, rel, fork, out, gate, &mut work),
        Listing::Dump => dump(manager, rt, alloc, passes, rel, fork, out, gate, &mut work),
    }
}

/// Puts the line of the I/O counts.
fn put_io_line<O: Sink>(alloc: Global, io: IoSums, out: &mut O) -> Result<(), ListingError>
    ensures text { Puts (io_line io) (O.bytes out.old) (O.bytes out.new) result }
    ensures cause { HasListingCause 0 0 (O.faults out.old) (O.faults out.new) result }
{
    let IoSums {
        hits,
        reads,
        writes,
        evictions,
        reuses,
    } = io;
    let Ok(line) = format!(in alloc;
        "io hits {hits} reads {reads} writes {writes} evictions {evictions} reuses {reuses}\n"
    ) else {
        return Err(ListingError::Memory);
    };
    match out.put(line.as_bytes()) {
        Ok(()) => Ok(()),
        Err(_) => Err(ListingError::OutFault),
    }
}

/// The end of a listing. If it ended well, and its I/O counts are to be printed, their line is put.
fn end_with_io<O: Sink>(
    alloc: Global,
    end: Result<ScanTotals, ListingError>,
    stats: bool,
    io: IoSums,
    out: &mut O,
) -> Result<ScanTotals, ListingError>
    ensures silent { stats ≡ false → (result ≡ end) × (out.new ≡ out.old) }
    ensures stopped { IfErr end (λ e. (result ≡ Err e) × (out.new ≡ out.old)) }
    ensures line { stats ≡ true → OnOk end
        (Puts (io_line io) (O.bytes out.old) (O.bytes out.new) (as_done result)) }
    ensures totals { IfOk result (λ totals. end ≡ Ok totals) }
    ensures cause { OnOk end (HasListingCause 0 0 (O.faults out.old) (O.faults out.new) result) }
{
    let totals = match end {
        Ok(totals) => totals,
        Err(error) => return Err(error),
    };
    if !stats {
        return Ok(totals);
    }
    match put_io_line(alloc, io, out) {
        Ok(()) => Ok(totals),
        Err(error) => Err(error),
    }
}

/// Closes the manager and ends the listing, with the line of its I/O counts if they are asked for.
fn close_and_end<L: BlockLane, O: Sink>(
    manager: Manager<L, MemLog>,
    alloc: Global,
    passes: Vec<Pass>,
    end: Result<ScanTotals, ListingError>,
    stats: bool,
    out: &mut O,
) -> (Vec<L>, MemLog, Result<ScanTotals, ListingError>)
    requires all { AreAll manager passes.items }
    requires few { vec_len passes ≤ 64 }
    ensures closes { ClosesAll (devices L.BlockLane ⟦<MemLog as LogDevice>⟧)
        manager.table.table.shared.key passes.items result.0.items result.1 }
    ensures silent { stats ≡ false → (result.2 ≡ end) × (out.new ≡ out.old) }
    ensures stopped { IfErr end (λ e. (result.2 ≡ Err e) × (out.new ≡ out.old)) }
    // The line has the sums of what these passes counted.
    ensures line { stats ≡ true → OnOk end
        (Puts (io_line (sums_of (io_shown (io_in_all passes.items)))) (O.bytes out.old)
        (O.bytes out.new) (as_done result.2)) }
    ensures totals { IfOk result.2 (λ totals. end ≡ Ok totals) }
    ensures cause { OnOk end (HasListingCause 0 0 (O.faults out.old) (O.faults out.new) result.2) }
{
    let (lanes, log, io) = manager.close_counted(passes);
    let sums = io.sums();
    let end = end_with_io(alloc, end, stats, sums, out);
    (lanes, log, end)
}

/// The backends list the blocks, and the manager is closed, which returns its lanes.
fn list_and_close<L: BlockLane + Send, R: Threads + Wait + Sync, O: Sink + Send, T: Gate + Sync>(
    manager: Manager<L, MemLog>,
    rt: &R,
    alloc: Global,
    passes: Vec<Pass>,
    listed: Listed,
    out: &mut O,
    gate: &T,
) -> ListingEnd<L>
    requires started { IsStarted L.contents listed.relation listed.base manager passes.items }
    requires reads { sum_by L.read_faults (opened_of manager.table) ≡ 0 }
    requires writes { sum_by L.write_faults (opened_of manager.table) ≡ 0 }
    ensures count { length result.lanes.items ≡ length (opened_of manager.table) }
    ensures leaves { LeavesLanes L.contents L.failed_writes L.write_faults listed.relation.fork
        listed.relation.blocks (opened_of manager.table) result.lanes.items }
    ensures cause { HasListingCause 0 (sum_by L.read_faults result.lanes.items) (O.faults out.old)
        (O.faults out.new) result.end }
    ensures text { listed.stats ≡ false → (pages : List Page) → HoldPages listed.relation.fork
        pages (map L.contents (opened_of manager.table)) → listed.relation.blocks ≡ length pages
        → Puts (text_of listed.listing pages) (O.bytes out.old) (O.bytes out.new) (as_done result.end) }
    ensures counted { listed.stats ≡ true → (pages : List Page) → HoldPages listed.relation.fork
        pages (map L.contents (opened_of manager.table)) → listed.relation.blocks ≡ length pages
        → PutsCounted (counted_text listed.listing pages) (O.bytes out.old) (O.bytes out.new)
        (as_done result.end) }
    ensures totals { (pages : List Page) → HoldPages listed.relation.fork pages
        (map L.contents (opened_of manager.table)) → listed.relation.blocks ≡ length pages
        → IfOk result.end (λ totals. totals ≡ totals_of pages) }
{
    let JobEnd { passes, end } = list_blocks(&manager, rt, alloc, passes, listed, out, gate);
    let end = end_of_job(end);
    let (lanes, _log, end) = close_and_end(manager, alloc, passes, end, listed.stats, out);
    ListingEnd { lanes, end }
}

/// Lists the blocks of a relation from its lanes, by as many backends as the options say, and
/// returns the lanes.
pub(crate) fn list<L: BlockLane + Send, R: Threads + Wait + Sync, O: Sink + Send, T: Gate + Sync>(
    rt: &R,
    alloc: Global,
    options: &Options,
    listed: Listed,
    lanes: Vec<L>,
    out: &mut O,
    gate: &T,
) -> ListingEnd<L>
    requires range { HasOptionsInRange options.now }
    requires count { length lanes.items ≡ options.now.lanes }
    requires reads { sum_by L.read_faults lanes.items ≡ 0 }
    requires writes { sum_by L.write_faults lanes.items ≡ 0 }
    requires unmarked { All (λ lane. L.failed_writes lane ≡ no_marks) lanes.items }
    requires has { HasBlocks listed.relation.fork listed.relation.blocks
        (map L.contents lanes.items) }
    requires base { (listed.base % 8 ≡ 0) × (listed.base ≤ last_position) }
    ensures count { length result.lanes.items ≡ length lanes.items }
    ensures leaves { LeavesLanes L.contents L.failed_writes L.write_faults listed.relation.fork
        listed.relation.blocks lanes.items result.lanes.items }
    ensures cause { HasListingCause 0 (sum_by L.read_faults result.lanes.items) (O.faults out.old)
        (O.faults out.new) result.end }
    ensures text { listed.stats ≡ false → (pages : List Page) → HoldPages listed.relation.fork
        pages (map L.contents lanes.items) → listed.relation.blocks ≡ length pages
        → Puts (text_of listed.listing pages) (O.bytes out.old) (O.bytes out.new) (as_done result.end) }
    ensures counted { listed.stats ≡ true → (pages : List Page) → HoldPages listed.relation.fork
        pages (map L.contents lanes.items) → listed.relation.blocks ≡ length pages
        → PutsCounted (counted_text listed.listing pages) (O.bytes out.old) (O.bytes out.new)
        (as_done result.end) }
    ensures totals { (pages : List Page) → HoldPages listed.relation.fork pages
        (map L.contents lanes.items) → listed.relation.blocks ≡ length pages
        → IfOk result.end (λ totals. totals ≡ totals_of pages) }
{
    // A listing appends no record.
    let Ok(log) = new_log(alloc, listed.base, 0) else {
        return ListingEnd {
            lanes,
            end: Err(ListingError::Memory),
        };
    };
    match start(alloc, options, listed.relation, lanes, log, listed.base) {
        Ok((manager, passes)) => list_and_close(manager, rt, alloc, passes, listed, out, gate),
        Err((lanes, _log)) => ListingEnd {
            lanes,
            end: Err(ListingError::Memory),
        },
    }
}
