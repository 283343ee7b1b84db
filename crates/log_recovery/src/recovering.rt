//! The recovery of lanes by a log.
//!
//! Recovery allocates a set of blocks and nothing else, to tell how many different blocks it wrote.
//! A block enters the set before its write, so out of memory leaves the redo of the records before.
//! All records are read into one buffer.
ghost use Rattle.std.specs.Prelude.{◌≡◌, ◌≢◌, ◌<◌, ◌≤◌, ◌⊎◌, All, IfErr, IfOk, IfSome, IsErrOf};
ghost use Rattle.std.specs.Prelude.{OnErr, OnOk, length, map};
ghost use Rattle.byte_devices.specs.Faults.{Rose};
ghost use Rattle.segment_store.specs.Contents.{no_marks};
ghost use Rattle.segment_store.specs.Lanes.{HoldTheirs};
ghost use Rattle.log_recovery.specs.Records.{HasBadHead};
ghost use Rattle.log_recovery.specs.Redo.{AnyRose, IsRecovered, LeavesPart, LeavesUnsynced};
ghost use Rattle.log_recovery.specs.Redo.{MarksNone, MarksOnly, NoneFell};
ghost use Rattle.log_recovery.specs.Steps.{HasRedone};

use crate::error::RecoverError;
use crate::head::read_head;
use crate::redo::{Progress, redo_from};
use block_tag::Catalog;
use byte_devices::{Failed, Source};
use page_layout::{Lsn, Page};
use segment_store::BlockLane;
use std::alloc::Global;

/// What was redone: where the log begins and ends, how many entries it has, and of how many blocks.
#[derive(Clone, Copy, PartialEq, Eq, Debug)]
pub struct Redone {
    pub base: Lsn,
    pub end: Lsn,
    pub entries: u64,
    pub blocks: u64,
}

/// Makes the writes to all lanes last.
fn sync_all<L: BlockLane>(lanes: &mut [L]) -> Result<(), Failed>
    ensures synced { OnOk result (All (λ lane. L.unsynced lane ≡ no_marks) lanes.new) }
    ensures unsynced { MarksOnly (λ tag. ⊥) (map L.unsynced lanes.old) (map L.unsynced lanes.new) }
    ensures contents { map L.contents lanes.new ≡ map L.contents lanes.old }
    ensures failed { map L.failed_writes lanes.new ≡ map L.failed_writes lanes.old }
    ensures fault { OnErr result
        (AnyRose (map L.write_faults lanes.old) (map L.write_faults lanes.new)) }
    ensures quiet { OnOk result (map L.write_faults lanes.new ≡ map L.write_faults lanes.old) }
    ensures reads { map L.read_faults lanes.new ≡ map L.read_faults lanes.old }
    ensures room { map L.room lanes.new ≡ map L.room lanes.old }
    ensures later { NoneFell (map L.write_faults lanes.old) (map L.write_faults lanes.new) }
    ensures count { length lanes.new ≡ length lanes.old }
{
    for index in 0..lanes.len() {
        lanes[index].sync()?;
    }
    Ok(())
}

/// Takes the head, and redoes the records after it.
fn redo_log<L: BlockLane, S: Source>(
    alloc: Global,
    lanes: &mut [L],
    catalog: &Catalog,
    source: &mut S,
    page: &mut Page,
) -> Result<Progress, RecoverError>
    requires some { 0 < length lanes.old }
    ensures done { IfOk result (HasRedone L.contents L.failed_writes catalog.now
        (S.left source.old) lanes.old lanes.new) }
    ensures part { OnErr result (LeavesPart L.contents L.failed_writes catalog.now
        (S.left source.old) lanes.old lanes.new) }
    ensures theirs { HoldTheirs (map L.contents lanes.old) → HoldTheirs (map L.contents lanes.new) }
    ensures marked { IfErr result (λ error. error ≢ RecoverError.WriteFault
        → MarksNone L.contents L.failed_writes lanes.old lanes.new) }
    ensures unsynced { LeavesUnsynced catalog.now (S.left source.old)
        (map L.unsynced lanes.old) (map L.unsynced lanes.new) }
    ensures bad { IsErrOf result RecoverError.BadLog → (lanes.new ≡ lanes.old)
        × (S.faults source.new ≡ S.faults source.old) × IfSome (S.left source.old) HasBadHead }
    ensures bad_head { IfSome (S.left source.old)
        (λ bytes. HasBadHead bytes → ¬ Rose (S.faults source.old) (S.faults source.new)
        → IsErrOf result RecoverError.BadLog) }
    ensures read_fault { IsErrOf result RecoverError.ReadFault
        → Rose (S.faults source.old) (S.faults source.new) }
    ensures write_fault { IsErrOf result RecoverError.WriteFault
        → AnyRose (map L.write_faults lanes.old) (map L.write_faults lanes.new) }
    ensures short { IsErrOf result RecoverError.Memory → (S.faults source.new ≡ S.faults source.old)
        × (map L.write_faults lanes.new ≡ map L.write_faults lanes.old) }
    ensures quiet { OnOk result ((S.faults source.new ≡ S.faults source.old)
        × (map L.write_faults lanes.new ≡ map L.write_faults lanes.old)) }
    ensures reads { map L.read_faults lanes.new ≡ map L.read_faults lanes.old }
    ensures room { map L.room lanes.new ≡ map L.room lanes.old }
    ensures later { (S.faults source.old ≤ S.faults source.new)
        × NoneFell (map L.write_faults lanes.old) (map L.write_faults lanes.new) }
    ensures count { length lanes.new ≡ length lanes.old }
{
    match read_head(source) {
        Ok(Some(base)) => redo_from(alloc, lanes, catalog, source, page, base),
        Ok(None) => Ok(Progress::new(alloc, 0)),
        Err(error) => Err(error),
    }
}

/// Reads a log back and writes each record's page to its block, in order, up to the first record
/// that isn't well formed; then each lane is synced.
pub fn recover<L: BlockLane, S: Source>(
    alloc: Global,
    lanes: &mut [L],
    catalog: &Catalog,
    source: &mut S,
    page: &mut Page,
) -> Result<Redone, RecoverError>
    requires some { 0 < length lanes.old }
    requires placed { HoldTheirs (map L.contents lanes.old) }
    ensures redone { IfOk result (IsRecovered L.contents L.failed_writes catalog.now
        (S.left source.old) lanes.old lanes.new) }
    ensures synced { OnOk result (All (λ lane. L.unsynced lane ≡ no_marks) lanes.new) }
    ensures part { OnErr result (LeavesPart L.contents L.failed_writes catalog.now
        (S.left source.old) lanes.old lanes.new) }
    ensures marked { IfErr result (λ error. error ≢ RecoverError.WriteFault
        → MarksNone L.contents L.failed_writes lanes.old lanes.new) }
    ensures unsynced { LeavesUnsynced catalog.now (S.left source.old)
        (map L.unsynced lanes.old) (map L.unsynced lanes.new) }
    ensures placed { HoldTheirs (map L.contents lanes.new) }
    ensures room { map L.room lanes.new ≡ map L.room lanes.old }
    ensures count { length lanes.new ≡ length lanes.old }
    ensures bad { IsErrOf result RecoverError.BadLog → (lanes.new ≡ lanes.old)
        × (S.faults source.new ≡ S.faults source.old) × IfSome (S.left source.old) HasBadHead }
    ensures bad_head { IfSome (S.left source.old)
        (λ bytes. HasBadHead bytes → ¬ Rose (S.faults source.old) (S.faults source.new)
        → IsErrOf result RecoverError.BadLog) }
    ensures read_fault { IsErrOf result RecoverError.ReadFault
        → Rose (S.faults source.old) (S.faults source.new)
        ⊎ AnyRose (map L.read_faults lanes.old) (map L.read_faults lanes.new) }
    ensures write_fault { IsErrOf result RecoverError.WriteFault
        → AnyRose (map L.write_faults lanes.old) (map L.write_faults lanes.new) }
    ensures short { IsErrOf result RecoverError.Memory → (S.faults source.new ≡ S.faults source.old)
        × (map L.read_faults lanes.new ≡ map L.read_faults lanes.old)
        × (map L.write_faults lanes.new ≡ map L.write_faults lanes.old) }
    ensures quiet { OnOk result ((S.faults source.new ≡ S.faults source.old)
        × (map L.read_faults lanes.new ≡ map L.read_faults lanes.old)
        × (map L.write_faults lanes.new ≡ map L.write_faults lanes.old)) }
    ensures later { (S.faults source.old ≤ S.faults source.new)
        × NoneFell (map L.read_faults lanes.old) (map L.read_faults lanes.new)
        × NoneFell (map L.write_faults lanes.old) (map L.write_faults lanes.new) }
{
    let progress = redo_log(alloc, lanes, catalog, source, page)?;
    if let Err(Failed) = sync_all(lanes) {
        return Err(RecoverError::WriteFault);
    }
    Ok(Redone {
        base: progress.base,
        end: progress.position,
        entries: progress.entries,
        blocks: progress.blocks.len() as u64,
    })
}
