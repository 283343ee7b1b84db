//! Redo: the pages of records are written to their blocks.
ghost use Rattle.std.specs.Prelude.{◌≡◌, ◌≢◌, ◌+◌, ◌<◌, ◌≤◌, ◌⊎◌, [], IfErr, IfOk, IfSome};
ghost use Rattle.std.specs.Prelude.{IsErrOf, None, OnErr, OnOk, is_some, length, map, true};
ghost use Rattle.block_tag.specs.Names.{names_block};
ghost use Rattle.byte_devices.specs.Faults.{HasCause, Rose};
ghost use Rattle.byte_devices.specs.declared.device.Failed.{Failed};
ghost use Rattle.segment_store.specs.Lanes.{HoldTheirs};
ghost use Rattle.history_core.specs.Log.{record_size};
ghost use Rattle.history_core.specs.State.{last_position};
ghost use Rattle.log_recovery.specs.Redo.{AnyRose, LeavesFirst, MarksFirst, MarksNone, MarksOnly};
ghost use Rattle.log_recovery.specs.Redo.{NoneFell, WritesTo};
ghost use Rattle.log_recovery.specs.Steps.{HasNoRecord, HaveRedone, IsNextImage, IsUpto, LeadIn};
ghost use Rattle.log_recovery.specs.Steps.{StepsOn};

use crate::error::RecoverError;
use crate::records::{IMAGE_SIZE, image_in};
use block_tag::{Catalog, Tag};
use byte_devices::{Failed, Source, fill};
use page_layout::{Lsn, Page};
use segment_store::BlockLane;
use std::alloc::Global;
use std::collections::BTreeSet;
use table_rule::LAST_POSITION;

/// Takes the next record, if it is one of a page that is well formed at the position `from`: its
/// block, and its page. The bytes have no meaning before and after.
fn next_image<S: Source>(
    catalog: &Catalog,
    source: &mut S,
    from: Lsn,
    bytes: &mut [u8; IMAGE_SIZE],
    page: &mut Page,
) -> Result<Option<Tag>, Failed>
    requires room { from + record_size ≤ last_position }
    ensures some { IfOk result (λ found. IfSome found
        (λ tag. IsNextImage catalog.now from tag page.new (S.left source.old)
        (S.left source.new))) }
    ensures none { IfOk result (λ found. found ≡ None
        → IfSome (S.left source.old) (HasNoRecord catalog.now from)) }
    ensures told { OnOk result (is_some (S.left source.new) ≡ is_some (S.left source.old)) }
    ensures faults { HasCause (S.faults source.old) (S.faults source.new) result }
{
    let count = fill(source, bytes)?;
    if count < IMAGE_SIZE {
        return Ok(None);
    }
    Ok(image_in(catalog, bytes, from, page))
}

/// Writes the page to the lane of its block.
fn write_to_lane<L: BlockLane>(lanes: &mut [L], tag: Tag, page: &Page) -> Result<(), Failed>
    requires { 0 < length lanes.old }
    ensures writes { WritesTo tag page.now (map L.contents lanes.old) (map L.contents lanes.new)
        (map L.failed_writes lanes.old) (map L.failed_writes lanes.new) result }
    ensures fault { OnErr result
        (AnyRose (map L.write_faults lanes.old) (map L.write_faults lanes.new)) }
    ensures quiet { OnOk result (map L.write_faults lanes.new ≡ map L.write_faults lanes.old) }
    ensures unsynced { MarksOnly (λ t. t ≡ tag) (map L.unsynced lanes.old)
        (map L.unsynced lanes.new) }
    ensures reads { map L.read_faults lanes.new ≡ map L.read_faults lanes.old }
    ensures room { map L.room lanes.new ≡ map L.room lanes.old }
    ensures later { NoneFell (map L.write_faults lanes.old) (map L.write_faults lanes.new) }
    ensures count { length lanes.new ≡ length lanes.old }
{
    let place = (tag.hash() % lanes.len() as u64) as usize;
    let lane = &mut lanes[place];
    lane.write(tag, page)
}

/// How far a redo has come.
#[derive(Drop)]
pub(crate) struct Progress {
    /// Where the log begins.
    pub(crate) base: Lsn,
    /// The position after the records so far.
    pub(crate) position: Lsn,
    /// How many they are.
    pub(crate) entries: u64,
    /// The blocks that they are of.
    pub(crate) blocks: BTreeSet<u64, Global>,
}

impl Progress {
    /// No record so far.
    pub(crate) fn new(alloc: Global, base: Lsn) -> Progress
        requires { base ≤ last_position }
        ensures { IsUpto base [] result }
    {
        Progress {
            base,
            position: base,
            entries: 0,
            blocks: BTreeSet::new(alloc),
        }
    }
}

/// A record was read: its page is written to its block.
fn redo_image<L: BlockLane>(
    lanes: &mut [L],
    tag: Tag,
    page: &Page,
    progress: &mut Progress,
) -> Result<(), RecoverError>
    requires some { 0 < length lanes.old }
    requires named { names_block tag ≡ true }
    requires room { progress.old.position + record_size ≤ last_position }
    requires few { progress.old.entries ≤ progress.old.position }
    ensures done { OnOk result (StepsOn tag progress.old progress.new) }
    ensures written { OnOk result (WritesTo {E = Failed} tag page.now (map L.contents lanes.old)
        (map L.contents lanes.new) (map L.failed_writes lanes.old)
        (map L.failed_writes lanes.new) (Ok tt)) }
    ensures refused { IsErrOf result RecoverError.Memory → lanes.new ≡ lanes.old }
    ensures failed { IsErrOf result RecoverError.WriteFault
        → WritesTo {E = Failed} tag page.now (map L.contents lanes.old)
        (map L.contents lanes.new) (map L.failed_writes lanes.old)
        (map L.failed_writes lanes.new) (Err (record {})) }
    ensures fault { IsErrOf result RecoverError.WriteFault
        → AnyRose (map L.write_faults lanes.old) (map L.write_faults lanes.new) }
    ensures others { IfErr result (λ e. (e ≡ RecoverError.Memory) ⊎ (e ≡ RecoverError.WriteFault)) }
    ensures quiet { OnOk result (map L.write_faults lanes.new ≡ map L.write_faults lanes.old) }
    ensures unsynced { MarksOnly (λ t. t ≡ tag) (map L.unsynced lanes.old)
        (map L.unsynced lanes.new) }
    ensures reads { map L.read_faults lanes.new ≡ map L.read_faults lanes.old }
    ensures room { map L.room lanes.new ≡ map L.room lanes.old }
    ensures later { NoneFell (map L.write_faults lanes.old) (map L.write_faults lanes.new) }
    ensures count { length lanes.new ≡ length lanes.old }
{
    let Ok(_new) = progress.blocks.insert(tag.pack()) else {
        return Err(RecoverError::Memory);
    };
    if let Err(Failed) = write_to_lane(lanes, tag, page) {
        return Err(RecoverError::WriteFault);
    }
    progress.position += IMAGE_SIZE as Lsn;
    progress.entries += 1;
    Ok(())
}

/// Redoes records as long as well-formed ones follow.
pub(crate) fn redo_from<L: BlockLane, S: Source>(
    alloc: Global,
    lanes: &mut [L],
    catalog: &Catalog,
    source: &mut S,
    page: &mut Page,
    base: Lsn,
) -> Result<Progress, RecoverError>
    requires some { 0 < length lanes.old }
    requires base { base ≤ last_position }
    ensures done { IfOk result (HaveRedone L.contents L.failed_writes catalog.now base
        (S.left source.old) lanes.old lanes.new) }
    ensures part { OnErr result (LeavesFirst L.contents L.failed_writes
        (LeadIn catalog.now base (S.left source.old)) lanes.old lanes.new) }
    ensures theirs { HoldTheirs (map L.contents lanes.old) → HoldTheirs (map L.contents lanes.new) }
    ensures marked { IfErr result (λ error. error ≢ RecoverError.WriteFault
        → MarksNone L.contents L.failed_writes lanes.old lanes.new) }
    ensures unsynced { MarksFirst (LeadIn catalog.now base (S.left source.old))
        (map L.unsynced lanes.old) (map L.unsynced lanes.new) }
    ensures others { IsErrOf result RecoverError.BadLog → ⊥ }
    ensures read_fault { IsErrOf result RecoverError.ReadFault
        → Rose (S.faults source.old) (S.faults source.new) }
    ensures write_fault { IsErrOf result RecoverError.WriteFault
        → AnyRose (map L.write_faults lanes.old) (map L.write_faults lanes.new) }
    ensures short { IsErrOf result RecoverError.Memory → (S.faults source.new ≡ S.faults source.old)
        × (map L.write_faults lanes.new ≡ map L.write_faults lanes.old) }
    ensures quiet { OnOk result ((S.faults source.new ≡ S.faults source.old)
        × (map L.write_faults lanes.new ≡ map L.write_faults lanes.old)) }
    ensures reads { map L.read_faults lanes.new ≡ map L.read_faults lanes.old }
    ensures room { map L.room lanes.new ≡ map L.room lanes.old }
    ensures later { (S.faults source.old ≤ S.faults source.new)
        × NoneFell (map L.write_faults lanes.old) (map L.write_faults lanes.new) }
    ensures count { length lanes.new ≡ length lanes.old }
{
    let mut bytes = [0; IMAGE_SIZE];
    let mut progress = Progress::new(alloc, base);
    while progress.position <= LAST_POSITION - IMAGE_SIZE as Lsn {
        let Ok(found) = next_image(catalog, source, progress.position, &mut bytes, page) else {
            return Err(RecoverError::ReadFault);
        };
        let Some(tag) = found else {
            return Ok(progress);
        };
        if let Err(error) = redo_image(lanes, tag, page, &mut progress) {
            return Err(error);
        }
    }
    Ok(progress)
}
