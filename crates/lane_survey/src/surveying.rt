//! The survey of a relation's lanes: the largest log position of their pages, before a manager is
//! started over them.
ghost use Rattle.std.specs.Prelude.{◌≡◌, ◌+◌, ◌<◌, ◌≤◌, IfErr, IfOk, IfSome, IsSome, OnOk, false};
ghost use Rattle.std.specs.Prelude.{length, map, sum_by, true};
ghost use Rattle.std.specs.Option.{ForSome};
ghost use Rattle.block_tag.specs.Catalogue.{blocks_at};
ghost use Rattle.page_layout.specs.Fields.{lsn_of};
ghost use Rattle.page_layout.specs.Soundness.{is_sound_page};
ghost use Rattle.segment_store.specs.Lanes.{lane_at};
ghost use Rattle.lane_survey.specs.Survey.{AreOfBlock, AreOfFork, AreOfRelation, AreOnlyRead};
ghost use Rattle.lane_survey.specs.Survey.{FailsToRead, HaveTheirs, IsLargestLsn, IsListed};
ghost use Rattle.lane_survey.specs.Survey.{IsListedByName, RoseAt, Surveys, catalog_blocks};
ghost use Rattle.lane_survey.specs.Survey.{sum_of_forks};

use block_tag::{Catalog, Fork, RelNo, Tag};
use page_layout::{Lsn, Page};
use segment_store::BlockLane;
use thiserror::Error;

/// The forks of a relation, by their numbers.
const FORKS: [Fork; 4] = [Fork::Main, Fork::Fsm, Fork::Vm, Fork::Init];

/// A lane failed to read the page of this block.
#[derive(Clone, Copy, PartialEq, Eq, Debug, Error)]
#[error("a page was not read")]
pub struct ReadFault {
    pub tag: Tag,
}

/// Reads a block from the lane of its tag.
fn read_from_lane<L: BlockLane>(lanes: &mut [L], tag: Tag, page: &mut Page) -> Result<(), ReadFault>
    requires some { 0 < length lanes.old }
    requires has { ForSome (lane_at (map L.contents lanes.old) tag) (λ pages. IsSome (pages tag)) }
    ensures same { AreOnlyRead L.contents L.failed_writes L.unsynced L.write_faults
        lanes.old lanes.new }
    ensures page { OnOk result
        (IfSome (lane_at (map L.contents lanes.old) tag) (λ pages. pages tag ≡ Some page.new)) }
    ensures calls { sum_by L.calls lanes.new ≡ sum_by L.calls lanes.old + 1 }
    ensures ok { OnOk result (map L.read_faults lanes.new ≡ map L.read_faults lanes.old) }
    ensures tag { IfErr result (λ e. e.tag ≡ tag) }
    ensures fault { IfErr result
        (λ e. RoseAt tag (length lanes.old) (map L.read_faults lanes.old)
        (map L.read_faults lanes.new)) }
{
    let place = (tag.hash() % lanes.len() as u64) as usize;
    let lane = &mut lanes[place];
    match lane.read(tag, page) {
        Ok(()) => Ok(()),
        Err(_) => Err(ReadFault { tag }),
    }
}

/// The page's log position; 0 if the page isn't sound.
fn sound_lsn(page: &Page) -> Lsn
    ensures sound { is_sound_page page.now ≡ true → result ≡ lsn_of page.now }
    ensures unsound { is_sound_page page.now ≡ false → result ≡ 0 }
{
    if page.is_sound() { page.lsn() } else { 0 }
}

/// Surveys one block.
fn survey_block<L: BlockLane>(lanes: &mut [L], tag: Tag, page: &mut Page) -> Result<Lsn, ReadFault>
    requires some { 0 < length lanes.old }
    requires has { ForSome (lane_at (map L.contents lanes.old) tag) (λ pages. IsSome (pages tag)) }
    ensures done { IfOk result
        (Surveys L.contents L.failed_writes L.unsynced L.read_faults L.write_faults L.calls
        (AreOfBlock tag) 1 lanes.old lanes.new) }
    ensures fault { IfErr result
        (λ e. FailsToRead L.contents L.failed_writes L.unsynced L.read_faults L.write_faults L.calls
        (AreOfBlock tag) 1 lanes.old lanes.new e.tag) }
{
    match read_from_lane(lanes, tag, page) {
        Ok(()) => Ok(sound_lsn(page)),
        Err(error) => Err(error),
    }
}

/// Surveys the blocks of a fork.
fn survey_fork<L: BlockLane>(
    lanes: &mut [L],
    rel: RelNo,
    fork: Fork,
    blocks: u32,
    page: &mut Page,
) -> Result<Lsn, ReadFault>
    requires some { 0 < length lanes.old }
    requires has { HaveTheirs (AreOfFork rel.0 fork blocks) (map L.contents lanes.old) }
    ensures done { IfOk result
        (Surveys L.contents L.failed_writes L.unsynced L.read_faults L.write_faults L.calls
        (AreOfFork rel.0 fork blocks) blocks lanes.old lanes.new) }
    ensures fault { IfErr result
        (λ e. FailsToRead L.contents L.failed_writes L.unsynced L.read_faults L.write_faults L.calls
        (AreOfFork rel.0 fork blocks) blocks lanes.old lanes.new e.tag) }
{
    let mut largest: Lsn = 0;
    for block in 0..blocks {
        match survey_block(lanes, Tag { rel, fork, block }, page) {
            Ok(lsn) => largest = largest.max(lsn),
            Err(error) => return Err(error),
        }
    }
    Ok(largest)
}

/// Surveys the blocks of all forks of a relation.
fn survey_relation<L: BlockLane>(
    lanes: &mut [L],
    catalog: &Catalog,
    rel: RelNo,
    page: &mut Page,
) -> Result<Lsn, ReadFault>
    requires some { 0 < length lanes.old }
    requires few { rel.0 < 1024 }
    requires has { HaveTheirs (IsListedByName catalog.now) (map L.contents lanes.old) }
    ensures done { IfOk result
        (Surveys L.contents L.failed_writes L.unsynced L.read_faults L.write_faults L.calls
        (AreOfRelation catalog.now rel.0) (sum_of_forks (blocks_at catalog.now rel.0))
        lanes.old lanes.new) }
    ensures fault { IfErr result
        (λ e. FailsToRead L.contents L.failed_writes L.unsynced L.read_faults L.write_faults L.calls
        (AreOfRelation catalog.now rel.0) (sum_of_forks (blocks_at catalog.now rel.0)) lanes.old
        lanes.new e.tag) }
{
    let mut largest: Lsn = 0;
    for fork in FORKS {
        let blocks = catalog.blocks(rel, fork);
        match survey_fork(lanes, rel, fork, blocks, page) {
            Ok(lsn) => largest = largest.max(lsn),
            Err(error) => return Err(error),
        }
    }
    Ok(largest)
}

/// Reads each block of the catalogue once, from the lane of its tag, and gives the largest log
/// position of the sound pages among them; 0 if there is none, and in the order of the relations,
/// of the forks and of the blocks. A log for these lanes begins there, or later.
///
/// Of a block whose lane's contents are not known the page is what was read. At the first read that
/// fails the survey ends.
pub fn survey<L: BlockLane>(
    lanes: &mut [L],
    catalog: &Catalog,
    page: &mut Page,
) -> Result<Lsn, ReadFault>
    requires some { 0 < length lanes.old }
    requires has { HaveTheirs (IsListedByName catalog.now) (map L.contents lanes.old) }
    ensures largest { IfOk result (IsLargestLsn (IsListed catalog.now) (map L.contents lanes.old)) }
    ensures same { AreOnlyRead L.contents L.failed_writes L.unsynced L.write_faults
        lanes.old lanes.new }
    ensures each_once { OnOk result
        (sum_by L.calls lanes.new ≡ sum_by L.calls lanes.old + catalog_blocks catalog.now) }
    ensures some_read { IfErr result (λ e. sum_by L.calls lanes.old < sum_by L.calls lanes.new) }
    ensures at_most { sum_by L.calls lanes.new
        ≤ sum_by L.calls lanes.old + catalog_blocks catalog.now }
    ensures ok { OnOk result (map L.read_faults lanes.new ≡ map L.read_faults lanes.old) }
    ensures listed { IfErr result (λ e. IsListed catalog.now e.tag) }
    ensures fault { IfErr result
        (λ e. RoseAt e.tag (length lanes.old) (map L.read_faults lanes.old)
        (map L.read_faults lanes.new)) }
{
    let relations = catalog.len() as u32;
    let mut largest: Lsn = 0;
    for rel in 0..relations {
        match survey_relation(lanes, catalog, RelNo(rel), page) {
            Ok(lsn) => largest = largest.max(lsn),
            Err(error) => return Err(error),
        }
    }
    Ok(largest)
}
