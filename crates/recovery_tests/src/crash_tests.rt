//! Blocks as a crash may leave them, and a recovery that is made again.
use crate::bench::{
    BEFORE, Kept, NONE, empty_lanes, first_of, lanes_before, outcome_of, put_page, recover_by, tag,
};
use crate::checks::check_eq;
use crate::kept_lane::KeptLane;
use crate::log_bytes::{page_bytes, three_records, torn_page};
use page_layout::Lsn;
use std::alloc::Global;
use std::process::Abort;
use std::test::Fail;

/// What a crash leaves of a block that has a record in what is left of the log.
#[derive(Clone, Copy, PartialEq, Eq, Debug)]
enum Found {
    Before,
    After,
    /// The first half of the page after, and the second of the page before.
    Torn,
    Zero,
    Other,
    Missing,
}

impl Found {
    fn of_number(number: usize) -> Found {
        match number % 6 {
            0 => Found::Before,
            1 => Found::After,
            2 => Found::Torn,
            3 => Found::Zero,
            4 => Found::Other,
            _ => Found::Missing,
        }
    }

    /// The bytes of the block, if it is there.
    fn bytes(self, before: [u8; 8192], after: [u8; 8192]) -> Option<[u8; 8192]> {
        match self {
            Found::Before => Some(before),
            Found::After => Some(after),
            Found::Torn => Some(torn_page(&after, &before)),
            Found::Zero => Some([0; 8192]),
            Found::Other => Some([0x5a; 8192]),
            Found::Missing => None,
        }
    }
}

/// The bytes of a block as it was found, if it is there. A block without a record is as it was
/// before.
fn bytes_found((item, lsn): (u8, Lsn), after: Kept, found: Found) -> Option<[u8; 8192]> {
    let before = page_bytes(item, lsn);
    if after.lsn == lsn {
        return Some(before);
    }
    found.bytes(before, page_bytes(after.item, after.lsn))
}

/// Puts a block into its lane as it was found. This is its page after the log's records.
fn put_found(
    alloc: Global,
    lanes: &mut [KeptLane],
    block: usize,
    after: Option<Kept>,
    found: Found,
) -> Result<(), Fail> {
    let (Some(before), Some(after)) = (BEFORE.get(block), after) else {
        return Err(Fail::new("no block"));
    };
    match bytes_found(*before, after, found) {
        Some(bytes) => put_page(alloc, lanes, block as u32, &bytes),
        None => Ok(()),
    }
}

/// Recovers three lanes by the log that is left, with the blocks 0 and 1 as they were found.
fn recover_crashed(
    rt: &impl Abort,
    alloc: Global,
    left: &[u8],
    first: Found,
    second: Found,
) -> Result<(), Fail> {
    let length = left.len();
    let wanted = outcome_of(length);
    let [after_first, after_second, after_third] = wanted.held.pages;
    let mut lanes = empty_lanes(alloc, 3, 0, NONE)?;
    put_found(alloc, &mut lanes, 0, after_first, first)?;
    put_found(alloc, &mut lanes, 1, after_second, second)?;
    put_found(alloc, &mut lanes, 2, after_third, Found::Before)?;
    let found = recover_by(rt, alloc, &mut lanes, left)?;
    let again = recover_by(rt, alloc, &mut lanes, left)?;
    check_eq!(rt;
        [found, again],
        [wanted; 2],
        "{length} bytes, {first:?} and {second:?}"
    );
    Ok(())
}

/// 0 to 3 records are left whole, and each block that has one of them is anything.
#[test]
fn blocks_with_a_record_may_be_anything(rt: HostRuntime) -> Result<(), Fail> {
    let alloc = rt.alloc();
    let log = three_records(alloc)?;
    for case in 0..144 {
        let left = first_of(&log, 16 + 8224 * (case / 36))?;
        let first = Found::of_number(case / 6);
        let second = Found::of_number(case);
        recover_crashed(&rt, alloc, left, first, second)?;
    }
    Ok(())
}

/// With three lanes, the blocks 0, 1 and 2 of the second relation lie in the lanes 1, 2 and 0.
#[test]
fn blocks_are_written_to_their_lanes(rt: HostRuntime) -> Result<(), Fail> {
    let alloc = rt.alloc();
    let log = three_records(alloc)?;
    let mut lanes = empty_lanes(alloc, 3, 0, NONE)?;
    let outcome = recover_by(&rt, alloc, &mut lanes, &log)?;
    let [third, first, second] = lanes.as_slice() else {
        return Err("no lanes")?;
    };
    let found = [
        third.blocks(),
        first.page(&tag(0)).map_or(0, |page| page.lsn() as usize),
        second.page(&tag(1)).map_or(0, |page| page.lsn() as usize),
    ];
    check_eq!(rt; (outcome.held.blocks, found), (2, [0, 28768, 20544]));
    Ok(())
}

/// A log of two records is redone, then one of three, then the first again.
#[test]
fn redo_goes_on_and_back(rt: HostRuntime) -> Result<(), Fail> {
    let alloc = rt.alloc();
    let log = three_records(alloc)?;
    let mut lanes = lanes_before(alloc, 1, 0, NONE)?;
    for length in [16464, 24688, 16464] {
        let left = first_of(&log, length)?;
        let found = recover_by(&rt, alloc, &mut lanes, left)?;
        check_eq!(rt; found, outcome_of(length), "{length} bytes");
    }
    Ok(())
}
