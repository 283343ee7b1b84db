//! What a small manager's pool of 16 frames holds, as a list.
ghost use Rattle.manager_bench.specs.Bench.{IsFree};

use crate::checks::{check, check_eq};
use backend_pass::{Manager, Pass};
use byte_devices::LogDevice;
use manager_bench::bench::{Bench, block, close, start};
use manager_bench::reading::read_once;
use pool_residents::residents;
use segment_store::BlockLane;
use std::alloc::{AllocError, Global};
use std::sync::Wait;
use std::test::Fail;
use test_devices::{TestLane, TestLog};

/// Reads blocks and releases them. How many are read.
fn read_all<L: BlockLane, G: LogDevice, R: Wait>(
    manager: &Manager<L, G>,
    rt: &R,
    pass: &mut Pass,
    _number: u32,
    blocks: &[u32],
) -> u32
    requires { IsFree L.contents manager.now _number pass.old }
    ensures { IsFree L.contents manager.now _number pass.new }
{
    let mut read: u32 = 0;
    for number in blocks {
        if read_once(manager, rt, pass, _number, block(*number), &mut None).is_ok() {
            read = read.saturating_add(1);
        }
    }
    read
}

/// Adds the list of what the pool holds to a text.
fn list_once<L: BlockLane, G: LogDevice, R: Wait>(
    manager: &Manager<L, G>,
    rt: &R,
    alloc: Global,
    pass: &mut Pass,
    _number: u32,
    text: &mut Vec<u8>,
) -> Result<u32, AllocError>
    requires { IsFree L.contents manager.now _number pass.old }
    ensures { IsFree L.contents manager.now _number pass.new }
{
    residents(manager, rt, alloc, pass, text)
}

/// Which page isn't sound, if any; which blocks are read; how many of them can be; how many are
/// listed, and the list.
type Row = (Option<u32>, &'static [u32], u32, u32, &'static str);

static ROWS: [Row; 5] = [
    (None, &[], 0, 0, ""),
    (None, &[3, 1, 3], 3, 2, "0 0 16384 0 1\n0 0 16384 0 3\n"),
    (None, &[63, 0], 2, 2, "0 0 16384 0 0\n0 0 16384 0 63\n"),
    // The frame of block 5 keeps its tag, and isn't valid.
    (Some(5), &[6, 5, 4], 2, 2, "0 0 16384 0 4\n0 0 16384 0 6\n"),
    // Block 36 takes the frame of block 20.
    (
        None,
        &[
            20, 21, 22, 23, 24, 25, 26, 27, 28, 29, 30, 31, 32, 33, 34, 35, 36,
        ],
        17,
        16,
        "0 0 16384 0 21\n0 0 16384 0 22\n0 0 16384 0 23\n0 0 16384 0 24\n\
         0 0 16384 0 25\n0 0 16384 0 26\n0 0 16384 0 27\n0 0 16384 0 28\n\
         0 0 16384 0 29\n0 0 16384 0 30\n0 0 16384 0 31\n0 0 16384 0 32\n\
         0 0 16384 0 33\n0 0 16384 0 34\n0 0 16384 0 35\n0 0 16384 0 36\n",
    ),
];

/// What came of a row: how many blocks were read, what the lists' calls answered, and their text.
#[derive(Drop)]
struct Listed {
    read: u32,
    counts: [Result<u32, AllocError>; 2],
    text: Vec<u8>,
}

/// The first pass reads, and the second one lists twice.
fn play<R: Wait>(
    rt: &R,
    alloc: Global,
    unsound: Option<u32>,
    blocks: &[u32],
) -> Result<Listed, AllocError> {
    let lane = TestLane::numbered(unsound);
    let Bench {
        manager,
        mut first,
        mut second,
        third,
        passes,
    } = start(alloc, 64, lane, TestLog::new(alloc, 0), 0)?;
    let mut text = Vec::new(alloc);
    let read = read_all(&manager, rt, &mut first, 0, blocks);
    let once = list_once(&manager, rt, alloc, &mut second, 1, &mut text);
    let again = list_once(&manager, rt, alloc, &mut second, 1, &mut text);
    close(manager, first, second, third, passes);
    let counts = [once, again];
    Ok(Listed { read, counts, text })
}

/// Whether a text is this list, twice.
fn is_twice(text: &[u8], list: &str) -> bool {
    text.strip_prefix(list.as_bytes()) == Some(list.as_bytes())
}

#[test]
fn what_the_pool_holds_is_listed(rt: HostRuntime) -> Result<(), Fail> {
    for (unsound, blocks, read, count, list) in &ROWS {
        let listed = play(&rt, rt.alloc(), *unsound, blocks)?;
        check_eq!(rt; (listed.read, listed.counts), (*read, [Ok(*count); 2]), "{list}");
        check!(rt; is_twice(listed.text.as_slice(), list), "{list}");
    }
    Ok(())
}
