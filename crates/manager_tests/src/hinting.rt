//! What reads see of the hints of their blocks.
ghost use Rattle.backend_pass.specs.Managers.{Belongs};
ghost use Rattle.manager_bench.specs.Bench.{IsFree};
ghost use Rattle.backend_pass.specs.Between.{KeepsHeld};

use backend_pass::{HintSeen, Manager, Pass, ReadError};
use block_tag::Tag;
use byte_devices::LogDevice;
use manager_bench::bench::block;
use manager_bench::reading::{Access, read_once};
use segment_store::BlockLane;
use std::sync::Wait;

/// What came of a read, what it saw of the block's hint, and how many latches of partitions the
/// pass had taken by then.
#[derive(Clone, Copy, PartialEq, Debug)]
pub struct Sighted {
    pub access: Access,
    pub hint: HintSeen,
    pub turns: u64,
}

/// Reads a block and releases it.
pub fn sight_once<L: BlockLane, G: LogDevice, R: Wait>(
    manager: &Manager<L, G>,
    rt: &R,
    pass: &mut Pass,
    _number: u32,
    tag: Tag,
) -> Result<Sighted, ReadError>
    requires { IsFree L.contents manager.now _number pass.old }
    ensures { IsFree L.contents manager.now _number pass.new }
{
    let access = read_once(manager, rt, pass, _number, tag, &mut None)?;
    Ok(Sighted {
        access,
        hint: pass.hint_seen(),
        turns: pass.turns(),
    })
}

/// What a read is refused for, by a pass that may have tokens.
pub fn refusal<L: BlockLane, G: LogDevice, R: Wait>(
    manager: &Manager<L, G>,
    rt: &R,
    pass: &mut Pass,
    tag: Tag,
) -> Option<ReadError>
    requires { Belongs L.contents manager.now pass.old }
    ensures { KeepsHeld L.contents manager.now pass.old pass.new }
{
    match pass.read_buffer(manager, rt, tag, &mut None) {
        Ok(pinned) => {
            pass.release(manager, rt, pinned);
            None
        }
        Err(why) => Some(why),
    }
}

/// What a read saw of the block's hint, by a pass that may have tokens.
fn hint_of<L: BlockLane, G: LogDevice, R: Wait>(
    manager: &Manager<L, G>,
    rt: &R,
    pass: &mut Pass,
    tag: Tag,
) -> HintSeen
    requires { Belongs L.contents manager.now pass.old }
    ensures { KeepsHeld L.contents manager.now pass.old pass.new }
{
    let _refused = refusal(manager, rt, pass, tag);
    pass.hint_seen()
}

/// What a pass that holds block 0 sees of hints, as it reads block 64, which has the same hint
/// word, block 0 itself, and block 65, which is past the end. None if block 0 isn't read.
pub fn hints_beside_own<L: BlockLane, G: LogDevice, R: Wait>(
    manager: &Manager<L, G>,
    rt: &R,
    pass: &mut Pass,
) -> Option<[HintSeen; 3]>
    requires { Belongs L.contents manager.now pass.old }
    ensures { KeepsHeld L.contents manager.now pass.old pass.new }
{
    let Ok(pinned) = pass.read_buffer(manager, rt, block(0), &mut None) else {
        return None;
    };
    let same_word = hint_of(manager, rt, pass, block(64));
    let further = hint_of(manager, rt, pass, block(0));
    let past = hint_of(manager, rt, pass, block(65));
    pass.release(manager, rt, pinned);
    Some([same_word, further, past])
}
