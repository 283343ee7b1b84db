//! Backends over lanes and a log of any kind: three at once, each in a thread of its own, or the
//! first one without the others.
ghost use Rattle.std.specs.Prelude.{◌≡◌, All, IfErr, IfOk, List, length};
ghost use Rattle.pin_core.specs.declared.view.Content.TheVariants as lock;
ghost use Rattle.pin_core.specs.State.{link};
ghost use Rattle.frame_table.specs.Content.{HoldsNoUnentered};
ghost use Rattle.table_rule.specs.Shows.{devices};
ghost use Rattle.backend_pass.specs.Between.{AllReturn, HasOnlyToken, IsIdlePass, Returns};
ghost use Rattle.backend_pass.specs.Managers.{AreNewPasses};
ghost use Rattle.backend_pass.specs.Passes.{KeepsPass, PassState};
ghost use Rattle.library_example.specs.Passes.{AllNoteNone, ClosesReturned, LogTakesMore};
ghost use Rattle.library_example.specs.Passes.{NotesNone, RedoesEach, SawLogTakesMore};

use crate::counters::{Change, Pages};
use crate::files::block;
use backend_pass::{CleanupError, Exclusive, Manager, Pass, Pinned, PutError, ReadError, Refused};
use block_tag::{Fork, RelNo, Tag};
use byte_devices::LogDevice;
use checkpointer::checkpoint;
use segment_store::BlockLane;
use std::alloc::{AllocError, Global};
use std::sync::{Mutex, Wait};
use std::thread::{self, Threads};
use thiserror::Error;

/// How many backends there are.
pub const BACKENDS: u32 = 3;

/// Why a backend stopped.
#[derive(Clone, Copy, Debug, Error)]
pub enum BackendError {
    #[error(transparent)]
    Read(#[from] ReadError),
    #[error(transparent)]
    Put(#[from] PutError),
    #[error(transparent)]
    Cleanup(#[from] CleanupError),
    #[error("a page is not a counter's")]
    Page,
    #[error(transparent)]
    Memory(#[from(alloc)] AllocError),
}

/// Takes the content lock that a change asks for. If it is refused, the token is given back.
fn lock_for<L: BlockLane, G: LogDevice, R: Wait>(
    manager: &Manager<L, G>,
    rt: &R,
    pass: &mut Pass,
    pinned: Pinned,
    change: Change,
) -> Result<Exclusive, BackendError>
    requires { HasOnlyToken L.contents manager.now lock.Unlocked pinned pass.old }
    ensures same { KeepsPass pass.old pass.new }
    ensures unentered { NotesNone pass.old pass.new }
    ensures locked { IfOk result (λ locked.
        HasOnlyToken L.contents manager.now lock.Exclusive locked.pinned pass.new) }
    ensures none_unentered { IfOk result (λ locked.
        HoldsNoUnentered (link pass.new.view locked.pinned.frame)) }
    ensures refused { IfErr result (λ _. IsIdlePass L.contents manager.now pass.new) }
{
    match change {
        Change::Count => Ok(pass.exclusive(manager, rt, pinned)),
        Change::Prune => match pass.lock_cleanup(manager, rt, pinned) {
            Ok(locked) => Ok(locked),
            Err(Refused { pinned, why }) => {
                pass.release(manager, rt, pinned);
                Err(BackendError::Cleanup(why))
            }
        },
    }
}

/// Reads the page under the lock, and puts what becomes of it.
fn put_changed<L: BlockLane, G: LogDevice, R: Wait>(
    manager: &Manager<L, G>,
    rt: &R,
    pass: &mut Pass,
    locked: &mut Exclusive,
    change: Change,
    pages: &mut Pages,
) -> Result<(), BackendError>
    requires only { HasOnlyToken L.contents manager.now lock.Exclusive locked.old.pinned pass.old }
    requires none_unentered { HoldsNoUnentered (link pass.old.view locked.old.pinned.frame) }
    ensures same { KeepsPass pass.old pass.new }
    ensures only { HasOnlyToken L.contents manager.now lock.Exclusive locked.new.pinned pass.new }
    ensures unentered { NotesNone pass.old pass.new }
    ensures none_unentered { IfOk result (λ _.
        HoldsNoUnentered (link pass.new.view locked.new.pinned.frame)) }
    ensures takes_more { SawLogTakesMore pass.new
        → HoldsNoUnentered (link pass.new.view locked.new.pinned.frame) }
{
    pass.read_exclusive(manager, rt, locked, &mut pages.read);
    if !pages.change(change) {
        return Err(BackendError::Page);
    }
    pass.put(manager, rt, locked, &pages.changed)?;
    Ok(())
}

/// Changes the page of a block. Whatever goes wrong, its token is given back. If the put is done,
/// or the log was seen neither down nor full, the pass doesn't note the block as unentered.
fn change_block<L: BlockLane, G: LogDevice, R: Wait>(
    manager: &Manager<L, G>,
    rt: &R,
    pass: &mut Pass,
    tag: Tag,
    change: Change,
    pages: &mut Pages,
) -> Result<(), BackendError>
    requires { IsIdlePass L.contents manager.now pass.old }
    ensures back { Returns L.contents manager.now pass.old pass.new }
    ensures unentered { IfOk result (λ _. NotesNone pass.old pass.new) }
    ensures takes_more { SawLogTakesMore pass.new → NotesNone pass.old pass.new }
{
    let pinned = pass.read_buffer(manager, rt, tag, &mut None)?;
    let mut locked = lock_for(manager, rt, pass, pinned, change)?;
    let done = put_changed(manager, rt, pass, &mut locked, change, pages);
    let pinned = pass.unexclusive(manager, locked);
    pass.release(manager, rt, pinned);
    done
}

/// Counts one more on each page of a relation.
fn count_blocks<L: BlockLane, G: LogDevice, R: Wait>(
    manager: &Manager<L, G>,
    rt: &R,
    pass: &mut Pass,
    rel: RelNo,
    pages: &mut Pages,
) -> Result<(), BackendError>
    requires { IsIdlePass L.contents manager.now pass.old }
    ensures back { Returns L.contents manager.now pass.old pass.new }
    ensures unentered { IfOk result (λ _. NotesNone pass.old pass.new) }
    ensures takes_more { SawLogTakesMore pass.new → NotesNone pass.old pass.new }
{
    for number in 0..manager.blocks(rel, Fork::Main) {
        change_block(manager, rt, pass, block(rel, number), Change::Count, pages)?;
    }
    Ok(())
}

/// The work of one backend: it counts on all pages, and prunes one, of its own number.
fn work<L: BlockLane, G: LogDevice, R: Wait>(
    manager: &Manager<L, G>,
    rt: &R,
    alloc: Global,
    pass: &mut Pass,
    number: usize,
) -> Result<(), BackendError>
    requires { IsIdlePass L.contents manager.now pass.old }
    ensures back { Returns L.contents manager.now pass.old pass.new }
    ensures unentered { IfOk result (λ _. NotesNone pass.old pass.new) }
    ensures takes_more { SawLogTakesMore pass.new → NotesNone pass.old pass.new }
{
    let mut pages = Pages::new(alloc)?;
    count_blocks(manager, rt, pass, RelNo(0), &mut pages)?;
    count_blocks(manager, rt, pass, RelNo(1), &mut pages)?;
    let own = block(RelNo(0), (number % 12) as u32);
    change_block(manager, rt, pass, own, Change::Prune, &mut pages)
}

/// A backend, from its first block to its last. Where it stops, it says why.
fn backend<L: BlockLane, G: LogDevice, R: Wait>(
    manager: &Manager<L, G>,
    rt: &R,
    alloc: Global,
    stopped: &Mutex<Option<BackendError>>,
    pass: &mut Pass,
    number: usize,
)
    requires { IsIdlePass L.contents manager.now pass.old }
    ensures back { Returns L.contents manager.now pass.old pass.new }
    ensures takes_more { SawLogTakesMore pass.new → NotesNone pass.old pass.new }
{
    if let Err(why) = work(manager, rt, alloc, pass, number) {
        *stopped.lock(rt) = Some(why);
    }
}

/// All backends at once, each in a thread of its own if one can be started.
fn run_backends<L: BlockLane + Send, G: LogDevice + Send, R: Threads + Wait + Sync>(
    manager: &Manager<L, G>,
    rt: &R,
    alloc: Global,
    stopped: &Mutex<Option<BackendError>>,
    passes: &mut Vec<Pass>,
)
    requires { All (IsIdlePass L.contents manager.now) passes.old.items }
    ensures count { length passes.new.items ≡ length passes.old.items }
    ensures back { AllReturn L.contents manager.now passes.old.items passes.new.items }
    ensures takes_more { AllNoteNone passes.old.items passes.new.items }
{
    thread::for_each_mut(
        rt,
        passes.as_mut_slice(),
        BACKENDS as usize,
        &|number, pass| { backend(manager, rt, alloc, stopped, pass, number) },
    );
}

/// Lets the backends work, makes a checkpoint, and closes the manager. If the log is neither down
/// nor full then, no pass noted a block as unentered: so redo excepts none, if a crash finds the
/// devices so.
pub fn work_and_close<
    L: BlockLane + Send + Drop,
    G: LogDevice + Send + Drop,
    R: Threads + Wait + Sync,
>(
    manager: Manager<L, G>,
    rt: &R,
    alloc: Global,
    mut passes: Vec<Pass>,
) -> anyhow::Result<(Vec<L>, G)>
    requires { AreNewPasses L.contents manager BACKENDS passes.items }
    ensures { IfOk result (λ given. (ps : List PassState)
        × (c : ClosesReturned (devices L.BlockLane G.LogDevice) manager passes.items ps
        given.0.items given.1) × (LogTakesMore c.closed.state → RedoesEach c.closed.state)) }
{
    let stopped = Mutex::new(None);
    run_backends(&manager, rt, alloc, &stopped, &mut passes);
    let checkpointed = checkpoint(&manager, rt, &mut passes[0]);
    let devices = manager.close(passes);
    if let Some(why) = stopped.into_inner() {
        return Err(why.into());
    }
    let _checkpoint = checkpointed?;
    Ok(devices)
}

/// Lets the first backend work without the others, and closes the manager. If it is Ok, each put
/// was done, and no pass noted a block as unentered: so redo excepts none, if a crash finds the
/// devices so.
pub fn work_alone_and_close<L: BlockLane + Drop, G: LogDevice + Drop, R: Wait>(
    manager: Manager<L, G>,
    rt: &R,
    alloc: Global,
    mut passes: Vec<Pass>,
) -> Result<(Vec<L>, G), BackendError>
    requires { AreNewPasses L.contents manager BACKENDS passes.items }
    ensures { IfOk result (λ given. (ps : List PassState)
        × (c : ClosesReturned (devices L.BlockLane G.LogDevice) manager passes.items ps
        given.0.items given.1) × RedoesEach c.closed.state) }
{
    let done = work(&manager, rt, alloc, &mut passes[0], 0);
    let given = manager.close(passes);
    done?;
    Ok(given)
}
