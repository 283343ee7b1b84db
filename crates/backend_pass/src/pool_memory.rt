//! The memory of a manager and of its passes.
ghost use Rattle.std.specs.Prelude.{◌≡◌, ◌<◌, IfOk, vec_len};
ghost use Rattle.backend_pass.specs.PassMemories.{AreForFrames};

use crate::pass::Pass;
use crate::pass_memory::PassMemory;
use clock_sweep::{QueuePass, Sweep};
use std::alloc::{AllocError, Global};

/// The memory of a manager and of its passes.
pub(crate) struct PoolMemory {
    pub(crate) sweep: Sweep,
    /// The first pass of the free list.
    pub(crate) queue: QueuePass,
    pub(crate) memories: Vec<PassMemory>,
    /// Empty, with room for all passes.
    pub(crate) passes: Vec<Pass>,
}

/// The memory of this many passes.
fn take_memories(alloc: Global, frames: u32, count: u32) -> Result<Vec<PassMemory>, AllocError>
    ensures counted { IfOk result (λ memories. vec_len memories ≡ count) }
    ensures fresh { IfOk result (λ memories. AreForFrames frames memories.items) }
{
    let mut memories = Vec::with_capacity(alloc, count as usize)?;
    for _ in 0..count {
        match PassMemory::take(alloc, frames) {
            Ok(memory) => memories.push_reserved(memory),
            Err(why) => {
                spend_memories(memories);
                return Err(why);
            }
        }
    }
    Ok(memories)
}

fn spend_memories(mut memories: Vec<PassMemory>) {
    while let Some(memory) = memories.pop() {
        memory.spend();
    }
    memories.destroy_empty();
}

impl PoolMemory {
    ghost use Rattle.std.specs.Prelude.{[]};
    ghost use Rattle.backend_pass.specs.PoolMemories.{IsMemoryFor};

    pub(crate) fn take(alloc: Global, frames: u32, passes: u32) -> Result<PoolMemory, AllocError>
        requires { 0 < frames }
        ensures { IfOk result (IsMemoryFor frames passes) }
    {
        let (sweep, queue) = Sweep::build(alloc, frames)?;
        let memories = take_memories(alloc, frames, passes)?;
        match Vec::with_capacity(alloc, passes as usize) {
            Ok(passes) => Ok(PoolMemory {
                sweep,
                queue,
                memories,
                passes,
            }),
            Err(why) => {
                spend_memories(memories);
                Err(why)
            }
        }
    }

    pub(crate) fn spend(self)
        requires { self.passes.items ≡ [] }
    {
        let PoolMemory {
            sweep: _,
            queue: _,
            memories,
            passes,
        } = self;
        spend_memories(memories);
        passes.destroy_empty();
    }
}
