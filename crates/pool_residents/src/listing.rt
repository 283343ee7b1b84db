//! A pool's frames are looked at, and the blocks of those that are valid are listed.
ghost use Rattle.std.specs.Prelude.{◌≡◌, ◌≤◌, All, IfOk, OnErr, vec_len};
ghost use Rattle.frame_table.specs.Seats.{frames_of, relations_of};
ghost use Rattle.backend_pass.specs.Managers.{Belongs};
ghost use Rattle.pool_residents.specs.Residents.{IsBlockIn, ListsResidents, LooksOnly, NotesFrames};

use crate::noting::note_tag;
use backend_pass::{Manager, Pass};
use block_lists::put_tags;
use block_tag::Tag;
use byte_devices::LogDevice;
use segment_store::BlockLane;
use std::alloc::{AllocError, Global};
use std::sync::Wait;

/// The tags of the frames that are valid, as they are looked at from frame 0 on.
fn tags_seen<L: BlockLane, G: LogDevice, R: Wait>(
    manager: &Manager<L, G>,
    rt: &R,
    alloc: Global,
    pass: &mut Pass,
) -> Result<Vec<Tag>, AllocError>
    requires belongs { Belongs L.contents manager.now pass.old }
    ensures looks { LooksOnly L.contents manager.now pass.old pass.new }
    ensures notes { IfOk result (λ tags. NotesFrames pass.old.view
        (frames_of manager.now.table) pass.new.view tags.items) }
    ensures blocks { IfOk result
        (λ tags. All (IsBlockIn (relations_of manager.now.table)) tags.items) }
    ensures few { IfOk result (λ tags. vec_len tags ≤ frames_of manager.now.table) }
{
    let mut tags = Vec::with_capacity(alloc, manager.frames() as usize)?;
    for frame in 0..manager.frames() {
        let seen = pass.inspect(manager, rt, frame);
        note_tag(seen, &mut tags);
    }
    Ok(tags)
}

/// Adds the list of the blocks that the pool holds to a text: those of the frames that are valid,
/// in the order of their tags' numbers, each once. Answers how many these are.
///
/// The frames are looked at one after the other, so the list is of no one moment, and a block that
/// moves to another frame meanwhile can be missed, or seen in both. Out of memory leaves the text
/// as it was.
pub fn residents<L: BlockLane, G: LogDevice, R: Wait>(
    manager: &Manager<L, G>,
    rt: &R,
    alloc: Global,
    pass: &mut Pass,
    list: &mut Vec<u8>,
) -> Result<u32, AllocError>
    requires belongs { Belongs L.contents manager.now pass.old }

    // Each frame is looked at once, and the valid ones' blocks are listed.
    ensures listed { IfOk result (ListsResidents manager.now.table pass.old.view pass.new.view
        list.old.items list.new.items) }

    // The pass keeps what callers have of it, and its mark, and no device was called.
    ensures looks { LooksOnly L.contents manager.now pass.old pass.new }
    ensures memory { OnErr result (list.new.items ≡ list.old.items) }
{
    let tags = tags_seen(manager, rt, alloc, pass)?;
    let count = put_tags(alloc, manager.catalog(), tags.as_slice(), list)?;
    Ok(count as u32)
}
