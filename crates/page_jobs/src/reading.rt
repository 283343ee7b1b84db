//! A worker reads a block. All calls of the pass are made here.
ghost use Rattle.std.specs.Prelude.{◌≡◌, ◌<◌, IfErr, IfOk, OnOk, true, false};
ghost use Rattle.block_tag.specs.Catalogue.{blocks_at};
ghost use Rattle.frame_table.specs.Seats.{relations_of};
ghost use Rattle.io_counts.specs.Found.{FoundMore};
ghost use Rattle.backend_pass.specs.Between.{HasNoTokens};
ghost use Rattle.page_jobs.specs.Reads.{CopiesBlock, CopiesOrFindsUnsound, PinsOne};
ghost use Rattle.page_jobs.specs.Reads.{RefusesBlock, StopsAt, fault_of_refusal, found_by};
ghost use Rattle.page_jobs.specs.Reads.{is_crowding, is_tried_once};

use crate::ending::JobError;
use crate::gate::Gate;
use access_rings::Ring;
use backend_pass::{Manager, Pass, Pinned, ReadError};
use block_tag::Tag;
use byte_devices::LogDevice;
use page_layout::Page;
use segment_store::BlockLane;
use std::sync::Wait;
use std::thread;

/// Whether a read was refused since each frame was pinned, which doesn't last: each worker gives
/// its pin up after its read.
fn is_crowding(why: &ReadError) -> bool
    ensures { result ≡ is_crowding why.now }
{
    match why {
        ReadError::NoUnpinned { frames: _ } => true,
        _ => false,
    }
}

/// Pins a block. If each frame is pinned, it tries again.
/// (`Pass::read_buffer` leaves that to its caller.)
pub(crate) fn pin_with_retries<L: BlockLane, G: LogDevice, R: Wait>(
    manager: &Manager<L, G>,
    rt: &R,
    pass: &mut Pass,
    tag: Tag,
    ring: &mut Option<Ring>,
) -> Result<Pinned, ReadError>
    requires free { HasNoTokens L.contents manager.now pass.old }
    requires block { tag.block < blocks_at (relations_of manager.now.table) tag.rel.0 tag.fork }
    ensures pinned { IfOk result (PinsOne L.contents manager.now tag pass.old pass.new) }
    ensures refused { IfErr result (RefusesBlock L.contents manager.now tag pass.old pass.new) }
    // However often it tries, it counts one hit or one read, and none if no page came.
    ensures found { FoundMore (found_by result) pass.old.io pass.new.io }
{
    for _ in rt.forever() {
        match pass.read_buffer(manager, rt, tag, ring) {
            Ok(pinned) => return Ok(pinned),
            Err(why) => {
                if !is_crowding(&why) {
                    return Err(why);
                }
            }
        }
        thread::yield_now();
    }
    unreachable!()
}

/// Copies the page of a block, and tells the gate of the pin before it is given up.
fn copy_block<L: BlockLane, G: LogDevice, R: Wait, T: Gate>(
    manager: &Manager<L, G>,
    rt: &R,
    gate: &T,
    worker: u32,
    pass: &mut Pass,
    tag: Tag,
    ring: &mut Option<Ring>,
    page: &mut Page,
) -> Result<(), ReadError>
    requires free { HasNoTokens L.contents manager.now pass.old }
    requires block { tag.block < blocks_at (relations_of manager.now.table) tag.rel.0 tag.fork }
    ensures copied { OnOk result
        (CopiesBlock L.contents manager.now tag page.new pass.old pass.new) }
    ensures refused { IfErr result (RefusesBlock L.contents manager.now tag pass.old pass.new) }
    ensures found { FoundMore (found_by result) pass.old.io pass.new.io }
{
    let pinned = pin_with_retries(manager, rt, pass, tag, ring)?;
    let _place = pass.read_page(manager, rt, &pinned, page);
    gate.seen(worker, &pinned);
    pass.release(manager, rt, pinned);
    Ok(())
}

/// What ends the job if a read was refused for this reason; nothing if the page isn't sound.
pub(crate) fn fault_of(why: ReadError) -> Option<JobError>
    requires { is_tried_once why ≡ true }
    ensures { result ≡ fault_of_refusal why }
{
    match why {
        ReadError::ReadFault { tag } => Some(JobError::ReadFault { tag }),
        ReadError::WriteFault { tag } => Some(JobError::WriteFault { tag }),
        ReadError::LogFault => Some(JobError::LogFault),
        ReadError::LogDown { at } => Some(JobError::LogDown { at }),
        ReadError::LogShort { lsn, end } => Some(JobError::LogShort { lsn, end }),
        ReadError::Unsound { tag: _ } => None,
        ReadError::PastEnd { .. } | ReadError::PinsFull | ReadError::NoUnpinned { .. } => {
            unreachable!()
        }
    }
}

/// What a worker read of a block.
#[derive(Drop)]
pub(crate) enum PageRead {
    /// Its page, which is sound.
    Sound,
    /// Its page isn't sound.
    Unsound,
}

/// Copies a block's page, or finds that it isn't sound.
pub(crate) fn copy_if_sound<L: BlockLane, G: LogDevice, R: Wait, T: Gate>(
    manager: &Manager<L, G>,
    rt: &R,
    gate: &T,
    worker: u32,
    pass: &mut Pass,
    tag: Tag,
    ring: &mut Option<Ring>,
    page: &mut Page,
) -> Result<PageRead, JobError>
    requires free { HasNoTokens L.contents manager.now pass.old }
    requires block { tag.block < blocks_at (relations_of manager.now.table) tag.rel.0 tag.fork }
    ensures read { IfOk result
        (λ found. CopiesOrFindsUnsound L.contents manager.now tag page.new pass.old
        pass.new found) }
    ensures fault { IfErr result (StopsAt L.contents manager.now tag pass.old pass.new) }
    ensures found { OnOk result (FoundMore 1 pass.old.io pass.new.io) }
{
    match copy_block(manager, rt, gate, worker, pass, tag, ring, page) {
        Ok(()) => Ok(PageRead::Sound),
        Err(why) => match fault_of(why) {
            Some(error) => Err(error),
            None => Ok(PageRead::Unsound),
        },
    }
}
