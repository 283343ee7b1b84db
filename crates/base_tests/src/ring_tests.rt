//! Sizes of rings, and walks worked out by hand.
ghost use Rattle.std.specs.Prelude.{◌≤◌};

use crate::checks::check_eq;
use access_rings::{Memory, Ring, RingKind};
use std::alloc::Global;
use std::test::Fail;

/// The number of places of a ring over so many frames, and its kind.
fn size_and_kind(alloc: Global, kind: RingKind, frames: u32) -> Result<(u32, RingKind), Memory>
    requires at_least { 16 ≤ frames }
    requires at_most { frames ≤ 4096 }
{
    let ring = Ring::build(alloc, kind, frames)?;
    Ok((ring.len(), ring.kind()))
}

#[test]
fn sizes_by_kind_and_pool(rt: HostRuntime) -> Result<(), Fail> {
    let found = [
        size_and_kind(rt.alloc(), RingKind::BulkRead, 16)?,
        size_and_kind(rt.alloc(), RingKind::BulkWrite, 4096)?,
        size_and_kind(rt.alloc(), RingKind::Vacuum, 4096)?,
    ];
    let wanted = [
        (2, RingKind::BulkRead),
        (512, RingKind::BulkWrite),
        (32, RingKind::Vacuum),
    ];
    check_eq!(rt; found, wanted);
    Ok(())
}

/// The frame at the next place, at which this frame is then kept.
fn next_then_keep(ring: &mut Ring, frame: u32) -> Option<u32> {
    let found = ring.next();
    ring.keep(frame);
    found
}

/// Place 1 of three is looked at first, so the third frame stands at place 0.
#[test]
fn frames_come_round(rt: HostRuntime) -> Result<(), Fail> {
    let mut ring = Ring::build(rt.alloc(), RingKind::Vacuum, 24)?;
    let kept = [7, u32::MAX, 7].map(|frame| next_then_keep(&mut ring, frame));
    check_eq!(rt; kept, [None; 3]);
    let first = ring.next();
    let second = next_then_keep(&mut ring, 9);
    let later = [ring.next(), ring.next(), ring.next()];
    check_eq!(rt; (first, second), (Some(7), Some(u32::MAX)));
    check_eq!(rt; later, [Some(7), Some(7), Some(9)]);
    Ok(())
}

#[test]
fn a_bulk_read_rejects_the_current_frame_alone(rt: HostRuntime) -> Result<(), Fail> {
    let mut ring = Ring::build(rt.alloc(), RingKind::BulkRead, 16)?;
    let in_an_empty_ring = ring.reject(0);
    let empty = [next_then_keep(&mut ring, 0), next_then_keep(&mut ring, 1)];
    let first = ring.next();
    let rejected = [
        in_an_empty_ring,
        ring.reject(1),
        ring.reject(0),
        ring.reject(0),
    ];
    check_eq!(rt; rejected, [false, false, true, false]);
    let found = [empty[0], empty[1], first, ring.next(), ring.next()];
    check_eq!(rt; found, [None, None, Some(0), Some(1), None]);
    Ok(())
}

/// Whether a frame that is kept can be rejected, and what the places round it hold.
fn reject_kept(alloc: Global, kind: RingKind) -> Result<(bool, [Option<u32>; 3]), Memory> {
    let mut ring = Ring::build(alloc, kind, 16)?;
    let first = next_then_keep(&mut ring, 3);
    let rejected = ring.reject(3);
    Ok((rejected, [first, ring.next(), ring.next()]))
}

#[test]
fn other_kinds_reject_nothing(rt: HostRuntime) -> Result<(), Fail> {
    let stays = (false, [None, None, Some(3)]);
    check_eq!(rt; reject_kept(rt.alloc(), RingKind::BulkWrite)?, stays);
    check_eq!(rt; reject_kept(rt.alloc(), RingKind::Vacuum)?, stays);
    Ok(())
}
