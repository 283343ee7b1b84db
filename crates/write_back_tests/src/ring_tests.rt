//! A pass puts a page by a ring of two places, and reads on.
use crate::acts::Act;
use crate::cases::{Case, NO_ACTS, check_case, checkpoint, no_ring, put, read};
use crate::checks::check_eq;
use crate::devices::TestCall::{Append, ReadBlock, SyncLane, SyncLog, WriteBlock};
use access_rings::RingKind;
use io_counts::IoCounts;
use std::test::Fail;

/// Block 0 stays in its frame, which is dirty still.
#[test]
fn a_ring_for_bulk_reads_gives_a_dirty_frame_up(rt: HostRuntime) -> Result<(), Fail> {
    let case = Case {
        ring: Some(RingKind::BulkRead),
        acts: &[
            Act::Put(0),
            Act::Read(1),
            Act::Read(2),
            Act::ReadBeside(0),
            Act::Checkpoint,
        ],
        answers: &[
            put(8224),
            read(1, false),
            read(1, false),
            read(0, true),
            checkpoint(8224, 1),
        ],
        calls: Some(&[
            ReadBlock(0),
            Append,
            ReadBlock(1),
            ReadBlock(2),
            SyncLog,
            WriteBlock(0),
            SyncLane,
        ]),
        ..NO_ACTS
    };
    let run = check_case(&rt, rt.alloc(), &case)?;
    // Block 2 takes the frame of block 1. The checkpoint's write is without a ring.
    let counted = [
        IoCounts {
            hits: [0; 4],
            reads: [0, 3, 0, 0],
            writes: [0; 4],
            evictions: [0; 4],
            reuses: [0, 1, 0, 0],
        },
        no_ring(0, 0, 1, 0),
        no_ring(1, 0, 0, 0),
    ];
    check_eq!(rt; run.io, counted);
    Ok(())
}

#[test]
fn a_ring_for_a_vacuum_writes_a_dirty_frame(rt: HostRuntime) -> Result<(), Fail> {
    let case = Case {
        ring: Some(RingKind::Vacuum),
        acts: &[Act::Put(0), Act::Read(1), Act::Read(2)],
        answers: &[put(8224), read(1, false), read(0, false)],
        calls: Some(&[
            ReadBlock(0),
            Append,
            ReadBlock(1),
            SyncLog,
            WriteBlock(0),
            ReadBlock(2),
        ]),
        ..NO_ACTS
    };
    let run = check_case(&rt, rt.alloc(), &case)?;
    let counted = [
        IoCounts {
            hits: [0; 4],
            reads: [0, 0, 0, 3],
            writes: [0, 0, 0, 1],
            evictions: [0; 4],
            reuses: [0, 0, 0, 1],
        },
        no_ring(0, 0, 0, 0),
        no_ring(0, 0, 0, 0),
    ];
    check_eq!(rt; run.io, counted);
    Ok(())
}
