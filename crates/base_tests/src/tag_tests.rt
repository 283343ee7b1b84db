//! Packed tags, partitions, lanes, places and catalogues that were worked out by hand.
use crate::checks::check_eq;
use block_tag::{Catalog, CatalogError, Fork, RelEntry, RelNo, Tag, lane_of, segment_place};
use std::test::Fail;

fn tag(rel: u32, fork: Fork, block: u32) -> Tag {
    Tag {
        rel: RelNo(rel),
        fork,
        block,
    }
}

#[test]
fn tags_pack_and_spread(rt: HostRuntime) {
    let vm = tag(3, Fork::Vm, 5);
    let main = tag(0, Fork::Main, 200);
    let last = tag(1023, Fork::Init, 0xFFFF_FFFE);
    let packed = [vm.pack(), last.pack()];
    check_eq!(rt; packed, [0x0000_0302_0000_0005, 0x0003_FF03_FFFF_FFFE]);
    let partitions = [vm.partition(), main.partition(), last.partition()];
    check_eq!(rt; partitions, [112, 72, 116]);
    check_eq!(rt; lane_of(&vm, 4), 0);
    check_eq!(rt; Tag::unpack(0x0003_FF03_FFFF_FFFE), Some(last));
}

#[test]
fn numbers_that_are_no_tags(rt: HostRuntime) {
    let found = [
        Tag::unpack(0x0003_FF03_FFFF_FFFF),
        Tag::unpack(0x0003_FF04_0000_0000),
        Tag::unpack(0x0004_0000_0000_0000),
        Tag::unpack(u64::MAX),
    ];
    check_eq!(rt; found, [None; 4]);
}

#[test]
fn blocks_lie_in_segments(rt: HostRuntime) {
    let found = [
        segment_place(131072, 131072),
        segment_place(5, 2),
        segment_place(0xFFFF_FFFE, 131072),
    ];
    check_eq!(rt; found, [(1, 0), (2, 1), (32767, 131070)]);
}

fn entry(relation: u32) -> RelEntry {
    RelEntry {
        tablespace: 0,
        database: 5,
        relation,
        blocks: [7, 1, 1, 0],
    }
}

#[test]
fn catalogues(rt: HostRuntime) -> Result<(), Fail> {
    let alloc = rt.alloc();
    let twice = Catalog::build(alloc, &[entry(1), entry(2), entry(1), entry(2)]);
    check_eq!(rt;
        twice.err(),
        Some(CatalogError::Twice {
            first: 0,
            second: 2
        })
    );
    let many = vec![in alloc; entry(1); 1025]?;
    let refused = Catalog::build(alloc, &many);
    check_eq!(rt; refused.err(), Some(CatalogError::TooMany { count: 1025 }));
    let one = Catalog::build(alloc, &[entry(9)])?;
    let blocks = [
        one.blocks(RelNo(0), Fork::Main),
        one.blocks(RelNo(1), Fork::Main),
    ];
    check_eq!(rt; (one.len(), blocks), (1, [7, 0]));
    Ok(())
}
