//! State words worked out by hand from the table of `buf_internals.h`.
#![tactic(auto, unfolding(state_word::specs::Fields::fields))]

use crate::checks::check_eq;
use state_word::{
    Flag, IoEnd, assigned, checkpoint_needed, cleared, dirtied, fields_fix_the_word, has, io_ended,
    io_started, just_dirtied_cleared, locked, pinned, pins, unlock_with, unpinned, usage,
    usage_down, waiter, waiter_cleared, waiter_set,
};

static FLAGS: [(Flag, bool); 10] = [
    (Flag::Locked, false),
    (Flag::Dirty, false),
    (Flag::Valid, true),
    (Flag::TagValid, true),
    (Flag::IoInProgress, false),
    (Flag::IoError, false),
    (Flag::JustDirtied, false),
    (Flag::PinCountWaiter, false),
    (Flag::CheckpointNeeded, false),
    (Flag::Permanent, true),
];

#[test]
fn fields_of_a_page_that_was_read_once(rt: HostRuntime) {
    let word = 0x83040001;
    fields_fix_the_word();
    check_eq!(rt; [pins(word), usage(word), waiter(word)], [1, 1, 0]);
    for (flag, wanted) in &FLAGS {
        check_eq!(rt; has(word, *flag), *wanted, "{flag:?}");
    }
}

#[test]
fn pins_raise_the_usage_count_to_five(rt: HostRuntime) {
    let found = [
        pinned(0x83040000, false),
        pinned(0x83140000, false),
        pinned(0x833c0000, false),
    ];
    check_eq!(rt; found, [0x83080001, 0x83140001, 0x833c0001]);
}

#[test]
fn pins_for_a_ring_raise_it_from_zero_alone(rt: HostRuntime) {
    let found = [pinned(0x83000000, true), pinned(0x83040000, true)];
    check_eq!(rt; found, [0x83040001, 0x83040001]);
}

#[test]
fn counts_go_down(rt: HostRuntime) {
    let found = [unpinned(0x83040001), usage_down(0x83140000)];
    check_eq!(rt; found, [0x83040000, 0x83100000]);
}

#[test]
fn a_frame_is_given_a_block_and_read(rt: HostRuntime) {
    let found = [
        locked(0x00000001),
        assigned(0x00400001),
        io_started(0x82440001),
        io_ended(0x86440001, IoEnd::ReadOk),
        unlock_with(0x83440001),
        io_ended(0x86440001, IoEnd::Bad),
    ];
    let wanted = [
        0x00400001, 0x82440001, 0x86440001, 0x83440001, 0x83040001, 0x8a440001,
    ];
    check_eq!(rt; found, wanted);
}

#[test]
fn a_page_is_changed_and_written(rt: HostRuntime) {
    let found = [
        dirtied(0x83040001),
        checkpoint_needed(0x93840001),
        just_dirtied_cleared(0xd3840001),
        io_ended(0xc7840001, IoEnd::WriteOk),
        io_ended(0xd7840001, IoEnd::WriteOk),
        io_ended(0xc7840001, IoEnd::Bad),
    ];
    let wanted = [
        0x93840001, 0xd3840001, 0xc3840001, 0x83040001, 0xd3840001, 0xcb840001,
    ];
    check_eq!(rt; found, wanted);
}

#[test]
fn a_backend_waits_for_the_pins(rt: HostRuntime) {
    let found = [waiter_set(0x83040002, 7), waiter_cleared(0x7_a3040002)];
    check_eq!(rt; found, [0x7_a3040002, 0x83040002]);
    check_eq!(rt; waiter(0x7_a3040002), 7);
}

#[test]
fn a_frame_loses_its_block(rt: HostRuntime) {
    check_eq!(rt; cleared(0x7_ffd40001), 0x7_20400001);
}
