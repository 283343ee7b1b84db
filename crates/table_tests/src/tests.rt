//! Tables that are built and closed.
use crate::checks::check_eq;
use crate::fixture::table;
use crate::freeing::{Freed, free_by_another};
use crate::hinting::{Sighted, sight_by_two};
use crate::pinning::{refusal, refusal_of_two};
use crate::positions::positions;
use crate::values::count_entries;
use buffer_frames::HintSeen;
use frame_table::TryPin;
use std::test::Fail;

#[test]
fn a_fresh_frame_has_no_tag(rt: HostRuntime) -> Result<(), Fail> {
    let (table, mut seat) = table(rt.alloc())?;
    let refused = refusal(&table, &rt, &mut seat, 3);
    let (lanes, _log) = table.close(seat);
    check_eq!(rt; refused, Some(TryPin::Untagged { word: 0 }));
    check_eq!(rt; lanes.len(), 1);
    Ok(())
}

#[test]
fn a_header_that_another_has_is_locked(rt: HostRuntime) -> Result<(), Fail> {
    let (table, mut first) = table(rt.alloc())?;
    let refused = refusal_of_two(&table, &rt, &mut first, 3);
    let (_lanes, _log) = table.close(first);
    check_eq!(rt; refused, Some(TryPin::Locked { word: 4194304 }));
    Ok(())
}

/// A list of 16 frames has no room for one of them, until a victim is taken from it.
#[test]
fn a_victim_is_free_again(rt: HostRuntime) -> Result<(), Fail> {
    let (table, mut seat) = table(rt.alloc())?;
    let freed = free_by_another(&table, &rt, &mut seat, rt.alloc());
    let (_lanes, _log) = table.close(seat);
    let first = Freed {
        frame: 0,
        pushed: true,
    };
    check_eq!(rt; freed?, (false, Some(first)));
    Ok(())
}

/// A read whose hint can't be used comes into the first free frame.
#[test]
fn a_hint_at_a_frame_without_a_tag_is_passed_over(rt: HostRuntime) -> Result<(), Fail> {
    let (table, mut seat) = table(rt.alloc())?;
    let sighted = sight_by_two(&table, &rt, &mut seat, rt.alloc(), 4, 3);
    let (_lanes, _log) = table.close(seat);
    check_eq!(rt;
        sighted?,
        Sighted {
            hint: HintSeen::Untagged { word: 0 },
            frame: Some(0)
        }
    );
    Ok(())
}

#[test]
fn a_hint_at_a_locked_frame_is_passed_over(rt: HostRuntime) -> Result<(), Fail> {
    let (table, mut seat) = table(rt.alloc())?;
    let sighted = sight_by_two(&table, &rt, &mut seat, rt.alloc(), 3, 3);
    let (_lanes, _log) = table.close(seat);
    check_eq!(rt;
        sighted?,
        Sighted {
            hint: HintSeen::Locked { word: 4194304 },
            frame: Some(0)
        }
    );
    Ok(())
}

#[test]
fn a_fresh_map_is_empty_and_has_room_for_each_frame(rt: HostRuntime) -> Result<(), Fail> {
    let (table, mut seat) = table(rt.alloc())?;
    let counts = count_entries(&table, &rt, &mut seat, 127);
    let (_lanes, _log) = table.close(seat);
    check_eq!(rt; counts, (0, 16));
    Ok(())
}

#[test]
fn a_log_begins_flushed_up_to_its_base(rt: HostRuntime) -> Result<(), Fail> {
    let (table, mut seat) = table(rt.alloc())?;
    let positions = positions(&table, &mut seat);
    let (_lanes, _log) = table.close(seat);
    check_eq!(rt; positions, (8, 8));
    Ok(())
}
