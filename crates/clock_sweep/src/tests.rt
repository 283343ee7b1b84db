//! The free list alone: its order, what it refuses, and that each frame is taken once.
ghost use Rattle.clock_sweep.specs.FreeLists.{IsOfSweep};

use crate::checks::{check, check_eq};
use crate::free_list::QueuePass;
use crate::sweep::Sweep;
use std::sync::Wait;
use std::test::Fail;
use std::thread::join;

#[test]
fn frames_are_free_in_order(rt: HostRuntime) -> Result<(), Fail> {
    let (sweep, mut pass) = Sweep::build(rt.alloc(), 3)?;
    check_eq!(rt; sweep.take(&rt, &mut pass), Some(0));
    check_eq!(rt; sweep.take(&rt, &mut pass), Some(1));
    check_eq!(rt; sweep.take(&rt, &mut pass), Some(2));
    check_eq!(rt; sweep.take(&rt, &mut pass), None);
    Ok(())
}

#[test]
fn a_freed_frame_is_the_last(rt: HostRuntime) -> Result<(), Fail> {
    let (sweep, mut pass) = Sweep::build(rt.alloc(), 3)?;
    check_eq!(rt; sweep.take(&rt, &mut pass), Some(0));
    check!(rt; sweep.free(&rt, &mut pass, 0));
    check_eq!(rt; sweep.take(&rt, &mut pass), Some(1));
    check_eq!(rt; sweep.take(&rt, &mut pass), Some(2));
    check_eq!(rt; sweep.take(&rt, &mut pass), Some(0));
    check_eq!(rt; sweep.take(&rt, &mut pass), None);
    Ok(())
}

#[test]
fn a_full_list_takes_no_frame(rt: HostRuntime) -> Result<(), Fail> {
    let (sweep, mut pass) = Sweep::build(rt.alloc(), 2)?;
    check!(rt; !sweep.free(&rt, &mut pass, 1));
    check_eq!(rt; sweep.take(&rt, &mut pass), Some(0));
    check!(rt; sweep.free(&rt, &mut pass, 0));
    check!(rt; !sweep.free(&rt, &mut pass, 1));
    Ok(())
}

#[test]
fn a_frame_may_be_listed_twice(rt: HostRuntime) -> Result<(), Fail> {
    let (sweep, mut pass) = Sweep::build(rt.alloc(), 2)?;
    check_eq!(rt; sweep.take(&rt, &mut pass), Some(0));
    check!(rt; sweep.free(&rt, &mut pass, 1));
    check_eq!(rt; sweep.take(&rt, &mut pass), Some(1));
    check_eq!(rt; sweep.take(&rt, &mut pass), Some(1));
    check_eq!(rt; sweep.take(&rt, &mut pass), None);
    Ok(())
}

/// What a pass took: how many frames, their sum, and that of their squares.
#[derive(Clone, Copy, PartialEq, Debug)]
struct Taken {
    count: u64,
    sum: u64,
    squares: u64,
}

impl Taken {
    fn and(self, other: Taken) -> Taken {
        Taken {
            count: self.count.saturating_add(other.count),
            sum: self.sum.saturating_add(other.sum),
            squares: self.squares.saturating_add(other.squares),
        }
    }
}

/// What a pass takes by so many tries.
fn take_often<R: Wait>(rt: &R, sweep: &Sweep, mut pass: QueuePass, tries: u32) -> (Taken, QueuePass)
    requires { IsOfSweep sweep.now pass }
    ensures { IsOfSweep sweep.now result.1 }
{
    let mut taken = Taken {
        count: 0,
        sum: 0,
        squares: 0,
    };
    for _turn in 0..tries {
        if let Some(frame) = sweep.take(rt, &mut pass) {
            let frame = u64::from(frame);
            taken = taken.and(Taken {
                count: 1,
                sum: frame,
                squares: frame.saturating_mul(frame),
            });
        }
    }
    (taken, pass)
}

/// A frame that is taken twice in another's place would change one of the sums.
#[test]
fn two_threads_take_each_frame_once(rt: HostRuntime) -> Result<(), Fail> {
    let (sweep, mut mine) = Sweep::build(rt.alloc(), 100)?;
    let theirs = sweep.split(&mut mine);
    let list = &sweep;
    let (first, second) = join(
        &rt,
        move ||
            requires { IsOfSweep list.now mine }
        { take_often(&rt, list, mine, 100).0 },
        move ||
            requires { IsOfSweep list.now theirs }
        { take_often(&rt, list, theirs, 100).0 },
    );
    let each_once = Taken {
        count: 100,
        sum: 4950,
        squares: 328_350,
    };
    check_eq!(rt; first.and(second), each_once);
    Ok(())
}
