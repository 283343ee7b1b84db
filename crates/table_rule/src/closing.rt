//! What comes back out of a table that is closed.
//!
//! The list of lanes has a slot of its own, and comes back with the lanes in it: closing takes no
//! memory. By then the first backend has taken in all others and holds nothing, so every value is
//! home.
ghost use Rattle.std.specs.Prelude.{◌≡◌, ◌≤◌, [], List, Vec, length, vec_capacity};
ghost use Rattle.std.specs.Global.{Global};
ghost use Rattle.std.specs.Slots.{IsFull, slots_items};
ghost use Rattle.table_rule.specs.declared.noted_log.NotedLog.{NotedLog};
ghost use Rattle.table_rule.specs.Laid.{EndsWith, lanes_among};

use crate::build::put;
use crate::value::Value;
use atomic_table::Closed;
use std::alloc::Global;

/// The devices come back out of the slots of a table that is closed.
pub fn take_closed<L, G>(mut closed: Closed<Value<L, G>, Global>) -> (Vec<L>, G)
    requires full { IsFull closed.slots }
    requires ends { (g : NotedLog G) × (list : Vec L Global)
        × EndsWith g list (slots_items closed.slots) × (list.items ≡ [])
        × (length (lanes_among (slots_items closed.slots)) ≤ vec_capacity list) }
    ensures { (g : NotedLog G) × (list : Vec L Global) × EndsWith g list (slots_items closed.slots)
        × (result.0.items ≡ lanes_among (slots_items closed.slots)) × (result.1 ≡ g.device) }
{
    let mut left = closed.slot_count();
    left -= 1;
    let mut lanes = match closed.take(left) {
        Value::Lanes(lanes) => lanes,
        _other => unreachable!(),
    };
    left -= 1;
    let log = match closed.take(left) {
        Value::Log(log) => log.into_device(),
        _other => unreachable!(),
    };
    while left > 0 {
        left -= 1;
        match closed.take(left) {
            Value::Page(page) => drop(page),
            Value::Map(map) => drop(map),
            Value::Away => {}
            Value::Lane(lane) => put(&mut lanes, lane.into_device()),
            Value::Log(_other) => unreachable!(),
            Value::Lanes(_other) => unreachable!(),
        }
    }
    closed.free();
    lanes.reverse();
    (lanes, log)
}
