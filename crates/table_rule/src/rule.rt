//! The rule of the table.
use crate::opening::Opening;
use crate::value::Value;
use atomic_table::TableRule;
use byte_devices::LogDevice;
use pin_core::View;
use segment_store::BlockLane;

/// Its words, slots and views show a state that has the law of `history_core`.
pub struct Rule;

impl<L: BlockLane, G: LogDevice> TableRule<Value<L, G>, View, Opening<L, G>> for Rule {
    ghost use Rattle.table_rule.specs.Shows.{RuleHolds, devices, starting};

    ghost holds = { RuleHolds (devices L.BlockLane G.LogDevice) };

    ghost first = { starting };
}
