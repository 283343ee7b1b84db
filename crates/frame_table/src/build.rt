//! A table is built, and closed.
ghost use Rattle.std.specs.Prelude.{◌≡◌, ◌≤◌, [], length, IfOk, IfErr};
ghost use Rattle.history_core.specs.State.{last_position};
ghost use Rattle.table_rule.specs.Shows.{AreLanes, IsNewLog, devices, starting};
ghost use Rattle.frame_table.specs.Closes.{CanClose, Closes};
ghost use Rattle.frame_table.specs.Seats.{Fits, IsIdle};

use crate::table::{BuildRefused, FrameTable};
use atomic_table::{Refused, Seat, Table};
use block_tag::Catalog;
use byte_devices::LogDevice;
use pin_core::View;
use segment_store::BlockLane;
use std::alloc::Global;
use std::snapshot::Snapshot;
use table_rule::{
    Config, OTHER_SLOTS, Opening, Room, Value, opening_words, take_back, take_closed,
};

impl<L: BlockLane, G: LogDevice> FrameTable<L, G> {
    /// The table of these relations and devices, over a log that begins at `base`, with a seat for
    /// the first backend. Fails only when it is out of memory, and gives the devices back then. A
    /// known lane holds its blocks and no last write of these has failed: by the law such a block
    /// would have a dirty frame. A known log has just its head.
    pub fn build(
        alloc: Global,
        config: Config,
        catalog: Catalog,
        lanes: Vec<L>,
        log: G,
        base: u64,
    ) -> Result<(FrameTable<L, G>, Seat<Value<L, G>, View>), BuildRefused<L, G>>
        requires frames { (1 ≤ config.frames) × (config.frames ≤ 4096) }
        requires backends { (1 ≤ config.passes) × (config.passes ≤ 64) }
        requires lanes { (1 ≤ config.lanes) × (config.lanes ≤ 16)
            × (length lanes.items ≡ config.lanes) }
        requires base { base ≤ last_position }
        requires devices { AreLanes (devices L.BlockLane G.LogDevice) catalog lanes.items }
        requires log { IsNewLog (devices L.BlockLane G.LogDevice) base log }
        ensures key { IfOk result (λ t. (t.0.table.shared.key.config ≡ config)
            × (t.0.table.shared.key.catalog.value ≡ catalog)
            × (t.0.table.shared.key.lanes.value ≡ lanes) × (t.0.table.shared.key.log.value ≡ log)
            × (t.0.table.shared.key.base ≡ base)) }
        ensures seat { IfOk result (λ t. Fits t.0 t.1 × (t.1.id ≡ 0)
            × (t.1.me ≡ (starting t.0.table.shared.key, []))) }
        ensures rest { IfOk result (λ t. IsIdle t.1.me.0) }
        ensures back { IfErr result (λ r. (r.lanes.items ≡ lanes.items) × (r.log ≡ log)) }
    {
        let Ok(words) = opening_words(alloc, config.frames, base) else {
            return Err(BuildRefused { lanes, log });
        };
        let Ok(room) = Room::take(alloc, config.frames) else {
            return Err(BuildRefused { lanes, log });
        };
        let Ok(mut slots) = Vec::with_capacity(alloc, config.frames as usize + OTHER_SLOTS) else {
            return Err(BuildRefused { lanes, log });
        };
        let opening = Opening {
            config,
            catalog: Snapshot::of(&catalog),
            lanes: Snapshot::of(&lanes),
            log: Snapshot::of(&log),
            base,
        };
        room.lay(&mut slots, lanes, log, config.frames);
        match Table::new(alloc, &words, slots, &opening) {
            Ok((table, seat)) => Ok((
                FrameTable {
                    table,
                    config,
                    catalog,
                },
                seat,
            )),
            Err(Refused { slots }) => {
                let (lanes, log) = take_back(slots);
                Err(BuildRefused { lanes, log })
            }
        }
    }

    /// The devices come back, once the first backend holds nothing and has taken in all others.
    pub fn close(self, seat: Seat<Value<L, G>, View>) -> (Vec<L>, G)
        requires { CanClose self seat }
        ensures { Closes (devices L.BlockLane G.LogDevice) self.table.shared.key seat.me.0
            result.0.items result.1 }
    {
        let FrameTable {
            table,
            config: _config,
            catalog: _catalog,
        } = self;
        take_closed(table.close_with(seat))
    }
}
