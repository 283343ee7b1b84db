//! A manager.
ghost use Rattle.std.specs.Prelude.{◌≡◌, ◌≤◌, ◌%◌, length, None, IfErr, IfOk, unwrap_or};
ghost use Rattle.history_core.specs.State.{last_position};
ghost use Rattle.table_rule.specs.Shows.{AreLanes, IsNewLog, devices};
ghost use Rattle.frame_table.specs.Seats.{frames_of};
ghost use Rattle.backend_pass.specs.declared.errors.StartError.TheVariants as why;
ghost use Rattle.backend_pass.specs.Starting.{start_refusal};

use crate::closing::{join_all, place_of_first};
use crate::errors::{Setting, StartError, StartRefused};
use crate::pass::Pass;
use crate::pool_memory::PoolMemory;
use crate::seating::seat_passes;
use block_tag::Catalog;
use byte_devices::LogDevice;
use clock_sweep::Sweep;
use frame_table::{BuildRefused, Config, FrameTable};
use io_counts::{ByContext, IoCounts};
use segment_store::BlockLane;
use std::alloc::Global;

/// The manager of a pool of buffers, which the passes share. A pool has 16 to 4096 frames.
pub struct Manager<L: BlockLane, G: LogDevice> {
    pub(crate) table: FrameTable<L, G>,
    pub(crate) sweep: Sweep,
    pub ghost sized: { (16 ≤ frames_of table) × (frames_of table ≤ 4096) },
}

/// What a configuration is refused for, given this many lanes.
fn refusal(config: &Config, given: usize) -> Option<StartError>
    ensures { result ≡ start_refusal config.now given }
{
    if !(16..=4096).contains(&config.frames) {
        return Some(StartError::BadConfig {
            which: Setting::Frames,
            number: config.frames,
        });
    }
    if !(1..=64).contains(&config.passes) {
        return Some(StartError::BadConfig {
            which: Setting::Passes,
            number: config.passes,
        });
    }
    if !(1..=16).contains(&config.lanes) {
        return Some(StartError::BadConfig {
            which: Setting::Lanes,
            number: config.lanes,
        });
    }
    if config.lanes as usize != given {
        return Some(StartError::LanesDiffer {
            wanted: config.lanes,
            given,
        });
    }
    None
}

impl<L: BlockLane, G: LogDevice> Manager<L, G> {
    ghost use Rattle.std.specs.Prelude.{vec_len};
    ghost use Rattle.io_counts.specs.Additions.{io_counters};
    ghost use Rattle.io_counts.specs.Sums.{AreAllSmall, io_shown};
    ghost use Rattle.backend_pass.specs.Managers.{AreAll, AreNewPasses, OpenedWith};
    ghost use Rattle.backend_pass.specs.Closing.{ClosesAll, EachPass};
    ghost use Rattle.backend_pass.specs.Counts.{io_in_all};
    ghost use Rattle.backend_pass.specs.Passes.{taken_in};

    /// Starts a manager of these relations and devices, over a log that begins at `base`, and
    /// returns it with all its passes, in the order of their numbers. A refusal returns the
    /// devices, of which none was called.
    pub fn start(
        alloc: Global,
        config: Config,
        catalog: Catalog,
        lanes: Vec<L>,
        log: G,
        base: u64,
    ) -> Result<(Manager<L, G>, Vec<Pass>), StartRefused<L, G>>
        requires base { (base % 8 ≡ 0) × (base ≤ last_position) }
        requires devices { AreLanes (devices L.BlockLane G.LogDevice) catalog lanes.items }
        requires log { IsNewLog (devices L.BlockLane G.LogDevice) base log }
        ensures fits { IfOk result (λ _. start_refusal config (length lanes.items) ≡ None) }
        ensures refused { IfErr result
            (λ r. r.why ≡ unwrap_or (start_refusal config (length lanes.items)) why.Memory) }
        ensures back { IfErr result (λ r. (r.lanes.items ≡ lanes.items) × (r.log ≡ log)) }
        ensures opened { IfOk result (λ m. OpenedWith config catalog lanes log base m.0) }
        ensures passes { IfOk result (λ m. AreNewPasses L.contents m.0 config.passes m.1.items) }
    {
        if let Some(why) = refusal(&config, lanes.len()) {
            return Err(StartRefused { why, lanes, log });
        }
        let Ok(memory) = PoolMemory::take(alloc, config.frames, config.passes) else {
            return Err(StartRefused {
                why: StartError::Memory,
                lanes,
                log,
            });
        };
        match FrameTable::build(alloc, config, catalog, lanes, log, base) {
            Ok((table, seat)) => {
                let PoolMemory {
                    sweep,
                    queue,
                    memories,
                    passes,
                } = memory;
                let manager = Manager { table, sweep };
                let passes = seat_passes(
                    &manager,
                    seat,
                    queue,
                    memories,
                    passes,
                    config.passes,
                    base,
                );
                Ok((manager, passes))
            }
            Err(BuildRefused { lanes, log }) => {
                memory.spend();
                Err(StartRefused {
                    why: StartError::Memory,
                    lanes,
                    log,
                })
            }
        }
    }

    /// Takes all passes, which have no tokens, in any order, and returns the devices. The calls of
    /// the first pass, then those of the others in the order of the list, are one history of the
    /// log.
    pub fn close(self, mut passes: Vec<Pass>) -> (Vec<L>, G)
        requires { AreAll self passes.items }
        ensures { ClosesAll (devices L.BlockLane G.LogDevice) self.table.table.shared.key
            passes.items result.0.items result.1 }
    {
        let place = place_of_first(&passes);
        let (mut seat, mut queue) = passes.remove(place).leave();
        join_all(&self, &mut seat, &mut queue, passes);
        let Manager { table, sweep } = self;
        sweep.close(queue);
        table.close(seat)
    }

    /// Publishes what the passes have counted and not yet published, and closes. With the devices
    /// come the sums of what the passes have counted, each a number of events, unless a pass's
    /// count of them stood at its last value. It takes no memory.
    pub fn close_counted(self, mut passes: Vec<Pass>) -> (Vec<L>, G, IoCounts)
        requires all { AreAll self passes.items }
        requires few { vec_len passes ≤ 64 }
        ensures closes { ClosesAll (devices L.BlockLane G.LogDevice) self.table.table.shared.key
            passes.items result.0.items result.1 }
        ensures counts { result.2 ≡ io_shown (io_in_all passes.items) }
        ensures small { AreAllSmall (io_in_all passes.items) }

        // If no eviction and no reuse is counted, no pass took a tag from a frame.
        ensures taken { taken_in (io_in_all passes.items) ≡ 0
            → EachPass (λ p. p.view.cleared ≡ 0) passes.items }

        // The state that the table is closed in has these sums in its counters: what was left to
        // publish is published.
        ensures published { (x : ClosesAll (devices L.BlockLane G.LogDevice)
            self.table.table.shared.key passes.items result.0.items result.1)
            × (io_counters x.state.counter ≡ io_in_all passes.items) }
    {
        let mut io = ByContext::none();
        for pass in passes.iter_mut() {
            pass.sum_up(&self.table, &mut io);
        }
        let (lanes, log) = self.close(passes);
        (lanes, log, io.shown())
    }
}
