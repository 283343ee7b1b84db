//! Rounds of the background writer beside a job.
ghost use Rattle.std.specs.Prelude.{◌≡◌};
ghost use Rattle.relation_commands.specs.Rounds.{MakesRounds};

use backend_pass::{FlushError, Manager, Pass};
use bg_writer::round;
use byte_devices::LogDevice;
use page_jobs::Beside;
use segment_store::BlockLane;
use std::sync::Wait;

/// This many rounds of the background writer.
#[derive(Drop)]
pub(crate) struct Rounds {
    count: u32,
}

impl Rounds {
    pub(crate) fn new(count: u32) -> Rounds
        ensures { result.count ≡ count }
    {
        Rounds { count }
    }
}

impl<L: BlockLane, G: LogDevice> Beside<L, G> for Rounds {
    ghost works = { λ m rounds _ p q end. MakesRounds L.contents m rounds.count p q end };

    fn work<R: Wait>(
        &mut self,
        manager: &Manager<L, G>,
        rt: &R,
        pass: &mut Pass,
    ) -> Result<(), FlushError> {
        for _ in 0..self.count {
            match round(manager, rt, pass) {
                Ok(_done) => {}
                Err(why) => return Err(why),
            }
        }
        Ok(())
    }
}
