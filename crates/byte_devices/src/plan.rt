//! Calls that are to fail, for the forms in memory.
ghost use Rattle.std.specs.Prelude.{◌≡◌, IfOk};
ghost use Rattle.byte_devices.specs.Plan.{after_call, fails_next, fresh_plan};

use std::alloc::{AllocError, Global};
use std::marker::Model;

/// Calls of one kind, some of which are to fail: those of these numbers, from 1 on.
#[derive(Drop)]
pub struct FaultPlan {
    calls: u64,
    failing: Vec<u64>,
}

impl Model for FaultPlan {
    ghost use Rattle.byte_devices.specs.Plan.{Plan};

    ghost Value = { Plan };

    ghost view = { λ p. record { calls = p.calls; failing = p.failing.items } };
}

impl FaultPlan {
    pub fn new(failing: Vec<u64>) -> FaultPlan
        ensures { result ≡ record { calls = 0; failing = failing.items } }
    {
        FaultPlan { calls: 0, failing }
    }

    /// A plan of the same calls to fail, with no call made.
    pub fn fresh(&self, alloc: Global) -> Result<FaultPlan, AllocError>
        ensures { IfOk result (λ plan. plan ≡ fresh_plan self.now) }
    {
        let failing = self.failing.as_slice().to_vec(alloc)?;
        Ok(FaultPlan::new(failing))
    }

    /// Counts a call, and says whether it is to fail.
    pub fn fails(&mut self) -> bool
        ensures answer { result ≡ fails_next self.old }
        ensures counted { self.new ≡ after_call self.old }
    {
        self.calls = self.calls.saturating_add(1);
        self.failing.contains(&self.calls)
    }
}
