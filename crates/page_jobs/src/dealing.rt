//! Passes become the workers of a job, and are given back.
//!
//! A worker keeps its seat until the job gives its pass back; only then do the claims tell that
//! each chunk was claimed once. Totals are added before that, when only the number of workers
//! bounds their sum: `add` takes up to 2^40 blocks, and no fork has more than 2^32.
ghost use Rattle.std.specs.Prelude.{◌≡◌, ℕ, ◌<◌, ◌≤◌, ◌^◌, [], All, IfOk, OnErr, OnOk, map};
ghost use Rattle.std.specs.Prelude.{vec_capacity, vec_len};
ghost use Rattle.grid.specs.Shape.{total};
ghost use Rattle.chunk_claims.specs.Claims.{SitsAt};
ghost use Rattle.page_jobs.specs.declared.working.Worker.{Worker};
ghost use Rattle.page_jobs.specs.Dealt.{AreDealt, HasWorkedSeat, HaveJoined, IsDealing};
ghost use Rattle.page_jobs.specs.Dealt.{total_drawn};

use crate::working::{JobTask, Worker};
use atomic_table::Seat;
use backend_pass::Pass;
use chunk_claims::{Claimant, Claims};
use std::alloc::{AllocError, Global};

/// Each pass becomes a worker, with a seat and a task of its own. The passes' room stays, and the
/// first seat is left with no part.
pub(crate) fn deal<K: JobTask>(
    alloc: Global,
    claims: &Claims,
    seat: &mut Seat<(), Claimant>,
    passes: &mut Vec<Pass>,
    task: &mut K,
) -> Result<Vec<Worker<K>>, AllocError>
    requires few { vec_len passes.old < 2 ^ 16 }
    requires seat { SitsAt claims.now.table.shared.table_id seat.old × IsDealing claims.now.chunks
        claims.now.workers (vec_len passes.old) seat.old.me.0 }
    requires deals { K.deals (vec_len passes.old) task.old }
    ensures dealt { IfOk result
        (λ workers. AreDealt (K.begins task.old) claims.now 0 passes.old.items workers.items
        × (passes.new.items ≡ []) × (vec_len workers ≡ vec_len passes.old)) }
    ensures seat { IfOk result (λ _. SitsAt claims.now.table.shared.table_id seat.new
        × IsDealing claims.now.chunks claims.now.workers 0 seat.new.me.0) }
    ensures deals { OnOk result (K.deals 0 task.new) }
    ensures refused { OnErr result ((passes.new.items ≡ passes.old.items) × (task.new ≡ task.old)) }
    ensures capacity { vec_capacity passes.new ≡ vec_capacity passes.old }
{
    let mut workers = Vec::with_capacity(alloc, passes.len())?;
    while let Some(pass) = passes.pop() {
        let number = passes.len() as u32;
        workers.push_reserved(Worker {
            number,
            pass,
            seat: claims.split(seat),
            task: task.begin(alloc),
            end: Ok(()),
        });
    }
    workers.reverse();
    Ok(workers)
}

/// The workers end, and give their passes, seats and tasks back.
pub(crate) fn gather<K: JobTask>(
    claims: &Claims,
    seat: &mut Seat<(), Claimant>,
    mut workers: Vec<Worker<K>>,
    passes: &mut Vec<Pass>,
    task: &mut K,
)
    requires seat { SitsAt claims.now.table.shared.table_id seat.old × IsDealing claims.now.chunks
        claims.now.workers 0 seat.old.me.0 }
    requires seats { All (HasWorkedSeat claims.now) workers.items }
    requires none { passes.old.items ≡ [] }
    requires room { vec_len workers ≤ vec_capacity passes.old }
    ensures passes { passes.new.items ≡ map (λ (w : Worker K). w.pass) workers.items }
    ensures capacity { vec_capacity passes.new ≡ vec_capacity passes.old }
    ensures seat { SitsAt claims.now.table.shared.table_id seat.new }
    ensures parts { (seat.new.me.0.parts ≡ vec_len workers)
        × (seat.new.me.0.workers ≡ claims.now.workers) }
    ensures drawn { (g : ℕ → ℕ) → total g seat.new.me.0.drawn ≡ total_drawn g workers.items }
    ensures joined { HaveJoined K.joins workers.items task.old task.new }
{
    while let Some(worker) = workers.pop() {
        let Worker {
            number: _,
            pass,
            seat: worker_seat,
            task: worker_task,
            end: _,
        } = worker;
        claims.join(seat, worker_seat);
        task.join(worker_task);
        passes.push_reserved(pass);
    }
    workers.destroy_empty();
    passes.reverse();
}
