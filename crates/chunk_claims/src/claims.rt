//! The table.
//!
//! Chunks are claimed, not dealt out beforehand: a slow lane or thread holds up one chunk, not a
//! whole part. Which worker gets which chunk depends on the schedule; that each chunk is claimed
//! once doesn't. No contract excludes that one worker claims them all.
ghost use Rattle.std.specs.Prelude.{◌≡◌, ℕ, ◌+◌, ◌-◌, ◌<◌, ◌≤◌, ◌^◌, [], IfOk, IfSome, IfNone};
ghost use Rattle.grid.specs.Shape.{total};
ghost use Rattle.chunk_claims.specs.Claims.{SitsAt, first_claimant, joined_claimants, less_a_part};
ghost use Rattle.chunk_claims.specs.Claims.{sum_below, with_draw, with_one_part};

use crate::claimant::Claimant;
use crate::plays::{Both, ClaimsLaw, Count, Draw, Part};
use atomic_table::{Seat, Table};
use std::alloc::{AllocError, Global};

/// How many chunks there are, and how many workers claim them.
#[derive(Drop)]
pub struct Work {
    pub chunks: u64,
    pub workers: u64,
}

/// The chunks of some work. Each worker that claims them has a seat.
#[derive(Drop)]
pub struct Claims {
    table: Table<(), Claimant, Work, ClaimsLaw, Global>,
    chunks: u64,
    workers: u64,
    pub ghost known: { (chunks ≡ table.shared.key.chunks) × (workers ≡ table.shared.key.workers) },
    pub ghost one: { table.shared.table_id.words ≡ 1 },
}

impl Claims {
    /// The claims of this many chunks, none claimed yet, and a seat that has the parts of all
    /// workers.
    pub fn build(
        alloc: Global,
        chunks: u32,
        workers: u32,
    ) -> Result<(Claims, Seat<(), Claimant>), AllocError>
        ensures { IfOk result (λ c. (c.0.chunks ≡ chunks) × (c.0.workers ≡ workers)
            × (c.1.table_id ≡ c.0.table.shared.table_id)
            × (c.1.me ≡ (first_claimant record { chunks = chunks; workers = workers }, []))) }
    {
        let work = Work {
            chunks: u64::from(chunks),
            workers: u64::from(workers),
        };
        let (table, seat) = Table::of_words(alloc, &[0], &work)?;
        Ok((
            Claims {
                table,
                chunks: u64::from(chunks),
                workers: u64::from(workers),
            },
            seat,
        ))
    }

    /// A seat for a worker, with its part.
    pub fn split(&self, seat: &mut Seat<(), Claimant>) -> Seat<(), Claimant>
        requires seat { SitsAt self.now.table.shared.table_id seat.old }
        requires part { (0 < seat.old.me.0.parts) × (seat.old.me.0.past ≡ 0)
            × (seat.old.me.0.drawn ≡ []) }
        ensures seat { SitsAt self.now.table.shared.table_id seat.new }
        ensures left { seat.new.me.0 ≡ less_a_part seat.old.me.0 }
        ensures new { SitsAt self.now.table.shared.table_id result }
        ensures right { result.me.0 ≡ with_one_part seat.old.me.0 }
    {
        self.table.shared.split_seat::<Part>(seat)
    }

    /// A worker gives its seat back.
    pub fn join(&self, seat: &mut Seat<(), Claimant>, other: Seat<(), Claimant>)
        requires seat { SitsAt self.now.table.shared.table_id seat.old }
        requires other { SitsAt self.now.table.shared.table_id other × (0 < other.me.0.parts) }
        ensures seat { SitsAt self.now.table.shared.table_id seat.new }
        ensures both { seat.new.me.0 ≡ joined_claimants seat.old.me.0 other.me.0 }
    {
        self.table.shared.join_seat::<Both>(seat, other);
    }

    fn draw(&self, seat: &mut Seat<(), Claimant>) -> u64
        requires seat { SitsAt self.now.table.shared.table_id seat.old }
        requires part { seat.old.me.0.past < seat.old.me.0.parts }
        ensures seat { SitsAt self.now.table.shared.table_id seat.new }
        ensures drawn { seat.new.me.0 ≡ with_draw result seat.old.me.0 }
        ensures once { (g : ℕ → ℕ) → total g seat.new.me.0.drawn ≤ sum_below (result + 1) g }
    {
        self.table.shared.fetch_add::<Draw>(seat, 0, 1)
    }

    /// The next chunk, which is the worker's from now on; none if all chunks are claimed, after
    /// which the worker claims no more.
    pub fn claim(&self, seat: &mut Seat<(), Claimant>) -> Option<u32>
        requires seat { SitsAt self.now.table.shared.table_id seat.old }
        requires part { seat.old.me.0.past < seat.old.me.0.parts }
        requires few { self.now.chunks < 2 ^ 32 }
        requires known { seat.old.me.0.chunks ≡ self.now.chunks }
        ensures seat { SitsAt self.now.table.shared.table_id seat.new }
        ensures some { IfSome result
            (λ n. (n < self.now.chunks) × (seat.new.me.0 ≡ with_draw n seat.old.me.0)) }
        ensures none { IfNone result
            ((n : ℕ) × (self.now.chunks ≤ n) × (seat.new.me.0 ≡ with_draw n seat.old.me.0)) }
        // What a seat claimed is at most what there is up to this chunk, however chunks are
        // weighed; so this chunk comes after those that it claimed before.
        ensures within { IfSome result
            (λ n. (g : ℕ → ℕ) → total g seat.new.me.0.drawn ≤ sum_below (n + 1) g) }
    {
        let number = self.draw(seat);
        if number < self.chunks {
            Some(number as u32)
        } else {
            None
        }
    }

    /// How many numbers were drawn: as many as this seat drew at least, and at most one by each
    /// worker after the last chunk. A seat that has the parts of all workers drew them all, each
    /// once.
    pub fn claimed(&self, seat: &mut Seat<(), Claimant>) -> u64
        requires seat { SitsAt self.now.table.shared.table_id seat.old }
        ensures same { seat.new.me ≡ seat.old.me }
        ensures seat { SitsAt self.now.table.shared.table_id seat.new }
        ensures least { (g : ℕ → ℕ) → total g seat.old.me.0.drawn ≤ sum_below result g }
        ensures bound { 0 < seat.old.me.0.parts
            → result ≤ seat.old.me.0.chunks + seat.old.me.0.workers }
        ensures each { 0 < seat.old.me.0.parts → seat.old.me.0.parts ≡ seat.old.me.0.workers
            → (g : ℕ → ℕ) → total g seat.old.me.0.drawn ≡ sum_below result g }
    {
        self.table.shared.load::<Count>(seat, 0)
    }
}
