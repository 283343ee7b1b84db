//! Counts as they are shown.
ghost use Rattle.std.specs.Prelude.{◌≡◌, ◌<◌, ◌^◌, sum};

use crate::contexts::{ByContext, ContextCounts};

/// The counts of hits, reads, writes and victims, each by its context: without a ring, bulk reads,
/// bulk writes, vacuum.
#[derive(Clone, Copy, PartialEq, Eq, Debug)]
pub struct IoCounts {
    /// Answers of `read_buffer` with a block whose page was in the pool, further tokens among them.
    pub hits: [u64; 4],
    /// Pages that lanes gave, sound or not.
    pub reads: [u64; 4],
    /// Pages that lanes took.
    pub writes: [u64; 4],
    /// Tags that victims lost which weren't at rings' current places, even if the victim was lost
    /// then.
    pub evictions: [u64; 4],
    /// Tags that victims at rings' current places lost, even if the victim was lost then.
    pub reuses: [u64; 4],
}

/// The counts of all contexts together.
#[derive(Clone, Copy, PartialEq, Eq, Debug)]
pub struct IoSums {
    pub hits: u64,
    pub reads: u64,
    pub writes: u64,
    pub evictions: u64,
    pub reuses: u64,
}

impl ContextCounts {
    ghost use Rattle.io_counts.specs.Counts.{counts_sum};
    ghost use Rattle.io_counts.specs.Sums.{AreSmall};

    /// The sum of two backends' counts.
    fn add(&mut self, other: &ContextCounts)
        requires own { AreSmall self.old }
        requires other { AreSmall other.now }
        ensures { self.new ≡ counts_sum self.old other.now }
    {
        self.hits += other.hits;
        self.reads += other.reads;
        self.writes += other.writes;
        self.evictions += other.evictions;
        self.reuses += other.reuses;
    }
}

impl ByContext {
    ghost use Rattle.io_counts.specs.Sums.{AreAllSmall, io_shown, io_sum};

    /// Adds another backend's counts.
    pub fn add(&mut self, other: &ByContext)
        requires own { AreAllSmall self.old }
        requires other { AreAllSmall other.now }
        ensures { self.new ≡ io_sum self.old other.now }
    {
        self.no_ring.add(&other.no_ring);
        self.bulk_read.add(&other.bulk_read);
        self.bulk_write.add(&other.bulk_write);
        self.vacuum.add(&other.vacuum);
    }

    /// The counts as they are shown.
    pub fn shown(&self) -> IoCounts
        ensures { result ≡ io_shown self.now }
    {
        let (n, r, w, v) = (self.no_ring, self.bulk_read, self.bulk_write, self.vacuum);
        IoCounts {
            hits: [n.hits, r.hits, w.hits, v.hits],
            reads: [n.reads, r.reads, w.reads, v.reads],
            writes: [n.writes, r.writes, w.writes, v.writes],
            evictions: [n.evictions, r.evictions, w.evictions, v.evictions],
            reuses: [n.reuses, r.reuses, w.reuses, v.reuses],
        }
    }
}

/// The sum of a count of each context.
fn sum_of(counts: &[u64]) -> u64
    requires { sum counts.now < 2 ^ 64 }
    ensures { result ≡ sum counts.now }
{
    counts.iter().sum()
}

impl IoCounts {
    ghost use Rattle.io_counts.specs.Sums.{HaveSums, sums_of};

    /// The counts of all contexts together.
    pub fn sums(&self) -> IoSums
        requires { HaveSums self.now }
        ensures { result ≡ sums_of self.now }
    {
        IoSums {
            hits: sum_of(&self.hits),
            reads: sum_of(&self.reads),
            writes: sum_of(&self.writes),
            evictions: sum_of(&self.evictions),
            reuses: sum_of(&self.reuses),
        }
    }
}
