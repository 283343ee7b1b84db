//! Counts of I/O events, by contexts.
ghost use Rattle.std.specs.Prelude.{◌≡◌};
ghost use Rattle.io_counts.specs.Counts.{context_of, io_with, one_of, raised};

use access_rings::{Ring, RingKind};

/// The last value of a count: 2^48 - 1.
pub(crate) const MOST_COUNTED: u64 = (1 << 48) - 1;

/// What is counted.
#[derive(Clone, Copy, PartialEq, Eq, Debug)]
pub enum IoEvent {
    /// A `read_buffer` was answered with a block whose page was in the pool; a further token
    /// counts, too (`IOOP_HIT`).
    Hit,
    /// A lane gave a page, sound or not (`IOOP_READ`).
    Read,
    /// A lane took a page (`IOOP_WRITE`).
    Write,
    /// A frame that was chosen as a victim, not at a ring's current place, lost its tag, even if
    /// that victim was lost then (`IOOP_EVICT`).
    Eviction,
    /// A frame that was chosen as a victim at a ring's current place lost its tag, even if that
    /// victim was lost then (`IOOP_REUSE`).
    Reuse,
}

/// How often each event was counted in one context. Each count stands still at 2^48 - 1.
#[derive(Clone, Copy, PartialEq, Eq, Debug)]
pub struct ContextCounts {
    pub hits: u64,
    pub reads: u64,
    pub writes: u64,
    pub evictions: u64,
    pub reuses: u64,
}

/// The counts of each context (`IOContext`): without a ring, and for each kind of ring.
#[derive(Clone, Copy, PartialEq, Eq, Debug)]
pub struct ByContext {
    pub no_ring: ContextCounts,
    pub bulk_read: ContextCounts,
    pub bulk_write: ContextCounts,
    pub vacuum: ContextCounts,
}

/// The context of calls that are given this ring, or none.
#[inline(always)]
pub fn context_of(ring: &Option<Ring>) -> Option<RingKind>
    ensures { result ≡ context_of ring.now }
{
    match ring {
        Some(ring) => Some(ring.kind()),
        None => None,
    }
}

/// A count that rises by 1.
#[inline(always)]
fn one_more(count: u64) -> u64
    ensures { result ≡ raised count 1 }
{
    if count < MOST_COUNTED {
        count + 1
    } else {
        count
    }
}

impl ContextCounts {
    ghost use Rattle.io_counts.specs.Counts.{counts_with, no_counts};

    /// No event.
    pub fn none() -> ContextCounts
        ensures { result ≡ no_counts }
    {
        ContextCounts {
            hits: 0,
            reads: 0,
            writes: 0,
            evictions: 0,
            reuses: 0,
        }
    }

    /// Counts an event.
    // Each hit counts: once this is inlined, the event is known, and only the context is tested.
    #[inline(always)]
    fn count(&mut self, event: IoEvent)
        ensures { self.new ≡ counts_with (one_of event) self.old }
    {
        match event {
            IoEvent::Hit => self.hits = one_more(self.hits),
            IoEvent::Read => self.reads = one_more(self.reads),
            IoEvent::Write => self.writes = one_more(self.writes),
            IoEvent::Eviction => self.evictions = one_more(self.evictions),
            IoEvent::Reuse => self.reuses = one_more(self.reuses),
        }
    }
}

impl ByContext {
    ghost use Rattle.io_counts.specs.Counts.{no_io};

    /// No event.
    pub fn none() -> ByContext
        ensures { result ≡ no_io }
    {
        let none = ContextCounts::none();
        ByContext {
            no_ring: none,
            bulk_read: none,
            bulk_write: none,
            vacuum: none,
        }
    }

    /// Counts an event in the context of a ring of this kind, or of none.
    #[inline(always)]
    pub fn count(&mut self, context: Option<RingKind>, event: IoEvent)
        ensures { self.new ≡ io_with context (one_of event) self.old }
    {
        match context {
            None => self.no_ring.count(event),
            Some(RingKind::BulkRead) => self.bulk_read.count(event),
            Some(RingKind::BulkWrite) => self.bulk_write.count(event),
            Some(RingKind::Vacuum) => self.vacuum.count(event),
        }
    }
}
