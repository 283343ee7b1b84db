//! The ring and its kinds.
ghost use Rattle.std.specs.Prelude.{◌≡◌, ◌<◌, ◌≤◌, ◌↔◌, IfOk, IsTrue, Some, length};
ghost use Rattle.std.specs.Bool.{OnFalse, OnTrue};
ghost use Rattle.access_rings.specs.RingState.{IsRing, Rejects, frame_at_current, full_size};
ghost use Rattle.access_rings.specs.RingState.{new_ring, ring_after_keep, ring_after_next};
ghost use Rattle.access_rings.specs.RingState.{ring_after_rejection};

use std::alloc::{AllocError, Global};
use std::marker::Model;

/// Out of memory, for calls that fail for nothing else.
pub type Memory = AllocError;

/// How many frames the pool has at least for each place of a ring.
const FRAMES_PER_PLACE: u32 = 8;

/// What a ring is used for (`BufferAccessStrategyType`). `BAS_NORMAL` is no ring.
#[derive(Clone, Copy, PartialEq, Eq, Debug)]
pub enum RingKind {
    /// Reads of a large relation (`BAS_BULKREAD`): at most 32 frames, that is 256 kB.
    BulkRead,
    /// Writes of many new pages (`BAS_BULKWRITE`): at most 2048 frames, that is 16 MB.
    BulkWrite,
    /// A vacuum (`BAS_VACUUM`): at most 32 frames, that is 256 kB.
    Vacuum,
}

impl RingKind {
    /// How many places a ring of this kind has if the pool is large enough.
    fn full_size(self) -> u32
        ensures { result ≡ full_size self }
    {
        match self {
            RingKind::BulkRead | RingKind::Vacuum => 32,
            RingKind::BulkWrite => 2048,
        }
    }
}

/// Places in a circle, each with a frame or empty, and a current place
/// (`BufferAccessStrategyData`). Contracts see its kind, the list of its places, and the current
/// place. Frames are numbered from 0, so an empty place has no number; PostgreSQL's has 0
/// (`InvalidBuffer`).
#[derive(Debug, Drop)]
pub struct Ring {
    kind: RingKind,
    places: Vec<Option<u32>>,
    current: usize,
}

impl Model for Ring {
    ghost use Rattle.access_rings.specs.RingState.{IsRing, RingState, ring_state};

    ghost Value = { RingState };

    ghost view = { λ r. ring_state r.kind r.places.items r.current };

    ghost invariant = { λ r. IsRing (ring_state r.kind r.places.items r.current) };
}

impl Ring {
    /// An empty ring for a pool of this many frames (`GetAccessStrategy`). It has 32 places for
    /// bulk reads and for a vacuum and 2048 for bulk writes, but no more than an eighth of the pool
    /// has frames. The current place is place 0, so the first choice looks at place 1.
    pub fn build(alloc: Global, kind: RingKind, frames: u32) -> Result<Ring, Memory>
        requires at_least { 16 ≤ frames }
        requires at_most { frames ≤ 4096 }
        ensures { IfOk result (λ ring. ring ≡ new_ring kind frames) }
    {
        let size = kind.full_size().min(frames / FRAMES_PER_PLACE);
        let places = vec![in alloc; None; size as usize]?;
        Ok(Ring {
            kind,
            places,
            current: 0,
        })
    }

    /// What the ring is used for.
    pub fn kind(&self) -> RingKind
        ensures { result ≡ self.now.kind }
    {
        self.kind
    }

    /// How many places the ring has. They are never 0, and stay as many.
    pub fn len(&self) -> u32
        ensures places { result ≡ length self.now.places }
        ensures ring { IsRing self.now }
    {
        self.places.len() as u32
    }

    /// Goes on to the next place, from the last one to place 0, and answers which frame stands
    /// there. Whether that frame may be taken, as `GetBufferFromRing` asks next, is not the ring's
    /// matter.
    pub fn next(&mut self) -> Option<u32>
        ensures ring { self.new ≡ ring_after_next self.old }
        ensures frame { result ≡ frame_at_current self.new }
    {
        self.current = (self.current + 1) % self.places.len();
        self.places[self.current]
    }

    /// Stores a frame at the current place in place of what stood there (`AddBufferToRing`). Any
    /// number may be stored: the ring doesn't ask whether the pool has the frame.
    pub fn keep(&mut self, frame: u32)
        ensures ring { self.new ≡ ring_after_keep frame self.old }
        ensures kept { frame_at_current self.new ≡ Some frame }
    {
        self.places[self.current] = Some(frame);
    }

    /// Whether the ring gives the frame up for another one (`StrategyRejectBuffer`): exactly when
    /// it is for bulk reads and the current place holds the frame. That place is empty then.
    ///
    /// Ask it only for a frame that `next` has answered: one from elsewhere stands at the current
    /// place too, once it is kept there, and PostgreSQL doesn't reject that one (`from_ring`).
    pub fn reject(&mut self, frame: u32) -> bool
        ensures answer { IsTrue result ↔ Rejects self.old frame }
        ensures rejected { OnTrue result (self.new ≡ ring_after_rejection self.old) }
        ensures retained { OnFalse result (self.new ≡ self.old) }
    {
        if self.kind != RingKind::BulkRead || self.places[self.current] != Some(frame) {
            return false;
        }
        self.places[self.current] = None;
        true
    }
}
