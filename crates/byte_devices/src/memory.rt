//! A sink in memory.
ghost use Rattle.std.specs.Prelude.{◌≡◌, ◌++◌, [], Some, IfOk, OnErr, is_ok};
ghost use Rattle.byte_devices.specs.Faults.{CountsOne, HasCause};
ghost use Rattle.byte_devices.specs.Bytes.{Puts};
ghost use Rattle.byte_devices.specs.Memory.{SinkState, prefix_of, takes_piece};
ghost use Rattle.byte_devices.specs.Plan.{after_call};

use crate::count::FaultCount;
use crate::device::{Failed, Sink};
use crate::plan::FaultPlan;
use std::alloc::{AllocError, Global};
use std::marker::Model;

/// A sink in memory, with room for a fixed number of bytes.
#[derive(Drop)]
pub struct MemSink {
    bytes: Vec<u8>,
    room: usize,
    puts: FaultPlan,
    faults: FaultCount,
}

impl Model for MemSink {
    ghost use Rattle.std.specs.Prelude.{◌≤◌, length, vec_capacity};
    ghost use Rattle.byte_devices.specs.Memory.{SinkState};

    ghost Value = { SinkState };

    ghost view = { λ s. record {
      bytes = s.bytes.items;
      room = s.room;
      puts = s.puts;
      faults = s.faults;
    } };

    ghost invariant = { λ s. (length s.bytes.items ≤ s.room) × (s.room ≤ vec_capacity s.bytes) };
}

impl MemSink {
    /// A sink that takes its memory now, and no more later.
    pub fn new(alloc: Global, room: usize, puts: FaultPlan) -> Result<MemSink, AllocError>
        ensures bytes { IfOk result (λ sink. sink.bytes ≡ []) }
        ensures room { IfOk result (λ sink. sink.room ≡ room) }
        ensures puts { IfOk result (λ sink. sink.puts ≡ puts) }
        ensures faults { IfOk result (λ sink. sink.faults.count ≡ 0) }
    {
        let bytes = Vec::with_capacity(alloc, room)?;
        Ok(MemSink {
            bytes,
            room,
            puts,
            faults: FaultCount::new(),
        })
    }

    /// The bytes that were put.
    pub fn bytes(&self) -> &[u8]
        ensures { result.now ≡ self.now.bytes }
    {
        self.bytes.as_slice()
    }

    /// How many puts failed.
    pub fn faults(&self) -> u64
        ensures { result ≡ self.now.faults.count }
    {
        self.faults.get()
    }
}

impl Sink for MemSink {
    ghost bytes = { λ s. Some s.bytes };

    ghost faults = { λ s. s.faults.count };

    /// Fails if the plan says so, or if there is no room for the piece.
    fn put(&mut self, piece: &[u8]) -> Result<(), Failed>
        ensures bytes { Puts piece.now (Some self.old.bytes) (Some self.new.bytes) result }
        ensures faults { HasCause self.old.faults.count self.new.faults.count result }
        ensures counted { CountsOne self.old.faults.count self.new.faults.count result }
        ensures answer { is_ok result ≡ takes_piece self.old piece.now }
        ensures left { OnErr result (self.new.bytes ≡ self.old.bytes
            ++ prefix_of self.old piece.now) }
        ensures puts { self.new.puts ≡ after_call self.old.puts }
        ensures room { self.new.room ≡ self.old.room }
    {
        let room = self.room - self.bytes.len();
        let fails = self.puts.fails();
        if !fails && piece.len() <= room && self.bytes.extend_from_slice(piece).is_ok() {
            return Ok(());
        }
        let prefix = room.min(piece.len().div_ceil(2));
        let _ = self.bytes.extend_from_slice(&piece[..prefix]);
        self.faults.raise();
        Err(Failed)
    }

    ghost faults_fit = { λ s. s.faults.fits };
}
