//! A sink for what isn't wanted.
use byte_devices::{Failed, Sink};

/// Drops what is put. No put fails.
#[derive(Drop)]
pub(crate) struct Discard;

impl Sink for Discard {
    ghost use Rattle.std.specs.Prelude.{None};
    ghost use Rattle.std.proofs.Common.{rules};
    ghost use Prim.{search};

    ghost bytes = { λ _. None };

    ghost faults = { λ _. 0 };

    fn put(&mut self, _piece: &[u8]) -> Result<(), Failed> {
        Ok(())
    }

    ghost faults_fit = { λ _. search rules };
}
