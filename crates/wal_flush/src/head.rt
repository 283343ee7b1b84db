//! The head of a log.
ghost use Rattle.std.specs.Prelude.{◌≡◌, ◌+◌, ◌++◌, ◌∷◌, [], None, IfSome, List, ℕ};
ghost use Rattle.byte_devices.specs.Bytes.{Puts};
ghost use Rattle.byte_devices.specs.Faults.{HasCause};
ghost use Rattle.history_core.specs.Log.{head_bytes};

use byte_devices::{Failed, LogDevice};
use byteorder::{ByteOrder, LittleEndian};
use page_layout::Lsn;

/// The 16 bytes with which a log begins: `PGBUFLOG`, and the position where it begins, its lowest
/// byte first.
fn head(base: Lsn) -> [u8; 16]
    ensures { result ≡ head_bytes base }
{
    let mut head = *b"PGBUFLOG\0\0\0\0\0\0\0\0";
    LittleEndian::write_u64(&mut head[8..], base);
    head
}

/// Begins a log at the position `base`, by one append of its head of 16 bytes.
pub fn begin_log<G: LogDevice>(log: &mut G, base: Lsn) -> Result<(), Failed>
    ensures bytes { Puts (head_bytes base) (G.bytes log.old) (G.bytes log.new) result }
    ensures unknown { G.bytes log.old ≡ None → G.bytes log.new ≡ None }
    ensures synced { IfSome (G.bytes log.old) (λ _. G.synced log.new ≡ G.synced log.old) }
    ensures faults { HasCause (G.faults log.old) (G.faults log.new) result }
    ensures calls { G.calls log.new ≡ G.calls log.old + 1 }
{
    log.append(&head(base))
}
