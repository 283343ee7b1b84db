//! Pieces that are filled from a source.
ghost use Rattle.std.specs.Prelude.{◌≡◌, ◌<◌, ◌≤◌, [], IfOk, IfSome, length};
ghost use Rattle.byte_devices.specs.Faults.{HasCause};
ghost use Rattle.byte_devices.specs.Sources.{Takes};

use crate::device::{Failed, Source};

/// Fills the piece with the next bytes, as many as there are, and says how many it took.
///
/// If it fails, it may have taken some before.
pub fn fill<S: Source>(source: &mut S, piece: &mut [u8]) -> Result<usize, Failed>
    ensures size { length piece.new ≡ length piece.old }
    ensures within { IfOk result (λ n. n ≤ length piece.old) }
    ensures taken { IfOk result (λ n. Takes n piece.new (S.left source.old) (S.left source.new)) }
    ensures end { IfOk result (λ n. n < length piece.old
        → IfSome (S.left source.new) (λ bytes. bytes ≡ [])) }
    ensures faults { HasCause (S.faults source.old) (S.faults source.new) result }
{
    let mut at = 0;
    while at < piece.len() {
        let taken = source.next(&mut piece[at..])?;
        if taken == 0 {
            return Ok(at);
        }
        at += taken;
    }
    Ok(at)
}
