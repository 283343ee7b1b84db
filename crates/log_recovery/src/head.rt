//! The head of a log.
ghost use Rattle.std.specs.Prelude.{◌≡◌, ◌≤◌, ◌⊎◌, ℕ, IfErr, IfOk, IfSome, IsErrOf, None};
ghost use Rattle.std.specs.Prelude.{OnOk, length};
ghost use Rattle.byte_devices.specs.Faults.{Rose};
ghost use Rattle.history_core.specs.State.{last_position};
ghost use Rattle.log_recovery.specs.Records.{HasBadHead, IsHead};
ghost use Rattle.log_recovery.specs.Steps.{Begins};

use crate::error::RecoverError;
use crate::records::position_in;
use byte_devices::{Source, fill};
use page_layout::Lsn;
use table_rule::LAST_POSITION;

/// The mark with which a log begins.
const MARK: &[u8] = b"PGBUFLOG";

/// How many bytes a log's head has: the mark, and the position at which the log begins.
pub const HEAD_SIZE: usize = 16;

/// The position in a log's head, if 16 bytes are one.
pub(crate) fn base_in(head: &[u8]) -> Option<Lsn>
    requires { length head.now ≡ 16 }
    ensures some { IfSome result (IsHead head.now) }
    ensures none { result ≡ None → (base : ℕ) → IsHead head.now base → ⊥ }
{
    if !head.starts_with(MARK) {
        return None;
    }
    let base = position_in(head, 8);
    if base % 8 != 0 || base > LAST_POSITION {
        return None;
    }
    Some(base)
}

/// Takes the head: none if fewer than 16 bytes are there.
/// A crash may come before the head is durable, so a short file is a log without entries. 16 bytes
/// that are no head are no log.
pub(crate) fn read_head<S: Source>(source: &mut S) -> Result<Option<Lsn>, RecoverError>
    ensures begun { IfOk result (λ head. IfSome (S.left source.old)
        (λ bytes. Begins bytes head (S.left source.new))) }
    ensures low { IfOk result (λ head. IfSome head (λ base. base ≤ last_position)) }
    ensures bad { IsErrOf result RecoverError.BadLog
        → (S.faults source.new ≡ S.faults source.old) × IfSome (S.left source.old) HasBadHead }
    ensures bad_head { IfSome (S.left source.old) (λ bytes. HasBadHead bytes
        → ¬ Rose (S.faults source.old) (S.faults source.new)
        → IsErrOf result RecoverError.BadLog) }
    ensures fault { IsErrOf result RecoverError.ReadFault
        → Rose (S.faults source.old) (S.faults source.new) }
    ensures others { IfErr result (λ e. (e ≡ RecoverError.BadLog) ⊎ (e ≡ RecoverError.ReadFault)) }
    ensures quiet { OnOk result (S.faults source.new ≡ S.faults source.old) }
    ensures later { S.faults source.old ≤ S.faults source.new }
{
    let mut head = [0; HEAD_SIZE];
    let Ok(count) = fill(source, &mut head) else {
        return Err(RecoverError::ReadFault);
    };
    if count < HEAD_SIZE {
        return Ok(None);
    }
    match base_in(&head) {
        Some(base) => Ok(Some(base)),
        None => Err(RecoverError::BadLog),
    }
}
