//! The relation's number that a path ends with.
ghost use Rattle.std.specs.Prelude.{◌≡◌, ◌^◌, ◌-◌, Some, None, if◌then◌else◌, min};
ghost use Rattle.command_line.specs.RelationPath.{file_name, fork_length, is_relation_number};
ghost use Rattle.command_line.specs.RelationPath.{number_value, relation_number};

use block_tag::Fork;
use segment_store::{fork_of_path, has_only_digits};

/// How many bytes of a file's name stand for its fork.
fn fork_length(fork: Fork) -> usize
    ensures { result ≡ fork_length fork }
{
    match fork {
        Fork::Main => 0,
        Fork::Fsm => "_fsm".len(),
        Fork::Vm => "_vm".len(),
        Fork::Init => "_init".len(),
    }
}

/// What follows the last slash.
fn file_name(path: &[u8]) -> &[u8]
    ensures { result.now ≡ file_name path.now }
{
    let mut start = path.len();
    while start > 0 && path[start - 1] != b'/' {
        start -= 1;
    }
    &path[start..]
}

/// The number that digits are in decimal, at most `u64::MAX`.
fn number_value(digits: &[u8]) -> u64
    ensures { result ≡ min (number_value digits.now) (2 ^ 64 - 1) }
{
    let mut value = 0u64;
    for digit in digits {
        value = value
            .saturating_mul(10)
            .saturating_add(u64::from(digit.saturating_sub(b'0')));
    }
    value
}

/// The number that digits are, if it is a relation's.
#[tactic(auto, unfolding(crate::specs::RelationPath::is_relation_number))]
fn number_of_digits(digits: &[u8]) -> Option<u32>
    ensures { result ≡ (if is_relation_number digits.now then Some (number_value digits.now)
        else None) }
{
    if digits.first() == Some(&b'0') || !has_only_digits(digits) {
        return None;
    }
    let value = number_value(digits);
    if value == 0 || u64::from(u32::MAX) < value {
        return None;
    }
    Some(value as u32)
}

/// The number of the relation that a path names: the decimal number that its last part is, with or
/// without a fork, as `GetRelationPath` writes it. None if it is none.
#[tactic(auto, unfolding(crate::specs::RelationPath::is_relation_path))]
pub(crate) fn relation_number(path: &str) -> Option<u32>
    ensures { result ≡ relation_number path.now }
{
    let name = file_name(path.as_bytes());
    let end = name.len().saturating_sub(fork_length(fork_of_path(path)));
    number_of_digits(&name[..end])
}
