//! Reading a list.
ghost use Rattle.std.specs.Prelude.{◌≡◌, ◌+◌, ◌-◌, ◌^◌, ◌<◌, ◌≤◌, ◌==◌, ℕ, Err, List, IfErr, IfNone};
ghost use Rattle.std.specs.Prelude.{IfOk, IfSome, decimal, if◌then◌else◌, length, max};
ghost use Rattle.block_lists.specs.Lists.{AreBlockNumbers, IsListOf, IsRefusalOf, block_line};
ghost use Rattle.block_lists.specs.Lists.{lines_of};
ghost use Rattle.block_lists.specs.Pieces.{BeginsWithNoBlock, BeginsWithNoNumber, IsBlockAndRest};
ghost use Rattle.block_lists.specs.Pieces.{IsFirstPlace, IsNoNumber, IsNumberAndRest, Lacks};

use crate::numbers::BlockNumbers;
use block_tag::LAST_BLOCK;
use itoa::Buffer;
use std::alloc::Global;
use thiserror::Error;

/// How many lines a list has at most.
pub const MOST_LINES: usize = 65536;

/// Why a text is no list of blocks.
#[derive(Clone, Copy, PartialEq, Eq, Debug, Error)]
pub enum ListError {
    /// The first line that isn't one of a block; the text's first line has the number 1.
    #[error("line {line} isn't one of a block")]
    BadLine { line: u64 },
    #[error("more than 65536 lines")]
    TooMany,
    #[error("out of memory")]
    Memory,
}

/// The number that a text writes in decimal, if the text is the number's only spelling.
fn spelled_number(text: &str) -> Option<u32>
    ensures some { IfSome result (λ number. (number < 2 ^ 32) × (text.now ≡ decimal number)) }
    ensures none { IfNone result (IsNoNumber text.now) }
{
    match text.parse::<u32>() {
        Ok(number) => {
            if Buffer::new().format(number) == text {
                Some(number)
            } else {
                None
            }
        }
        Err(_) => None,
    }
}

/// The number that these bytes write in decimal, if they are the number's only spelling.
fn number_in(digits: &[u8]) -> Option<u32>
    ensures some { IfSome result (λ number. (number < 2 ^ 32) × (digits.now ≡ decimal number)) }
    ensures none { IfNone result (IsNoNumber digits.now) }
{
    match str::from_utf8(digits) {
        Ok(text) => spelled_number(text),
        Err(_) => None,
    }
}

/// The first place of a byte in a text.
fn place_of(byte: u8, text: &[u8]) -> Option<usize>
    ensures some { IfSome result (IsFirstPlace byte text.now) }
    ensures none { IfNone result (Lacks byte text.now) }
{
    for (place, found) in text.iter().enumerate() {
        if *found == byte {
            return Some(place);
        }
    }
    None
}

/// The number at a text's beginning, which this byte ends, and what follows that byte.
fn take_number(text: &[u8], end: u8) -> Option<(u32, &[u8])>
    requires { end < 48 }
    ensures some { IfSome result (λ found. IsNumberAndRest end text.now found.0 found.1.now) }
    ensures none { IfNone result (BeginsWithNoNumber end text.now) }
{
    let place = place_of(end, text)?;
    let number = number_in(&text[..place])?;
    Some((number, &text[place + 1..]))
}

/// The block of a text's first line, and what follows that line.
fn take_block(text: &[u8]) -> Option<(BlockNumbers, &[u8])>
    ensures some { IfSome result (λ found. IsBlockAndRest text.now found.0 found.1.now) }
    ensures none { IfNone result (BeginsWithNoBlock text.now) }
{
    let (tablespace, rest) = take_number(text, b' ')?;
    let (database, rest) = take_number(rest, b' ')?;
    let (relation, rest) = take_number(rest, b' ')?;
    let (fork, rest) = take_number(rest, b' ')?;
    let (block, rest) = take_number(rest, b'\n')?;
    if fork > 3 || block > LAST_BLOCK {
        return None;
    }
    Some(([tablespace, database, relation, fork, block], rest))
}

/// How many lines begin at a byte or after it, if this many begin after it: a byte belongs to the
/// line that follows it, unless it is a newline.
fn lines_from(byte: u8, after: usize) -> usize
    requires { after < 2 ^ 64 - 1 }
    ensures { result ≡ (if byte == 10 then after + 1 else max after 1) }
{
    if byte == b'\n' {
        after + 1
    } else {
        after.max(1)
    }
}

/// How many lines a text has.
fn count_lines(text: &[u8]) -> usize
    ensures { result ≡ length (lines_of text.now) }
{
    let mut lines = 0;
    let mut place = text.len();
    while place > 0 {
        place -= 1;
        lines = lines_from(text[place], lines);
    }
    lines
}

/// The blocks of a text's lines.
fn blocks_in(alloc: Global, text: &[u8]) -> Result<Vec<BlockNumbers>, ListError>
    requires { length (lines_of text.now) ≤ 65536 }
    ensures read { IfOk result (λ blocks. IsListOf text.now blocks.items) }
    ensures refused { IfErr result (IsRefusalOf text.now) }
{
    let mut listed = Vec::new(alloc);
    let mut rest = text;
    while !rest.is_empty() {
        let Some(found) = take_block(rest) else {
            let line = listed.len() as u64 + 1;
            return Err(ListError::BadLine { line });
        };
        let block = found.0;
        if listed.push(block).is_err() {
            return Err(ListError::Memory);
        }
        rest = found.1;
    }
    Ok(listed)
}

/// Reads a list of blocks: at most 65,536 lines, each one of a block, with its newline. The empty
/// text is the list of no blocks.
///
/// Refuses more lines, then the first line that isn't one of a block. A list that was written is
/// read back.
pub fn parse_list(alloc: Global, text: &[u8]) -> Result<Vec<BlockNumbers>, ListError>
    ensures read { IfOk result (λ blocks. IsListOf text.now blocks.items) }
    ensures refused { IfErr result (IsRefusalOf text.now) }
    ensures many { 65536 < length (lines_of text.now) → result ≡ Err ListError.TooMany }
    ensures back { (blocks : List (List ℕ)) → IsListOf text.now blocks
        → IfOk result (λ found. found.items ≡ blocks) }
    ensures right { (blocks : List (List ℕ)) → IsListOf text.now blocks
        → IfErr result (λ error. error ≡ ListError.Memory) }
{
    if count_lines(text) > MOST_LINES {
        return Err(ListError::TooMany);
    }
    blocks_in(alloc, text)
}
