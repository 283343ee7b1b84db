//! Writing a list.
ghost use Rattle.std.specs.Prelude.{◌≡◌, ◌++◌, ◌∷◌, [], OnErr, OnOk, decimal};
ghost use Rattle.block_lists.specs.Lists.{block_line, list_text};

use crate::numbers::BlockNumbers;
use itoa::Buffer;
use std::alloc::{AllocError, Global};

/// Adds a number and the byte that ends it to a text.
fn append_number(number: u32, end: u8, text: &mut Vec<u8>) -> Result<(), AllocError>
    ensures { OnOk result (text.new.items ≡ text.old.items ++ (decimal number ++ (end ∷ []))) }
{
    let mut buffer = Buffer::new();
    text.extend_from_slice(buffer.format(number).as_bytes())?;
    text.extend_from_slice(&[end])
}

/// Adds the line of a block to a text.
#[tactic(auto, unfolding(crate::specs::Lists::block_line))]
pub(crate) fn append_line(block: &BlockNumbers, text: &mut Vec<u8>) -> Result<(), AllocError>
    ensures { OnOk result (text.new.items ≡ text.old.items ++ block_line block.now) }
{
    append_number(block[0], b' ', text)?;
    append_number(block[1], b' ', text)?;
    append_number(block[2], b' ', text)?;
    append_number(block[3], b' ', text)?;
    append_number(block[4], b'\n', text)
}

/// Adds a list of blocks to a text, a line for each, in their order. `parse_list` reads what was
/// added if there are at most 65,536, each by numbers that a block can have. Out of memory leaves
/// the text as it was.
pub fn put_list(
    alloc: Global,
    blocks: &[BlockNumbers],
    text: &mut Vec<u8>,
) -> Result<(), AllocError>
    ensures lines { OnOk result (text.new.items ≡ text.old.items ++ list_text blocks.now) }
    ensures same { OnErr result (text.new.items ≡ text.old.items) }
{
    let mut lines = Vec::new(alloc);
    for block in blocks {
        append_line(block, &mut lines)?;
    }
    text.extend_from_slice(lines.as_slice())
}
