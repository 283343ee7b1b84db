//! A relation made from a number, to try a buffer manager on: new pages, pages that aren't sound,
//! and pages with items, some of whose line pointers are dead. The same number makes the same
//! pages.
//!
//! [`sample_lanes`] returns lanes in memory ([`SampleLane`]) with the first blocks, ready for a
//! manager.
#![tactic(auto)]

ghost use Rattle.std.specs.Prelude.{◌≡◌, ◌≤◌, OnOk, OnErr, replicate};
ghost use Rattle.byteorder.specs.Endian.{little_bytes};
ghost use Rattle.sample_relation.specs.Samples.{Extends, header_bytes, item_offset, items};
ghost use Rattle.sample_relation.specs.Samples.{page_of_kind, pointer_bits, pointers, sample_page};
ghost use Rattle.sample_relation.specs.Samples.{unsound_page, used_page};

mod lane;
mod lanes;

use byteorder::{ByteOrder, LittleEndian};
pub use lane::SampleLane;
pub use lanes::sample_lanes;
use page_layout::{Lsn, Memory, PAGE_SIZE, Page};
use std::alloc::Global;

const HEADER_SIZE: u16 = 24;

/// The size of pages with the layout's version 4, as a header has them
/// (`PageSetPageSizeAndVersion`).
const SIZE_AND_VERSION: u16 = 0x2004;

fn put_u16(bytes: &mut Vec<u8>, number: u16) -> Result<(), Memory>
    ensures { OnOk result (Extends bytes.old.items bytes.new.items (little_bytes 2 number)) }
{
    let mut low_first = [0; 2];
    LittleEndian::write_u16(&mut low_first, number);
    bytes.extend_from_slice(&low_first)
}

fn put_u32(bytes: &mut Vec<u8>, number: u32) -> Result<(), Memory>
    ensures { OnOk result (Extends bytes.old.items bytes.new.items (little_bytes 4 number)) }
{
    let mut low_first = [0; 4];
    LittleEndian::write_u32(&mut low_first, number);
    bytes.extend_from_slice(&low_first)
}

/// So many bytes of this value.
fn put_copies(bytes: &mut Vec<u8>, count: usize, value: u8) -> Result<(), Memory>
    requires { count ≤ 8192 }
    ensures { OnOk result (Extends bytes.old.items bytes.new.items (replicate count value)) }
{
    bytes.resize(bytes.len() + count, value)
}

/// A header with neither checksum nor special space.
fn put_header(
    bytes: &mut Vec<u8>,
    lsn: Lsn,
    flags: u16,
    lower: u16,
    upper: u16,
) -> Result<(), Memory>
    ensures { OnOk result (Extends bytes.old.items bytes.new.items
        (header_bytes lsn flags lower upper)) }
{
    put_u32(bytes, (lsn / 0x1_0000_0000) as u32)?;
    put_u32(bytes, (lsn % 0x1_0000_0000) as u32)?;
    put_u16(bytes, 0)?;
    put_u16(bytes, flags)?;
    put_u16(bytes, lower)?;
    put_u16(bytes, upper)?;
    put_u16(bytes, PAGE_SIZE as u16)?;
    put_u16(bytes, SIZE_AND_VERSION)?;
    put_u32(bytes, 0)
}

/// Where an item begins.
fn offset_of(item: u16) -> u16
    requires { item ≤ 7 }
    ensures { result ≡ item_offset item }
{
    PAGE_SIZE as u16 - 4 * item * (item + 1)
}

/// The line pointer of an item.
fn pointer_of(block: u32, item: u16) -> u32
    requires { item ≤ 7 }
    ensures { result ≡ pointer_bits block item }
{
    if (u64::from(item) + u64::from(block)) % 3 == 0 {
        return 3 << 15;
    }
    u32::from(offset_of(item)) + (1 << 15) + 8 * u32::from(item) * (1 << 17)
}

fn put_pointers(bytes: &mut Vec<u8>, block: u32, count: u16) -> Result<(), Memory>
    requires { count ≤ 7 }
    ensures { OnOk result (Extends bytes.old.items bytes.new.items (pointers block count)) }
{
    for before in 0..count {
        put_u32(bytes, pointer_of(block, before + 1))?;
    }
    Ok(())
}

/// The items, that of the largest number first.
fn put_items(bytes: &mut Vec<u8>, block: u32, count: u16) -> Result<(), Memory>
    requires { count ≤ 7 }
    ensures { OnOk result (Extends bytes.old.items bytes.new.items (items block count)) }
{
    for below in (0..count).rev() {
        let item = below + 1;
        let value = (u64::from(block) + u64::from(item)) % 256;
        put_copies(bytes, 8 * item as usize, value as u8)?;
    }
    Ok(())
}

fn put_used_page(bytes: &mut Vec<u8>, block: u32, count: u16) -> Result<(), Memory>
    requires { count ≤ 7 }
    ensures { OnOk result (Extends bytes.old.items bytes.new.items (used_page block count)) }
{
    let lower = HEADER_SIZE + 4 * count;
    let upper = offset_of(count);
    put_header(bytes, 8 * u64::from(block), 0, lower, upper)?;
    put_pointers(bytes, block, count)?;
    put_copies(bytes, (upper - lower) as usize, 0)?;
    put_items(bytes, block, count)
}

fn put_unsound_page(bytes: &mut Vec<u8>, block: u32) -> Result<(), Memory>
    ensures { OnOk result (Extends bytes.old.items bytes.new.items (unsound_page block)) }
{
    let upper = PAGE_SIZE as u16;
    put_header(bytes, 8 * u64::from(block), 8, HEADER_SIZE, upper)?;
    put_copies(bytes, PAGE_SIZE - HEADER_SIZE as usize, 0)
}

/// The page of a kind: a new one, one that isn't sound, or one with as many items as the kind says.
fn put_page(bytes: &mut Vec<u8>, kind: u16, block: u32) -> Result<(), Memory>
    requires { kind ≤ 7 }
    ensures { OnOk result (Extends bytes.old.items bytes.new.items (page_of_kind kind block)) }
{
    match kind {
        0 => put_copies(bytes, PAGE_SIZE, 0),
        1 => put_unsound_page(bytes, block),
        items => put_used_page(bytes, block, items),
    }
}

/// Makes the page of a block of the relation with this seed. Out of memory is its only error, and
/// the page is as before then.
pub fn sample_page(alloc: Global, seed: u32, block: u32, page: &mut Page) -> Result<(), Memory>
    ensures made { OnOk result (page.new ≡ sample_page seed block) }
    ensures kept { OnErr result (page.new ≡ page.old) }
{
    let kind = (u64::from(seed) + u64::from(block)) % 8;
    let mut bytes = Vec::with_capacity(alloc, PAGE_SIZE)?;
    put_page(&mut bytes, kind as u16, block)?;
    page.fill(&bytes);
    Ok(())
}
