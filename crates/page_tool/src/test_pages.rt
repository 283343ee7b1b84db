//! Pages that the tests read and rewrite.
use std::alloc::Global;
use std::test::Fail;

/// The beginning and the end of a page with one item of four bytes and no dead line pointer: log
/// position 0/16B3740, lower 28, upper 8184, special 8192.
const ONE_ITEM_FRONT: [u8; 36] = [
    0x00, 0x00, 0x00, 0x00, 0x40, 0x37, 0x6b, 0x01, 0x00, 0x00, 0x00, 0x00, 0x1c, 0x00, 0xf8, 0x1f,
    0x00, 0x20, 0x04, 0x20, 0x00, 0x00, 0x00, 0x00, 0xf8, 0x9f, 0x08, 0x00, 0x00, 0x00, 0x00, 0x00,
    0x00, 0x00, 0x00, 0x00,
];

const ONE_ITEM_BACK: [u8; 16] = [
    0x00, 0x00, 0x00, 0x00, 0x00, 0x00, 0x00, 0x00, 0x01, 0x02, 0x03, 0x04, 0x00, 0x00, 0x00, 0x00,
];

/// Those of a page with three line pointers, of which the first and the third are dead: log
/// position 0/16B3740, lower 36, upper 8176.
const DEAD_ITEMS_FRONT: [u8; 36] = [
    0x00, 0x00, 0x00, 0x00, 0x40, 0x37, 0x6b, 0x01, 0x00, 0x00, 0x00, 0x00, 0x24, 0x00, 0xf0, 0x1f,
    0x00, 0x20, 0x04, 0x20, 0x00, 0x00, 0x00, 0x00, 0x00, 0x80, 0x01, 0x00, 0xf0, 0x9f, 0x08, 0x00,
    0x00, 0x80, 0x01, 0x00,
];

const DEAD_ITEMS_BACK: [u8; 16] = [
    0x0a, 0x0b, 0x0c, 0x0d, 0x00, 0x00, 0x00, 0x00, 0x01, 0x02, 0x03, 0x04, 0x00, 0x00, 0x00, 0x00,
];

/// What a rewrite makes of it in block 0: log position 0/16B5760, free lines, lower 32, upper 8184.
const REWRITTEN_FRONT: [u8; 36] = [
    0x00, 0x00, 0x00, 0x00, 0x60, 0x57, 0x6b, 0x01, 0x00, 0x00, 0x01, 0x00, 0x20, 0x00, 0xf8, 0x1f,
    0x00, 0x20, 0x04, 0x20, 0x00, 0x00, 0x00, 0x00, 0x00, 0x00, 0x00, 0x00, 0xf8, 0x9f, 0x08, 0x00,
    0x00, 0x00, 0x00, 0x00,
];

const REWRITTEN_BACK: [u8; 16] = [
    0x00, 0x00, 0x00, 0x00, 0x00, 0x00, 0x00, 0x00, 0x0a, 0x0b, 0x0c, 0x0d, 0x00, 0x00, 0x00, 0x00,
];

/// The head of the log of that rewrite, and what stands before the block in its record.
const LOG_FRONT: [u8; 36] = [
    0x50, 0x47, 0x42, 0x55, 0x46, 0x4c, 0x4f, 0x47, 0x40, 0x37, 0x6b, 0x01, 0x00, 0x00, 0x00, 0x00,
    0x01, 0x00, 0x00, 0x00, 0x00, 0x00, 0x00, 0x00, 0x00, 0x00, 0x00, 0x00, 0x00, 0x40, 0x00, 0x00,
    0x00, 0x00, 0x00, 0x00,
];

/// The records of a relation of four such pages: of each its block, and the low halves of the log
/// positions where it begins and where it ends.
static RECORDS: [(u8, u32, u32); 4] = [
    (0, 0x016b_3740, 0x016b_5760),
    (1, 0x016b_5760, 0x016b_7780),
    (2, 0x016b_7780, 0x016b_97a0),
    (3, 0x016b_97a0, 0x016b_b7c0),
];

/// A page that begins and ends with these bytes, with zeros between.
fn page_of(front: &[u8; 36], back: &[u8; 16]) -> [u8; 8192] {
    let mut page = [0; 8192];
    page[..36].copy_from_slice(front);
    page[8176..].copy_from_slice(back);
    page
}

pub(crate) fn one_item_page() -> [u8; 8192] {
    page_of(&ONE_ITEM_FRONT, &ONE_ITEM_BACK)
}

/// The page with one item at the log position 0/0, whose item has this number.
pub(crate) fn numbered_page(number: u8) -> [u8; 8192] {
    let mut page = one_item_page();
    page[..8].copy_from_slice(&[0; 8]);
    page[8184..8188].copy_from_slice(&[number, 0, 0, 0]);
    page
}

pub(crate) fn dead_items_page() -> [u8; 8192] {
    page_of(&DEAD_ITEMS_FRONT, &DEAD_ITEMS_BACK)
}

/// A page, `count` times.
pub(crate) fn repeated(alloc: Global, page: &[u8; 8192], count: u32) -> Result<Vec<u8>, Fail> {
    let mut bytes = Vec::new(alloc);
    for _ in 0..count {
        bytes.extend_from_slice(page)?;
    }
    Ok(bytes)
}

/// The page with dead line pointers after its rewrite, if it is this block of the relation.
pub(crate) fn rewritten_page(block: usize) -> [u8; 8192] {
    let mut page = page_of(&REWRITTEN_FRONT, &REWRITTEN_BACK);
    if let Some((_, _, end)) = RECORDS.get(block) {
        page[4..8].copy_from_slice(&end.to_le_bytes());
    }
    page
}

/// Appends the record of a block, of 8224 bytes, to a log: the page is what a rewrite makes of it
/// there.
fn append_record(log: &mut Vec<u8>, block: u8, start: u32) -> Result<(), Fail> {
    log.extend_from_slice(&LOG_FRONT[16..36])?;
    log.extend_from_slice(&u32::from(block).to_le_bytes())?;
    log.extend_from_slice(&u64::from(start).to_le_bytes())?;
    log.extend_from_slice(&rewritten_page(usize::from(block)))?;
    Ok(())
}

/// A log with a head of 16 bytes and the record of a block: for block 0 that of a rewrite of one
/// such page.
pub(crate) fn one_page_log(alloc: Global, block: u8) -> Result<Vec<u8>, Fail> {
    let mut log = Vec::new(alloc);
    log.extend_from_slice(&LOG_FRONT[..16])?;
    append_record(&mut log, block, 0x016b_3740)?;
    Ok(log)
}

/// The log of a rewrite of four such pages.
pub(crate) fn rewrite_log(alloc: Global) -> Result<Vec<u8>, Fail> {
    let mut log = Vec::new(alloc);
    log.extend_from_slice(&LOG_FRONT[..16])?;
    for (block, start, _) in &RECORDS {
        append_record(&mut log, *block, *start)?;
    }
    Ok(log)
}
