//! The bytes of logs, by the tables of their format.
use std::alloc::{AllocError, Global};
use test_devices::one_item;

/// How many bytes a record has.
const RECORD_SIZE: u64 = 8224;

/// The page of a record.
#[derive(Clone, Copy)]
pub enum Image {
    /// With one item, whose first byte is this.
    Item(u8),
    /// With a flag that no page has.
    Unsound,
    /// All zeros.
    New,
}

/// What stands in a record of a page.
#[derive(Clone, Copy)]
pub struct Record {
    pub kind: u32,
    pub tablespace: u32,
    pub database: u32,
    pub relation: u32,
    pub fork: u32,
    pub block: u32,
    pub position: u64,
    pub lsn: u64,
    pub image: Image,
}

impl Record {
    /// A record of a block of the relation 1663/5/16384, as it is to be at this position.
    pub fn new(position: u64, block: u32, item: u8) -> Record {
        Record {
            kind: 1,
            tablespace: 1663,
            database: 5,
            relation: 16384,
            fork: 0,
            block,
            position,
            lsn: position.saturating_add(RECORD_SIZE),
            image: Image::Item(item),
        }
    }

    /// The bytes of its page.
    fn page(&self) -> [u8; 8192] {
        match self.image {
            Image::Item(item) => page_bytes(item, self.lsn),
            Image::Unsound => {
                let mut bytes = page_bytes(0, self.lsn);
                bytes[10] = 8;
                bytes
            }
            Image::New => [0; 8192],
        }
    }

    fn add_to(&self, bytes: &mut Vec<u8>) -> Result<(), AllocError> {
        let numbers = [
            self.kind,
            self.tablespace,
            self.database,
            self.relation,
            self.fork,
            self.block,
        ];
        for number in numbers {
            bytes.extend_from_slice(&number.to_le_bytes())?;
        }
        bytes.extend_from_slice(&self.position.to_le_bytes())?;
        bytes.extend_from_slice(&self.page())
    }
}

/// A page with one item, whose first byte is this, and this position: two numbers of four bytes,
/// the high half first.
pub fn page_bytes(item: u8, lsn: u64) -> [u8; 8192] {
    let high = (lsn / 0x1_0000_0000) as u32;
    let low = (lsn % 0x1_0000_0000) as u32;
    let mut bytes = one_item(item);
    bytes[..4].copy_from_slice(&high.to_le_bytes());
    bytes[4..8].copy_from_slice(&low.to_le_bytes());
    bytes
}

/// The first half of a page, and the second half of another after it.
pub fn torn_page(first: &[u8], second: &[u8]) -> [u8; 8192] {
    let mut bytes = [0; 8192];
    for (place, byte) in bytes.iter_mut().enumerate() {
        let page = if place < 4096 { first } else { second };
        *byte = page.get(place).copied().unwrap_or(0);
    }
    bytes
}

/// A head, and these records after it.
pub fn log_bytes(
    alloc: Global,
    mark: &[u8; 8],
    base: u64,
    records: &[Record],
) -> Result<Vec<u8>, AllocError> {
    let mut bytes = Vec::new(alloc);
    bytes.extend_from_slice(mark)?;
    bytes.extend_from_slice(&base.to_le_bytes())?;
    for record in records {
        record.add_to(&mut bytes)?;
    }
    Ok(bytes)
}

/// A log that begins at 4096, with records of the blocks 0, 1, and 0 again, which end at 12320,
/// 20544 and 28768.
pub fn three_records(alloc: Global) -> Result<Vec<u8>, AllocError> {
    let records = [
        Record::new(4096, 0, 1),
        Record::new(12320, 1, 2),
        Record::new(20544, 0, 3),
    ];
    log_bytes(alloc, b"PGBUFLOG", 4096, &records)
}
