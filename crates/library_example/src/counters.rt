//! Pages that count: one item of 8 bytes, and a dead line pointer until it is taken out.

use byteorder::{ByteOrder, LittleEndian};
use page_layout::{PAGE_SIZE, Page, Rewrite, rewritten};
use std::alloc::{AllocError, Global};

/// The header of a page that counts, and its two line pointers: the item's, and the dead one.
const FRONT: [u8; 32] = [
    0, 0, 0, 0, 0, 0, 0, 0, 0, 0, 0, 0, 32, 0, 0xf8, 0x1f, 0, 0x20, 4, 0x20, 0, 0, 0, 0, 0xf8,
    0x9f, 0x10, 0, 0, 0x80, 1, 0,
];

/// Where the item of a page that counts begins.
const ITEM: usize = PAGE_SIZE - 8;

/// A page that counts from here on.
pub fn page_from(alloc: Global, count: u64) -> Result<Page, AllocError> {
    let mut bytes = [0; PAGE_SIZE];
    bytes[..32].copy_from_slice(&FRONT);
    LittleEndian::write_u64(&mut bytes[ITEM..], count);
    let mut page = Page::zeroed(alloc)?;
    page.fill(&bytes);
    Ok(page)
}

/// What a page that counts tells.
pub struct Counter {
    pub count: u64,
    /// How many line pointers it has.
    pub pointers: u16,
}

pub fn counter_of(page: &Page) -> Counter {
    Counter {
        count: LittleEndian::read_u64(&page.bytes()[ITEM..]),
        pointers: page.items(),
    }
}

/// The bytes of a page that counts one more.
fn counted_on(page: &Page) -> [u8; PAGE_SIZE] {
    let mut bytes = [0; PAGE_SIZE];
    bytes.copy_from_slice(page.bytes());
    let count = LittleEndian::read_u64(&bytes[ITEM..]);
    LittleEndian::write_u64(&mut bytes[ITEM..], count.wrapping_add(1));
    bytes
}

/// What a backend does with a page.
#[derive(Clone, Copy)]
pub enum Change {
    /// Count one more.
    Count,
    /// Take the dead line pointers out.
    Prune,
}

/// A page that is read, and what becomes of it.
#[derive(Drop)]
pub struct Pages {
    pub read: Page,
    pub changed: Page,
}

impl Pages {
    ghost use Rattle.std.specs.Prelude.{◌≡◌, IsTrue, false, true};
    ghost use Rattle.page_layout.specs.Soundness.{is_new_page, is_sound_page};

    pub fn new(alloc: Global) -> Result<Pages, AllocError> {
        Ok(Pages {
            read: Page::zeroed(alloc)?,
            changed: Page::zeroed(alloc)?,
        })
    }

    /// Makes the change. Whether the page that comes of it can be put: it is sound, and not new.
    pub fn change(&mut self, change: Change) -> bool
        ensures { IsTrue result → (is_sound_page self.new.changed ≡ true)
            × (is_new_page self.new.changed ≡ false) }
    {
        if self.read.is_new() || !self.read.is_sound() {
            return false;
        }
        match change {
            Change::Count => self.changed.fill(&counted_on(&self.read)),
            Change::Prune => {
                if let Rewrite::Skipped = rewritten(&self.read, &mut self.changed) {
                    return false;
                }
            }
        }
        !self.changed.is_new() && self.changed.is_sound()
    }
}
