//! A page, its header and its line pointers (`bufpage.h`).
ghost use Rattle.std.specs.Prelude.{◌≡◌, ◌≤◌, ◌<◌, ◌-◌, ◌+◌, ◌*◌, ◌/◌, ◌^◌, ◌++◌, IfOk, length};
ghost use Rattle.std.specs.Prelude.{drop, replicate, true};
ghost use Rattle.byteorder.specs.Endian.{little_bytes};
ghost use Rattle.page_layout.specs.Fields.{header_of, item_count, item_of, lsn_of, pointer_at};
ghost use Rattle.page_layout.specs.Fields.{with_lsn};
ghost use Rattle.page_layout.specs.Soundness.{IsUsedPage, is_new_page, is_sound_header};
ghost use Rattle.page_layout.specs.Soundness.{is_sound_page};

use byteorder::{ByteOrder, LittleEndian};
use std::alloc::{AllocError, Global};
use std::io;
use std::marker::Model;
use std::os::unix::fs::FileExt;

mod compact;

/// How many bytes a page has.
pub const PAGE_SIZE: usize = 8192;

/// How many bytes the header of a page has.
const HEADER_SIZE: u16 = 24;

/// A position in the write-ahead log.
pub type Lsn = u64;

/// Out of memory, for calls with no other error.
pub type Memory = AllocError;

/// The first 24 bytes of a page.
#[derive(Clone, Copy, PartialEq, Eq, Debug)]
pub struct Header {
    /// The end of the log record of the page's last change.
    pub lsn: Lsn,
    pub checksum: u16,
    /// 1: has free lines, 2: full, 4: all visible.
    pub flags: u16,
    /// The end of the line pointers, from the page's start.
    pub lower: u16,
    /// The start of the items.
    pub upper: u16,
    /// The start of the special space.
    pub special: u16,
    pub pagesize_version: u16,
    pub prune_xid: u32,
}

impl Header {
    /// Whether a page with this header is sound, though it isn't new: upper isn't 0, no flag is set
    /// but the three known, `lower <= upper <= special <= 8192`, and special is a multiple of 8
    /// (`PageIsVerifiedExtended` in `bufpage.c`).
    pub fn is_sound(&self) -> bool
        ensures { result ≡ is_sound_header self.now }
    {
        self.upper != 0
            && self.flags < 8
            && self.lower <= self.upper
            && self.upper <= self.special
            && self.special <= 8192
            && self.special % 8 == 0
    }

    /// How many line pointers follow the header.
    fn items(&self) -> u16
        ensures { result ≡ (self.now.lower - 24) / 4 }
    {
        self.lower.saturating_sub(HEADER_SIZE) / 4
    }
}

/// A line pointer (`itemid.h`).
#[derive(Clone, Copy, PartialEq, Eq, Debug)]
pub struct Item {
    /// Where the item's bytes are, or, of a redirect, the number of another pointer.
    pub offset: u16,
    /// 0: unused, 1: normal, 2: redirect, 3: dead.
    pub state: u8,
    /// How many bytes the item has.
    pub length: u16,
}

impl Item {
    /// From a line pointer's 32 bits, the low ones first: 15 of offset, 2 of state, 15 of length.
    fn from_bits(bits: u32) -> Item
        ensures is { result ≡ item_of bits }
        ensures short { (result.offset < 2 ^ 15) × (result.length < 2 ^ 15) }
    {
        Item {
            offset: (bits % 0x8000) as u16,
            state: (bits / 0x8000 % 4) as u8,
            length: (bits / 0x2_0000) as u16,
        }
    }
}

/// A page, which contracts see as the list of its 8192 bytes.
#[derive(Drop)]
pub struct Page {
    bytes: Box<[u8; PAGE_SIZE]>,
}

impl Model for Page {
    ghost use Rattle.std.specs.Prelude.{◌≡◌, ℕ, List, length};

    ghost Value = { List ℕ };

    ghost view = { λ p. p.bytes.value };

    ghost invariant = { λ p. length p.bytes.value ≡ 8192 };
}

impl Page {
    /// A page whose bytes are all 0.
    pub fn zeroed(alloc: Global) -> Result<Page, Memory>
        ensures { IfOk result (λ page. page ≡ replicate 8192 0) }
    {
        let bytes = Box::new(alloc, [0; PAGE_SIZE])?;
        Ok(Page { bytes })
    }

    /// The page's bytes.
    pub fn bytes(&self) -> &[u8]
        ensures bytes { result.now ≡ self.now }
        ensures size { length self.now ≡ 8192 }
    {
        self.bytes.as_slice()
    }

    /// Takes the bytes of another page in place of its own.
    pub fn copy_from(&mut self, other: &Page)
        ensures { self.new ≡ other.now }
    {
        self.fill(other.bytes());
    }

    /// Takes these bytes in place of its own.
    pub fn fill(&mut self, bytes: &[u8])
        requires { length bytes.now ≡ 8192 }
        ensures { self.new ≡ bytes.now }
    {
        self.bytes.copy_from_slice(bytes);
    }

    /// Reads the page from a file, from this byte on. After an error its bytes are unspecified, as
    /// if the file ends first. It has as many as ever: which ones a file gives is known to no
    /// contract.
    pub fn read_at<F: FileExt>(&mut self, file: &F, offset: u64) -> io::Result<()>
        ensures { length self.new ≡ 8192 }
    {
        file.read_exact_at(self.bytes.as_mut_slice(), offset)
    }

    #[tactic(auto, unfolding(crate::specs::Fields::header_of))]
    pub fn header(&self) -> Header
        ensures { result ≡ header_of self.now }
    {
        let bytes = self.bytes();
        Header {
            lsn: self.lsn(),
            checksum: LittleEndian::read_u16(&bytes[8..]),
            flags: LittleEndian::read_u16(&bytes[10..]),
            lower: LittleEndian::read_u16(&bytes[12..]),
            upper: LittleEndian::read_u16(&bytes[14..]),
            special: LittleEndian::read_u16(&bytes[16..]),
            pagesize_version: LittleEndian::read_u16(&bytes[18..]),
            prune_xid: LittleEndian::read_u32(&bytes[20..]),
        }
    }

    /// The log position of the page's last change: two numbers of four bytes, the high half first.
    #[tactic(auto, unfolding(crate::specs::Fields::lsn_of))]
    pub fn lsn(&self) -> Lsn
        ensures { result ≡ lsn_of self.now }
    {
        let bytes = self.bytes();
        let high = LittleEndian::read_u32(bytes);
        let low = LittleEndian::read_u32(&bytes[4..]);
        u64::from(high) * 0x1_0000_0000 + u64::from(low)
    }

    /// Sets the log position, and leaves all other bytes as they are.
    pub fn set_lsn(&mut self, lsn: Lsn)
        ensures bytes { self.new ≡ with_lsn lsn self.old }
        ensures reads_back { lsn_of self.new ≡ lsn }
        ensures stays_used { IsUsedPage self.old → IsUsedPage self.new }
    {
        self.write_halves((lsn / 0x1_0000_0000) as u32, (lsn % 0x1_0000_0000) as u32);
    }

    /// Writes the two halves of the log position.
    fn write_halves(&mut self, high: u32, low: u32)
        ensures { self.new ≡ (little_bytes 4 high ++ little_bytes 4 low) ++ drop 8 self.old }
    {
        let bytes = self.bytes.as_mut_slice();
        LittleEndian::write_u32(bytes, high);
        LittleEndian::write_u32(&mut bytes[4..], low);
    }

    /// How many line pointers there are.
    #[tactic(auto, unfolding(crate::specs::Fields::item_count, crate::specs::Fields::header_of))]
    pub fn items(&self) -> u16
        ensures { result ≡ item_count self.now }
    {
        self.header().items()
    }

    /// The bits of the line pointer at this place from 0.
    #[tactic(auto, unfolding(crate::specs::Fields::pointer_at))]
    fn pointer(&self, place: usize) -> u32
        requires { 28 + 4 * place ≤ 8192 }
        ensures { result ≡ pointer_at self.now place }
    {
        let at = 24 + 4 * place;
        LittleEndian::read_u32(&self.bytes()[at..])
    }

    /// The line pointer of this number, from 1 on.
    pub fn item(&self, n: u16) -> Item
        requires sound { is_sound_page self.now ≡ true }
        requires first { 1 ≤ n }
        requires last { n ≤ item_count self.now }
        ensures is { result ≡ item_of (pointer_at self.now (n - 1)) }
        ensures short { (result.offset < 2 ^ 15) × (result.length < 2 ^ 15) }
    {
        Item::from_bits(self.pointer(usize::from(n) - 1))
    }

    /// Whether all bytes are 0, as of a page that was never written.
    #[tactic(auto, unfolding(crate::specs::Soundness::is_new_page))]
    pub fn is_new(&self) -> bool
        ensures { result ≡ is_new_page self.now }
    {
        self.bytes().iter().all(|b| *b == 0)
    }

    /// Whether the page is new, or its header is sound. Items are not looked at.
    #[tactic(auto, unfolding(crate::specs::Soundness::is_sound_page))]
    pub fn is_sound(&self) -> bool
        ensures { result ≡ is_sound_page self.now }
    {
        self.is_new() || self.header().is_sound()
    }
}
