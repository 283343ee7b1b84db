//! The steps by which a page is rewritten: which pages are left alone, where each item is put
//! (`compactify_tuples` in `bufpage.c`), and what is written.
ghost use Rattle.std.specs.Prelude.{◌≡◌, ◌≤◌, ◌<◌, ◌+◌, ◌-◌, ◌*◌, ◌/◌, ◌%◌, ◌^◌, ◌++◌, ℕ, drop};
ghost use Rattle.std.specs.Prelude.{take, length, false, true, slice_index, nat_le, nat_lt, ◌&&◌};
ghost use Rattle.std.specs.Prelude.{if◌then◌else◌, not};
ghost use Rattle.std.specs.List.{list_any, range_with_len};
ghost use Rattle.std.specs.Int.{byte_at};
ghost use Rattle.byteorder.specs.Endian.{little_bytes};
ghost use Rattle.page_layout.specs.Compact.{AreNewOffsets, AreSortedKeys, IsCompactable, keys_of};
ghost use Rattle.page_layout.specs.Fields.{item_count};
ghost use Rattle.page_layout.specs.Rewritten.{is_normal, is_outside, is_skipped, item_byte};
ghost use Rattle.page_layout.specs.Rewritten.{length_at, new_offset, new_pointer, new_upper};
ghost use Rattle.page_layout.specs.Rewritten.{offset_at, places_of, pointers_left, rewritten_page};
ghost use Rattle.page_layout.specs.Rewritten.{room_at, room_of_items, special_of, state_at, stays};
ghost use Rattle.page_layout.specs.Rewritten.{upper_of};
ghost use Rattle.page_layout.specs.Soundness.{is_new_page, is_sound_page};

use super::{Item, Page};
use arrayvec::ArrayVec;
use byteorder::{ByteOrder, LittleEndian};

/// The most line pointers that a page has.
const MOST_ITEMS: usize = 2042;

/// An item's length, rounded up to a multiple of 8 (`MAXALIGN`).
fn rounded_up(length: u16) -> u16
    requires { length < 2 ^ 15 }
    ensures { result ≡ (length + 7) / 8 * 8 }
{
    (length + 7) / 8 * 8
}

impl Page {
    /// The line pointer at a place from 0 on.
    #[tactic(auto, unfolding(crate::specs::Rewritten::offset_at, crate::specs::Rewritten::state_at, crate::specs::Rewritten::length_at))]
    fn item_at(&self, place: u16) -> Item
        requires within { 28 + 4 * place ≤ 8192 }
        ensures offset { result.offset ≡ offset_at self.now place }
        ensures state { result.state ≡ state_at self.now place }
        ensures length { result.length ≡ length_at self.now place }
        ensures short { (result.offset < 2 ^ 15) × (result.length < 2 ^ 15) }
    {
        Item::from_bits(self.pointer(usize::from(place)))
    }

    /// Whether the item at a place, if there is one, reaches out of the items' space.
    fn is_outside(&self, place: u16, upper: u16, special: u16) -> bool
        requires within { 28 + 4 * place ≤ 8192 }
        requires upper_is { upper ≡ upper_of self.now }
        requires special_is { special ≡ special_of self.now }
        ensures { result ≡ is_outside self.now place }
    {
        let item = self.item_at(place);
        item.state == 1 && (item.offset < upper || item.offset + item.length > special)
    }

    /// The room of the item at a place, if there is one.
    #[tactic(auto, using(std::proofs::lemmas::Bool::Decides::nat_tests), unfolding(crate::specs::Rewritten::room_at))]
    fn room_at(&self, place: u16) -> u16
        requires within { 28 + 4 * place ≤ 8192 }
        ensures is { result ≡ room_at self.now place }
        ensures short { result ≤ 32768 }
    {
        let item = self.item_at(place);
        if item.state == 1 {
            rounded_up(item.length)
        } else {
            0
        }
    }

    /// Whether no item reaches out of the items' space, and all fit in this much room.
    fn items_fit(&self, upper: u16, special: u16, space: u16) -> bool
        requires sound { is_sound_page self.now ≡ true }
        requires upper_is { upper ≡ upper_of self.now }
        requires special_is { special ≡ special_of self.now }
        ensures { result
            ≡ not (list_any (is_outside self.now) (places_of self.now))
            && not (nat_lt space (room_of_items self.now)) }
    {
        let mut room: u32 = 0;
        for place in 0..self.items() {
            if self.is_outside(place, upper, special) {
                return false;
            }
            room += u32::from(self.room_at(place));
        }
        room <= u32::from(space)
    }

    /// Whether the page is left alone.
    #[tactic(auto, using(std::proofs::lemmas::Bool::Decides::nat_tests), unfolding(crate::specs::Rewritten::is_skipped, crate::specs::Fields::header_of))]
    pub(crate) fn is_skipped(&self) -> bool
        requires sound { is_sound_page self.now ≡ true }
        requires used { is_new_page self.now ≡ false }
        ensures { result ≡ is_skipped self.now }
    {
        let header = self.header();
        if header.checksum != 0 || header.special != 8192 || header.lower < 24 {
            return true;
        }
        !self.items_fit(header.upper, header.special, header.special - header.lower)
    }

    /// The numbers by which the items are sorted.
    fn item_keys(&self) -> ArrayVec<u32, MOST_ITEMS>
        requires { IsCompactable self.now }
        ensures { result.items ≡ keys_of self.now (item_count self.now) }
    {
        let mut keys = ArrayVec::new();
        for place in 0..self.items() {
            let item = self.item_at(place);
            if item.state == 1 {
                keys.push((32767 - u32::from(item.offset)) * 65536 + u32::from(place));
            }
        }
        keys
    }

    /// The numbers by which the items are sorted, in order.
    fn sorted_keys(&self) -> ArrayVec<u32, MOST_ITEMS>
        requires { IsCompactable self.now }
        ensures { AreSortedKeys self.now result.items }
    {
        let mut keys = self.item_keys();
        keys.sort_unstable();
        keys
    }

    /// Where each item is put, by its line pointer's place, and the lowest of these places.
    fn new_offsets(&self, keys: &[u32], offsets: &mut [u16; MOST_ITEMS]) -> u16
        requires compactable { IsCompactable self.now }
        requires sorted { AreSortedKeys self.now keys.now }
        ensures upper { result ≡ new_upper self.now }
        ensures offsets { AreNewOffsets self.now offsets.new }
    {
        let mut upper: u16 = 8192;
        for i in 0..keys.len() {
            let place = (keys[i] % 65536) as u16;
            upper -= rounded_up(self.item_at(place).length);
            offsets[usize::from(place)] = upper;
        }
        upper
    }

    /// Whether the line pointer at a place stays: it is normal or a redirect.
    fn stays(&self, place: u16) -> bool
        requires { 28 + 4 * place ≤ 8192 }
        ensures { result ≡ stays self.now place }
    {
        let state = self.item_at(place).state;
        state == 1 || state == 2
    }

    /// How many line pointers are left.
    fn pointers_left(&self) -> u16
        requires { IsCompactable self.now }
        ensures { result ≡ pointers_left self.now }
    {
        let mut left = 0;
        for place in 0..self.items() {
            if self.stays(place) {
                left = place + 1;
            }
        }
        left
    }

    /// Whether one of the first line pointers doesn't stay.
    fn has_unused(&self, left: u16) -> bool
        requires compactable { IsCompactable self.now }
        requires within { left ≤ item_count self.now }
        ensures { result ≡ list_any (λ place. not (stays self.now place)) (range_with_len 0 left) }
    {
        for place in 0..left {
            if !self.stays(place) {
                return true;
            }
        }
        false
    }

    /// The rewritten line pointer at a place.
    fn new_pointer(&self, place: u16, offset: u16) -> u32
        requires within { 28 + 4 * place ≤ 8192 }
        requires offset { is_normal self.now place ≡ true → offset ≡ new_offset self.now place }
        ensures { result ≡ new_pointer self.now place }
    {
        let item = self.item_at(place);
        match item.state {
            1 => u32::from(offset) + 0x8000 + u32::from(item.length) * 0x2_0000,
            2 => self.pointer(usize::from(place)),
            _ => 0,
        }
    }

    /// Writes a line pointer.
    fn write_pointer(&mut self, place: usize, bits: u32)
        requires { 28 + 4 * place ≤ 8192 }
        ensures { (k : ℕ) → slice_index self.new k
            ≡ (if nat_le (24 + 4 * place) k && nat_lt k (28 + 4 * place)
            then byte_at (k - (24 + 4 * place)) bits
            else slice_index self.old k) }
    {
        let at = 24 + 4 * place;
        let bytes = self.bytes.as_mut_slice();
        LittleEndian::write_u32(&mut bytes[at..at + 4], bits);
    }

    /// Writes the line pointers that are left of a page.
    fn write_pointers(&mut self, page: &Page, left: u16, offsets: &[u16; MOST_ITEMS])
        requires compactable { IsCompactable page.now }
        requires within { left ≤ item_count page.now }
        requires offsets { AreNewOffsets page.now offsets.now }
        ensures { (k : ℕ) → slice_index self.new k
            ≡ (if nat_le 24 k && nat_lt k (24 + 4 * left)
            then byte_at ((k - 24) % 4) (new_pointer page.now ((k - 24) / 4))
            else slice_index self.old k) }
    {
        for place in 0..left {
            let bits = page.new_pointer(place, offsets[usize::from(place)]);
            self.write_pointer(usize::from(place), bits);
        }
    }

    /// Sets these bytes to 0.
    fn clear(&mut self, from: u16, to: u16)
        requires ordered { from ≤ to }
        requires within { to ≤ 8192 }
        ensures { (k : ℕ) → slice_index self.new k
            ≡ (if nat_le from k && nat_lt k to then 0 else slice_index self.old k) }
    {
        let bytes = self.bytes.as_mut_slice();
        bytes[usize::from(from)..usize::from(to)].fill(0);
    }

    /// Copies bytes of a page to another place.
    fn take_bytes(&mut self, at: u16, page: &Page, from: u16, count: u16)
        requires to_within { at + count ≤ 8192 }
        requires from_within { from + count ≤ 8192 }
        ensures { (k : ℕ) → slice_index self.new k
            ≡ (if nat_le at k && nat_lt k (at + count)
            then slice_index page.now (from + (k - at))
            else slice_index self.old k) }
    {
        let source = page.bytes();
        let bytes = self.bytes.as_mut_slice();
        let to = usize::from(at);
        let start = usize::from(from);
        let size = usize::from(count);
        bytes[to..to + size].copy_from_slice(&source[start..start + size]);
    }

    /// Copies the items of a page to where they are put. The bytes after each, up to a multiple of
    /// 8, are 0 already.
    fn move_items(&mut self, page: &Page, offsets: &[u16; MOST_ITEMS])
        requires compactable { IsCompactable page.now }
        requires cleared { (k : ℕ) → new_upper page.now ≤ k → slice_index self.now k ≡ 0 }
        requires offsets { AreNewOffsets page.now offsets.now }
        ensures { (k : ℕ) → slice_index self.new k
            ≡ (if nat_lt k (new_upper page.now)
            then slice_index self.old k
            else item_byte page.now k (item_count page.now)) }
    {
        for place in 0..page.items() {
            let item = page.item_at(place);
            if item.state == 1 {
                let offset = offsets[usize::from(place)];
                self.take_bytes(offset, page, item.offset, item.length);
            }
        }
    }

    /// Writes the flags and the ends of the line pointers and of the gap after them.
    fn write_ends(&mut self, flags: u16, lower: u16, upper: u16)
        ensures size { length self.old ≡ 8192 }
        ensures bytes { self.new
            ≡ take 10 self.old
            ++ (little_bytes 2 flags
            ++ (little_bytes 2 lower ++ (little_bytes 2 upper ++ drop 16 self.old))) }
    {
        let bytes = self.bytes.as_mut_slice();
        LittleEndian::write_u16(&mut bytes[10..], flags);
        LittleEndian::write_u16(&mut bytes[12..], lower);
        LittleEndian::write_u16(&mut bytes[14..], upper);
    }

    /// Takes the bytes of a page, rewritten.
    pub(crate) fn compact_from(&mut self, page: &Page)
        requires { IsCompactable page.now }
        ensures { self.new ≡ rewritten_page page.now }
    {
        let mut offsets = [0; MOST_ITEMS];
        let keys = page.sorted_keys();
        let upper = page.new_offsets(keys.as_slice(), &mut offsets);
        let left = page.pointers_left();
        let lower = 24 + 4 * left;
        let flags = page.header().flags / 2 * 2 + u16::from(page.has_unused(left));
        self.copy_from(page);
        self.clear(lower, 8192);
        self.write_pointers(page, left, &offsets);
        self.move_items(page, &offsets);
        self.write_ends(flags, lower, upper);
    }
}
