//! The fields of a record.
//!
//! A well-formed record is a relation between bytes and an entry, field by field, not an equation
//! with the bytes that the writer makes. So the bytes alone determine the entries, and that what
//! was written is read back is a theorem. A record doesn't say which backend made it; an entry that
//! is read has backend 0.
ghost use Rattle.std.specs.Prelude.{◌≡◌, ◌+◌, ◌≤◌, ◌<◌, ◌↔◌, ℕ, List, None, IfSome, IsTrue};
ghost use Rattle.std.specs.Prelude.{drop, length, true};
ghost use Rattle.block_tag.specs.Names.{names_block, packed_tag};
ghost use Rattle.page_layout.specs.Fields.{number_at};
ghost use Rattle.history_core.specs.Log.{Entry, IsImage, record_size};
ghost use Rattle.history_core.specs.State.{last_position};
ghost use Rattle.log_recovery.specs.Records.{IsAtPlace, IsRecord, NamesBlock, image_entry};

use block_tag::{Catalog, Fork, RelEntry, RelNo, Tag};
use byteorder::{ByteOrder, LittleEndian};
use page_layout::{Lsn, Page};

/// How many bytes a record of a page has.
pub(crate) const IMAGE_SIZE: usize = 8224;

/// How many of them stand before the page.
const IMAGE_HEADER: usize = 32;

/// The kind of a record of a page.
const IMAGE: u32 = 1;

/// The number in the four bytes at a place.
fn number_in(bytes: &[u8], at: usize) -> u32
    requires { at + 4 ≤ length bytes.now }
    ensures { result ≡ number_at at 4 bytes.now }
{
    LittleEndian::read_u32(&bytes[at..])
}

/// The position in the eight bytes at a place.
pub(crate) fn position_in(bytes: &[u8], at: usize) -> Lsn
    requires { at + 8 ≤ length bytes.now }
    ensures { result ≡ number_at at 8 bytes.now }
{
    LittleEndian::read_u64(&bytes[at..])
}

/// The place of the relation with these numbers, if the catalogue has it.
fn place_of(catalog: &Catalog, tablespace: u32, database: u32, relation: u32) -> Option<u32>
    ensures some { IfSome result (IsAtPlace catalog.now tablespace database relation) }
    ensures few { IfSome result (λ n. n < 1024) }
    ensures none { result ≡ None
        → (n : ℕ) → IsAtPlace catalog.now tablespace database relation n → ⊥ }
{
    let wanted = RelEntry {
        tablespace,
        database,
        relation,
        blocks: [0; 4],
    };
    for place in 0..catalog.len() {
        let rel = RelNo(place as u32);
        if let Some(entry) = catalog.entry(rel) {
            if entry.is_twin(&wanted) {
                return Some(rel.0);
            }
        }
    }
    None
}

/// The block that a record names, if it is of one of the relations.
fn block_named(catalog: &Catalog, bytes: &[u8]) -> Option<Tag>
    requires { 24 ≤ length bytes.now }
    ensures named { IfSome result (λ tag. NamesBlock catalog.now bytes.now (packed_tag tag)) }
    ensures block { IfSome result (λ tag. names_block tag ≡ true) }
    ensures none { result ≡ None → (word : ℕ) → NamesBlock catalog.now bytes.now word → ⊥ }
{
    let fork = Fork::from_number(number_in(bytes, 16))?;
    let block = number_in(bytes, 20);
    if block == u32::MAX {
        return None;
    }
    let tablespace = number_in(bytes, 4);
    let database = number_in(bytes, 8);
    let relation = number_in(bytes, 12);
    let place = place_of(catalog, tablespace, database, relation)?;
    let rel = RelNo(place);
    Some(Tag { rel, fork, block })
}

/// Takes the bytes after the header for the page.
fn take_page(bytes: &[u8], page: &mut Page)
    requires { length bytes.now ≡ record_size }
    ensures page { page.new ≡ drop 32 bytes.now }
    ensures full { length page.new ≡ 8192 }
{
    page.fill(&bytes[IMAGE_HEADER..]);
}

/// Whether the page of a record that ends at this position is sound, isn't new, and has the
/// position.
fn is_image(page: &Page, end: Lsn) -> bool
    requires { length page.now ≡ 8192 }
    ensures { IsTrue result ↔ IsImage end page.now }
{
    page.is_sound() && !page.is_new() && page.lsn() == end
}

/// The block and the page of a record, if it is one of a page that is well formed at the position
/// `from`.
pub(crate) fn image_in(catalog: &Catalog, bytes: &[u8], from: Lsn, page: &mut Page) -> Option<Tag>
    requires long { length bytes.now ≡ record_size }
    requires room { from + record_size ≤ last_position }
    ensures some { IfSome result (λ tag. (before : List Entry)
        → IsRecord catalog.now from before bytes.now (image_entry from tag page.new)) }
    ensures block { IfSome result (λ tag. names_block tag ≡ true) }
    ensures none { result ≡ None
        → (before : List Entry) (e : Entry) → IsRecord catalog.now from before bytes.now e → ⊥ }
{
    if number_in(bytes, 0) != IMAGE || position_in(bytes, 24) != from {
        return None;
    }
    let tag = block_named(catalog, bytes)?;
    take_page(bytes, page);
    if !is_image(page, from + IMAGE_SIZE as u64) {
        return None;
    }
    Some(tag)
}
