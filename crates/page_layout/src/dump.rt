//! What a dump prints of a page.
ghost use Rattle.std.specs.Prelude.{◌≡◌, ◌≤◌, ◌<◌, ◌+◌, ◌-◌, ◌^◌, ◌++◌, [], ◌∷◌};
ghost use Rattle.std.specs.Prelude.{OnOk, OnErr, length, true, codes};
ghost use Rattle.std.specs.Fmt.{decimal};
ghost use Rattle.page_layout.specs.Text.{joined};
ghost use Rattle.page_layout.specs.Dump.{dump_lines_of, item_text, pointer_head, pointer_line};
ghost use Rattle.page_layout.specs.Dump.{pointer_lines, pointer_tail, used_lines};
ghost use Rattle.page_layout.specs.Fields.{item_count};
ghost use Rattle.page_layout.specs.Soundness.{is_sound_page};

use crate::hex::append_hex;
use crate::line::Line;
use crate::page::{Item, Memory, PAGE_SIZE, Page};
use crate::text::scan_line;
use std::alloc::Global;

/// How much room the lines of a block have from the beginning: more than most blocks need.
const ROOM: usize = 32768;

/// The line of an unused line pointer.
fn write_unused(line: &mut Line, number: u16)
    ensures { line.new ≡ joined (codes "  " ∷ decimal number ∷ codes " unused\n" ∷ []) }
{
    line.begin(b" unused\n");
    line.put_number(u64::from(number));
    line.put(b"  ");
}

/// The line of a redirect.
fn write_redirect(line: &mut Line, number: u16, offset: u16)
    ensures { line.new ≡ joined (codes "  "
        ∷ decimal number ∷ codes " redirect " ∷ decimal offset ∷ codes "\n" ∷ []) }
{
    line.begin(b"\n");
    line.put_number(u64::from(offset));
    line.put(b" redirect ");
    line.put_number(u64::from(number));
    line.put(b"  ");
}

/// The line of a dead line pointer.
fn write_dead(line: &mut Line, number: u16, offset: u16, length: u16)
    ensures { line.new ≡ joined (codes "  "
        ∷ decimal number ∷ codes " dead " ∷ decimal offset ∷ codes " " ∷ decimal length
        ∷ codes "\n" ∷ []) }
{
    line.begin(b"\n");
    line.put_number(u64::from(length));
    line.put(b" ");
    line.put_number(u64::from(offset));
    line.put(b" dead ");
    line.put_number(u64::from(number));
    line.put(b"  ");
}

/// The line of a normal line pointer, before the item's bytes.
fn write_normal(line: &mut Line, number: u16, offset: u16, length: u16)
    ensures { line.new ≡ joined (codes "  "
        ∷ decimal number ∷ codes " normal " ∷ decimal offset ∷ codes " " ∷ decimal length
        ∷ codes " " ∷ []) }
{
    line.begin(b" ");
    line.put_number(u64::from(length));
    line.put(b" ");
    line.put_number(u64::from(offset));
    line.put(b" normal ");
    line.put_number(u64::from(number));
    line.put(b"  ");
}

/// The line of a line pointer, without an item's bytes.
#[tactic(auto, unfolding(crate::specs::Dump::pointer_head))]
fn write_head(line: &mut Line, number: u16, item: Item)
    ensures { line.new ≡ pointer_head number item }
{
    if item.state == 0 {
        write_unused(line, number);
    } else if item.state == 2 {
        write_redirect(line, number, item.offset);
    } else if item.state == 3 {
        write_dead(line, number, item.offset, item.length);
    } else {
        write_normal(line, number, item.offset, item.length);
    }
}

/// Adds an item's bytes to a text.
#[tactic(auto, unfolding(crate::specs::Dump::item_text))]
fn append_item(page: &Page, offset: u16, length: u16, text: &mut Vec<u8>) -> Result<(), Memory>
    requires short { (offset < 2 ^ 15) × (length < 2 ^ 15) }
    ensures { OnOk result (text.new.items ≡ text.old.items ++ item_text page.now offset length) }
{
    let start = usize::from(offset);
    let end = usize::from(offset + length);
    if end > PAGE_SIZE {
        return text.extend_from_slice(b"outside");
    }
    if length == 0 {
        return text.extend_from_slice(b"-");
    }
    append_hex(&page.bytes()[start..end], text)
}

/// Adds what a normal line pointer's line ends in: the item's bytes.
fn append_tail(page: &Page, item: Item, text: &mut Vec<u8>) -> Result<(), Memory>
    requires short { (item.offset < 2 ^ 15) × (item.length < 2 ^ 15) }
    ensures { OnOk result (text.new.items ≡ text.old.items ++ pointer_tail page.now item) }
{
    if item.state != 1 {
        return Ok(());
    }
    append_item(page, item.offset, item.length, text)?;
    text.extend_from_slice(b"\n")?;
    Ok(())
}

/// Adds the line of the pointer of this number to a text.
fn append_pointer(
    line: &mut Line,
    page: &Page,
    number: u16,
    text: &mut Vec<u8>,
) -> Result<(), Memory>
    requires sound { is_sound_page page.now ≡ true }
    requires first { 1 ≤ number }
    requires last { number ≤ item_count page.now }
    ensures { OnOk result (text.new.items ≡ text.old.items ++ pointer_line page.now (number - 1)) }
{
    let item = page.item(number);
    write_head(line, number, item);
    text.extend_from_slice(line.bytes())?;
    append_tail(page, item, text)?;
    Ok(())
}

/// Adds the lines of a page's pointers to a text.
fn append_pointers(page: &Page, text: &mut Vec<u8>) -> Result<(), Memory>
    requires { is_sound_page page.now ≡ true }
    ensures { OnOk result
        (text.new.items ≡ text.old.items ++ pointer_lines page.now (item_count page.now)) }
{
    let mut line = Line::new();
    for place in 0..page.items() {
        append_pointer(&mut line, page, place + 1, text)?;
    }
    Ok(())
}

/// Adds the lines of a page's pointers to a text, if the page is sound and not new.
fn append_used(page: &Page, text: &mut Vec<u8>) -> Result<(), Memory>
    ensures { OnOk result (text.new.items ≡ text.old.items ++ used_lines page.now) }
{
    if page.is_new() {
        return Ok(());
    }
    if !page.is_sound() {
        return Ok(());
    }
    append_pointers(page, text)?;
    Ok(())
}

/// Adds what a dump prints of a block, whose page is this, to a text: the line of a scan, then a
/// line for each line pointer of a page that is sound and not new. Out of memory leaves the text as
/// it was.
#[tactic(auto, unfolding(crate::specs::Dump::dump_lines_of))]
pub fn dump_lines(alloc: Global, block: u32, page: &Page, text: &mut Vec<u8>) -> Result<(), Memory>
    ensures lines { OnOk result (text.new.items ≡ text.old.items ++ dump_lines_of block page.now) }
    ensures same { OnErr result (text.new.items ≡ text.old.items) }
{
    let mut lines = Vec::with_capacity(alloc, ROOM)?;
    scan_line(alloc, block, page, &mut lines)?;
    append_used(page, &mut lines)?;
    text.extend_from_slice(lines.as_slice())
}
