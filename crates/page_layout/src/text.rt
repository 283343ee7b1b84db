//! What a scan prints of a page.
ghost use Rattle.std.specs.Prelude.{◌≡◌, ◌≤◌, ◌+◌, ◌++◌, length, Some, OnOk, OnErr};
ghost use Rattle.page_layout.specs.Text.{header_text, line_of, pointers_text, position_text};
ghost use Rattle.page_layout.specs.Text.{scan_line_of, summary_text, used_text};

use crate::line::Line;
use crate::page::{Header, Lsn, Memory, Page};
use crate::summary::{PageSummary, PointerCounts, UsedPage};
use std::alloc::Global;
use std::fmt;

/// A log position, which prints as its high and its low half in upper-case hexadecimal
/// (`LSN_FORMAT_ARGS`).
#[derive(Clone, Copy, PartialEq, Eq, Debug)]
pub struct Position(pub Lsn);

impl fmt::Display for Position {
    ghost output = { λ p. Some (position_text p.0) };

    #[tactic(auto, unfolding(crate::specs::Text::position_text))]
    fn fmt<W: fmt::Write>(&self, f: &mut fmt::Formatter<W>) -> fmt::Result {
        let high = self.0 / 0x1_0000_0000;
        let low = self.0 % 0x1_0000_0000;
        write!(f, "{high:X}/{low:X}")
    }
}

impl fmt::Display for PointerCounts {
    ghost output = { λ p. Some (pointers_text p) };

    #[tactic(auto, unfolding(crate::specs::Text::pointers_text))]
    fn fmt<W: fmt::Write>(&self, f: &mut fmt::Formatter<W>) -> fmt::Result {
        let PointerCounts {
            normal,
            redirect,
            dead,
            unused,
        } = *self;
        write!(
            f,
            "normal {normal} redirect {redirect} dead {dead} unused {unused}"
        )
    }
}

impl fmt::Display for Header {
    ghost output = { λ h. Some (header_text h) };

    #[tactic(auto, unfolding(crate::specs::Text::header_text))]
    fn fmt<W: fmt::Write>(&self, f: &mut fmt::Formatter<W>) -> fmt::Result {
        let position = Position(self.lsn);
        let Header {
            flags,
            lower,
            upper,
            special,
            ..
        } = *self;
        write!(
            f,
            "lsn {position} flags {flags} lower {lower} upper {upper} special {special}"
        )
    }
}

impl fmt::Display for UsedPage {
    ghost output = { λ u. Some (used_text u) };

    #[tactic(auto, unfolding(crate::specs::Text::used_text))]
    fn fmt<W: fmt::Write>(&self, f: &mut fmt::Formatter<W>) -> fmt::Result {
        let UsedPage {
            header,
            items,
            pointers,
        } = *self;
        write!(f, "{header} items {items} {pointers}")
    }
}

impl fmt::Display for PageSummary {
    ghost output = { λ s. Some (summary_text s) };

    fn fmt<W: fmt::Write>(&self, f: &mut fmt::Formatter<W>) -> fmt::Result {
        match self {
            PageSummary::Invalid => f.write_str("invalid"),
            PageSummary::New => f.write_str("new"),
            PageSummary::Used(used) => write!(f, "{used}"),
        }
    }
}

/// Adds the line of a block to a text, or leaves the text as it was.
#[tactic(auto, unfolding(crate::specs::Text::line_of))]
pub fn append_line(
    alloc: Global,
    block: u32,
    summary: &PageSummary,
    text: &mut Vec<u8>,
) -> Result<(), Memory>
    ensures line { OnOk result (text.new.items ≡ text.old.items ++ line_of block summary.now) }
    ensures same { OnErr result (text.new.items ≡ text.old.items) }
{
    let mut line = Line::new();
    line.begin(b"\n");
    put_summary(&mut line, summary);
    line.put(b" ");
    line.put_number(u64::from(block));
    text.extend_from_slice(line.bytes())
}

/// Puts how many line pointers there are of each state before a text.
#[tactic(auto, unfolding(crate::specs::Text::pointers_text))]
fn put_pointers(line: &mut Line, counts: PointerCounts)
    requires { length line.old ≤ 16 }
    ensures line { line.new ≡ pointers_text counts ++ line.old }
    ensures length { length line.new ≤ 130 }
{
    line.put_number(u64::from(counts.unused));
    line.put(b" unused ");
    line.put_number(u64::from(counts.dead));
    line.put(b" dead ");
    line.put_number(u64::from(counts.redirect));
    line.put(b" redirect ");
    line.put_number(u64::from(counts.normal));
    line.put(b"normal ");
}

/// Puts a log position before a text.
#[tactic(auto, unfolding(crate::specs::Text::position_text))]
fn put_position(line: &mut Line, lsn: Lsn)
    requires { length line.old ≤ 300 }
    ensures line { line.new ≡ position_text lsn ++ line.old }
    ensures length { length line.new ≤ length line.old + 129 }
{
    line.put_hex((lsn % 0x1_0000_0000) as u32);
    line.put(b"/");
    line.put_hex((lsn / 0x1_0000_0000) as u32);
}

/// Puts what is printed of a header before a text.
#[tactic(auto, unfolding(crate::specs::Text::header_text))]
fn put_header(line: &mut Line, header: Header)
    requires { length line.old ≤ 160 }
    ensures line { line.new ≡ header_text header ++ line.old }
    ensures length { length line.new ≤ 420 }
{
    line.put_number(u64::from(header.special));
    line.put(b" special ");
    line.put_number(u64::from(header.upper));
    line.put(b" upper ");
    line.put_number(u64::from(header.lower));
    line.put(b" lower ");
    line.put_number(u64::from(header.flags));
    line.put(b" flags ");
    put_position(line, header.lsn);
    line.put(b"lsn ");
}

/// Puts what is printed of a used page before a text.
#[tactic(auto, unfolding(crate::specs::Text::used_text))]
fn put_used(line: &mut Line, used: &UsedPage)
    requires { length line.old ≤ 16 }
    ensures line { line.new ≡ used_text used.now ++ line.old }
    ensures length { length line.new ≤ 420 }
{
    put_pointers(line, used.pointers);
    line.put(b" ");
    line.put_number(u64::from(used.items));
    line.put(b" items ");
    put_header(line, used.header);
}

/// Puts what is printed of a page before a text.
fn put_summary(line: &mut Line, summary: &PageSummary)
    requires { length line.old ≤ 16 }
    ensures line { line.new ≡ summary_text summary.now ++ line.old }
    ensures length { length line.new ≤ 420 }
{
    match summary {
        PageSummary::Invalid => line.put(b"invalid"),
        PageSummary::New => line.put(b"new"),
        PageSummary::Used(used) => put_used(line, used),
    }
}

/// Adds the line of a block, whose page is this, to a text, or leaves the text as it was.
pub fn scan_line(alloc: Global, block: u32, page: &Page, text: &mut Vec<u8>) -> Result<(), Memory>
    ensures line { OnOk result (text.new.items ≡ text.old.items ++ scan_line_of block page.now) }
    ensures same { OnErr result (text.new.items ≡ text.old.items) }
{
    append_line(alloc, block, &page.summary(), text)
}
