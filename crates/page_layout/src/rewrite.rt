//! A page without its dead line pointers, its items put together at its end, as
//! `PageRepairFragmentation` and `compactify_tuples` in PostgreSQL's `bufpage.c` make it.
ghost use Rattle.std.specs.Prelude.{◌≡◌, ◌↔◌, false, true};
ghost use Rattle.page_layout.specs.Rewritten.{HasItemsOf, is_skipped, rewrite_of, rewritten_page};
ghost use Rattle.page_layout.specs.Soundness.{IsUsedPage, is_new_page, is_sound_page};

use crate::page::Page;

/// What becomes of a page.
#[derive(Clone, Copy, PartialEq, Eq, Debug)]
pub enum Rewrite {
    /// Rewritten, it is the same in all bytes.
    Same,
    /// Rewritten, it is another page, and this many of its line pointers were dead.
    Changed { dead: u16 },
    /// It is left alone: it has a checksum, a special space or a lower end within the header, an
    /// item that reaches out of the items' space, or more items than fit after the line pointers.
    Skipped,
}

/// Rewrites a page that is sound and not new into another, and says what became of it. A page that
/// is skipped leaves all bytes of the other as they are. Else the other has the rewritten page's
/// bytes, which are the page's own if it is the same. The log position is the page's.
/// A second rewrite can differ: an item without bytes can have another one's offset, and then the
/// one with the smaller number goes first.
pub fn rewritten(page: &Page, out: &mut Page) -> Rewrite
    requires sound { is_sound_page page.now ≡ true }
    requires used { is_new_page page.now ≡ false }
    ensures outcome { result ≡ rewrite_of page.now }
    ensures skipped { (result ≡ Rewrite.Skipped) ↔ (is_skipped page.now ≡ true) }
    ensures same { (result ≡ Rewrite.Same)
        ↔ ((is_skipped page.now ≡ false) × (rewritten_page page.now ≡ page.now)) }

    // What the other page holds afterwards.
    ensures left_alone { is_skipped page.now ≡ true → out.new ≡ out.old }
    ensures rewritten { is_skipped page.now ≡ false → out.new ≡ rewritten_page page.now }
    ensures items { is_skipped page.now ≡ false → HasItemsOf page.now out.new }
    ensures stays_used { is_skipped page.now ≡ false → IsUsedPage out.new }
{
    let before = page.bytes();
    if page.is_skipped() {
        return Rewrite::Skipped;
    }
    out.compact_from(page);
    if out.bytes() == before {
        return Rewrite::Same;
    }
    let dead = page.pointer_counts().dead;
    Rewrite::Changed { dead }
}
