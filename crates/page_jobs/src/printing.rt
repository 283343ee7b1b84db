//! What is printed of blocks.
ghost use Rattle.std.specs.Prelude.{◌≡◌, ◌+◌, ◌<◌, ◌^◌, ◌++◌, [], OnErr, OnOk};
ghost use Rattle.page_layout.specs.Scan.{IsWithin, counted, no_totals};
ghost use Rattle.page_jobs.specs.declared.printing.Lines.TheVariants.{Dump};
ghost use Rattle.page_jobs.specs.Printed.{found_lines, found_summary};

use crate::reading::PageRead;
use page_layout::{Memory, Page, PageSummary, ScanTotals, append_line, dump_lines};
use std::alloc::Global;

/// The lines that a job prints of a block.
#[derive(Clone, Copy)]
pub(crate) enum Lines {
    /// One, of the page.
    Scan,
    /// That line, and one for each line pointer.
    Dump,
}

impl PageRead {
    /// What a scan tells of the block. All bytes of a sound page, which is this, are looked at.
    fn summary(&self, page: &Page) -> PageSummary
        ensures { result ≡ found_summary self.now page.now }
    {
        match self {
            PageRead::Sound => page.summary(),
            PageRead::Unsound => PageSummary::Invalid,
        }
    }

    /// Adds the dump of the block to a text.
    fn append_dump(
        &self,
        alloc: Global,
        block: u32,
        page: &Page,
        text: &mut Vec<u8>,
    ) -> Result<(), Memory>
        ensures lines { OnOk result
            (text.new.items ≡ text.old.items ++ found_lines Dump block self.now page.now) }
        ensures same { OnErr result (text.new.items ≡ text.old.items) }
    {
        match self {
            PageRead::Sound => dump_lines(alloc, block, page, text),
            PageRead::Unsound => append_line(alloc, block, &PageSummary::Invalid, text),
        }
    }
}

/// What was printed of some blocks, and their totals.
#[derive(Drop)]
pub(crate) struct Printed {
    pub(crate) text: Vec<u8>,
    pub(crate) totals: ScanTotals,
}

impl Printed {
    /// Nothing.
    pub(crate) fn none(alloc: Global) -> Printed
        ensures text { result.text.items ≡ [] }
        ensures totals { result.totals ≡ no_totals }
    {
        Printed {
            text: Vec::new(alloc),
            totals: ScanTotals::none(),
        }
    }

    /// Adds a block, of whose page this was found: `page`, if it is sound.
    pub(crate) fn add(
        &mut self,
        alloc: Global,
        lines: Lines,
        block: u32,
        found: &PageRead,
        page: &Page,
    ) -> Result<(), Memory>
        requires within { IsWithin self.old.totals self.old.totals.blocks }
        requires room { self.old.totals.blocks < 2 ^ 32 }
        ensures lines { OnOk result
            (self.new.text.items
            ≡ self.old.text.items ++ found_lines lines block found.now page.now) }
        ensures totals { OnOk result
            (self.new.totals ≡ counted self.old.totals (found_summary found.now page.now)) }
        ensures within { OnOk result (IsWithin self.new.totals (self.old.totals.blocks + 1)) }
        ensures same { OnErr result
            ((self.new.text.items ≡ self.old.text.items) × (self.new.totals ≡ self.old.totals)) }
    {
        let summary = found.summary(page);
        match lines {
            Lines::Scan => append_line(alloc, block, &summary, &mut self.text)?,
            Lines::Dump => found.append_dump(alloc, block, page, &mut self.text)?,
        }
        self.totals.count(&summary);
        Ok(())
    }
}
