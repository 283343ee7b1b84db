//! A place for a block in memory.
ghost use Rattle.std.specs.Prelude.{◌≡◌, false, length, true};

use page_layout::{PAGE_SIZE, Page};

/// A place for a block in memory: its page, whether its last write failed, and whether the block is
/// there.
#[derive(Drop)]
pub struct MemBlock {
    pub(crate) page: Page,
    pub(crate) failed: bool,
    pub(crate) there: bool,
    ghost whole: { length page ≡ 8192 },
}

impl MemBlock {
    ghost use Rattle.segment_store.specs.MemoryLane.{torn_page};

    /// Takes the page, as a write does that succeeds.
    pub(crate) fn take(&mut self, page: &Page)
        ensures page { self.new.page ≡ page.now }
        ensures failed { self.new.failed ≡ false }
        ensures there { self.new.there ≡ true }
    {
        self.page.fill(page.bytes());
        self.failed = false;
        self.there = true;
    }

    /// Leaves another page than it was, as a write does that was cut off.
    pub(crate) fn tear(&mut self, page: &Page)
        ensures page { self.new.page ≡ torn_page self.old.page page.now }
        ensures failed { self.new.failed ≡ true }
        ensures there { self.new.there ≡ self.old.there }
    {
        let last = self.page.bytes()[PAGE_SIZE - 1];
        let mut bytes = [0; PAGE_SIZE];
        bytes.copy_from_slice(page.bytes());
        bytes[PAGE_SIZE - 1] = last.wrapping_add(1);
        self.page.fill(&bytes);
        self.failed = true;
    }
}
