//! Lanes of blocks.
ghost use Rattle.std.specs.Prelude.{◌≡◌, ◌+◌, ◌<◌, ◌^◌, ℕ, Option, Some, OnOk, IfSome, IsSome};
ghost use Rattle.std.specs.Prelude.{MatchResult, true};
ghost use Rattle.std.specs.Option.{ForSome};
ghost use Rattle.byte_devices.specs.Faults.{HasCause};
ghost use Rattle.segment_store.specs.Contents.{AfterWrite, AreFullPages, HasRoom, Marks, Pages};
ghost use Rattle.segment_store.specs.Contents.{no_marks, with_mark};

use block_tag::Tag;
use byte_devices::Failed;
use page_layout::Page;

/// Blocks by their tags, as a storage manager keeps them for one backend at a time.
///
/// A call leaves what its clauses don't name as it was. A count never falls, and rises only in a
/// call that fails.
pub trait BlockLane {
    /// The pages by their tags, if the contents are known.
    ghost contents: { Self → Option Pages };

    /// The tags whose last write failed; it says something only if the contents are known.
    ghost failed_writes: { Self → Marks };

    /// The tags that were written since the last sync that succeeded.
    ghost unsynced: { Self → Marks };

    /// The blocks that the lane has room for, those that it holds among them; it says something
    /// only if the contents are known.
    ghost room: { Self → Marks };

    /// How many reads failed.
    ghost read_faults: { Self → ℕ };

    /// How many writes and syncs failed.
    ghost write_faults: { Self → ℕ };

    /// How many calls were made.
    ghost calls: { Self → ℕ };

    /// Reads a block of the lane into the page. After a failed read its contents are unspecified.
    fn read(&mut self, tag: Tag, page: &mut Page) -> Result<(), Failed>
        requires { ForSome (contents self.old) (λ pages. IsSome (pages tag)) }
        ensures page { OnOk result (IfSome (contents self.old)
            (λ pages. pages tag ≡ Some page.new)) }
        ensures contents { contents self.new ≡ contents self.old }
        ensures failed { failed_writes self.new ≡ failed_writes self.old }
        ensures unsynced { unsynced self.new ≡ unsynced self.old }
        ensures room { room self.new ≡ room self.old }
        ensures reads { HasCause (read_faults self.old) (read_faults self.new) result }
        ensures writes { write_faults self.new ≡ write_faults self.old }
        ensures calls { calls self.new ≡ calls self.old + 1 };

    /// Writes the page to a block, whether or not the lane has it.
    /// After a failed write the block's contents are unspecified; a block that the lane lacks may
    /// be refused: its pages and marks stay.
    /// Redo may name a block past the relation's end, and a full lane in memory has no room for a
    /// torn page there. The manager writes only blocks that its lanes have.
    fn write(&mut self, tag: Tag, page: &Page) -> Result<(), Failed>
        ensures written { AfterWrite tag page.now (contents self.old) (failed_writes self.old)
            (contents self.new) (failed_writes self.new) result }
        ensures unsynced { unsynced self.new ≡ with_mark tag true (unsynced self.old) }
        ensures room { room self.new ≡ room self.old }
        ensures writes { HasCause (write_faults self.old) (write_faults self.new) result }
        ensures reads { read_faults self.new ≡ read_faults self.old }
        ensures calls { calls self.new ≡ calls self.old + 1 };

    /// Syncs the lane: the writes so far survive a crash.
    fn sync(&mut self) -> Result<(), Failed>
        ensures contents { contents self.new ≡ contents self.old }
        ensures failed { failed_writes self.new ≡ failed_writes self.old }
        ensures unsynced { MatchResult result (λ _. unsynced self.new ≡ no_marks)
            (λ _. unsynced self.new ≡ unsynced self.old) }
        ensures room { room self.new ≡ room self.old }
        ensures writes { HasCause (write_faults self.old) (write_faults self.new) result }
        ensures reads { read_faults self.new ≡ read_faults self.old }
        ensures calls { calls self.new ≡ calls self.old + 1 };

    ghost read_faults_fit: { (lane : Self) → read_faults lane < 2 ^ 64 };

    ghost write_faults_fit: { (lane : Self) → write_faults lane < 2 ^ 64 };

    ghost whole: { (lane : Self) → IfSome (contents lane) AreFullPages };

    ghost has_room: { (lane : Self) → IfSome (contents lane) (HasRoom (room lane)) };
}
