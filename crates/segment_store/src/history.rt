//! What clauses tell of a lane's calls.
ghost use Rattle.std.specs.Prelude.{◌≡◌, ◌+◌, true};
ghost use Rattle.segment_store.specs.Contents.{no_marks, with_mark};

use block_tag::Tag;
use byte_devices::CallCount;
use std::snapshot::Snapshot;

/// Blocks that were written, by their tags.
#[derive(Drop)]
pub enum WrittenTags {
    None,
    More {
        tag: Tag,
        others: Snapshot<WrittenTags>,
    },
}

/// The calls of a lane: how many there were, and which blocks were written since the last sync that
/// succeeded. Clauses read it; at run time nothing does.
#[derive(Drop)]
pub struct LaneHistory {
    calls: CallCount,
    written: WrittenTags,
}

impl LaneHistory {
    ghost use Rattle.segment_store.specs.History.{calls_in, unsynced_in};

    pub fn new() -> LaneHistory
        ensures calls { calls_in result ≡ 0 }
        ensures unsynced { unsynced_in result ≡ no_marks }
    {
        LaneHistory {
            calls: CallCount::new(),
            written: WrittenTags::None,
        }
    }

    /// Counts a call.
    pub fn count_call(&mut self)
        ensures calls { calls_in self.new ≡ calls_in self.old + 1 }
        ensures unsynced { unsynced_in self.new ≡ unsynced_in self.old }
    {
        self.calls.raise();
    }

    /// Marks a block that is written, whether or not that succeeds.
    pub fn mark_written(&mut self, tag: Tag)
        ensures calls { calls_in self.new ≡ calls_in self.old }
        ensures unsynced { unsynced_in self.new ≡ with_mark tag true (unsynced_in self.old) }
    {
        self.written = WrittenTags::More {
            tag,
            others: Snapshot::of(&self.written),
        };
    }

    /// Takes all marks away, after a sync that succeeded.
    pub fn mark_synced(&mut self)
        ensures calls { calls_in self.new ≡ calls_in self.old }
        ensures unsynced { unsynced_in self.new ≡ no_marks }
    {
        self.written = WrittenTags::None;
    }
}
