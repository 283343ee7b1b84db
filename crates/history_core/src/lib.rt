//! Lanes, the log, and the history of reads and writes, as plain data: what a step may be, and what
//! every list of steps keeps.
//!
//! Nothing here runs. The types are those of `pin_core`; the kinds of step, the law that they keep
//! and the lists of steps are in `specs/`, and docs/PROTOCOL.md and docs/INVARIANT.md tell them in
//! words. Begin with [`all_histories`], whose clauses are the promises.
#![tactic(auto)]

ghost use Rattle.std.specs.Prelude.{◌≡◌, ℕ, ◌<◌, List};
ghost use Rattle.pin_core.specs.State.{CanOpen, Config, Page};
ghost use Rattle.pin_core.specs.Sizes.{NotedAreAtSize, PassedAreFree};
ghost use Rattle.pin_core.specs.Schedules.{TagsAreUnique, TagWordsAreBlocks, PinsRemember};
ghost use Rattle.pin_core.specs.Schedules.{SizeRights, SizesAreLogged, SeenBlocksStay};
ghost use Rattle.page_core.specs.Histories.{CleanupIsAlone};
ghost use Rattle.page_core.specs.Invariant.{OthersHaveNoPage};
ghost use Rattle.history_core.specs.State.{CanStore, State, Store, opening};
ghost use Rattle.history_core.specs.Laws.{Laws};
ghost use Rattle.history_core.specs.Ends.{EndsLaw};
ghost use Rattle.history_core.specs.History.{EndsInHistory};
ghost use Rattle.history_core.specs.Lasting.{LogGrows, OpeningStays};
ghost use Rattle.history_core.specs.Sound.{ShowsSound, UnsoundAreFirst, UnsoundStay};
ghost use Rattle.history_core.specs.Promises.{CheckpointsStore, GrantsAreAlone, PinnedTagsStay};
ghost use Rattle.history_core.specs.Promises.{SweepsStore};
ghost use Rattle.history_core.specs.Sizes.{BlocksThere};
ghost use Rattle.history_core.specs.Unentered.{DirtyHaveEntries, WrittenHaveEntries};
ghost use Rattle.history_core.specs.Crashes.{CrashesRedo};
ghost use Rattle.history_core.specs.Torn.{CrashRuns};
ghost use Rattle.history_core.specs.Counters.{CountersAreBounded, CountersAreSums};
ghost use Rattle.history_core.specs.Residents.{LoadsMarkGone, LostWereCleared, PinsAreListed};
ghost use Rattle.history_core.specs.Residents.{ResidentsStay};
ghost use Rattle.history_core.specs.Redo.{RangesFollowImages, TestsStood};
ghost use Rattle.history_core.specs.Rest.{HasRest};
ghost use Rattle.history_core.specs.Trail.{HasSameWords, ListedIsMade};
ghost use Rattle.history_core.specs.Steps.{Event, Run};
ghost use Rattle.history_core.specs.Sample.{SampleRuns};
ghost use Rattle.history_core.specs.Miss.{MissRuns};
ghost use Rattle.history_core.specs.Put.{PutRuns};
ghost use Rattle.history_core.specs.Ranges.{RangesRuns};
ghost use Rattle.history_core.specs.Faults.{FaultRuns};
ghost use Rattle.history_core.specs.Checkpoints.{CheckpointRuns};
ghost use Rattle.history_core.specs.Evictions.{EvictionRuns, WaitRuns};
ghost use Rattle.page_core.specs.Histories.{NewBlocksAreZero};
ghost use Rattle.history_core.specs.Histories.{SizesFollowLog, IsReached, BlocksAreThere};
ghost use Rattle.history_core.specs.Histories.{CallsAreLegal, EntriesAreOfBlocks, ImagesAlone};
ghost use Rattle.history_core.specs.Histories.{RedoIsListed, ReadsAtBase, SyncsMakeDurable};
ghost use Rattle.history_core.specs.Histories.{SyncsCover, JoinedAreApart, CallsAreOwn};
ghost use Rattle.history_core.specs.Histories.{FrontsAreReached, CallsStay, CallsAreInOrder};
ghost use Rattle.history_core.specs.Histories.{LoadedIsFlushed, LanesGoOutFlushed};
ghost use Rattle.history_core.specs.Histories.{HoldsKeepFlushed, NotedWritesAreDone, LogIsHeld};
ghost use Rattle.history_core.specs.Histories.{HintsNameFrames, WritesAreEntries, ReadsStand};
ghost use Rattle.history_core.specs.Histories.{SizesStand, WritesStand, LogBeforeData};
ghost use Rattle.history_core.specs.Histories.{LanesHoldFlushedPages, CleanBlocksAreStored};
ghost use Rattle.history_core.specs.Histories.{FramesAreSound, FramesHoldCells, LogWords};
ghost use Rattle.history_core.specs.Histories.{EntriesAreDurable, DeviceHoldsLog, LanesAreHeld};

/// What every list of events keeps, whatever the backends do and in whatever order.
pub fn all_histories()
    // Every list of events leads from a state that has the law to one that has it, and the state at
    // the start has it.
    ensures kept { (es : List Event) (s : State) (t : State) → Laws s → Run es s t → Laws t }
    ensures opens { (config : Config) (store : Store) (page : Page)
        → CanOpen config → CanStore config store → Laws (opening config store page) }
    ensures laws { (s : State) → IsReached s → Laws s }

    // What is fixed at the start stays so, and if the law holds, the log only grows.
    ensures fixed { (s : State) → OpeningStays s }
    ensures grows { (s : State) → Laws s → LogGrows s }

    // Of what backends read and wrote:
    ensures legal { (s : State) → Laws s → CallsAreLegal s }
    ensures apart { (s : State) → Laws s → JoinedAreApart s }
    ensures own { (s : State) → Laws s → CallsAreOwn s }
    ensures fronts { (s : State) → Laws s → FrontsAreReached s }
    ensures calls_stay { (s : State) → CallsStay s }
    ensures in_order { (s : State) → Laws s → CallsAreInOrder s }
    ensures entries { (s : State) → Laws s → WritesAreEntries s }
    ensures images_alone { (s : State) → Laws s → ImagesAlone s }
    ensures redo { (s : State) → Laws s → RedoIsListed s }
    ensures ranges_follow { (s : State) → Laws s → RangesFollowImages s }
    ensures tested { (s : State) → Laws s → TestsStood s }
    ensures of_blocks { (s : State) → Laws s → EntriesAreOfBlocks s }
    ensures at_base { (s : State) → Laws s → ReadsAtBase s }
    ensures reads_stand { (s : State) → Laws s → ReadsStand s }
    ensures sizes_stand { (s : State) → Laws s → SizesStand s }
    ensures writes_stand { (s : State) → Laws s → WritesStand s }

    // Of the log and the lanes:
    ensures there { (s : State) → Laws s → BlocksAreThere s }
    ensures log_first { (s : State) → Laws s → LogBeforeData s }
    ensures go_out_flushed { (s : State) → Laws s → LanesGoOutFlushed s }
    ensures holds_keep { (s : State) → HoldsKeepFlushed s }
    ensures loaded { (s : State) → Laws s → LoadedIsFlushed s }
    ensures syncs { (s : State) → SyncsMakeDurable s }
    ensures lanes_hold { (s : State) → Laws s → LanesHoldFlushedPages s }
    ensures noted_done { (s : State) → Laws s → NotedWritesAreDone s }
    ensures clean_stored { (s : State) → Laws s → CleanBlocksAreStored s }
    ensures words { (s : State) → Laws s → LogWords s }
    ensures ends { (s : State) → Laws s → EndsLaw s }
    ensures durable { (s : State) → Laws s → EntriesAreDurable s }
    ensures device_holds { (s : State) → Laws s → DeviceHoldsLog s }
    ensures behind { (s : State) → Laws s → HasRest s }
    ensures held { (s : State) → Laws s → LanesAreHeld s }
    ensures log_held { (s : State) → Laws s → LogIsHeld s }

    // Of what a crash may lose, and of redo after it:
    ensures covered { (s : State) → Laws s → SyncsCover s }
    ensures dirty_have { (s : State) → Laws s → DirtyHaveEntries s }
    ensures written_have { (s : State) → Laws s → WrittenHaveEntries s }
    ensures crashes { (s : State) → Laws s → CrashesRedo s }

    // Of the sizes of forks. No step makes one grow or shrink yet: no block is noted as new, and no
    // frame is passed for a cut, so `new_blocks`, `noted` and `passed` say nothing so far:
    ensures size_rights { (s : State) (fork : ℕ) → Laws s → SizeRights s.pool.core fork }
    ensures sizes_logged { (s : State) (fork : ℕ) → Laws s → SizesAreLogged s.pool.core fork }
    ensures seen_blocks { (s : State) → Laws s → SeenBlocksStay s.pool.core }
    ensures new_blocks { (s : State) → Laws s → NewBlocksAreZero s.pool }
    ensures tags { (s : State) → Laws s → TagWordsAreBlocks s.pool.core }
    ensures noted { (s : State) → Laws s → NotedAreAtSize s.pool.core }
    ensures passed { (s : State) → Laws s → PassedAreFree s.pool.core }
    ensures others { (s : State) → Laws s → OthersHaveNoPage s.pool }
    ensures by_log { (s : State) → Laws s → SizesFollowLog s }

    // Of the frames, and of the blocks that backends have seen there:
    ensures sound { (s : State) → Laws s → FramesAreSound s }
    ensures shows_sound { (s : State) → Laws s → ShowsSound s }
    ensures unsound { (s : State) → Laws s → UnsoundStay s }
    ensures unsound_first { (s : State) → Laws s → UnsoundAreFirst s }
    ensures hold_cells { (s : State) → Laws s → FramesHoldCells s }
    ensures hints { (s : State) → Laws s → HintsNameFrames s }
    ensures residents { (s : State) → Laws s → LostWereCleared s }
    ensures residents_stay { (s : State) → Laws s → ResidentsStay s }
    ensures sighted { (s : State) → Laws s → PinsAreListed s }
    ensures marked { (s : State) → LoadsMarkGone s }
    ensures unique { (s : State) → Laws s → TagsAreUnique s.pool.core }
    ensures remembers { (s : State) → Laws s → PinsRemember s.pool.core }

    // Of the counters:
    ensures counters { (s : State) → Laws s → CountersAreSums s }
    ensures bounded { (s : State) → Laws s → CountersAreBounded s }
{}

/// No block has two frames.
pub fn one_frame_for_a_block()
    ensures { (s : State) → Laws s → TagsAreUnique s.pool.core }
{}

/// While a backend has a handed-out pin of it, a frame keeps its tag, whatever the others do.
pub fn pinned_tags_stay()
    ensures { (s : State) → Laws s → PinnedTagsStay s }
{}

/// The cleanup lock (`LockBufferForCleanup`): if the reference count is 1 and a backend pins the
/// frame, no other backend does; and if a backend has the content lock exclusively, no other has
/// one there.
pub fn cleanup_is_alone()
    ensures { (s : State) (f : ℕ) → Laws s → f < s.pool.core.frames → CleanupIsAlone s.pool f }
{}

/// The step at which a cleanup lock is granted (`LockBufferForCleanup`): a load of the state word
/// under the exclusive content lock, which sees a reference count of 1. Then no other backend has a
/// pin or a content lock there.
pub fn cleanup_is_granted()
    ensures { (s : State) → Laws s → GrantsAreAlone s }
{}

/// The end of a checkpoint (`CheckPointBuffers`): each entry of the log up to where it began is
/// durable and in its block's lane, or that block's last write failed, and its frame is valid and
/// dirty.
pub fn checkpoints_store()
    ensures { (s : State) → Laws s → CheckpointsStore s }
{}

/// The end of a checkpoint's syncs: if a backend has swept each lane up to a position, the syncs
/// have covered each entry of the log up to there, and it is durable and in its block's lane, or
/// that block's last write failed, and its frame is valid and dirty.
pub fn sweeps_store()
    ensures { (s : State) → Laws s → SweepsStore s }
{}

/// Once all backends but the first have ended, what they all read and wrote is one history of the
/// log.
pub fn ends_in_history()
    ensures { (s : State) → Laws s → EndsInHistory s }
{}

/// Two states with the same views have the same state words, hint words, counters, flushed position
/// and place of the clock's hand; and the same redo position, if their logs begin at one place.
pub fn lists_fix_words()
    ensures { (s : State) (t : State)
        → Laws s → Laws t → s.pool.core.views ≡ t.pool.core.views → HasSameWords s t }
{}

/// What a view lists of changes, stores, additions, moves and raised positions was made, and
/// nothing that no view lists.
pub fn listed_changes_are_made()
    ensures { (s : State) (t : State) → Laws s → Laws t → ListedIsMade s t }
{}

/// An example: a backend reads a block from its lane, and makes the log durable.
pub fn lane_read_and_log_flush()
    ensures { SampleRuns }
{}

/// An example: a backend misses a block, reads it from its lane into a frame, copies the page and
/// gives the read its place.
pub fn miss_and_read()
    ensures { MissRuns }
{}

/// An example: a backend puts any sound page into a frame that it has read a block into, makes the
/// log durable, and writes the page to the block's lane.
pub fn put_and_flush()
    ensures { PutRuns }
{}

/// An example: after a put of a whole page a backend logs a change of four bytes of the block as a
/// record of byte ranges, since the page's position is past the redo position; then the redo
/// position is raised to the log's end.
pub fn put_ranges_and_raise_redo()
    ensures { RangesRuns }
{}

/// An example: a backend fails to read a block from its lane into a frame; then it syncs the lane,
/// and fails to sync it again.
pub fn failed_read_and_syncs()
    ensures { FaultRuns }
{}

/// An example: after a backend has put a page into a frame, the checkpoint of a second one, from
/// its beginning to the sync of the lane, and the join of the second backend into the first.
pub fn checkpoint_and_join()
    ensures { CheckpointRuns }
{}

/// An example: a backend evicts the block that it has read into a frame; then a load of the tag
/// shows it that the block is gone.
pub fn read_and_evict()
    ensures { EvictionRuns }
{}

/// An example: a backend waits for a cleanup lock of a frame that another one pins, is woken, and
/// gets it.
pub fn cleanup_wait()
    ensures { WaitRuns }
{}

/// Two examples of a crash. After a put that was flushed and written, and an append that tore the
/// next record, redo brings the page back, whatever is left of it. After a frame was marked dirty
/// with no entry made, and written, nothing does.
pub fn crash_and_redo()
    ensures { CrashRuns }
{}

/// After entries that fit the forks' sizes, and after those up to any position, a block is there
/// exactly below its fork's size.
pub fn blocks_there()
    ensures { BlocksThere }
{}
