//! Content locks, pages, input and output, as plain data: what a step may be, and what every list
//! of steps keeps.
//!
//! Nothing here runs. The types are those of `pin_core`; the kinds of step, the invariant that they
//! keep and the lists of steps are in `specs/`, and docs/PROTOCOL.md and docs/INVARIANT.md tell
//! them in words. Begin with [`all_histories`], whose clauses are the promises.
#![tactic(auto)]

ghost use Rattle.std.specs.Prelude.{ℕ, ◌<◌, List, Option};
ghost use Rattle.pin_core.specs.State.{CanOpen, Config, Page};
ghost use Rattle.pin_core.specs.Schedules.{UsagesAreLow, TagWordsAreTags, TagWordsAreBlocks};
ghost use Rattle.pin_core.specs.Schedules.{SizeRights, SizesAreLogged, SeenBlocksStay};
ghost use Rattle.pin_core.specs.Schedules.{UntaggedFramesHaveOnePin, FlagsMatchTags};
ghost use Rattle.pin_core.specs.Schedules.{SeenFramesAreValid, TagsAreUnique, PinsAreCounted};
ghost use Rattle.pin_core.specs.Schedules.{PinnedFramesHavePins, PinsAreFew, HeadersAreHeld};
ghost use Rattle.pin_core.specs.Schedules.{HoldersHaveTheWord, PinsRemember, MapsAreExact};
ghost use Rattle.pin_core.specs.Schedules.{TurnsAreHeld, MapsAreAsSeen, MapsAreHome};
ghost use Rattle.pin_core.specs.Invariant.{AllAccounted};
ghost use Rattle.page_core.specs.State.{State, opening};
ghost use Rattle.page_core.specs.Invariant.{OthersHaveNoPage, PageInvariant};
ghost use Rattle.page_core.specs.Steps.{Event, Run};
ghost use Rattle.page_core.specs.Histories.{IsReached, PinnedTagsStay, ContentLocks, SharersAreFew};
ghost use Rattle.page_core.specs.Histories.{OneIo, RightsNeedPins, CopyLatches};
ghost use Rattle.page_core.specs.Histories.{DirtiedFramesAreDirty, OnePageOut, PagesAreHome};
ghost use Rattle.page_core.specs.Histories.{ImagesAreLogged, FramesHoldPages, ValidPagesAreSound};
ghost use Rattle.page_core.specs.Histories.{NewBlocksAreZero, CopiesArePages, WaitersAreNamed};
ghost use Rattle.page_core.specs.Histories.{BackendsWaitOnce, CleanupIsAlone};
ghost use Rattle.page_core.specs.Sample.{SampleRuns, CleanupRuns};

/// What every list of events keeps, whatever the backends do and in whatever order.
pub fn all_histories()
    // The invariant holds at the start, and if it holds, it holds after every list of events: so it
    // holds in every state that events lead to.
    ensures kept { (es : List Event) (s : State) (t : State) → PageInvariant s → Run es s t
        → PageInvariant t }
    ensures opens { (config : Config) (origin : ℕ → Option Page) (page : Page) → CanOpen config
        → PageInvariant (opening config origin page) }
    ensures reached { (s : State) → IsReached s → PageInvariant s }

    // If the invariant holds, this holds of pins, tags, maps and sizes:
    ensures counted { (s : State) → PageInvariant s → PinsAreCounted s.core }
    ensures pinned { (s : State) → PageInvariant s → PinnedFramesHavePins s.core }
    ensures few { (s : State) → PageInvariant s → PinsAreFew s.core }
    ensures accounted { (s : State) → PageInvariant s → AllAccounted s.core.views }
    ensures held { (s : State) → PageInvariant s → HeadersAreHeld s.core }
    ensures holders { (s : State) → PageInvariant s → HoldersHaveTheWord s.core }
    ensures unique { (s : State) → PageInvariant s → TagsAreUnique s.core }
    ensures stay { (s : State) → PageInvariant s → PinnedTagsStay s }
    ensures exact { (s : State) → PageInvariant s → MapsAreExact s.core }
    ensures usages { (s : State) → PageInvariant s → UsagesAreLow s.core }
    ensures packed { (s : State) → PageInvariant s → TagWordsAreTags s.core }
    ensures blocks { (s : State) → PageInvariant s → TagWordsAreBlocks s.core }
    ensures size_rights { (s : State) (fork : ℕ) → PageInvariant s → SizeRights s.core fork }
    ensures sizes_logged { (s : State) (fork : ℕ) → PageInvariant s → SizesAreLogged s.core fork }
    ensures seen_blocks { (s : State) → PageInvariant s → SeenBlocksStay s.core }
    ensures new_blocks { (s : State) → PageInvariant s → NewBlocksAreZero s }
    ensures others { (s : State) → PageInvariant s → OthersHaveNoPage s }
    ensures untagged { (s : State) → PageInvariant s → UntaggedFramesHaveOnePin s.core }
    ensures flags { (s : State) → PageInvariant s → FlagsMatchTags s.core }
    ensures seen { (s : State) → PageInvariant s → SeenFramesAreValid s.core }
    ensures remembers { (s : State) → PageInvariant s → PinsRemember s.core }
    ensures taken { (s : State) → PageInvariant s → TurnsAreHeld s.core }
    ensures maps_seen { (s : State) → PageInvariant s → MapsAreAsSeen s.core }
    ensures maps_home { (s : State) → PageInvariant s → MapsAreHome s.core }

    // of content locks, pages, input and output:
    ensures locks { (s : State) (f : ℕ) → PageInvariant s → f < s.core.frames → ContentLocks s f }
    ensures sharers { (s : State) → PageInvariant s → SharersAreFew s }
    ensures one_io { (s : State) (f : ℕ) → PageInvariant s → f < s.core.frames → OneIo s f }
    ensures rights { (s : State) → PageInvariant s → RightsNeedPins s }
    ensures copy_latches { (s : State) (f : ℕ) → PageInvariant s → f < s.core.frames
        → CopyLatches s f }
    ensures dirtied { (s : State) → PageInvariant s → DirtiedFramesAreDirty s }
    ensures one_out { (s : State) → PageInvariant s → OnePageOut s }
    ensures pages_home { (s : State) → PageInvariant s → PagesAreHome s }
    ensures applies { (s : State) → PageInvariant s → ImagesAreLogged s }
    ensures sound { (s : State) → PageInvariant s → ValidPagesAreSound s }

    // of waits for a cleanup lock:
    ensures waiters { (s : State) (f : ℕ) → PageInvariant s → f < s.core.frames
        → WaitersAreNamed s f }
    ensures one_wait { (s : State) → PageInvariant s → BackendsWaitOnce s }
    ensures granted { (s : State) (f : ℕ) → PageInvariant s → f < s.core.frames
        → CleanupIsAlone s f }

    // and this of what frames hold and what was copied and read. It rests on what `CanNoteRead`
    // asks: that a read gives the block's page after the log, if that is known. `history_core`,
    // which has the lanes, shows that reads do:
    ensures frames_hold { (s : State) → PageInvariant s → FramesHoldPages s }
    ensures copies_are { (s : State) → PageInvariant s → CopiesArePages s }
{}

/// An example: a backend misses a block and reads it into a frame, copies its page under a shared
/// lock, and evicts it.
pub fn miss_read_copy_evict()
    ensures { SampleRuns }
{}

/// An example: a backend waits for a cleanup lock of a frame that another one pins, is woken, and
/// gets it.
pub fn cleanup_wait()
    ensures { CleanupRuns }
{}
