//! Pins, buffer headers, buffer tags, the partitions of the mapping table with their maps, and the
//! sizes of forks, as plain data: what a step may be, and what every list of steps keeps.
//!
//! Nothing here runs. The types are what a backend knows ([`View`]); the kinds of step, the
//! invariant that they keep and the lists of steps are in `specs/`, and docs/PROTOCOL.md and
//! docs/INVARIANT.md tell them in words. Begin with [`all_schedules`], whose clauses are the
//! promises.
#![tactic(auto)]

ghost use Rattle.std.specs.Prelude.{ℕ, List};
ghost use Rattle.pin_core.specs.State.{CanOpen, Config, Page, State, opening};
ghost use Rattle.pin_core.specs.Invariant.{AllAccounted, PinInvariant};
ghost use Rattle.pin_core.specs.Sizes.{SizesLaw};
ghost use Rattle.pin_core.specs.Steps.{Event, Run};
ghost use Rattle.pin_core.specs.Sample.{SampleRuns};
ghost use Rattle.pin_core.specs.Schedules.{IsReached, UsagesAreLow, TagWordsAreTags};
ghost use Rattle.pin_core.specs.Schedules.{TagWordsAreBlocks, SizeRights, SizesAreLogged};
ghost use Rattle.pin_core.specs.Schedules.{SeenBlocksStay, UntaggedFramesHaveOnePin};
ghost use Rattle.pin_core.specs.Schedules.{FlagsMatchTags, SeenFramesAreValid, TagsAreUnique};
ghost use Rattle.pin_core.specs.Schedules.{PinsAreCounted, PinnedFramesHavePins, PinsAreFew};
ghost use Rattle.pin_core.specs.Schedules.{HeadersAreHeld, HoldersHaveTheWord, PinsRemember};
ghost use Rattle.pin_core.specs.Schedules.{PinnedTagsStay, MapsAreExact, TurnsAreHeld};
ghost use Rattle.pin_core.specs.Schedules.{MapsAreAsSeen, MapsAreHome};

mod view;

pub use view::{
    BlockPage, Call, Content, DeviceCall, FailedCalls, Io, JoinedCheckpoint, LaneChange, LaneHold,
    LastWrite, Link, Load, LoadedWord, LogChange, LogHold, MapChange, MapEntry, PartitionHold,
    Resize, Role, SizeHold, SizeRight, View,
};

/// What every list of events keeps, whatever the backends do and in whatever order.
pub fn all_schedules()
    // The invariant holds at the start, and if it holds, it holds after every list of events: so it
    // holds in every state that events lead to.
    ensures kept { (es : List Event) (s : State) (t : State) → PinInvariant s → Run es s t
        → PinInvariant t }
    ensures opens { (config : Config) (page : Page) → CanOpen config
        → PinInvariant (opening config page) }
    ensures reached { (s : State) → IsReached s → PinInvariant s }
    // What holds of the sizes of forks holds at the start, and every list of events keeps it.
    ensures sizes_kept { (es : List Event) (s : State) (t : State) → PinInvariant s → SizesLaw s
        → Run es s t → SizesLaw t }
    ensures sizes_open { (config : Config) (page : Page) → SizesLaw (opening config page) }
    ensures sizes_reached { (s : State) → IsReached s → SizesLaw s }

    // If the invariant holds, so does this:
    ensures unique { (s : State) → PinInvariant s → TagsAreUnique s }
    ensures stay { (s : State) → PinInvariant s → PinnedTagsStay s }
    ensures counted { (s : State) → PinInvariant s → PinsAreCounted s }
    ensures accounted { (s : State) → PinInvariant s → AllAccounted s.views }
    ensures pinned { (s : State) → PinInvariant s → PinnedFramesHavePins s }
    ensures few { (s : State) → PinInvariant s → PinsAreFew s }
    ensures held { (s : State) → PinInvariant s → HeadersAreHeld s }
    ensures holders { (s : State) → PinInvariant s → HoldersHaveTheWord s }
    ensures usages { (s : State) → PinInvariant s → UsagesAreLow s }
    ensures packed { (s : State) → PinInvariant s → TagWordsAreTags s }
    ensures untagged { (s : State) → PinInvariant s → UntaggedFramesHaveOnePin s }
    ensures flags { (s : State) → PinInvariant s → FlagsMatchTags s }
    ensures seen { (s : State) → PinInvariant s → SeenFramesAreValid s }
    ensures remembers { (s : State) → PinInvariant s → PinsRemember s }
    ensures exact { (s : State) → PinInvariant s → MapsAreExact s }
    ensures taken { (s : State) → PinInvariant s → TurnsAreHeld s }
    ensures maps_seen { (s : State) → PinInvariant s → MapsAreAsSeen s }
    ensures maps_home { (s : State) → PinInvariant s → MapsAreHome s }

    // If what holds of the sizes of forks holds, so does this:
    ensures blocks { (s : State) → SizesLaw s → TagWordsAreBlocks s }
    ensures size_rights { (s : State) (fork : ℕ) → SizesLaw s → SizeRights s fork }
    ensures sizes_logged { (s : State) (fork : ℕ) → SizesLaw s → SizesAreLogged s fork }
    ensures seen_blocks { (s : State) → PinInvariant s → SizesLaw s → SeenBlocksStay s }
{}

/// An example: a backend misses a block and gives it a frame, another one hits it there, and the
/// first one's pin goes.
pub fn miss_and_hit()
    ensures { SampleRuns }
{}
