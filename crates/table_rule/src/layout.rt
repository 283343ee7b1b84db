//! Where the words and the slots lie, as `specs/Layout.antt` has it.
ghost use Rattle.std.specs.Prelude.{◌≡◌};
ghost use Rattle.table_rule.specs.declared.turn.Place.TheVariants.{Of};
ghost use Rattle.table_rule.specs.Layout as layout;

use crate::turn::Turn;
use block_tag::PARTITIONS;

/// How many words a frame has: three that are used, and five so that frames share no cache line.
const FRAME_WORDS: usize = 8;

/// The most lanes of a table.
const MOST_LANES: usize = 16;

/// Where the first lane's latch and slot lie after those of the frames: after the partitions'.
const FIRST_LANE: usize = PARTITIONS as usize;

/// Where the log's latch and slot lie after those of the frames: after the lanes'.
pub(crate) const LOG_PLACE: usize = FIRST_LANE + MOST_LANES;

/// How many counters there are: hits, reads, writes, evictions and reuses, without a ring and for
/// each of the three kinds of ring.
pub const COUNTERS: u32 = 20;

/// How many hint words there are for each frame.
pub const HINTS_PER_FRAME: u32 = 4;

/// How many slots follow those of the frames: what the latches guard, and the list in which the
/// lanes came.
pub const OTHER_SLOTS: usize = LOG_PLACE + 2;

/// The place of a frame's state word.
pub fn state_place(frame: u32) -> usize
    ensures { result ≡ layout.state_place frame }
{
    FRAME_WORDS * frame as usize
}

/// The place of its tag word.
pub fn tag_place(frame: u32) -> usize
    ensures { result ≡ layout.tag_place frame }
{
    FRAME_WORDS * frame as usize + 1
}

/// The place of its content word.
pub fn content_place(frame: u32) -> usize
    ensures { result ≡ layout.content_place frame }
{
    FRAME_WORDS * frame as usize + 2
}

/// The place of a latch's word, in a table of so many frames.
pub fn latch_place(frames: u32, turn: Turn) -> usize
    ensures { result ≡ layout.latch_place frames turn }
{
    let first = FRAME_WORDS * frames as usize;
    match turn {
        Turn::Partition(partition) => first + partition as usize,
        Turn::Lane(lane) => first + FIRST_LANE + lane as usize,
        Turn::Log => first + LOG_PLACE,
    }
}

/// The slot of what a latch guards.
pub fn turn_slot(frames: u32, turn: Turn) -> usize
    ensures { result ≡ layout.slot_of frames (Of turn) }
{
    let first = frames as usize;
    match turn {
        Turn::Partition(partition) => first + partition as usize,
        Turn::Lane(lane) => first + FIRST_LANE + lane as usize,
        Turn::Log => first + LOG_PLACE,
    }
}

/// The place of the log's end, in a table of so many frames.
pub fn end_place(frames: u32) -> usize
    ensures { result ≡ layout.end_place frames }
{
    FRAME_WORDS * frames as usize + LOG_PLACE + 1
}

/// The place of the flushed position.
pub fn flushed_place(frames: u32) -> usize
    ensures { result ≡ layout.flushed_place frames }
{
    FRAME_WORDS * frames as usize + LOG_PLACE + 2
}

/// The place of the clock's hand.
pub fn hand_place(frames: u32) -> usize
    ensures { result ≡ layout.hand_place frames }
{
    FRAME_WORDS * frames as usize + LOG_PLACE + 3
}

/// The place of the redo position.
pub fn redo_place(frames: u32) -> usize
    ensures { result ≡ layout.redo_place frames }
{
    FRAME_WORDS * frames as usize + LOG_PLACE + 4
}

/// The place of a counter.
pub fn counter_place(frames: u32, number: u32) -> usize
    ensures { result ≡ layout.counter_place frames number }
{
    FRAME_WORDS * frames as usize + LOG_PLACE + 5 + number as usize
}

/// The place of a hint word.
pub fn hint_place(frames: u32, number: u32) -> usize
    ensures { result ≡ layout.hint_place frames number }
{
    FRAME_WORDS * frames as usize + LOG_PLACE + 5 + COUNTERS as usize + number as usize
}
