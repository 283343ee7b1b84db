//! Hints: which frame may have a block. It may have another one, or none.
//!
//! There are four hint words, 32 bytes, for each frame. The hash is a sum, so two blocks of a fork
//! share a word only if they are a multiple of four times the pool's size apart. A hint of another
//! block's frame costs a pin of the wrong frame; then the block is found by the map.
ghost use Rattle.std.specs.Prelude.{◌≡◌, ◌<◌, ◌%◌, IfSome};
ghost use Rattle.history_core.specs.Words.{hint_count};
ghost use Rattle.frame_table.specs.Seats.{IsSeat, SameSeat, frames_of};
ghost use Rattle.frame_table.specs.WordSteps.{load_hint, view_of};
ghost use Rattle.map_partitions.specs.Hints.{LoadsHint, StoresHint, hint_number, hint_value};

use atomic_table::Seat;
use block_tag::Tag;
use byte_devices::LogDevice;
use frame_table::FrameTable;
use pin_core::View;
use segment_store::BlockLane;
use table_rule::Value;

/// A number modulo a count: by a mask if that is a power of two, since a division would take longer
/// than the rest of the way to a hint.
fn remainder(number: u64, count: u64) -> u64
    requires { 0 < count }
    ensures { result ≡ number % count }
{
    let bits = count.trailing_zeros();
    if bits < 64 && 1 << bits == count {
        return number & ((1 << bits) - 1);
    }
    number % count
}

/// The number of the tag's hint word.
fn number_of<L: BlockLane, G: LogDevice>(table: &FrameTable<L, G>, tag: &Tag) -> u32
    ensures number { result ≡ hint_number tag.now (frames_of table.now) }
    ensures below { result < hint_count (frames_of table.now) }
{
    remainder(tag.hash(), u64::from(table.hint_word_count())) as u32
}

/// The frame that the tag's hint word names.
pub fn load_hint<L: BlockLane, G: LogDevice>(
    table: &FrameTable<L, G>,
    seat: &mut Seat<Value<L, G>, View>,
    tag: &Tag,
) -> Option<u32>
    requires seat { IsSeat table.now seat.old }
    ensures seat { SameSeat seat.old seat.new }
    ensures inside { IfSome result (λ frame. frame < frames_of table.now) }
    ensures view { seat.new.me.0 ≡ view_of (load_hint (hint_number tag.now (frames_of table.now)))
        (hint_value result) seat.old.me.0 }
    ensures did { LoadsHint (frames_of table.now) tag.now result seat.old.me.0 seat.new.me.0 }
{
    let word = table.load_hint(seat, number_of(table, tag));
    if word == 0 {
        return None;
    }
    Some((word - 1) as u32)
}

/// Stores the frame in the tag's hint word.
pub fn store_hint<L: BlockLane, G: LogDevice>(
    table: &FrameTable<L, G>,
    seat: &mut Seat<Value<L, G>, View>,
    tag: &Tag,
    frame: u32,
)
    requires seat { IsSeat table.now seat.old }
    requires inside { frame < frames_of table.now }
    ensures seat { SameSeat seat.old seat.new }
    ensures did { StoresHint (frames_of table.now) tag.now frame seat.old.me.0 seat.new.me.0 }
{
    table.store_hint(seat, number_of(table, tag), u64::from(frame) + 1);
}
