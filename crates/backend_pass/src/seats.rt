//! The seat of a pass leaves its badge while the pass works with it.
ghost use Rattle.std.specs.Prelude.{◌≡◌, ◌∷◌, []};
ghost use Rattle.backend_pass.specs.Passes.{view_in};
ghost use Rattle.backend_pass.specs.Seats.{IsSeatOf};

use atomic_table::{Badge, Seat};
use byte_devices::LogDevice;
use frame_table::Value;
use pin_core::View;
use segment_store::BlockLane;
use std::mem::replace;

/// Takes the seat out of its badge.
pub(crate) fn take_seat<L: BlockLane, G: LogDevice>(
    badge: &mut Badge<View>,
) -> Seat<Value<L, G>, View>
    requires { badge.old.views ≡ view_in badge.old.views ∷ [] }
    ensures { IsSeatOf badge.old result }
{
    replace(badge, Badge::blank()).into_seat::<Value<L, G>>()
}

/// Puts the seat back, which has no slot.
pub(crate) fn return_seat<L: BlockLane, G: LogDevice>(
    badge: &mut Badge<View>,
    seat: Seat<Value<L, G>, View>,
)
    requires { seat.me.1 ≡ [] }
    ensures { IsSeatOf badge.new seat }
{
    *badge = seat.into_badge();
}
