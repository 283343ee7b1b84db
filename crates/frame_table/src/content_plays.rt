//! What each step of content locks, of input and output, and of waits tells its seat.
ghost use Rattle.frame_table.specs.FrameSteps.{always, if_found};
ghost use Rattle.frame_table.specs.Kinds.{pages};
ghost use Rattle.frame_table.specs.Content.{looking_content};
ghost use Rattle.page_core.specs.Kinds as page;

use crate::plays::Does;

pub(crate) struct LookContent;

impl Does for LookContent {
    ghost choice = { always looking_content };
}

pub(crate) struct Share;

impl Does for Share {
    ghost choice = { if_found (pages page.share) };
}

pub(crate) struct Exclude;

impl Does for Exclude {
    ghost choice = { if_found (pages page.exclude) };
}

pub(crate) struct TakeCopy;

impl Does for TakeCopy {
    ghost choice = { if_found (pages page.take_copy) };
}

pub(crate) struct Unshare;

impl Does for Unshare {
    ghost choice = { always (pages page.unshare) };
}

pub(crate) struct Unexclude;

impl Does for Unexclude {
    ghost choice = { always (pages page.unexclude) };
}

pub(crate) struct LeaveCopy;

impl Does for LeaveCopy {
    ghost choice = { always (pages page.leave_copy) };
}

pub(crate) struct MarkDirty;

impl Does for MarkDirty {
    ghost choice = { if_found (pages page.mark_dirty) };
}

pub(crate) struct ClearJustDirtied;

impl Does for ClearJustDirtied {
    ghost choice = { always (pages page.clear_just_dirtied) };
}

pub(crate) struct NeedCheckpoint;

impl Does for NeedCheckpoint {
    ghost choice = { always (pages page.need_checkpoint) };
}

pub(crate) struct ClearWaiter;

impl Does for ClearWaiter {
    ghost choice = { always (pages page.clear_waiter) };
}
