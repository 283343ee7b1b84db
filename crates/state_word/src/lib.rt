//! The state word of a frame of the buffer pool: reference count, usage count and flags packed into
//! one number, so that one atomic operation changes them together.
//!
//! Bits 0 to 31 lie as in PostgreSQL 16's `src/include/storage/buf_internals.h`:
//!
//! | Bits | Field |
//! |---|---|
//! | 0 to 17 | reference count |
//! | 18 to 21 | usage count |
//! | 22 to 31 | the flags, in the order of [`Flag`] |
//! | 32 to 63 | the number of the backend that waits, while `PIN_COUNT_WAITER` is set, else 0 |
//!
//! The high half is this project's own: PostgreSQL keeps the waiter in the buffer descriptor, as
//! `wait_backend_pgprocno`.
//!
//! The functions are pure. Each change takes a word and gives the word after it, and its contract
//! says what becomes of each field, as `specs/Fields.antt` has it: a field that it does not name
//! stays. They hold for every word, also for one that the manager never makes, as one with a usage
//! count of 9. The functions of PostgreSQL that the docs name are in
//! `src/backend/storage/buffer/bufmgr.c`.
#![tactic(auto)]

ghost use Rattle.std.specs.Prelude.{◌≡◌, ◌+◌, ◌<◌, ◌^◌, ℕ, true, false};
ghost use Rattle.state_word.specs.Fields.{fields, flag_of, pinned_fields, unpinned_fields};
ghost use Rattle.state_word.specs.Fields.{locked_fields, unlocked_fields, io_started_fields};
ghost use Rattle.state_word.specs.Fields.{io_ended_fields, written_fields, dirtied_fields};
ghost use Rattle.state_word.specs.Fields.{assigned_fields, cleared_fields, waiter_set_fields};
ghost use Rattle.state_word.specs.Fields.{waiter_cleared_fields, usage_down_fields};
ghost use Rattle.state_word.specs.Fields.{just_dirtied_cleared_fields, checkpoint_needed_fields};
ghost use Rattle.state_word.specs.Flags.{with_flag};

use bitflags::Flags;
use flags::StateFlags;

mod flags;
mod word;

pub use word::{Flag, IoEnd, StateWord};

/// The most pins that a word can count.
pub const MAX_PINS: u32 = (1 << 18) - 1;

/// The bit of `BM_LOCKED`, for the one or and the one and that lock and unlock a header in shared
/// memory.
pub const LOCKED: u64 = 1 << 22;

/// The usage count that pins raise a frame to at most (`BM_MAX_USAGE_COUNT`).
pub const MAX_USAGE: u32 = 5;

const ONE_PIN: u64 = 1;

const ONE_USAGE: u64 = 1 << 18;

const ONE_WAITER: u64 = 1 << 32;

/// The reference count (`BUF_STATE_GET_REFCOUNT`).
#[tactic(auto, unfolding(crate::specs::Fields::fields))]
pub fn pins(word: u64) -> u32
    ensures { result ≡ (fields word).pins }
{
    (word % ONE_USAGE) as u32
}

/// The usage count (`BUF_STATE_GET_USAGECOUNT`).
#[tactic(auto, unfolding(crate::specs::Fields::fields))]
pub fn usage(word: u64) -> u32
    ensures { result ≡ (fields word).usage }
{
    (word / ONE_USAGE % 16) as u32
}

/// The number of the backend that waits, or 0.
#[tactic(auto, unfolding(crate::specs::Fields::fields))]
pub fn waiter(word: u64) -> u32
    ensures { result ≡ (fields word).waiter }
{
    (word / ONE_WAITER) as u32
}

/// Whether the flag is set.
pub fn has(word: u64, flag: Flag) -> bool
    ensures { result ≡ flag_of flag (fields word) }
{
    StateFlags::from_bits_retain(word).contains(StateFlags::from(flag))
}

/// Two words with the same fields are one word. So each contract below, which says every field of
/// the result, fixes the result.
pub fn fields_fix_the_word()
    ensures { (v w : ℕ) → fields v ≡ fields w → v ≡ w }
{}

/// The word with one more pin (`PinBuffer`). A pin for a buffer ring raises the usage count from 0
/// alone, another pin raises it if it is below `MAX_USAGE`.
#[tactic(auto, unfolding(crate::specs::Fields::fields))]
pub fn pinned(word: u64, ring: bool) -> u64
    requires { (fields word).pins < MAX_PINS }
    ensures { fields result ≡ pinned_fields ring (fields word) }
{
    let limit = if ring { 1 } else { MAX_USAGE };
    if usage(word) < limit {
        word + ONE_PIN + ONE_USAGE
    } else {
        word + ONE_PIN
    }
}

/// The word with one more pin, by the holder of the header, which unlocks it; the usage count stays
/// (`PinBuffer_Locked`).
pub fn pinned_by_holder(word: u64) -> u64
    requires { (fields word).pins < MAX_PINS }
    ensures { fields result ≡ unlocked_fields (record (fields word)
        { pins = (fields word).pins + 1 }) }
{
    unlock_with(one_more_pin(word))
}

/// The word with one more pin, and the usage count as it was.
#[tactic(auto, unfolding(crate::specs::Fields::fields))]
fn one_more_pin(word: u64) -> u64
    requires { (fields word).pins < MAX_PINS }
    ensures { fields result ≡ record (fields word) { pins = (fields word).pins + 1 } }
{
    word + ONE_PIN
}

/// The word with one pin less (`UnpinBuffer`).
#[tactic(auto, unfolding(crate::specs::Fields::fields))]
pub fn unpinned(word: u64) -> u64
    requires { 0 < (fields word).pins }
    ensures { fields result ≡ unpinned_fields (fields word) }
{
    word - ONE_PIN
}

/// The word with the usage count one lower, as the clock sweep leaves it (`StrategyGetBuffer` of
/// `freelist.c`).
#[tactic(auto, unfolding(crate::specs::Fields::fields))]
pub fn usage_down(word: u64) -> u64
    requires { 0 < (fields word).usage }
    ensures { fields result ≡ usage_down_fields (fields word) }
{
    word - ONE_USAGE
}

/// The word with the header locked (`LockBufHdr`).
pub fn locked(word: u64) -> u64
    ensures { fields result ≡ locked_fields (fields word) }
{
    set_flag(word, Flag::Locked)
}

/// The word to store when the header is unlocked (`UnlockBufHdr`).
pub fn unlock_with(word: u64) -> u64
    ensures { fields result ≡ unlocked_fields (fields word) }
{
    clear_flag(word, Flag::Locked)
}

/// The word while the page is being read or written (`StartBufferIO`).
pub fn io_started(word: u64) -> u64
    ensures { fields result ≡ io_started_fields (fields word) }
{
    set_flag(word, Flag::IoInProgress)
}

/// The word after a read or a write of the page (`TerminateBufferIO`). A good write leaves the page
/// dirty, and needed by the checkpoint, if it was dirtied again meanwhile.
pub fn io_ended(word: u64, end: IoEnd) -> u64
    ensures { fields result ≡ io_ended_fields end (fields word) }
{
    let quiet = clear_flag(word, Flag::IoInProgress);
    match end {
        IoEnd::ReadOk => set_flag(clear_flag(quiet, Flag::IoError), Flag::Valid),
        IoEnd::WriteOk => written(clear_flag(quiet, Flag::IoError)),
        IoEnd::Bad => set_flag(quiet, Flag::IoError),
    }
}

/// The word after a good write, as far as the page's changes go.
fn written(word: u64) -> u64
    ensures { fields result ≡ written_fields (fields word) }
{
    if has(word, Flag::JustDirtied) {
        word
    } else {
        clear_flag(clear_flag(word, Flag::Dirty), Flag::CheckpointNeeded)
    }
}

/// The word after a change of the page (`MarkBufferDirty`).
pub fn dirtied(word: u64) -> u64
    ensures { fields result ≡ dirtied_fields (fields word) }
{
    set_flag(set_flag(word, Flag::Dirty), Flag::JustDirtied)
}

/// The word before the page's bytes are written, so that a change from now on is seen at the end
/// (`FlushBuffer`).
pub fn just_dirtied_cleared(word: u64) -> u64
    ensures { fields result ≡ just_dirtied_cleared_fields (fields word) }
{
    clear_flag(word, Flag::JustDirtied)
}

/// The word with the page noted for the checkpoint (`BufferSync`).
pub fn checkpoint_needed(word: u64) -> u64
    ensures { fields result ≡ checkpoint_needed_fields (fields word) }
{
    set_flag(word, Flag::CheckpointNeeded)
}

/// The word of a frame that was given the tag of a permanent relation's block (`BufferAlloc`).
pub fn assigned(word: u64) -> u64
    ensures { fields result ≡ assigned_fields (fields word) }
{
    let tagged = set_flag(word, Flag::TagValid);
    set_usage(set_flag(tagged, Flag::Permanent), 1)
}

/// The word of a frame whose tag was taken away (`InvalidateVictimBuffer`). Pins, the header's lock
/// and the waiter stay.
pub fn cleared(word: u64) -> u64
    ensures { fields result ≡ cleared_fields (fields word) }
{
    let unused = set_usage(word, 0);
    let clean = clear_flag(clear_flag(unused, Flag::Dirty), Flag::JustDirtied);
    let unread = clear_flag(clear_flag(clean, Flag::Valid), Flag::TagValid);
    let quiet = clear_flag(clear_flag(unread, Flag::IoInProgress), Flag::IoError);
    clear_flag(clear_flag(quiet, Flag::CheckpointNeeded), Flag::Permanent)
}

/// The word while the backend of this number waits until its pin is the only one
/// (`LockBufferForCleanup`).
pub fn waiter_set(word: u64, number: u32) -> u64
    ensures { fields result ≡ waiter_set_fields number (fields word) }
{
    set_waiter(set_flag(word, Flag::PinCountWaiter), number)
}

/// The word once no backend waits (`UnpinBuffer`, if it wakes the waiter).
pub fn waiter_cleared(word: u64) -> u64
    ensures { fields result ≡ waiter_cleared_fields (fields word) }
{
    set_waiter(clear_flag(word, Flag::PinCountWaiter), 0)
}

/// The word with the flag set.
fn set_flag(word: u64, flag: Flag) -> u64
    ensures { fields result ≡ with_flag flag true (fields word) }
{
    StateFlags::from_bits_retain(word)
        .union(StateFlags::from(flag))
        .bits()
}

/// The word with the flag cleared.
fn clear_flag(word: u64, flag: Flag) -> u64
    ensures { fields result ≡ with_flag flag false (fields word) }
{
    StateFlags::from_bits_retain(word)
        .difference(StateFlags::from(flag))
        .bits()
}

/// The word with this usage count.
#[tactic(auto, unfolding(crate::specs::Fields::fields))]
fn set_usage(word: u64, count: u32) -> u64
    requires { count < 2 ^ 4 }
    ensures { fields result ≡ record (fields word) { usage = count } }
{
    word - u64::from(usage(word)) * ONE_USAGE + u64::from(count) * ONE_USAGE
}

/// The word with this number of a waiter.
#[tactic(auto, unfolding(crate::specs::Fields::fields))]
fn set_waiter(word: u64, number: u32) -> u64
    ensures { fields result ≡ record (fields word) { waiter = number } }
{
    word % ONE_WAITER + u64::from(number) * ONE_WAITER
}
