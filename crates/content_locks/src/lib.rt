//! Content locks (`LockBuffer`), copies of pages, and the right to do I/O on a buffer
//! (`StartBufferIO`), over `frame_table`. Engines call the methods of `Pass` instead.
//!
//! [`share`] and [`exclusive`] wait, [`try_share`] and [`try_exclusive`] don't. Under a lock,
//! [`copy_out`] copies the page. [`start_io`] takes the right to read a page in or write it out,
//! and [`end_io`] gives it back.
#![tactic(auto)]

mod content_word;
mod copies;
mod io;
mod locks;

pub use copies::{copy_out, page_back, page_out};
pub use frame_table::IoRight;
pub use io::{Direction, end_io, start_io};
pub use locks::{TryLock, exclusive, share, try_exclusive, try_share, unexclusive, unshare};
