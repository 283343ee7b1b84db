//! Texts of chunks, which come in any order and go to a sink in the order of the chunks.
//!
//! Make a [`Window`] over the sink, and deliver each chunk's text as it is done. The window writes
//! it out at once if all before it have been written, and keeps it otherwise. `finish` gives the
//! sink back and says why the job stopped early, if it did ([`Stop`]).
#![tactic(auto)]

mod naming;
mod shares;
mod stream;
mod waiting;
mod window;

pub use naming::Naming;
pub use shares::Shares;
pub use waiting::Waiting;
pub use window::{Delivery, Stop, Window};
