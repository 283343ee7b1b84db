//! Devices that take or give bytes one piece after another, as traits: a log is a [`LogDevice`], an
//! output a [`Sink`], an input a [`Source`].
//!
//! Use [`MemLog`], [`MemSink`] and [`MemSource`] in memory, with a [`FaultPlan`] of the calls that
//! are to fail, or [`FileLog`], [`FileSource`] and [`StdSink`] over files. For a device of your
//! own, implement the trait and count each failed call in a [`FaultCount`]: contracts tell by it
//! that nothing failed.
#![tactic(auto)]

mod count;
mod device;
mod files;
mod memory;
mod memory_log;
mod memory_source;
mod plan;
mod source;

pub use count::{CallCount, FaultCount};
pub use device::{Failed, LogDevice, Sink, Source};
pub use files::{FileLog, FileSource, StdSink};
pub use memory::MemSink;
pub use memory_log::{LogPlan, MemLog};
pub use memory_source::MemSource;
pub use plan::FaultPlan;
pub use source::fill;
