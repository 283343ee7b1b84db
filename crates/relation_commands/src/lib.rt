//! The commands of `page_tool` over a host, whether of files or in memory: [`list_relation`],
//! [`rewrite_relation`], [`recover_relation`], [`sample`]. [`read_request`] gets one from the
//! command line.
//!
//! Each opens the relation, starts a manager, runs a job, closes the manager and gives the files
//! back, also after a failure. Read them as an example of an engine. [`ToolError`] says what can go
//! wrong.
#![tactic(auto)]

mod beside;
mod discard;
mod error;
mod laws;
mod limits;
mod lines;
mod listing;
mod listing_command;
mod recover_command;
mod rewrite_command;
mod rewriting;
mod sampling;
mod starting;

pub use command_line::{
    ListRequest, Listing, RecoverRequest, Request, RewriteRequest, SampleRequest, read_request,
};
pub use error::{Crowding, ToolError};
pub use laws::{logs_are_told, recoveries_are_repeated, rewrites_are_recovered};
pub use limits::PositionLimit;
pub use listing::ListingError;
pub use listing_command::list_relation;
pub use recover_command::recover_relation;
pub use rewrite_command::rewrite_relation;
pub use rewriting::RewriteError;
pub use sampling::sample;
