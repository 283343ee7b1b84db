//! The command line of `page_tool`: [`read_request`] turns the words after the program's name into
//! a [`Request`] with its [`Options`], or answers `None` if they spell none. A request has the
//! number of the relation at its path.
//!
//! It opens no file and prints nothing. The manual page has the syntax.
#![tactic(auto)]

mod grammar;
mod numbers;
mod relation_path;
mod request;
mod words;

pub use numbers::Options;
pub use request::{ListRequest, Listing, RecoverRequest, Request, RewriteRequest, SampleRequest};
pub use words::read_request;
