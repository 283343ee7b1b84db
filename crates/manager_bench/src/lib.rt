//! A small manager for tests and measurements, and what its three passes do with pages.
//!
//! `bench` starts a manager with three passes and closes it, `reading` and `putting` use its pages,
//! `counting` its counters: each call is given the pass's number, which contracts name. `pin`
//! leaves the pass with a token, the other calls leave it without tokens and content locks.
#![tactic(auto)]

pub mod bench;
pub mod counting;
pub mod putting;
pub mod reading;
