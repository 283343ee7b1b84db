//! Tests of recovery: logs cut at any byte, blocks as a crash may leave them, devices that fail,
//! and bytes that are no records. `bench` has the lanes and what they should hold afterwards,
//! `log_bytes` writes the logs by hand.
#![tactic(auto)]

#[cfg(test)]
mod bench;
#[cfg(test)]
mod checks;
#[cfg(test)]
mod crash_tests;
#[cfg(test)]
mod cut_tests;
#[cfg(test)]
mod fault_tests;
#[cfg(test)]
mod form_tests;
#[cfg(test)]
mod host_tests;
#[cfg(test)]
mod kept_lane;
#[cfg(test)]
mod log_bytes;
#[cfg(test)]
mod memory_tests;
