//! Tests of the crates at the bottom, on values worked out by hand: tags, state words, rings, logs
//! and hosts, failures that leave a part, and real files. There is nothing in it to call.
#![tactic(auto)]

#[cfg(test)]
mod catalog_tests;
#[cfg(test)]
mod checks;
#[cfg(test)]
mod file_tests;
#[cfg(test)]
mod growth_tests;
#[cfg(test)]
mod host_tests;
#[cfg(test)]
mod log_tests;
#[cfg(test)]
mod ring_tests;
#[cfg(test)]
mod tag_tests;
#[cfg(test)]
mod word_tests;
