//! Tests of the background writer, the checkpointer and the jobs over a small manager. `acts` plays
//! a list of acts by three passes and says what came of each, `cases` has such lists as data,
//! `sharing` runs rounds or checkpoints beside two threads that read and put, and `devices` has
//! lanes and logs that note their calls.
#![tactic(auto)]

#[cfg(test)]
mod acts;
#[cfg(test)]
mod bench;
#[cfg(test)]
mod cases;
#[cfg(test)]
mod checks;
#[cfg(test)]
mod devices;
#[cfg(test)]
mod refusals;
#[cfg(test)]
mod rewrite_tests;
#[cfg(test)]
mod rewriting;
#[cfg(test)]
mod ring_tests;
#[cfg(test)]
mod sharing;
#[cfg(test)]
mod syncing;
#[cfg(test)]
mod tests;
