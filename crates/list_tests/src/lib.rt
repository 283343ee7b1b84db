//! Tests of lists of blocks: which texts are lists, how others are refused, what loads of them do,
//! and the list of what a pool holds. There is nothing in it to call.
#![tactic(auto)]

#[cfg(test)]
mod checks;
#[cfg(test)]
mod lanes;
#[cfg(test)]
mod load_tests;
#[cfg(test)]
mod loading;
#[cfg(test)]
mod resident_tests;
#[cfg(test)]
mod text_tests;
