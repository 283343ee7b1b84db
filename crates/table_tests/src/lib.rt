//! Tests of what backends share without a manager: a small table, with its pins, the free list,
//! hints, the values in its slots and the positions of its log; the claims of a job's chunks; the
//! window of a job's texts; and I/O counts. There is nothing in it to call.
#![tactic(auto)]

#[cfg(test)]
mod checks;
#[cfg(test)]
mod claim_tests;
#[cfg(test)]
mod count_tests;
#[cfg(test)]
mod fixture;
#[cfg(test)]
mod freeing;
#[cfg(test)]
mod hinting;
#[cfg(test)]
mod pinning;
#[cfg(test)]
mod positions;
#[cfg(test)]
mod tests;
#[cfg(test)]
mod values;
#[cfg(test)]
mod window_tests;
