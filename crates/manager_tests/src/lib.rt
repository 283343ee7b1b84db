//! Tests of passes over a small manager: pins, reads, puts, content and cleanup locks, hints,
//! crowded pools, I/O counts. `acts` plays a list of acts by three passes and says what came of
//! each; the other modules have the acts that take several calls.
#![tactic(auto)]

#[cfg(test)]
mod acts;
#[cfg(test)]
mod checks;
#[cfg(test)]
mod choosing;
#[cfg(test)]
mod cleaning;
#[cfg(test)]
mod copying;
#[cfg(test)]
mod counting_tests;
#[cfg(test)]
mod crowding;
#[cfg(test)]
mod hinting;
#[cfg(test)]
mod locking;
#[cfg(test)]
mod sharing;
#[cfg(test)]
mod tests;
#[cfg(test)]
mod waiting;
