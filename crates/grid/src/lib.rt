//! Laws over a grid, with a row for each view and a column for each thing that the views share: if
//! one backend's step keeps the law in its row, it holds in all of them.
//!
//! There is nothing to run. `specs/Shape.antt` defines the grid and its sums, and `pin_core` and
//! the crates above it cite the lemmas in `proofs/`.
#![tactic(auto)]
