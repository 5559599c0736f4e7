//! The generated script: a crystal of 4·N³ atoms, which begins to melt in 20 steps.
#![tactic(auto)]

mod generated;

pub use generated::{MAX_CELLS, MIN_CELLS, cell_limits_are_these_numbers, script};
