//! The forces of the pairs of a neighbour list, and their sums.
//!
//! Each listed pair is given to the pair term once, at the nearest image of the present positions. Forces
//! are added to one word for each component of each atom, modulo 2^64, so it doesn't matter in which order
//! the lists of several bricks are added, nor whether a sum leaves the range of a word on its way.
#![tactic(auto)]

mod laws;
mod lists;
mod pairs;
mod row;
mod rows;
mod totals;
mod vectors;

pub use laws::{listed_pairs_bring_the_forces, listed_pairs_have_the_sums};
pub use lists::add_list;
pub use totals::PairSums;
