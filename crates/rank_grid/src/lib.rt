//! Bricks of the box and the atoms that each of them owns.
//!
//! The box is cut along each axis into equal parts, as nearly as whole numbers allow (after Plimpton,
//! Fast Parallel Algorithms for Short-Range Molecular Dynamics). Each part of the box is a brick, its
//! number is a rank, and each position inside the box is in exactly one brick. `specs/Bricks.antt` has
//! the bricks and the owner of a position, `specs/Owned.antt` the atoms of a rank.
#![tactic(auto)]

mod bricks;
mod grid;
pub mod laws;
mod migrate;
mod owned;
mod rows;
mod sorting;

pub use grid::Grid;
pub use owned::Owned;
