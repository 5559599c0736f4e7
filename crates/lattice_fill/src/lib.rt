//! Lattices: the points of a crystal that are inside a simulation box.
//!
//! `specs/Lattice.antt` has the spacings and the basis of each style, `specs/Points.antt` the points inside a
//! box, in their order.
#![tactic(auto)]

mod basis;
mod fill;
mod lattice;
mod laws;
mod range;
mod spacing;

pub use basis::Quarters;
pub use fill::FillRefusal;
pub use lattice::Lattice;
pub use laws::{no_point_is_missed, no_point_stands_twice};
pub use range::Cell;
pub use spacing::Spacing;
