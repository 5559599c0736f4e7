//! The simulation box, and the types that every crate above names: atoms and what binds them, lists
//! of ids, points and sites, terms of forces, styles, fault keys, and the limits of the project.
#![tactic(auto)]

mod atoms;
mod displacement;
mod fault;
pub mod limits;
mod sim_box;
mod styles;
mod term;
mod wrap;

pub use atoms::{
    Angle, Angles, Atom, Atoms, Bond, Bonds, Ids, Masses, Points, Site, Sites, System,
};
pub use displacement::{
    length2, nearest_image_is_odd, nearest_image_is_the_shortest, opposite_lengths_are_equal,
};
pub use fault::{FaultKey, FaultKind, FaultPhase, NO_FAULT, words_order_keys};
pub use sim_box::{Axis, BoxRefusal, Extent, Sides, SimBox};
pub use styles::{AtomStyle, LatticeStyle, Mix};
pub use term::Term;
pub use wrap::{Lost, wrapping_is_by_whole_edges};
