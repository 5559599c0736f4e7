//! Bonds and angles: their terms, the tables of their coefficients, and the special weights of atoms
//! that bonds join.
#![tactic(auto)]

mod angle;
mod bond;
mod broken;
mod laws;
mod lengths;
mod links;
mod products;
mod specials;
mod tables;

pub use angle::{AngleTerm, angle_term};
pub use bond::bond_term;
pub use broken::Broken;
pub use laws::{
    bond_term_is_odd, outer_atoms_have_no_order, special_weights_are_bounded,
    special_weights_have_no_order, weights_are_those_of_shortest_paths,
};
pub use specials::Specials;
pub use tables::{AngleTable, BondTable};
