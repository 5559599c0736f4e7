//! Neighbour lists of bricks: for each atom that a brick owns the places of its neighbours.
//!
//! A list is built where the references are renewed, from the own atoms and the ghosts of the brick. The
//! lists of all bricks have each pair of atoms that is nearer than the reach once, so each brick may
//! evaluate its own pairs.
#![tactic(auto)]

mod build;
mod laws;
mod lists;
mod sites;

pub use laws::{near_places_rise, one_brick_has_the_near_pairs, the_bricks_share_the_near_pairs};
pub use lists::BrickList;
