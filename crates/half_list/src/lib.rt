//! Half neighbour lists: for each site the places of the sites of greater id that are nearer than the
//! reach.
//!
//! A list is one array of places, row after row. It is built with bins, so the time of a build grows
//! with the number of sites that lie near each other.
#![tactic(auto)]

mod lists;
mod near;
mod rows;
mod skin;

pub use lists::List;
pub use skin::stale;
