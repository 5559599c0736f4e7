//! Ghost atoms: the images of atoms within reach of a brick.
//!
//! A rank works out the terms of its own atoms, and for that it needs all images of atoms that are
//! near its brick, over faces, edges and corners. `specs/Images.antt` has the images of the atoms and
//! says which are the ghosts of a rank, `specs/Ghosts.antt` how a ghost moves with its atom, and
//! `specs/Lists.antt` what the laws speak of: the one image of a pair within reach, and the lists of
//! all bricks.
#![tactic(auto)]

mod atom;
mod forward;
mod halo;
pub mod laws;
mod lengths;
mod moves;
mod search;
mod sites;
mod visit;

pub use atom::Ghost;
pub use search::shell;
pub use sites::Shell;
