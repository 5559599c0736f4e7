//! What stands still in a run.

use box_geo::{Masses, SimBox};
use pair_lj::PairTable;

/// What forces rest on.
#[derive(Drop)]
pub struct ForceField {
    /// The coefficients of each pair of types, finished.
    pub pairs: PairTable,
    /// The greatest of all cutoffs, in units.
    pub rcmax: i64,
}

/// What stands still in a run.
#[derive(Drop)]
pub struct Rules {
    /// What forces rest on.
    pub field: ForceField,
    /// The simulation box.
    pub cell: SimBox,
    /// The timestep, in units.
    pub dt: i64,
    /// The mass of each atom type, in units.
    pub mass: Masses,
    /// The skin, in units: how much farther than the cutoff neighbours reach.
    pub skin: i64,
}
