//! What is set up before there is a box, and the timestep.

use box_geo::{AtomStyle, LatticeStyle};

/// The lattice that a script set.
#[derive(Clone, Copy)]
pub struct LatticeChoice {
    /// The style.
    pub style: LatticeStyle,
    /// The reduced density, in units.
    pub density: i64,
}

/// What is set up before there is a box, the timestep and the lattice.
#[derive(Clone, Copy)]
pub struct Setup {
    /// 2 or 3 dimensions.
    pub dim: u8,
    /// Whether each axis is periodic; else it is fixed.
    pub periodic: [bool; 3],
    /// What an atom may have besides a type.
    pub style: AtomStyle,
    /// The bricks along each axis that the script asks for.
    pub grid: [u32; 3],
    /// The timestep, in units.
    pub timestep: i64,
    /// The lattice, where one is set.
    pub lattice: Option<LatticeChoice>,
}
