//! What a data file says.

use box_geo::{Angles, Atoms, Bonds, Masses, SimBox};
use fx_num::Seq;

/// A line of the section Pair Coeffs. Numbers are in units.
#[derive(Clone, Copy, Debug)]
pub struct PairLine {
    /// The atom type, from 1.
    pub kind: u8,
    /// The energy of a pair of atoms of this type.
    pub epsilon: i64,
    /// Their size.
    pub sigma: i64,
    /// Their cutoff, where the line gives one.
    pub cutoff: Option<i64>,
}

/// A line of the section Bond Coeffs. Numbers are in units.
#[derive(Clone, Copy, Debug)]
pub struct BondLine {
    /// The bond type, from 1.
    pub kind: u8,
    /// The stiffness.
    pub stiffness: i64,
    /// The rest length.
    pub rest_length: i64,
}

/// A line of the section Angle Coeffs. Numbers are in units.
#[derive(Clone, Copy, Debug)]
pub struct AngleLine {
    /// The angle type, from 1.
    pub kind: u8,
    /// The stiffness.
    pub stiffness: i64,
}

/// What a data file says.
#[derive(Drop)]
pub struct DataSet {
    /// The box.
    pub cell: SimBox,
    /// The numbers of atom, bond and angle types.
    pub kinds: [u8; 3],
    /// The mass of each atom type, 0 where the file has none.
    pub mass: Masses,
    /// The atoms, in strictly rising order of id. Forces are 0, and velocities where the file has none.
    pub atoms: Atoms,
    /// The bonds, in the order of their lines.
    pub bonds: Bonds,
    /// The angles, in the order of their lines.
    pub angles: Angles,
    /// The lines of Pair Coeffs, in order.
    pub pair: Seq<PairLine>,
    /// Whether the file has the section Bond Coeffs, with or without lines.
    pub has_bond: bool,
    /// The lines of Bond Coeffs, in order.
    pub bond: Seq<BondLine>,
    /// Whether the file has the section Angle Coeffs, with or without lines.
    pub has_angle: bool,
    /// The lines of Angle Coeffs, in order.
    pub angle: Seq<AngleLine>,
}
