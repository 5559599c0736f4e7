//! The sums of an evaluation of forces.

/// The sums over all terms of an evaluation of forces.
#[derive(Clone, Copy, Debug, PartialEq, Eq)]
pub struct Tally {
    /// The energy of the pairs, in units.
    pub pair: i128,
    /// The energy of the bonds, in units.
    pub bond: i128,
    /// The energy of the angles, in units.
    pub angle: i128,
    /// The sum of displacement times force, in multiples of 2^-48.
    pub virial: i128,
}
