//! What a pair or a bond adds to forces and sums.

use fx_num::V3;

/// The term of a pair or a bond of atoms i and j, at the displacement from j to i.
#[derive(Clone, Copy, Debug)]
pub struct Term {
    /// The force on i, in units. That on j is its negative.
    pub f: V3,
    /// The energy, in units.
    pub energy: i64,
    /// The product of the displacement and the force on i, in multiples of 2^-48.
    pub virial: i128,
}
