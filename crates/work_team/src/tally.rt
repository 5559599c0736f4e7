//! The sums of an evaluation of forces.
ghost use Rattle.std.specs.Prelude.{◌≡◌, ◌*◌};
ghost use Rattle.weave_core.specs.declared.limits.TheConstants.{MAX_PIECES};
ghost use Rattle.work_team.specs.declared.limits.TheConstants.{MAX_TALLY};
ghost use Rattle.work_team.specs.Tallies.{no_tally, plus, IsWithin};

/// The sums over all terms of an evaluation of forces.
#[derive(Clone, Copy, Debug, PartialEq, Eq)]
pub struct Tally {
    /// The energy of the pairs, in units.
    pub pair: i128,
    /// The energy of the bonds, in units.
    pub bond: i128,
    /// The energy of the angles, in units.
    pub angle: i128,
    /// The sum of displacement times force, in multiples of 2^-48.
    pub virial: i128,
}

impl Tally {
    // Of no term.
    pub(crate) fn zero() -> Tally
        ensures { result ≡ no_tally }
    {
        Tally {
            pair: 0,
            bond: 0,
            angle: 0,
            virial: 0,
        }
    }

    // Of both.
    pub(crate) fn plus(&self, other: &Tally) -> Tally
        requires here { IsWithin (MAX_TALLY * MAX_PIECES) self.now }
        requires there { IsWithin (MAX_TALLY * MAX_PIECES) other.now }
        ensures { result ≡ plus self.now other.now }
    {
        Tally {
            pair: self.pair + other.pair,
            bond: self.bond + other.bond,
            angle: self.angle + other.angle,
            virial: self.virial + other.virial,
        }
    }
}
