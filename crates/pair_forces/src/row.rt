//! A row of pairs: what the pairs of one atom with others come to.
ghost use Rattle.std.specs.Prelude.{◌≡◌, ◌+◌, ◌^◌, ◌<◌, ◌≤◌, ℕ, ◌+ℤ◌};
ghost use Rattle.pair_lj.specs.PairTerm.{HasModerateEnergy, HasModerateForce, HasModerateVirial};

use crate::vectors::plus;
use box_geo::{NO_FAULT, Term};
use fx_num::V3;

/// What the pairs of one atom with others come to.
#[derive(Clone, Copy, Debug)]
pub(crate) struct Row {
    /// The force on the atom, in units, modulo 2^64.
    pub f: V3,
    /// The energy, in units.
    pub energy: i128,
    /// The sum of displacement times force, in multiples of 2^-48.
    pub virial: i128,
    /// The least word of a fault, [`NO_FAULT`] without one.
    pub fault: u64,
}

impl Row {
    ghost use Rattle.pair_forces.specs.Adds.{plus};
    ghost use Rattle.pair_forces.specs.Rows.{IsRowWithin, no_row};

    /// No pairs.
    pub(crate) fn new() -> Row
        ensures { result ≡ no_row }
    {
        Row {
            f: [0; 3],
            energy: 0,
            virial: 0,
            fault: NO_FAULT,
        }
    }

    /// Adds a term to the sums.
    #[inline(always)]
    pub(crate) fn add(&mut self, term: &Term)
        requires force { HasModerateForce term.now }
        requires energy { HasModerateEnergy term.now }
        requires virial { HasModerateVirial term.now }
        requires room { IsRowWithin (2 ^ 40) self.old }
        ensures sums { self.new ≡ record self.old { f = plus self.old.f term.now.f; energy = self.old.energy +ℤ term.now.energy; virial = self.old.virial +ℤ term.now.virial } }
        ensures bound { (k : ℕ) → IsRowWithin k self.old → IsRowWithin (k + 1) self.new }
    {
        self.f = plus(&self.f, &term.f);
        self.energy += i128::from(term.energy);
        self.virial += term.virial;
    }
}
