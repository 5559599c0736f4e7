//! The sums over the pairs of a list.
ghost use Rattle.std.specs.Prelude.{◌≡◌, ◌+◌, ◌^◌, ℕ, ◌+ℤ◌, min, pos};
ghost use Rattle.box_geo.specs.Fault.{no_fault};
ghost use Rattle.pair_forces.specs.Rows.{IsRowWithin};

use crate::row::Row;
use box_geo::NO_FAULT;

/// The sums over some pairs of atoms.
#[derive(Clone, Copy, Debug)]
pub struct PairSums {
    /// The energy, in units.
    pub energy: i128,
    /// The sum of displacement times force, in multiples of 2^-48.
    pub virial: i128,
    /// The least word of a fault, [`NO_FAULT`] without one.
    pub fault: u64,
}

impl PairSums {
    ghost use Rattle.pair_forces.specs.Sums.{AreSumsWithin};

    /// Those of no pairs.
    pub(crate) fn new() -> PairSums
        ensures energy { result.energy ≡ pos 0 }
        ensures virial { result.virial ≡ pos 0 }
        ensures fault { result.fault ≡ no_fault }
    {
        PairSums {
            energy: 0,
            virial: 0,
            fault: NO_FAULT,
        }
    }

    /// Adds those of a row.
    pub(crate) fn add(&mut self, row: &Row)
        requires row { IsRowWithin (2 ^ 40) row.now }
        requires room { AreSumsWithin (2 ^ 40) self.old }
        ensures energy { self.new.energy ≡ self.old.energy +ℤ row.now.energy }
        ensures virial { self.new.virial ≡ self.old.virial +ℤ row.now.virial }
        ensures fault { self.new.fault ≡ min self.old.fault row.now.fault }
        ensures bound { (k m : ℕ) → AreSumsWithin k self.old → IsRowWithin m row.now → AreSumsWithin (k + m) self.new }
    {
        self.energy += row.energy;
        self.virial += row.virial;
        self.fault = self.fault.min(row.fault);
    }
}
