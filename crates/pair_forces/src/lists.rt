//! The pairs of a list.
ghost use Rattle.std.specs.Prelude.{◌≡◌, ◌+◌, ◌^◌, ◌<◌, ◌≤◌, All, length, map};
ghost use Rattle.box_geo.specs.declared.atoms.Atom.{Atom};
ghost use Rattle.neighbor_lists.specs.Pairs.{pairs_of};
ghost use Rattle.pair_forces.specs.Adds.{AreAdded, FitWords};
ghost use Rattle.pair_forces.specs.Rows.{IsPlaced};
ghost use Rattle.pair_forces.specs.Sums.{AreSums};
ghost use Rattle.pair_lj.specs.Table.{IsFinished};
ghost use Rattle.serial_step.specs.Forces.{field_of};
ghost use Rattle.serial_step.specs.Pairs.{pair_at};

use crate::rows::add_row;
use crate::totals::PairSums;
use box_geo::{Atom, SimBox};
use fx_num::{Steps, V3};
use neighbor_lists::BrickList;
use pair_lj::PairTable;
use std::sync::ledger::Ledger;

/// Evaluates each pair of a list once, at the nearest image. Each pair adds its force on the first atom, and the
/// opposite on the second, to the forces at their places, modulo 2^64. It takes no memory, and counts one step for
/// each pair.
pub fn add_list<L: Ledger>(
    pairs: &PairTable,
    cell: &SimBox,
    list: &BrickList,
    atoms: &[Atom],
    forces: &mut [V3],
    steps: &mut Steps<L>,
) -> PairSums
    requires finished { IsFinished pairs.now }
    requires placed { All (IsPlaced pairs.now cell.now.sides) atoms.now }
    requires own { All (λ k. k < length atoms.now) list.now.own.items }
    requires others { All (λ p. p.1 < length atoms.now) (pairs_of list.now) }
    requires each { length forces.old ≡ length atoms.now }
    requires few { length (pairs_of list.now) ≤ 2 ^ 40 }
    requires words { All FitWords forces.old }
    ensures sums { (d : Atom) → AreSums (field_of pairs.now.pairs) cell.now.sides (map (pair_at atoms.now d) (pairs_of list.now)) result.energy result.virial result.fault }
    ensures forces { AreAdded (field_of pairs.now.pairs) cell.now.sides atoms.now (pairs_of list.now) forces.old forces.new }
    ensures words { All FitWords forces.new }
    ensures steps { steps.new ≡ steps.old + length (pairs_of list.now) }
{
    let mut sums = PairSums::new();
    for k in 0..list.count() {
        let place = list.own()[k as usize];
        let row = add_row(pairs, cell, atoms, place, list.row(k), forces, steps);
        sums.add(&row);
    }
    sums
}
