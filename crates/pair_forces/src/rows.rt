//! A row of a list: one atom with the atoms at some places.
ghost use Rattle.std.specs.Prelude.{◌≡◌, ◌+◌, ◌^◌, ◌<◌, ◌≤◌, All, length, map, slice_index_or};
ghost use Rattle.box_geo.specs.declared.atoms.Atom.{Atom};
ghost use Rattle.pair_forces.specs.Adds.{AreAdded, AreTaken, FitWords, pairs_with};
ghost use Rattle.pair_forces.specs.Rows.{IsPlaced, IsRowOf, IsRowWithin};
ghost use Rattle.pair_forces.specs.Sums.{AreSums};
ghost use Rattle.pair_lj.specs.Table.{IsFinished};
ghost use Rattle.serial_step.specs.Forces.{field_of};
ghost use Rattle.serial_step.specs.Pairs.{pair_at};

use crate::pairs::add_pair;
use crate::row::Row;
use crate::vectors::plus;
use box_geo::{Atom, SimBox};
use fx_num::{Steps, V3};
use pair_lj::PairTable;
use std::sync::ledger::Ledger;

/// The row of an atom with those at some places, each of which gets the opposite of its force on the atom. It
/// counts one step for each.
pub(crate) fn add_others<L: Ledger>(
    pairs: &PairTable,
    cell: &SimBox,
    atoms: &[Atom],
    own: &Atom,
    others: &[u32],
    forces: &mut [V3],
    steps: &mut Steps<L>,
) -> Row
    requires finished { IsFinished pairs.now }
    requires placed { All (IsPlaced pairs.now cell.now.sides) atoms.now }
    requires own { IsPlaced pairs.now cell.now.sides own.now }
    requires others { All (λ q. q < length atoms.now) others.now }
    requires each { length forces.old ≡ length atoms.now }
    requires few { length others.now ≤ 2 ^ 40 }
    requires words { All FitWords forces.old }
    ensures row { (d : Atom) → IsRowOf (field_of pairs.now.pairs) cell.now.sides own.now (map (λ q. slice_index_or atoms.now q d) others.now) result }
    ensures forces { AreTaken (field_of pairs.now.pairs) cell.now.sides atoms.now own.now others.now forces.old forces.new }
    ensures words { All FitWords forces.new }
    ensures bound { IsRowWithin (length others.now) result }
    ensures steps { steps.new ≡ steps.old + length others.now }
{
    let mut row = Row::new();
    for other in others {
        let place = *other as usize;
        add_pair(
            pairs,
            cell,
            own,
            &atoms[place],
            &mut row,
            &mut forces[place],
            steps,
        );
    }
    row
}

/// The row of the atom at a place with those at other places. Each pair adds its force on the first atom, and the
/// opposite on the second, to their words.
pub(crate) fn add_row<L: Ledger>(
    pairs: &PairTable,
    cell: &SimBox,
    atoms: &[Atom],
    place: u32,
    others: &[u32],
    forces: &mut [V3],
    steps: &mut Steps<L>,
) -> Row
    requires finished { IsFinished pairs.now }
    requires placed { All (IsPlaced pairs.now cell.now.sides) atoms.now }
    requires place { place < length atoms.now }
    requires others { All (λ q. q < length atoms.now) others.now }
    requires each { length forces.old ≡ length atoms.now }
    requires few { length others.now ≤ 2 ^ 40 }
    requires words { All FitWords forces.old }
    ensures sums { (d : Atom) → AreSums (field_of pairs.now.pairs) cell.now.sides (map (pair_at atoms.now d) (pairs_with place others.now)) result.energy result.virial result.fault }
    ensures forces { AreAdded (field_of pairs.now.pairs) cell.now.sides atoms.now (pairs_with place others.now) forces.old forces.new }
    ensures words { All FitWords forces.new }
    ensures bound { IsRowWithin (length others.now) result }
    ensures steps { steps.new ≡ steps.old + length others.now }
{
    let own = atoms[place as usize];
    let row = add_others(pairs, cell, atoms, &own, others, forces, steps);
    let force = plus(&forces[place as usize], &row.f);
    forces[place as usize] = force;
    row
}
