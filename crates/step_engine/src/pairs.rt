//! The forces of all pairs of atoms. Each atom meets those that stand behind it in the list, so that
//! each unordered pair is evaluated once.
ghost use Rattle.std.specs.Prelude.{◌≡◌, ◌+◌, ◌^◌, ◌-◌, ◌<◌, ◌≤◌, ℕ, pos, length, map, All, IfErr, IfOk, OnOk};
ghost use Rattle.box_geo.specs.Fault.{no_fault};
ghost use Rattle.pair_lj.specs.Table.{IsFinished};
ghost use Rattle.serial_step.specs.Forces.{field_of, force_word, forces_fault, least, pair_energy, pair_virial, terms_fault, with_force, with_forces};
ghost use Rattle.step_engine.specs.Engine.{IsKeyOf};
ghost use Rattle.step_engine.specs.Ranges.{IsPlaced, IsWithin};
ghost use Rattle.step_engine.specs.Reach.{IsReachOf};
ghost use Rattle.step_engine.specs.Rows.{AreSumsWithin, IsRowWithin, after_row, first_row, no_force, sums_plus};
ghost use Rattle.sums.specs.Totals.{half};

use crate::reach::Reach;
use crate::rows::{Row, add_row, sum};
use crate::tally::Tally;
use box_geo::limits::{MAX_ATOMS, MAX_FORCE, MAX_ID};
use box_geo::{Atom, FaultKey, FaultKind, FaultPhase, NO_FAULT, SimBox};
use fx_num::Steps;
use pair_lj::PairTable;
use std::sync::ledger::Ledger;

/// The sums over pairs of atoms.
#[derive(Clone, Copy, Debug)]
struct Sums {
    /// The energy, in units.
    energy: i128,
    /// The sum of displacement times force, in multiples of 2^-48.
    virial: i128,
    /// The least word of a fault, [`NO_FAULT`] without one.
    fault: u64,
}

/// Gives each atom the force on it, from the terms of all pairs, and answers their sums, or the least
/// key of a fault. It takes no memory, and counts one step for each unordered pair.
pub(crate) fn evaluate_forces<L: Ledger>(
    pairs: &PairTable,
    cell: &SimBox,
    reach: &Reach,
    atoms: &mut [Atom],
    steps: &mut Steps<L>,
) -> Result<Tally, FaultKey>
    requires finished { IsFinished pairs.now }
    requires reach { IsReachOf (field_of pairs.now.pairs) cell.now.sides reach.now }
    requires few { length atoms.old ≤ MAX_ATOMS }
    requires placed { All (IsPlaced pairs.now cell.now.sides) atoms.old }
    ensures forces { OnOk result (atoms.new ≡ with_forces (field_of pairs.now.pairs) cell.now.sides atoms.old) }
    ensures sums { IfOk result (λ t. t ≡ record { pair = pair_energy (field_of pairs.now.pairs) cell.now.sides atoms.old; bond = pos 0; angle = pos 0; virial = pair_virial (field_of pairs.now.pairs) cell.now.sides atoms.old }) }
    ensures sound { OnOk result (forces_fault (field_of pairs.now.pairs) cell.now.sides atoms.old ≡ no_fault) }
    ensures range { OnOk result (All (λ a. IsWithin (2 ^ 44) a.f) atoms.new) }
    ensures fault { IfErr result (IsKeyOf (forces_fault (field_of pairs.now.pairs) cell.now.sides atoms.old)) }
    ensures length { length atoms.new ≡ length atoms.old }
    ensures steps { steps.new ≡ steps.old + length (half atoms.old) }
{
    let sums = add_rows(pairs, cell, reach, atoms, steps);
    if sums.fault < NO_FAULT {
        return Err(FaultKey::from_word(sums.fault));
    }
    let fault = force_fault(atoms);
    if fault < NO_FAULT {
        return Err(FaultKey::from_word(fault));
    }
    Ok(Tally {
        pair: sums.energy,
        bond: 0,
        angle: 0,
        virial: sums.virial,
    })
}

/// The sums over all pairs. Each atom gets the force on it.
fn add_rows<L: Ledger>(
    pairs: &PairTable,
    cell: &SimBox,
    reach: &Reach,
    atoms: &mut [Atom],
    steps: &mut Steps<L>,
) -> Sums
    requires finished { IsFinished pairs.now }
    requires reach { IsReachOf (field_of pairs.now.pairs) cell.now.sides reach.now }
    requires few { length atoms.old ≤ MAX_ATOMS }
    requires placed { All (IsPlaced pairs.now cell.now.sides) atoms.old }
    ensures forces { atoms.new ≡ with_forces (field_of pairs.now.pairs) cell.now.sides atoms.old }
    ensures energy { result.energy ≡ pair_energy (field_of pairs.now.pairs) cell.now.sides atoms.old }
    ensures virial { result.virial ≡ pair_virial (field_of pairs.now.pairs) cell.now.sides atoms.old }
    ensures fault { result.fault ≡ terms_fault (field_of pairs.now.pairs) cell.now.sides atoms.old }
    ensures steps { steps.new ≡ steps.old + length (half atoms.old) }
{
    clear_forces(atoms);
    let mut sums = Sums {
        energy: 0,
        virial: 0,
        fault: NO_FAULT,
    };
    for i in 0..atoms.len() {
        let row = add_first(pairs, cell, reach, &mut atoms[i..], steps);
        sums.add(&row);
    }
    sums
}

/// Takes the forces from all atoms.
fn clear_forces(atoms: &mut [Atom])
    ensures { atoms.new ≡ map (λ a. with_force a no_force) atoms.old }
{
    for atom in atoms.iter_mut() {
        atom.f = [0; 3];
    }
}

/// The row of the first atom with all others, which gives each of them its forces.
fn add_first<L: Ledger>(
    pairs: &PairTable,
    cell: &SimBox,
    reach: &Reach,
    atoms: &mut [Atom],
    steps: &mut Steps<L>,
) -> Row
    requires finished { IsFinished pairs.now }
    requires reach { IsReachOf (field_of pairs.now.pairs) cell.now.sides reach.now }
    requires some { 0 < length atoms.old }
    requires few { length atoms.old ≤ MAX_ATOMS }
    requires placed { All (IsPlaced pairs.now cell.now.sides) atoms.old }
    requires mild { All (λ a. IsWithin (2 ^ 62 - 1) a.f) atoms.old }
    ensures row { result ≡ first_row (field_of pairs.now.pairs) cell.now.sides atoms.old }
    ensures atoms { atoms.new ≡ after_row (field_of pairs.now.pairs) cell.now.sides atoms.old }
    ensures bound { IsRowWithin MAX_ATOMS result }
    ensures steps { steps.new ≡ steps.old + (length atoms.old - 1) }
{
    let own = atoms[0];
    let row = add_row(pairs, cell, reach, &own, &mut atoms[1..], steps);
    atoms[0].f = sum(&own.f, &row.f);
    row
}

/// The least word of an atom whose force is too great, [`NO_FAULT`] without one.
fn force_fault(atoms: &[Atom]) -> u64
    requires { All (λ a. a.id ≤ MAX_ID) atoms.now }
    ensures { result ≡ least (map force_word atoms.now) }
{
    let mut least = NO_FAULT;
    for atom in atoms {
        least = least.min(force_word(atom));
    }
    least
}

/// The word of an atom whose force is too great, [`NO_FAULT`] of another.
fn force_word(atom: &Atom) -> u64
    requires { atom.now.id ≤ MAX_ID }
    ensures { result ≡ force_word atom.now }
{
    if atom.f.iter().any(|f| f.unsigned_abs() > MAX_FORCE as u64) {
        let phase = FaultPhase::Forces.number();
        let kind = FaultKind::Force.number();
        FaultKey::new(phase, kind, atom.id, 0).word()
    } else {
        NO_FAULT
    }
}

impl Sums {
    /// Adds a row to the sums.
    fn add(&mut self, row: &Row)
        requires row { IsRowWithin MAX_ATOMS row.now }
        requires room { AreSumsWithin MAX_ATOMS self.old }
        ensures sums { self.new ≡ sums_plus row.now self.old }
        ensures bound { (k : ℕ) → AreSumsWithin k self.old → AreSumsWithin (k + 1) self.new }
    {
        self.energy += row.energy;
        self.virial += row.virial;
        self.fault = self.fault.min(row.fault);
    }
}
