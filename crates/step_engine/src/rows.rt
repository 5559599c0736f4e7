//! A row of pairs: the terms of one atom with all that stand behind it in the list.
ghost use Rattle.std.specs.Prelude.{◌≡◌, ◌+◌, ◌-◌, ◌*◌, ◌^◌, ◌<◌, ◌≤◌, ◌+ℤ◌, ℕ, min, max, map, length, unsigned_abs, All, IfOk, IfSome};
ghost use Rattle.box_geo.specs.Fault.{kind_number, phase_number};
ghost use Rattle.box_geo.specs.declared.fault.FaultPhase.TheVariants.{Forces};
ghost use Rattle.box_geo.specs.declared.fault.FaultKind.TheVariants as kind;
ghost use Rattle.pair_lj.specs.PairTerm.{HasModerateEnergy, HasModerateForce, HasModerateVirial};
ghost use Rattle.pair_lj.specs.Table.{IsFinished};
ghost use Rattle.serial_step.specs.Forces.{field_of, term_of, word};
ghost use Rattle.step_engine.specs.Ranges.{IsPlaced, IsWithin};
ghost use Rattle.step_engine.specs.Reach.{IsReachOf};
ghost use Rattle.step_engine.specs.Rows.{IsRowWithin, difference_of, pushed_by, row_of, row_plus, row_with, sum_of};

use crate::reach::Reach;
use box_geo::limits::{FULL_WEIGHT, MAX_ATOMS, MAX_ID};
use box_geo::{Atom, FaultKey, FaultKind, FaultPhase, NO_FAULT, SimBox, Term};
use fx_num::{Steps, V3};
use pair_lj::{Close, PairTable};
use std::sync::ledger::Ledger;

/// What the pairs of one atom with others come to.
#[derive(Clone, Copy, Debug)]
pub(crate) struct Row {
    /// The force on the atom, in units.
    pub f: V3,
    /// The energy, in units.
    pub energy: i128,
    /// The sum of displacement times force, in multiples of 2^-48.
    pub virial: i128,
    /// The least word of a fault, [`NO_FAULT`] without one.
    pub fault: u64,
}

/// The row of one atom with all others, each pair once. Each of the others gets the opposite of its
/// force on the atom. It counts one step for each pair.
///
/// A component of a term is at most 2^42 and an atom has fewer than 2^20 pairs, so what is summed up
/// to here is below 2^62, and each sum fits its word.
pub(crate) fn add_row<L: Ledger>(
    pairs: &PairTable,
    cell: &SimBox,
    reach: &Reach,
    own: &Atom,
    others: &mut [Atom],
    steps: &mut Steps<L>,
) -> Row
    requires finished { IsFinished pairs.now }
    requires reach { IsReachOf (field_of pairs.now.pairs) cell.now.sides reach.now }
    requires own { IsPlaced pairs.now cell.now.sides own.now }
    requires placed { All (IsPlaced pairs.now cell.now.sides) others.old }
    requires few { length others.old ≤ MAX_ATOMS }
    requires mild { All (λ a. IsWithin (2 ^ 62 - 1) a.f) others.old }
    ensures row { result ≡ row_of (field_of pairs.now.pairs) cell.now.sides own.now others.old }
    ensures others { others.new ≡ map (pushed_by (field_of pairs.now.pairs) cell.now.sides own.now) others.old }
    ensures bound { IsRowWithin (length others.old) result }
    ensures steps { steps.new ≡ steps.old + length others.old }
{
    let mut row = Row {
        f: [0; 3],
        energy: 0,
        virial: 0,
        fault: NO_FAULT,
    };
    for other in others.iter_mut() {
        add_pair(pairs, cell, reach, own, other, &mut row, steps);
    }
    row
}

/// Adds the pair of two atoms to the row of the first, and gives the second the opposite force.
fn add_pair<L: Ledger>(
    pairs: &PairTable,
    cell: &SimBox,
    reach: &Reach,
    own: &Atom,
    other: &mut Atom,
    row: &mut Row,
    steps: &mut Steps<L>,
)
    requires finished { IsFinished pairs.now }
    requires reach { IsReachOf (field_of pairs.now.pairs) cell.now.sides reach.now }
    requires own { IsPlaced pairs.now cell.now.sides own.now }
    requires other { IsPlaced pairs.now cell.now.sides other.old }
    requires mild { IsWithin (2 ^ 62 - 1) other.old.f }
    requires room { IsRowWithin (MAX_ATOMS - 1) row.old }
    ensures other { other.new ≡ pushed_by (field_of pairs.now.pairs) cell.now.sides own.now other.old }
    ensures row { row.new ≡ row_with own.now.id other.old.id (term_of (field_of pairs.now.pairs) cell.now.sides own.now other.old) row.old }
    ensures bound { (k : ℕ) → IsRowWithin k row.old → IsRowWithin (k + 1) row.new }
    ensures steps { steps.new ≡ steps.old + 1 }
{
    match pair_term(pairs, cell, reach, own, other, steps) {
        Ok(Some(term)) => {
            row.add(&term);
            other.f = difference(&other.f, &term.f);
        }
        Ok(None) => {}
        Err(_) => row.fault = row.fault.min(close_word(own.id, other.id)),
    }
}

/// The term of a pair of atoms, at the nearest image. There is none between atoms of one id.
fn pair_term<L: Ledger>(
    pairs: &PairTable,
    cell: &SimBox,
    reach: &Reach,
    own: &Atom,
    other: &Atom,
    steps: &mut Steps<L>,
) -> Result<Option<Term>, Close>
    requires finished { IsFinished pairs.now }
    requires reach { IsReachOf (field_of pairs.now.pairs) cell.now.sides reach.now }
    requires own { IsPlaced pairs.now cell.now.sides own.now }
    requires other { IsPlaced pairs.now cell.now.sides other.now }
    ensures is { result ≡ term_of (field_of pairs.now.pairs) cell.now.sides own.now other.now }
    ensures force { IfOk result (λ t. IfSome t HasModerateForce) }
    ensures energy { IfOk result (λ t. IfSome t HasModerateEnergy) }
    ensures virial { IfOk result (λ t. IfSome t HasModerateVirial) }
    ensures step { steps.new ≡ steps.old + 1 }
{
    if reach.is_passed(&own.x, &other.x) {
        steps.tick();
        return Ok(None);
    }
    if own.id == other.id {
        steps.tick();
        return Ok(None);
    }
    let d = cell.near(own.x, other.x);
    pairs.term(own.kind, other.kind, d, FULL_WEIGHT, steps)
}

/// The word of a pair that is too close.
fn close_word(own: u32, other: u32) -> u64
    requires own { own ≤ MAX_ID }
    requires other { other ≤ MAX_ID }
    ensures { result ≡ word (phase_number Forces) (kind_number kind.Close) (min own other) (max own other) }
{
    let phase = FaultPhase::Forces.number();
    let kind = FaultKind::Close.number();
    FaultKey::new(phase, kind, own.min(other), own.max(other)).word()
}

impl Row {
    /// Adds a term to the sums.
    fn add(&mut self, term: &Term)
        requires force { HasModerateForce term.now }
        requires energy { HasModerateEnergy term.now }
        requires virial { HasModerateVirial term.now }
        requires room { IsRowWithin (MAX_ATOMS - 1) self.old }
        ensures sums { self.new ≡ row_plus term.now self.old }
        ensures bound { (k : ℕ) → IsRowWithin k self.old → IsRowWithin (k + 1) self.new }
    {
        self.f = sum(&self.f, &term.f);
        self.energy += i128::from(term.energy);
        self.virial += term.virial;
    }
}

/// The sum of two vectors.
pub(crate) fn sum(a: &V3, b: &V3) -> V3
    requires a { IsWithin (2 ^ 62 - 1) a.now }
    requires b { IsWithin (2 ^ 62 - 1) b.now }
    ensures { result ≡ sum_of a.now b.now }
{
    [a[0] + b[0], a[1] + b[1], a[2] + b[2]]
}

/// The difference of two vectors.
fn difference(a: &V3, b: &V3) -> V3
    requires a { IsWithin (2 ^ 62 - 1) a.now }
    requires b { IsWithin (2 ^ 62 - 1) b.now }
    ensures { result ≡ difference_of a.now b.now }
{
    [a[0] - b[0], a[1] - b[1], a[2] - b[2]]
}
