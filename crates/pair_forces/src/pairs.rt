//! The term of one pair.
ghost use Rattle.std.specs.Prelude.{◌≡◌, ◌+◌, ◌^◌, ◌≤◌, ℕ, min, max, IfOk, IfSome};
ghost use Rattle.box_geo.specs.Fault.{kind_number, phase_number};
ghost use Rattle.box_geo.specs.declared.fault.FaultPhase.TheVariants.{Forces};
ghost use Rattle.box_geo.specs.declared.fault.FaultKind.TheVariants as kind;
ghost use Rattle.pair_forces.specs.Adds.{FitWords};
ghost use Rattle.pair_forces.specs.Rows.{IsPlaced, IsRowWithin, pushed, row_with};
ghost use Rattle.pair_lj.specs.PairTerm.{HasModerateEnergy, HasModerateForce, HasModerateVirial};
ghost use Rattle.pair_lj.specs.Table.{IsFinished};
ghost use Rattle.serial_step.specs.Forces.{field_of, term_of, word};

use crate::row::Row;
use crate::vectors::minus;
use box_geo::limits::{FULL_WEIGHT, MAX_ID};
use box_geo::{Atom, FaultKey, FaultKind, FaultPhase, SimBox, Term};
use fx_num::{Steps, V3};
use pair_lj::{Close, PairTable};
use std::sync::ledger::Ledger;

/// Adds the pair of two atoms to the row of the first, and gives the second the opposite force. It counts one
/// step.
#[inline(always)]
pub(crate) fn add_pair<L: Ledger>(
    pairs: &PairTable,
    cell: &SimBox,
    own: &Atom,
    other: &Atom,
    row: &mut Row,
    force: &mut V3,
    steps: &mut Steps<L>,
)
    requires finished { IsFinished pairs.now }
    requires own { IsPlaced pairs.now cell.now.sides own.now }
    requires other { IsPlaced pairs.now cell.now.sides other.now }
    requires room { IsRowWithin (2 ^ 40) row.old }
    requires words { FitWords force.old }
    ensures row { row.new ≡ row_with own.now.id other.now.id (term_of (field_of pairs.now.pairs) cell.now.sides own.now other.now) row.old }
    ensures force { force.new ≡ pushed (term_of (field_of pairs.now.pairs) cell.now.sides own.now other.now) force.old }
    ensures words { FitWords force.new }
    ensures bound { (k : ℕ) → IsRowWithin k row.old → IsRowWithin (k + 1) row.new }
    ensures steps { steps.new ≡ steps.old + 1 }
{
    match pair_term(pairs, cell, own, other, steps) {
        Ok(Some(term)) => {
            row.add(&term);
            *force = minus(force, &term.f);
        }
        Ok(None) => {}
        Err(_) => row.fault = row.fault.min(close_word(own.id, other.id)),
    }
}

/// The term of a pair of atoms, at the nearest image. There is none between atoms of one id.
#[inline(always)]
fn pair_term<L: Ledger>(
    pairs: &PairTable,
    cell: &SimBox,
    own: &Atom,
    other: &Atom,
    steps: &mut Steps<L>,
) -> Result<Option<Term>, Close>
    requires finished { IsFinished pairs.now }
    requires own { IsPlaced pairs.now cell.now.sides own.now }
    requires other { IsPlaced pairs.now cell.now.sides other.now }
    ensures is { result ≡ term_of (field_of pairs.now.pairs) cell.now.sides own.now other.now }
    ensures force { IfOk result (λ t. IfSome t HasModerateForce) }
    ensures energy { IfOk result (λ t. IfSome t HasModerateEnergy) }
    ensures virial { IfOk result (λ t. IfSome t HasModerateVirial) }
    ensures step { steps.new ≡ steps.old + 1 }
{
    if own.id == other.id {
        steps.tick();
        return Ok(None);
    }
    let d = cell.near(own.x, other.x);
    pairs.term(own.kind, other.kind, d, FULL_WEIGHT, steps)
}

/// The word of a pair that is too close.
fn close_word(own: u32, other: u32) -> u64
    requires own { own ≤ MAX_ID }
    requires other { other ≤ MAX_ID }
    ensures { result ≡ word (phase_number Forces) (kind_number kind.Close) (min own other) (max own other) }
{
    let phase = FaultPhase::Forces.number();
    let kind = FaultKind::Close.number();
    FaultKey::new(phase, kind, own.min(other), own.max(other)).word()
}
