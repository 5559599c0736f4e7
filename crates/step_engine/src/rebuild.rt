//! Reference positions: when they are renewed, and the neighbour pairs at them.
ghost use Rattle.std.specs.Prelude.{◌≡◌, ◌<◌, ◌≤◌, ◌+◌, ◌*◌, [], count_by, drop, length, nat_lt, slice_index_or, unsigned_abs, All, IfOk};
ghost use Rattle.box_geo.specs.Sides.{IsInside, length2, near_image};
ghost use Rattle.serial_step.specs.Rebuild.{is_far, neighbour_pairs, positions, renews};
ghost use Rattle.step_engine.specs.Ranges.{AreRules, IsPlaced};

use crate::rules::Rules;
use box_geo::limits::MAX_ATOMS;
use box_geo::{Atom, length2};
use fx_num::{NoMemory, V3};
use std::alloc::Global;

/// The positions of the atoms, in order.
pub(crate) fn positions(alloc: Global, atoms: &[Atom]) -> Result<Vec<V3>, NoMemory>
    ensures { IfOk result (λ list. list.items ≡ positions atoms.now) }
{
    let mut list = Vec::new(alloc);
    for atom in atoms {
        let x = atom.x;
        list.push(x)?;
    }
    Ok(list)
}

/// Whether some atom is more than half the skin from its reference.
#[tactic(auto, unfolding(serial_step::specs::Rebuild::renews))]
pub(crate) fn renews(rules: &Rules, atoms: &[Atom], references: &[V3]) -> bool
    requires rules { AreRules rules.now }
    requires placed { All (IsPlaced rules.now.field.pairs rules.now.cell.sides) atoms.now }
    requires inside { All (IsInside rules.now.cell.sides) references.now }
    requires each { length references.now ≡ length atoms.now }
    ensures { result ≡ renews rules.now.cell.sides (unsigned_abs rules.now.skin) (positions atoms.now) references.now }
{
    for i in 0..atoms.len() {
        let x = atoms[i].x;
        if is_far(rules, x, references[i]) {
            return true;
        }
    }
    false
}

/// Whether a position is more than half the skin from a reference.
fn is_far(rules: &Rules, x: V3, reference: V3) -> bool
    requires rules { AreRules rules.now }
    requires x { IsInside rules.now.cell.sides x }
    requires reference { IsInside rules.now.cell.sides reference }
    ensures { result ≡ is_far rules.now.cell.sides (unsigned_abs rules.now.skin) (x, reference) }
{
    let skin = u128::from(rules.skin.unsigned_abs());
    skin * skin < 4 * length2(rules.cell.near(x, reference))
}

/// Makes the positions of the atoms the references. It takes no memory.
pub(crate) fn renew(atoms: &[Atom], references: &mut [V3])
    requires { length references.old ≡ length atoms.now }
    ensures { references.new ≡ positions atoms.now }
{
    for i in 0..atoms.len() {
        let x = atoms[i].x;
        references[i] = x;
    }
}

/// How many unordered pairs of references are nearer than the sum of the greatest cutoff and the skin.
#[tactic(auto, unfolding(serial_step::specs::Rebuild::neighbour_pairs))]
pub(crate) fn neighbour_pairs(rules: &Rules, references: &[V3]) -> u64
    requires rules { AreRules rules.now }
    requires few { length references.now ≤ MAX_ATOMS }
    requires inside { All (IsInside rules.now.cell.sides) references.now }
    ensures { result ≡ neighbour_pairs rules.now.cell.sides (unsigned_abs rules.now.field.rcmax + unsigned_abs rules.now.skin) references.now }
{
    let mut count = 0;
    for i in 0..references.len() {
        count += neighbours_after(rules, references, i);
    }
    count
}

/// How many references after the one at a place are its neighbours.
fn neighbours_after(rules: &Rules, references: &[V3], place: usize) -> u64
    requires rules { AreRules rules.now }
    requires few { length references.now ≤ MAX_ATOMS }
    requires inside { All (IsInside rules.now.cell.sides) references.now }
    requires place { place < length references.now }
    ensures is { let reach = unsigned_abs rules.now.field.rcmax + unsigned_abs rules.now.skin in
        result ≡ count_by (λ y. nat_lt (length2 (near_image rules.now.cell.sides (slice_index_or references.now place []) y)) (reach * reach)) (drop (place + 1) references.now) }
    ensures bound { result ≤ length references.now }
{
    let mut count = 0;
    for reference in &references[place + 1..] {
        if are_neighbours(rules, references[place], *reference) {
            count += 1;
        }
    }
    count
}

/// Whether two references are nearer than the sum of the greatest cutoff and the skin.
fn are_neighbours(rules: &Rules, a: V3, b: V3) -> bool
    requires rules { AreRules rules.now }
    requires a { IsInside rules.now.cell.sides a }
    requires b { IsInside rules.now.cell.sides b }
    ensures { let reach = unsigned_abs rules.now.field.rcmax + unsigned_abs rules.now.skin in
        result ≡ nat_lt (length2 (near_image rules.now.cell.sides a b)) (reach * reach) }
{
    let reach = u128::from(rules.field.rcmax.unsigned_abs() + rules.skin.unsigned_abs());
    length2(rules.cell.near(a, b)) < reach * reach
}
