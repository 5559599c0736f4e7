//! Sums over the atoms of a group.
ghost use Rattle.std.specs.Prelude.{◌≡◌, ◌≤◌, ◌≤ℤ◌, ◌<◌, ◌^◌, ◌*◌, cond, pos, ◌*ℤ◌, unsigned_abs, All, length, slice_index_or};
ghost use Rattle.box_geo.specs.Ids.{Rises};
ghost use Rattle.sums.specs.Totals.{total};
ghost use Rattle.box_geo.specs.Sides.{length2, IsWithin};
ghost use Rattle.computes.specs.Quantities.{IsSlow, kinetic_of, kinetic_sum};
ghost use Rattle.velocity_make.specs.Group.{IsWeighed, is_member, mass_of, mean, members, momentum, momentum_of, of_group, velocity_of, whole_mass};

use box_geo::limits::MAX_ATOMS;
use box_geo::{Atom, length2};
use fx_num::{V3, rdiv};

/// Whether an atom is of the group of these ids, which rise.
#[tactic(auto, using(crate::proofs::MemberLemmas::member_found))]
pub(crate) fn is_member(ids: &[u32], atom: &Atom) -> bool
    requires { Rises ids.now }
    ensures { result ≡ is_member ids.now atom.now }
{
    ids.binary_search(&atom.id).is_ok()
}

/// The mass of an atom of the group, by the masses of the types.
pub(crate) fn mass_of(atom: &Atom, mass: &[i64]) -> u64
    requires kind { (1 ≤ atom.now.kind) × (atom.now.kind ≤ length mass.now) }
    requires positive { pos 0 ≤ℤ mass_of mass.now atom.now }
    ensures { pos result ≡ mass_of mass.now atom.now }
{
    mass[usize::from(atom.kind) - 1].unsigned_abs()
}

/// How many atoms the group has.
pub(crate) fn count(atoms: &[Atom], ids: &[u32]) -> u32
    requires rising { Rises ids.now }
    requires few { length atoms.now ≤ MAX_ATOMS }
    ensures is { result ≡ length (members ids.now atoms.now) }
    ensures few { result ≤ MAX_ATOMS }
{
    let mut count = 0;
    for atom in atoms {
        count += one_of(atom, ids);
    }
    count
}

/// 1 for an atom of the group, else 0.
fn one_of(atom: &Atom, ids: &[u32]) -> u32
    requires { Rises ids.now }
    ensures is { result ≡ cond (is_member ids.now atom.now) 1 0 }
    ensures few { result ≤ 1 }
{
    if is_member(ids, atom) { 1 } else { 0 }
}

/// The mass of all atoms of the group, in units.
pub(crate) fn whole_mass(atoms: &[Atom], mass: &[i64], ids: &[u32]) -> u64
    requires rising { Rises ids.now }
    requires few { length atoms.now ≤ MAX_ATOMS }
    requires masses { All (IsWeighed mass.now ids.now) atoms.now }
    ensures is { pos result ≡ whole_mass mass.now (members ids.now atoms.now) }
    ensures bound { result ≤ 2 ^ 50 }
{
    let mut sum = 0;
    for atom in atoms {
        sum += part_of_mass(atom, mass, ids);
    }
    sum
}

/// The mass of an atom if it is of the group, else 0.
fn part_of_mass(atom: &Atom, mass: &[i64], ids: &[u32]) -> u64
    requires rising { Rises ids.now }
    requires mass { IsWeighed mass.now ids.now atom.now }
    ensures is { pos result ≡ of_group ids.now (mass_of mass.now) atom.now }
    ensures bound { result ≤ 2 ^ 30 }
{
    if !is_member(ids, atom) {
        return 0;
    }
    mass_of(atom, mass)
}

/// The momentum of the group along an axis, in multiples of 2^-48.
pub(crate) fn momentum(atoms: &[Atom], mass: &[i64], ids: &[u32], axis: usize) -> i128
    requires axis { axis < 3 }
    requires rising { Rises ids.now }
    requires few { length atoms.now ≤ MAX_ATOMS }
    requires masses { All (IsWeighed mass.now ids.now) atoms.now }
    requires speeds { All IsSlow atoms.now }
    ensures is { result ≡ momentum mass.now axis (members ids.now atoms.now) }
    ensures bound { unsigned_abs result ≤ 2 ^ 32 * unsigned_abs (whole_mass mass.now (members ids.now atoms.now)) }
{
    let mut sum = 0;
    for atom in atoms {
        sum += part_of_momentum(atom, mass, ids, axis);
    }
    sum
}

/// The momentum of an atom along an axis if it is of the group, else 0.
fn part_of_momentum(atom: &Atom, mass: &[i64], ids: &[u32], axis: usize) -> i128
    requires axis { axis < 3 }
    requires rising { Rises ids.now }
    requires mass { IsWeighed mass.now ids.now atom.now }
    requires speed { IsSlow atom.now }
    ensures is { result ≡ of_group ids.now (momentum_of mass.now axis) atom.now }
    ensures bound { unsigned_abs result ≤ 2 ^ 62 }
{
    if !is_member(ids, atom) {
        return 0;
    }
    times(mass_of(atom, mass), component_along(atom, axis))
}

/// A component of an atom's velocity.
fn component_along(atom: &Atom, axis: usize) -> i64
    requires axis { axis < 3 }
    requires speed { IsSlow atom.now }
    ensures is { result ≡ slice_index_or atom.now.v axis (pos 0) }
    ensures bound { unsigned_abs result ≤ 2 ^ 32 }
{
    atom.v[axis]
}

/// A mass times a component of a velocity.
fn times(mass: u64, v: i64) -> i128
    requires mass { mass ≤ 2 ^ 30 }
    requires v { unsigned_abs v ≤ 2 ^ 32 }
    ensures is { result ≡ pos mass *ℤ v }
    ensures bound { unsigned_abs result ≤ 2 ^ 62 }
{
    i128::from(mass) * i128::from(v)
}

/// The sum of mass times squared velocity over the group, in multiples of 2^-72.
pub(crate) fn kinetic_sum(atoms: &[Atom], mass: &[i64], ids: &[u32]) -> i128
    requires rising { Rises ids.now }
    requires few { length atoms.now ≤ MAX_ATOMS }
    requires masses { All (IsWeighed mass.now ids.now) atoms.now }
    requires speeds { All IsSlow atoms.now }
    ensures is { result ≡ kinetic_sum mass.now (members ids.now atoms.now) }
    ensures low { pos 0 ≤ℤ result }
    ensures bound { unsigned_abs result ≤ 3 * 2 ^ 114 }
{
    let mut sum = 0;
    for atom in atoms {
        sum += part_of_kinetic(atom, mass, ids);
    }
    sum as i128
}

/// The mass of an atom times its squared velocity if it is of the group, else 0.
fn part_of_kinetic(atom: &Atom, mass: &[i64], ids: &[u32]) -> u128
    requires rising { Rises ids.now }
    requires mass { IsWeighed mass.now ids.now atom.now }
    requires speed { IsSlow atom.now }
    ensures is { pos result ≡ of_group ids.now (kinetic_of mass.now) atom.now }
    ensures bound { result ≤ 3 * 2 ^ 94 }
{
    if !is_member(ids, atom) {
        return 0;
    }
    u128::from(mass_of(atom, mass)) * squared_speed(atom)
}

/// The square of an atom's velocity.
fn squared_speed(atom: &Atom) -> u128
    requires { IsSlow atom.now }
    ensures is { result ≡ length2 atom.now.v }
    ensures bound { result ≤ 3 * 2 ^ 64 }
{
    length2(atom.v)
}

/// The mean velocity of the group by mass; 0 without atoms.
pub(crate) fn mean(atoms: &[Atom], mass: &[i64], ids: &[u32]) -> V3
    requires rising { Rises ids.now }
    requires few { length atoms.now ≤ MAX_ATOMS }
    requires masses { All (IsWeighed mass.now ids.now) atoms.now }
    requires speeds { All IsSlow atoms.now }
    ensures is { result ≡ mean mass.now (members ids.now atoms.now) }
    ensures slow { IsWithin (2 ^ 32) result }
{
    let whole = whole_mass(atoms, mass, ids);
    [
        velocity_of(momentum(atoms, mass, ids, 0), whole),
        velocity_of(momentum(atoms, mass, ids, 1), whole),
        velocity_of(momentum(atoms, mass, ids, 2), whole),
    ]
}

/// A velocity by a momentum and a mass, 0 without mass.
#[tactic(auto, unfolding(crate::specs::Group::velocity_of))]
fn velocity_of(momentum: i128, mass: u64) -> i64
    requires mass { mass ≤ 2 ^ 50 }
    requires momentum { unsigned_abs momentum ≤ 2 ^ 32 * mass }
    ensures is { result ≡ velocity_of momentum (pos mass) }
    ensures slow { unsigned_abs result ≤ 2 ^ 32 }
{
    if mass == 0 {
        return 0;
    }
    rdiv(momentum, i128::from(mass)) as i64
}
