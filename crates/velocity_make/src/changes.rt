//! A change of velocities, judged and then made.
ghost use Rattle.std.specs.Prelude.{◌≡◌, ◌≤◌, ◌^◌, None, pos, ◌-ℤ◌, ◌*ℤ◌, unsigned_abs, All, map, [], OnOk, OnErr};
ghost use Rattle.computes.specs.Quantities.{IsSlow};
ghost use Rattle.std.specs.Option.{unwrap_or};
ghost use Rattle.fx_num.specs.Rounding.{shr_rounded};
ghost use Rattle.box_geo.specs.Ids.{Rises};
ghost use Rattle.velocity_make.specs.Change.{CanChange, changed, changed_all, is_slow, is_within, least_fast, lesser_fast, rest_of, scaled_by, velocity_after, with_velocity};
ghost use Rattle.velocity_make.specs.Group.{is_member};
ghost use Rattle.velocity_make.specs.Make.{answer_of, too_fast};

use crate::calls::VelocityRefusal;
use crate::groups::is_member;
use box_geo::Atom;
use box_geo::limits::MAX_SPEED;
use fx_num::{V3, rsh};

/// What is done to the velocity of each atom of a group. Velocities and factors are in units.
#[derive(Clone, Copy, Debug)]
pub enum Change {
    /// It stays.
    Keep,
    /// It becomes 0.
    Stop,
    /// It is multiplied by a factor.
    Scale(u64),
    /// A velocity is taken off.
    TakeOff(V3),
    /// The components that are given replace its own.
    Set([Option<i64>; 3]),
}

/// Changes the atoms of a group, unless one would be too fast: then all stay as they are.
pub(crate) fn change_all(
    atoms: &mut [Atom],
    ids: &[u32],
    change: &Change,
) -> Result<(), VelocityRefusal>
    requires rising { Rises ids.now }
    requires can { All (CanChange change.now) atoms.old }
    ensures answer { result ≡ answer_of (too_fast ids.now (changed_all ids.now change.now atoms.old)) }
    ensures made { OnOk result (atoms.new ≡ changed_all ids.now change.now atoms.old) }
    ensures unchanged { OnErr result (atoms.new ≡ atoms.old) }
    ensures slow { All IsSlow atoms.old → All IsSlow atoms.new }
    ensures others { map rest_of atoms.new ≡ map rest_of atoms.old }
{
    match least_fast(atoms, ids, change) {
        Some(id) => return Err(VelocityRefusal::SpeedRange(id)),
        None => {}
    }
    write_all(atoms, ids, change);
    Ok(())
}

/// The least id of the atoms of a group that a change would make too fast.
fn least_fast(atoms: &[Atom], ids: &[u32], change: &Change) -> Option<u32>
    requires rising { Rises ids.now }
    requires can { All (CanChange change.now) atoms.now }
    ensures { result ≡ least_fast ids.now None (changed_all ids.now change.now atoms.now) }
{
    let mut least = None;
    for atom in atoms {
        least = lesser_fast(ids, least, &changed(atom, ids, change));
    }
    least
}

/// Changes the atoms of a group.
pub(crate) fn write_all(atoms: &mut [Atom], ids: &[u32], change: &Change)
    requires rising { Rises ids.now }
    requires can { All (CanChange change.now) atoms.old }
    ensures { atoms.new ≡ changed_all ids.now change.now atoms.old }
{
    for atom in atoms.iter_mut() {
        *atom = changed(atom, ids, change);
    }
}

/// The lesser of an atom's id and the least so far, if the atom is of the group and too fast.
fn lesser_fast(ids: &[u32], least: Option<u32>, atom: &Atom) -> Option<u32>
    requires { Rises ids.now }
    ensures { result ≡ lesser_fast ids.now least atom.now }
{
    if !is_member(ids, atom) || is_slow(atom) {
        return least;
    }
    Some(least.unwrap_or(atom.id).min(atom.id))
}

/// Whether each component of an atom's velocity is within the limit.
fn is_slow(atom: &Atom) -> bool
    ensures { result ≡ is_slow atom.now }
{
    let [x, y, z] = atom.v;
    is_within(x) && is_within(y) && is_within(z)
}

/// Whether a component of a velocity is within the limit.
fn is_within(v: i64) -> bool
    ensures { result ≡ is_within v }
{
    v.unsigned_abs() <= MAX_SPEED.unsigned_abs()
}

/// The atom after a change, if it is of the group.
fn changed(atom: &Atom, ids: &[u32], change: &Change) -> Atom
    requires rising { Rises ids.now }
    requires can { CanChange change.now atom.now }
    ensures { result ≡ changed ids.now change.now atom.now }
{
    if !is_member(ids, atom) {
        return *atom;
    }
    with_velocity(atom, velocity_after(change, atom))
}

/// The atom with another velocity.
pub(crate) fn with_velocity(atom: &Atom, v: V3) -> Atom
    ensures { result ≡ with_velocity atom.now v }
{
    let mut moved = *atom;
    moved.v = v;
    moved
}

/// An atom's velocity after a change.
fn velocity_after(change: &Change, atom: &Atom) -> V3
    requires { CanChange change.now atom.now }
    ensures { result ≡ velocity_after change.now atom.now.v }
{
    let [x, y, z] = atom.v;
    match change {
        Change::Keep => atom.v,
        Change::Stop => [0; 3],
        Change::Scale(factor) => [
            scaled_by(*factor, x),
            scaled_by(*factor, y),
            scaled_by(*factor, z),
        ],
        Change::TakeOff(u) => [taken_off(x, u[0]), taken_off(y, u[1]), taken_off(z, u[2])],
        Change::Set(given) => [
            given_or(&given[0], x),
            given_or(&given[1], y),
            given_or(&given[2], z),
        ],
    }
}

/// A component times a factor in units.
fn scaled_by(factor: u64, v: i64) -> i64
    requires factor { factor ≤ 2 ^ 52 }
    requires slow { unsigned_abs v ≤ 2 ^ 32 }
    ensures { result ≡ scaled_by factor v }
{
    shifted(product(factor, v))
}

/// A component times a factor, in multiples of 2^-48.
fn product(factor: u64, v: i64) -> i128
    requires factor { factor ≤ 2 ^ 52 }
    requires slow { unsigned_abs v ≤ 2 ^ 32 }
    ensures is { result ≡ v *ℤ pos factor }
    ensures bound { unsigned_abs result ≤ 2 ^ 84 }
{
    i128::from(v) * i128::from(factor)
}

/// A product in units.
fn shifted(product: i128) -> i64
    requires { unsigned_abs product ≤ 2 ^ 84 }
    ensures { result ≡ shr_rounded product 24 }
{
    rsh(product, 24) as i64
}

/// A component less another.
fn taken_off(v: i64, u: i64) -> i64
    requires v { unsigned_abs v ≤ 2 ^ 32 }
    requires u { unsigned_abs u ≤ 2 ^ 32 }
    ensures { result ≡ v -ℤ u }
{
    v - u
}

/// The component that is given, or else the one that is there.
fn given_or(given: &Option<i64>, v: i64) -> i64
    ensures { result ≡ unwrap_or given.now v }
{
    given.unwrap_or(v)
}
