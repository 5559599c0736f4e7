//! The motion of atoms: the sum of mass times squared velocity, temperature, kinetic energy.
ghost use Rattle.std.specs.Prelude.{◌≡◌, ◌*◌, ◌+◌, ◌-◌, ◌^◌, ◌<◌, ◌≤◌, ◌≤ℤ◌, ℤ, pos, unsigned_abs, All, length};
ghost use Rattle.fx_num.specs.Rounding.{div_rounded};
ghost use Rattle.box_geo.specs.Sides.{length2};
ghost use Rattle.computes.specs.Quantities.{HasMass, IsSlow, freedom, kinetic_of, kinetic_share, kinetic_sum, mass_at, temperature};

use box_geo::limits::MAX_ATOMS;
use box_geo::{Atom, length2};
use fx_num::rdiv;

/// The sum of mass times squared velocity over all atoms, in multiples of 2^-72. `mass` has the mass
/// of each atom type, in units.
#[tactic(auto, unfolding(crate::specs::Quantities::kinetic_sum))]
pub fn kinetic_sum(atoms: &[Atom], mass: &[i64]) -> i128
    requires few { length atoms.now ≤ MAX_ATOMS }
    requires kinds { All (HasMass mass.now) atoms.now }
    requires speeds { All IsSlow atoms.now }
    ensures is { result ≡ kinetic_sum mass.now atoms.now }
    ensures low { pos 0 ≤ℤ result }
    ensures bound { unsigned_abs result ≤ length atoms.now * (3 * 2 ^ 94) }
{
    let mut sum = 0;
    for atom in atoms {
        sum += kinetic_of(atom, mass);
    }
    sum as i128
}

/// The mass of an atom times its squared velocity.
fn kinetic_of(atom: &Atom, mass: &[i64]) -> u128
    requires kind { HasMass mass.now atom.now }
    requires speed { IsSlow atom.now }
    ensures is { pos result ≡ kinetic_of mass.now atom.now }
    ensures bound { result ≤ 3 * 2 ^ 94 }
{
    u128::from(mass_of(atom, mass)) * squared_speed(atom)
}

/// The mass of an atom, by the masses of the types.
fn mass_of(atom: &Atom, mass: &[i64]) -> u64
    requires { HasMass mass.now atom.now }
    ensures is { pos result ≡ mass_at mass.now atom.now.kind }
    ensures bound { result ≤ 2 ^ 30 }
{
    mass[usize::from(atom.kind) - 1].unsigned_abs()
}

/// The square of an atom's velocity.
fn squared_speed(atom: &Atom) -> u128
    requires { IsSlow atom.now }
    ensures is { result ≡ length2 atom.now.v }
    ensures bound { result ≤ 3 * 2 ^ 64 }
{
    length2(atom.v)
}

/// The temperature of `n` atoms in `dim` dimensions, in units, from the sum of mass times squared
/// velocity, in multiples of 2^-72. It is 0 where no degree of freedom is left.
#[tactic(auto, unfolding(crate::specs::Quantities::temperature))]
pub fn temp(s: i128, n: u32, dim: u8) -> i64
    requires n { n ≤ MAX_ATOMS }
    requires dim { (2 ≤ dim) × (dim ≤ 3) }
    requires s { (pos 0 ≤ℤ s) × (unsigned_abs s ≤ 3 * n * 2 ^ 94) }
    ensures is { result ≡ temperature s n dim }
    ensures bound { unsigned_abs result ≤ 2 ^ 48 }
{
    let freedom = freedom(n, dim);
    if freedom == 0 {
        0
    } else {
        over_freedom(s, freedom)
    }
}

/// The temperature for so many degrees of freedom.
fn over_freedom(s: i128, freedom: u64) -> i64
    requires some { 0 < freedom }
    requires few { freedom ≤ 2 ^ 22 }
    requires s { unsigned_abs s ≤ freedom * 2 ^ 96 }
    ensures is { result ≡ div_rounded s (pos (freedom * 2 ^ 48)) }
    ensures bound { unsigned_abs result ≤ 2 ^ 48 }
{
    rdiv(s, i128::from(freedom) * (1 << 48)) as i64
}

/// The degrees of freedom of `n` atoms.
fn freedom(n: u32, dim: u8) -> u64
    requires n { n ≤ MAX_ATOMS }
    requires dim { (2 ≤ dim) × (dim ≤ 3) }
    ensures is { result ≡ freedom dim n }
    ensures few { result ≤ 2 ^ 22 }
    ensures enough { 0 < result → 3 * n ≤ 4 * result }
{
    (u64::from(dim) * u64::from(n)).saturating_sub(u64::from(dim))
}

/// The kinetic energy for each of `n` atoms, in units, from the sum of mass times squared velocity,
/// in multiples of 2^-72. It is 0 without atoms.
#[tactic(auto, unfolding(crate::specs::Quantities::kinetic_share))]
pub fn kinetic_share(s: i128, n: u32) -> i128
    requires { unsigned_abs s ≤ 2 ^ 121 }
    ensures is { result ≡ kinetic_share s n }
    ensures bound { unsigned_abs result ≤ unsigned_abs s }
    ensures small { unsigned_abs s ≤ 3 * n * 2 ^ 94 → unsigned_abs result ≤ 2 ^ 48 }
{
    if n == 0 {
        0
    } else {
        rdiv(s, i128::from(n) * (1 << 49))
    }
}
