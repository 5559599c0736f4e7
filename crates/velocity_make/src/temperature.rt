//! The change that brings a group to a temperature.
ghost use Rattle.std.specs.Prelude.{◌≡◌, ◌≤◌, ◌<◌, ◌^◌, ◌*◌, ◌*ℤ◌, ◌≤ℤ◌, pos, unsigned_abs, All, length};
ghost use Rattle.fx_num.specs.Rounding.{div_rounded, shr_rounded};
ghost use Rattle.fx_num.specs.Roots.{sqrt_of};
ghost use Rattle.box_geo.specs.Ids.{Rises};
ghost use Rattle.computes.specs.Quantities.{IsSlow, freedom, kinetic_sum};
ghost use Rattle.velocity_make.specs.Change.{CanChange, scaling};
ghost use Rattle.box_geo.specs.declared.atoms.Atom.{Atom};
ghost use Rattle.velocity_make.specs.Group.{IsWeighed, members};

use crate::changes::Change;
use crate::groups::{count, kinetic_sum};
use box_geo::Atom;
use box_geo::limits::MAX_ATOMS;
use fx_num::{rdiv, rsh, rsqrt};

/// The change that brings the group to a temperature in units.
pub(crate) fn scaling_to(atoms: &[Atom], mass: &[i64], dim: u8, ids: &[u32], t: i64) -> Change
    requires rising { Rises ids.now }
    requires few { length atoms.now ≤ MAX_ATOMS }
    requires masses { All (IsWeighed mass.now ids.now) atoms.now }
    requires speeds { All IsSlow atoms.now }
    requires dim { (2 ≤ dim) × (dim ≤ 3) }
    requires temperature { (pos 0 ≤ℤ t) × (unsigned_abs t ≤ 2 ^ 34) }
    ensures is { result ≡ scaling t (kinetic_sum mass.now (members ids.now atoms.now)) (freedom dim (length (members ids.now atoms.now))) }
    ensures can { (a : Atom) → IsSlow a → CanChange result a }
{
    scaling(
        t,
        kinetic_sum(atoms, mass, ids),
        freedom(count(atoms, ids), dim),
    )
}

/// The degrees of freedom of `n` atoms.
fn freedom(n: u32, dim: u8) -> u64
    requires n { n ≤ MAX_ATOMS }
    requires dim { (2 ≤ dim) × (dim ≤ 3) }
    ensures is { result ≡ freedom dim n }
    ensures few { result ≤ 2 ^ 22 }
{
    (u64::from(dim) * u64::from(n)).saturating_sub(u64::from(dim))
}

/// The change to a temperature of a group with this sum of mass times squared velocity and so many degrees of
/// freedom.
#[tactic(auto, unfolding(crate::specs::Change::scaling, crate::specs::Group::factor_of))]
fn scaling(t: i64, s: i128, free: u64) -> Change
    requires t { (pos 0 ≤ℤ t) × (unsigned_abs t ≤ 2 ^ 34) }
    requires s { unsigned_abs s ≤ 3 * 2 ^ 114 }
    requires positive { pos 0 ≤ℤ s }
    requires free { free ≤ 2 ^ 22 }
    ensures is { result ≡ scaling t s free }
    ensures can { (a : Atom) → IsSlow a → CanChange result a }
{
    if free == 0 {
        return Change::Stop;
    }
    let motion = motion(s);
    if motion == 0 {
        return Change::Keep;
    }
    Change::Scale(factor(wanted(t, free), motion))
}

/// The sum of mass times squared velocity, rounded to multiples of 2^-24.
fn motion(s: i128) -> i128
    requires s { unsigned_abs s ≤ 3 * 2 ^ 114 }
    requires positive { pos 0 ≤ℤ s }
    ensures is { result ≡ shr_rounded s 48 }
    ensures bound { unsigned_abs result ≤ 3 * 2 ^ 114 }
    ensures low { pos 0 ≤ℤ result }
{
    rsh(s, 48)
}

/// The sum that a temperature means, by the degrees of freedom, in multiples of 2^-72.
fn wanted(t: i64, free: u64) -> i128
    requires t { (pos 0 ≤ℤ t) × (unsigned_abs t ≤ 2 ^ 34) }
    requires free { free ≤ 2 ^ 22 }
    ensures is { result ≡ t *ℤ pos (free * 2 ^ 48) }
    ensures bound { unsigned_abs result ≤ 2 ^ 104 }
    ensures low { pos 0 ≤ℤ result }
{
    i128::from(t) * (i128::from(free) * (1 << 48))
}

/// The factor that takes the one sum to the other, in units.
fn factor(wanted: i128, motion: i128) -> u64
    requires wanted { unsigned_abs wanted ≤ 2 ^ 104 }
    requires motion { (unsigned_abs motion ≤ 3 * 2 ^ 114) × (pos 1 ≤ℤ motion) }
    ensures is { result ≡ sqrt_of (unsigned_abs (div_rounded wanted motion)) }
    ensures bound { result ≤ 2 ^ 52 }
{
    root(ratio(wanted, motion))
}

/// The ratio of the sums.
fn ratio(wanted: i128, motion: i128) -> u128
    requires wanted { unsigned_abs wanted ≤ 2 ^ 104 }
    requires motion { (unsigned_abs motion ≤ 3 * 2 ^ 114) × (pos 1 ≤ℤ motion) }
    ensures is { result ≡ unsigned_abs (div_rounded wanted motion) }
    ensures bound { result ≤ 2 ^ 104 }
{
    rdiv(wanted, motion).unsigned_abs()
}

/// The square root of a ratio.
fn root(a: u128) -> u64
    requires { a ≤ 2 ^ 104 }
    ensures is { result ≡ sqrt_of a }
    ensures bound { result ≤ 2 ^ 52 }
{
    rsqrt(a)
}
