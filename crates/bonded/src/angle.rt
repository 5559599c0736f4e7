//! The term of an angle.
ghost use Rattle.std.specs.Prelude.{◌≡◌, ◌*◌, ◌^◌, ◌<◌, ◌≤◌, ℤ, pos, ◌-ℤ◌, ◌*ℤ◌, unsigned_abs, IfOk, IfSome};
ghost use Rattle.box_geo.specs.Sides.{IsWithin};
ghost use Rattle.box_geo.specs.Terms.{IsDisplacement, IsModerate};
ghost use Rattle.bonded.specs.Angles.{angle_energy, angle_force, angle_term, cosine, in_range, turn_along, HasModerateForces};
ghost use Rattle.bonded.specs.Lengths.{unless_strong, IsReach, IsStiffness};

use crate::broken::Broken;
use crate::lengths::{force_over, length_of};
use crate::products::{dot, product};
use fx_num::{UNIT, V3, rdiv, rsh};

/// The term of an angle of two outer atoms and their centre.
#[derive(Clone, Copy, Debug)]
pub struct AngleTerm {
    /// The force on the first outer atom, in units.
    pub fa: V3,
    /// The force on the second outer atom. The centre has the negatives of both.
    pub fc: V3,
    /// The energy, in units.
    pub energy: i64,
    /// The sum of the products of each displacement from the centre and its force, in multiples of
    /// 2^-48.
    pub virial: i128,
}

/// The term of a cosine angle at the displacements from its centre to its first and its second outer
/// atom, with the stiffness `k`. `rcmax` is the greatest of all cutoffs. All are in units.
///
/// # Errors
///
/// [`Broken`] where an outer atom is at the centre's place or further from it than `rcmax`, or where a
/// component of an outer force is above [`box_geo::limits::MAX_TERM_FORCE`].
pub fn angle_term(d1: V3, d2: V3, k: i64, rcmax: i64) -> Result<AngleTerm, Broken>
    requires d1 { IsDisplacement d1 }
    requires d2 { IsDisplacement d2 }
    requires k { IsStiffness k }
    requires reach { IsReach rcmax }
    ensures is { result ≡ angle_term d1 d2 k rcmax }
    ensures bounded { IfOk result HasModerateForces }
    ensures energy { IfOk result (λ t. unsigned_abs t.energy ≤ 2 ^ 39) }
    ensures virial { IfOk result (λ t. unsigned_abs t.virial ≤ 6 * 2 ^ 70) }
{
    let Some(r1) = length_of(&d1, rcmax) else {
        return Err(Broken);
    };
    let Some(r2) = length_of(&d2, rcmax) else {
        return Err(Broken);
    };
    let c = cosine(&d1, &d2, r1, r2);
    let Some(fa) = force(k, c, r1, r2, &d1, &d2) else {
        return Err(Broken);
    };
    let Some(fc) = force(k, c, r2, r1, &d2, &d1) else {
        return Err(Broken);
    };
    Ok(AngleTerm {
        fa,
        fc,
        energy: energy(k, c),
        virial: dot(&d1, &fa) + dot(&d2, &fc),
    })
}

/// The cosine of the angle, brought into its range.
fn cosine(d1: &V3, d2: &V3, r1: u64, r2: u64) -> i64
    requires d1 { IsWithin (2 ^ 28) d1.now }
    requires d2 { IsWithin (2 ^ 28) d2.now }
    requires r1 { (0 < r1) × (r1 ≤ 2 ^ 28) }
    requires r2 { (0 < r2) × (r2 ≤ 2 ^ 28) }
    ensures is { result ≡ cosine d1.now d2.now r1 r2 }
    ensures bound { unsigned_abs result ≤ 2 ^ 24 }
{
    let ratio = rdiv(product(dot(d1, d2), i128::from(UNIT)), area(r1, r2) as i128);
    in_range(ratio)
}

/// The product of two lengths.
fn area(r: u64, s: u64) -> u128
    requires r { (0 < r) × (r ≤ 2 ^ 28) }
    requires s { (0 < s) × (s ≤ 2 ^ 28) }
    ensures is { result ≡ r * s }
    ensures positive { 0 < result }
    ensures bound { result ≤ 2 ^ 56 }
{
    u128::from(r) * u128::from(s)
}

/// The product of the square of a length and another.
fn volume(r: u64, s: u64) -> u128
    requires r { (0 < r) × (r ≤ 2 ^ 28) }
    requires s { (0 < s) × (s ≤ 2 ^ 28) }
    ensures is { result ≡ r * r * s }
    ensures positive { 0 < result }
    ensures bound { result ≤ 2 ^ 84 }
{
    area(r, r) * u128::from(s)
}

/// A quotient brought into the range of a cosine.
fn in_range(c: i128) -> i64
    ensures is { result ≡ in_range c }
    ensures bound { unsigned_abs result ≤ 2 ^ 24 }
{
    c.clamp(-(UNIT as i128), UNIT as i128) as i64
}

/// The force on the outer atom at d, at the distance r; the other is at e, at the distance s.
fn force(k: i64, c: i64, r: u64, s: u64, d: &V3, e: &V3) -> Option<V3>
    requires k { IsStiffness k }
    requires c { unsigned_abs c ≤ 2 ^ 24 }
    requires r { (0 < r) × (r ≤ 2 ^ 28) }
    requires s { (0 < s) × (s ≤ 2 ^ 28) }
    requires d { IsWithin (2 ^ 28) d.now }
    requires e { IsWithin (2 ^ 28) e.now }
    ensures is { result ≡ unless_strong (angle_force k c r s d.now e.now) }
    ensures bounded { IfSome result IsModerate }
{
    let turn = [
        turn_along(k, c, r, s, d[0], e[0]),
        turn_along(k, c, r, s, d[1], e[1]),
        turn_along(k, c, r, s, d[2], e[2]),
    ];
    force_over(&turn, volume(r, s))
}

/// What components x of the own and y of the other displacement give the force, times r² s.
fn turn_along(k: i64, c: i64, r: u64, s: u64, x: i64, y: i64) -> i128
    requires k { IsStiffness k }
    requires c { unsigned_abs c ≤ 2 ^ 24 }
    requires r { r ≤ 2 ^ 28 }
    requires s { s ≤ 2 ^ 28 }
    requires x { unsigned_abs x ≤ 2 ^ 28 }
    requires y { unsigned_abs y ≤ 2 ^ 28 }
    ensures is { result ≡ turn_along k c r s x y }
    ensures bound { unsigned_abs result ≤ 2 ^ 119 }
{
    product(i128::from(k), apart(part(c, x, s), part(UNIT, y, r)))
}

/// The product of a number, a component of a displacement and a length.
fn part(c: i64, x: i64, s: u64) -> i128
    requires c { unsigned_abs c ≤ 2 ^ 24 }
    requires x { unsigned_abs x ≤ 2 ^ 28 }
    requires s { s ≤ 2 ^ 28 }
    ensures is { result ≡ c *ℤ x *ℤ pos s }
    ensures bound { unsigned_abs result ≤ 2 ^ 80 }
{
    product(product(i128::from(c), i128::from(x)), s as i128)
}

/// A difference.
fn apart(a: i128, b: i128) -> i128
    requires a { unsigned_abs a ≤ 2 ^ 80 }
    requires b { unsigned_abs b ≤ 2 ^ 80 }
    ensures is { result ≡ a -ℤ b }
    ensures bound { unsigned_abs result ≤ 2 ^ 81 }
{
    a - b
}

/// The energy of an angle of the cosine c.
fn energy(k: i64, c: i64) -> i64
    requires k { IsStiffness k }
    requires c { unsigned_abs c ≤ 2 ^ 24 }
    ensures is { result ≡ angle_energy k c }
    ensures bound { unsigned_abs result ≤ 2 ^ 39 }
{
    rsh(product(i128::from(k), i128::from(UNIT + c)), 24) as i64
}
