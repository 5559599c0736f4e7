//! The term of a bond.
ghost use Rattle.std.specs.Prelude.{◌≡◌, ◌*◌, ◌^◌, ◌<◌, ◌≤◌, pos, ◌-ℤ◌, ◌*ℤ◌, unsigned_abs, IfOk, IfSome};
ghost use Rattle.fx_num.specs.Rounding.{shr_rounded};
ghost use Rattle.box_geo.specs.Sides.{IsWithin};
ghost use Rattle.box_geo.specs.Terms.{IsDisplacement, IsModerate};
ghost use Rattle.bonded.specs.Bonds.{bond_term, times};
ghost use Rattle.bonded.specs.Lengths.{divided, unless_strong, IsReach, IsRestLength, IsStiffness};

use crate::broken::Broken;
use crate::lengths::{force_over, length_of};
use crate::products::{dot, product};
use box_geo::Term;
use fx_num::{UNIT, V3, rsh};

/// The term of a harmonic bond at the displacement d from its second atom to its first, with the
/// stiffness `k` and the rest length `r0`. `rcmax` is the greatest of all cutoffs. All are in units.
///
/// # Errors
///
/// [`Broken`] where the two atoms are at one place or further apart than `rcmax`, or where a component
/// of the force is above [`box_geo::limits::MAX_TERM_FORCE`].
pub fn bond_term(d: V3, k: i64, r0: i64, rcmax: i64) -> Result<Term, Broken>
    requires d { IsDisplacement d }
    requires k { IsStiffness k }
    requires r0 { IsRestLength r0 }
    requires reach { IsReach rcmax }
    ensures is { result ≡ bond_term d k r0 rcmax }
    ensures bounded { IfOk result (λ t. IsModerate t.f) }
    ensures energy { IfOk result (λ t. unsigned_abs t.energy ≤ 2 ^ 46) }
    ensures virial { IfOk result (λ t. unsigned_abs t.virial ≤ 3 * 2 ^ 70) }
{
    let Some(r) = length_of(&d, rcmax) else {
        return Err(Broken);
    };
    let gap = gap(r0, r);
    let Some(f) = force(k, gap, r, &d) else {
        return Err(Broken);
    };
    Ok(Term {
        f,
        energy: energy(k, gap),
        virial: dot(&d, &f),
    })
}

/// A rest length less a length.
fn gap(r0: i64, r: u64) -> i64
    requires r0 { IsRestLength r0 }
    requires r { r ≤ 2 ^ 28 }
    ensures is { result ≡ r0 -ℤ pos r }
    ensures bound { unsigned_abs result ≤ 2 ^ 28 }
{
    r0 - r as i64
}

/// The force of a bond at the displacement d of length r, if no component is too great.
fn force(k: i64, gap: i64, r: u64, d: &V3) -> Option<V3>
    requires k { IsStiffness k }
    requires gap { unsigned_abs gap ≤ 2 ^ 28 }
    requires r { (0 < r) × (r ≤ 2 ^ 28) }
    requires d { IsWithin (2 ^ 28) d.now }
    ensures is { result ≡ unless_strong (divided (times (pos 2 *ℤ k *ℤ gap) d.now) (r * 2 ^ 24)) }
    ensures bounded { IfSome result IsModerate }
{
    let pull = [
        pull_along(k, gap, d[0]),
        pull_along(k, gap, d[1]),
        pull_along(k, gap, d[2]),
    ];
    force_over(&pull, u128::from(r) * UNIT as u128)
}

/// What the component x of a displacement gives the force of a bond, times the length.
fn pull_along(k: i64, gap: i64, x: i64) -> i128
    requires k { IsStiffness k }
    requires gap { unsigned_abs gap ≤ 2 ^ 28 }
    requires x { unsigned_abs x ≤ 2 ^ 28 }
    ensures is { result ≡ pos 2 *ℤ k *ℤ gap *ℤ x }
    ensures bound { unsigned_abs result ≤ 2 ^ 95 }
{
    product(product(2 * i128::from(k), i128::from(gap)), i128::from(x))
}

/// The energy of a bond by its rest length less its length.
fn energy(k: i64, gap: i64) -> i64
    requires k { IsStiffness k }
    requires gap { unsigned_abs gap ≤ 2 ^ 28 }
    ensures is { result ≡ shr_rounded (k *ℤ (gap *ℤ gap)) 48 }
    ensures bound { unsigned_abs result ≤ 2 ^ 46 }
{
    let square = product(i128::from(gap), i128::from(gap));
    rsh(product(i128::from(k), square), 48) as i64
}
