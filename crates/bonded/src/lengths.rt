//! Lengths of displacements, and vectors over a number.
ghost use Rattle.std.specs.Prelude.{◌≡◌, ◌^◌, ◌<◌, ◌≤◌, nat_lt, unsigned_abs, IfSome};
ghost use Rattle.box_geo.specs.Sides.{IsWithin};
ghost use Rattle.box_geo.specs.Terms.{is_too_strong, IsDisplacement, IsModerate};
ghost use Rattle.bonded.specs.Lengths.{divided, length_within, unless_strong, IsReach};

use box_geo::length2;
use box_geo::limits::MAX_TERM_FORCE;
use fx_num::{V3, rdiv, rsqrt};

/// The length of a displacement, where it is above 0 and at most the greatest cutoff.
pub(crate) fn length_of(d: &V3, rcmax: i64) -> Option<u64>
    requires d { IsDisplacement d.now }
    requires reach { IsReach rcmax }
    ensures is { result ≡ length_within rcmax d.now }
    ensures low { IfSome result (λ r. 0 < r) }
    ensures high { IfSome result (λ r. r ≤ 2 ^ 28) }
    ensures parts { IfSome result (λ r. IsWithin (2 ^ 28) d.now) }
{
    let r2 = length2(*d);
    let most = u128::from(rcmax.unsigned_abs());
    if r2 == 0 || r2 > most * most {
        return None;
    }
    Some(rsqrt(r2))
}

/// A vector over a number, if no component is above the greatest of a force.
pub(crate) fn force_over(v: &[i128; 3], n: u128) -> Option<V3>
    requires v { IsWithin (2 ^ 120) v.now }
    requires positive { 0 < n }
    requires divisor { n < 2 ^ 120 }
    ensures is { result ≡ unless_strong (divided v.now n) }
    ensures bounded { IfSome result IsModerate }
{
    let n = n as i128;
    let f = [rdiv(v[0], n), rdiv(v[1], n), rdiv(v[2], n)];
    if is_too_strong(&f) {
        return None;
    }
    Some([f[0] as i64, f[1] as i64, f[2] as i64])
}

/// Whether a component of a force is of too great a magnitude.
fn is_too_strong(f: &[i128; 3]) -> bool
    ensures { result ≡ is_too_strong f.now }
{
    is_great(f[0]) || is_great(f[1]) || is_great(f[2])
}

/// Whether a magnitude is too great.
fn is_great(f: i128) -> bool
    ensures { result ≡ nat_lt (2 ^ 42) (unsigned_abs f) }
{
    f.unsigned_abs() > MAX_TERM_FORCE as u128
}
