//! Lengths that a lattice scales.
ghost use Rattle.meaning.specs.Lattice.{scaled_length, scaled_side, scaled_sides, scaled_vector, spacing_in};
ghost use Rattle.meaning.specs.Sound.{IsSoundLattice};
ghost use Rattle.run_settings.specs.Scaling.{AreLengths, unless_above, unless_long_length, unless_long_side, unless_long_sides, unless_long_vector};
ghost use Rattle.std.specs.Prelude.{◌≡◌, ◌*ℤ◌, ◌^◌, ◌<◌, ◌≤ℤ◌, pos, unsigned_abs, IfSome};

use crate::lattice::dim_of;
use box_geo::limits::MAX_POSITION;
use fx_num::{UNIT, V3, rsh};
use lattice_fill::Lattice;
use meaning::LatticeChoice;

/// The spacing of the lattice along each axis, in units; before any lattice it is 1.
pub(crate) fn spacing_in(lattice: &Option<LatticeChoice>) -> V3
    requires { IfSome lattice.now IsSoundLattice }
    ensures is { result ≡ spacing_in lattice.now }
    ensures lengths { AreLengths result }
{
    match lattice {
        Some(lattice) => {
            let dim = dim_of(lattice.style);
            Lattice::new(lattice.style, lattice.density, dim).spacing()
        }
        None => [UNIT; 3],
    }
}

/// A length times a spacing.
fn product(v: &i64, spacing: &i64) -> i128
    requires { pos 0 ≤ℤ spacing.now }
    ensures is { result ≡ v.now *ℤ spacing.now }
    ensures bound { unsigned_abs result < 2 ^ 126 }
{
    i128::from(*v) * i128::from(*spacing)
}

/// A length, where it is scaled a multiple of the spacing.
fn scaled_length(scaled: bool, spacing: &i64, v: &i64) -> i128
    requires { pos 0 ≤ℤ spacing.now }
    ensures { result ≡ scaled_length scaled spacing.now v.now }
{
    if !scaled {
        return i128::from(*v);
    }
    rsh(product(v, spacing), 24)
}

/// A number, unless its magnitude is above a bound.
fn unless_above(x: &i128, most: &i64) -> Option<i64>
    requires { pos 0 ≤ℤ most.now }
    ensures { result ≡ unless_above (unsigned_abs most.now) x.now }
{
    if x.unsigned_abs() > u128::from(most.unsigned_abs()) {
        return None;
    }
    Some(*x as i64)
}

/// A length, where it is scaled a multiple of the spacing; none where its magnitude is above `most`.
pub(crate) fn scaled_within(scaled: bool, spacing: &i64, v: &i64, most: i64) -> Option<i64>
    requires spacing { pos 0 ≤ℤ spacing.now }
    requires most { pos 0 ≤ℤ most }
    ensures { result ≡ unless_above (unsigned_abs most) (scaled_length scaled spacing.now v.now) }
{
    unless_above(&scaled_length(scaled, spacing, v), &most)
}

/// A length that is scaled, unless it is beyond the greatest.
pub(crate) fn short(scaled: bool, spacing: &i64, v: &i64) -> Option<i64>
    requires { pos 0 ≤ℤ spacing.now }
    ensures { result ≡ unless_long_length (scaled_length scaled spacing.now v.now) }
{
    scaled_within(scaled, spacing, v, MAX_POSITION)
}

/// A vector that is scaled, unless one of its components is beyond the greatest length.
pub(crate) fn scaled_vector(scaled: bool, spacing: &V3, v: &V3) -> Option<V3>
    requires { AreLengths spacing.now }
    ensures { result ≡ unless_long_vector (scaled_vector scaled spacing.now v.now) }
{
    let x = short(scaled, &spacing[0], &v[0])?;
    let y = short(scaled, &spacing[1], &v[1])?;
    let z = short(scaled, &spacing[2], &v[2])?;
    Some([x, y, z])
}

/// A side that is scaled, unless it is beyond the greatest length; an open one stays open.
fn scaled_side(scaled: bool, spacing: &i64, side: &Option<i64>) -> Option<Option<i64>>
    requires { pos 0 ≤ℤ spacing.now }
    ensures { result ≡ unless_long_side (scaled_side scaled spacing.now side.now) }
{
    match side {
        Some(v) => {
            let v = short(scaled, spacing, v)?;
            Some(Some(v))
        }
        None => Some(None),
    }
}

/// Three sides that are scaled, unless one is beyond the greatest length.
pub(crate) fn scaled_sides(
    scaled: bool,
    spacing: &V3,
    sides: &[Option<i64>; 3],
) -> Option<[Option<i64>; 3]>
    requires { AreLengths spacing.now }
    ensures { result ≡ unless_long_sides (scaled_sides scaled spacing.now sides.now) }
{
    let x = scaled_side(scaled, &spacing[0], &sides[0])?;
    let y = scaled_side(scaled, &spacing[1], &sides[1])?;
    let z = scaled_side(scaled, &spacing[2], &sides[2])?;
    Some([x, y, z])
}
