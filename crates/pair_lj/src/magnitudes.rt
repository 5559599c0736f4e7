//! The magnitudes of the pair term. One function for each rounding, with its value and its bound.
ghost use Rattle.std.specs.Prelude.{◌≡◌, ◌+◌, ◌*◌, ◌^◌, ◌<◌, ◌≤◌};
ghost use Rattle.fx_num.specs.Rounding.{nearest_of};

use fx_num::{nearest_by_guess, nearest_shift};

/// How many units are 1.
const UNIT: u128 = fx_num::UNIT as u128;

/// The square of a length.
pub(crate) fn square(a: u64) -> u128
    requires { a < 2 ^ 34 }
    ensures is { result ≡ a * a }
    ensures bound { result < 2 ^ 68 }
{
    u128::from(a) * u128::from(a)
}

/// The square of the distance, from the magnitudes of the components.
pub(crate) fn distance2(a: u64, b: u64, c: u64) -> u128
    requires a { a < 2 ^ 34 }
    requires b { b < 2 ^ 34 }
    requires c { c < 2 ^ 34 }
    ensures { result ≡ a * a + b * b + c * c }
{
    square(a) + square(b) + square(c)
}

/// The square of sigma over that of the distance, in units of 2^-32.
pub(crate) fn square_ratio(sigma: u64, r2: u128, guess: u64) -> u128
    requires sigma { sigma ≤ 2 ^ 27 }
    requires apart { 0 < r2 }
    requires near { r2 ≤ 2 ^ 56 }
    ensures { result ≡ nearest_of (sigma * sigma * 2 ^ 32) r2 }
{
    nearest_by_guess(square(sigma) * (1 << 32), r2 as u64, guess)
}

/// The sixth power of sigma over the distance, from the square, in units of 2^-32.
#[inline(always)]
pub(crate) fn cube(w: u64) -> u64
    requires { w ≤ 2 ^ 36 }
    ensures is { result ≡ nearest_of (w * w * w) (2 ^ 64) }
    ensures bound { result ≤ 2 ^ 44 }
{
    wide_cube(w as u128) as u64
}

/// The same in 128 bits.
#[inline(always)]
fn wide_cube(w: u128) -> u128
    requires { w ≤ 2 ^ 36 }
    ensures is { result ≡ nearest_of (w * w * w) (2 ^ 64) }
    ensures bound { result ≤ 2 ^ 44 }
{
    nearest_shift(w * w * w, 64)
}

/// The twelfth power of sigma over the distance, from the sixth, in units of 2^-32.
#[inline(always)]
pub(crate) fn square_of_sixth(s: u64) -> u64
    requires { s ≤ 2 ^ 44 }
    ensures is { result ≡ nearest_of (s * s) (2 ^ 32) }
    ensures bound { result ≤ 2 ^ 56 }
{
    wide_square_of_sixth(s as u128) as u64
}

/// The same in 128 bits.
#[inline(always)]
fn wide_square_of_sixth(s: u128) -> u128
    requires { s ≤ 2 ^ 44 }
    ensures is { result ≡ nearest_of (s * s) (2 ^ 32) }
    ensures bound { result ≤ 2 ^ 56 }
{
    nearest_shift(s * s, 32)
}

/// The force over the displacement, for a gap between the powers.
pub(crate) fn strength_size(epsilon: u64, gap: u64, r2: u128, guess: u64) -> u128
    requires epsilon { epsilon ≤ 2 ^ 32 }
    requires gap { gap ≤ 2 ^ 58 }
    requires apart { 0 < r2 }
    requires near { r2 ≤ 2 ^ 56 }
    ensures is { result ≡ nearest_of (24 * epsilon * gap * 2 ^ 24) r2 }
    ensures bound { result * r2 ≤ 2 ^ 120 }
{
    nearest_by_guess(24 * epsilon as u128 * gap as u128 * UNIT, r2 as u64, guess)
}

/// The energy, for a gap between the powers.
#[inline(always)]
pub(crate) fn energy_size(epsilon: u64, gap: u64) -> u128
    requires epsilon { epsilon ≤ 2 ^ 32 }
    requires gap { gap ≤ 2 ^ 57 }
    ensures is { result ≡ nearest_of (4 * epsilon * gap) (2 ^ 32) }
    ensures bound { result ≤ 2 ^ 59 }
{
    nearest_shift((4 * epsilon) as u128 * gap as u128, 32)
}

/// The part of a magnitude that a special weight leaves.
pub(crate) fn weighted(size: u128, weight: u64) -> u128
    requires size { size ≤ 2 ^ 100 }
    requires weight { weight ≤ 2 ^ 24 }
    ensures is { result ≡ nearest_of (size * weight) (2 ^ 24) }
    ensures bound { result ≤ size }
{
    nearest_shift(size * u128::from(weight), 24)
}
