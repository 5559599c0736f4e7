//! Signed numbers by their sign and magnitude: differences, products and roundings.
ghost use Rattle.std.specs.Prelude.{◌≡◌, ◌+◌, ◌*◌, ◌^◌, ◌<◌, ◌≤◌, pos, ◌-ℤ◌, ◌*ℤ◌, ◌+ℤ◌, unsigned_abs};
ghost use Rattle.fx_num.specs.Rounding.{nearest_of, shr_rounded, with_sign};

use fx_num::nearest_shift;

/// The number of this magnitude, negative where asked.
#[inline(always)]
pub(crate) fn signed(negative: bool, size: u128) -> i64
    requires { size < 2 ^ 63 }
    ensures is { result ≡ with_sign negative size }
    ensures bound { unsigned_abs result ≡ size }
{
    if negative {
        -(size as i64)
    } else {
        size as i64
    }
}

/// The difference a - b, by its sign and its magnitude.
#[inline(always)]
pub(crate) fn difference(a: u64, b: u64) -> (bool, u64)
    ensures is { with_sign result.0 result.1 ≡ pos a -ℤ pos b }
    ensures bound { result.1 ≤ a + b }
{
    if a < b { (true, b - a) } else { (false, a - b) }
}

/// The product of a signed number and x over 2^32, rounded.
#[inline(always)]
pub(crate) fn product(negative: bool, size: u128, x: i64) -> i64
    requires fits { size * unsigned_abs x < 2 ^ 126 }
    requires small { nearest_of (size * unsigned_abs x) (2 ^ 32) ≤ 2 ^ 42 }
    ensures is { result ≡ shr_rounded (with_sign negative size *ℤ x) 32 }
    ensures bound { unsigned_abs result ≤ 2 ^ 42 }
{
    signed(
        negative != x.is_negative(),
        product_size(size, x.unsigned_abs()),
    )
}

/// The product of two magnitudes over 2^32, rounded.
#[inline(always)]
pub(crate) fn product_size(size: u128, a: u64) -> u128
    requires { size * a < 2 ^ 126 }
    ensures { result ≡ nearest_of (size * a) (2 ^ 32) }
{
    nearest_shift(size * u128::from(a), 32)
}

/// The product of a length and a component of a force.
#[inline(always)]
fn work_along(x: i64, f: i64) -> i128
    requires x { unsigned_abs x < 2 ^ 28 }
    requires f { unsigned_abs f ≤ 2 ^ 42 }
    ensures is { result ≡ x *ℤ f }
    ensures bound { unsigned_abs result ≤ 2 ^ 70 }
{
    i128::from(x) * i128::from(f)
}

/// The product of the displacement (x, y, z) and the force (f, g, h).
#[inline(always)]
pub(crate) fn work(x: i64, y: i64, z: i64, f: i64, g: i64, h: i64) -> i128
    requires x { unsigned_abs x < 2 ^ 28 }
    requires y { unsigned_abs y < 2 ^ 28 }
    requires z { unsigned_abs z < 2 ^ 28 }
    requires f { unsigned_abs f ≤ 2 ^ 42 }
    requires g { unsigned_abs g ≤ 2 ^ 42 }
    requires h { unsigned_abs h ≤ 2 ^ 42 }
    ensures is { result ≡ (x *ℤ f +ℤ y *ℤ g +ℤ z *ℤ h) }
    ensures bound { unsigned_abs result ≤ 3 * 2 ^ 70 }
{
    work_along(x, f) + work_along(y, g) + work_along(z, h)
}
