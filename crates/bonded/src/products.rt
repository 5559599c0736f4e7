//! Products of signed numbers, each with its magnitude.
ghost use Rattle.std.specs.Prelude.{◌≡◌, ◌*◌, ◌^◌, ◌<◌, ◌≤◌, ◌*ℤ◌, unsigned_abs};
ghost use Rattle.box_geo.specs.Sides.{IsWithin};
ghost use Rattle.box_geo.specs.Terms.{IsModerate, dot};

use fx_num::V3;

/// The product of two numbers.
pub(crate) fn product(a: i128, b: i128) -> i128
    requires { unsigned_abs a * unsigned_abs b < 2 ^ 126 }
    ensures is { result ≡ a *ℤ b }
    ensures size { unsigned_abs result ≡ unsigned_abs a * unsigned_abs b }
{
    a * b
}

/// The product of a length and a component of a displacement or a force.
fn product_along(x: i64, f: i64) -> i128
    requires x { unsigned_abs x ≤ 2 ^ 28 }
    requires f { unsigned_abs f ≤ 2 ^ 42 }
    ensures is { result ≡ x *ℤ f }
    ensures bound { unsigned_abs result ≤ 2 ^ 70 }
{
    i128::from(x) * i128::from(f)
}

/// The product of a displacement and another, or a force.
pub(crate) fn dot(d: &V3, f: &V3) -> i128
    requires d { IsWithin (2 ^ 28) d.now }
    requires f { IsModerate f.now }
    ensures is { result ≡ dot d.now f.now }
    ensures bound { unsigned_abs result ≤ 3 * 2 ^ 70 }
{
    product_along(d[0], f[0]) + product_along(d[1], f[1]) + product_along(d[2], f[2])
}
