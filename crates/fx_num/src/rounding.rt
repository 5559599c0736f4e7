//! Rounding to the nearest whole number, ties away from zero.
ghost use Rattle.std.specs.Prelude.{◌≡◌, ◌*◌, ◌^◌, ◌<◌, ◌≤◌, pos, neg_ℤ, ℤ, ◌<ℤ◌, unsigned_abs};
ghost use Rattle.fx_num.specs.Rounding.{nearest_of, div_rounded, shr_rounded, with_sign, RoundsTo, IsNearest};

/// The whole number nearest to a/b, a tie upwards, for magnitudes.
pub fn nearest(a: u128, b: u128) -> u128
    requires dividend { a < 2 ^ 126 }
    requires positive { 0 < b }
    requires divisor { b < 2 ^ 126 }
    ensures is { result ≡ nearest_of a b }
    ensures rounds { RoundsTo a b result }
    ensures bound { result ≤ a }
{
    (2 * a + b) / (2 * b)
}

/// The whole number nearest to a/2^k, a tie upwards, for magnitudes: a shift with its correction.
pub fn nearest_shift(a: u128, k: u32) -> u128
    requires dividend { a < 2 ^ 126 }
    requires places { k ≤ 100 }
    ensures is { result ≡ nearest_of a (2 ^ k) }
    ensures bound { result ≤ a }
{
    if k == 0 {
        return a;
    }
    let half = 1 << (k - 1);
    (a + half) >> k
}

/// The whole number nearest to a/b, a tie away from zero.
pub fn rdiv(a: i128, b: i128) -> i128
    requires dividend { unsigned_abs a < 2 ^ 126 }
    requires positive { pos 0 <ℤ b }
    requires divisor { unsigned_abs b < 2 ^ 126 }
    ensures is { result ≡ div_rounded a b }
    ensures nearest { IsNearest a b result }
    ensures bound { unsigned_abs result ≤ unsigned_abs a }
{
    signed(a.is_negative(), nearest(a.unsigned_abs(), b.unsigned_abs()))
}

/// The whole number nearest to a/2^k, a tie away from zero.
pub fn rsh(a: i128, k: u32) -> i128
    requires dividend { unsigned_abs a < 2 ^ 126 }
    requires places { k ≤ 100 }
    ensures is { result ≡ shr_rounded a k }
    ensures nearest { IsNearest a (pos (2 ^ k)) result }
    ensures bound { unsigned_abs result ≤ unsigned_abs a }
{
    signed(a.is_negative(), nearest_shift(a.unsigned_abs(), k))
}

/// The number of this magnitude, negative where asked.
fn signed(negative: bool, magnitude: u128) -> i128
    requires { magnitude < 2 ^ 126 }
    ensures is { result ≡ with_sign negative magnitude }
    ensures bound { unsigned_abs result ≡ magnitude }
{
    if negative {
        -(magnitude as i128)
    } else {
        magnitude as i128
    }
}

/// Rounding exists and is the one number with its inequality, also at a tie.
pub fn rounding_is_the_nearest()
    ensures exists { (a b : ℤ) → pos 0 <ℤ b → IsNearest a b (div_rounded a b) }
    ensures unique { (a b q : ℤ) → pos 0 <ℤ b → IsNearest a b q → q ≡ div_rounded a b }
{}

/// Rounding is odd.
pub fn rounding_is_odd()
    ensures { (a b : ℤ) → div_rounded (neg_ℤ a) b ≡ neg_ℤ (div_rounded a b) }
{}
