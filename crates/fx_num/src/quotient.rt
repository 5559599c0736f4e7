//! Rounded quotients by a guess that is checked. Nothing is known or assumed of a guess, which may come from floating
//! point: the check decides, and where it fails the division is made.
ghost use Rattle.std.specs.Prelude.{◌≡◌, ◌*◌, ◌^◌, ◌<◌, ◌≤◌, ◌↔◌, IsTrue};
ghost use Rattle.fx_num.specs.Rounding.{nearest_of, RoundsTo};

use crate::rounding::nearest;
use std::num::nearest_u64_to_f64;

/// Whether q is the whole number nearest to a/b, a tie upwards, for magnitudes. No q is that where b is 0.
#[tactic(auto, using(crate::proofs::GuessLemmas::check_rounds, crate::proofs::GuessLemmas::rounds_check))]
#[inline(always)]
pub fn is_nearest(a: u128, b: u64, q: u64) -> bool
    requires dividend { a < 2 ^ 126 }
    requires divisor { b ≤ 2 ^ 62 }
    ensures { IsTrue result ↔ RoundsTo a b q }
{
    let high = 2 * a + u128::from(b);
    let low = u128::from(q) * u128::from(2 * b);
    high.wrapping_sub(low) < u128::from(2 * b)
}

/// The whole number nearest to a/b, a tie upwards, for magnitudes: the guess, where it is that, and else by a division.
/// What is guessed changes the time alone.
#[tactic(auto, using(crate::proofs::RoundingLemmas::rounded_is))]
#[inline(always)]
pub fn nearest_by_guess(a: u128, b: u64, guess: u64) -> u128
    requires dividend { a < 2 ^ 126 }
    requires positive { 0 < b }
    requires divisor { b ≤ 2 ^ 62 }
    ensures is { result ≡ nearest_of a b }
    ensures rounds { RoundsTo a b result }
    ensures bound { result ≤ a }
{
    if is_nearest(a, b, guess) {
        return u128::from(guess);
    }
    nearest_by_division(a, b)
}

/// The same by a division of 128 bits.
#[cold]
#[inline(never)]
fn nearest_by_division(a: u128, b: u64) -> u128
    requires dividend { a < 2 ^ 126 }
    requires positive { 0 < b }
    ensures is { result ≡ nearest_of a b }
    ensures rounds { RoundsTo a b result }
    ensures bound { result ≤ a }
{
    nearest(a, u128::from(b))
}

/// The floating-point number nearest to n, for a guess.
#[inline(always)]
pub fn guess_float(n: u64) -> f64 {
    if n < 1 << 53 {
        n as f64
    } else {
        nearest_u64_to_f64(n)
    }
}

/// A whole number near to x, for a guess, where x is from 0 up to 2^52. For any other x it is some number.
#[inline(always)]
pub fn guess_whole(x: f64) -> u64
    ensures { result < 2 ^ 52 }
{
    let shifted = x + 4503599627370496.0; // 2^52, from which on neighbours are 1 apart
    if shifted < 9007199254740992.0 {
        shifted.to_bits() & 0xf_ffff_ffff_ffff
    } else {
        0
    }
}
