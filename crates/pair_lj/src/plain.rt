//! The plain way to a term: any weight, any size, and a division wherever a guess is wrong.
ghost use Rattle.std.specs.Prelude.{◌≡◌, ◌+◌, ◌*◌, ◌^◌, ◌<◌, ◌≤◌, ◌⊎◌, [], ◌∷◌, pos, ◌-ℤ◌, ◌*ℤ◌, unsigned_abs, IfOk, IfSome, MatchBool};
ghost use Rattle.fx_num.specs.Rounding.{nearest_of, div_rounded, shr_rounded, with_sign};
ghost use Rattle.pair_lj.specs.PairTerm.{pair_term, HasModerateForce, HasModerateEnergy, HasModerateVirial};

use crate::close::Close;
use crate::coefficients::Coefficients;
use crate::force::term;
use crate::guess::Guess;
use crate::magnitudes::{
    cube, distance2, energy_size, square, square_of_sixth, square_ratio, strength_size, weighted,
};
use crate::signs::{difference, product_size, signed};
use box_geo::Term;
use box_geo::limits::MAX_TERM_FORCE;

/// The greatest square of sigma over the distance, 16 in units of 2^-32.
const MAX_SQUARE_RATIO: u128 = 1 << 36;

/// The term at the displacement (x, y, z), by the plain way. It takes what was guessed where that is right, and divides
/// where it is not.
// The answer is taken apart and put together again, so that a caller that this is inlined into keeps it in registers.
#[inline(always)]
pub(crate) fn plain_term(
    k: Coefficients,
    x: i64,
    y: i64,
    z: i64,
    weight: u64,
    guess: Guess,
) -> Result<Option<Term>, Close>
    requires x { unsigned_abs x < 2 ^ 34 }
    requires y { unsigned_abs y < 2 ^ 34 }
    requires z { unsigned_abs z < 2 ^ 34 }
    requires weight { weight ≤ 2 ^ 24 }
    ensures is { result ≡ pair_term k.epsilon k.sigma k.cutoff (pos 0) weight (x ∷ y ∷ z ∷ []) }
    ensures bounded { IfOk result (λ o. IfSome o HasModerateForce) }
    ensures energy { IfOk result (λ o. IfSome o HasModerateEnergy) }
    ensures virial { IfOk result (λ o. IfSome o HasModerateVirial) }
{
    match evaluate_plainly(
        k.epsilon,
        k.sigma,
        k.cutoff,
        x,
        y,
        z,
        weight,
        guess.ratio,
        guess.strength,
    ) {
        Ok(Some(term)) => {
            let f = term.f;
            Ok(Some(Term { f, ..term }))
        }
        Ok(None) => Ok(None),
        Err(_) => Err(Close),
    }
}

/// The same by the numbers that it takes.
#[cold]
#[inline(never)]
fn evaluate_plainly(
    epsilon: u64,
    sigma: u64,
    cutoff: u64,
    x: i64,
    y: i64,
    z: i64,
    weight: u64,
    ratio_guess: u64,
    strength_guess: u64,
) -> Result<Option<Term>, Close>
    requires epsilon { epsilon ≤ 2 ^ 32 }
    requires sigma { sigma ≤ 2 ^ 27 }
    requires cutoff { cutoff ≤ 2 ^ 28 }
    requires x { unsigned_abs x < 2 ^ 34 }
    requires y { unsigned_abs y < 2 ^ 34 }
    requires z { unsigned_abs z < 2 ^ 34 }
    requires weight { weight ≤ 2 ^ 24 }
    ensures is { result ≡ pair_term epsilon sigma cutoff (pos 0) weight (x ∷ y ∷ z ∷ []) }
    ensures bounded { IfOk result (λ o. IfSome o HasModerateForce) }
    ensures energy { IfOk result (λ o. IfSome o HasModerateEnergy) }
    ensures virial { IfOk result (λ o. IfSome o HasModerateVirial) }
{
    let (a, b, c) = (x.unsigned_abs(), y.unsigned_abs(), z.unsigned_abs());
    let r2 = distance2(a, b, c);
    if square(cutoff) <= r2 {
        return Ok(None);
    }
    if r2 == 0 {
        return Err(Close);
    }
    let w = square_ratio(sigma, r2, ratio_guess);
    if w > MAX_SQUARE_RATIO {
        return Err(Close);
    }
    let s6 = cube(w as u64);
    let s12 = square_of_sixth(s6);
    let (negative, size) = strength(epsilon, s6, s12, r2, strength_guess);
    if is_too_strong(size, a, b, c) {
        return Err(Close);
    }
    let energy = energy(epsilon, s6, s12, weight);
    Ok(Some(term(negative, weighted(size, weight), energy, x, y, z)))
}

/// The force over the displacement, by its sign and its magnitude.
fn strength(epsilon: u64, s6: u64, s12: u64, r2: u128, guess: u64) -> (bool, u128)
    requires epsilon { epsilon ≤ 2 ^ 32 }
    requires s6 { s6 ≤ 2 ^ 44 }
    requires s12 { s12 ≤ 2 ^ 56 }
    requires apart { 0 < r2 }
    requires near { r2 ≤ 2 ^ 56 }
    ensures is { with_sign result.0 result.1 ≡ div_rounded (pos (24 * epsilon) *ℤ (pos (2 * s12) -ℤ pos s6) *ℤ pos (2 ^ 24)) (pos r2) }
    ensures bound { result.1 * r2 ≤ 2 ^ 120 }
{
    let (negative, gap) = difference(2 * s12, s6);
    (negative, strength_size(epsilon, gap, r2, guess))
}

/// The energy with its weight.
fn energy(epsilon: u64, s6: u64, s12: u64, weight: u64) -> i64
    requires epsilon { epsilon ≤ 2 ^ 32 }
    requires s6 { s6 ≤ 2 ^ 44 }
    requires s12 { s12 ≤ 2 ^ 56 }
    requires weight { weight ≤ 2 ^ 24 }
    ensures is { result ≡ shr_rounded (shr_rounded (pos (4 * epsilon) *ℤ (pos s12 -ℤ pos s6)) 32 *ℤ pos weight) 24 }
    ensures bound { unsigned_abs result ≤ 2 ^ 59 }
{
    let (negative, gap) = difference(s12, s6);
    signed(negative, weighted(energy_size(epsilon, gap), weight))
}

/// Whether a component of the force is of too great a magnitude, by those of the displacement.
fn is_too_strong(size: u128, a: u64, b: u64, c: u64) -> bool
    requires a { size * a < 2 ^ 126 }
    requires b { size * b < 2 ^ 126 }
    requires c { size * c < 2 ^ 126 }
    ensures { MatchBool result
        ((2 ^ 42 < nearest_of (size * a) (2 ^ 32))
        ⊎ ((2 ^ 42 < nearest_of (size * b) (2 ^ 32)) ⊎ (2 ^ 42 < nearest_of (size * c) (2 ^ 32))))
        ((nearest_of (size * a) (2 ^ 32) ≤ 2 ^ 42)
        × (nearest_of (size * b) (2 ^ 32) ≤ 2 ^ 42)
        × (nearest_of (size * c) (2 ^ 32) ≤ 2 ^ 42)) }
{
    let limit = MAX_TERM_FORCE as u128;
    product_size(size, a) > limit || product_size(size, b) > limit || product_size(size, c) > limit
}
