//! The quick way to a term of the whole weight, where what was guessed is right. It needs no division.
ghost use Rattle.std.specs.Prelude.{◌≡◌, ◌+◌, ◌*◌, ◌^◌, ◌<◌, ◌≤◌, [], ◌∷◌, pos, ◌-ℤ◌, ◌*ℤ◌, unsigned_abs, IsTrue, Ok, Some, IfSome};
ghost use Rattle.fx_num.specs.Rounding.{nearest_of, div_rounded, shr_rounded, with_sign};
ghost use Rattle.box_geo.specs.Sides.{length2};
ghost use Rattle.pair_lj.specs.PairTerm.{pair_term, HasModerateForce, HasModerateEnergy, HasModerateVirial};

use crate::coefficients::Coefficients;
use crate::force::term;
use crate::guess::Guess;
use crate::magnitudes::energy_size;
use crate::signs::{difference, product_size, signed};
use box_geo::Term;
use box_geo::limits::MAX_TERM_FORCE;
use fx_num::is_nearest;

/// The term of the whole weight at the displacement (x, y, z). `None` is no answer: the guess is wrong, or a number is
/// too great for this way.
#[inline(always)]
pub(crate) fn quick_term(
    k: Coefficients,
    x: i64,
    y: i64,
    z: i64,
    r2: u64,
    guess: Guess,
) -> Option<Term>
    requires r2 { r2 ≡ length2 (x ∷ y ∷ z ∷ []) }
    requires near { r2 < k.cutoff * k.cutoff }
    requires x { unsigned_abs x < 2 ^ 28 }
    requires y { unsigned_abs y < 2 ^ 28 }
    requires z { unsigned_abs z < 2 ^ 28 }
    ensures is { IfSome result (λ t. Ok (Some t) ≡ pair_term k.epsilon k.sigma k.cutoff (pos 0) (2 ^ 24) (x ∷ y ∷ z ∷ [])) }
    ensures bounded { IfSome result HasModerateForce }
    ensures energy { IfSome result HasModerateEnergy }
    ensures virial { IfSome result HasModerateVirial }
{
    if !is_ratio(k, r2, guess.ratio) {
        return None;
    }
    let (negative, gap) = difference(2 * guess.twelfth, guess.sixth);
    if !is_strength(k, r2, gap, guess.strength) {
        return None;
    }
    if !is_mild(
        guess.strength,
        x.unsigned_abs(),
        y.unsigned_abs(),
        z.unsigned_abs(),
    ) {
        return None;
    }
    let energy = whole_energy(k.epsilon, guess.sixth, guess.twelfth);
    Some(term(negative, guess.strength as u128, energy, x, y, z))
}

/// Whether w is the square of sigma over the distance.
#[tactic(auto, using(crate::proofs::QuickLemmas::ratio_is))]
#[inline(always)]
fn is_ratio(k: Coefficients, r2: u64, w: u64) -> bool
    requires { r2 < 2 ^ 56 }
    ensures apart { IsTrue result → 0 < r2 }
    ensures is { IsTrue result → w ≡ nearest_of (k.sigma * k.sigma * 2 ^ 32) r2 }
{
    is_nearest(k.sigma2 as u128 * (1 << 32), r2, w)
}

/// Whether this is the magnitude of the force over the displacement, for a gap between the powers.
#[tactic(auto, using(crate::proofs::QuickLemmas::strength_is_right))]
#[inline(always)]
fn is_strength(k: Coefficients, r2: u64, gap: u64, size: u64) -> bool
    requires r2 { r2 < 2 ^ 56 }
    requires gap { gap ≤ 2 ^ 58 }
    ensures { IsTrue result → size ≡ nearest_of (24 * k.epsilon * gap * 2 ^ 24) r2 }
{
    is_nearest(k.push as u128 * gap as u128, r2, size)
}

/// Whether the magnitudes of a force's components add up to at most that of a term.
#[inline(always)]
fn is_mild(size: u64, a: u64, b: u64, c: u64) -> bool
    requires size { size < 2 ^ 52 }
    requires a { a < 2 ^ 28 }
    requires b { b < 2 ^ 28 }
    requires c { c < 2 ^ 28 }
    ensures { IsTrue result → (nearest_of (size * a) (2 ^ 32) ≤ 2 ^ 42)
        × (nearest_of (size * b) (2 ^ 32) ≤ 2 ^ 42)
        × (nearest_of (size * c) (2 ^ 32) ≤ 2 ^ 42) }
{
    small_product(size, a) + small_product(size, b) + small_product(size, c)
        <= MAX_TERM_FORCE as u64
}

/// The product of two small magnitudes over 2^32, rounded.
#[inline(always)]
fn small_product(size: u64, a: u64) -> u64
    requires size { size < 2 ^ 52 }
    requires a { a < 2 ^ 28 }
    ensures is { result ≡ nearest_of (size * a) (2 ^ 32) }
    ensures bound { result ≤ 2 ^ 48 }
{
    wide_product(size, a) as u64
}

/// The same in 128 bits.
#[tactic(auto, using(crate::proofs::Sizes::product_small))]
#[inline(always)]
fn wide_product(size: u64, a: u64) -> u128
    requires size { size < 2 ^ 52 }
    requires a { a < 2 ^ 28 }
    ensures is { result ≡ nearest_of (size * a) (2 ^ 32) }
    ensures bound { result ≤ 2 ^ 48 }
{
    product_size(size as u128, a)
}

/// The energy of the whole weight.
#[inline(always)]
fn whole_energy(epsilon: u64, s6: u64, s12: u64) -> i64
    requires epsilon { epsilon ≤ 2 ^ 32 }
    requires s6 { s6 ≤ 2 ^ 44 }
    requires s12 { s12 ≤ 2 ^ 56 }
    ensures is { result ≡ shr_rounded (pos (4 * epsilon) *ℤ (pos s12 -ℤ pos s6)) 32 }
    ensures bound { unsigned_abs result ≤ 2 ^ 59 }
{
    let (negative, gap) = difference(s12, s6);
    signed(negative, energy_size(epsilon, gap))
}
