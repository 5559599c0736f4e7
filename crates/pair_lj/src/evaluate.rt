//! The pair term at a displacement, in two halves: a guess of its quotients, and the term with the guess checked.
ghost use Rattle.std.specs.Prelude.{◌≡◌, ◌+◌, ◌*◌, ◌^◌, ◌<◌, ◌≤◌, ℕ, [], ◌∷◌, pos, unsigned_abs, Ok, None, IfOk, IfSome, IfNone};
ghost use Rattle.box_geo.specs.Sides.{length2};
ghost use Rattle.box_geo.specs.Terms.{IsDisplacement};
ghost use Rattle.pair_lj.specs.PairTerm.{pair_term, HasModerateForce, HasModerateEnergy, HasModerateVirial};

use crate::close::Close;
use crate::coefficients::Coefficients;
use crate::guess::Guess;
use crate::plain::plain_term;
use crate::quick::quick_term;
use box_geo::Term;
use box_geo::limits::{FULL_WEIGHT, MAX_CUTOFF};
use fx_num::V3;

/// The term of atoms i and j at the displacement d from j to i, with a special weight in units.
#[inline(always)]
pub(crate) fn evaluate(k: Coefficients, d: V3, weight: u64) -> Result<Option<Term>, Close>
    requires d { IsDisplacement d }
    requires weight { weight ≤ 2 ^ 24 }
    ensures is { result ≡ pair_term k.epsilon k.sigma k.cutoff (pos 0) weight d }
    ensures bounded { IfOk result (λ o. IfSome o HasModerateForce) }
    ensures energy { IfOk result (λ o. IfSome o HasModerateEnergy) }
    ensures virial { IfOk result (λ o. IfSome o HasModerateVirial) }
{
    match guess_for(k, d) {
        Some(guess) => evaluate_with(k, d, weight, guess),
        None => Ok(None),
    }
}

/// A guess for the term: `None` at the cutoff and beyond, where there is no term.
#[inline(always)]
pub(crate) fn guess_for(k: Coefficients, d: V3) -> Option<Guess>
    requires d { IsDisplacement d }
    ensures near { IfSome result (λ g. length2 d < k.cutoff * k.cutoff) }
    ensures far { IfNone result (k.cutoff * k.cutoff ≤ length2 d) }
    ensures none { IfNone result ((weight : ℕ) → Ok None ≡ pair_term k.epsilon k.sigma k.cutoff (pos 0) weight d) }
{
    match near_distance2(
        k,
        d[0].unsigned_abs(),
        d[1].unsigned_abs(),
        d[2].unsigned_abs(),
    ) {
        Some(r2) => Some(Guess::new(k, r2)),
        None => None,
    }
}

/// The term, whatever was guessed.
#[inline(always)]
pub(crate) fn evaluate_with(
    k: Coefficients,
    d: V3,
    weight: u64,
    guess: Guess,
) -> Result<Option<Term>, Close>
    requires d { IsDisplacement d }
    requires weight { weight ≤ 2 ^ 24 }
    ensures is { result ≡ pair_term k.epsilon k.sigma k.cutoff (pos 0) weight d }
    ensures bounded { IfOk result (λ o. IfSome o HasModerateForce) }
    ensures energy { IfOk result (λ o. IfSome o HasModerateEnergy) }
    ensures virial { IfOk result (λ o. IfSome o HasModerateVirial) }
{
    evaluate_at(k, d[0], d[1], d[2], weight, guess)
}

/// The term at the displacement (x, y, z), whatever was guessed.
#[inline(always)]
fn evaluate_at(
    k: Coefficients,
    x: i64,
    y: i64,
    z: i64,
    weight: u64,
    guess: Guess,
) -> Result<Option<Term>, Close>
    requires x { unsigned_abs x < 2 ^ 34 }
    requires y { unsigned_abs y < 2 ^ 34 }
    requires z { unsigned_abs z < 2 ^ 34 }
    requires weight { weight ≤ 2 ^ 24 }
    ensures is { result ≡ pair_term k.epsilon k.sigma k.cutoff (pos 0) weight (x ∷ y ∷ z ∷ []) }
    ensures bounded { IfOk result (λ o. IfSome o HasModerateForce) }
    ensures energy { IfOk result (λ o. IfSome o HasModerateEnergy) }
    ensures virial { IfOk result (λ o. IfSome o HasModerateVirial) }
{
    let Some(r2) = near_distance2(k, x.unsigned_abs(), y.unsigned_abs(), z.unsigned_abs()) else {
        return Ok(None);
    };
    if weight == FULL_WEIGHT as u64 {
        if let Some(term) = quick_term(k, x, y, z, r2, guess) {
            return Ok(Some(term));
        }
    }
    plain_term(k, x, y, z, weight, guess)
}

/// The square of the distance, from the magnitudes of the components, where it is below that of the cutoff.
#[tactic(auto, using(crate::proofs::QuickLemmas::far_along))]
#[inline(always)]
fn near_distance2(k: Coefficients, a: u64, b: u64, c: u64) -> Option<u64>
    ensures far { IfNone result (k.cutoff * k.cutoff ≤ a * a + b * b + c * c) }
    ensures is { IfSome result (λ r2. r2 ≡ a * a + b * b + c * c) }
    ensures near { IfSome result (λ r2. r2 < k.cutoff * k.cutoff) }
    ensures a { IfSome result (λ r2. a < 2 ^ 28) }
    ensures b { IfSome result (λ r2. b < 2 ^ 28) }
    ensures c { IfSome result (λ r2. c < 2 ^ 28) }
{
    let most = MAX_CUTOFF as u64;
    if a >= most || b >= most || c >= most {
        return None;
    }
    let r2 = square(a) + square(b) + square(c);
    if r2 < k.cutoff2 { Some(r2) } else { None }
}

/// The square of a component within the greatest cutoff.
#[inline(always)]
fn square(a: u64) -> u64
    requires { a < 2 ^ 28 }
    ensures is { result ≡ a * a }
    ensures bound { result < 2 ^ 56 }
{
    a * a
}
