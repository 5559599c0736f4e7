//! Sums and differences of vectors, modulo 2^64.
ghost use Rattle.std.specs.Prelude.{◌≡◌, ◌+ℤ◌, ◌-ℤ◌};
ghost use Rattle.pair_forces.specs.Adds.{FitsWord, FitWords, in_word, minus, plus};

use fx_num::V3;

/// The sum of two vectors.
#[inline(always)]
pub(crate) fn plus(a: &V3, b: &V3) -> V3
    requires a { FitWords a.now }
    requires b { FitWords b.now }
    ensures is { result ≡ plus a.now b.now }
    ensures fits { FitWords result }
{
    [
        sum_along(&a[0], &b[0]),
        sum_along(&a[1], &b[1]),
        sum_along(&a[2], &b[2]),
    ]
}

/// The difference of two vectors.
#[inline(always)]
pub(crate) fn minus(a: &V3, b: &V3) -> V3
    requires a { FitWords a.now }
    requires b { FitWords b.now }
    ensures is { result ≡ minus a.now b.now }
    ensures fits { FitWords result }
{
    [
        difference_along(&a[0], &b[0]),
        difference_along(&a[1], &b[1]),
        difference_along(&a[2], &b[2]),
    ]
}

/// The sum along an axis.
#[tactic(auto, using(crate::proofs::WordLemmas::sum_is, crate::proofs::WordLemmas::fits))]
#[inline(always)]
fn sum_along(a: &i64, b: &i64) -> i64
    requires a { FitsWord a.now }
    requires b { FitsWord b.now }
    ensures is { result ≡ in_word (a.now +ℤ b.now) }
    ensures fits { FitsWord result }
{
    a.wrapping_add(*b)
}

/// The difference along an axis.
#[tactic(auto, using(crate::proofs::WordLemmas::difference_is, crate::proofs::WordLemmas::fits))]
#[inline(always)]
fn difference_along(a: &i64, b: &i64) -> i64
    requires a { FitsWord a.now }
    requires b { FitsWord b.now }
    ensures is { result ≡ in_word (a.now -ℤ b.now) }
    ensures fits { FitsWord result }
{
    a.wrapping_sub(*b)
}
