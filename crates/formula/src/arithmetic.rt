//! The operations of formulas: exact, each result rounded once.
ghost use Rattle.std.specs.Prelude.{◌≡◌, ◌+◌, ◌*◌, ◌/◌, ◌^◌, ◌<◌, ◌≤◌, ℕ, ℤ, pos, ◌*ℤ◌, unsigned_abs, IfOk, Ok, Err, not, int_lt};
ghost use Rattle.fx_num.specs.Rounding.{div_rounded, shr_rounded};
ghost use Rattle.formula.specs.Arithmetic.{is_value, limited, truth, is_zero, multiplied, divided, remainder, power_of, powered, operation, with_sign_of, floor_of, function_value};

use crate::tree::{Function, Operator, Sign};
use fx_num::{MAX_UNITS, UNIT, rdiv, rsh, rsqrt};

/// Why an operation has no value.
#[derive(Clone, Copy, PartialEq, Eq)]
pub enum Failure {
    /// The divisor is zero.
    DivideByZero,
    /// The result is out of range, or there is none.
    OutOfRange,
}

/// The greatest exponent.
pub const MAX_EXPONENT: u64 = 64;

/// The greatest exponent as a number: a law, which does nothing when it runs.
pub fn exponent_limit_is_this_number()
    ensures { MAX_EXPONENT ≡ 64 }
{}

/// 1 in units, as a magnitude.
const ONE: u64 = 1 << 24;

/// A result where it is in range.
pub fn limited(v: i128) -> Result<i64, Failure>
    ensures is { result ≡ limited v }
    ensures bound { IfOk result (λ r. unsigned_abs r ≤ 2 ^ 62) }
{
    if v.unsigned_abs() <= 1 << 62 {
        Ok(v as i64)
    } else {
        Err(Failure::OutOfRange)
    }
}

/// 1 or 0.
fn truth(holds: bool) -> i64
    ensures is { result ≡ truth holds }
    ensures bound { unsigned_abs result ≤ 2 ^ 62 }
{
    if holds { UNIT } else { 0 }
}

/// Whether this is 0.
fn is_zero(a: i64) -> bool
    ensures { result ≡ is_zero a }
{
    a == 0
}

/// The product.
fn product(a: i64, b: i64) -> i128
    requires left { unsigned_abs a ≤ 2 ^ 62 }
    requires right { unsigned_abs b ≤ 2 ^ 62 }
    ensures is { result ≡ a *ℤ b }
    ensures bound { unsigned_abs result ≤ 2 ^ 124 }
{
    i128::from(a) * i128::from(b)
}

/// The product, rounded.
fn multiplied(a: i64, b: i64) -> Result<i64, Failure>
    requires left { unsigned_abs a ≤ 2 ^ 62 }
    requires right { unsigned_abs b ≤ 2 ^ 62 }
    ensures is { result ≡ multiplied a b }
    ensures bound { IfOk result (λ r. unsigned_abs r ≤ 2 ^ 62) }
{
    limited(rsh(product(a, b), 24))
}

/// The quotient by a number above zero, rounded.
fn quotient(a: i64, b: u64) -> Result<i64, Failure>
    requires left { unsigned_abs a ≤ 2 ^ 62 }
    requires right { b ≤ 2 ^ 62 }
    requires positive { 0 < b }
    ensures is { result ≡ limited (div_rounded (a *ℤ pos (2 ^ 24)) (pos b)) }
    ensures bound { IfOk result (λ r. unsigned_abs r ≤ 2 ^ 62) }
{
    limited(rdiv(product(a, UNIT), i128::from(b)))
}

/// The quotient, rounded.
fn divided(a: i64, b: i64) -> Result<i64, Failure>
    requires left { unsigned_abs a ≤ 2 ^ 62 }
    requires right { unsigned_abs b ≤ 2 ^ 62 }
    ensures is { result ≡ divided a b }
    ensures bound { IfOk result (λ r. unsigned_abs r ≤ 2 ^ 62) }
{
    if b == 0 {
        return Err(Failure::DivideByZero);
    }
    let dividend = if b > 0 { a } else { -a };
    quotient(dividend, b.unsigned_abs())
}

/// What is left of a by division by b, with the sign of a.
fn remainder(a: i64, b: i64) -> Result<i64, Failure>
    requires left { unsigned_abs a ≤ 2 ^ 62 }
    ensures is { result ≡ remainder a b }
    ensures bound { IfOk result (λ r. unsigned_abs r ≤ 2 ^ 62) }
{
    if b == 0 {
        Err(Failure::DivideByZero)
    } else {
        Ok(a % b)
    }
}

/// 1, multiplied n times by a, each product rounded.
fn power_of(a: i64, n: u64) -> Result<i64, Failure>
    requires { unsigned_abs a ≤ 2 ^ 62 }
    ensures is { result ≡ power_of a n }
    ensures bound { IfOk result (λ r. unsigned_abs r ≤ 2 ^ 62) }
{
    let mut product = UNIT;
    for _ in 0..n {
        match multiplied(product, a) {
            Ok(more) => product = more,
            Err(why) => return Err(why),
        }
    }
    Ok(product)
}

/// A power with a whole exponent from 0 to [`MAX_EXPONENT`].
fn powered(a: i64, exponent: i64) -> Result<i64, Failure>
    requires { unsigned_abs a ≤ 2 ^ 62 }
    ensures is { result ≡ powered a exponent }
    ensures bound { IfOk result (λ r. unsigned_abs r ≤ 2 ^ 62) }
{
    if exponent < 0 {
        return Err(Failure::OutOfRange);
    }
    let units = exponent.unsigned_abs();
    if units % ONE != 0 || units / ONE > MAX_EXPONENT {
        return Err(Failure::OutOfRange);
    }
    power_of(a, units / ONE)
}

/// An operator between two values.
pub fn operation(operator: Operator, a: i64, b: i64) -> Result<i64, Failure>
    requires left { unsigned_abs a ≤ 2 ^ 62 }
    requires right { unsigned_abs b ≤ 2 ^ 62 }
    ensures is { result ≡ operation operator a b }
    ensures bound { IfOk result (λ r. unsigned_abs r ≤ 2 ^ 62) }
{
    match operator {
        Operator::Or => Ok(truth(!is_zero(a) || !is_zero(b))),
        Operator::And => Ok(truth(!is_zero(a) && !is_zero(b))),
        Operator::Equal => Ok(truth(a == b)),
        Operator::NotEqual => Ok(truth(a != b)),
        Operator::Less => Ok(truth(a < b)),
        Operator::LessEqual => Ok(truth(a <= b)),
        Operator::Greater => Ok(truth(a > b)),
        Operator::GreaterEqual => Ok(truth(a >= b)),
        Operator::Add => limited(i128::from(a) + i128::from(b)),
        Operator::Subtract => limited(i128::from(a) - i128::from(b)),
        Operator::Multiply => multiplied(a, b),
        Operator::Divide => divided(a, b),
        Operator::Remainder => remainder(a, b),
        Operator::Power => powered(a, b),
    }
}

/// A sign before a value.
pub fn with_sign_of(sign: Sign, a: i64) -> i64
    requires { unsigned_abs a ≤ 2 ^ 62 }
    ensures is { result ≡ with_sign_of sign a }
    ensures bound { unsigned_abs result ≤ 2 ^ 62 }
{
    match sign {
        Sign::Minus => -a,
        Sign::Not => truth(is_zero(a)),
    }
}

/// The greatest whole number that is not above a magnitude.
fn whole_below(magnitude: u64) -> u64
    requires { magnitude ≤ 2 ^ 62 }
    ensures is { result ≡ magnitude / 2 ^ 24 * 2 ^ 24 }
    ensures bound { result ≤ 2 ^ 62 }
{
    magnitude / ONE * ONE
}

/// The least whole number that is above a magnitude.
fn whole_above(magnitude: u64) -> u64
    requires { magnitude < 2 ^ 62 }
    ensures is { result ≡ (magnitude / 2 ^ 24 + 1) * 2 ^ 24 }
    ensures bound { result ≤ 2 ^ 62 }
{
    (magnitude / ONE + 1) * ONE
}

/// The greatest whole number that is not above.
fn floor_of(a: i64) -> i64
    requires { unsigned_abs a ≤ 2 ^ 62 }
    ensures is { result ≡ floor_of a }
    ensures bound { unsigned_abs result ≤ 2 ^ 62 }
{
    let magnitude = a.unsigned_abs();
    if a >= 0 {
        whole_below(magnitude) as i64
    } else {
        -(whole_above(magnitude - 1) as i64)
    }
}

/// The nearest whole number of units that are 1, a tie away from zero.
fn whole_nearest(a: i64) -> i128
    requires { unsigned_abs a ≤ 2 ^ 62 }
    ensures is { result ≡ shr_rounded a 24 }
    ensures bound { unsigned_abs result ≤ 2 ^ 38 }
{
    rsh(i128::from(a), 24)
}

/// The nearest whole number, a tie away from zero.
fn round_of(a: i64) -> i64
    requires { unsigned_abs a ≤ 2 ^ 62 }
    ensures is { result ≡ shr_rounded a 24 *ℤ pos (2 ^ 24) }
    ensures bound { unsigned_abs result ≤ 2 ^ 62 }
{
    (whole_nearest(a) * i128::from(UNIT)) as i64
}

/// The square root of a number that is not negative.
fn root_of(a: i64) -> Result<i64, Failure>
    requires { unsigned_abs a ≤ 2 ^ 62 }
    ensures is { result ≡ function_value Function.Sqrt a }
    ensures bound { IfOk result (λ r. unsigned_abs r ≤ 2 ^ 62) }
{
    if a < 0 {
        return Err(Failure::OutOfRange);
    }
    Ok(rsqrt(u128::from(a.unsigned_abs()) << 24) as i64)
}

/// A function of a value.
pub fn function_value(function: Function, a: i64) -> Result<i64, Failure>
    requires { unsigned_abs a ≤ 2 ^ 62 }
    ensures is { result ≡ function_value function a }
    ensures bound { IfOk result (λ r. unsigned_abs r ≤ 2 ^ 62) }
{
    match function {
        Function::Sqrt => root_of(a),
        Function::Abs => Ok(a.abs()),
        Function::Floor => Ok(floor_of(a)),
        Function::Ceil => Ok(-floor_of(-a)),
        Function::Round => Ok(round_of(a)),
    }
}
