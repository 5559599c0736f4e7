//! The value of a formula.
ghost use Rattle.std.specs.Prelude.{◌≡◌, ◌^◌, ◌≤◌, ℕ, pos, unsigned_abs, IfOk, MatchResult, Ok, Err};
ghost use Rattle.formula.specs.Value.{Outcome, fault_at, value_at, literal_value, operand_value, operated, value, value_of, HasValue};

use crate::arithmetic::{Failure, function_value, limited, operation, with_sign_of};
use crate::tree::{Expr, Operator};
use box_geo::limits::MAX_FORMULA_DEPTH;

/// Why a formula has no value: the first fault, the operands from left to right.
#[derive(Clone, Copy, PartialEq, Eq)]
pub enum EvalFault {
    /// The operator here divides by zero.
    DivideByZero(u32),
    /// The value of what stands here is out of range.
    Range(u32),
    /// More levels are open than there may be.
    TooDeep,
    /// There is no value for an operand.
    Operand,
}

impl Failure {
    /// The fault of an operation at this place.
    fn at(self, place: u32) -> EvalFault
        ensures { result ≡ fault_at place self }
    {
        match self {
            Failure::DivideByZero => EvalFault::DivideByZero(place),
            Failure::OutOfRange => EvalFault::Range(place),
        }
    }
}

/// The value of what stands at a place, with the operands that are left.
fn value_at<'a>(
    place: u32,
    values: &'a [i128],
    outcome: Result<i64, Failure>,
) -> Result<(i64, &'a [i128]), EvalFault>
    requires { IfOk outcome (λ v. unsigned_abs v ≤ 2 ^ 62) }
    ensures is { HasValue result (value_at place values.now outcome) }
    ensures bound { IfOk result (λ r. unsigned_abs r.0 ≤ 2 ^ 62) }
{
    match outcome {
        Ok(v) => Ok((v, values)),
        Err(why) => Err(why.at(place)),
    }
}

/// The value of a number that is written.
fn literal_value<'a>(
    place: u32,
    units: Option<i64>,
    values: &'a [i128],
) -> Result<(i64, &'a [i128]), EvalFault>
    ensures is { HasValue result (literal_value place units values.now) }
    ensures bound { IfOk result (λ r. unsigned_abs r.0 ≤ 2 ^ 62) }
{
    match units {
        Some(v) => value_at(place, values, limited(i128::from(v))),
        None => Err(EvalFault::Range(place)),
    }
}

/// The value of the next operand.
fn operand_value(place: u32, values: &[i128]) -> Result<(i64, &[i128]), EvalFault>
    ensures is { HasValue result (operand_value place values.now) }
    ensures bound { IfOk result (λ r. unsigned_abs r.0 ≤ 2 ^ 62) }
{
    match values {
        [] => Err(EvalFault::Operand),
        [v, rest @ ..] => value_at(place, rest, limited(*v)),
    }
}

/// An operator between a value and what its right side gives, whose fault comes first, also for `&&` and `||`.
fn combined<'a>(
    place: u32,
    operator: Operator,
    left: i64,
    right: Result<(i64, &'a [i128]), EvalFault>,
) -> Result<(i64, &'a [i128]), EvalFault>
    requires left { unsigned_abs left ≤ 2 ^ 62 }
    requires right { IfOk right (λ r. unsigned_abs r.0 ≤ 2 ^ 62) }
    ensures is { (meant : Outcome) → HasValue right.entry meant → HasValue result (operated place operator left meant) }
    ensures bound { IfOk result (λ r. unsigned_abs r.0 ≤ 2 ^ 62) }
{
    match right {
        Ok((b, rest)) => value_at(place, rest, operation(operator, left, b)),
        Err(fault) => Err(fault),
    }
}

/// The value of a formula at a depth, with the operands that are left.
fn value<'a>(tree: &Expr, depth: u32, values: &'a [i128]) -> Result<(i64, &'a [i128]), EvalFault>
    ensures is { HasValue result (value tree.now depth values.now) }
    ensures bound { IfOk result (λ r. unsigned_abs r.0 ≤ 2 ^ 62) }
{
    match tree {
        Expr::Number(place, units) => literal_value(*place, *units, values),
        Expr::Named(place, _) => operand_value(*place, values),
        Expr::Group(inner) => {
            if depth >= MAX_FORMULA_DEPTH {
                return Err(EvalFault::TooDeep);
            }
            value(inner.get(), depth + 1, values)
        }
        Expr::Call(place, function, inner) => {
            if depth >= MAX_FORMULA_DEPTH {
                return Err(EvalFault::TooDeep);
            }
            let (a, rest) = value(inner.get(), depth + 1, values)?;
            value_at(*place, rest, function_value(*function, a))
        }
        Expr::Signed(sign, inner) => {
            let (a, rest) = value(inner.get(), depth, values)?;
            Ok((with_sign_of(*sign, a), rest))
        }
        Expr::Binary(place, operator, left, right) => {
            let (a, rest) = value(left.get(), depth, values)?;
            combined(*place, *operator, a, value(right.get(), depth, rest))
        }
    }
}

/// The value of a formula that begins at a depth, in units; `values` has those of its operands from
/// left to right. It takes no memory.
///
/// # Errors
/// The first fault, operands from left to right: both sides of every operator are evaluated.
pub fn eval(expr: &Expr, values: &[i128], depth: u32) -> Result<i64, EvalFault>
    ensures is { result ≡ value_of expr.now values.now depth }
    ensures bound { IfOk result (λ v. unsigned_abs v ≤ 2 ^ 62) }
{
    let (v, _) = value(expr, depth, values)?;
    Ok(v)
}
