//! The texts that numbers are read from.
ghost use Rattle.std.specs.Prelude.{◌≡◌, ◌↔◌, ◌+◌, ◌*◌, ◌^◌, ◌<◌, ◌≤◌, ◌==◌, ◌&&◌, ℤ, Some, Err, List, ℕ, length, nat_lt, nat_le, unsigned_abs, IfOk, SomeIff, IsTrue};
ghost use Rattle.std.specs.Bool.{OnTrue};
ghost use Rattle.std.specs.Char.{is_ascii_digit};
ghost use Rattle.std.specs.List.{prefix_len, list_all};
ghost use Rattle.std.specs.Str.Parse.{digits_value, digits_value_after};
ghost use Rattle.fx_num.specs.Rounding.{nearest_of, with_sign};
ghost use Rattle.fx_num.specs.declared.decimal.NumError.TheVariants.{NotNumber};
ghost use Rattle.fx_num.specs.Decimal.{Decimal, IsDecimalText, read_number, read_count, decimal_of, decimal_units, exponent_of, significant, digits_of, leading_digits, after_digits, has_minus, after_sign, fraction_digits, after_fraction, is_exponent_digits, above_zero, below_zero};

use crate::UNIT;
use crate::rounding::nearest;
use std::marker::Model;
use thiserror::Error;

/// Why a text is no number. The causes are judged in this order.
#[derive(Clone, Copy, Debug, PartialEq, Eq, Error)]
pub enum NumError {
    /// The text does not have the form.
    #[error("not a number")]
    NotNumber,
    /// More digits count than the form allows.
    #[error("too many digits")]
    TooManyDigits,
    /// The rounded value is of a magnitude above `MAX_UNITS`.
    #[error("out of range")]
    OutOfRange,
}

/// The greatest magnitude in units that a decimal text reads as.
pub const MAX_UNITS: i64 = 1 << 62;

/// The digits of a decimal text that may count, from the first that is not 0 on.
const DECIMAL_DIGITS: u128 = 24;

/// The digits that a whole number may have.
const WHOLE_DIGITS: usize = 19;

/// `MAX_UNITS`, as a magnitude.
const LIMIT: u128 = MAX_UNITS as u128;

/// The units in 1, as a magnitude.
const ONE: u128 = UNIT as u128;

/// The exponent of a decimal text.
#[derive(Drop)]
struct Exponent {
    negative: bool,
    size: u32,
}

impl Model for Exponent {
    ghost Value = { ℤ };

    ghost view = { λ e. with_sign e.negative e.size };

    ghost invariant = { λ e. e.size < 1000 };
}

impl Exponent {
    /// The number as a power's exponent above 0, or 0.
    fn above_zero(&self) -> u32
        ensures is { result ≡ above_zero self.now }
        ensures bound { result < 1000 }
    {
        if self.negative { 0 } else { self.size }
    }

    /// The number as a power's exponent below 0, or 0.
    fn below_zero(&self) -> u32
        ensures is { result ≡ below_zero self.now }
        ensures bound { result < 1000 }
    {
        if self.negative { self.size } else { 0 }
    }
}

/// A decimal text in its parts.
#[derive(Drop)]
struct Parts<'a> {
    negative: bool,
    whole: &'a [u8],
    fraction: &'a [u8],
    exponent: Exponent,
}

impl<'a> Model for Parts<'a> {
    ghost Value = { Decimal };

    ghost view = { λ p. record {
      negative = p.negative;
      whole = p.whole.now;
      fraction = p.fraction.now;
      exponent = p.exponent;
    } };

    ghost invariant = { λ p. IsTrue (list_all is_ascii_digit p.whole.now)
        × IsTrue (list_all is_ascii_digit p.fraction.now) };
}

/// The value of a decimal text in units of 2^-24, rounded once, a tie away from zero.
///
/// The text is an optional sign, digits with at most one point and at least one digit, and an
/// optional exponent: `e` or `E`, an optional sign, one to three digits.
///
/// # Errors
///
/// `NotNumber` where the text is none of this form, `TooManyDigits` where more than 24 digits count
/// from the first that is not 0 on, `OutOfRange` where the rounded magnitude is above `MAX_UNITS`.
#[tactic(auto, unfolding(crate::specs::Decimal::read_number))]
pub fn read_decimal(text: &[u8]) -> Result<i64, NumError>
    ensures is { result ≡ read_number text.now }
    ensures bound { IfOk result (λ v. unsigned_abs v ≤ 2 ^ 62) }
{
    let Some(parts) = split(text) else {
        return Err(NumError::NotNumber);
    };
    if parts.count() > DECIMAL_DIGITS {
        return Err(NumError::TooManyDigits);
    }
    match parts.units() {
        Some(magnitude) => Ok(signed(parts.negative, magnitude)),
        None => Err(NumError::OutOfRange),
    }
}

/// The value of a whole number's text.
///
/// # Errors
///
/// `NotNumber` where the text is not one digit or more and nothing else, `TooManyDigits` where it
/// has more than 19.
#[tactic(auto, unfolding(crate::specs::Decimal::read_count))]
pub fn read_whole(text: &[u8]) -> Result<u64, NumError>
    ensures is { result ≡ read_count text.now }
    ensures bound { IfOk result (λ n. n < 10 ^ 19) }
{
    if !is_whole(text) {
        return Err(NumError::NotNumber);
    }
    if text.len() > WHOLE_DIGITS {
        return Err(NumError::TooManyDigits);
    }
    Ok(value(0, text) as u64)
}

/// How many digits the text begins with.
fn count_digits(text: &[u8]) -> usize
    ensures is { result ≡ prefix_len is_ascii_digit text.now }
    ensures bound { result ≤ length text.now }
{
    for (i, b) in text.iter().enumerate() {
        if !b.is_ascii_digit() {
            return i;
        }
    }
    text.len()
}

/// How many zeros the digits begin with.
fn count_zeros(digits: &[u8]) -> usize
    ensures is { result ≡ prefix_len (λ b. b == 48) digits.now }
    ensures bound { result ≤ length digits.now }
{
    for (i, b) in digits.iter().enumerate() {
        if *b != b'0' {
            return i;
        }
    }
    digits.len()
}

/// How many digits count, those from the first that is not 0 on.
fn count_significant(digits: &[u8]) -> usize
    ensures { result ≡ significant digits.now }
{
    digits.len() - count_zeros(digits)
}

/// Whether the text is digits and nothing else.
fn is_digits(text: &[u8]) -> bool
    ensures is { result ≡ (prefix_len is_ascii_digit text.now == length text.now) }
    ensures all { OnTrue result (IsTrue (list_all is_ascii_digit text.now)) }
{
    count_digits(text) == text.len()
}

/// The digits that the text begins with, and what follows.
fn split_digits(text: &[u8]) -> (&[u8], &[u8])
    ensures digits { result.0.now ≡ leading_digits text.now }
    ensures rest { result.1.now ≡ after_digits text.now }
    ensures all { IsTrue (list_all is_ascii_digit result.0.now) }
{
    let count = count_digits(text);
    (&text[..count], &text[count..])
}

/// Whether the text begins with `-`, and what follows its sign.
fn split_sign(text: &[u8]) -> (bool, &[u8])
    ensures negative { result.0 ≡ has_minus text.now }
    ensures rest { result.1.now ≡ after_sign text.now }
{
    match text {
        [b'-', rest @ ..] => (true, rest),
        [b'+', rest @ ..] => (false, rest),
        _ => (false, text),
    }
}

/// The digits behind a point, if there is one, and what follows.
fn split_fraction(text: &[u8]) -> (&[u8], &[u8])
    ensures digits { result.0.now ≡ fraction_digits text.now }
    ensures rest { result.1.now ≡ after_fraction text.now }
    ensures all { IsTrue (list_all is_ascii_digit result.0.now) }
{
    match text {
        [b'.', rest @ ..] => split_digits(rest),
        _ => (&text[..0], text),
    }
}

/// Whether the text is one to three digits and nothing else.
fn is_exponent(text: &[u8]) -> bool
    ensures is { result ≡ is_exponent_digits text.now }
    ensures all { OnTrue result (IsTrue (list_all is_ascii_digit text.now)) }
    ensures bound { OnTrue result (length text.now ≤ 3) }
{
    0 < text.len() && text.len() <= 3 && is_digits(text)
}

/// Whether the text is one digit or more and nothing else.
fn is_whole(text: &[u8]) -> bool
    ensures is { result ≡ (nat_lt 0 (length text.now)
        && (prefix_len is_ascii_digit text.now == length text.now)) }
    ensures all { OnTrue result (IsTrue (list_all is_ascii_digit text.now)) }
{
    0 < text.len() && is_digits(text)
}

/// The exponent that the text is, 0 for no text.
fn read_exponent(text: &[u8]) -> Option<Exponent>
    ensures { result ≡ exponent_of text.now }
{
    match text {
        [] => Some(Exponent {
            negative: false,
            size: 0,
        }),
        [b'e' | b'E', rest @ ..] => {
            let (negative, digits) = split_sign(rest);
            if !is_exponent(digits) {
                return None;
            }
            let size = value(0, digits) as u32;
            Some(Exponent { negative, size })
        }
        _ => None,
    }
}

/// The parts of the text, if it is a decimal text.
#[tactic(auto, unfolding(crate::specs::Decimal::decimal_of))]
fn split(text: &[u8]) -> Option<Parts<'_>>
    ensures { result ≡ decimal_of text.now }
{
    let (negative, unsigned) = split_sign(text);
    let (whole, after_whole) = split_digits(unsigned);
    let (fraction, after_fraction) = split_fraction(after_whole);
    let exponent = read_exponent(after_fraction)?;
    if whole.is_empty() && fraction.is_empty() {
        return None;
    }
    Some(Parts {
        negative,
        whole,
        fraction,
        exponent,
    })
}

/// The number that the digits write behind those of `n`.
fn value(n: u128, digits: &[u8]) -> u128
    requires all { IsTrue (list_all is_ascii_digit digits.now) }
    requires fits { digits_value_after 10 n digits.now < 10 ^ 24 }
    ensures { result ≡ digits_value_after 10 n digits.now }
{
    let mut n = n;
    for b in digits {
        n = n * 10 + u128::from(b - b'0');
    }
    n
}

impl<'a> Parts<'a> {
    /// How many digits count.
    fn count(&self) -> u128
        ensures { result ≡ significant (digits_of self.now) }
    {
        let whole = count_significant(self.whole);
        if whole == 0 {
            count_significant(self.fraction) as u128
        } else {
            whole as u128 + self.fraction.len() as u128
        }
    }

    /// The digits as a whole number.
    fn digits(&self) -> u128
        requires { significant (digits_of self.now) ≤ 24 }
        ensures is { result ≡ digits_value 10 (digits_of self.now) }
        ensures bound { result < 10 ^ 24 }
    {
        value(value(0, self.whole), self.fraction)
    }

    /// The magnitude in units, if it is in range.
    fn units(&self) -> Option<u128>
        requires { significant (digits_of self.now) ≤ 24 }
        ensures { SomeIff result (decimal_units self.now ≤ 2 ^ 62) (decimal_units self.now) }
    {
        let above = u128::from(self.exponent.above_zero());
        let below = self.fraction.len() as u128 + u128::from(self.exponent.below_zero());
        if below <= above {
            raised(self.digits(), above - below)
        } else {
            let magnitude = lowered(self.digits(), below - above);
            (magnitude <= LIMIT).then_some(magnitude)
        }
    }
}

/// The number in units, times a power of ten, if it is in range.
fn raised(n: u128, tens: u128) -> Option<u128>
    requires { n < 10 ^ 24 }
    ensures { SomeIff result (n * 2 ^ 24 * 10 ^ tens ≤ 2 ^ 62) (n * 2 ^ 24 * 10 ^ tens) }
{
    if n == 0 {
        return Some(0);
    }
    if tens > 11 {
        return None;
    }
    let magnitude = (n * ONE).checked_mul(10_u128.pow(tens as u32))?;
    (magnitude <= LIMIT).then_some(magnitude)
}

/// The number in units over a power of ten, rounded.
fn lowered(n: u128, tens: u128) -> u128
    requires { n < 10 ^ 24 }
    ensures { result ≡ nearest_of (n * 2 ^ 24) (10 ^ tens) }
{
    if tens > 37 {
        return 0;
    }
    nearest(n * ONE, 10_u128.pow(tens as u32))
}

/// The number of this magnitude, negative where asked.
fn signed(negative: bool, magnitude: u128) -> i64
    requires { magnitude ≤ 2 ^ 62 }
    ensures is { result ≡ with_sign negative magnitude }
    ensures bound { unsigned_abs result ≡ magnitude }
{
    if negative {
        -(magnitude as i64)
    } else {
        magnitude as i64
    }
}

/// The form of decimal texts.
///
/// A text reads as these parts exactly where it is their sign, digits, point, digits and exponent,
/// one after the other. It has one such reading at most, and is not a number exactly where it has
/// none.
pub fn decimal_text_form()
    ensures form { (text : List ℕ) (d : Decimal)
        → (decimal_of text ≡ Some d) ↔ IsDecimalText text d }
    ensures one_reading { (text : List ℕ) (d e : Decimal)
        → IsDecimalText text d → IsDecimalText text e → d ≡ e }
    ensures refusal { (text : List ℕ) → (read_number text ≡ Err NotNumber)
        ↔ ((d : Decimal) → IsDecimalText text d → ⊥) }
{}
