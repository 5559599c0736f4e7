//! The texts that numbers are printed as.
ghost use Rattle.std.specs.Prelude.{◌≡◌, ◌*◌, ◌^◌, ◌<◌, ◌≤◌, [], ◌++◌, ◌≤ℤ◌, ℤ, pos, length, take, unsigned_abs, decimal, IsAscii, Ok};
ghost use Rattle.arrayvec.specs.ArrayString.{array_string_len};
ghost use Rattle.fx_num.specs.Rounding.{nearest_of};
ghost use Rattle.fx_num.specs.Decimal.{read_number};
ghost use Rattle.fx_num.specs.Print.{sign_text, eight_digits, eight_decimals, fix_text, without_last, value_text, scaled_text};

use crate::rounding::{nearest, nearest_shift};
use arrayvec::ArrayString;
use itoa::Buffer;

/// Eight decimals are printed, so numbers are printed as whole numbers of 10^-8.
const DECIMALS: u128 = 100_000_000;

/// Prints a number in units with eight decimals, the last rounded, a tie away from zero. A `-`
/// stands before a negative number and nowhere else. It takes no memory.
pub fn print_fix(v: i128, out: &mut ArrayString<64>)
    requires empty { out.old.bytes ≡ [] }
    requires magnitude { unsigned_abs v ≤ 2 ^ 98 }
    ensures text { out.new.bytes ≡ fix_text v }
    ensures short { length (fix_text v) ≤ 33 }
    ensures ascii { IsAscii (fix_text v) }
{
    push_sign(v, out);
    push_decimals(rounded_decimals(v.unsigned_abs()), out);
}

/// Prints a whole number in decimal digits, with no leading zeros. It takes no memory.
pub fn print_whole(n: u64, out: &mut ArrayString<64>)
    requires { out.old.bytes ≡ [] }
    ensures text { out.new.bytes ≡ decimal n }
    ensures short { length (decimal n) ≤ 20 }
    ensures ascii { IsAscii (decimal n) }
{
    let mut buffer = Buffer::new();
    out.push_str(buffer.format(n));
}

/// Prints a number in units as a formula's value: as [`print_fix`] does, without zeros at the end and
/// without a point at the end. It takes no memory.
pub fn print_value(v: i64, out: &mut ArrayString<64>)
    requires { out.old.bytes ≡ [] }
    ensures text { out.new.bytes ≡ value_text v }
    ensures short { length (value_text v) ≤ 33 }
    ensures ascii { IsAscii (value_text v) }
{
    print_fix(i128::from(v), out);
    drop_last(b'0', out);
    drop_last(b'.', out);
}

/// Prints the quotient of two whole numbers with eight decimals, the last rounded, a tie away from
/// zero. It takes no memory.
pub fn print_scaled(num: i128, den: i128, out: &mut ArrayString<64>)
    requires empty { out.old.bytes ≡ [] }
    requires sign { pos 0 ≤ℤ num }
    requires part { num ≤ℤ den }
    requires positive { pos 1 ≤ℤ den }
    requires magnitude { den ≤ℤ pos (2 ^ 90) }
    ensures { out.new.bytes ≡ scaled_text (unsigned_abs num) (unsigned_abs den) }
{
    let hundred_millionths = nearest(num.unsigned_abs() * DECIMALS, den.unsigned_abs());
    push_decimals(hundred_millionths, out);
}

/// A printed number reads back as itself where its magnitude is one that can be read, so no two
/// of them print alike.
pub fn printed_reads_back()
    ensures { (v : ℤ) → unsigned_abs v ≤ 2 ^ 62 → read_number (fix_text v) ≡ Ok v }
{}

/// A magnitude in units as the nearest whole number of 10^-8, a tie upwards.
fn rounded_decimals(magnitude: u128) -> u128
    requires { magnitude ≤ 2 ^ 98 }
    ensures { result ≡ nearest_of (magnitude * 10 ^ 8) (2 ^ 24) }
{
    nearest_shift(magnitude * DECIMALS, 24)
}

/// Drops the bytes `last` at the end of an ASCII text.
fn drop_last(last: u8, out: &mut ArrayString<64>)
    requires { IsAscii out.old.bytes }
    ensures text { out.new.bytes ≡ without_last last out.old.bytes }
    ensures short { array_string_len out.new ≤ array_string_len out.old }
    ensures ascii { IsAscii out.new.bytes }
{
    let kept = kept_len(last, out.as_str().as_bytes());
    out.truncate(kept);
}

/// How long a text is without the bytes `last` at its end.
fn kept_len(last: u8, text: &[u8]) -> usize
    ensures bound { result ≤ length text.now }
    ensures rest { take result text.now ≡ without_last last text.now }
{
    let mut kept = text.len();
    while kept > 0 && text[kept - 1] == last {
        kept -= 1;
    }
    kept
}

/// Appends a `-` where the number is negative.
fn push_sign(v: i128, out: &mut ArrayString<64>)
    requires { array_string_len out.old ≡ 0 }
    ensures text { out.new.bytes ≡ out.old.bytes ++ sign_text v }
    ensures short { array_string_len out.new ≤ 1 }
{
    if v < 0 {
        out.push('-');
    }
}

/// Appends a whole number of 10^-8: the whole part, a point, eight decimals.
fn push_decimals(n: u128, out: &mut ArrayString<64>)
    requires { array_string_len out.old ≤ 1 }
    ensures { out.new.bytes ≡ out.old.bytes ++ eight_decimals n }
{
    let mut buffer = Buffer::new();
    out.push_str(buffer.format(n / DECIMALS));
    out.push('.');
    push_eight_digits(n % DECIMALS, out);
}

/// Appends a number below 10^8 as eight digits, with leading zeros.
fn push_eight_digits(n: u128, out: &mut ArrayString<64>)
    requires room { array_string_len out.old ≤ 42 }
    requires below { n < 10 ^ 8 }
    ensures { out.new.bytes ≡ out.old.bytes ++ eight_digits n }
{
    let mut buffer = Buffer::new();
    out.push_str(&buffer.format(DECIMALS + n)[1..]);
}
