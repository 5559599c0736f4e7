//! Fields: numbers of words, each within its limits.
ghost use Rattle.std.specs.Prelude.{◌≡◌, ◌<◌, ◌≤◌, ◌^◌, ◌≤ℤ◌, unsigned_abs, IfOk};
ghost use Rattle.fx_num.specs.Decimal.{read_count};
ghost use Rattle.fx_num.specs.Rounding.{with_sign};
ghost use Rattle.box_geo.specs.Sides.{x_of, y_of, z_of};
ghost use Rattle.data_file.specs.Fields.{both, decimal_field, decimal_with, graver, id_field, image_field, image_with, images_field, kind_field, vector, vector_field, whole_field, whole_with};
ghost use Rattle.data_file.specs.Words.{words_of};

use crate::fault::DataFault;
use crate::words::word_at;
use box_geo::limits::{MAX_ID, MAX_IMAGE};
use fx_num::{NumError, V3, read_decimal, read_whole};

/// A whole number between two limits.
#[tactic(auto, unfolding(crate::specs::Fields::whole_field))]
pub(crate) fn whole_field(text: &[u8], low: u64, high: u64) -> Result<u64, DataFault>
    ensures is { result ≡ whole_field low high text.now }
    ensures within { IfOk result (λ n. (low ≤ n) × (n ≤ high)) }
{
    match read_whole(text) {
        Err(_) => Err(DataFault::Number),
        Ok(n) if low <= n && n <= high => Ok(n),
        Ok(_) => Err(DataFault::Limit),
    }
}

/// A decimal text between two limits, in units.
#[tactic(auto, unfolding(crate::specs::Fields::decimal_field))]
pub(crate) fn decimal_field(text: &[u8], low: i64, high: i64) -> Result<i64, DataFault>
    ensures is { result ≡ decimal_field low high text.now }
    ensures within { IfOk result (λ v. (low ≤ℤ v) × (v ≤ℤ high)) }
{
    match read_decimal(text) {
        Err(NumError::OutOfRange) => Err(DataFault::Limit),
        Err(_) => Err(DataFault::Number),
        Ok(v) if low <= v && v <= high => Ok(v),
        Ok(_) => Err(DataFault::Limit),
    }
}

/// An id of an atom, a bond or an angle.
pub(crate) fn id_field(text: &[u8]) -> Result<u32, DataFault>
    ensures { result ≡ id_field text.now }
{
    Ok(whole_field(text, 1, u64::from(MAX_ID))? as u32)
}

/// A type of so many.
pub(crate) fn kind_field(text: &[u8], kinds: u8) -> Result<u8, DataFault>
    ensures { result ≡ kind_field kinds text.now }
{
    Ok(whole_field(text, 1, u64::from(kinds))? as u8)
}

/// The image count that digits behind a sign write.
fn image_with(negative: bool, digits: &[u8]) -> Result<i64, DataFault>
    ensures is { result ≡ image_with negative (read_count digits.now) }
    ensures bound { IfOk result (λ n. unsigned_abs n ≤ 2 ^ 40) }
{
    match read_whole(digits) {
        Err(_) => Err(DataFault::Number),
        Ok(n) if n <= MAX_IMAGE as u64 => Ok(signed(negative, n)),
        Ok(_) => Err(DataFault::Limit),
    }
}

/// The number of this magnitude, negative where asked.
fn signed(negative: bool, magnitude: u64) -> i64
    requires { magnitude ≤ 2 ^ 40 }
    ensures is { result ≡ with_sign negative magnitude }
    ensures bound { unsigned_abs result ≡ magnitude }
{
    if negative {
        -(magnitude as i64)
    } else {
        magnitude as i64
    }
}

/// An image count: a whole number with an optional sign.
#[tactic(auto, unfolding(crate::specs::Fields::image_field))]
pub(crate) fn image_field(text: &[u8]) -> Result<i64, DataFault>
    ensures is { result ≡ image_field text.now }
    ensures bound { IfOk result (λ n. unsigned_abs n ≤ 2 ^ 40) }
{
    match text {
        [b'-', digits @ ..] => image_with(true, digits),
        [b'+', digits @ ..] => image_with(false, digits),
        _ => image_with(false, text),
    }
}

/// The graver of two faults of fields.
fn graver(f: DataFault, g: DataFault) -> DataFault
    ensures { result ≡ graver f g }
{
    match (f, g) {
        (_, DataFault::Number) => DataFault::Number,
        _ => f,
    }
}

/// Both values, or the graver fault.
pub(crate) fn both<A: Copy, B: Copy>(
    a: Result<A, DataFault>,
    b: Result<B, DataFault>,
) -> Result<(A, B), DataFault>
    ensures { result ≡ both a b }
{
    match (a, b) {
        (Ok(a), Ok(b)) => Ok((a, b)),
        (Ok(_), Err(g)) => Err(g),
        (Err(f), Ok(_)) => Err(f),
        (Err(f), Err(g)) => Err(graver(f, g)),
    }
}

/// A vector of three values.
fn vector(
    a: Result<i64, DataFault>,
    b: Result<i64, DataFault>,
    c: Result<i64, DataFault>,
) -> Result<V3, DataFault>
    ensures { result ≡ vector a b c }
{
    let ((x, y), z) = both(both(a, b), c)?;
    Ok([x, y, z])
}

/// The vector of three words from a place on, each component between two limits.
#[tactic(auto, unfolding(crate::specs::Fields::vector_field))]
pub(crate) fn vector_field(line: &[u8], place: usize, low: i64, high: i64) -> Result<V3, DataFault>
    requires { place < 100 }
    ensures is { result ≡ vector_field low high place (words_of line.now) }
    ensures x { IfOk result (λ v. (low ≤ℤ x_of v) × (x_of v ≤ℤ high)) }
    ensures y { IfOk result (λ v. (low ≤ℤ y_of v) × (y_of v ≤ℤ high)) }
    ensures z { IfOk result (λ v. (low ≤ℤ z_of v) × (z_of v ≤ℤ high)) }
{
    vector(
        decimal_field(word_at(line, place), low, high),
        decimal_field(word_at(line, place + 1), low, high),
        decimal_field(word_at(line, place + 2), low, high),
    )
}

/// The image counts of three words from a place on.
#[tactic(auto, unfolding(crate::specs::Fields::images_field))]
pub(crate) fn images_field(line: &[u8], place: usize) -> Result<V3, DataFault>
    requires { place < 100 }
    ensures is { result ≡ images_field place (words_of line.now) }
    ensures x { IfOk result (λ n. unsigned_abs (x_of n) ≤ 2 ^ 40) }
    ensures y { IfOk result (λ n. unsigned_abs (y_of n) ≤ 2 ^ 40) }
    ensures z { IfOk result (λ n. unsigned_abs (z_of n) ≤ 2 ^ 40) }
{
    vector(
        image_field(word_at(line, place)),
        image_field(word_at(line, place + 1)),
        image_field(word_at(line, place + 2)),
    )
}
