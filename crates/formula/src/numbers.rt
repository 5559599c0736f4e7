//! The decimal texts of formulas.
ghost use Rattle.std.specs.Prelude.{◌≡◌, ◌++◌, ◌∷◌, [], Ok, IfOk};
ghost use Rattle.formula.specs.Numbers.{literal_of, is_there, begins_number, is_number_front};

use fx_num::{NoMemory, NumError, Text, read_decimal};
use std::alloc::Global;

/// The value of a decimal text in units where it is in range, or nothing for a text that is none.
pub fn literal_of(text: &[u8]) -> Option<Option<i64>>
    ensures { result ≡ literal_of text.now }
{
    match read_decimal(text) {
        Ok(units) => Some(Some(units)),
        Err(NumError::OutOfRange) => Some(None),
        Err(NumError::NotNumber) => None,
        Err(NumError::TooManyDigits) => None,
    }
}

/// Whether this is the first byte of a decimal text.
pub fn begins_number(byte: u8) -> bool
    ensures { result ≡ begins_number byte }
{
    byte.is_ascii_digit() || byte == b'.'
}

/// Whether a decimal text begins with the text.
pub fn is_number_front(alloc: Global, text: &Text) -> Result<bool, NoMemory>
    ensures { IfOk result (λ r. r ≡ is_number_front text.now) }
{
    if literal_of(text.as_bytes()).is_some() {
        return Ok(true);
    }
    let mut longer = text.copy(alloc)?;
    longer.push(b"0")?;
    Ok(literal_of(longer.as_bytes()).is_some())
}
