//! The rows of masses and coefficients.
ghost use Rattle.std.specs.Prelude.{◌≡◌, pos};
ghost use Rattle.data_file.specs.Rows.{angle_line_row, bond_line_parts, bond_line_row, cutoff_field, is_covered, mass_row, pair_fields, pair_parts, pair_row};
ghost use Rattle.data_file.specs.Words.{words_of};

use crate::contents::{AngleLine, BondLine, PairLine};
use crate::fault::DataFault;
use crate::fields::{both, decimal_field, kind_field};
use crate::tables::Keys;
use crate::words::{count_words, word_at};
use box_geo::limits::{
    MAX_CUTOFF, MAX_EPSILON, MAX_MASS, MAX_REST_LENGTH, MAX_SIGMA, MAX_STIFFNESS, MIN_MASS,
};

/// A type and its mass.
#[tactic(auto, unfolding(crate::specs::Rows::mass_row))]
pub(crate) fn mass_row(line: &[u8], kinds: u8, met: &Keys) -> Result<(u8, i64), DataFault>
    ensures { result ≡ mass_row kinds met.now (words_of line.now) }
{
    if count_words(line) != 2 {
        return Err(DataFault::Count);
    }
    let kind = kind_field(word_at(line, 0), kinds);
    let mass = decimal_field(word_at(line, 1), MIN_MASS, MAX_MASS);
    let row = both(kind, mass)?;
    if met.has(u32::from(row.0)) {
        return Err(DataFault::Twice);
    }
    Ok(row)
}

/// The cutoff of a pair, which may be left out.
fn cutoff_field(line: &[u8]) -> Result<Option<i64>, DataFault>
    ensures { result ≡ cutoff_field (words_of line.now) }
{
    if count_words(line) != 4 {
        return Ok(None);
    }
    Ok(Some(decimal_field(word_at(line, 3), 1, MAX_CUTOFF)?))
}

/// The type and energy, the size and cutoff of a pair.
type PairParts = ((u8, i64), (i64, Option<i64>));

/// The numbers of a row of a pair.
#[tactic(auto, unfolding(crate::specs::Rows::pair_parts))]
fn pair_parts(line: &[u8], kinds: u8) -> Result<PairParts, DataFault>
    ensures { result ≡ pair_parts kinds (words_of line.now) }
{
    let kind = kind_field(word_at(line, 0), kinds);
    let epsilon = decimal_field(word_at(line, 1), 0, MAX_EPSILON);
    let sigma = decimal_field(word_at(line, 2), 1, MAX_SIGMA);
    both(both(kind, epsilon), both(sigma, cutoff_field(line)))
}

/// The coefficients of a row of a pair.
fn pair_fields(line: &[u8], kinds: u8) -> Result<PairLine, DataFault>
    ensures { result ≡ pair_fields kinds (words_of line.now) }
{
    let ((kind, epsilon), (sigma, cutoff)) = pair_parts(line, kinds)?;
    Ok(PairLine {
        kind,
        epsilon,
        sigma,
        cutoff,
    })
}

/// Whether four cutoffs reach over a size.
fn is_covered(sigma: i64, cutoff: Option<i64>) -> bool
    ensures { result ≡ is_covered sigma cutoff }
{
    match cutoff {
        None => true,
        Some(cutoff) => i128::from(sigma) <= 4 * i128::from(cutoff),
    }
}

/// The coefficients of a pair of atoms of one type.
#[tactic(auto, unfolding(crate::specs::Rows::pair_row))]
pub(crate) fn pair_row(line: &[u8], kinds: u8, met: &Keys) -> Result<PairLine, DataFault>
    ensures { result ≡ pair_row kinds met.now (words_of line.now) }
{
    let count = count_words(line);
    if !(count == 3 || count == 4) {
        return Err(DataFault::Count);
    }
    let pair = pair_fields(line, kinds)?;
    if !is_covered(pair.sigma, pair.cutoff) {
        return Err(DataFault::Limit);
    }
    if met.has(u32::from(pair.kind)) {
        return Err(DataFault::Twice);
    }
    Ok(pair)
}

/// The numbers of a row of a bond type.
#[tactic(auto, unfolding(crate::specs::Rows::bond_line_parts))]
fn bond_line_parts(line: &[u8], kinds: u8) -> Result<(u8, (i64, i64)), DataFault>
    ensures { result ≡ bond_line_parts kinds (words_of line.now) }
{
    let kind = kind_field(word_at(line, 0), kinds);
    let stiffness = decimal_field(word_at(line, 1), 0, MAX_STIFFNESS);
    let length = decimal_field(word_at(line, 2), 0, MAX_REST_LENGTH);
    both(kind, both(stiffness, length))
}

/// The coefficients of a bond type.
#[tactic(auto, unfolding(crate::specs::Rows::bond_line_row))]
pub(crate) fn bond_line_row(line: &[u8], kinds: u8, met: &Keys) -> Result<BondLine, DataFault>
    ensures { result ≡ bond_line_row kinds met.now (words_of line.now) }
{
    if count_words(line) != 3 {
        return Err(DataFault::Count);
    }
    let (kind, (stiffness, rest_length)) = bond_line_parts(line, kinds)?;
    if met.has(u32::from(kind)) {
        return Err(DataFault::Twice);
    }
    Ok(BondLine {
        kind,
        stiffness,
        rest_length,
    })
}

/// The coefficients of an angle type.
#[tactic(auto, unfolding(crate::specs::Rows::angle_line_row))]
pub(crate) fn angle_line_row(line: &[u8], kinds: u8, met: &Keys) -> Result<AngleLine, DataFault>
    ensures { result ≡ angle_line_row kinds met.now (words_of line.now) }
{
    if count_words(line) != 2 {
        return Err(DataFault::Count);
    }
    let kind = kind_field(word_at(line, 0), kinds);
    let stiffness = decimal_field(word_at(line, 1), 0, MAX_STIFFNESS);
    let (kind, stiffness) = both(kind, stiffness)?;
    if met.has(u32::from(kind)) {
        return Err(DataFault::Twice);
    }
    Ok(AngleLine { kind, stiffness })
}
