//! The rows of bonds and angles.
ghost use Rattle.std.specs.Prelude.{◌≡◌, ◌<◌, IfOk};
ghost use Rattle.data_file.specs.Fields.{made};
ghost use Rattle.data_file.specs.Rows.{angle_fields, angle_of, angle_parts, angle_row, are_bound, bond_fields, bond_of, bond_parts, bond_row, has_twice, is_absent, is_bound, lacks_atom, number_of};
ghost use Rattle.data_file.specs.Words.{words_of};

use crate::fault::DataFault;
use crate::fields::{both, id_field, kind_field};
use crate::tables::{ById, Keys};
use crate::words::{count_words, word_at};
use box_geo::limits::{MAX_ANGLES_OF_ATOM, MAX_BONDS_OF_ATOM};
use box_geo::{Angle, Atom, Bond};

/// How many bonds or angles an atom has.
pub(crate) fn number_of(id: u32, numbers: &ById<u32>) -> u32
    ensures { result ≡ number_of id numbers.now }
{
    numbers.get(id).unwrap_or(0)
}

/// Whether an atom has as many bonds or angles as it may.
fn is_bound(most: u32, id: u32, numbers: &ById<u32>) -> bool
    ensures { result ≡ is_bound most id numbers.now }
{
    most <= number_of(id, numbers)
}

/// Whether no atom has an id.
fn is_absent(id: u32, atoms: &ById<Atom>) -> bool
    ensures { result ≡ is_absent id atoms.now }
{
    !atoms.has(id)
}

/// The type and the atoms of a row of a bond.
#[tactic(auto, unfolding(crate::specs::Rows::bond_parts))]
fn bond_parts(line: &[u8], kinds: u8) -> Result<(u8, (u32, u32)), DataFault>
    ensures { result ≡ bond_parts kinds (words_of line.now) }
{
    let atoms = both(id_field(word_at(line, 2)), id_field(word_at(line, 3)));
    both(kind_field(word_at(line, 1), kinds), atoms)
}

/// The bond of a row.
fn bond_in(line: &[u8], kinds: u8) -> Result<Bond, DataFault>
    ensures { result ≡ made bond_of (bond_parts kinds (words_of line.now)) }
{
    let (kind, (a, b)) = bond_parts(line, kinds)?;
    Ok(Bond { kind, a, b })
}

/// The id and the bond of a row.
#[tactic(auto, unfolding(crate::specs::Rows::bond_fields))]
fn bond_fields(line: &[u8], kinds: u8) -> Result<(u32, Bond), DataFault>
    ensures { result ≡ bond_fields kinds (words_of line.now) }
{
    both(id_field(word_at(line, 0)), bond_in(line, kinds))
}

/// A bond with its id.
#[tactic(auto, unfolding(crate::specs::Rows::bond_row))]
pub(crate) fn bond_row(
    line: &[u8],
    kinds: u8,
    met: &Keys,
    atoms: &ById<Atom>,
    bonds: &ById<u32>,
) -> Result<(u32, Bond), DataFault>
    ensures is { result ≡ bond_row kinds met.now atoms.now bonds.now (words_of line.now) }
    ensures a { IfOk result (λ r. number_of r.1.a bonds.now < 1000) }
    ensures b { IfOk result (λ r. number_of r.1.b bonds.now < 1000) }
{
    if count_words(line) != 4 {
        return Err(DataFault::Count);
    }
    let (id, bond) = bond_fields(line, kinds)?;
    if is_bound(MAX_BONDS_OF_ATOM, bond.a, bonds) || is_bound(MAX_BONDS_OF_ATOM, bond.b, bonds) {
        return Err(DataFault::Limit);
    }
    if met.has(id) || bond.a == bond.b {
        return Err(DataFault::Twice);
    }
    if is_absent(bond.a, atoms) || is_absent(bond.b, atoms) {
        return Err(DataFault::NoSuch);
    }
    Ok((id, bond))
}

/// The type and the atoms of a row of an angle.
#[tactic(auto, unfolding(crate::specs::Rows::angle_parts))]
fn angle_parts(line: &[u8], kinds: u8) -> Result<(u8, ((u32, u32), u32)), DataFault>
    ensures { result ≡ angle_parts kinds (words_of line.now) }
{
    let first = both(id_field(word_at(line, 2)), id_field(word_at(line, 3)));
    let atoms = both(first, id_field(word_at(line, 4)));
    both(kind_field(word_at(line, 1), kinds), atoms)
}

/// The angle of a row.
fn angle_in(line: &[u8], kinds: u8) -> Result<Angle, DataFault>
    ensures { result ≡ made angle_of (angle_parts kinds (words_of line.now)) }
{
    let (kind, ((a, b), c)) = angle_parts(line, kinds)?;
    Ok(Angle { kind, a, b, c })
}

/// The id and the angle of a row.
#[tactic(auto, unfolding(crate::specs::Rows::angle_fields))]
fn angle_fields(line: &[u8], kinds: u8) -> Result<(u32, Angle), DataFault>
    ensures { result ≡ angle_fields kinds (words_of line.now) }
{
    both(id_field(word_at(line, 0)), angle_in(line, kinds))
}

/// Whether an atom of an angle has as many angles as it may.
fn are_bound(angle: &Angle, angles: &ById<u32>) -> bool
    ensures { result ≡ are_bound angle.now angles.now }
{
    is_bound(MAX_ANGLES_OF_ATOM, angle.a, angles)
        || is_bound(MAX_ANGLES_OF_ATOM, angle.b, angles)
        || is_bound(MAX_ANGLES_OF_ATOM, angle.c, angles)
}

/// Whether an angle has an atom twice.
fn has_twice(angle: &Angle) -> bool
    ensures { result ≡ has_twice angle.now }
{
    angle.a == angle.b || angle.b == angle.c || angle.a == angle.c
}

/// Whether an atom of an angle is not there.
fn lacks_atom(angle: &Angle, atoms: &ById<Atom>) -> bool
    ensures { result ≡ lacks_atom angle.now atoms.now }
{
    is_absent(angle.a, atoms) || is_absent(angle.b, atoms) || is_absent(angle.c, atoms)
}

/// An angle with its id.
#[tactic(auto, unfolding(crate::specs::Rows::angle_row))]
pub(crate) fn angle_row(
    line: &[u8],
    kinds: u8,
    met: &Keys,
    atoms: &ById<Atom>,
    angles: &ById<u32>,
) -> Result<(u32, Angle), DataFault>
    ensures is { result ≡ angle_row kinds met.now atoms.now angles.now (words_of line.now) }
    ensures a { IfOk result (λ r. number_of r.1.a angles.now < 1000) }
    ensures b { IfOk result (λ r. number_of r.1.b angles.now < 1000) }
    ensures c { IfOk result (λ r. number_of r.1.c angles.now < 1000) }
{
    if count_words(line) != 5 {
        return Err(DataFault::Count);
    }
    let (id, angle) = angle_fields(line, kinds)?;
    if are_bound(&angle, angles) {
        return Err(DataFault::Limit);
    }
    if met.has(id) || has_twice(&angle) {
        return Err(DataFault::Twice);
    }
    if lacks_atom(&angle, atoms) {
        return Err(DataFault::NoSuch);
    }
    Ok((id, angle))
}
