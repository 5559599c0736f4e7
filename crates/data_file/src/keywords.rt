//! What header lines are known by: their last words.
ghost use Rattle.std.specs.Prelude.{◌≡◌, length};
ghost use Rattle.data_file.specs.Header.{count_keyword, effectless_keyword, ends, extra_keyword, keyword_of, side_keyword, types_keyword};
ghost use Rattle.data_file.specs.Words.{words_of};

use crate::words::{count_words, is_word};

/// A header line.
#[derive(Clone, Copy, Debug)]
pub(crate) enum Keyword {
    Atoms,
    Bonds,
    Angles,
    AtomTypes,
    BondTypes,
    AngleTypes,
    SideX,
    SideY,
    SideZ,
    Dihedrals,
    Impropers,
    DihedralTypes,
    ImproperTypes,
    ExtraBond,
    ExtraAngle,
    ExtraSpecial,
}

/// Whether the word so many places before the end of a line of so many words is this text.
#[tactic(auto, unfolding(crate::specs::Header::ends))]
fn ends(line: &[u8], count: usize, before: usize, text: &[u8]) -> bool
    requires { count ≡ length (words_of line.now) }
    ensures { result ≡ ends before text.now (words_of line.now) }
{
    is_word(line, count.saturating_sub(before), text)
}

/// The line of a number of atoms, bonds or angles.
fn count_keyword(line: &[u8], count: usize) -> Option<Keyword>
    requires { count ≡ length (words_of line.now) }
    ensures { result ≡ count_keyword (words_of line.now) }
{
    if ends(line, count, 1, b"atoms") {
        Some(Keyword::Atoms)
    } else if ends(line, count, 1, b"bonds") {
        Some(Keyword::Bonds)
    } else if ends(line, count, 1, b"angles") {
        Some(Keyword::Angles)
    } else {
        None
    }
}

/// The line of a number of types.
fn types_keyword(line: &[u8], count: usize) -> Option<Keyword>
    requires { count ≡ length (words_of line.now) }
    ensures { result ≡ types_keyword (words_of line.now) }
{
    if !ends(line, count, 1, b"types") {
        None
    } else if ends(line, count, 2, b"atom") {
        Some(Keyword::AtomTypes)
    } else if ends(line, count, 2, b"bond") {
        Some(Keyword::BondTypes)
    } else if ends(line, count, 2, b"angle") {
        Some(Keyword::AngleTypes)
    } else {
        None
    }
}

/// The line of a side of the box.
fn side_keyword(line: &[u8], count: usize) -> Option<Keyword>
    requires { count ≡ length (words_of line.now) }
    ensures { result ≡ side_keyword (words_of line.now) }
{
    if ends(line, count, 2, b"xlo") && ends(line, count, 1, b"xhi") {
        Some(Keyword::SideX)
    } else if ends(line, count, 2, b"ylo") && ends(line, count, 1, b"yhi") {
        Some(Keyword::SideY)
    } else if ends(line, count, 2, b"zlo") && ends(line, count, 1, b"zhi") {
        Some(Keyword::SideZ)
    } else {
        None
    }
}

/// A line without effect that says that there is none of something.
fn effectless_keyword(line: &[u8], count: usize) -> Option<Keyword>
    requires { count ≡ length (words_of line.now) }
    ensures { result ≡ effectless_keyword (words_of line.now) }
{
    let none_of = ends(line, count, 2, b"0");
    if none_of && ends(line, count, 1, b"dihedrals") {
        return Some(Keyword::Dihedrals);
    }
    if none_of && ends(line, count, 1, b"impropers") {
        return Some(Keyword::Impropers);
    }
    let no_types = ends(line, count, 3, b"0") && ends(line, count, 1, b"types");
    if no_types && ends(line, count, 2, b"dihedral") {
        return Some(Keyword::DihedralTypes);
    }
    if no_types && ends(line, count, 2, b"improper") {
        return Some(Keyword::ImproperTypes);
    }
    None
}

/// A line without effect that asks for more room.
fn extra_keyword(line: &[u8], count: usize) -> Option<Keyword>
    requires { count ≡ length (words_of line.now) }
    ensures { result ≡ extra_keyword (words_of line.now) }
{
    let per_atom = ends(line, count, 2, b"per") && ends(line, count, 1, b"atom");
    if !per_atom || !ends(line, count, 4, b"extra") {
        None
    } else if ends(line, count, 3, b"bond") {
        Some(Keyword::ExtraBond)
    } else if ends(line, count, 3, b"angle") {
        Some(Keyword::ExtraAngle)
    } else if ends(line, count, 3, b"special") {
        Some(Keyword::ExtraSpecial)
    } else {
        None
    }
}

/// The header line that a line is by its last words.
#[tactic(auto, unfolding(crate::specs::Header::keyword_of))]
pub(crate) fn keyword_of(line: &[u8]) -> Option<Keyword>
    ensures { result ≡ keyword_of (words_of line.now) }
{
    let count = count_words(line);
    count_keyword(line, count)
        .or(types_keyword(line, count))
        .or(side_keyword(line, count))
        .or(effectless_keyword(line, count))
        .or(extra_keyword(line, count))
}
