//! The columns of a frame, each with its keyword, and those of the two styles of dumps.
ghost use Rattle.std.specs.Prelude.{◌≡◌, ℕ, List, IfOk};
ghost use Rattle.std.specs.List.{find};
ghost use Rattle.std.specs.Str.{bytes_eq};
ghost use Rattle.dump_text.specs.declared.columns.Column.{Column};
ghost use Rattle.dump_text.specs.Columns.{column_of, keyword_of, style_atom, style_custom};

use fx_num::{NoMemory, Seq, Text};
use std::alloc::Global;

/// A column of a frame: a keyword of `dump custom`.
#[derive(Clone, Copy, Debug, PartialEq, Eq)]
pub enum Column {
    /// The atom's id.
    Id,
    /// The molecule, 0 for none.
    Mol,
    /// The atom type.
    Kind,
    /// The mass of the atom type, in units.
    Mass,
    /// The position along x, in units.
    X,
    /// The position along y, in units.
    Y,
    /// The position along z, in units.
    Z,
    /// The position along x from the lower bound, as a part of the edge.
    Xs,
    /// The same along y.
    Ys,
    /// The same along z.
    Zs,
    /// The image count along x.
    Ix,
    /// The image count along y.
    Iy,
    /// The image count along z.
    Iz,
    /// The velocity along x, in units.
    Vx,
    /// The velocity along y, in units.
    Vy,
    /// The velocity along z, in units.
    Vz,
    /// The force along x at the last evaluation, in units.
    Fx,
    /// The force along y at the last evaluation, in units.
    Fy,
    /// The force along z at the last evaluation, in units.
    Fz,
}

/// The columns of a dump, from the left.
pub type DumpSpec = Seq<Column>;

/// All columns.
const COLUMNS: &[Column] = &[
    Column::Id,
    Column::Mol,
    Column::Kind,
    Column::Mass,
    Column::X,
    Column::Y,
    Column::Z,
    Column::Xs,
    Column::Ys,
    Column::Zs,
    Column::Ix,
    Column::Iy,
    Column::Iz,
    Column::Vx,
    Column::Vy,
    Column::Vz,
    Column::Fx,
    Column::Fy,
    Column::Fz,
];

impl Column {
    /// The keyword: `id`, `type`, `xs`.
    pub fn keyword(&self) -> &'static [u8]
        ensures { result.now ≡ keyword_of self.now }
    {
        match self {
            Column::Id => b"id",
            Column::Mol => b"mol",
            Column::Kind => b"type",
            Column::Mass => b"mass",
            Column::X => b"x",
            Column::Y => b"y",
            Column::Z => b"z",
            Column::Xs => b"xs",
            Column::Ys => b"ys",
            Column::Zs => b"zs",
            Column::Ix => b"ix",
            Column::Iy => b"iy",
            Column::Iz => b"iz",
            Column::Vx => b"vx",
            Column::Vy => b"vy",
            Column::Vz => b"vz",
            Column::Fx => b"fx",
            Column::Fy => b"fy",
            Column::Fz => b"fz",
        }
    }

    /// The column of this keyword, if it is one.
    #[tactic(auto, unfolding(crate::specs::Columns::column_of))]
    pub fn of(text: &[u8]) -> Option<Column>
        ensures { result ≡ column_of text.now }
    {
        first_of(COLUMNS, text)
    }
}

/// The first of these columns that has this keyword.
fn first_of(columns: &[Column], text: &[u8]) -> Option<Column>
    ensures { result ≡ find (λ c. bytes_eq (keyword_of c) text.now) columns.now }
{
    for column in columns {
        if column.keyword() == text {
            return Some(*column);
        }
    }
    None
}

/// Keywords and columns are one to one: a column's keyword reads as that column, and a text that
/// reads as a column is its keyword. A law, which does nothing when it runs.
pub fn keywords_name_columns()
    ensures reads { (c : Column) → column_of (keyword_of c) ≡ Some c }
    ensures only { (text : List ℕ) (c : Column) → column_of text ≡ Some c → text ≡ keyword_of c }
{}

/// The columns of the style `atom`: id, type and position, the position scaled by the box or in
/// units.
///
/// # Errors
///
/// [`NoMemory`] where memory is refused.
pub fn style_atom(alloc: Global, scaled: bool) -> Result<DumpSpec, NoMemory>
    ensures { IfOk result (λ c. c ≡ style_atom scaled) }
{
    let columns = if scaled {
        [Column::Id, Column::Kind, Column::Xs, Column::Ys, Column::Zs]
    } else {
        [Column::Id, Column::Kind, Column::X, Column::Y, Column::Z]
    };
    Ok(Seq::from_vec(Vec::from_slice(alloc, &columns)?))
}

/// The columns of the style `custom`, by their keywords, in the order in which they are given; none
/// where one of the texts is no keyword.
///
/// # Errors
///
/// [`NoMemory`] where memory is refused.
pub fn style_custom(alloc: Global, keywords: &[Text]) -> Result<Option<DumpSpec>, NoMemory>
    ensures { IfOk result (λ c. c ≡ style_custom keywords.now) }
{
    let mut columns = Seq::new(alloc);
    for keyword in keywords {
        let Some(column) = Column::of(keyword.as_bytes()) else {
            return Ok(None);
        };
        columns.push(column)?;
    }
    Ok(Some(columns))
}
