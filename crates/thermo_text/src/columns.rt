//! The columns of thermo output, each with its keyword, name and place.
ghost use Rattle.std.specs.Prelude.{◌≡◌, ◌≤◌, ◌++◌, codes, drop, IfOk};
ghost use Rattle.std.specs.Str.{bytes_eq};
ghost use Rattle.thermo_text.specs.Thermo.{column_of, plain_column, keyword_text, column_name, is_whole, width_of, style_one};

use fx_num::{NoMemory, Seq, Text};
use std::alloc::Global;

/// A column of thermo output: a keyword of `thermo_style`.
#[derive(Drop)]
pub enum Keyword {
    /// The number of the step.
    Step,
    /// The number of atoms.
    Atoms,
    /// The timestep.
    Dt,
    /// Step times timestep.
    Time,
    /// The temperature.
    Temp,
    /// The pressure.
    Press,
    /// The potential energy: pair and molecular energy.
    Pe,
    /// The kinetic energy.
    Ke,
    /// The total energy.
    Etotal,
    /// The pair energy.
    Epair,
    /// The molecular energy: bonds and angles.
    Emol,
    /// The bond energy.
    Ebond,
    /// The angle energy.
    Eangle,
    /// The volume, in two dimensions the area.
    Vol,
    /// The edge of the box along x.
    Lx,
    /// The edge of the box along y.
    Ly,
    /// The edge of the box along z.
    Lz,
    /// The number of the compute of this id.
    Compute(Text),
}

/// The columns of thermo output, from the left.
pub type Columns = Seq<Keyword>;

/// The places that a whole number is set in.
const WHOLE_WIDTH: usize = 10;

/// The places that a number in units is set in.
const FIXED_WIDTH: usize = 20;

impl Keyword {
    /// The column of a word of `thermo_style`: that of the keyword, and otherwise that of the compute whose id stands behind
    /// `c_`.
    pub fn of(alloc: Global, word: &[u8]) -> Result<Keyword, NoMemory>
        ensures { IfOk result (λ k. k ≡ column_of word.now) }
    {
        match plain_column(word) {
            Some(column) => Ok(column),
            None => Ok(Keyword::Compute(Text::from_bytes(alloc, behind_prefix(word))?)),
        }
    }

    /// The keyword, under which the number of the column stands: `temp`, or `c_ID` of a compute.
    pub fn text(&self, alloc: Global) -> Result<Text, NoMemory>
        ensures { IfOk result (λ t. t ≡ keyword_text self.now) }
    {
        match self {
            Keyword::Step => Text::from_bytes(alloc, b"step"),
            Keyword::Atoms => Text::from_bytes(alloc, b"atoms"),
            Keyword::Dt => Text::from_bytes(alloc, b"dt"),
            Keyword::Time => Text::from_bytes(alloc, b"time"),
            Keyword::Temp => Text::from_bytes(alloc, b"temp"),
            Keyword::Press => Text::from_bytes(alloc, b"press"),
            Keyword::Pe => Text::from_bytes(alloc, b"pe"),
            Keyword::Ke => Text::from_bytes(alloc, b"ke"),
            Keyword::Etotal => Text::from_bytes(alloc, b"etotal"),
            Keyword::Epair => Text::from_bytes(alloc, b"epair"),
            Keyword::Emol => Text::from_bytes(alloc, b"emol"),
            Keyword::Ebond => Text::from_bytes(alloc, b"ebond"),
            Keyword::Eangle => Text::from_bytes(alloc, b"eangle"),
            Keyword::Vol => Text::from_bytes(alloc, b"vol"),
            Keyword::Lx => Text::from_bytes(alloc, b"lx"),
            Keyword::Ly => Text::from_bytes(alloc, b"ly"),
            Keyword::Lz => Text::from_bytes(alloc, b"lz"),
            Keyword::Compute(id) => compute_text(alloc, id),
        }
    }

    /// The name of the column in the header: `Temp`, or `c_ID` of a compute.
    pub fn name(&self, alloc: Global) -> Result<Text, NoMemory>
        ensures { IfOk result (λ t. t ≡ column_name self.now) }
    {
        match self {
            Keyword::Step => Text::from_bytes(alloc, b"Step"),
            Keyword::Atoms => Text::from_bytes(alloc, b"Atoms"),
            Keyword::Dt => Text::from_bytes(alloc, b"Dt"),
            Keyword::Time => Text::from_bytes(alloc, b"Time"),
            Keyword::Temp => Text::from_bytes(alloc, b"Temp"),
            Keyword::Press => Text::from_bytes(alloc, b"Press"),
            Keyword::Pe => Text::from_bytes(alloc, b"PotEng"),
            Keyword::Ke => Text::from_bytes(alloc, b"KinEng"),
            Keyword::Etotal => Text::from_bytes(alloc, b"TotEng"),
            Keyword::Epair => Text::from_bytes(alloc, b"E_pair"),
            Keyword::Emol => Text::from_bytes(alloc, b"E_mol"),
            Keyword::Ebond => Text::from_bytes(alloc, b"E_bond"),
            Keyword::Eangle => Text::from_bytes(alloc, b"E_angle"),
            Keyword::Vol => Text::from_bytes(alloc, b"Volume"),
            Keyword::Lx => Text::from_bytes(alloc, b"Lx"),
            Keyword::Ly => Text::from_bytes(alloc, b"Ly"),
            Keyword::Lz => Text::from_bytes(alloc, b"Lz"),
            Keyword::Compute(id) => compute_text(alloc, id),
        }
    }

    /// Whether the number of the column is whole, and not in units.
    pub fn is_whole(&self) -> bool
        ensures { result ≡ is_whole self.now }
    {
        matches!(self, Keyword::Step | Keyword::Atoms)
    }

    /// The places that the column takes at least.
    pub fn width(&self) -> usize
        ensures is { result ≡ width_of self.now }
        ensures narrow { result ≤ 20 }
    {
        if self.is_whole() {
            WHOLE_WIDTH
        } else {
            FIXED_WIDTH
        }
    }
}

/// The columns of `thermo_style one`: step, temperature, pair energy, molecular energy, total
/// energy and pressure.
pub fn style_one(alloc: Global) -> Result<Columns, NoMemory>
    ensures { IfOk result (λ c. c ≡ style_one) }
{
    let columns = vec![in alloc;
        Keyword::Step,
        Keyword::Temp,
        Keyword::Epair,
        Keyword::Emol,
        Keyword::Etotal,
        Keyword::Press,
    ]?;
    Ok(Seq::from_vec(columns))
}

/// The column of a keyword, if the word is one.
fn plain_column(word: &[u8]) -> Option<Keyword>
    ensures { result ≡ plain_column word.now }
{
    if is_same(word, b"step") {
        return Some(Keyword::Step);
    }
    if is_same(word, b"atoms") {
        return Some(Keyword::Atoms);
    }
    if is_same(word, b"dt") {
        return Some(Keyword::Dt);
    }
    if is_same(word, b"time") {
        return Some(Keyword::Time);
    }
    if is_same(word, b"temp") {
        return Some(Keyword::Temp);
    }
    if is_same(word, b"press") {
        return Some(Keyword::Press);
    }
    if is_same(word, b"pe") {
        return Some(Keyword::Pe);
    }
    if is_same(word, b"ke") {
        return Some(Keyword::Ke);
    }
    if is_same(word, b"etotal") {
        return Some(Keyword::Etotal);
    }
    if is_same(word, b"epair") {
        return Some(Keyword::Epair);
    }
    if is_same(word, b"emol") {
        return Some(Keyword::Emol);
    }
    if is_same(word, b"ebond") {
        return Some(Keyword::Ebond);
    }
    if is_same(word, b"eangle") {
        return Some(Keyword::Eangle);
    }
    if is_same(word, b"vol") {
        return Some(Keyword::Vol);
    }
    if is_same(word, b"lx") {
        return Some(Keyword::Lx);
    }
    if is_same(word, b"ly") {
        return Some(Keyword::Ly);
    }
    if is_same(word, b"lz") {
        return Some(Keyword::Lz);
    }
    None
}

/// Whether a word is a keyword.
fn is_same(word: &[u8], keyword: &[u8]) -> bool
    ensures { result ≡ bytes_eq keyword.now word.now }
{
    keyword == word
}

/// What stands behind the two bytes `c_`.
fn behind_prefix(word: &[u8]) -> &[u8]
    ensures { result.now ≡ drop 2 word.now }
{
    word.get(2..).unwrap_or(&[])
}

/// The keyword and the name of the column of a compute: `c_` and its id.
fn compute_text(alloc: Global, id: &Text) -> Result<Text, NoMemory>
    ensures { IfOk result (λ t. t ≡ codes "c_" ++ id.now) }
{
    let mut text = Text::from_bytes(alloc, b"c_")?;
    text.push(id.as_bytes())?;
    Ok(text)
}
