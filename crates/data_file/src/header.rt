//! The header of a data file.
ghost use Rattle.std.specs.Prelude.{◌≡◌, ◌≤◌, is_some, Some, None, IfOk, MatchOption};
ghost use Rattle.box_geo.specs.Sides.{extent_of, extent_refusal};
ghost use Rattle.data_file.specs.Header.{empty, extra_line, fixed_line, header_line, is_complete, number_line, side_line, side_with, sides_of, Makes};
ghost use Rattle.data_file.specs.Words.{words_of};

use crate::fault::DataFault;
use crate::fields::{both, decimal_field, whole_field};
use crate::keywords::{Keyword, keyword_of};
use crate::side::Side;
use crate::words::{count_words, word_at};
use box_geo::limits::{MAX_ATOMS, MAX_BONDS, MAX_BOUND, MAX_KINDS};
use box_geo::{Axis, Extent, Sides, SimBox};

/// What the header lines so far say. A number is there where its line was.
#[derive(Drop)]
pub(crate) struct Header {
    pub(crate) atoms: Option<u32>,
    pub(crate) bonds: Option<u32>,
    pub(crate) angles: Option<u32>,
    pub(crate) atom_types: Option<u8>,
    pub(crate) bond_types: Option<u8>,
    pub(crate) angle_types: Option<u8>,
    pub(crate) x: Option<Side>,
    pub(crate) y: Option<Side>,
    pub(crate) z: Option<Side>,
    pub(crate) dihedrals: bool,
    pub(crate) impropers: bool,
    pub(crate) dihedral_types: bool,
    pub(crate) improper_types: bool,
    pub(crate) extra_bond: bool,
    pub(crate) extra_angle: bool,
    pub(crate) extra_special: bool,
}

/// A number with so many words on its line, which is given at most once.
#[tactic(auto, unfolding(crate::specs::Header::number_line))]
fn number_line(
    line: &[u8],
    count: usize,
    given: bool,
    low: u64,
    high: u64,
) -> Result<u64, DataFault>
    ensures is { result ≡ number_line count given low high (words_of line.now) }
    ensures within { IfOk result (λ n. n ≤ high) }
{
    if count_words(line) != count {
        return Err(DataFault::Count);
    }
    let number = whole_field(word_at(line, 0), low, high)?;
    if given {
        return Err(DataFault::Twice);
    }
    Ok(number)
}

/// A number of atoms, bonds or angles.
fn count_line(line: &[u8], given: Option<u32>, high: u32) -> Result<u32, DataFault>
    ensures { result ≡ number_line 2 (is_some given) 0 high (words_of line.now) }
{
    Ok(number_line(line, 2, given.is_some(), 0, u64::from(high))? as u32)
}

/// A number of types.
fn types_line(line: &[u8], given: Option<u8>, low: u64) -> Result<u8, DataFault>
    ensures { result ≡ number_line 3 (is_some given) low MAX_KINDS (words_of line.now) }
{
    Ok(number_line(line, 3, given.is_some(), low, u64::from(MAX_KINDS))? as u8)
}

/// The extent of two bounds along an axis.
fn extent_of(axis: Axis, bounds: (i64, i64), periodic: bool) -> Result<Side, DataFault>
    ensures { result ≡ side_with (extent_refusal axis bounds.0 bounds.1) (extent_of bounds.0 bounds.1 periodic) }
{
    match Extent::new(axis, bounds.0, bounds.1, periodic) {
        Ok(extent) => Ok(Side::of(extent)),
        Err(_) => Err(DataFault::Limit),
    }
}

/// The bounds of an axis.
#[tactic(auto, unfolding(crate::specs::Header::side_line))]
fn side_line(line: &[u8], axis: Axis, given: bool, periodic: bool) -> Result<Side, DataFault>
    ensures { result ≡ side_line axis given periodic (words_of line.now) }
{
    if count_words(line) != 4 {
        return Err(DataFault::Count);
    }
    let low = decimal_field(word_at(line, 0), -MAX_BOUND, MAX_BOUND);
    let high = decimal_field(word_at(line, 1), -MAX_BOUND, MAX_BOUND);
    let side = extent_of(axis, both(low, high)?, periodic)?;
    if given {
        return Err(DataFault::Twice);
    }
    Ok(side)
}

/// A line of fixed words, which is given at most once.
#[tactic(auto, unfolding(crate::specs::Header::fixed_line))]
fn fixed_line(line: &[u8], count: usize, given: bool) -> Result<bool, DataFault>
    ensures { result ≡ fixed_line count given (words_of line.now) }
{
    if count_words(line) != count {
        return Err(DataFault::Count);
    }
    if given {
        return Err(DataFault::Twice);
    }
    Ok(true)
}

/// A line of a whole number without effect, which is given at most once.
fn extra_line(line: &[u8], given: bool) -> Result<u64, DataFault>
    ensures { result ≡ extra_line given (words_of line.now) }
{
    number_line(line, 5, given, 0, u64::MAX)
}

impl Header {
    /// Nothing is said.
    pub(crate) fn empty() -> Header
        ensures { result ≡ empty }
    {
        Header {
            atoms: None,
            bonds: None,
            angles: None,
            atom_types: None,
            bond_types: None,
            angle_types: None,
            x: None,
            y: None,
            z: None,
            dihedrals: false,
            impropers: false,
            dihedral_types: false,
            improper_types: false,
            extra_bond: false,
            extra_angle: false,
            extra_special: false,
        }
    }

    /// Takes a header line of a box that is periodic along these axes. A refusal says nothing of what
    /// stands then.
    #[tactic(auto, unfolding(crate::specs::Header::header_line))]
    pub(crate) fn take(&mut self, line: &[u8], periodic: &[bool; 3]) -> Result<(), DataFault>
        ensures { Makes (header_line periodic.now self.old (words_of line.now)) result self.new }
    {
        let Some(keyword) = keyword_of(line) else {
            return Err(DataFault::NotALine);
        };
        match keyword {
            Keyword::Atoms => self.atoms = Some(count_line(line, self.atoms, MAX_ATOMS)?),
            Keyword::Bonds => self.bonds = Some(count_line(line, self.bonds, MAX_BONDS)?),
            Keyword::Angles => self.angles = Some(count_line(line, self.angles, MAX_BONDS)?),
            Keyword::AtomTypes => self.atom_types = Some(types_line(line, self.atom_types, 1)?),
            Keyword::BondTypes => self.bond_types = Some(types_line(line, self.bond_types, 0)?),
            Keyword::AngleTypes => self.angle_types = Some(types_line(line, self.angle_types, 0)?),
            Keyword::SideX => self.x = Some(side_line(
                line,
                Axis::X,
                self.x.is_some(),
                periodic[0],
            )?),
            Keyword::SideY => self.y = Some(side_line(
                line,
                Axis::Y,
                self.y.is_some(),
                periodic[1],
            )?),
            Keyword::SideZ => self.z = Some(side_line(
                line,
                Axis::Z,
                self.z.is_some(),
                periodic[2],
            )?),
            Keyword::Dihedrals => self.dihedrals = fixed_line(line, 2, self.dihedrals)?,
            Keyword::Impropers => self.impropers = fixed_line(line, 2, self.impropers)?,
            Keyword::DihedralTypes => {
                self.dihedral_types = fixed_line(line, 3, self.dihedral_types)?;
            }
            Keyword::ImproperTypes => {
                self.improper_types = fixed_line(line, 3, self.improper_types)?;
            }
            Keyword::ExtraBond => {
                let _ = extra_line(line, self.extra_bond)?;
                self.extra_bond = true;
            }
            Keyword::ExtraAngle => {
                let _ = extra_line(line, self.extra_angle)?;
                self.extra_angle = true;
            }
            Keyword::ExtraSpecial => {
                let _ = extra_line(line, self.extra_special)?;
                self.extra_special = true;
            }
        }
        Ok(())
    }

    /// Whether the lines that are needed are there.
    pub(crate) fn is_complete(&self) -> bool
        ensures { result ≡ is_complete self.now }
    {
        self.x.is_some() && self.y.is_some() && self.z.is_some() && self.atom_types.is_some()
    }

    /// The box, where its sides are there.
    #[tactic(auto, unfolding(crate::specs::Header::sides_of))]
    pub(crate) fn cell(&self, dim: u8) -> Option<SimBox>
        requires { (2 ≤ dim) × (dim ≤ 3) }
        ensures { MatchOption result (sides_of dim self.now ≡ None) (λ cell. sides_of dim self.now ≡ Some cell.sides) }
    {
        let (Some(x), Some(y), Some(z)) = (&self.x, &self.y, &self.z) else {
            return None;
        };
        Some(SimBox::from_sides(Sides {
            x: x.extent(),
            y: y.extent(),
            z: z.extent(),
            dim,
        }))
    }
}
