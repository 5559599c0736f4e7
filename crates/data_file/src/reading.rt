//! What is read so far of a data file, and what a line more does to it.
ghost use Rattle.std.specs.Prelude.{◌≡◌, ◌+◌, ◌<◌};
ghost use Rattle.data_file.specs.declared.sections.Section.{Section};
ghost use Rattle.data_file.specs.declared.sections.Section.TheVariants as section;
ghost use Rattle.data_file.specs.Data.{is_full, is_ready, judge, row, start, titled, within, Takes};
ghost use Rattle.data_file.specs.Header.{given_or_zero, Makes};
ghost use Rattle.data_file.specs.Rows.{number_of};
ghost use Rattle.data_file.specs.Sections.{rows_of};
ghost use Rattle.data_file.specs.Words.{words_of};

use crate::atom_rows::{atom_row, velocity_row};
use crate::bond_rows::{angle_row, bond_row, number_of};
use crate::contents::{AngleLine, BondLine, PairLine};
use crate::fault::{DataFault, Stop};
use crate::header::Header;
use crate::rows::{angle_line_row, bond_line_row, mass_row, pair_row};
use crate::sections::{Begun, Section, comes_after_atoms, has_style, section_of};
use crate::side::Dim;
use crate::tables::{ById, Keys};
use crate::words::count_words;
use box_geo::{Angles, Atom, AtomStyle, Bonds};
use fx_num::{Seq, V3};
use std::alloc::Global;

/// What is read so far of a data file.
#[derive(Drop)]
pub(crate) struct Reading {
    /// The style of the atoms, which axes are periodic, and the number of dimensions.
    pub(crate) style: AtomStyle,
    pub(crate) periodic: [bool; 3],
    pub(crate) dim: Dim,
    /// The header lines.
    pub(crate) header: Header,
    /// Which sections have begun, the one that is open, and the ids or types of its rows.
    pub(crate) begun: Begun,
    pub(crate) section: Option<Section>,
    pub(crate) met: Keys,
    /// The masses by type, and the lines of coefficients.
    pub(crate) masses: ById<i64>,
    pub(crate) pair: Seq<PairLine>,
    pub(crate) bond: Seq<BondLine>,
    pub(crate) angle: Seq<AngleLine>,
    /// The atoms and their velocities, by id.
    pub(crate) atoms: ById<Atom>,
    pub(crate) velocities: ById<V3>,
    /// The bonds and the angles, and how many of them each atom has.
    pub(crate) bonds: Bonds,
    pub(crate) bonds_of: ById<u32>,
    pub(crate) angles: Angles,
    pub(crate) angles_of: ById<u32>,
}

/// A number of types that the header gives, or 0.
fn kinds_of(given: Option<u8>) -> u8
    ensures { result ≡ given_or_zero given }
{
    given.unwrap_or(0)
}

/// A number of rows that the header gives, or 0.
fn rows_given(given: Option<u32>) -> usize
    ensures { result ≡ given_or_zero given }
{
    given.unwrap_or(0) as usize
}

/// How many rows a section has.
pub(crate) fn rows_of(section: Section, header: &Header) -> usize
    ensures { result ≡ rows_of section header.now }
{
    match section {
        Section::Masses | Section::PairCoeffs => kinds_of(header.atom_types) as usize,
        Section::BondCoeffs => kinds_of(header.bond_types) as usize,
        Section::AngleCoeffs => kinds_of(header.angle_types) as usize,
        Section::Atoms | Section::Velocities => rows_given(header.atoms),
        Section::Bonds => rows_given(header.bonds),
        Section::Angles => rows_given(header.angles),
    }
}

/// One bond or angle more than an atom has.
fn one_more(id: u32, numbers: &ById<u32>) -> u32
    requires { number_of id numbers.now < 1000 }
    ensures { result ≡ number_of id numbers.now + 1 }
{
    number_of(id, numbers) + 1
}

impl Reading {
    /// Nothing is read yet.
    pub(crate) fn new(alloc: Global, style: AtomStyle, periodic: [bool; 3], dim: Dim) -> Reading
        ensures { result ≡ start style periodic dim }
    {
        Reading {
            style,
            periodic,
            dim,
            header: Header::empty(),
            begun: Begun::none(),
            section: None,
            met: Keys::new(alloc),
            masses: ById::new(alloc),
            pair: Seq::new(alloc),
            bond: Seq::new(alloc),
            angle: Seq::new(alloc),
            atoms: ById::new(alloc),
            velocities: ById::new(alloc),
            bonds: Seq::new(alloc),
            bonds_of: ById::new(alloc),
            angles: Seq::new(alloc),
            angles_of: ById::new(alloc),
        }
    }

    /// Whether the section that is open has all its rows.
    pub(crate) fn is_full(&self) -> bool
        ensures { result ≡ is_full self.now.section self.now }
    {
        match self.section {
            None => true,
            Some(section) => self.met.len() == rows_of(section, &self.header),
        }
    }

    /// Whether what a title needs is there.
    fn is_ready(&self, section: Section) -> bool
        ensures { result ≡ is_ready section self.now }
    {
        let in_turn = !comes_after_atoms(section) || self.begun.atoms;
        self.header.is_complete() && self.is_full() && in_turn
    }

    /// Takes the title of a section.
    #[tactic(auto, unfolding(crate::specs::Data::titled))]
    fn take_title(&mut self, alloc: Global, section: Section) -> Result<(), DataFault>
        ensures { Makes (titled section self.old) result self.new }
    {
        if self.begun.has(section) {
            return Err(DataFault::Twice);
        }
        if !has_style(section, self.style) {
            return Err(DataFault::Style);
        }
        if !self.is_ready(section) {
            return Err(DataFault::Missing);
        }
        self.begun.begin(section);
        self.section = Some(section);
        self.met = Keys::new(alloc);
        Ok(())
    }

    /// Takes a row of the masses.
    fn take_mass(&mut self, line: &[u8]) -> Result<(), Stop>
        ensures { Takes (row section.Masses self.old (words_of line.now)) result self.new }
    {
        let (kind, mass) = mass_row(line, kinds_of(self.header.atom_types), &self.met)?;
        self.masses.put(u32::from(kind), mass)?;
        self.met.add(u32::from(kind))?;
        Ok(())
    }

    /// Takes a row of the coefficients of pairs.
    fn take_pair(&mut self, line: &[u8]) -> Result<(), Stop>
        ensures { Takes (row section.PairCoeffs self.old (words_of line.now)) result self.new }
    {
        let pair = pair_row(line, kinds_of(self.header.atom_types), &self.met)?;
        self.pair.push(pair)?;
        self.met.add(u32::from(pair.kind))?;
        Ok(())
    }

    /// Takes a row of the coefficients of bonds.
    fn take_bond_line(&mut self, line: &[u8]) -> Result<(), Stop>
        ensures { Takes (row section.BondCoeffs self.old (words_of line.now)) result self.new }
    {
        let bond = bond_line_row(line, kinds_of(self.header.bond_types), &self.met)?;
        self.bond.push(bond)?;
        self.met.add(u32::from(bond.kind))?;
        Ok(())
    }

    /// Takes a row of the coefficients of angles.
    fn take_angle_line(&mut self, line: &[u8]) -> Result<(), Stop>
        ensures { Takes (row section.AngleCoeffs self.old (words_of line.now)) result self.new }
    {
        let angle = angle_line_row(line, kinds_of(self.header.angle_types), &self.met)?;
        self.angle.push(angle)?;
        self.met.add(u32::from(angle.kind))?;
        Ok(())
    }

    /// Takes a row of the atoms.
    fn take_atom(&mut self, line: &[u8]) -> Result<(), Stop>
        ensures { Takes (row section.Atoms self.old (words_of line.now)) result self.new }
    {
        let Some(cell) = self.header.cell(self.dim.number()) else {
            return Err(Stop::Fault(DataFault::Missing));
        };
        let kinds = kinds_of(self.header.atom_types);
        let atom = atom_row(line, self.style, kinds, &cell, &self.met)?;
        self.atoms.put(atom.id, atom)?;
        self.met.add(atom.id)?;
        Ok(())
    }

    /// Takes a row of the velocities.
    fn take_velocity(&mut self, line: &[u8]) -> Result<(), Stop>
        ensures { Takes (row section.Velocities self.old (words_of line.now)) result self.new }
    {
        let (id, v) = velocity_row(line, &self.met, &self.atoms)?;
        self.velocities.put(id, v)?;
        self.met.add(id)?;
        Ok(())
    }

    /// Takes a row of the bonds.
    fn take_bond(&mut self, line: &[u8]) -> Result<(), Stop>
        ensures { Takes (row section.Bonds self.old (words_of line.now)) result self.new }
    {
        let kinds = kinds_of(self.header.bond_types);
        let (id, bond) = bond_row(line, kinds, &self.met, &self.atoms, &self.bonds_of)?;
        self.bonds.push(bond)?;
        let of_a = one_more(bond.a, &self.bonds_of);
        let of_b = one_more(bond.b, &self.bonds_of);
        self.bonds_of.put(bond.a, of_a)?;
        self.bonds_of.put(bond.b, of_b)?;
        self.met.add(id)?;
        Ok(())
    }

    /// Takes a row of the angles.
    fn take_angle(&mut self, line: &[u8]) -> Result<(), Stop>
        ensures { Takes (row section.Angles self.old (words_of line.now)) result self.new }
    {
        let kinds = kinds_of(self.header.angle_types);
        let (id, angle) = angle_row(line, kinds, &self.met, &self.atoms, &self.angles_of)?;
        self.angles.push(angle)?;
        let of_a = one_more(angle.a, &self.angles_of);
        let of_b = one_more(angle.b, &self.angles_of);
        let of_c = one_more(angle.c, &self.angles_of);
        self.angles_of.put(angle.a, of_a)?;
        self.angles_of.put(angle.b, of_b)?;
        self.angles_of.put(angle.c, of_c)?;
        self.met.add(id)?;
        Ok(())
    }

    /// Takes a row of a section.
    fn take_row(&mut self, section: Section, line: &[u8]) -> Result<(), Stop>
        ensures { Takes (row section self.old (words_of line.now)) result self.new }
    {
        match section {
            Section::Masses => self.take_mass(line),
            Section::PairCoeffs => self.take_pair(line),
            Section::BondCoeffs => self.take_bond_line(line),
            Section::AngleCoeffs => self.take_angle_line(line),
            Section::Atoms => self.take_atom(line),
            Section::Velocities => self.take_velocity(line),
            Section::Bonds => self.take_bond(line),
            Section::Angles => self.take_angle(line),
        }
    }

    /// Takes a line that is no title.
    fn take_within(&mut self, line: &[u8]) -> Result<(), Stop>
        ensures { Takes (within self.old.section self.old (words_of line.now)) result self.new }
    {
        let Some(section) = self.section else {
            self.header.take(line, &self.periodic)?;
            return Ok(());
        };
        if self.met.len() >= rows_of(section, &self.header) {
            return Err(Stop::Fault(DataFault::NotALine));
        }
        self.take_row(section, line)
    }

    /// Takes a line without its comment.
    ///
    /// # Errors
    ///
    /// `Fault` with what is wrong with it after the lines before it, and `NoMemory`. Then nothing is
    /// said of what stands.
    #[tactic(auto, unfolding(crate::specs::Data::judge))]
    pub(crate) fn take(&mut self, alloc: Global, line: &[u8]) -> Result<(), Stop>
        ensures { Takes (judge self.old (words_of line.now)) result self.new }
    {
        if count_words(line) == 0 {
            return Ok(());
        }
        match section_of(line) {
            None => self.take_within(line),
            Some(section) => {
                self.take_title(alloc, section)?;
                Ok(())
            }
        }
    }
}
