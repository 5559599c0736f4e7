//! The sections of a data file, and their titles.
ghost use Rattle.std.specs.Prelude.{◌≡◌};
ghost use Rattle.data_file.specs.Sections.{begin, none_begun, coeffs_title, comes_after_atoms, has_begun, has_style, section_of, single_title};
ghost use Rattle.data_file.specs.Words.{words_of};

use crate::words::{count_words, is_word};
use box_geo::AtomStyle;

/// A section.
#[derive(Clone, Copy, Debug)]
pub(crate) enum Section {
    Masses,
    PairCoeffs,
    BondCoeffs,
    AngleCoeffs,
    Atoms,
    Velocities,
    Bonds,
    Angles,
}

/// Which sections have begun.
#[derive(Clone, Copy)]
pub(crate) struct Begun {
    pub(crate) masses: bool,
    pub(crate) pair_coeffs: bool,
    pub(crate) bond_coeffs: bool,
    pub(crate) angle_coeffs: bool,
    pub(crate) atoms: bool,
    pub(crate) velocities: bool,
    pub(crate) bonds: bool,
    pub(crate) angles: bool,
}

/// The section whose title is the one word of a line.
fn single_title(line: &[u8]) -> Option<Section>
    ensures { result ≡ single_title (words_of line.now) }
{
    if is_word(line, 0, b"Masses") {
        Some(Section::Masses)
    } else if is_word(line, 0, b"Atoms") {
        Some(Section::Atoms)
    } else if is_word(line, 0, b"Velocities") {
        Some(Section::Velocities)
    } else if is_word(line, 0, b"Bonds") {
        Some(Section::Bonds)
    } else if is_word(line, 0, b"Angles") {
        Some(Section::Angles)
    } else {
        None
    }
}

/// The section of coefficients whose title begins with the first word of a line.
fn coeffs_title(line: &[u8]) -> Option<Section>
    ensures { result ≡ coeffs_title (words_of line.now) }
{
    if is_word(line, 0, b"Pair") {
        Some(Section::PairCoeffs)
    } else if is_word(line, 0, b"Bond") {
        Some(Section::BondCoeffs)
    } else if is_word(line, 0, b"Angle") {
        Some(Section::AngleCoeffs)
    } else {
        None
    }
}

/// The section whose title a line is, if it is one.
#[tactic(auto, unfolding(crate::specs::Sections::section_of))]
pub(crate) fn section_of(line: &[u8]) -> Option<Section>
    ensures { result ≡ section_of (words_of line.now) }
{
    let count = count_words(line);
    if count == 1 {
        single_title(line)
    } else if count == 2 && is_word(line, 1, b"Coeffs") {
        coeffs_title(line)
    } else {
        None
    }
}

/// Whether atoms of a style may have the rows of a section.
pub(crate) fn has_style(section: Section, style: AtomStyle) -> bool
    ensures { result ≡ has_style section style }
{
    match section {
        Section::Bonds => !matches!(style, AtomStyle::Atomic),
        Section::Angles => matches!(style, AtomStyle::Angle | AtomStyle::Molecular),
        _ => true,
    }
}

/// Whether a section comes after that of the atoms.
pub(crate) fn comes_after_atoms(section: Section) -> bool
    ensures { result ≡ comes_after_atoms section }
{
    matches!(
        section,
        Section::Velocities | Section::Bonds | Section::Angles
    )
}

impl Begun {
    /// No section has.
    pub(crate) fn none() -> Begun
        ensures { result ≡ none_begun }
    {
        Begun {
            masses: false,
            pair_coeffs: false,
            bond_coeffs: false,
            angle_coeffs: false,
            atoms: false,
            velocities: false,
            bonds: false,
            angles: false,
        }
    }

    /// Whether a section has.
    pub(crate) fn has(&self, section: Section) -> bool
        ensures { result ≡ has_begun section self.now }
    {
        match section {
            Section::Masses => self.masses,
            Section::PairCoeffs => self.pair_coeffs,
            Section::BondCoeffs => self.bond_coeffs,
            Section::AngleCoeffs => self.angle_coeffs,
            Section::Atoms => self.atoms,
            Section::Velocities => self.velocities,
            Section::Bonds => self.bonds,
            Section::Angles => self.angles,
        }
    }

    /// Notes that a section begins.
    pub(crate) fn begin(&mut self, section: Section)
        ensures { self.new ≡ begin section self.old }
    {
        match section {
            Section::Masses => self.masses = true,
            Section::PairCoeffs => self.pair_coeffs = true,
            Section::BondCoeffs => self.bond_coeffs = true,
            Section::AngleCoeffs => self.angle_coeffs = true,
            Section::Atoms => self.atoms = true,
            Section::Velocities => self.velocities = true,
            Section::Bonds => self.bonds = true,
            Section::Angles => self.angles = true,
        }
    }
}
