//! Sections: each an empty line, its title, an empty line, its rows; none without rows.
ghost use Rattle.std.specs.Prelude.{◌≡◌, [], ◌∷◌, ◌++◌, codes, map, OnOk};
ghost use Rattle.std.specs.List.{enumerate_from};
ghost use Rattle.data_text.specs.DataText.{angle_lines, are_set, atom_lines, bond_lines, lines_text, mass_lines, mass_row, section_lines, style_text, velocity_lines};

use crate::rows::{
    push_angle_rows, push_atom_rows, push_bond_rows, push_mass_rows, push_velocity_rows,
};
use box_geo::{Angle, Atom, AtomStyle, Bond};
use fx_num::{NoMemory, Text};

/// Appends the lines of a title.
fn push_title(text: &mut Text, title: &[u8]) -> Result<(), NoMemory>
    ensures { OnOk result (text.new ≡ text.old ++ lines_text ([] ∷ title.now ∷ [] ∷ [])) }
{
    text.push(b"\n")?;
    text.push(title)?;
    text.push(b"\n\n")
}

/// Whether each type has a mass.
fn are_set(masses: &[i64]) -> bool
    ensures { result ≡ are_set masses.now }
{
    masses.iter().all(|mass| *mass > 0)
}

/// Appends the masses, where all are set.
pub(crate) fn push_masses(text: &mut Text, masses: &[i64]) -> Result<(), NoMemory>
    ensures { OnOk result (text.new ≡ text.old ++ lines_text (mass_lines masses.now)) }
{
    if !are_set(masses) {
        return Ok(());
    }
    push_set_masses(text, masses)?;
    Ok(())
}

/// Appends the masses.
fn push_set_masses(text: &mut Text, masses: &[i64]) -> Result<(), NoMemory>
    ensures { OnOk result (text.new ≡ text.old ++ lines_text
        (section_lines (codes "Masses") (map mass_row (enumerate_from 1 masses.now)))) }
{
    if masses.is_empty() {
        return Ok(());
    }
    push_title(text, b"Masses")?;
    push_mass_rows(text, masses)?;
    Ok(())
}

/// The title of the atoms, which names the style.
fn atoms_title(style: AtomStyle) -> &'static [u8]
    ensures { result.now ≡ codes "Atoms # " ++ style_text style }
{
    match style {
        AtomStyle::Atomic => b"Atoms # atomic",
        AtomStyle::Bond => b"Atoms # bond",
        AtomStyle::Angle => b"Atoms # angle",
        AtomStyle::Molecular => b"Atoms # molecular",
    }
}

/// Appends the atoms.
pub(crate) fn push_atoms(text: &mut Text, atoms: &[Atom], style: AtomStyle) -> Result<(), NoMemory>
    ensures { OnOk result (text.new ≡ text.old ++ lines_text (atom_lines style atoms.now)) }
{
    if atoms.is_empty() {
        return Ok(());
    }
    push_title(text, atoms_title(style))?;
    push_atom_rows(text, atoms, style)?;
    Ok(())
}

/// Appends the velocities.
pub(crate) fn push_velocities(text: &mut Text, atoms: &[Atom]) -> Result<(), NoMemory>
    ensures { OnOk result (text.new ≡ text.old ++ lines_text (velocity_lines atoms.now)) }
{
    if atoms.is_empty() {
        return Ok(());
    }
    push_title(text, b"Velocities")?;
    push_velocity_rows(text, atoms)?;
    Ok(())
}

/// Appends the bonds.
pub(crate) fn push_bonds(text: &mut Text, bonds: &[Bond]) -> Result<(), NoMemory>
    ensures { OnOk result (text.new ≡ text.old ++ lines_text (bond_lines bonds.now)) }
{
    if bonds.is_empty() {
        return Ok(());
    }
    push_title(text, b"Bonds")?;
    push_bond_rows(text, bonds)?;
    Ok(())
}

/// Appends the angles.
pub(crate) fn push_angles(text: &mut Text, angles: &[Angle]) -> Result<(), NoMemory>
    ensures { OnOk result (text.new ≡ text.old ++ lines_text (angle_lines angles.now)) }
{
    if angles.is_empty() {
        return Ok(());
    }
    push_title(text, b"Angles")?;
    push_angle_rows(text, angles)?;
    Ok(())
}
