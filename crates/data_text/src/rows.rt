//! The rows of sections.
ghost use Rattle.std.specs.Prelude.{◌≡◌, ◌++◌, map, OnOk};
ghost use Rattle.std.specs.List.{enumerate_from};
ghost use Rattle.data_text.specs.DataText.{angle_row, atom_row, bond_row, line_text, lines_text, mass_row, molecule_words, spaced, velocity_row};

use crate::header::is_molecular;
use crate::words::{push_images, push_next_fixed, push_next_whole, push_vector, push_whole};
use box_geo::{Angle, Atom, AtomStyle, Bond};
use fx_num::{NoMemory, Text};

/// Appends the rows of masses: each type from 1 on, and its mass.
pub(crate) fn push_mass_rows(text: &mut Text, masses: &[i64]) -> Result<(), NoMemory>
    ensures { OnOk result (text.new
        ≡ text.old ++ lines_text (map mass_row (enumerate_from 1 masses.now))) }
{
    for (place, mass) in masses.iter().enumerate() {
        push_mass(text, place as u64 + 1, mass)?;
    }
    Ok(())
}

/// Appends the row of a mass.
#[tactic(auto, unfolding(crate::specs::DataText::mass_row))]
fn push_mass(text: &mut Text, kind: u64, mass: &i64) -> Result<(), NoMemory>
    ensures { OnOk result (text.new ≡ text.old ++ line_text (mass_row (kind, mass.now))) }
{
    push_whole(text, kind)?;
    push_next_fixed(text, *mass)?;
    text.push(b"\n")
}

/// Appends the rows of atoms.
pub(crate) fn push_atom_rows(
    text: &mut Text,
    atoms: &[Atom],
    style: AtomStyle,
) -> Result<(), NoMemory>
    ensures { OnOk result (text.new ≡ text.old ++ lines_text (map (atom_row style) atoms.now)) }
{
    for atom in atoms {
        push_atom(text, atom, style)?;
    }
    Ok(())
}

/// Appends the row of an atom.
fn push_atom(text: &mut Text, atom: &Atom, style: AtomStyle) -> Result<(), NoMemory>
    ensures { OnOk result (text.new ≡ text.old ++ line_text (atom_row style atom.now)) }
{
    push_whole(text, u64::from(atom.id))?;
    push_molecule(text, atom, style)?;
    push_next_whole(text, u64::from(atom.kind))?;
    push_vector(text, &atom.x)?;
    push_images(text, &atom.image)?;
    text.push(b"\n")?;
    Ok(())
}

/// Appends the molecule of an atom behind a space, where the style has molecules.
fn push_molecule(text: &mut Text, atom: &Atom, style: AtomStyle) -> Result<(), NoMemory>
    ensures { OnOk result (text.new ≡ text.old ++ spaced (molecule_words style atom.now)) }
{
    if !is_molecular(style) {
        return Ok(());
    }
    push_next_whole(text, u64::from(atom.mol))
}

/// Appends the rows of velocities.
pub(crate) fn push_velocity_rows(text: &mut Text, atoms: &[Atom]) -> Result<(), NoMemory>
    ensures { OnOk result (text.new ≡ text.old ++ lines_text (map velocity_row atoms.now)) }
{
    for atom in atoms {
        push_velocity(text, atom)?;
    }
    Ok(())
}

/// Appends the row of a velocity.
fn push_velocity(text: &mut Text, atom: &Atom) -> Result<(), NoMemory>
    ensures { OnOk result (text.new ≡ text.old ++ line_text (velocity_row atom.now)) }
{
    push_whole(text, u64::from(atom.id))?;
    push_vector(text, &atom.v)?;
    text.push(b"\n")?;
    Ok(())
}

/// Appends the rows of bonds, numbered from 1.
pub(crate) fn push_bond_rows(text: &mut Text, bonds: &[Bond]) -> Result<(), NoMemory>
    ensures { OnOk result (text.new
        ≡ text.old ++ lines_text (map bond_row (enumerate_from 1 bonds.now))) }
{
    for (place, bond) in bonds.iter().enumerate() {
        push_bond(text, place as u64 + 1, bond)?;
    }
    Ok(())
}

/// Appends the row of a bond.
#[tactic(auto, unfolding(crate::specs::DataText::bond_row))]
fn push_bond(text: &mut Text, number: u64, bond: &Bond) -> Result<(), NoMemory>
    ensures { OnOk result (text.new ≡ text.old ++ line_text (bond_row (number, bond.now))) }
{
    push_whole(text, number)?;
    push_next_whole(text, u64::from(bond.kind))?;
    push_next_whole(text, u64::from(bond.a))?;
    push_next_whole(text, u64::from(bond.b))?;
    text.push(b"\n")
}

/// Appends the rows of angles, numbered from 1.
pub(crate) fn push_angle_rows(text: &mut Text, angles: &[Angle]) -> Result<(), NoMemory>
    ensures { OnOk result (text.new
        ≡ text.old ++ lines_text (map angle_row (enumerate_from 1 angles.now))) }
{
    for (place, angle) in angles.iter().enumerate() {
        push_angle(text, place as u64 + 1, angle)?;
    }
    Ok(())
}

/// Appends the row of an angle, the centre in the middle.
#[tactic(auto, unfolding(crate::specs::DataText::angle_row))]
fn push_angle(text: &mut Text, number: u64, angle: &Angle) -> Result<(), NoMemory>
    ensures { OnOk result (text.new ≡ text.old ++ line_text (angle_row (number, angle.now))) }
{
    push_whole(text, number)?;
    push_next_whole(text, u64::from(angle.kind))?;
    push_next_whole(text, u64::from(angle.a))?;
    push_next_whole(text, u64::from(angle.b))?;
    push_next_whole(text, u64::from(angle.c))?;
    text.push(b"\n")
}
