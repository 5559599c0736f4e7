//! The lines before the sections: the step, the counts, the bounds of the box.
ghost use Rattle.std.specs.Prelude.{◌≡◌, [], ◌∷◌, ◌++◌, OnOk};
ghost use Rattle.data_text.specs.DataText.{angle_counts, angle_types, atom_counts, bond_counts, bond_types, bonded_counts, box_lines, count_line, first_line, header_lines, is_molecular, line_text, lines_text, side_line};

use crate::words::{push_fixed, push_next_fixed, push_whole};
use box_geo::{Angle, Atom, AtomStyle, Bond, Extent, Sides};
use fx_num::{NoMemory, Text};

/// Whether the atoms of a style have molecules, and bonds are counted.
pub(crate) fn is_molecular(style: AtomStyle) -> bool
    ensures { result ≡ is_molecular style }
{
    match style {
        AtomStyle::Atomic => false,
        AtomStyle::Bond | AtomStyle::Angle | AtomStyle::Molecular => true,
    }
}

/// Appends the lines before the sections.
pub(crate) fn push_header(
    text: &mut Text,
    step: u64,
    sides: &Sides,
    masses: &[i64],
    atoms: &[Atom],
    bonds: &[Bond],
    angles: &[Angle],
    style: AtomStyle,
) -> Result<(), NoMemory>
    ensures { OnOk result (text.new ≡ text.old ++ lines_text
        (header_lines step sides.now masses.now atoms.now bonds.now angles.now style)) }
{
    push_first(text, step)?;
    text.push(b"\n")?;
    push_atom_counts(text, masses, atoms)?;
    push_bonded_counts(text, bonds, angles, style)?;
    push_box(text, sides)?;
    Ok(())
}

/// Appends the line that names the step.
#[tactic(auto, unfolding(crate::specs::DataText::first_line))]
fn push_first(text: &mut Text, step: u64) -> Result<(), NoMemory>
    ensures { OnOk result (text.new ≡ text.old ++ line_text (first_line step)) }
{
    text.push(b"LAMMPS data file by fxlmp at step ")?;
    push_whole(text, step)?;
    text.push(b"\n")
}

/// Appends the line of a count, and of what it counts.
#[tactic(auto, unfolding(crate::specs::DataText::count_line))]
fn push_count(text: &mut Text, count: u64, name: &[u8]) -> Result<(), NoMemory>
    ensures { OnOk result (text.new ≡ text.old ++ line_text (count_line count name.now)) }
{
    push_whole(text, count)?;
    text.push(b" ")?;
    text.push(name)?;
    text.push(b"\n")
}

/// Appends the counts of atoms and of atom types.
fn push_atom_counts(text: &mut Text, masses: &[i64], atoms: &[Atom]) -> Result<(), NoMemory>
    ensures { OnOk result (text.new ≡ text.old ++ lines_text (atom_counts masses.now atoms.now)) }
{
    push_count(text, atoms.len() as u64, b"atoms")?;
    push_count(text, masses.len() as u64, b"atom types")
}

/// Appends the counts of bonds and angles, where the style has them.
#[tactic(auto, unfolding(crate::specs::DataText::bonded_counts))]
fn push_bonded_counts(
    text: &mut Text,
    bonds: &[Bond],
    angles: &[Angle],
    style: AtomStyle,
) -> Result<(), NoMemory>
    ensures { OnOk result (text.new
        ≡ text.old ++ lines_text (bonded_counts style bonds.now angles.now)) }
{
    if !is_molecular(style) {
        return Ok(());
    }
    push_bond_counts(text, bonds)?;
    push_angle_counts(text, angles)
}

/// Appends the counts of bonds and of bond types.
#[tactic(auto, unfolding(crate::specs::DataText::bond_counts))]
fn push_bond_counts(text: &mut Text, bonds: &[Bond]) -> Result<(), NoMemory>
    ensures { OnOk result (text.new ≡ text.old ++ lines_text (bond_counts bonds.now)) }
{
    push_count(text, bonds.len() as u64, b"bonds")?;
    push_count(text, u64::from(bond_types(bonds)), b"bond types")
}

/// Appends the counts of angles and of angle types.
#[tactic(auto, unfolding(crate::specs::DataText::angle_counts))]
fn push_angle_counts(text: &mut Text, angles: &[Angle]) -> Result<(), NoMemory>
    ensures { OnOk result (text.new ≡ text.old ++ lines_text (angle_counts angles.now)) }
{
    push_count(text, angles.len() as u64, b"angles")?;
    push_count(text, u64::from(angle_types(angles)), b"angle types")
}

/// The greatest type of bonds, 0 without any.
#[tactic(auto, unfolding(crate::specs::DataText::bond_types))]
fn bond_types(bonds: &[Bond]) -> u8
    ensures { result ≡ bond_types bonds.now }
{
    let mut most = 0;
    for bond in bonds {
        most = most.max(bond.kind);
    }
    most
}

/// The greatest type of angles, 0 without any.
#[tactic(auto, unfolding(crate::specs::DataText::angle_types))]
fn angle_types(angles: &[Angle]) -> u8
    ensures { result ≡ angle_types angles.now }
{
    let mut most = 0;
    for angle in angles {
        most = most.max(angle.kind);
    }
    most
}

/// Appends an empty line and the bounds of the box.
#[tactic(auto, unfolding(crate::specs::DataText::box_lines))]
fn push_box(text: &mut Text, sides: &Sides) -> Result<(), NoMemory>
    ensures { OnOk result (text.new ≡ text.old ++ lines_text ([] ∷ box_lines sides.now)) }
{
    text.push(b"\n")?;
    push_side(text, &sides.x, b"xlo xhi")?;
    push_side(text, &sides.y, b"ylo yhi")?;
    push_side(text, &sides.z, b"zlo zhi")
}

/// Appends the line of an axis: its bounds, and their names.
#[tactic(auto, unfolding(crate::specs::DataText::side_line))]
fn push_side(text: &mut Text, extent: &Extent, names: &[u8]) -> Result<(), NoMemory>
    ensures { OnOk result (text.new ≡ text.old ++ line_text (side_line extent.now names.now)) }
{
    push_fixed(text, extent.lo)?;
    push_next_fixed(text, extent.hi)?;
    text.push(b" ")?;
    text.push(names)?;
    text.push(b"\n")
}
