//! A whole data file.
ghost use Rattle.std.specs.Prelude.{◌≡◌, IfOk};
ghost use Rattle.data_text.specs.DataText.{data_text};

use crate::header::push_header;
use crate::sections::{push_angles, push_atoms, push_bonds, push_masses, push_velocities};
use box_geo::{Angle, Atom, AtomStyle, Bond, Sides};
use fx_num::{NoMemory, Text};
use std::alloc::Global;

/// A data file as one text: the step, the counts, the box, then the masses, the atoms with their
/// image counts, the velocities, the bonds and the angles.
///
/// `masses` has the mass of each atom type, in units, 0 where it is not set; masses are written where
/// all are set. `atoms` are in rising order of id, and have molecules in every style but atomic. The
/// types of bonds and angles that are counted are the greatest ones that occur. Nothing is copied, and
/// the time is that of going through each list twice at most.
///
/// # Errors
///
/// [`NoMemory`] where memory is refused.
pub fn write_data(
    alloc: Global,
    step: u64,
    sides: &Sides,
    masses: &[i64],
    atoms: &[Atom],
    bonds: &[Bond],
    angles: &[Angle],
    style: AtomStyle,
) -> Result<Text, NoMemory>
    ensures { IfOk result (λ text.
        text ≡ data_text step sides.now masses.now atoms.now bonds.now angles.now style) }
{
    let mut text = Text::new(alloc);
    push_header(&mut text, step, sides, masses, atoms, bonds, angles, style)?;
    push_masses(&mut text, masses)?;
    push_atoms(&mut text, atoms, style)?;
    push_velocities(&mut text, atoms)?;
    push_bonds(&mut text, bonds)?;
    push_angles(&mut text, angles)?;
    Ok(text)
}
