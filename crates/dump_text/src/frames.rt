//! A whole frame.
ghost use Rattle.std.specs.Prelude.{◌≡◌, All, IfOk};
ghost use Rattle.box_geo.specs.Ids.{Rises};
ghost use Rattle.box_geo.specs.Sides.{IsInside};
ghost use Rattle.dump_text.specs.Frame.{HasKind, frame_text, ids_of};

use crate::columns::DumpSpec;
use crate::header::push_header;
use crate::members::count_members;
use crate::rows::push_rows;
use box_geo::{Atom, SimBox};
use fx_num::{NoMemory, Text};
use std::alloc::Global;

/// A frame of a dump as one text: the step, how many atoms are of the group, the box, the columns,
/// then a row for each atom of the group, in order of id.
///
/// `masses` has the mass of each atom type, in units; `atoms` are all atoms of the system and `ids`
/// those of the group's members, both in strictly rising order of id. Ids, atom types, molecules and
/// image counts are whole numbers, all others have eight decimals. The time is that of going through
/// the atoms and the ids twice, and the atoms are not copied.
///
/// # Errors
///
/// [`NoMemory`] where memory is refused.
pub fn frame(
    alloc: Global,
    step: u64,
    cell: &SimBox,
    masses: &[i64],
    atoms: &[Atom],
    ids: &[u32],
    spec: &DumpSpec,
) -> Result<Text, NoMemory>
    requires rising_atoms { Rises (ids_of atoms.now) }
    requires rising_ids { Rises ids.now }
    requires inside { All (λ a. IsInside cell.now.sides a.x) atoms.now }
    requires kinds { All (HasKind masses.now) atoms.now }
    ensures { IfOk result (λ text.
        text ≡ frame_text step cell.now.sides masses.now atoms.now ids.now spec.now) }
{
    let columns = spec.as_slice();
    let count = count_members(atoms, ids);
    let mut text = Text::new(alloc);
    push_header(&mut text, step, count as u64, cell, columns)?;
    push_rows(&mut text, cell, masses, columns, atoms, ids)?;
    Ok(text)
}
