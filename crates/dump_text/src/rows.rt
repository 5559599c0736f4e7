//! Rows of words that are parted by a space.
ghost use Rattle.std.specs.Prelude.{◌≡◌, ◌++◌, map, All, OnOk};
ghost use Rattle.std.specs.List.{join_with_byte};
ghost use Rattle.box_geo.specs.Ids.{Rises};
ghost use Rattle.box_geo.specs.Sides.{IsInside};
ghost use Rattle.dump_text.specs.Columns.{keyword_of};
ghost use Rattle.dump_text.specs.Frame.{HasKind, ids_of, line_text, members, row_text, rows_text, separator_at};
ghost use Rattle.dump_text.specs.Walk.{begins_with, one_if};

use crate::cells::push_cell;
use crate::columns::Column;
use crate::members::{begins_with, ids_from};
use box_geo::{Atom, SimBox};
use fx_num::{NoMemory, Text};

/// Appends the space that parts the word at a place, counted from 0, from the one before it.
pub(crate) fn push_separator(text: &mut Text, place: usize) -> Result<(), NoMemory>
    ensures { OnOk result (text.new ≡ text.old ++ separator_at place) }
{
    if place == 0 {
        return Ok(());
    }
    text.push(b" ")
}

/// Appends the keywords of columns, parted by a space.
pub(crate) fn push_keywords(text: &mut Text, columns: &[Column]) -> Result<(), NoMemory>
    ensures { OnOk result (text.new ≡ text.old ++ join_with_byte 32 (map keyword_of columns.now)) }
{
    for (place, column) in columns.iter().enumerate() {
        push_separator(text, place)?;
        text.push(column.keyword())?;
    }
    Ok(())
}

/// Appends the words of an atom's row, parted by a space.
fn push_cells(
    text: &mut Text,
    cell: &SimBox,
    masses: &[i64],
    columns: &[Column],
    atom: &Atom,
) -> Result<(), NoMemory>
    requires inside { IsInside cell.now.sides atom.now.x }
    requires kind { HasKind masses.now atom.now }
    ensures { OnOk result (text.new
        ≡ text.old ++ row_text cell.now.sides masses.now columns.now atom.now) }
{
    for (place, column) in columns.iter().enumerate() {
        push_separator(text, place)?;
        push_cell(text, cell, masses, atom, *column)?;
    }
    Ok(())
}

/// Appends an atom's row, with its line feed.
fn push_row(
    text: &mut Text,
    cell: &SimBox,
    masses: &[i64],
    columns: &[Column],
    atom: &Atom,
) -> Result<(), NoMemory>
    requires inside { IsInside cell.now.sides atom.now.x }
    requires kind { HasKind masses.now atom.now }
    ensures { OnOk result (text.new
        ≡ text.old ++ line_text (row_text cell.now.sides masses.now columns.now atom.now)) }
{
    push_cells(text, cell, masses, columns, atom)?;
    text.push(b"\n")
}

/// Appends an atom's row, if its id is the first of a list.
#[tactic(auto, unfolding(crate::specs::Frame::rows_text))]
fn push_member(
    text: &mut Text,
    cell: &SimBox,
    masses: &[i64],
    columns: &[Column],
    atom: &Atom,
    ids: &[u32],
) -> Result<(), NoMemory>
    requires inside { IsInside cell.now.sides atom.now.x }
    requires kind { HasKind masses.now atom.now }
    ensures { OnOk result (text.new ≡ text.old
        ++ rows_text cell.now.sides masses.now columns.now (one_if (begins_with ids.now atom.now.id) atom.now)) }
{
    if !begins_with(ids, atom.id) {
        return Ok(());
    }
    push_row(text, cell, masses, columns, atom)
}

/// Appends the rows of the atoms of a group, by the rising ids of its members.
pub(crate) fn push_rows(
    text: &mut Text,
    cell: &SimBox,
    masses: &[i64],
    columns: &[Column],
    atoms: &[Atom],
    ids: &[u32],
) -> Result<(), NoMemory>
    requires rising_atoms { Rises (ids_of atoms.now) }
    requires rising_ids { Rises ids.now }
    requires inside { All (λ a. IsInside cell.now.sides a.x) atoms.now }
    requires kinds { All (HasKind masses.now) atoms.now }
    ensures { OnOk result (text.new ≡ text.old
        ++ rows_text cell.now.sides masses.now columns.now (members ids.now atoms.now)) }
{
    let mut rest = ids;
    for atom in atoms {
        rest = ids_from(rest, atom.id);
        push_member(text, cell, masses, columns, atom, rest)?;
    }
    Ok(())
}
