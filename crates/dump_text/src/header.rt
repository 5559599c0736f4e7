//! The lines of a frame before its rows: the step, the number of atoms, the box, the columns.
ghost use Rattle.std.specs.Prelude.{◌≡◌, ◌++◌, OnOk};
ghost use Rattle.dump_text.specs.Frame.{boundary_text, bounds_text, boundaries_text, box_lines, columns_text, count_lines, header_text, line_text, lines_text};

use crate::cells::{push_fixed, push_whole};
use crate::columns::Column;
use crate::rows::push_keywords;
use box_geo::{Extent, Sides, SimBox};
use fx_num::{NoMemory, Text};

/// Appends the lines before the rows.
pub(crate) fn push_header(
    text: &mut Text,
    step: u64,
    count: u64,
    cell: &SimBox,
    columns: &[Column],
) -> Result<(), NoMemory>
    ensures { OnOk result (text.new
        ≡ text.old ++ header_text step count cell.now.sides columns.now) }
{
    push_counts(text, step, count)?;
    push_box(text, &cell.sides)?;
    push_columns(text, columns)?;
    Ok(())
}

/// Appends the lines of the step and of the number of atoms.
fn push_counts(text: &mut Text, step: u64, count: u64) -> Result<(), NoMemory>
    ensures { OnOk result (text.new ≡ text.old ++ lines_text (count_lines step count)) }
{
    text.push(b"ITEM: TIMESTEP\n")?;
    push_whole(text, step)?;
    text.push(b"\nITEM: NUMBER OF ATOMS\n")?;
    push_whole(text, count)?;
    text.push(b"\n")?;
    Ok(())
}

/// Appends the lines of the box.
fn push_box(text: &mut Text, sides: &Sides) -> Result<(), NoMemory>
    ensures { OnOk result (text.new ≡ text.old ++ lines_text (box_lines sides.now)) }
{
    push_boundaries(text, sides)?;
    push_bounds(text, &sides.x)?;
    push_bounds(text, &sides.y)?;
    push_bounds(text, &sides.z)
}

/// Appends the line that tells which axes are periodic.
fn push_boundaries(text: &mut Text, sides: &Sides) -> Result<(), NoMemory>
    ensures { OnOk result (text.new ≡ text.old ++ line_text (boundaries_text sides.now)) }
{
    text.push(b"ITEM: BOX BOUNDS ")?;
    text.push(boundary(&sides.x))?;
    text.push(b" ")?;
    text.push(boundary(&sides.y))?;
    text.push(b" ")?;
    text.push(boundary(&sides.z))?;
    text.push(b"\n")?;
    Ok(())
}

/// What the two bounds of an axis are: periodic or fixed.
fn boundary(extent: &Extent) -> &'static [u8]
    ensures { result.now ≡ boundary_text extent.now }
{
    if extent.periodic { b"pp" } else { b"ff" }
}

/// Appends the line of an axis: its bounds.
#[tactic(auto, unfolding(crate::specs::Frame::bounds_text))]
fn push_bounds(text: &mut Text, extent: &Extent) -> Result<(), NoMemory>
    ensures { OnOk result (text.new ≡ text.old ++ line_text (bounds_text extent.now)) }
{
    push_fixed(text, extent.lo)?;
    text.push(b" ")?;
    push_fixed(text, extent.hi)?;
    text.push(b"\n")?;
    Ok(())
}

/// Appends the line that names the columns.
fn push_columns(text: &mut Text, columns: &[Column]) -> Result<(), NoMemory>
    ensures { OnOk result (text.new ≡ text.old ++ line_text (columns_text columns.now)) }
{
    text.push(b"ITEM: ATOMS ")?;
    push_keywords(text, columns)?;
    text.push(b"\n")?;
    Ok(())
}
