//! The words of a row: whole numbers, fixed numbers with eight decimals, parts of an edge.
ghost use Rattle.std.specs.Prelude.{◌≡◌, ◌++◌, decimal, OnOk};
ghost use Rattle.std.specs.Fmt.{signed_decimal};
ghost use Rattle.fx_num.specs.Print.{fix_text};
ghost use Rattle.box_geo.specs.Sides.{Holds, IsInside, IsSoundExtent};
ghost use Rattle.computes.specs.Quantities.{mass_at};
ghost use Rattle.dump_text.specs.Frame.{HasKind, cell_text, scaled_along};

use crate::columns::Column;
use arrayvec::ArrayString;
use box_geo::{Atom, Extent, SimBox};
use fx_num::{NoMemory, Text, print_fix, print_scaled};
use itoa::Buffer;

/// Appends the word of a column in an atom's row.
pub(crate) fn push_cell(
    text: &mut Text,
    cell: &SimBox,
    masses: &[i64],
    atom: &Atom,
    column: Column,
) -> Result<(), NoMemory>
    requires inside { IsInside cell.now.sides atom.now.x }
    requires kind { HasKind masses.now atom.now }
    ensures { OnOk result (text.new
        ≡ text.old ++ cell_text cell.now.sides masses.now atom.now column) }
{
    match column {
        Column::Id => push_whole(text, u64::from(atom.id)),
        Column::Mol => push_whole(text, u64::from(atom.mol)),
        Column::Kind => push_whole(text, u64::from(atom.kind)),
        Column::Mass => push_fixed(text, mass_of(masses, atom)),
        Column::X => push_fixed(text, atom.x[0]),
        Column::Y => push_fixed(text, atom.x[1]),
        Column::Z => push_fixed(text, atom.x[2]),
        Column::Xs => push_scaled(text, &cell.sides.x, atom.x[0]),
        Column::Ys => push_scaled(text, &cell.sides.y, atom.x[1]),
        Column::Zs => push_scaled(text, &cell.sides.z, atom.x[2]),
        Column::Ix => push_count(text, atom.image[0]),
        Column::Iy => push_count(text, atom.image[1]),
        Column::Iz => push_count(text, atom.image[2]),
        Column::Vx => push_fixed(text, atom.v[0]),
        Column::Vy => push_fixed(text, atom.v[1]),
        Column::Vz => push_fixed(text, atom.v[2]),
        Column::Fx => push_fixed(text, atom.f[0]),
        Column::Fy => push_fixed(text, atom.f[1]),
        Column::Fz => push_fixed(text, atom.f[2]),
    }
}

/// The mass of an atom's type, in units.
fn mass_of(masses: &[i64], atom: &Atom) -> i64
    requires { HasKind masses.now atom.now }
    ensures { result ≡ mass_at masses.now atom.now.kind }
{
    masses[usize::from(atom.kind) - 1]
}

/// Appends a whole number.
pub(crate) fn push_whole(text: &mut Text, n: u64) -> Result<(), NoMemory>
    ensures { OnOk result (text.new ≡ text.old ++ decimal n) }
{
    let mut buffer = Buffer::new();
    text.push(buffer.format(n).as_bytes())
}

/// Appends a whole number that may be negative.
fn push_count(text: &mut Text, n: i64) -> Result<(), NoMemory>
    ensures { OnOk result (text.new ≡ text.old ++ signed_decimal n) }
{
    let mut buffer = Buffer::new();
    text.push(buffer.format(n).as_bytes())
}

/// Appends a number in units, with eight decimals.
pub(crate) fn push_fixed(text: &mut Text, v: i64) -> Result<(), NoMemory>
    ensures { OnOk result (text.new ≡ text.old ++ fix_text v) }
{
    let mut out = ArrayString::new();
    print_fix(i128::from(v), &mut out);
    text.push(out.as_str().as_bytes())
}

/// Appends where a position is along an axis: its distance from the lower bound as a part of the
/// edge, with eight decimals.
fn push_scaled(text: &mut Text, extent: &Extent, x: i64) -> Result<(), NoMemory>
    requires sound { IsSoundExtent extent.now }
    requires inside { Holds extent.now x }
    ensures { OnOk result (text.new ≡ text.old ++ scaled_along extent.now x) }
{
    let mut out = ArrayString::new();
    print_scaled(
        i128::from(x - extent.lo),
        i128::from(extent.edge()),
        &mut out,
    );
    text.push(out.as_str().as_bytes())
}
