//! The rows of atoms and velocities.
ghost use Rattle.std.specs.Prelude.{◌≡◌, ◌≤◌, ◌<◌, ◌^◌, ◌+ℤ◌, unsigned_abs, IfOk};
ghost use Rattle.box_geo.specs.Sides.{x_of, y_of, z_of};
ghost use Rattle.box_geo.specs.Wrap.{AreFew};
ghost use Rattle.data_file.specs.Rows.{are_images, atom_fields, atom_parts, atom_row, edges_off, image_fields, images_given, kept, kept_at, molecule_field, molecules, placed, plus, velocity_row, IsNear};
ghost use Rattle.data_file.specs.Words.{words_of};

use crate::fault::DataFault;
use crate::fields::{both, id_field, images_field, kind_field, vector_field, whole_field};
use crate::tables::{ById, Keys};
use crate::words::{count_words, word_at};
use box_geo::limits::{MAX_IMAGE, MAX_POSITION, MAX_SPEED};
use box_geo::{Atom, AtomStyle, Extent, Sides, SimBox};
use fx_num::V3;

/// How many words of a molecule an atom of a style has.
fn molecules(style: AtomStyle) -> usize
    ensures is { result ≡ molecules style }
    ensures few { result ≤ 1 }
{
    match style {
        AtomStyle::Atomic => 0,
        AtomStyle::Bond | AtomStyle::Angle | AtomStyle::Molecular => 1,
    }
}

/// The molecule of an atom, 0 in style atomic.
fn molecule_field(line: &[u8], style: AtomStyle) -> Result<u32, DataFault>
    ensures { result ≡ molecule_field style (words_of line.now) }
{
    match style {
        AtomStyle::Atomic => Ok(0),
        AtomStyle::Bond | AtomStyle::Angle | AtomStyle::Molecular => {
            Ok(whole_field(word_at(line, 1), 0, u64::from(u32::MAX))? as u32)
        }
    }
}

/// Whether a row of an atom gives images.
fn images_given(line: &[u8], style: AtomStyle) -> bool
    ensures { result ≡ images_given style (words_of line.now) }
{
    count_words(line) == 8 + molecules(style)
}

/// The images of an atom, 0 where the row gives none.
fn image_fields(line: &[u8], style: AtomStyle) -> Result<V3, DataFault>
    ensures is { result ≡ image_fields style (words_of line.now) }
    ensures x { IfOk result (λ n. unsigned_abs (x_of n) ≤ 2 ^ 40) }
    ensures y { IfOk result (λ n. unsigned_abs (y_of n) ≤ 2 ^ 40) }
    ensures z { IfOk result (λ n. unsigned_abs (z_of n) ≤ 2 ^ 40) }
{
    if images_given(line, style) {
        images_field(line, 5 + molecules(style))
    } else {
        Ok([0; 3])
    }
}

/// The id and molecule, the type, the position and the images of an atom.
type Parts = (((u32, u32), u8), (V3, V3));

/// The numbers of a row of an atom.
#[tactic(auto, unfolding(crate::specs::Rows::atom_parts))]
fn atom_parts(line: &[u8], style: AtomStyle, kinds: u8) -> Result<Parts, DataFault>
    ensures is { result ≡ atom_parts style kinds (words_of line.now) }
    ensures x { IfOk result (λ p. IsNear p.1.0) }
    ensures image { IfOk result (λ p. IsNear p.1.1) }
{
    let behind = molecules(style);
    let id = both(id_field(word_at(line, 0)), molecule_field(line, style));
    let kind = kind_field(word_at(line, 1 + behind), kinds);
    let x = vector_field(line, 2 + behind, -MAX_POSITION, MAX_POSITION);
    both(both(id, kind), both(x, image_fields(line, style)))
}

/// An atom as its row gives it.
fn atom_fields(line: &[u8], style: AtomStyle, kinds: u8) -> Result<Atom, DataFault>
    ensures is { result ≡ atom_fields style kinds (words_of line.now) }
    ensures x { IfOk result (λ a. IsNear a.x) }
    ensures image { IfOk result (λ a. IsNear a.image) }
{
    let (((id, mol), kind), (x, image)) = atom_parts(line, style, kinds)?;
    Ok(Atom {
        id,
        mol,
        kind,
        x,
        v: [0; 3],
        f: [0; 3],
        image,
    })
}

/// The number, or the least one of an axis that would lose it.
fn kept_at(wraps: bool, extent: &Extent, x: i64) -> i64
    requires extent { unsigned_abs extent.now.lo ≤ 2 ^ 40 }
    requires x { unsigned_abs x ≤ 2 ^ 40 }
    ensures is { result ≡ kept_at wraps extent.now x }
    ensures bound { unsigned_abs result ≤ 2 ^ 40 }
{
    if !wraps && !extent.holds(x) {
        extent.lo
    } else {
        x
    }
}

/// The position, with the least number of an axis in the place of one that the axis loses.
fn kept(cell: &SimBox, x: V3) -> V3
    requires { IsNear x }
    ensures is { result ≡ kept cell.now.sides x }
    ensures near { IsNear result }
{
    let sides = cell.sides;
    [
        kept_at(sides.x.periodic, &sides.x, x[0]),
        kept_at(sides.y.periodic, &sides.y, x[1]),
        kept_at(cell.z_wraps(), &sides.z, x[2]),
    ]
}

/// How many edges are taken off a position along each axis, whether or not another axis loses it.
fn edges_off(cell: &SimBox, x: V3) -> [i64; 3]
    requires { IsNear x }
    ensures is { result ≡ edges_off cell.now.sides x }
    ensures few { AreFew result }
{
    match cell.wrap(kept(cell, x)) {
        Ok(wrapped) => {
            let edges = wrapped.1;
            edges
        }
        Err(_) => unreachable!(),
    }
}

/// The sum of an image count and edges.
fn sum(image: i64, edges: i64) -> i64
    requires near { unsigned_abs image ≤ 2 ^ 40 }
    requires few { unsigned_abs edges < 2 ^ 24 }
    ensures { result ≡ image +ℤ edges }
{
    image + edges
}

/// The sums of image counts and edges.
fn plus(image: V3, edges: [i64; 3]) -> V3
    requires near { IsNear image }
    requires few { AreFew edges }
    ensures { result ≡ plus image edges }
{
    [
        sum(image[0], edges[0]),
        sum(image[1], edges[1]),
        sum(image[2], edges[2]),
    ]
}

/// Whether image counts are within their limit.
fn are_images(n: V3) -> bool
    ensures { result ≡ are_images n }
{
    let limit = MAX_IMAGE.unsigned_abs();
    n[0].unsigned_abs() <= limit && n[1].unsigned_abs() <= limit && n[2].unsigned_abs() <= limit
}

/// The atom at another position, with other images.
fn moved(atom: Atom, x: V3, image: V3) -> Atom
    ensures { result ≡ record atom { x = x; image = image } }
{
    let v = atom.v;
    let f = atom.f;
    Atom {
        id: atom.id,
        mol: atom.mol,
        kind: atom.kind,
        x,
        v,
        f,
        image,
    }
}

/// The atom in the box, with its images changed by the edges that are taken off.
#[tactic(auto, unfolding(crate::specs::Rows::placed))]
fn placed(cell: &SimBox, met: &Keys, atom: Atom) -> Result<Atom, DataFault>
    requires x { IsNear atom.x }
    requires image { IsNear atom.image }
    ensures { result ≡ placed cell.now.sides met.now atom }
{
    let x = atom.x;
    let image = atom.image;
    let image = plus(image, edges_off(cell, x));
    if !are_images(image) {
        return Err(DataFault::Limit);
    }
    if met.has(atom.id) {
        return Err(DataFault::Twice);
    }
    match cell.wrap(x) {
        Err(_) => Err(DataFault::Outside),
        Ok(wrapped) => {
            let x = wrapped.0;
            Ok(moved(atom, x, image))
        }
    }
}

/// An atom of the box.
#[tactic(auto, unfolding(crate::specs::Rows::atom_row))]
pub(crate) fn atom_row(
    line: &[u8],
    style: AtomStyle,
    kinds: u8,
    cell: &SimBox,
    met: &Keys,
) -> Result<Atom, DataFault>
    ensures { result ≡ atom_row style kinds cell.now.sides met.now (words_of line.now) }
{
    let plain = count_words(line) == 5 + molecules(style);
    if !(plain || images_given(line, style)) {
        return Err(DataFault::Count);
    }
    placed(cell, met, atom_fields(line, style, kinds)?)
}

/// The velocity of an atom.
#[tactic(auto, unfolding(crate::specs::Rows::velocity_row))]
pub(crate) fn velocity_row(
    line: &[u8],
    met: &Keys,
    atoms: &ById<Atom>,
) -> Result<(u32, V3), DataFault>
    ensures { result ≡ velocity_row met.now atoms.now (words_of line.now) }
{
    if count_words(line) != 4 {
        return Err(DataFault::Count);
    }
    let row = both(
        id_field(word_at(line, 0)),
        vector_field(line, 1, -MAX_SPEED, MAX_SPEED),
    )?;
    if met.has(row.0) {
        return Err(DataFault::Twice);
    }
    if !atoms.has(row.0) {
        return Err(DataFault::NoSuch);
    }
    Ok(row)
}
