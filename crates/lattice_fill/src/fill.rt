//! The points of a lattice inside a box, cell by cell.
ghost use Rattle.std.specs.Prelude.{◌≡◌, ◌++◌, ◌+◌, ◌∷◌, [], filter, ◌<◌, ◌≤◌, ◌^◌, length, unsigned_abs, IfOk, OnOk, IsErrOf};
ghost use Rattle.std.specs.List.{All};
ghost use Rattle.box_geo.specs.Sides.{IsInside};
ghost use Rattle.lattice_fill.specs.Lattice.{dim_of, IsFair, AreQuarters};
ghost use Rattle.lattice_fill.specs.Points.{AreTooMany, inside_of_cell, inside_of_row, inside_of_layer, is_inside, from, layers, point_of, points_of};

use crate::basis::{Quarters, basis};
use crate::lattice::Lattice;
use crate::range::{Cell, Range, coordinate};
use crate::spacing::Spacing;
use box_geo::limits::MAX_ATOMS;
use box_geo::{Points, SimBox};
use fx_num::V3;
use std::alloc::Global;
use thiserror::Error;

/// Why a box is not filled.
#[derive(Clone, Copy, Debug, PartialEq, Eq, Error)]
pub enum FillRefusal {
    /// The box holds more than [`MAX_ATOMS`] points.
    #[error("the lattice has too many points in the box")]
    TooMany,
    /// Memory is refused.
    #[error("out of memory")]
    NoMemory,
}

impl Lattice {
    /// The points of the lattice that are inside the box, in order of z cell, y cell, x cell and place of the
    /// basis. In two dimensions their z is 0.
    ///
    /// # Errors
    ///
    /// [`FillRefusal::TooMany`] exactly where there are more than [`MAX_ATOMS`]; [`FillRefusal::NoMemory`].
    pub fn fill(&self, alloc: Global, cell: &SimBox) -> Result<Points, FillRefusal>
        requires dimension { cell.now.sides.dim ≡ dim_of self.now.style }
        ensures points { IfOk result (λ p. p ≡ points_of self.now.style self.now.spacings cell.now.sides) }
        ensures inside { IfOk result (λ p. All (IsInside cell.now.sides) p) }
        ensures few { IfOk result (λ p. length p ≤ MAX_ATOMS) }
        ensures many { IsErrOf result FillRefusal.TooMany → MAX_ATOMS < length (points_of self.now.style self.now.spacings cell.now.sides) }
    {
        let layers = self.layers(cell);
        let mut points = Points::new(alloc);
        for n in 0..layers.count {
            match self.push_layer(&mut points, cell, &layers.number(n)) {
                Ok(()) => {}
                Err(why) => return Err(why),
            }
        }
        Ok(points)
    }

    /// The layers of cells along z that may have points in the box: in two dimensions that of the origin.
    fn layers(&self, cell: &SimBox) -> Range
        requires dimension { cell.now.sides.dim ≡ dim_of self.now.style }
        ensures { from result.first result.count ≡ layers self.now.style cell.now.sides self.now.spacings.z }
    {
        if cell.sides.dim == 3 {
            return Range::along(&cell.sides.z, self.spacings.z);
        }
        Range::origin()
    }

    /// Appends the points of a layer of cells.
    fn push_layer(&self, points: &mut Points, cell: &SimBox, z: &i64) -> Result<(), FillRefusal>
        requires z { unsigned_abs z.now ≤ 2 ^ 17 }
        ensures added { OnOk result (points.new ≡ points.old ++ inside_of_layer self.now.style self.now.spacings cell.now.sides z.now) }
        ensures few { OnOk result (length points.old ≤ MAX_ATOMS → length points.new ≤ MAX_ATOMS) }
        ensures many { IsErrOf result FillRefusal.TooMany
            → AreTooMany points.old (inside_of_layer self.now.style self.now.spacings cell.now.sides z.now) }
    {
        let rows = Range::along(&cell.sides.y, self.spacings.y);
        for n in 0..rows.count {
            match self.push_row(points, cell, z, &rows.number(n)) {
                Ok(()) => {}
                Err(why) => return Err(why),
            }
        }
        Ok(())
    }

    /// Appends the points of a row of cells along x.
    fn push_row(
        &self,
        points: &mut Points,
        cell: &SimBox,
        z: &i64,
        y: &i64,
    ) -> Result<(), FillRefusal>
        requires z { unsigned_abs z.now ≤ 2 ^ 17 }
        requires y { unsigned_abs y.now ≤ 2 ^ 17 }
        ensures added { OnOk result (points.new ≡ points.old ++ inside_of_row self.now.style self.now.spacings cell.now.sides z.now y.now) }
        ensures few { OnOk result (length points.old ≤ MAX_ATOMS → length points.new ≤ MAX_ATOMS) }
        ensures many { IsErrOf result FillRefusal.TooMany
            → AreTooMany points.old (inside_of_row self.now.style self.now.spacings cell.now.sides z.now y.now) }
    {
        let cells = Range::along(&cell.sides.x, self.spacings.x);
        for n in 0..cells.count {
            match self.push_cell(points, cell, z, y, &cells.number(n)) {
                Ok(()) => {}
                Err(why) => return Err(why),
            }
        }
        Ok(())
    }

    /// Appends the points of a cell that are inside the box.
    fn push_cell(
        &self,
        points: &mut Points,
        cell: &SimBox,
        z: &i64,
        y: &i64,
        x: &i64,
    ) -> Result<(), FillRefusal>
        requires z { unsigned_abs z.now ≤ 2 ^ 17 }
        requires y { unsigned_abs y.now ≤ 2 ^ 17 }
        requires x { unsigned_abs x.now ≤ 2 ^ 17 }
        ensures added { OnOk result
            (points.new ≡ points.old ++ inside_of_cell self.now.style self.now.spacings cell.now.sides z.now y.now x.now) }
        ensures few { OnOk result (length points.old ≤ MAX_ATOMS → length points.new ≤ MAX_ATOMS) }
        ensures many { IsErrOf result FillRefusal.TooMany
            → AreTooMany points.old (inside_of_cell self.now.style self.now.spacings cell.now.sides z.now y.now x.now) }
    {
        for quarters in basis(self.style) {
            let point = point_of(
                &self.spacings,
                &Cell {
                    x: *x,
                    y: *y,
                    z: *z,
                },
                quarters,
            );
            match push_point(points, cell, point) {
                Ok(()) => {}
                Err(why) => return Err(why),
            }
        }
        Ok(())
    }
}

/// Appends a point if it is inside the box.
fn push_point(points: &mut Points, cell: &SimBox, point: V3) -> Result<(), FillRefusal>
    ensures added { OnOk result (points.new ≡ points.old ++ filter (is_inside cell.now.sides) (point ∷ [])) }
    ensures few { OnOk result (length points.old ≤ MAX_ATOMS → length points.new ≤ MAX_ATOMS) }
    ensures many { IsErrOf result FillRefusal.TooMany → AreTooMany points.old (filter (is_inside cell.now.sides) (point ∷ [])) }
{
    if !is_inside(cell, &point) {
        return Ok(());
    }
    if points.len() >= MAX_ATOMS as usize {
        return Err(FillRefusal::TooMany);
    }
    if points.push(point).is_err() {
        return Err(FillRefusal::NoMemory);
    }
    Ok(())
}

/// Whether a point is inside the box.
#[tactic(auto, using(crate::proofs::PointLemmas::inside_by))]
fn is_inside(cell: &SimBox, point: &V3) -> bool
    ensures { result ≡ is_inside cell.now.sides point.now }
{
    cell.holds(*point)
}

/// The point of a cell at a place of the basis.
fn point_of(spacings: &Spacing, cell: &Cell, quarters: &Quarters) -> V3
    requires spacings { IsFair spacings.now }
    requires x { unsigned_abs cell.now.x ≤ 2 ^ 17 }
    requires y { unsigned_abs cell.now.y ≤ 2 ^ 17 }
    requires z { unsigned_abs cell.now.z ≤ 2 ^ 17 }
    requires quarters { AreQuarters quarters.now }
    ensures { result ≡ point_of spacings.now cell.now quarters.now }
{
    [
        coordinate(spacings.x, cell.x, quarters.x),
        coordinate(spacings.y, cell.y, quarters.y),
        coordinate(spacings.z, cell.z, quarters.z),
    ]
}
