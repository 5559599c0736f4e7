//! The cells of a lattice that are near a box, and where their points are.
ghost use Rattle.std.specs.Prelude.{◌≡◌, ◌^◌, ◌≤◌, ◌<◌, ◌+ℤ◌, ◌*ℤ◌, ◌/◌, neg_ℤ, pos, unsigned_abs};
ghost use Rattle.fx_num.specs.Rounding.{div_rounded};
ghost use Rattle.box_geo.specs.Sides.{IsSoundExtent};
ghost use Rattle.box_geo.specs.Wrap.{floor_div};
ghost use Rattle.lattice_fill.specs.Lattice.{IsFairAlong};
ghost use Rattle.lattice_fill.specs.Points.{coordinate, first_cell, cells_count};

use box_geo::Extent;
use fx_num::rsh;

/// A cell of a lattice, by its number along each axis.
#[derive(Clone, Copy, Debug, PartialEq, Eq)]
pub struct Cell {
    pub x: i64,
    pub y: i64,
    pub z: i64,
}

/// The cells that may have points in the box along an axis.
#[derive(Clone, Copy, Debug)]
pub(crate) struct Range {
    /// The number of the first.
    pub first: i64,
    /// How many there are.
    pub count: u64,
    pub ghost low: { unsigned_abs first ≤ 2 ^ 15 },
    pub ghost few: { count ≤ 2 ^ 16 },
}

impl Range {
    /// The cells from that of the lower bound to that of the upper bound.
    pub fn along(extent: &Extent, spacing: u64) -> Range
        requires sound { IsSoundExtent extent.now }
        requires spacing { IsFairAlong spacing }
        ensures first { result.first ≡ first_cell extent.now spacing }
        ensures count { result.count ≡ cells_count extent.now spacing }
    {
        let first = cell_at(extent.lo, spacing);
        let last = cell_at(extent.hi, spacing);
        Range {
            first,
            count: last.abs_diff(first) + 1,
        }
    }

    /// The number of a cell of the range.
    pub fn number(&self, n: u64) -> i64
        requires { n < self.now.count }
        ensures is { result ≡ self.now.first +ℤ pos n }
        ensures bound { unsigned_abs result ≤ 2 ^ 17 }
    {
        self.first + n as i64
    }

    /// The one cell at the origin.
    pub fn origin() -> Range
        ensures first { result.first ≡ pos 0 }
        ensures count { result.count ≡ 1 }
    {
        Range { first: 0, count: 1 }
    }
}

/// The number of the cell that begins at a number or next below it.
fn cell_at(x: i64, spacing: u64) -> i64
    requires x { unsigned_abs x ≤ 2 ^ 34 }
    requires spacing { IsFairAlong spacing }
    ensures is { result ≡ floor_div x spacing }
    ensures bound { unsigned_abs result ≤ 2 ^ 14 }
{
    if x < 0 {
        return cells_below(x.unsigned_abs(), spacing);
    }
    whole_cells(x.unsigned_abs(), spacing) as i64
}

/// The cell of a number below 0, by its magnitude.
fn cells_below(distance: u64, spacing: u64) -> i64
    requires some { 0 < distance }
    requires distance { distance ≤ 2 ^ 34 }
    requires spacing { IsFairAlong spacing }
    ensures is { result ≡ floor_div (neg_ℤ (pos distance)) spacing }
    ensures bound { unsigned_abs result ≤ 2 ^ 14 }
{
    -1 - whole_cells(distance - 1, spacing) as i64
}

/// How many whole cells a distance has.
fn whole_cells(distance: u64, spacing: u64) -> u64
    requires distance { distance ≤ 2 ^ 34 }
    requires spacing { IsFairAlong spacing }
    ensures is { result ≡ distance / spacing }
    ensures bound { result ≤ 2 ^ 14 }
    ensures low { distance < 2 ^ 34 → result < 2 ^ 14 }
{
    distance / spacing
}

/// Where a cell's point is along an axis.
#[tactic(auto, unfolding(crate::specs::Points::coordinate))]
pub(crate) fn coordinate(spacing: u64, cell: i64, quarters: u8) -> i64
    requires spacing { IsFairAlong spacing }
    requires cell { unsigned_abs cell ≤ 2 ^ 17 }
    requires quarters { quarters ≤ 3 }
    ensures { result ≡ coordinate spacing cell quarters }
{
    quarter_of(length_of(quarters_before(cell, quarters), spacing))
}

/// How many quarters of the spacing a place in a cell is from the origin.
fn quarters_before(cell: i64, quarters: u8) -> i64
    requires cell { unsigned_abs cell ≤ 2 ^ 17 }
    requires quarters { quarters ≤ 3 }
    ensures is { result ≡ (pos 4 *ℤ cell +ℤ pos quarters) }
    ensures bound { unsigned_abs result ≤ 2 ^ 20 }
{
    4 * cell + i64::from(quarters)
}

/// So many spacings.
fn length_of(count: i64, spacing: u64) -> i64
    requires count { unsigned_abs count ≤ 2 ^ 20 }
    requires spacing { spacing ≤ 2 ^ 33 }
    ensures is { result ≡ count *ℤ pos spacing }
    ensures bound { unsigned_abs result ≤ 2 ^ 53 }
{
    count * spacing as i64
}

/// A quarter of a length, rounded.
fn quarter_of(length: i64) -> i64
    requires { unsigned_abs length ≤ 2 ^ 53 }
    ensures { result ≡ div_rounded length (pos 4) }
{
    rsh(i128::from(length), 2) as i64
}
