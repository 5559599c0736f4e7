//! The brick of a position, and the sides of a brick.
ghost use Rattle.std.specs.Prelude.{◌≡◌, ◌+◌, ◌-◌, ◌*◌, ◌/◌, ◌%◌, ◌^◌, ◌<◌, ◌≤◌, ℤ, ◌-ℤ◌, unsigned_abs, slice_index};
ghost use Rattle.box_geo.specs.Sides.{IsSoundExtent, Holds, IsInside, edge, x_of, y_of, z_of};
ghost use Rattle.rank_grid.specs.Bricks.{owner, place_along, side_along, sides_at, low_side, high_side, ranks, places_of_rank, x_count, y_count, z_count};

use crate::grid::Grid;
use box_geo::limits::MAX_RANKS;
use box_geo::{Extent, Sides};
use fx_num::V3;

impl Grid {
    /// How many bricks there are, and so ranks.
    pub fn ranks(&self) -> u32
        ensures is { result ≡ ranks self.now.counts }
        ensures some { 1 ≤ result }
        ensures few { result ≤ MAX_RANKS }
    {
        self.counts[0] * self.counts[1] * self.counts[2]
    }

    /// The rank of the brick that holds the position: per axis the floor of (x - lo) · P / L, for P
    /// bricks along an edge L, x fastest. The position is inside the box.
    pub fn owner(&self, x: V3) -> u32
        requires { IsInside self.now.cell.sides x }
        ensures is { result ≡ owner self.now.counts self.now.cell.sides x }
        ensures bound { result < ranks self.now.counts }
    {
        let Sides {
            x: a,
            y: b,
            z: c,
            ..
        } = self.cell.sides;
        let i = place_along(self.counts[0], &a, x[0]);
        let j = place_along(self.counts[1], &b, x[1]);
        let k = place_along(self.counts[2], &c, x[2]);
        (k * self.counts[1] + j) * self.counts[0] + i
    }

    /// The low and the high sides of a brick, in units. It holds x where low <= x < high.
    #[tactic(auto, unfolding(crate::specs::Bricks::low_side, crate::specs::Bricks::high_side))]
    pub fn brick(&self, rank: u32) -> (V3, V3)
        requires { rank < ranks self.now.counts }
        ensures low { result.0 ≡ low_side self.now.counts self.now.cell.sides rank }
        ensures high { result.1 ≡ high_side self.now.counts self.now.cell.sides rank }
    {
        let [i, j, k] = self.places(rank);
        (self.sides_at(i, j, k), self.sides_at(i + 1, j + 1, k + 1))
    }

    /// The low sides of the brick at a place, which are the high sides of the one before along each
    /// axis.
    fn sides_at(&self, i: u32, j: u32, k: u32) -> V3
        requires x { i ≤ x_count self.now.counts }
        requires y { j ≤ y_count self.now.counts }
        requires z { k ≤ z_count self.now.counts }
        ensures { result ≡ sides_at self.now.counts self.now.cell.sides i j k }
    {
        let Sides { x, y, z, .. } = self.cell.sides;
        [
            side_along(self.counts[0], &x, i),
            side_along(self.counts[1], &y, j),
            side_along(self.counts[2], &z, k),
        ]
    }

    /// The place of a brick along each axis.
    fn places(&self, rank: u32) -> [u32; 3]
        requires { rank < ranks self.now.counts }
        ensures is { result ≡ places_of_rank self.now.counts rank }
        ensures x { slice_index result 0 < x_count self.now.counts }
        ensures y { slice_index result 1 < y_count self.now.counts }
        ensures z { slice_index result 2 < z_count self.now.counts }
    {
        let [p, q, _] = self.counts;
        [rank % p, rank / p % q, rank / p / q]
    }
}

/// The place of the brick along one axis that holds the number, of so many along this axis.
fn place_along(parts: u32, extent: &Extent, x: i64) -> u32
    requires some { 1 ≤ parts }
    requires few { parts ≤ MAX_RANKS }
    requires sound { IsSoundExtent extent.now }
    requires inside { Holds extent.now x }
    ensures is { result ≡ place_along parts extent.now x }
    ensures bound { result < parts }
{
    let offset = x.abs_diff(extent.lo);
    let edge = extent.hi.abs_diff(extent.lo);
    (offset * u64::from(parts) / edge) as u32
}

/// The low side of a brick along one axis, of so many along this axis.
fn side_along(parts: u32, extent: &Extent, place: u32) -> i64
    requires some { 1 ≤ parts }
    requires few { parts ≤ MAX_RANKS }
    requires place { place ≤ parts }
    requires sound { IsSoundExtent extent.now }
    ensures { result ≡ side_along parts extent.now place }
{
    let edge = extent.hi.abs_diff(extent.lo);
    let parts = u64::from(parts);
    let distance = (u64::from(place) * edge + (parts - 1)) / parts;
    extent.lo + distance as i64
}
