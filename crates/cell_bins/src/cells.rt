//! Cells of space, and their numbers.
ghost use Rattle.std.specs.Prelude.{◌≡◌, ◌*◌, ◌^◌, ◌<◌, ◌≤◌, unsigned_abs};
ghost use Rattle.cell_bins.specs.Near.{IsSmall};

use crate::limits::MAX_COORDINATE;
use fx_num::V3;

/// How space is cut into cells, and how they are numbered.
#[derive(Clone, Copy, Debug)]
pub struct Cells {
    /// The edge of a cell, in units.
    pub reach: u64,
    /// After how many cells along x their numbers begin anew.
    pub x: u64,
    /// The same along y.
    pub y: u64,
    /// The same along z.
    pub z: u64,
    pub ghost some: { 0 < reach },
    pub ghost least: { (3 ≤ x) × (3 ≤ y) × (3 ≤ z) },
    pub ghost few: { x * y * z ≤ 2 ^ 34 },
}

impl Cells {
    ghost use Rattle.cell_bins.specs.Cells.{cell_before, count_of, number_at, number_of};

    /// How many numbers of cells there are.
    pub(crate) fn count(&self) -> usize
        ensures is { result ≡ count_of self.now }
        ensures few { result ≤ 2 ^ 34 }
    {
        (self.x * self.y * self.z) as usize
    }

    /// The cell before that of a coordinate.
    pub(crate) fn before(&self, x: &i64) -> u64
        requires { unsigned_abs x.now ≤ unsigned_abs MAX_COORDINATE }
        ensures is { result ≡ cell_before self.now.reach x.now }
        ensures bound { result ≤ 2 ^ 37 }
    {
        (*x + MAX_COORDINATE) as u64 / self.reach
    }

    /// The number of the cell with these places along the axes.
    #[tactic(auto, unfolding(crate::specs::Cells::number_of))]
    pub(crate) fn number(&self, x: u64, y: u64, z: u64) -> usize
        ensures is { result ≡ number_of self.now x y z }
        ensures below { result < count_of self.now }
    {
        let row = z % self.z * self.y + y % self.y;
        (row * self.x + x % self.x) as usize
    }

    /// The number of the cell of a position.
    pub(crate) fn number_at(&self, x: &V3) -> usize
        requires { IsSmall x.now }
        ensures is { result ≡ number_at self.now x.now }
        ensures below { result < count_of self.now }
    {
        self.number(
            self.before(&x[0]) + 1,
            self.before(&x[1]) + 1,
            self.before(&x[2]) + 1,
        )
    }
}
