//! The halo of a brick: what lies within reach of it.
ghost use Rattle.std.specs.Prelude.{◌≡◌, ◌<◌, ◌+ℤ◌, ◌-ℤ◌, int_lt, pos, slice_index_or, unsigned_abs, ◌≤◌, ◌^◌, IfOk};
ghost use Rattle.std.specs.List.{All, filter};
ghost use Rattle.rank_grid.specs.Bricks.{ranks};
ghost use Rattle.ghost_shell.specs.Halos.{IsHalo, is_near_on, may_meet_along, may_meet_on};

use fx_num::{NoMemory, V3};
use rank_grid::Grid;
use std::alloc::Global;

/// What lies strictly within reach of a brick along each axis; z counts in space alone.
#[derive(Clone, Copy)]
pub(crate) struct Halo {
    /// The low sides of the brick, in units.
    pub low: V3,
    /// Its high sides.
    pub high: V3,
    /// The reach, in units.
    pub reach: i64,
    /// Whether z counts.
    pub space: bool,
}

impl Halo {
    /// The halo of the brick of a rank.
    pub fn of(grid: &Grid, rank: u32, reach: i64) -> Halo
        requires { rank < ranks grid.now.counts }
        ensures { IsHalo grid.now.counts grid.now.cell.sides rank reach result }
    {
        let (low, high) = grid.brick(rank);
        Halo {
            low,
            high,
            reach,
            space: grid.cell.sides.dim == 3,
        }
    }

    /// Whether a position, moved by a length along an axis, is near the brick along it.
    pub fn is_near(&self, axis: usize, p: &V3, length: &i64) -> bool
        requires { axis < 3 }
        ensures { result ≡ is_near_on self.now axis p.now length.now }
    {
        if axis == 2 && !self.space {
            return true;
        }
        is_above(self.low[axis], self.reach, p[axis], *length)
            && is_below(self.high[axis], self.reach, p[axis], *length)
    }

    /// Of some lengths along an axis, those by which a brick of these sides may come near.
    pub fn near_lengths(
        &self,
        alloc: Global,
        axis: usize,
        low: &V3,
        high: &V3,
        lengths: &[i64],
    ) -> Result<Vec<i64>, NoMemory>
        requires axis { axis < 3 }
        requires short { All (λ i. unsigned_abs i ≤ 2 ^ 35) lengths.now }
        ensures { IfOk result (λ v. v.items ≡ filter (may_meet_on self.now low.now high.now axis) lengths.now) }
    {
        let mut near = Vec::new(alloc);
        for length in lengths {
            if self.may_meet(axis, low, high, length) {
                near.push(*length)?;
            }
        }
        Ok(near)
    }

    /// Whether a brick of these sides, moved by a length along an axis, may be near along it.
    fn may_meet(&self, axis: usize, low: &V3, high: &V3, length: &i64) -> bool
        requires { axis < 3 }
        ensures { result ≡ may_meet_on self.now low.now high.now axis length.now }
    {
        if axis == 2 && !self.space {
            return true;
        }
        self.may_meet_along(axis, low, high, length)
    }

    /// The same where the axis counts.
    fn may_meet_along(&self, axis: usize, low: &V3, high: &V3, length: &i64) -> bool
        requires { axis < 3 }
        ensures { result ≡ may_meet_along (slice_index_or self.now.low axis (pos 0)) (slice_index_or self.now.high axis (pos 0)) self.now.reach
            (slice_index_or low.now axis (pos 0) +ℤ length.now) (slice_index_or high.now axis (pos 0) +ℤ length.now) }
    {
        is_above(self.low[axis], self.reach, high[axis], *length)
            && is_below(self.high[axis], self.reach, low[axis], *length)
    }
}

/// Whether `x`, moved, is above the low side less the reach.
fn is_above(low: i64, reach: i64, x: i64, shift: i64) -> bool
    ensures { result ≡ int_lt (low -ℤ reach) (x +ℤ shift) }
{
    i128::from(low) - i128::from(reach) < i128::from(x) + i128::from(shift)
}

/// Whether `x`, moved, is below the high side and the reach.
fn is_below(high: i64, reach: i64, x: i64, shift: i64) -> bool
    ensures { result ≡ int_lt (x +ℤ shift) (high +ℤ reach) }
{
    i128::from(x) + i128::from(shift) < i128::from(high) + i128::from(reach)
}
