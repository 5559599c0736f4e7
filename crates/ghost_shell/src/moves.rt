//! The lengths and shifts by which images are made of atoms.
ghost use Rattle.std.specs.Prelude.{◌≡◌, IfOk};
ghost use Rattle.box_geo.specs.Sides.{IsSoundExtent, edge};
ghost use Rattle.ghost_shell.specs.Images.{moved, shifts_along, stays};
ghost use Rattle.ghost_shell.specs.Ghosts.{IsNearBox};
ghost use Rattle.ghost_shell.specs.Lengths.{AreLengths, AreNearLengths, are_some};

use crate::halo::Halo;
use crate::lengths::Lengths;
use box_geo::{Extent, Sides, SimBox};
use fx_num::{NoMemory, V3};
use std::alloc::Global;

impl Lengths {
    /// All lengths of a box.
    pub fn of(alloc: Global, cell: &SimBox) -> Result<Lengths, NoMemory>
        ensures { IfOk result (AreLengths cell.now.sides) }
    {
        let Sides { x, y, z, .. } = cell.sides;
        let x = lengths_along(alloc, x.periodic, &x)?;
        let y = lengths_along(alloc, y.periodic, &y)?;
        let z = lengths_along(alloc, cell.z_wraps(), &z)?;
        Ok(Lengths { x, y, z })
    }

    /// Those by which a brick of these sides may come near the halo.
    pub fn near(&self, alloc: Global, halo: &Halo, low: &V3, high: &V3) -> Result<Lengths, NoMemory>
        ensures { IfOk result (AreNearLengths halo.now low.now high.now self.now) }
    {
        let x = halo.near_lengths(alloc, 0, low, high, &self.x)?;
        let y = halo.near_lengths(alloc, 1, low, high, &self.y)?;
        let z = halo.near_lengths(alloc, 2, low, high, &self.z)?;
        Ok(Lengths { x, y, z })
    }

    /// Whether there is one for each axis.
    pub fn are_some(&self) -> bool
        ensures { result ≡ are_some self.now }
    {
        if self.x.is_empty() {
            return false;
        }
        if self.y.is_empty() {
            return false;
        }
        !self.z.is_empty()
    }
}

/// The lengths by which images are moved along an axis.
fn lengths_along(alloc: Global, wraps: bool, extent: &Extent) -> Result<Vec<i64>, NoMemory>
    requires { IsSoundExtent extent.now }
    ensures { IfOk result (λ v. v.items ≡ shifts_along wraps (edge extent.now)) }
{
    let edge = extent.edge();
    let mut list = Vec::new(alloc);
    if wraps {
        list.push(-edge)?;
    }
    list.push(0)?;
    if wraps {
        list.push(edge)?;
    }
    Ok(list)
}

/// Whether a shift moves nothing.
pub(crate) fn stays(shift: &V3) -> bool
    ensures { result ≡ stays shift.now }
{
    if shift[0].unsigned_abs() != 0 {
        return false;
    }
    shift[1].unsigned_abs() == 0 && shift[2].unsigned_abs() == 0
}

/// A position moved by a shift.
pub(crate) fn moved(p: &V3, shift: &V3) -> V3
    requires p { IsNearBox p.now }
    requires shift { IsNearBox shift.now }
    ensures { result ≡ moved p.now shift.now }
{
    [p[0] + shift[0], p[1] + shift[1], p[2] + shift[2]]
}
