//! Room for a run: edges that wrap have to be long enough for one image within reach.
ghost use Rattle.std.specs.Prelude.{◌≡◌, ◌^◌, ◌≤◌, ◌≤ℤ◌, pos, unsigned_abs};
ghost use Rattle.box_geo.specs.Sides.{IsSoundExtent};
ghost use Rattle.serial_step.specs.Room.{edge_too_small, is_too_small};

use box_geo::{Axis, Extent, Sides, SimBox};

/// The first axis that wraps and whose edge is below twice the reach.
#[tactic(auto, unfolding(serial_step::specs::Room::edge_too_small))]
pub fn edge_too_small(cell: &SimBox, reach: i64) -> Option<Axis>
    requires { unsigned_abs reach ≤ 2 ^ 40 }
    ensures { result ≡ edge_too_small cell.now.sides reach }
{
    let Sides { x, y, z, .. } = cell.sides;
    if is_too_small(x.periodic, &x, reach) {
        return Some(Axis::X);
    }
    if is_too_small(y.periodic, &y, reach) {
        return Some(Axis::Y);
    }
    if is_too_small(cell.z_wraps(), &z, reach) {
        return Some(Axis::Z);
    }
    None
}

/// Whether an axis wraps and its edge is below twice the reach.
fn is_too_small(wraps: bool, extent: &Extent, reach: i64) -> bool
    requires extent { IsSoundExtent extent.now }
    requires reach { unsigned_abs reach ≤ 2 ^ 40 }
    ensures { result ≡ is_too_small wraps extent.now reach }
{
    wraps && extent.edge() < 2 * reach
}
