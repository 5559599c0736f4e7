//! Which sites are neighbours.
ghost use Rattle.std.specs.Prelude.{◌≡◌, ◌+◌, ◌*◌, ◌^◌, ◌<◌, ◌≤◌, nat_lt, unsigned_abs};
ghost use Rattle.half_list.specs.Neighbours.{is_listed, is_near};

use box_geo::Site;
use cell_bins::MAX_REACH;
use fx_num::V3;

/// Whether a site has a greater id and is nearer than the reach.
pub(crate) fn is_listed(own: &Site, site: &Site, reach: u64) -> bool
    requires { reach ≤ unsigned_abs MAX_REACH }
    ensures { result ≡ is_listed reach own.now site.now }
{
    own.id < site.id && is_near(&own.x, &site.x, reach)
}

/// Whether two positions are nearer than the reach.
fn is_near(a: &V3, b: &V3, reach: u64) -> bool
    requires { reach ≤ unsigned_abs MAX_REACH }
    ensures { result ≡ is_near reach a.now b.now }
{
    let x = a[0].abs_diff(b[0]);
    let y = a[1].abs_diff(b[1]);
    let z = a[2].abs_diff(b[2]);
    are_within(x, y, z, reach)
}

/// Whether a displacement with these components is shorter than the reach.
fn are_within(x: u64, y: u64, z: u64, reach: u64) -> bool
    requires { reach ≤ unsigned_abs MAX_REACH }
    ensures { result ≡ nat_lt (x * x + y * y + z * z) (reach * reach) }
{
    if x >= reach || y >= reach || z >= reach {
        return false;
    }
    x * x + y * y + z * z < reach * reach
}
