//! How many cells there are: as many as the sites reach over, but few for each site.
ghost use Rattle.std.specs.Prelude.{◌≡◌, ◌+◌, ◌*◌, ◌^◌, ◌<◌, ◌≤◌, length};
ghost use Rattle.cell_bins.specs.Cells.{count_of};

use crate::cells::Cells;
use box_geo::Site;

/// The cells for these sites: at most two for each site, and 64 more.
pub(crate) fn cells_for(sites: &[Site], reach: u64) -> Cells
    requires reach { 0 < reach }
    requires few { length sites.now < 2 ^ 32 }
    ensures reach { result.reach ≡ reach }
    ensures few { count_of result ≤ 2 * length sites.now + 64 }
{
    let most = 2 * sites.len() as u128 + 64;
    let (x, y, z) = fitted(
        cells_along(sites, 0, reach),
        cells_along(sites, 1, reach),
        cells_along(sites, 2, reach),
        most,
    );
    Cells { reach, x, y, z }
}

/// How many cells the sites reach over along an axis, and one more, so that the first and the last
/// are no neighbours where numbers begin anew.
fn cells_along(sites: &[Site], axis: usize, reach: u64) -> u64
    requires axis { axis < 3 }
    requires reach { 0 < reach }
    ensures least { 3 ≤ result }
    ensures greatest { result ≤ 2 ^ 34 }
{
    let Some(first) = sites.first() else {
        return 3;
    };
    let mut low = first.x[axis];
    let mut high = low;
    for site in sites {
        low = low.min(site.x[axis]);
        high = high.max(site.x[axis]);
    }
    (high.abs_diff(low) / reach).min(1 << 33) + 3
}

/// Counts along three axes, the greatest halved until their product is at most so many.
fn fitted(mut x: u64, mut y: u64, mut z: u64, most: u128) -> (u64, u64, u64)
    requires x { (3 ≤ x) × (x ≤ 2 ^ 34) }
    requires y { (3 ≤ y) × (y ≤ 2 ^ 34) }
    requires z { (3 ≤ z) × (z ≤ 2 ^ 34) }
    requires most { 27 ≤ most }
    ensures least { (3 ≤ result.0) × (3 ≤ result.1) × (3 ≤ result.2) }
    ensures few { result.0 * result.1 * result.2 ≤ most }
{
    while product(x, y, z) > most {
        if x >= y && x >= z {
            x = halved(x);
        } else if y >= z {
            y = halved(y);
        } else {
            z = halved(z);
        }
    }
    (x, y, z)
}

fn halved(count: u64) -> u64
    ensures least { 3 ≤ result }
    ensures greatest { 3 ≤ count → result ≤ count }
    ensures less { 3 < count → result < count }
{
    (count / 2).max(3)
}

fn product(x: u64, y: u64, z: u64) -> u128
    requires x { x ≤ 2 ^ 34 }
    requires y { y ≤ 2 ^ 34 }
    requires z { z ≤ 2 ^ 34 }
    ensures { result ≡ x * y * z }
{
    x as u128 * y as u128 * z as u128
}
