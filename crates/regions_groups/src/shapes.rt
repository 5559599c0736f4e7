//! The shapes of regions.
ghost use Rattle.std.specs.Prelude.{◌≡◌, ◌*◌, ◌^◌, ◌≤◌, ◌-ℤ◌, unsigned_abs, slice_index_or, pos};
ghost use Rattle.std.specs.Option.{option_copied};
ghost use Rattle.regions_groups.specs.Regions.{all_sides, block_holds, box_block, is_above, is_below, is_between, names_of, on_side, sphere_holds};

use fx_num::{Text, V3, Words};

/// A region: the inside or the outside of a shape, with lengths in units.
#[derive(Drop)]
pub enum Region {
    /// A block by its sides along x, y and z, `None` for an open one. The sides belong to it.
    Block {
        /// The lower sides.
        lo: [Option<i64>; 3],
        /// The upper sides.
        hi: [Option<i64>; 3],
        /// Whether the region is the inside of the block, else the outside.
        inside: bool,
    },
    /// A sphere, its surface included. One of negative radius holds no point.
    Sphere {
        /// The centre.
        centre: V3,
        /// The radius.
        radius: i64,
        /// Whether the region is the inside of the sphere, else the outside.
        inside: bool,
    },
    /// The points of any of several regions.
    Union {
        /// The regions, by their names.
        regions: Words,
        /// Whether the region is that union, else what is in none of them.
        inside: bool,
    },
    /// The points of all of several regions.
    Intersect {
        /// The regions, by their names.
        regions: Words,
        /// Whether the region is that intersection, else what one of them lacks.
        inside: bool,
    },
}

/// The sides of a block that has all six.
#[derive(Clone, Copy, Debug)]
pub struct ClosedBlock {
    /// The lower sides.
    pub lo: V3,
    /// The upper sides.
    pub hi: V3,
}

/// A number isn't below the lower side of a block, which may be open.
fn is_above(lo: &Option<i64>, x: &i64) -> bool
    ensures { result ≡ is_above lo.now x.now }
{
    match lo {
        Some(lo) => *x >= *lo,
        None => true,
    }
}

/// A number isn't above the upper side of a block, which may be open.
fn is_below(hi: &Option<i64>, x: &i64) -> bool
    ensures { result ≡ is_below hi.now x.now }
{
    match hi {
        Some(hi) => *x <= *hi,
        None => true,
    }
}

/// A number is between the sides of a block.
fn is_between(lo: &Option<i64>, hi: &Option<i64>, x: &i64) -> bool
    ensures { result ≡ is_between lo.now hi.now x.now }
{
    is_above(lo, x) && is_below(hi, x)
}

/// Whether a block holds a point.
pub(crate) fn block_holds(lo: &[Option<i64>; 3], hi: &[Option<i64>; 3], x: &V3) -> bool
    ensures { result ≡ block_holds lo.now hi.now x.now }
{
    is_between(&lo[0], &hi[0], &x[0])
        && is_between(&lo[1], &hi[1], &x[1])
        && is_between(&lo[2], &hi[2], &x[2])
}

/// How far two numbers are apart.
fn distance(x: &i64, centre: &i64) -> u64
    ensures { result ≡ unsigned_abs (x.now -ℤ centre.now) }
{
    x.abs_diff(*centre)
}

/// The square of a distance that is within 2^63.
fn square(distance: u64) -> u128
    requires { distance ≤ 2 ^ 63 }
    ensures is { result ≡ distance * distance }
    ensures bound { result ≤ 2 ^ 126 }
{
    let wide = u128::from(distance);
    wide * wide
}

/// Whether a sphere holds a point. No radius and no distance is too great.
pub(crate) fn sphere_holds(centre: &V3, radius: &i64, x: &V3) -> bool
    ensures { result ≡ sphere_holds centre.now radius.now x.now }
{
    if *radius < 0 {
        return false;
    }
    let reach = radius.unsigned_abs();
    let along_x = distance(&x[0], &centre[0]);
    let along_y = distance(&x[1], &centre[1]);
    let along_z = distance(&x[2], &centre[2]);
    if along_x > reach {
        return false;
    }
    if along_y > reach {
        return false;
    }
    if along_z > reach {
        return false;
    }
    square(along_x) + square(along_y) + square(along_z) <= square(reach)
}

/// The inside of a shape, or all that is not in it.
pub(crate) fn on_side(inside: bool, within: bool) -> bool
    ensures { result ≡ on_side inside within }
{
    if inside { within } else { !within }
}

/// The three sides, where none is open.
fn all_sides(sides: &[Option<i64>; 3]) -> Option<V3>
    ensures { result ≡ all_sides sides.now }
{
    let x = sides[0]?;
    let y = sides[1]?;
    let z = sides[2]?;
    Some([x, y, z])
}

impl Region {
    /// The names of the regions that this one is made of.
    pub(crate) fn names(&self) -> &[Text]
        ensures { result.now ≡ names_of self.now }
    {
        match self {
            Region::Union { regions, inside: _ } => regions.as_slice(),
            Region::Intersect { regions, inside: _ } => regions.as_slice(),
            Region::Block {
                lo: _,
                hi: _,
                inside: _,
            } => &[],
            Region::Sphere {
                centre: _,
                radius: _,
                inside: _,
            } => &[],
        }
    }

    /// The block, where the region is the inside of one with all six sides.
    pub(crate) fn box_block(&self) -> Option<ClosedBlock>
        ensures { result ≡ box_block self.now }
    {
        match self {
            Region::Block {
                lo,
                hi,
                inside: true,
            } => {
                let lo = all_sides(lo)?;
                let hi = all_sides(hi)?;
                Some(ClosedBlock { lo, hi })
            }
            _ => None,
        }
    }
}
