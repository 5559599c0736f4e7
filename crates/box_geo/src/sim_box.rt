//! The simulation box: its sides, what it holds, the nearest image of a displacement, its volume.
ghost use Rattle.std.specs.Prelude.{◌≡◌, ◌^◌, ◌<◌, ◌≤◌, ◌↔◌, ◌*◌, ℕ, ℤ, pos, neg_ℤ, ◌+ℤ◌, ◌-ℤ◌, ◌*ℤ◌, ◌<ℤ◌, ◌≤ℤ◌, cond, int_lt, unsigned_abs, IsTrue, IfOk, MatchResult};
ghost use Rattle.fx_num.specs.Rounding.{nearest_of};
ghost use Rattle.box_geo.specs.Sides.{edge, x_of, y_of, z_of, extent_of, sides_of, extent_refusal, box_refusal, IsSoundExtent, IsSound, Holds, IsInside, z_wraps, near_along, near_image, volume_of};

use crate::limits::{MAX_BOUND, MAX_EDGE, MIN_EDGE};
use fx_num::{V3, nearest_shift};
use thiserror::Error;

/// An axis of the box.
#[derive(Clone, Copy, Debug, PartialEq, Eq)]
pub enum Axis {
    X,
    Y,
    Z,
}

/// What the box is along one axis, in units. It holds x where lo <= x < hi.
#[derive(Clone, Copy, Debug, PartialEq, Eq)]
pub struct Extent {
    pub lo: i64,
    pub hi: i64,
    /// Whether images of the box follow on both sides.
    pub periodic: bool,
}

/// The extents of a box of two or three dimensions.
#[derive(Clone, Copy, Debug, PartialEq, Eq)]
pub struct Sides {
    pub x: Extent,
    pub y: Extent,
    pub z: Extent,
    /// 2 or 3.
    pub dim: u8,
}

/// A simulation box within the limits.
#[derive(Clone, Copy, Debug)]
pub struct SimBox {
    /// The extents.
    pub sides: Sides,
    pub ghost sound: { IsSound sides },
}

/// Why numbers make no box. The causes are judged axis by axis from x, in this order.
#[derive(Clone, Copy, Debug, PartialEq, Eq, Error)]
pub enum BoxRefusal {
    /// A bound is of a magnitude above [`crate::limits::MAX_BOUND`].
    #[error("a bound of axis {0:?} is too far out")]
    TooFar(Axis),
    /// The edge is outside [`crate::limits::MIN_EDGE`] to [`crate::limits::MAX_EDGE`].
    #[error("the edge along axis {0:?} is too short or too long")]
    Edge(Axis),
}

impl Extent {
    /// The length of the box along the axis, in units.
    pub fn edge(&self) -> i64
        requires { IsSoundExtent self.now }
        ensures is { result ≡ edge self.now }
        ensures least { pos (2 ^ 18) ≤ℤ result }
        ensures greatest { result ≤ℤ pos (2 ^ 34) }
    {
        self.hi - self.lo
    }

    /// The same for products.
    fn length(&self) -> u128
        requires { IsSoundExtent self.now }
        ensures is { result ≡ unsigned_abs (edge self.now) }
        ensures least { 2 ^ 18 ≤ result }
        ensures greatest { result ≤ 2 ^ 34 }
    {
        self.edge() as u128
    }

    /// Whether the box holds the number along the axis.
    pub fn holds(&self, x: i64) -> bool
        ensures { IsTrue result ↔ Holds self.now x }
    {
        self.lo <= x && x < self.hi
    }

    /// The displacement along the axis from `b` to `a`, to the nearest image where the axis wraps.
    fn near(&self, wraps: bool, a: i64, b: i64) -> i64
        requires sound { IsSoundExtent self.now }
        requires first { Holds self.now a }
        requires second { Holds self.now b }
        ensures is { result ≡ near_along wraps (edge self.now) (a -ℤ b) }
        ensures bound { unsigned_abs result < 2 ^ 34 }
    {
        nearest_along(wraps, self.edge(), a - b)
    }
}

impl Extent {
    /// An axis of these bounds, or why they make none.
    pub fn new(axis: Axis, lo: i64, hi: i64, periodic: bool) -> Result<Extent, BoxRefusal>
        ensures made { IfOk result (λ e. e ≡ extent_of lo hi periodic) }
        ensures sound { IfOk result IsSoundExtent }
        ensures refused { MatchResult result (λ _. extent_refusal axis lo hi ≡ None) (λ why. extent_refusal axis lo hi ≡ Some why) }
    {
        match extent_fault(axis, lo, hi) {
            Some(why) => Err(why),
            None => Ok(Extent { lo, hi, periodic }),
        }
    }
}

/// Why bounds make no axis.
fn extent_fault(axis: Axis, lo: i64, hi: i64) -> Option<BoxRefusal>
    ensures { result ≡ extent_refusal axis lo hi }
{
    if lo.unsigned_abs() > MAX_BOUND as u64 || hi.unsigned_abs() > MAX_BOUND as u64 {
        return Some(BoxRefusal::TooFar(axis));
    }
    if hi - lo < MIN_EDGE || hi - lo > MAX_EDGE {
        return Some(BoxRefusal::Edge(axis));
    }
    None
}

/// Why bounds make no box: the refusal of the first axis that has one.
fn box_fault(lo: V3, hi: V3) -> Option<BoxRefusal>
    ensures { result ≡ box_refusal lo hi }
{
    extent_fault(Axis::X, lo[0], hi[0])
        .or(extent_fault(Axis::Y, lo[1], hi[1]))
        .or(extent_fault(Axis::Z, lo[2], hi[2]))
}

impl SimBox {
    /// A box of these bounds, or the first refusal of them, axis by axis from x.
    pub fn new(lo: V3, hi: V3, periodic: [bool; 3], dim: u8) -> Result<SimBox, BoxRefusal>
        requires { (2 ≤ dim) × (dim ≤ 3) }
        ensures made { IfOk result (λ cell. cell.sides ≡ sides_of lo hi periodic dim) }
        ensures refused { MatchResult result (λ _. box_refusal lo hi ≡ None) (λ why. box_refusal lo hi ≡ Some why) }
    {
        if let Some(why) = box_fault(lo, hi) {
            return Err(why);
        }
        Ok(SimBox {
            sides: Sides {
                x: Extent {
                    lo: lo[0],
                    hi: hi[0],
                    periodic: periodic[0],
                },
                y: Extent {
                    lo: lo[1],
                    hi: hi[1],
                    periodic: periodic[1],
                },
                z: Extent {
                    lo: lo[2],
                    hi: hi[2],
                    periodic: periodic[2],
                },
                dim,
            },
        })
    }

    /// A box of these sides.
    pub fn from_sides(sides: Sides) -> SimBox
        requires { IsSound sides }
        ensures { result.sides ≡ sides }
    {
        SimBox { sides }
    }

    /// Whether the position is inside the box.
    pub fn holds(&self, x: V3) -> bool
        ensures { IsTrue result ↔ IsInside self.now.sides x }
    {
        self.sides.x.holds(x[0]) && self.sides.y.holds(x[1]) && self.sides.z.holds(x[2])
    }

    /// Whether images of the box follow along z: not in two dimensions.
    pub fn z_wraps(&self) -> bool
        ensures { result ≡ z_wraps self.now.sides }
    {
        self.sides.z.periodic && self.sides.dim == 3
    }

    /// The displacement from `b` to `a`, to the nearest image: per axis a - b, less or more an edge
    /// where that is shorter and the axis wraps. At exactly half an edge it stays as it is.
    pub fn near(&self, a: V3, b: V3) -> V3
        requires first { IsInside self.now.sides a }
        requires second { IsInside self.now.sides b }
        ensures is { result ≡ near_image self.now.sides a b }
        ensures x { unsigned_abs (x_of result) < 2 ^ 34 }
        ensures y { unsigned_abs (y_of result) < 2 ^ 34 }
        ensures z { unsigned_abs (z_of result) < 2 ^ 34 }
    {
        let Sides { x, y, z, .. } = self.sides;
        [
            x.near(x.periodic, a[0], b[0]),
            y.near(y.periodic, a[1], b[1]),
            z.near(self.z_wraps(), a[2], b[2]),
        ]
    }

    /// The volume in units, in two dimensions the area, rounded once.
    pub fn volume(&self) -> i64
        ensures is { result ≡ pos (volume_of self.now.sides) }
        ensures positive { 0 < volume_of self.now.sides }
        ensures bound { volume_of self.now.sides < 2 ^ 55 }
    {
        let Sides { x, y, z, dim } = self.sides;
        if dim == 3 {
            rounded(x.length() * y.length() * z.length(), 48)
        } else {
            rounded(x.length() * y.length(), 24)
        }
    }
}

/// Of the differences `d` + k·`length` the one nearest to 0, where the axis wraps; else `d`.
fn nearest_along(wraps: bool, length: i64, d: i64) -> i64
    requires least { pos (2 ^ 18) ≤ℤ length }
    requires greatest { length ≤ℤ pos (2 ^ 34) }
    requires within { unsigned_abs d < unsigned_abs length }
    ensures is { result ≡ near_along wraps length d }
    ensures bound { unsigned_abs result < 2 ^ 34 }
{
    if !wraps {
        return d;
    }
    raised(lowered(d, length), length)
}

/// `d`, less `length` where it is above half of that.
// A choice between two numbers is no jump, which the processor would often guess wrong.
#[inline(always)]
fn lowered(d: i64, length: i64) -> i64
    requires length { (pos 0 <ℤ length) × (length ≤ℤ pos (2 ^ 34)) }
    requires within { unsigned_abs d < unsigned_abs length }
    ensures is { result ≡ cond (int_lt length (pos 2 *ℤ d)) (d -ℤ length) d }
    ensures bound { unsigned_abs result < 2 ^ 34 }
    ensures low { unsigned_abs result < unsigned_abs length }
{
    if is_above(d, length) { d - length } else { d }
}

/// `d`, with `length` more where it is below minus half of that.
#[inline(always)]
fn raised(d: i64, length: i64) -> i64
    requires length { (pos 0 <ℤ length) × (length ≤ℤ pos (2 ^ 34)) }
    requires within { unsigned_abs d < unsigned_abs length }
    ensures is { result ≡ cond (int_lt (pos 2 *ℤ d) (neg_ℤ length)) (d +ℤ length) d }
    ensures bound { unsigned_abs result < 2 ^ 34 }
{
    if is_below(d, length) { d + length } else { d }
}

/// Whether `d` is above half of `length`.
fn is_above(d: i64, length: i64) -> bool
    requires { (unsigned_abs d < 2 ^ 40) × (unsigned_abs length < 2 ^ 40) }
    ensures { result ≡ int_lt length (pos 2 *ℤ d) }
{
    2 * d > length
}

/// Whether `d` is below minus half of `length`.
fn is_below(d: i64, length: i64) -> bool
    requires { (unsigned_abs d < 2 ^ 40) × (unsigned_abs length < 2 ^ 40) }
    ensures { result ≡ int_lt (pos 2 *ℤ d) (neg_ℤ length) }
{
    2 * d < -length
}

/// A product of edges, as a number of units.
fn rounded(product: u128, places: u32) -> i64
    requires dividend { product < 2 ^ 126 }
    requires few { product ≤ 2 ^ 54 * 2 ^ places }
    requires places { places ≤ 100 }
    ensures { result ≡ pos (nearest_of product (2 ^ places)) }
{
    nearest_shift(product, places) as i64
}
