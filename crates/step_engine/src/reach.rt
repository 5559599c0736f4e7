//! Whether two atoms are so far apart that no cutoff reaches. It is judged before a term, since most pairs are.
ghost use Rattle.std.specs.Prelude.{◌≡◌, ◌*◌, ◌^◌, ◌≤◌, ◌-ℤ◌, unsigned_abs};
ghost use Rattle.box_geo.specs.Sides.{IsSoundExtent, edge};
ghost use Rattle.step_engine.specs.Turns.{apart_along, turn_along};

use crate::rules::ForceField;
use box_geo::limits::MAX_CUTOFF;
use box_geo::{Extent, SimBox};
use fx_num::V3;

/// More than any two places of an axis are apart.
const NO_TURN: u64 = 1 << 36;

/// How far pair terms reach, in units: along each axis the length of a turn, and the greatest cutoff with its square.
#[derive(Clone, Copy)]
pub(crate) struct Reach {
    x: u64,
    y: u64,
    z: u64,
    cutoff: u64,
    square: u64,
    ghost short: { cutoff ≤ 2 ^ 28 },
    ghost square_is: { square ≡ cutoff * cutoff },
}

impl Reach {
    ghost use Rattle.std.specs.Prelude.{◌+◌, ◌*◌, ◌^◌, ◌<◌, ◌≤◌, MatchBool};
    ghost use Rattle.serial_step.specs.Forces.{field_of};
    ghost use Rattle.step_engine.specs.Ranges.{IsForceField, IsWithin};
    ghost use Rattle.step_engine.specs.Reach.{AreWithinTurns, IsReachOf, apart2};

    /// The reach of a force field in a box.
    pub(crate) fn new(field: &ForceField, cell: &SimBox) -> Reach
        requires { IsForceField field.now }
        ensures { IsReachOf (field_of field.now.pairs.pairs) cell.now.sides result }
    {
        let cutoff = field.rcmax.unsigned_abs();
        Reach {
            x: turn_along(cell.sides.x.periodic, &cell.sides.x),
            y: turn_along(cell.sides.y.periodic, &cell.sides.y),
            z: turn_along(cell.z_wraps(), &cell.sides.z),
            cutoff,
            square: square(cutoff),
        }
    }

    /// Whether no cutoff reaches from one position to the other.
    #[inline(always)]
    pub(crate) fn is_passed(&self, a: &V3, b: &V3) -> bool
        requires a { IsWithin (2 ^ 34) a.now }
        requires b { IsWithin (2 ^ 34) b.now }
        requires turns { AreWithinTurns self.now a.now b.now }
        ensures { MatchBool result
            (self.now.cutoff * self.now.cutoff ≤ apart2 self.now a.now b.now)
            (apart2 self.now a.now b.now < self.now.cutoff * self.now.cutoff) }
    {
        let x = apart_along(self.x, &a[0], &b[0]);
        let y = apart_along(self.y, &a[1], &b[1]);
        let z = apart_along(self.z, &a[2], &b[2]);
        self.is_exceeded(x, y, z)
    }

    /// Whether a displacement with components of these magnitudes is of the greatest cutoff at least.
    #[tactic(auto, using(crate::proofs::ReachLemmas::far_along))]
    #[inline(always)]
    fn is_exceeded(&self, x: u64, y: u64, z: u64) -> bool
        ensures { MatchBool result
            (self.now.cutoff * self.now.cutoff ≤ x * x + y * y + z * z)
            (x * x + y * y + z * z < self.now.cutoff * self.now.cutoff) }
    {
        let most = MAX_CUTOFF as u64;
        if x >= most || y >= most || z >= most {
            return true;
        }
        self.square <= square(x) + square(y) + square(z)
    }
}

/// How long a turn is along an axis.
fn turn_along(wraps: bool, extent: &Extent) -> u64
    requires { IsSoundExtent extent.now }
    ensures { result ≡ turn_along wraps (edge extent.now) }
{
    if wraps {
        extent.edge().unsigned_abs()
    } else {
        NO_TURN
    }
}

/// How far apart two places of an axis are, the one way or by a turn.
#[inline(always)]
fn apart_along(turn: u64, a: &i64, b: &i64) -> u64
    requires a { unsigned_abs a.now ≤ 2 ^ 34 }
    requires b { unsigned_abs b.now ≤ 2 ^ 34 }
    requires turn { unsigned_abs (a.now -ℤ b.now) ≤ turn }
    ensures { result ≡ apart_along turn a.now b.now }
{
    let one_way = (*a - *b).unsigned_abs();
    one_way.min(turn - one_way)
}

/// The square of a length up to the greatest cutoff.
#[inline(always)]
fn square(a: u64) -> u64
    requires { a ≤ 2 ^ 28 }
    ensures is { result ≡ a * a }
    ensures bound { result ≤ 2 ^ 56 }
{
    a * a
}
