//! The pressure.
ghost use Rattle.std.specs.Prelude.{◌≡◌, ◌≤◌, ◌*◌, ◌+◌, ◌^◌, ◌<◌, pos, ◌+ℤ◌, ◌*ℤ◌, unsigned_abs};
ghost use Rattle.fx_num.specs.Rounding.{shr_rounded};
ghost use Rattle.box_geo.specs.Sides.{edge, volume_of};
ghost use Rattle.computes.specs.Quantities.{pressure};

use box_geo::SimBox;
use fx_num::{rdiv, rsh};

/// The pressure of a box, in units, from the sum of mass times squared velocity, in multiples of
/// 2^-72, and that of displacement times force, in multiples of 2^-48.
#[tactic(auto, unfolding(crate::specs::Quantities::pressure))]
pub fn press(s: i128, w: i128, cell: &SimBox) -> i128
    requires kinetic { unsigned_abs s ≤ 2 ^ 121 }
    requires virial { unsigned_abs w ≤ 2 ^ 121 }
    ensures is { result ≡ pressure s w cell.now.sides }
    ensures small { unsigned_abs s ≤ 2 ^ 112 → unsigned_abs w ≤ 2 ^ 80 → unsigned_abs result ≤ 2 ^ 98 }
    ensures fits { unsigned_abs s ≤ 2 ^ 116 → unsigned_abs w ≤ 3 * 2 ^ 109
        → unsigned_abs w ≤ 2 ^ 81 * (unsigned_abs (edge cell.now.sides.x) + unsigned_abs (edge cell.now.sides.y) + unsigned_abs (edge cell.now.sides.z))
        → unsigned_abs result ≤ 2 ^ 98 }
{
    rdiv(scaled(s, w), directions(cell))
}

/// Both sums in units, as a dividend for a divisor in units.
fn scaled(s: i128, w: i128) -> i128
    requires kinetic { unsigned_abs s ≤ 2 ^ 121 }
    requires virial { unsigned_abs w ≤ 2 ^ 121 }
    ensures is { result ≡ (shr_rounded s 48 +ℤ shr_rounded w 24) *ℤ pos (2 ^ 24) }
    ensures bound { unsigned_abs result < 2 ^ 126 }
    ensures small { unsigned_abs s ≤ 2 ^ 112 → unsigned_abs w ≤ 2 ^ 80 → unsigned_abs result ≤ 2 ^ 98 }
{
    (rsh(s, 48) + rsh(w, 24)) * 16_777_216
}

/// The number of dimensions times the volume.
fn directions(cell: &SimBox) -> i128
    ensures is { result ≡ pos (cell.now.sides.dim * volume_of cell.now.sides) }
    ensures positive { 0 < cell.now.sides.dim * volume_of cell.now.sides }
    ensures bound { cell.now.sides.dim * volume_of cell.now.sides < 2 ^ 126 }
{
    i128::from(cell.sides.dim) * i128::from(cell.volume())
}
