//! The term of a pair, put together from the force over the displacement and the energy.
ghost use Rattle.std.specs.Prelude.{◌≡◌, ◌*◌, ◌^◌, ◌<◌, ◌≤◌, [], ◌∷◌, unsigned_abs};
ghost use Rattle.fx_num.specs.Rounding.{nearest_of, with_sign};
ghost use Rattle.box_geo.specs.Terms.{dot, IsModerate};
ghost use Rattle.pair_lj.specs.PairTerm.{force_along};

use crate::signs::{product, work};
use box_geo::Term;

/// The term of a strength, its weight included, and an energy.
#[inline(always)]
pub(crate) fn term(negative: bool, size: u128, energy: i64, x: i64, y: i64, z: i64) -> Term
    requires fits_x { size * unsigned_abs x < 2 ^ 126 }
    requires fits_y { size * unsigned_abs y < 2 ^ 126 }
    requires fits_z { size * unsigned_abs z < 2 ^ 126 }
    requires small_x { nearest_of (size * unsigned_abs x) (2 ^ 32) ≤ 2 ^ 42 }
    requires small_y { nearest_of (size * unsigned_abs y) (2 ^ 32) ≤ 2 ^ 42 }
    requires small_z { nearest_of (size * unsigned_abs z) (2 ^ 32) ≤ 2 ^ 42 }
    requires x { unsigned_abs x < 2 ^ 28 }
    requires y { unsigned_abs y < 2 ^ 28 }
    requires z { unsigned_abs z < 2 ^ 28 }
    ensures force { result.f ≡ force_along (with_sign negative size) (x ∷ y ∷ z ∷ []) }
    ensures energy { result.energy ≡ energy }
    ensures virial { result.virial ≡ dot (x ∷ y ∷ z ∷ []) result.f }
    ensures bounded { IsModerate result.f }
    ensures bound { unsigned_abs result.virial ≤ 3 * 2 ^ 70 }
{
    let (f, g, h) = (
        product(negative, size, x),
        product(negative, size, y),
        product(negative, size, z),
    );
    Term {
        f: [f, g, h],
        energy,
        virial: work(x, y, z, f, g, h),
    }
}
