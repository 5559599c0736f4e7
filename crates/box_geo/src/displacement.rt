//! Displacements: their length, and the laws of the nearest image.
ghost use Rattle.std.specs.Prelude.{◌≡◌, ◌+◌, ◌*◌, ◌^◌, ◌<◌, ◌≤◌, ℤ, neg_ℤ, unsigned_abs, List, map};
ghost use Rattle.box_geo.specs.declared.sim_box.Sides.{Sides};
ghost use Rattle.box_geo.specs.Sides.{x_of, y_of, z_of, length2, near_image, image_displacement, HasEdges, IsInside, IsOpposite};

use fx_num::V3;

/// The exact square of a displacement's length, in units of 2^-48.
pub fn length2(d: V3) -> u128
    requires x { unsigned_abs (x_of d) < 2 ^ 40 }
    requires y { unsigned_abs (y_of d) < 2 ^ 40 }
    requires z { unsigned_abs (z_of d) < 2 ^ 40 }
    ensures is { result ≡ length2 d }
    ensures bound { result < 2 ^ 82 }
{
    square(d[0]) + square(d[1]) + square(d[2])
}

fn square(x: i64) -> u128
    requires { unsigned_abs x < 2 ^ 40 }
    ensures is { result ≡ unsigned_abs x * unsigned_abs x }
    ensures bound { result < 2 ^ 80 }
{
    let magnitude = x.unsigned_abs() as u128;
    magnitude * magnitude
}

/// The displacement to the nearest image is odd: from a to b it is the negative of that from b to a.
pub fn nearest_image_is_odd()
    ensures components { (s : Sides) (a b : List ℤ) → HasEdges s → IsOpposite (near_image s a b) (near_image s b a) }
    ensures vector { (s : Sides) (a b : List ℤ) → HasEdges s → near_image s b a ≡ map neg_ℤ (near_image s a b) }
{}

/// No displacement between images of two positions of the box is shorter than that to the nearest
/// image, which is one of them.
pub fn nearest_image_is_the_shortest()
    ensures image { (s : Sides) (a b : List ℤ) → (i : ℤ) × (j : ℤ) × (k : ℤ) × (near_image s a b ≡ image_displacement s a b i j k) }
    ensures shortest { (s : Sides) (a b : List ℤ) (i j k : ℤ) → IsInside s a → IsInside s b → length2 (near_image s a b) ≤ length2 (image_displacement s a b i j k) }
{}

/// Opposite displacements are of one length.
pub fn opposite_lengths_are_equal()
    ensures { (d e : List ℤ) → IsOpposite d e → length2 e ≡ length2 d }
{}
