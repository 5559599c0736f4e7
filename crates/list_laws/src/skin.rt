//! The skin.
ghost use Rattle.std.specs.Prelude.{◌≡◌, ◌+◌, ◌*◌, ◌<◌, false, ℕ, ℤ, List, length, slice_index_or};
ghost use Rattle.std.specs.List.{All};
ghost use Rattle.box_geo.specs.Sides.{IsInside, length2, near_image};
ghost use Rattle.box_geo.specs.declared.sim_box.Sides.{Sides};
ghost use Rattle.serial_step.specs.Rebuild.{is_far, renews};

/// Where no atom is farther than half the skin from its reference, two atoms that are nearer than the
/// cutoff had references that are nearer than the sum of cutoff and skin: no pair that acts is
/// missing in a list that was built at the references. An atom may have crossed the box.
pub fn no_pair_is_missed_within_half_the_skin()
    ensures pair { (s : Sides) (cutoff skin : ℕ) (a b a_reference b_reference : List ℤ)
        → IsInside s a_reference → IsInside s b_reference
        → is_far s skin (a, a_reference) ≡ false → is_far s skin (b, b_reference) ≡ false
        → length2 (near_image s a b) < cutoff * cutoff
        → length2 (near_image s a_reference b_reference) < (cutoff + skin) * (cutoff + skin) }
    ensures all { (s : Sides) (cutoff skin : ℕ) (now references : List (List ℤ)) (i j : ℕ) (d : List ℤ)
        → All (IsInside s) references → length references ≡ length now
        → renews s skin now references ≡ false → i < length now → j < length now
        → length2 (near_image s (slice_index_or now i d) (slice_index_or now j d)) < cutoff * cutoff
        → length2 (near_image s (slice_index_or references i d) (slice_index_or references j d)) < (cutoff + skin) * (cutoff + skin) }
{}
