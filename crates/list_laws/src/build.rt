//! Between two builds of a list.
ghost use Rattle.std.specs.Prelude.{◌≡◌, ◌+◌, true, false, ℕ, ℤ, List, length, map};
ghost use Rattle.std.specs.List.{All, filter};
ghost use Rattle.std.specs.List.Sorted.{IsPermutation};
ghost use Rattle.box_geo.specs.Sides.{IsInside, near_image};
ghost use Rattle.box_geo.specs.declared.atoms.Atom.{Atom};
ghost use Rattle.box_geo.specs.declared.sim_box.Sides.{Sides};
ghost use Rattle.ghost_shell.specs.Lists.{HasRoom, is_short, near_places};
ghost use Rattle.list_laws.specs.Moved.{sites_apart};
ghost use Rattle.serial_step.specs.Pairs.{AreNearPairs, is_within, pair_at};
ghost use Rattle.serial_step.specs.Rebuild.{is_far, positions, renews};

/// Let the lists of all bricks have each pair of places of atoms once that were nearer than the sum of
/// cutoff and skin when the lists were built. Where no atom is farther than half the skin from its
/// place then, the pairs of the present atoms at these places that are nearer than the cutoff are the
/// near pairs of the present atoms, each once.
pub fn lists_have_the_near_pairs_until_the_next_build()
    ensures { (s : Sides) (cutoff skin : ℕ) (built present : List Atom) (d : Atom) (places : List (ℕ × ℕ))
        → All (λ a. IsInside s a.x) built → length built ≡ length present
        → renews s skin (positions present) (positions built) ≡ false
        → IsPermutation (near_places s (cutoff + skin) built) places
        → AreNearPairs (is_within s cutoff) present (filter (is_within s cutoff) (map (pair_at present d) places)) }
{}

/// Between two builds the site of an atom is where the atom was at the build, and what it moved since
/// then to the nearest image; the site of a ghost likewise, from the image that was nearest then.
/// Where neither atom is farther than half the skin from its place at the build, two sites whose atoms
/// are nearer than the cutoff differ by the displacement to the nearest image; the sites of other atoms
/// are at least the cutoff apart.
pub fn sites_stand_at_the_nearest_image_until_the_next_build()
    ensures near { (s : Sides) (cutoff skin : ℕ) (a b a_built b_built : List ℤ)
        → HasRoom s (cutoff + skin) → IsInside s a_built → IsInside s b_built
        → is_far s skin (a, a_built) ≡ false → is_far s skin (b, b_built) ≡ false
        → is_short cutoff (near_image s a b) ≡ true → sites_apart s a b a_built b_built ≡ near_image s a b }
    ensures others { (s : Sides) (cutoff : ℕ) (a b a_built b_built : List ℤ) → IsInside s a → IsInside s b
        → is_short cutoff (near_image s a b) ≡ false → is_short cutoff (sites_apart s a b a_built b_built) ≡ false }
{}
