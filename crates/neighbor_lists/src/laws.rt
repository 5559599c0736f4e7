//! Laws of the pairs of bricks. Each function is empty: its clauses are the law.
ghost use Rattle.std.specs.Prelude.{◌+◌, ◌<◌, ℕ, List, All, [], ◌∷◌, flat_map, length};
ghost use Rattle.std.specs.List.{range_with_len};
ghost use Rattle.std.specs.List.Sorted.{IsPermutation};
ghost use Rattle.box_geo.specs.Sides.{HasEdges, IsInside};
ghost use Rattle.box_geo.specs.declared.atoms.Atom.{Atom};
ghost use Rattle.box_geo.specs.declared.sim_box.Sides.{Sides};
ghost use Rattle.ghost_shell.specs.Lists.{HasRoom, HaveRisingIds, near_places};
ghost use Rattle.neighbor_lists.specs.Pairs.{brick_pairs};
ghost use Rattle.rank_grid.specs.Bricks.{AreCounts, ranks};

/// The pairs of all bricks are the pairs of places of atoms that are nearer than the reach, each once.
pub fn the_bricks_share_the_near_pairs()
    ensures { (counts : List ℕ) (s : Sides) (atoms : List Atom) (reach : ℕ)
        → AreCounts counts → HasEdges s → HasRoom s reach → 0 < reach
        → All (λ a. IsInside s a.x) atoms → HaveRisingIds atoms
        → IsPermutation (near_places s reach atoms) (flat_map (brick_pairs counts s reach atoms) (range_with_len 0 (ranks counts))) }
{}

/// Where the box is one brick, its pairs are all of them.
pub fn one_brick_has_the_near_pairs()
    ensures { (s : Sides) (atoms : List Atom) (reach : ℕ)
        → HasEdges s → HasRoom s reach → 0 < reach → All (λ a. IsInside s a.x) atoms → HaveRisingIds atoms
        → IsPermutation (near_places s reach atoms) (brick_pairs (1 ∷ 1 ∷ 1 ∷ []) s reach atoms 0) }
{}

/// A pair of these places has the lesser place first, and both stand in the list of atoms.
pub fn near_places_rise()
    ensures { (s : Sides) (reach : ℕ) (atoms : List Atom) → All (λ p. (p.0 < p.1) × (p.1 < length atoms)) (near_places s reach atoms) }
{}
