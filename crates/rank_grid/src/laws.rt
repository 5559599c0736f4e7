//! Laws of the bricks. Each function is empty: its clauses are the law.
ghost use Rattle.std.specs.Prelude.{◌≡◌, ◌<◌, ◌==◌, ℕ, ℤ, List, flat_map, All};
ghost use Rattle.std.specs.List.{range_with_len};
ghost use Rattle.std.specs.List.Sorted.{IsPermutation};
ghost use Rattle.box_geo.specs.Sides.{HasEdges, IsInside};
ghost use Rattle.box_geo.specs.declared.atoms.Atom.{Atom};
ghost use Rattle.box_geo.specs.declared.sim_box.Sides.{Sides};
ghost use Rattle.rank_grid.specs.Bricks.{owner, ranks, AreCounts, IsInBrick};
ghost use Rattle.rank_grid.specs.Owned.{atoms_of_rank, numbered};

/// The bricks tile the box: each position inside is in the brick of its owner and in no other, and a
/// brick holds no position outside.
pub fn bricks_tile_the_box()
    ensures rank { (counts : List ℕ) (s : Sides) (p : List ℤ) → AreCounts counts → HasEdges s → IsInside s p
        → owner counts s p < ranks counts }
    ensures owner { (counts : List ℕ) (s : Sides) (p : List ℤ) → AreCounts counts → HasEdges s → IsInside s p
        → IsInBrick counts s (owner counts s p) p }
    ensures only { (counts : List ℕ) (s : Sides) (rank : ℕ) (p : List ℤ) → AreCounts counts → HasEdges s → IsInside s p
        → rank < ranks counts → IsInBrick counts s rank p → owner counts s p ≡ rank }
    ensures inside { (counts : List ℕ) (s : Sides) (rank : ℕ) (p : List ℤ) → AreCounts counts → HasEdges s
        → rank < ranks counts → IsInBrick counts s rank p → IsInside s p }
{}

/// Each atom is with one rank, once: the atoms of all ranks, one rank after another, are all atoms.
pub fn each_atom_has_one_owner()
    ensures { (counts : List ℕ) (s : Sides) (atoms : List Atom) → AreCounts counts → HasEdges s → All (λ a. IsInside s a.x) atoms
        → IsPermutation (numbered 0 atoms) (flat_map (atoms_of_rank counts s atoms) (range_with_len 0 (ranks counts))) }
{}
