//! Laws of ghosts. Each function is empty: its clauses are the law.
ghost use Rattle.std.specs.Prelude.{◌≡◌, ◌+◌, ◌<◌, ◌++◌, ◌==◌, ℕ, ℤ, pos, List, [], ◌∷◌, cond, flat_map, map, All};
ghost use Rattle.std.specs.List.{IsDistinct, filter, range_with_len};
ghost use Rattle.std.specs.List.Sorted.{IsPermutation};
ghost use Rattle.box_geo.specs.Sides.{HasEdges, IsInside, near_image};
ghost use Rattle.box_geo.specs.declared.atoms.Atom.{Atom};
ghost use Rattle.box_geo.specs.declared.atoms.Site.{Site};
ghost use Rattle.box_geo.specs.declared.sim_box.Sides.{Sides};
ghost use Rattle.rank_grid.specs.Bricks.{AreCounts, ranks};
ghost use Rattle.ghost_shell.specs.declared.atom.Ghost.{Ghost};
ghost use Rattle.ghost_shell.specs.Images.{moved, shifts};
ghost use Rattle.ghost_shell.specs.Ghosts.{ghosts};
ghost use Rattle.ghost_shell.specs.Lists.{difference, is_short, HasRoom, HaveRisingIds, nearest_shift, own_sites, sites_of, pairs_of_rows, near_places, atom_pair, atom_places, rank_sites, sites_numbered};
ghost use Rattle.sums.specs.Totals.{half};

/// Where each edge that wraps is at least twice the reach, a pair of positions inside the box that is
/// nearer than the reach has exactly one image of the second within reach of the first, and at it the
/// displacement is that to the nearest image. Other pairs have none.
pub fn a_near_pair_has_one_image()
    ensures one { (s : Sides) (reach : ℕ) (p q : List ℤ) → HasEdges s → HasRoom s reach → IsInside s p → IsInside s q
        → filter (λ shift. is_short reach (difference p (moved q shift))) (shifts s)
        ≡ cond (is_short reach (near_image s p q)) (nearest_shift s p q ∷ []) [] }
    ensures nearest { (s : Sides) (p q : List ℤ) → difference p (moved q (nearest_shift s p q)) ≡ near_image s p q }
{}

/// Let the lists of all bricks have the rows of their own atoms, in any order: for each own atom the
/// sites of greater id, own and ghosts, nearer than the reach. Then all lists together have each
/// pair of atoms that is nearer than the reach exactly once, in the brick that owns the lesser id.
/// The atoms at these pairs of places are the unordered pairs of atoms that are near.
pub fn the_lists_of_all_bricks_have_each_near_pair_once()
    ensures atoms { (s : Sides) (reach : ℕ) (atoms : List Atom) (d : Atom)
        → map (atom_pair atoms d) (near_places s reach atoms) ≡ filter (λ p. is_short reach (near_image s p.0.x p.1.x)) (half atoms) }
    ensures once { (counts : List ℕ) (s : Sides) (atoms : List Atom) (reach : ℕ) (shells : ℕ → List Ghost) (lists : ℕ → List (ℕ × ℕ))
        → AreCounts counts → HasEdges s → HasRoom s reach → 0 < reach
        → All (λ a. IsInside s a.x) atoms → HaveRisingIds atoms
        → ((rank : ℕ) → rank < ranks counts → IsPermutation (ghosts counts s rank (pos reach) atoms) (shells rank))
        → ((rank : ℕ) → rank < ranks counts → IsPermutation (pairs_of_rows reach (own_sites counts s atoms rank) (own_sites counts s atoms rank ++ sites_of (shells rank))) (lists rank))
        → IsPermutation (near_places s reach atoms) (flat_map lists (range_with_len 0 (ranks counts))) }
{}

/// The sites of a rank may be numbered by their places among its own sites and its ghosts, so that no
/// two have one number, as a list of neighbours wants it. Then the lists of all bricks, each number
/// turned into the place of its site's atom, have each near pair of atoms exactly once.
pub fn sites_may_be_numbered_by_their_own_list()
    ensures apart { (sites : List Site) → IsDistinct (λ a b. a == b) (map (λ s. s.place) (sites_numbered 0 sites)) }
    ensures once { (counts : List ℕ) (s : Sides) (atoms : List Atom) (reach : ℕ) (shells : ℕ → List Ghost) (lists : ℕ → List (ℕ × ℕ))
        → AreCounts counts → HasEdges s → HasRoom s reach → 0 < reach
        → All (λ a. IsInside s a.x) atoms → HaveRisingIds atoms
        → ((rank : ℕ) → rank < ranks counts → IsPermutation (ghosts counts s rank (pos reach) atoms) (shells rank))
        → ((rank : ℕ) → rank < ranks counts → IsPermutation (pairs_of_rows reach (sites_numbered 0 (own_sites counts s atoms rank)) (sites_numbered 0 (rank_sites counts s atoms rank (shells rank)))) (lists rank))
        → IsPermutation (near_places s reach atoms) (flat_map (λ rank. map (atom_places (rank_sites counts s atoms rank (shells rank))) (lists rank)) (range_with_len 0 (ranks counts))) }
{}
