//! The pairs of rows.
ghost use Rattle.std.specs.Prelude.{◌≡◌, ◌<◌, Bool, ℕ, List, length, map, slice_index_or};
ghost use Rattle.std.specs.List.Sorted.{IsPermutation};
ghost use Rattle.box_geo.specs.declared.atoms.Atom.{Atom};
ghost use Rattle.box_geo.specs.declared.atoms.Site.{Site};
ghost use Rattle.half_list.specs.Neighbours.{is_near, neighbours};
ghost use Rattle.list_laws.specs.Pairs.{AreRows, IdsRise, ShowNear, greater_near, pairs_of, site_of, sites_from};
ghost use Rattle.serial_step.specs.Pairs.{AreNearPairs};

/// Rows of the near atoms of greater id, for own atoms that are all atoms in any order, as those of
/// bricks one after another, give each near pair of the atoms once.
pub fn rows_are_the_near_pairs()
    ensures { (near : Atom × Atom → Bool) (atoms own : List Atom) (rows : List (List Atom))
        → IdsRise atoms → IsPermutation atoms own → AreRows near atoms own rows
        → AreNearPairs near atoms (pairs_of own rows) }
{}

/// The row of a half list, with the atom at each of its places, is the row of the site's atom, where
/// the sites show each atom once where it is near.
pub fn rows_of_sites_are_rows_of_atoms()
    ensures { (near : Atom × Atom → Bool) (reach : ℕ) (atoms : List Atom) (sites : List Site) (atom_at : ℕ → Atom)
        (own_site : Site) (own : Atom) (row : List ℕ)
        → ShowNear near reach atoms sites atom_at own_site own → IsPermutation (neighbours reach own_site sites) row
        → IsPermutation (greater_near near atoms own) (map atom_at row) }
{}

/// Where no axis wraps, the sites of the atoms themselves show each atom once where it is near.
pub fn sites_without_images_show_each_atom()
    ensures { (reach : ℕ) (atoms : List Atom) (place : ℕ) (own d : Atom)
        → ShowNear (λ p. is_near reach p.0.x p.1.x) reach atoms (sites_from 0 atoms)
        (λ k. slice_index_or atoms k d) (site_of place own) own }
{}
