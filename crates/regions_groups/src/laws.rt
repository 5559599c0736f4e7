//! Laws of regions and of sets of ids.
ghost use Rattle.std.specs.Prelude.{◌≡◌, ◌&&◌, ◌||◌, not, ℕ, ℤ, List, ◌∷◌};
ghost use Rattle.box_geo.specs.Ids.{is_among, Rises};
ghost use Rattle.regions_groups.specs.Ids.{difference, intersection, union_of};
ghost use Rattle.regions_groups.specs.Regions.{holds, other_side, NamedRegion};
ghost use Rattle.regions_groups.specs.declared.shapes.Region.{Region};

/// The outside of a shape, also of a union or an intersection, holds exactly the points that its inside does
/// not hold.
pub fn side_out_is_the_complement()
    ensures { (earlier : List NamedRegion) (name : List ℕ) (region : Region) (x : List ℤ) →
        holds (record { name = name; region = other_side region } ∷ earlier) name x
        ≡ not (holds (record { name = name; region = region } ∷ earlier) name x) }
{}

/// Of lists in strictly rising order the union has the ids of either, the difference those of the first that
/// are not in the second, and the intersection those of both, each in strictly rising order.
pub fn sets_of_ids_have_these_members()
    ensures either { (ids others : List ℕ) (id : ℕ) → Rises ids → Rises others →
        is_among (union_of ids others) id ≡ (is_among ids id || is_among others id) }
    ensures first { (ids others : List ℕ) (id : ℕ) → Rises ids → Rises others →
        is_among (difference ids others) id ≡ (is_among ids id && not (is_among others id)) }
    ensures both { (ids others : List ℕ) (id : ℕ) → Rises ids → Rises others →
        is_among (intersection ids others) id ≡ (is_among ids id && is_among others id) }
    ensures union_rises { (ids others : List ℕ) → Rises ids → Rises others → Rises (union_of ids others) }
    ensures difference_rises { (ids others : List ℕ) → Rises ids → Rises others → Rises (difference ids others) }
    ensures intersection_rises { (ids others : List ℕ) → Rises ids → Rises others → Rises (intersection ids others) }
{}

/// Lists in strictly rising order that have the same ids are equal.
pub fn rising_ids_are_told_by_their_members()
    ensures { (ids others : List ℕ) → Rises ids → Rises others →
        ((id : ℕ) → is_among ids id ≡ is_among others id) → ids ≡ others }
{}
