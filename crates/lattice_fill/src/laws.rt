//! What the points of a lattice in a box are.
ghost use Rattle.std.specs.Prelude.{◌≢◌, ℤ, List};
ghost use Rattle.std.specs.List.{AllPairs, Contains};
ghost use Rattle.box_geo.specs.declared.sim_box.Sides.{Sides};
ghost use Rattle.box_geo.specs.declared.styles.LatticeStyle.{LatticeStyle};
ghost use Rattle.box_geo.specs.Sides.{IsInside};
ghost use Rattle.lattice_fill.specs.declared.basis.Quarters.{Quarters};
ghost use Rattle.lattice_fill.specs.declared.range.Cell.{Cell};
ghost use Rattle.lattice_fill.specs.declared.spacing.Spacing.{Spacing};
ghost use Rattle.lattice_fill.specs.Lattice.{IsFair};
ghost use Rattle.lattice_fill.specs.Points.{IsPoint, points_of};

/// The points of a lattice in a box are just those of all its cells, in two dimensions of the layer at the
/// origin, that are inside: though only the cells near the box are gone through, none is missed.
pub fn no_point_is_missed()
    ensures all { (l : LatticeStyle) (s : Spacing) (b : Sides) (p : List ℤ) (c : Cell) (q : Quarters) → IsFair s
        → IsPoint l s p c q → IsInside b p → Contains (points_of l s b) p }
    ensures inside { (l : LatticeStyle) (s : Spacing) (b : Sides) (p : List ℤ) → Contains (points_of l s b) p → IsInside b p }
    ensures points { (l : LatticeStyle) (s : Spacing) (b : Sides) (p : List ℤ) → Contains (points_of l s b) p
        → (c : Cell) × (q : Quarters) × IsPoint l s p c q }
{}

/// No point is made twice: two places of the list hold different points.
pub fn no_point_stands_twice()
    ensures { (l : LatticeStyle) (s : Spacing) (b : Sides) → IsFair s → AllPairs (λ p r. p ≢ r) (points_of l s b) }
{}
