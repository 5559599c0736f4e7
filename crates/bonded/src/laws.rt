//! Laws of bonds and of special weights. Each function is empty: its clause is the law.
ghost use Rattle.std.specs.Prelude.{◌≡◌, ◌^◌, ◌≤◌, ℕ, ℤ, List, length};
ghost use Rattle.box_geo.specs.Sides.{IsOpposite};
ghost use Rattle.box_geo.specs.declared.atoms.Bond.{Bond};
ghost use Rattle.bonded.specs.Angles.{angle_term, exchanged};
ghost use Rattle.bonded.specs.Bonds.{bond_term, AreOpposite};
ghost use Rattle.bonded.specs.Paths.{special_weight, weight_of_length, AreUnits, IsPath, IsShortest};

/// The term of a bond is odd: at the opposite displacement it is a fault likewise, or has the negative
/// force, component by component, the same energy and the same virial.
pub fn bond_term_is_odd()
    ensures { (d e : List ℤ) (k r0 rcmax : ℤ) → IsOpposite d e
        → AreOpposite (bond_term d k r0 rcmax) (bond_term e k r0 rcmax) }
{}

/// The special weight of two atoms is that of a shortest path of bonds between them, and the whole
/// weight where there is none.
pub fn weights_are_those_of_shortest_paths()
    ensures joined { (bonds path : List Bond) (weights : List ℕ) (a b : ℕ) → IsShortest bonds path a b
        → special_weight bonds weights a b ≡ weight_of_length weights (length path) }
    ensures apart { (bonds : List Bond) (weights : List ℕ) (a b : ℕ)
        → ((path : List Bond) → IsPath bonds path a b → ⊥) → special_weight bonds weights a b ≡ 2 ^ 24 }
{}

/// Two atoms have no order: their special weight is the same either way.
pub fn special_weights_have_no_order()
    ensures { (bonds : List Bond) (weights : List ℕ) (a b : ℕ)
        → special_weight bonds weights a b ≡ special_weight bonds weights b a }
{}

/// A special weight is at most the whole where the three weights are.
pub fn special_weights_are_bounded()
    ensures { (bonds : List Bond) (weights : List ℕ) (a b : ℕ)
        → AreUnits weights → special_weight bonds weights a b ≤ 2 ^ 24 }
{}

/// The outer atoms of an angle have no order: exchanged, they have each other's forces, the same energy
/// and the same virial.
pub fn outer_atoms_have_no_order()
    ensures { (d1 d2 : List ℤ) (k rcmax : ℤ)
        → angle_term d2 d1 k rcmax ≡ exchanged (angle_term d1 d2 k rcmax) }
{}
