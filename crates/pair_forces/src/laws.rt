//! Laws of the pairs of lists. Each function is empty: its clauses are the law.
ghost use Rattle.std.specs.Prelude.{◌≡◌, ◌<◌, All, Bool, ℕ, ℤ, List, length, map, slice_index_or};
ghost use Rattle.std.specs.List.{filter};
ghost use Rattle.box_geo.specs.Sides.{HasEdges, x_of, y_of, z_of};
ghost use Rattle.box_geo.specs.declared.atoms.Atom.{Atom};
ghost use Rattle.box_geo.specs.declared.sim_box.Sides.{Sides};
ghost use Rattle.pair_forces.specs.Adds.{AreAdded, ArePlaces, FitWords, IsNone};
ghost use Rattle.pair_forces.specs.Sums.{AreSums};
ghost use Rattle.serial_step.specs.Forces.{Field, force_on, pair_energy, pair_virial, terms_fault};
ghost use Rattle.serial_step.specs.Pairs.{AreApart, AreNearPairs, IsFair, LeavesNoTerm, pair_at};

/// Where the pairs at some places hold each near pair of the atoms once, and all others have no term, what they
/// bring to forces that began at none is the force on each atom. Some of the places may be of pairs that are not
/// near.
pub fn listed_pairs_bring_the_forces()
    ensures { (field : Field) (s : Sides) (atoms : List Atom) (near : Atom × Atom → Bool) (places : List (ℕ × ℕ)) (old new : List (List ℤ)) (i : ℕ) (d : Atom) (v : List ℤ)
        → IsFair field → HasEdges s → AreApart (λ a. a.id) atoms → LeavesNoTerm field s near
        → ArePlaces atoms places → AreNearPairs near atoms (filter near (map (pair_at atoms d) places))
        → length old ≡ length atoms → All IsNone old → AreAdded field s atoms places old new → All FitWords new
        → i < length atoms → FitWords (force_on field s atoms (slice_index_or atoms i d))
        → (x_of (slice_index_or new i v) ≡ x_of (force_on field s atoms (slice_index_or atoms i d)))
        × (y_of (slice_index_or new i v) ≡ y_of (force_on field s atoms (slice_index_or atoms i d)))
        × (z_of (slice_index_or new i v) ≡ z_of (force_on field s atoms (slice_index_or atoms i d))) }
{}

/// The sums of such pairs are those over all pairs of the atoms.
pub fn listed_pairs_have_the_sums()
    ensures energy { (field : Field) (s : Sides) (atoms : List Atom) (near : Atom × Atom → Bool) (pairs : List (Atom × Atom)) (e v : ℤ) (w : ℕ)
        → LeavesNoTerm field s near → AreNearPairs near atoms (filter near pairs) → AreSums field s pairs e v w → e ≡ pair_energy field s atoms }
    ensures virial { (field : Field) (s : Sides) (atoms : List Atom) (near : Atom × Atom → Bool) (pairs : List (Atom × Atom)) (e v : ℤ) (w : ℕ)
        → LeavesNoTerm field s near → AreNearPairs near atoms (filter near pairs) → AreSums field s pairs e v w → v ≡ pair_virial field s atoms }
    ensures fault { (field : Field) (s : Sides) (atoms : List Atom) (near : Atom × Atom → Bool) (pairs : List (Atom × Atom)) (e v : ℤ) (w : ℕ)
        → LeavesNoTerm field s near → AreNearPairs near atoms (filter near pairs) → AreSums field s pairs e v w → w ≡ terms_fault field s atoms }
{}
