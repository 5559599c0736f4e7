//! Laws of the forces and of the sums over pairs. Each function is empty: its clauses are the law.
ghost use Rattle.std.specs.Prelude.{◌≡◌, ◌*◌, ◌<◌, ◌≤◌, ◌⊎◌, Bool, true, ℕ, min, ℤ, pos, List, [], ◌∷◌, ◌++◌, Ok, None, IfSome, length, map, slice_index_or};
ghost use Rattle.std.specs.List.{Contains};
ghost use Rattle.std.specs.List.Sorted.{IsPermutation};
ghost use Rattle.box_geo.specs.Fault.{no_fault};
ghost use Rattle.box_geo.specs.Sides.{near_image, length2, x_of, y_of, z_of, HasEdges, IsOpposite};
ghost use Rattle.box_geo.specs.declared.atoms.Atom.{Atom};
ghost use Rattle.box_geo.specs.declared.sim_box.Sides.{Sides};
ghost use Rattle.pair_lj.specs.PairTerm.{AreOpposite};
ghost use Rattle.pair_lj.specs.Pairs.{numbers_at};
ghost use Rattle.pair_lj.specs.declared.pair_settings.PairCoefficients.{PairCoefficients};
ghost use Rattle.serial_step.specs.Forces.{Field, field_of, term_of, force_of, energy_of, virial_of, force_on, least, pair_energy, pair_virial, terms_fault};
ghost use Rattle.serial_step.specs.Pairs.{IsFair, AreApart, LeavesNoTerm, AreNearPairs, HasEachNearPairOnce, OnlyTurns, IsReach, brought, energy_between, virial_between, word_between, joined, is_within, lesser_id_first, pair_at};
ghost use Rattle.sums.specs.Totals.{total, half};

/// The term of a pair is odd: taken from the other atom it is of the same kind, with the negative
/// force, component by component, the same energy and the same virial.
pub fn terms_are_odd()
    ensures kind { (field : Field) (s : Sides) (i j : Atom) → IsFair field → HasEdges s
        → AreOpposite (term_of field s i j) (term_of field s j i) }
    ensures force { (field : Field) (s : Sides) (i j : Atom) → IsFair field → HasEdges s
        → IsOpposite (force_of (term_of field s i j)) (force_of (term_of field s j i)) }
    ensures energy { (field : Field) (s : Sides) (i j : Atom) → IsFair field → HasEdges s
        → energy_of (term_of field s j i) ≡ energy_of (term_of field s i j) }
    ensures virial { (field : Field) (s : Sides) (i j : Atom) → IsFair field → HasEdges s
        → virial_of (term_of field s j i) ≡ virial_of (term_of field s i j) }
{}

/// In the field of the pairs that are set a pair has no order.
pub fn fields_are_fair()
    ensures { (pairs : List PairCoefficients) → IsFair (field_of pairs) }
{}

/// An atom has no term with itself, nor with any atom of its id: nothing acts there.
pub fn an_atom_has_no_term_with_itself()
    ensures term { (field : Field) (s : Sides) (i j : Atom) → i.id ≡ j.id → term_of field s i j ≡ Ok None }
    ensures force { (field : Field) (s : Sides) (i : Atom)
        → force_of (term_of field s i i) ≡ pos 0 ∷ pos 0 ∷ pos 0 ∷ [] }
{}

/// Forces from pairs. Take the unordered pairs that are near, in any order, where all others have no
/// term. Let each pair add a component of its force to the word of its first atom, and the negative
/// to the word of its second. Where no two atoms have one word, the word of each atom then holds
/// that component of the force on it.
pub fn forces_come_from_pairs()
    ensures x { (field : Field) (s : Sides) (word : Atom → ℕ) (atoms : List Atom) (near : Atom × Atom → Bool) (pairs : List (Atom × Atom)) (i : ℕ) (d : Atom)
        → IsFair field → HasEdges s → AreApart word atoms → LeavesNoTerm field s near → AreNearPairs near atoms pairs → i < length atoms
        → brought field s x_of word pairs (word (slice_index_or atoms i d)) ≡ x_of (force_on field s atoms (slice_index_or atoms i d)) }
    ensures y { (field : Field) (s : Sides) (word : Atom → ℕ) (atoms : List Atom) (near : Atom × Atom → Bool) (pairs : List (Atom × Atom)) (i : ℕ) (d : Atom)
        → IsFair field → HasEdges s → AreApart word atoms → LeavesNoTerm field s near → AreNearPairs near atoms pairs → i < length atoms
        → brought field s y_of word pairs (word (slice_index_or atoms i d)) ≡ y_of (force_on field s atoms (slice_index_or atoms i d)) }
    ensures z { (field : Field) (s : Sides) (word : Atom → ℕ) (atoms : List Atom) (near : Atom × Atom → Bool) (pairs : List (Atom × Atom)) (i : ℕ) (d : Atom)
        → IsFair field → HasEdges s → AreApart word atoms → LeavesNoTerm field s near → AreNearPairs near atoms pairs → i < length atoms
        → brought field s z_of word pairs (word (slice_index_or atoms i d)) ≡ z_of (force_on field s atoms (slice_index_or atoms i d)) }
{}

/// The force on an atom is what the pairs bring to its word in the three components, as in
/// [`forces_come_from_pairs`].
pub fn a_force_comes_from_pairs()
    ensures { (field : Field) (s : Sides) (word : Atom → ℕ) (atoms : List Atom) (near : Atom × Atom → Bool) (pairs : List (Atom × Atom)) (i : ℕ) (d : Atom)
        → IsFair field → HasEdges s → AreApart word atoms → LeavesNoTerm field s near → AreNearPairs near atoms pairs → i < length atoms
        → let k = word (slice_index_or atoms i d) in
        brought field s x_of word pairs k ∷ brought field s y_of word pairs k ∷ brought field s z_of word pairs k ∷ []
        ≡ force_on field s atoms (slice_index_or atoms i d) }
{}

/// What joined lists of pairs bring to a word is the sum of what each list brings.
pub fn what_pairs_bring_adds_up()
    ensures { (field : Field) (s : Sides) (component : List ℤ → ℤ) (word : Atom → ℕ) (lists : List (List (Atom × Atom))) (k : ℕ)
        → brought field s component word (joined lists) k ≡ total (λ pairs. brought field s component word pairs k) lists }
{}

/// The energy and the virial are totals over the unordered pairs that are near, in any order, where
/// all others have no term; and where these pairs are in several lists, totals of their totals.
pub fn sums_come_from_pairs()
    ensures energy { (field : Field) (s : Sides) (atoms : List Atom) (near : Atom × Atom → Bool) (pairs : List (Atom × Atom))
        → LeavesNoTerm field s near → AreNearPairs near atoms pairs
        → pair_energy field s atoms ≡ total (energy_between field s) pairs }
    ensures virial { (field : Field) (s : Sides) (atoms : List Atom) (near : Atom × Atom → Bool) (pairs : List (Atom × Atom))
        → LeavesNoTerm field s near → AreNearPairs near atoms pairs
        → pair_virial field s atoms ≡ total (virial_between field s) pairs }
    ensures energy_by_lists { (field : Field) (s : Sides) (atoms : List Atom) (near : Atom × Atom → Bool) (lists : List (List (Atom × Atom)))
        → LeavesNoTerm field s near → AreNearPairs near atoms (joined lists)
        → pair_energy field s atoms ≡ total (λ pairs. total (energy_between field s) pairs) lists }
    ensures virial_by_lists { (field : Field) (s : Sides) (atoms : List Atom) (near : Atom × Atom → Bool) (lists : List (List (Atom × Atom)))
        → LeavesNoTerm field s near → AreNearPairs near atoms (joined lists)
        → pair_virial field s atoms ≡ total (λ pairs. total (virial_between field s) pairs) lists }
{}

/// The fault of the terms is the least word over the unordered pairs that are near, in any order,
/// where all others have no term; and where these pairs are in several lists, the least of their
/// least words.
pub fn the_fault_comes_from_pairs()
    ensures pairs { (field : Field) (s : Sides) (atoms : List Atom) (near : Atom × Atom → Bool) (pairs : List (Atom × Atom))
        → LeavesNoTerm field s near → AreNearPairs near atoms pairs
        → terms_fault field s atoms ≡ least (map (word_between field s) pairs) }
    ensures by_lists { (field : Field) (s : Sides) (atoms : List Atom) (near : Atom × Atom → Bool) (lists : List (List (Atom × Atom)))
        → LeavesNoTerm field s near → AreNearPairs near atoms (joined lists)
        → terms_fault field s atoms ≡ least (map (λ pairs. least (map (word_between field s) pairs)) lists) }
{}

/// The least of some words is one of them, or `no_fault`; none is less. It does not depend on their
/// order, and of two lists joined it is the lesser.
pub fn the_least_word()
    ensures reached { (words : List ℕ) → (least words ≡ no_fault) ⊎ Contains words (least words) }
    ensures least { (words : List ℕ) (w : ℕ) → Contains words w → least words ≤ w }
    ensures any_order { (words others : List ℕ) → IsPermutation words others → least others ≡ least words }
    ensures joined { (words others : List ℕ) → least (words ++ others) ≡ min (least words) (least others) }
{}

/// A pair at or beyond its cutoff has no term; so a reach that no cutoff is beyond, as a cutoff with
/// a skin, leaves out no term.
pub fn terms_end_at_the_cutoff()
    ensures cutoff { (field : Field) (s : Sides) (i j : Atom)
        → IfSome (numbers_at field.pairs i.kind j.kind) (λ k. k.cutoff * k.cutoff ≤ length2 (near_image s i.x j.x))
        → term_of field s i j ≡ Ok None }
    ensures reach { (field : Field) (s : Sides) (reach : ℕ) → IsReach field reach
        → LeavesNoTerm field s (is_within s reach) }
{}

/// All unordered pairs, as they stand, are a list of near pairs, for the test that leaves out none.
pub fn all_pairs_are_near_pairs()
    ensures { (atoms : List Atom) → AreNearPairs (λ p. true) atoms (half atoms) }
{}

/// A list of pairs of places that has each pair of atoms that is near, the lesser place first and
/// each once, gives their near pairs. This is how a half list or a search by bins meets the other
/// laws.
pub fn near_pairs_come_from_places()
    ensures { (near : Atom × Atom → Bool) (atoms : List Atom) (d : Atom) (places : List (ℕ × ℕ))
        → HasEachNearPairOnce near atoms d places → AreNearPairs near atoms (map (pair_at atoms d) places) }
{}

/// Each pair of a list may be taken either way round, as with the lesser id first: forces, energy,
/// virial and words of faults stay.
pub fn pairs_may_be_turned()
    ensures by_id { OnlyTurns lesser_id_first }
    ensures x { (field : Field) (s : Sides) (turn : Atom × Atom → Atom × Atom) (word : Atom → ℕ) (pairs : List (Atom × Atom)) (k : ℕ)
        → IsFair field → HasEdges s → OnlyTurns turn
        → brought field s x_of word (map turn pairs) k ≡ brought field s x_of word pairs k }
    ensures y { (field : Field) (s : Sides) (turn : Atom × Atom → Atom × Atom) (word : Atom → ℕ) (pairs : List (Atom × Atom)) (k : ℕ)
        → IsFair field → HasEdges s → OnlyTurns turn
        → brought field s y_of word (map turn pairs) k ≡ brought field s y_of word pairs k }
    ensures z { (field : Field) (s : Sides) (turn : Atom × Atom → Atom × Atom) (word : Atom → ℕ) (pairs : List (Atom × Atom)) (k : ℕ)
        → IsFair field → HasEdges s → OnlyTurns turn
        → brought field s z_of word (map turn pairs) k ≡ brought field s z_of word pairs k }
    ensures energy { (field : Field) (s : Sides) (turn : Atom × Atom → Atom × Atom) (pairs : List (Atom × Atom))
        → IsFair field → HasEdges s → OnlyTurns turn
        → total (energy_between field s) (map turn pairs) ≡ total (energy_between field s) pairs }
    ensures virial { (field : Field) (s : Sides) (turn : Atom × Atom → Atom × Atom) (pairs : List (Atom × Atom))
        → IsFair field → HasEdges s → OnlyTurns turn
        → total (virial_between field s) (map turn pairs) ≡ total (virial_between field s) pairs }
    ensures words { (field : Field) (s : Sides) (turn : Atom × Atom → Atom × Atom) (pairs : List (Atom × Atom))
        → IsFair field → HasEdges s → OnlyTurns turn
        → map (word_between field s) (map turn pairs) ≡ map (word_between field s) pairs }
{}
