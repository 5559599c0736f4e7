//! What draws depend on, what a refusal tells, and what an empty group does.
ghost use Rattle.std.specs.Prelude.{◌≡◌, ◌≤◌, ℕ, ℤ, pos, true, List, [], Some, None, Option, All, Contains};
ghost use Rattle.std.specs.List.Sorted.{IsPermutation};
ghost use Rattle.box_geo.specs.declared.atoms.Atom.{Atom};
ghost use Rattle.velocity_make.specs.declared.calls.Drawing.{Drawing};
ghost use Rattle.velocity_make.specs.declared.changes.Change.{Change};
ghost use Rattle.velocity_make.specs.Change.{changed_all};
ghost use Rattle.velocity_make.specs.Draw.{draw_of};
ghost use Rattle.velocity_make.specs.Group.{is_member, mass_of};
ghost use Rattle.velocity_make.specs.Make.{HasFast, created, drawn, drawn_all, too_fast};

/// A draw depends on the seed, the atom's id and its mass alone: not on the order of the atoms, on other atoms, or on
/// how the box is shared out.
pub fn draws_depend_on_ids()
    ensures { (mass : List ℤ) (dim : ℕ) (ids : List ℕ) (seed : ℕ) (a b : Atom) → is_member ids a ≡ true → a.id ≡ b.id
        → mass_of mass a ≡ mass_of mass b → (drawn mass dim ids seed a).v ≡ (drawn mass dim ids seed b).v }
{}

/// The id of a refusal is the least of the group's atoms that are too fast, and without one no such atom is.
pub fn the_refusal_is_the_least()
    ensures there { (ids : List ℕ) (atoms : List Atom) (id : ℕ) → too_fast ids atoms ≡ Some id
        → (a : Atom) × HasFast ids atoms a × (a.id ≡ id) }
    ensures least { (ids : List ℕ) (atoms : List Atom) (id : ℕ) (a : Atom) → too_fast ids atoms ≡ Some id
        → HasFast ids atoms a → id ≤ a.id }
    ensures none { (ids : List ℕ) (atoms : List Atom) (a : Atom) → too_fast ids atoms ≡ None → HasFast ids atoms a → ⊥ }
{}

/// Without ids nothing changes, and no call is refused for it.
pub fn without_ids_nothing_changes()
    ensures draws { (mass : List ℤ) (dim seed : ℕ) (atoms : List Atom) → drawn_all mass dim [] seed atoms ≡ atoms }
    ensures changes { (change : Change) (atoms : List Atom) → changed_all [] change atoms ≡ atoms }
    ensures speeds { (atoms : List Atom) → too_fast [] atoms ≡ None }
{}

/// The order of the atoms does not matter: where they are permuted, the same atoms are given the same velocities.
pub fn order_does_not_matter()
    ensures { (mass : List ℤ) (dim : ℕ) (ids : List ℕ) (d : Drawing) (atoms others : List Atom) → IsPermutation atoms others
        → IsPermutation (created mass dim ids d atoms) (created mass dim ids d others) }
{}
