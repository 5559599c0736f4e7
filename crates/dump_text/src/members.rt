//! The atoms of a group, by a walk through rising ids.
ghost use Rattle.std.specs.Prelude.{◌≡◌, ℕ, List, length};
ghost use Rattle.box_geo.specs.declared.atoms.Atom.{Atom};
ghost use Rattle.box_geo.specs.Ids.{Rises};
ghost use Rattle.dump_text.specs.Frame.{AreOf, ids_of, members};
ghost use Rattle.dump_text.specs.Walk.{begins_with, ids_from};

use box_geo::Atom;

/// What a list of ids has from the first id on that is not below this one.
pub(crate) fn ids_from(ids: &[u32], id: u32) -> &[u32]
    ensures { result.now ≡ ids_from id ids.now }
{
    let mut rest = ids;
    while let [first, behind @ ..] = rest {
        if *first >= id {
            return rest;
        }
        rest = behind;
    }
    rest
}

/// Whether this id is the first of a list.
pub(crate) fn begins_with(ids: &[u32], id: u32) -> bool
    ensures { result ≡ begins_with ids.now id }
{
    match ids {
        [] => false,
        [first, ..] => *first == id,
    }
}

/// How many of the atoms have one of the rising ids.
pub(crate) fn count_members(atoms: &[Atom], ids: &[u32]) -> usize
    requires rising_atoms { Rises (ids_of atoms.now) }
    requires rising_ids { Rises ids.now }
    ensures { result ≡ length (members ids.now atoms.now) }
{
    let mut count = 0;
    let mut rest = ids;
    for atom in atoms {
        rest = ids_from(rest, atom.id);
        if begins_with(rest, atom.id) {
            count += 1;
        }
    }
    count
}

/// A frame has a row for each id of a group, in their order, where each is the id of an atom: so the
/// number of its rows is that of the ids. A law, which does nothing when it runs.
pub fn each_id_has_its_row()
    ensures { (ids : List ℕ) (atoms : List Atom) → Rises ids → Rises (ids_of atoms) → AreOf ids atoms
        → ids_of (members ids atoms) ≡ ids }
{}
