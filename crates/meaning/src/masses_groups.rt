//! Masses and groups: what several commands ask of them.
ghost use Rattle.meaning.specs.MassesGroups.{are_massive, ids_in, ids_of, ids_under, is_all};
ghost use Rattle.box_geo.specs.Ids.{Rises};
ghost use Rattle.std.specs.Prelude.{◌≡◌, IfOk};

use box_geo::{Atom, Ids};
use fx_num::{NoMemory, Seq, Text};
use regions_groups::Groups;
use std::alloc::Global;

/// The name of the group of all atoms.
const ALL: &[u8] = b"all";

/// Whether each type has a mass.
pub fn are_massive(masses: &[i64]) -> bool
    ensures { result ≡ are_massive masses.now }
{
    masses.iter().all(|mass| *mass > 0)
}

/// Whether a group is that of all atoms.
pub fn is_all(name: &Text) -> bool
    ensures { result ≡ is_all name.now }
{
    name.as_bytes() == ALL
}

/// The ids of atoms.
pub fn ids_of(alloc: Global, atoms: &[Atom]) -> Result<Ids, NoMemory>
    ensures { IfOk result (λ ids. ids ≡ ids_of atoms.now) }
{
    let mut ids = Seq::new(alloc);
    for atom in atoms {
        ids.push(atom.id)?;
    }
    Ok(ids)
}

/// The ids that a group was given, none where it isn't there.
#[tactic(auto, using(box_geo::proofs::IdLemmas::rises_none))]
fn ids_under(alloc: Global, groups: &Groups, name: &Text) -> Result<Ids, NoMemory>
    ensures are { IfOk result (λ ids. ids ≡ ids_under groups.now name.now) }
    ensures rise { IfOk result (λ ids. Rises ids) }
{
    let Some(given) = groups.members(name) else {
        return Ok(Seq::new(alloc));
    };
    let mut ids = Vec::new(alloc);
    ids.extend_from_slice(given.as_slice())?;
    Ok(Seq::from_vec(ids))
}

/// The ids of a group over atoms: of all of them, or those that the group was given.
pub fn ids_in(alloc: Global, groups: &Groups, atoms: &[Atom], name: &Text) -> Result<Ids, NoMemory>
    requires { Rises (ids_of atoms.now) }
    ensures are { IfOk result (λ ids. ids ≡ ids_in groups.now atoms.now name.now) }
    ensures rise { IfOk result (λ ids. Rises ids) }
{
    if is_all(name) {
        return ids_of(alloc, atoms);
    }
    ids_under(alloc, groups, name)
}
