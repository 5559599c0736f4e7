//! The sites that the list of a brick is made of: of its own atoms, and of its ghosts.
ghost use Rattle.std.specs.Prelude.{◌≡◌, ◌++◌, ◌<◌, All, IfOk, OnOk, length, map};
ghost use Rattle.ghost_shell.specs.Lists.{own_site, sites_of};
ghost use Rattle.ghost_shell.specs.Walks.{atoms_at};

use box_geo::{Atom, Site, Sites};
use fx_num::{NoMemory, Seq};
use ghost_shell::Ghost;
use std::alloc::Global;

/// The sites of the atoms at some places.
pub(crate) fn own_sites(alloc: Global, atoms: &[Atom], places: &[u32]) -> Result<Sites, NoMemory>
    requires { All (λ k. k < length atoms.now) places.now }
    ensures { IfOk result (λ l. l ≡ map own_site (atoms_at atoms.now places.now)) }
{
    let mut sites = Vec::new(alloc);
    push_own(&mut sites, atoms, places)?;
    Ok(Seq::from_vec(sites))
}

/// The same, and then those of ghosts.
pub(crate) fn all_sites(
    alloc: Global,
    atoms: &[Atom],
    places: &[u32],
    ghosts: &[Ghost],
) -> Result<Sites, NoMemory>
    requires { All (λ k. k < length atoms.now) places.now }
    ensures { IfOk result (λ l. l ≡ map own_site (atoms_at atoms.now places.now) ++ sites_of ghosts.now) }
{
    let mut sites = Vec::new(alloc);
    push_own(&mut sites, atoms, places)?;
    push_ghosts(&mut sites, ghosts)?;
    Ok(Seq::from_vec(sites))
}

/// Appends the sites of the atoms at some places.
fn push_own(sites: &mut Vec<Site>, atoms: &[Atom], places: &[u32]) -> Result<(), NoMemory>
    requires { All (λ k. k < length atoms.now) places.now }
    ensures { OnOk result (sites.new.items ≡ sites.old.items ++ map own_site (atoms_at atoms.now places.now)) }
{
    for place in places {
        sites.push(own_site(*place, &atoms[*place as usize]))?;
    }
    Ok(())
}

/// The site of an atom where it stands.
fn own_site(place: u32, atom: &Atom) -> Site
    ensures { result ≡ own_site (place, atom.now) }
{
    let x = atom.x;
    Site {
        x,
        id: atom.id,
        place,
    }
}

/// Appends the sites of ghosts.
fn push_ghosts(sites: &mut Vec<Site>, ghosts: &[Ghost]) -> Result<(), NoMemory>
    ensures { OnOk result (sites.new.items ≡ sites.old.items ++ sites_of ghosts.now) }
{
    for image in ghosts {
        let site = image.site;
        sites.push(site)?;
    }
    Ok(())
}
