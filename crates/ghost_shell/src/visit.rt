//! A visit to a brick: which images of its atoms are ghosts.
ghost use Rattle.std.specs.Prelude.{◌≡◌, ◌++◌, ◌∷◌, [], ◌<◌, ◌≤◌, ◌^◌, true, OnOk, flat_map, length, unsigned_abs};
ghost use Rattle.std.specs.List.{All};
ghost use Rattle.box_geo.specs.Sides.{x_of, y_of};
ghost use Rattle.ghost_shell.specs.Ghosts.{IsNearBox, ghost_of};
ghost use Rattle.ghost_shell.specs.Halos.{is_near_on};
ghost use Rattle.ghost_shell.specs.Walks.{atoms_at, found_of, found_on_line, found_on_plane, ghost_by};

use crate::atom::Ghost;
use crate::halo::Halo;
use crate::lengths::Lengths;
use crate::moves::{moved, stays};
use box_geo::{Atom, Site};
use fx_num::{NoMemory, V3};

/// What is looked for in a brick.
#[derive(Drop)]
pub(crate) struct Visit {
    /// The halo of the rank whose ghosts are looked for.
    pub halo: Halo,
    /// The lengths by which the atoms of the brick may come into the halo.
    pub lengths: Lengths,
    /// Whether the brick is the rank's own.
    pub own: bool,
}

impl Visit {
    /// Appends the ghosts among the images of the atoms at some places.
    pub fn push_brick(
        &self,
        ghosts: &mut Vec<Ghost>,
        atoms: &[Atom],
        places: &[u32],
    ) -> Result<(), NoMemory>
        requires places { All (λ k. k < length atoms.now) places.now }
        requires inside { All (λ a. IsNearBox a.x) atoms.now }
        ensures { OnOk result (ghosts.new.items ≡ ghosts.old.items ++ flat_map (found_of self.now) (atoms_at atoms.now places.now)) }
    {
        for place in places {
            self.push_atom(ghosts, *place, &atoms[*place as usize])?;
        }
        Ok(())
    }

    /// Appends the ghosts among the images of the atom at a place.
    fn push_atom(&self, ghosts: &mut Vec<Ghost>, place: u32, atom: &Atom) -> Result<(), NoMemory>
        requires { IsNearBox atom.now.x }
        ensures { OnOk result (ghosts.new.items ≡ ghosts.old.items ++ found_of self.now (place, atom.now)) }
    {
        for i in self.lengths.x.as_slice() {
            self.push_plane(ghosts, place, atom, i)?;
        }
        Ok(())
    }

    /// Appends those by the length `i` along x.
    fn push_plane(
        &self,
        ghosts: &mut Vec<Ghost>,
        place: u32,
        atom: &Atom,
        i: &i64,
    ) -> Result<(), NoMemory>
        requires atom { IsNearBox atom.now.x }
        requires i { unsigned_abs i.now ≤ 2 ^ 35 }
        ensures { OnOk result (ghosts.new.items ≡ ghosts.old.items ++ found_on_plane self.now (place, atom.now) i.now) }
    {
        if !self.halo.is_near(0, &atom.x, i) {
            return Ok(());
        }
        for j in self.lengths.y.as_slice() {
            self.push_line(ghosts, place, atom, i, j)?;
        }
        Ok(())
    }

    /// Appends those by the lengths `i` along x and `j` along y.
    fn push_line(
        &self,
        ghosts: &mut Vec<Ghost>,
        place: u32,
        atom: &Atom,
        i: &i64,
        j: &i64,
    ) -> Result<(), NoMemory>
        requires atom { IsNearBox atom.now.x }
        requires i { unsigned_abs i.now ≤ 2 ^ 35 }
        requires j { unsigned_abs j.now ≤ 2 ^ 35 }
        requires near { is_near_on self.now.halo 0 atom.now.x i.now ≡ true }
        ensures { OnOk result (ghosts.new.items ≡ ghosts.old.items ++ found_on_line self.now (place, atom.now) i.now j.now) }
    {
        if !self.halo.is_near(1, &atom.x, j) {
            return Ok(());
        }
        for k in self.lengths.z.as_slice() {
            self.push_image(ghosts, place, atom, &[*i, *j, *k])?;
        }
        Ok(())
    }

    /// Appends the ghost of the atom at a place, moved by a shift that brings it near along x and y.
    fn push_image(
        &self,
        ghosts: &mut Vec<Ghost>,
        place: u32,
        atom: &Atom,
        shift: &V3,
    ) -> Result<(), NoMemory>
        requires atom { IsNearBox atom.now.x }
        requires shift { IsNearBox shift.now }
        requires near_x { is_near_on self.now.halo 0 atom.now.x (x_of shift.now) ≡ true }
        requires near_y { is_near_on self.now.halo 1 atom.now.x (y_of shift.now) ≡ true }
        ensures { OnOk result (ghosts.new.items ≡ ghosts.old.items ++ ghost_by self.now.halo self.now.own (place, atom.now) shift.now) }
    {
        if self.own && stays(shift) {
            return Ok(());
        }
        if !self.halo.is_near(2, &atom.x, &shift[2]) {
            return Ok(());
        }
        ghosts.push(ghost_of(place, atom, shift))?;
        Ok(())
    }
}

/// The ghost that is made of the atom at a place, moved by a shift.
fn ghost_of(place: u32, atom: &Atom, shift: &V3) -> Ghost
    requires x { IsNearBox atom.now.x }
    requires shift { IsNearBox shift.now }
    ensures { result ≡ ghost_of ((place, atom.now), shift.now) }
{
    let x = moved(&atom.x, shift);
    Ghost {
        site: Site {
            x,
            id: atom.id,
            place,
        },
        built: x,
        reference: atom.x,
    }
}
