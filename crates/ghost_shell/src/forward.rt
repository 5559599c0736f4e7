//! Ghosts between builds: they move with their atoms.
ghost use Rattle.std.specs.Prelude.{◌≡◌, ◌<◌, All, length, map};
ghost use Rattle.box_geo.specs.Sides.{IsInside};
ghost use Rattle.ghost_shell.specs.Ghosts.{IsGhostOf, IsSoundGhost, forwarded};

use crate::atom::Ghost;
use crate::moves::moved;
use crate::sites::Shell;
use box_geo::{Atom, Atoms, SimBox};

impl Shell {
    /// The ghosts.
    pub fn ghosts(&self) -> &[Ghost]
        ensures { result.now ≡ self.now.ghosts.items }
    {
        &self.ghosts
    }

    /// Moves each ghost with its atom: its position becomes that at the build, and the displacement
    /// of its atom from where it was then, to the nearest image. The atoms are those of the build, and
    /// they are inside the box. It takes no memory.
    pub fn forward(&mut self, atoms: &Atoms)
        requires atoms { All (IsGhostOf atoms.now) self.old.ghosts.items }
        requires inside { All (λ a. IsInside self.old.cell.sides a.x) atoms.now }
        ensures moved { self.new.ghosts.items ≡ map (forwarded self.old.cell.sides atoms.now) self.old.ghosts.items }
        ensures atoms { All (IsGhostOf atoms.now) self.new.ghosts.items }
        ensures cell { self.new.cell ≡ self.old.cell }
    {
        forward_vec(&self.cell, atoms.as_slice(), &mut self.ghosts);
    }
}

/// Moves each of some ghosts with its atom, in place.
fn forward_vec(cell: &SimBox, atoms: &[Atom], ghosts: &mut Vec<Ghost>)
    requires atoms { All (IsGhostOf atoms.now) ghosts.old.items }
    requires sound { All (IsSoundGhost cell.now.sides) ghosts.old.items }
    requires inside { All (λ a. IsInside cell.now.sides a.x) atoms.now }
    ensures { ghosts.new.items ≡ map (forwarded cell.now.sides atoms.now) ghosts.old.items }
{
    forward_all(cell, atoms, ghosts);
}

/// Moves each of some ghosts with its atom.
fn forward_all(cell: &SimBox, atoms: &[Atom], ghosts: &mut [Ghost])
    requires atoms { All (IsGhostOf atoms.now) ghosts.old }
    requires sound { All (IsSoundGhost cell.now.sides) ghosts.old }
    requires inside { All (λ a. IsInside cell.now.sides a.x) atoms.now }
    ensures { ghosts.new ≡ map (forwarded cell.now.sides atoms.now) ghosts.old }
{
    for image in ghosts.iter_mut() {
        follow(cell, atoms, image);
    }
}

/// Moves a ghost with its atom.
fn follow(cell: &SimBox, atoms: &[Atom], image: &mut Ghost)
    requires atom { IsGhostOf atoms.now image.old }
    requires sound { IsSoundGhost cell.now.sides image.old }
    requires inside { All (λ a. IsInside cell.now.sides a.x) atoms.now }
    ensures { image.new ≡ forwarded cell.now.sides atoms.now image.old }
{
    let atom = atoms[image.site.place as usize];
    let d = cell.near(atom.x, image.reference);
    image.site.x = moved(&image.built, &d);
}
