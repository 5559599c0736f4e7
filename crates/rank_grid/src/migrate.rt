//! Migration: each atom goes to the rank of the brick that holds it.
ghost use Rattle.std.specs.Prelude.{◌≡◌, ◌≤◌, All, IfOk, map, length};
ghost use Rattle.box_geo.specs.Sides.{IsInside};
ghost use Rattle.rank_grid.specs.Bricks.{owner};
ghost use Rattle.rank_grid.specs.Owned.{AreOwned};

use crate::grid::Grid;
use crate::owned::Owned;
use crate::sorting::sorted;
use box_geo::limits::MAX_ATOMS;
use box_geo::{Atom, Atoms};
use fx_num::NoMemory;
use std::alloc::Global;

impl Grid {
    /// The places of the atoms of each rank. All atoms are inside the box.
    ///
    /// # Errors
    ///
    /// [`NoMemory`] where memory is refused.
    pub fn migrate(&self, alloc: Global, atoms: &Atoms) -> Result<Owned, NoMemory>
        requires inside { All (λ a. IsInside self.now.cell.sides a.x) atoms.now }
        requires few { length atoms.now ≤ MAX_ATOMS }
        ensures { IfOk result (AreOwned self.now.counts self.now.cell.sides atoms.now) }
    {
        let owners = self.owners(alloc, atoms.as_slice())?;
        let (starts, places) = sorted(alloc, &owners, self.ranks())?;
        Ok(Owned { starts, places })
    }

    /// The rank of each atom.
    fn owners(&self, alloc: Global, atoms: &[Atom]) -> Result<Vec<u32>, NoMemory>
        requires { All (λ a. IsInside self.now.cell.sides a.x) atoms.now }
        ensures { IfOk result (λ list. list.items ≡ map (λ a. owner self.now.counts self.now.cell.sides a.x) atoms.now) }
    {
        let mut list = Vec::new(alloc);
        for atom in atoms {
            let x = atom.x;
            list.push(self.owner(x))?;
        }
        Ok(list)
    }
}
