//! How the list of a brick is built.
ghost use Rattle.std.specs.Prelude.{◌≡◌, ◌≤◌, ◌<◌, pos, ◌<ℤ◌, ◌≤ℤ◌, unsigned_abs, All, IfOk, length};
ghost use Rattle.std.specs.List.Sorted.{IsPermutation};
ghost use Rattle.box_geo.specs.Sides.{IsInside};
ghost use Rattle.rank_grid.specs.Bricks.{ranks};
ghost use Rattle.rank_grid.specs.Owned.{AreOwned, places_owned};

use crate::lists::BrickList;
use crate::sites::{all_sites, own_sites};
use box_geo::Atoms;
use box_geo::limits::MAX_ATOMS;
use cell_bins::MAX_REACH;
use fx_num::NoMemory;
use ghost_shell::shell;
use half_list::List;
use rank_grid::{Grid, Owned};
use std::alloc::Global;

impl BrickList {
    ghost use Rattle.neighbor_lists.specs.Pairs.{brick_pairs, pairs_of};

    /// The list of a brick for these atoms and a reach in units. All atoms are inside the box, and `owned`
    /// is what [`Grid::migrate`] gives for them.
    ///
    /// # Errors
    ///
    /// [`NoMemory`] where memory is refused.
    pub fn build(
        alloc: Global,
        grid: &Grid,
        atoms: &Atoms,
        owned: &Owned,
        rank: u32,
        reach: i64,
    ) -> Result<BrickList, NoMemory>
        requires inside { All (λ a. IsInside grid.now.cell.sides a.x) atoms.now }
        requires few { length atoms.now ≤ MAX_ATOMS }
        requires owned { AreOwned grid.now.counts grid.now.cell.sides atoms.now owned.now }
        requires rank { rank < ranks grid.now.counts }
        requires reach { (pos 0 <ℤ reach) × (reach ≤ℤ MAX_REACH) }
        ensures own { IfOk result (λ l. l.own.items ≡ places_owned grid.now.counts grid.now.cell.sides atoms.now rank) }
        ensures pairs { IfOk result (λ l. IsPermutation (brick_pairs grid.now.counts grid.now.cell.sides (unsigned_abs reach) atoms.now rank) (pairs_of l)) }
    {
        let places = owned.row(rank);
        let ghosts = shell(alloc, grid, atoms, owned, rank, reach)?;
        let own = own_sites(alloc, atoms.as_slice(), places)?;
        let all = all_sites(alloc, atoms.as_slice(), places, ghosts.ghosts())?;
        let rows = List::build(alloc, &own, &all, reach)?;
        let own = Vec::from_slice(alloc, places)?;
        Ok(BrickList { own, rows })
    }
}
