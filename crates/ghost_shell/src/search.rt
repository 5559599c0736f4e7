//! The search for the ghosts of a rank: one walk over the bricks that, moved, may meet its halo, and over
//! their atoms.
ghost use Rattle.std.specs.Prelude.{◌≡◌, ◌++◌, ◌<◌, ◌≤◌, All, IfOk, OnOk, length};
ghost use Rattle.std.specs.List.Sorted.{IsPermutation};
ghost use Rattle.box_geo.specs.Sides.{IsInside};
ghost use Rattle.rank_grid.specs.Bricks.{ranks};
ghost use Rattle.rank_grid.specs.Owned.{AreOwned};
ghost use Rattle.ghost_shell.specs.Ghosts.{IsGhostOf, ghosts};
ghost use Rattle.ghost_shell.specs.Lengths.{AreLengths};
ghost use Rattle.ghost_shell.specs.Walks.{ghosts_from};

use crate::atom::Ghost;
use crate::halo::Halo;
use crate::lengths::Lengths;
use crate::sites::Shell;
use crate::visit::Visit;
use box_geo::limits::MAX_ATOMS;
use box_geo::{Atom, Atoms};
use fx_num::NoMemory;
use rank_grid::{Grid, Owned};
use std::alloc::Global;

/// The ghosts of a rank: exactly the images of atoms, by shifts of -1, 0 or 1 edge along each axis that
/// wraps, that lie on each axis strictly between the low side of its brick less the reach and the high
/// side and the reach, without the rank's own atoms where they stand. In two dimensions z is neither
/// shifted nor tested.
///
/// All atoms are inside the box, and `owned` is what [`Grid::migrate`] gives for them. Each atom of a
/// brick that some shift may bring near is looked at once, along each axis by the lengths that may
/// bring its brick near; so the time grows with the atoms of these bricks and the ghosts.
///
/// # Errors
///
/// [`NoMemory`] where memory is refused.
pub fn shell(
    alloc: Global,
    grid: &Grid,
    atoms: &Atoms,
    owned: &Owned,
    rank: u32,
    reach: i64,
) -> Result<Shell, NoMemory>
    requires inside { All (λ a. IsInside grid.now.cell.sides a.x) atoms.now }
    requires few { length atoms.now ≤ MAX_ATOMS }
    requires owned { AreOwned grid.now.counts grid.now.cell.sides atoms.now owned.now }
    requires rank { rank < ranks grid.now.counts }
    ensures ghosts { IfOk result (λ s. IsPermutation (ghosts grid.now.counts grid.now.cell.sides rank reach atoms.now) s.ghosts.items) }
    ensures atoms { IfOk result (λ s. All (IsGhostOf atoms.now) s.ghosts.items) }
    ensures cell { IfOk result (λ s. s.cell ≡ grid.now.cell) }
{
    let ghosts = find(alloc, grid, atoms.as_slice(), owned, rank, reach)?;
    Ok(Shell {
        cell: grid.cell,
        ghosts,
    })
}

/// The ghosts of a rank, brick by brick.
fn find(
    alloc: Global,
    grid: &Grid,
    atoms: &[Atom],
    owned: &Owned,
    rank: u32,
    reach: i64,
) -> Result<Vec<Ghost>, NoMemory>
    requires inside { All (λ a. IsInside grid.now.cell.sides a.x) atoms.now }
    requires owned { AreOwned grid.now.counts grid.now.cell.sides atoms.now owned.now }
    requires rank { rank < ranks grid.now.counts }
    ensures { IfOk result (λ v. IsPermutation (ghosts grid.now.counts grid.now.cell.sides rank reach atoms.now) v.items) }
{
    let search = Search {
        halo: Halo::of(grid, rank, reach),
        lengths: Lengths::of(alloc, &grid.cell)?,
        rank,
    };
    let mut ghosts = Vec::new(alloc);
    for other in 0..grid.ranks() {
        search.push_from(alloc, &mut ghosts, grid, atoms, owned, other)?;
    }
    Ok(ghosts)
}

/// The search for the ghosts of a rank.
#[derive(Drop)]
struct Search {
    halo: Halo,
    lengths: Lengths,
    rank: u32,
}

impl Search {
    /// Appends the ghosts that are images of the atoms of one brick.
    fn push_from(
        &self,
        alloc: Global,
        ghosts: &mut Vec<Ghost>,
        grid: &Grid,
        atoms: &[Atom],
        owned: &Owned,
        other: u32,
    ) -> Result<(), NoMemory>
        requires inside { All (λ a. IsInside grid.now.cell.sides a.x) atoms.now }
        requires owned { AreOwned grid.now.counts grid.now.cell.sides atoms.now owned.now }
        requires lengths { AreLengths grid.now.cell.sides self.now.lengths }
        requires other { other < ranks grid.now.counts }
        ensures { OnOk result (ghosts.new.items ≡ ghosts.old.items ++ ghosts_from grid.now.counts grid.now.cell.sides atoms.now self.now.halo self.now.rank other) }
    {
        let (low, high) = grid.brick(other);
        let lengths = self.lengths.near(alloc, &self.halo, &low, &high)?;
        if !lengths.are_some() {
            return Ok(());
        }
        let visit = Visit {
            halo: self.halo,
            lengths,
            own: other == self.rank,
        };
        visit.push_brick(ghosts, atoms, owned.row(other))?;
        Ok(())
    }
}
