//! A grid of bricks.
ghost use Rattle.std.specs.Prelude.{◌≡◌};
ghost use Rattle.rank_grid.specs.Bricks.{AreCounts};

use box_geo::SimBox;

/// A box that is cut into bricks.
#[derive(Clone, Copy, Debug)]
pub struct Grid {
    /// How many bricks stand along each axis: each number at least 1, their product at most
    /// [`box_geo::limits::MAX_RANKS`].
    pub counts: [u32; 3],
    /// The box.
    pub cell: SimBox,
    pub ghost some: { AreCounts counts },
}

impl Grid {
    /// The box cut into so many bricks along each axis.
    pub fn new(counts: [u32; 3], cell: SimBox) -> Grid
        requires { AreCounts counts }
        ensures counts { result.counts ≡ counts }
        ensures cell { result.cell ≡ cell }
    {
        Grid { counts, cell }
    }
}
