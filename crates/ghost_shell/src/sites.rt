//! The ghosts of a rank.
ghost use Rattle.std.specs.Prelude.{All};
ghost use Rattle.ghost_shell.specs.Ghosts.{IsSoundGhost};

use crate::atom::Ghost;
use box_geo::SimBox;

/// The ghost atoms of one rank.
#[derive(Drop)]
pub struct Shell {
    pub(crate) cell: SimBox,
    pub(crate) ghosts: Vec<Ghost>,
    ghost sound: { All (IsSoundGhost cell.sides) ghosts.items },
}
