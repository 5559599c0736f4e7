//! What is done for each piece.
ghost use Rattle.std.specs.Prelude.{◌≡◌, ◌+◌, ◌<◌, ℕ, All, Contains};
ghost use Rattle.weave_core.specs.Machine.{IsAdd};
ghost use Rattle.force_board.specs.Seats.{pieces_of, words_of, part, IsSeatOf};
ghost use Rattle.force_board.specs.Steps.{Knows};
ghost use Rattle.work_team.specs.declared.limits.TheConstants.{MAX_TALLY};
ghost use Rattle.work_team.specs.Tallies.{IsWithin};
ghost use Rattle.work_team.specs.Effects.{Effect, Played};

use crate::tally::Tally;
use force_board::{Board, Seat};
use fx_num::Steps;
use std::sync::ledger::Ledger;

/// The work on the pieces of a board. Contracts see what it does for each piece.
pub trait Work: Sync {
    /// What the work on the piece of this number does: its adds, its key, its terms, its tally.
    ghost effect: { Self → ℕ → Effect };

    /// Does the work on a piece that the seat holds: plays its adds, in any order, lowers the fault word to its key,
    /// counts its terms, and answers its tally.
    fn run<L: Ledger>(
        &self,
        piece: u32,
        board: &Board,
        seat: &mut Seat,
        steps: &mut Steps<L>,
    ) -> Tally
        requires seat { IsSeatOf board.now seat.old }
        requires own { Contains (part seat.old).pieces piece }
        requires inside { piece < pieces_of board.now }
        requires known { Knows (pieces_of board.now) (part seat.old) }
        requires small { All (IsAdd (words_of board.now)) (effect self.now piece).adds }
        ensures seat { IsSeatOf board.now seat.new }
        ensures played { Played (effect self.now piece) (part seat.old) (part seat.new) }
        ensures steps { steps.new ≡ steps.old + (effect self.now piece).terms }
        ensures tally { result ≡ (effect self.now piece).tally }
        ensures within { IsWithin MAX_TALLY result };
}
