//! One worker: draws pieces until none is left.
ghost use Rattle.std.specs.Prelude.{◌≡◌, ◌+◌, ◌<◌};
ghost use Rattle.force_board.specs.Seats.{pieces_of, part, IsSeatOf};
ghost use Rattle.work_team.specs.Effects.{terms_of, AreSmall, IsIdle, Worked};

use crate::tally::Tally;
use crate::work::Work;
use force_board::{Board, Seat};
use fx_num::Steps;
use outside::Gate;
use std::marker::Brand;
use std::sync::ledger::{Blank, Ledger};

// Draws pieces until none is left, and does the work on each.
pub(crate) fn draw_all<W: Work, G: Gate, L: Ledger>(
    board: &Board,
    seat: &mut Seat,
    work: &W,
    gate: &G,
    steps: &mut Steps<L>,
) -> Tally
    requires seat { IsSeatOf board.now seat.old }
    requires idle { IsIdle (part seat.old) }
    requires small { AreSmall board.now (W.effect work.now) }
    ensures seat { IsSeatOf board.now seat.new }
    ensures worked { Worked (pieces_of board.now) (W.effect work.now) (part seat.old) (part seat.new) result }
    ensures steps { steps.new ≡ steps.old + terms_of (W.effect work.now) (part seat.new).pieces }
{
    let mut sum = Tally::zero();
    while let Some(piece) = board.claim(seat) {
        gate.pass(piece);
        let tally = work.run(piece, board, seat, steps);
        sum = sum.plus(&tally);
    }
    sum
}

// The same on a count of its own, which is let go: `Steps` of the caller can't be lent to two threads.
pub(crate) fn draw_alone<W: Work, G: Gate>(
    board: &Board,
    seat: &mut Seat,
    work: &W,
    gate: &G,
) -> Tally
    requires seat { IsSeatOf board.now seat.old }
    requires idle { IsIdle (part seat.old) }
    requires small { AreSmall board.now (W.effect work.now) }
    ensures seat { IsSeatOf board.now seat.new }
    ensures worked { Worked (pieces_of board.now) (W.effect work.now) (part seat.old) (part seat.new) result }
{
    draw_counted::<W, G, Brand>(board, seat, work, gate, Blank::new(1))
}

fn draw_counted<W: Work, G: Gate, L: Ledger>(
    board: &Board,
    seat: &mut Seat,
    work: &W,
    gate: &G,
    blank: Blank,
) -> Tally
    requires name { blank.name ≡ L.name }
    requires parts { blank.parts ≡ L.parts }
    requires some { 0 < blank.parts }
    requires seat { IsSeatOf board.now seat.old }
    requires idle { IsIdle (part seat.old) }
    requires small { AreSmall board.now (W.effect work.now) }
    ensures seat { IsSeatOf board.now seat.new }
    ensures worked { Worked (pieces_of board.now) (W.effect work.now) (part seat.old) (part seat.new) result }
{
    let mut steps = Steps::<L>::new(blank);
    draw_all(board, seat, work, gate, &mut steps)
}
