//! Several workers: the calling thread, and helpers in threads of their own.
ghost use Rattle.std.specs.Prelude.{◌≡◌, ◌+◌, ◌<◌, ◌≤◌};
ghost use Rattle.std.specs.Thread.{IsSync};
ghost use Rattle.weave_core.specs.declared.limits.TheConstants.{SHARES};
ghost use Rattle.force_board.specs.Seats.{pieces_of, words_of, part, IsSeatOf};
ghost use Rattle.work_team.specs.Effects.{every_piece, terms_of, tally_of, AreSmall, IsIdle, IsClear, IsDone, Worked, Reads};

use crate::tally::Tally;
use crate::work::Work;
use crate::worker::{draw_all, draw_alone};
use force_board::{Board, Seat};
use fx_num::Steps;
use outside::Gate;
use std::sync::ledger::Ledger;
use std::thread::{Threads, join_mut};

/// Does all pieces of the board, each once, by so many workers, of which the calling thread is one. The gate is passed
/// before the work on each piece. Answers the sum of the tallies. `steps` counts the terms that the calling thread
/// evaluates. Takes no memory; where a thread can't be started, the caller does its work.
pub fn do_all<T: Threads + Sync, W: Work, G: Gate, L: Ledger>(
    rt: &T,
    board: &Board,
    seat: &mut Seat,
    workers: u32,
    work: &W,
    gate: &G,
    steps: &mut Steps<L>,
) -> Tally
    requires seat { IsSeatOf board.now seat.old }
    requires all { (part seat.old).shares ≡ SHARES }
    requires idle { IsIdle (part seat.old) }
    requires workers { (0 < workers) × (workers ≤ SHARES) }
    requires small { AreSmall board.now (W.effect work.now) }
    ensures seat { IsSeatOf board.now seat.new }
    ensures done { IsDone board.now (W.effect work.now) (part seat.old) (part seat.new) }
    ensures reads { IsClear (words_of board.now) (part seat.old) → Reads board.now (W.effect work.now) (part seat.new) }
    ensures tally { result ≡ tally_of (W.effect work.now) (every_piece board.now) }
    ensures steps { steps.new ≤ steps.old + terms_of (W.effect work.now) (every_piece board.now) }
    ensures alone { workers ≡ 1 → steps.new ≡ steps.old + terms_of (W.effect work.now) (every_piece board.now) }
{
    work_together(rt, board, seat, workers, work, gate, steps)
}

// The same, told by the pieces that the seat has at the end.
fn work_together<T: Threads + Sync, W: Work, G: Gate, L: Ledger>(
    rt: &T,
    board: &Board,
    seat: &mut Seat,
    workers: u32,
    work: &W,
    gate: &G,
    steps: &mut Steps<L>,
) -> Tally
    requires seat { IsSeatOf board.now seat.old }
    requires idle { IsIdle (part seat.old) }
    requires workers { (0 < workers) × (workers ≤ (part seat.old).shares) }
    requires small { AreSmall board.now (W.effect work.now) }
    ensures seat { IsSeatOf board.now seat.new }
    ensures worked { Worked (pieces_of board.now) (W.effect work.now) (part seat.old) (part seat.new) result }
    ensures steps { steps.new ≤ steps.old + terms_of (W.effect work.now) (part seat.new).pieces }
    ensures alone { workers ≡ 1 → steps.new ≡ steps.old + terms_of (W.effect work.now) (part seat.new).pieces }
{
    let helpers = workers - 1;
    if helpers == 0 {
        return draw_all(board, seat, work, gate, steps);
    }
    let mut other = board.split(seat, helpers);
    let (theirs, mine) = join_mut(
        rt,
        &mut || -> Tally
            requires bounds { IsSync T.row × IsSync W.row × IsSync G.row }
            requires seat { IsSeatOf board.now other }
            requires idle { IsIdle (part other) }
            requires workers { (0 < helpers) × (helpers ≤ (part other).shares) }
            requires small { AreSmall board.now (W.effect work.now) }
            ensures seat { IsSeatOf board.entry.now other.exit }
            ensures worked { Worked (pieces_of board.entry.now) (W.effect work.entry.now) (part other.entry) (part other.exit) result }
        { help(rt, board, &mut other, helpers, work, gate) },
        &mut || -> Tally
            requires seat { IsSeatOf board.now seat.now }
            requires idle { IsIdle (part seat.now) }
            requires small { AreSmall board.now (W.effect work.now) }
            ensures seat { IsSeatOf board.entry.now seat.exit.now }
            ensures worked { Worked (pieces_of board.entry.now) (W.effect work.entry.now) (part seat.entry.now) (part seat.exit.now) result }
            ensures steps { steps.exit.now ≡ steps.entry.now + terms_of (W.effect work.entry.now) (part seat.exit.now).pieces }
        { draw_all(board, seat, work, gate, steps) },
    );
    board.join(seat, other);
    mine.plus(&theirs)
}

// So many workers without the caller's count.
fn help<T: Threads + Sync, W: Work, G: Gate>(
    rt: &T,
    board: &Board,
    seat: &mut Seat,
    workers: u32,
    work: &W,
    gate: &G,
) -> Tally
    requires seat { IsSeatOf board.now seat.old }
    requires idle { IsIdle (part seat.old) }
    requires workers { (0 < workers) × (workers ≤ (part seat.old).shares) }
    requires small { AreSmall board.now (W.effect work.now) }
    ensures seat { IsSeatOf board.now seat.new }
    ensures worked { Worked (pieces_of board.now) (W.effect work.now) (part seat.old) (part seat.new) result }
{
    if workers == 1 {
        return draw_alone(board, seat, work, gate);
    }
    let half = workers / 2;
    let rest = workers - half;
    let mut other = board.split(seat, half);
    let (theirs, ours) = join_mut(
        rt,
        &mut || -> Tally
            requires bounds { IsSync T.row × IsSync W.row × IsSync G.row }
            requires seat { IsSeatOf board.now other }
            requires idle { IsIdle (part other) }
            requires workers { (0 < half) × (half ≤ (part other).shares) }
            requires small { AreSmall board.now (W.effect work.now) }
            ensures seat { IsSeatOf board.entry.now other.exit }
            ensures worked { Worked (pieces_of board.entry.now) (W.effect work.entry.now) (part other.entry) (part other.exit) result }
        { help(rt, board, &mut other, half, work, gate) },
        &mut || -> Tally
            requires bounds { IsSync T.row × IsSync W.row × IsSync G.row }
            requires seat { IsSeatOf board.now seat.now }
            requires idle { IsIdle (part seat.now) }
            requires workers { (0 < rest) × (rest ≤ (part seat.now).shares) }
            requires small { AreSmall board.now (W.effect work.now) }
            ensures seat { IsSeatOf board.entry.now seat.exit.now }
            ensures worked { Worked (pieces_of board.entry.now) (W.effect work.entry.now) (part seat.entry.now) (part seat.exit.now) result }
        { help(rt, board, seat, rest, work, gate) },
    );
    board.join(seat, other);
    ours.plus(&theirs)
}
