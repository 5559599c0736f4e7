//! Phases with several numbers of workers, and a gate that shows that two work at once.
ghost use Rattle.std.specs.Prelude.{◌≡◌, ◌<◌, ◌≤◌};
ghost use Rattle.weave_core.specs.declared.limits.TheConstants.{MAX_PIECES, SHARES};
ghost use Rattle.part_tests.specs.Ladder.{ladder};

use force_board::{Board, Seat};
use fx_num::{NoMemory, Steps};
use outside::{Gate, OpenGate};
use std::alloc::Global;
use std::marker::Brand;
use std::sync::atomic::{AtomicU64, Ordering};
use std::sync::ledger::{Blank, Ledger};
use std::test::Fail;
use std::thread;
use std::thread::Threads;
use weave_core::NO_KEY;
use work_team::{Tally, Work, do_all};

// Piece n adds n + 1 to word 0 and takes it from word 1. Its key is 1000 - n, and its bond energy 1.
#[derive(Drop)]
struct Ladder;

impl Work for Ladder {
    ghost effect = { λ _ piece. ladder piece };

    fn run<L: Ledger>(
        &self,
        piece: u32,
        board: &Board,
        seat: &mut Seat,
        steps: &mut Steps<L>,
    ) -> Tally {
        let value = piece as i64 + 1;
        board.add(seat, 1, -value);
        board.add(seat, 0, value);
        board.lower(seat, 1000u64.saturating_sub(piece as u64));
        steps.tick();
        Tally {
            pair: value as i128,
            bond: 1,
            angle: 0,
            virial: -(value as i128),
        }
    }
}

// What a phase leaves: words 0 and 1, the claims, the least key, and the sum of the tallies.
type Outcome = (i64, i64, u64, u64, Tally);

fn counted<T: Threads + Sync, G: Gate, L: Ledger>(
    rt: &T,
    alloc: Global,
    pieces: u32,
    workers: u32,
    gate: &G,
    blank: Blank,
) -> Result<Outcome, NoMemory>
    requires name { blank.name ≡ L.name }
    requires parts { blank.parts ≡ L.parts }
    requires some { 0 < blank.parts }
    requires pieces { pieces ≤ MAX_PIECES }
    requires workers { (0 < workers) × (workers ≤ SHARES) }
{
    let (board, mut seat) = Board::new(alloc, 1, pieces)?;
    let mut steps = Steps::<L>::new(blank);
    let tally = do_all(rt, &board, &mut seat, workers, &Ladder, gate, &mut steps);
    let claims = board.claims(&mut seat);
    let first = board.collect(&mut seat, 0);
    let second = board.collect(&mut seat, 1);
    let key = board.rewind(&mut seat);
    Ok((first, second, claims, key, tally))
}

// A phase on a new board.
fn phase<T: Threads + Sync, G: Gate>(
    rt: &T,
    alloc: Global,
    pieces: u32,
    workers: u32,
    gate: &G,
) -> Result<Outcome, NoMemory>
    requires pieces { pieces ≤ MAX_PIECES }
    requires workers { (0 < workers) × (workers ≤ SHARES) }
{
    counted::<T, G, Brand>(rt, alloc, pieces, workers, gate, Blank::new(1))
}

// How many pieces there are, the sum of 1 up to it, and the least key.
const PLANS: &[(u32, i64, u64)] = &[
    (0, 0, NO_KEY),
    (1, 1, 1000),
    (2, 3, 999),
    (3, 6, 998),
    (64, 2080, 937),
    (512, 131_328, 489),
];

// What a phase must leave. Each worker misses once.
fn end_of(pieces: u32, workers: u32, sum: i64, least: u64) -> Outcome {
    let claims = (pieces as u64).wrapping_add(workers as u64);
    let tally = Tally {
        pair: sum as i128,
        bond: pieces as i128,
        angle: 0,
        virial: 0i128.wrapping_sub(sum as i128),
    };
    (sum, 0i64.wrapping_sub(sum), claims, least, tally)
}

#[test]
fn any_number_of_workers_ends_alike(rt: HostRuntime) -> Result<(), Fail> {
    for (pieces, sum, least) in PLANS {
        let (pieces, sum, least) = (*pieces, *sum, *least);
        for workers in [1, 2, 4, 64u32] {
            assert!(rt; pieces <= 512 && 0 < workers && workers <= 64);
            let end = phase(&rt, rt.alloc(), pieces, workers, &OpenGate)?;
            let want = end_of(pieces, workers, sum, least);
            assert_eq!(rt; end, want, "{pieces} pieces, {workers} workers");
        }
    }
    Ok(())
}

// Lets piece 0 pass once piece 1 was asked for, or after so many turns, which it notes.
#[derive(Drop)]
struct Pair {
    turns: u64,
    asked: AtomicU64,
    gave_up: AtomicU64,
}

impl Gate for Pair {
    fn pass(&self, piece: u32) {
        if piece != 0 {
            self.asked.store(1, Ordering::SeqCst);
            return;
        }
        for _ in 0..self.turns {
            if self.asked.load(Ordering::SeqCst) == 1 {
                return;
            }
            thread::yield_now();
        }
        self.gave_up.store(1, Ordering::SeqCst);
    }
}

// Whether piece 1 was asked for, and whether the gate gave up.
fn passed<T: Threads + Sync>(
    rt: &T,
    alloc: Global,
    workers: u32,
    turns: u64,
) -> Result<(u64, u64), NoMemory>
    requires workers { (0 < workers) × (workers ≤ SHARES) }
{
    let gate = Pair {
        turns,
        asked: AtomicU64::new(0),
        gave_up: AtomicU64::new(0),
    };
    phase(rt, alloc, 2, workers, &gate)?;
    let asked = gate.asked.load(Ordering::SeqCst);
    let gave_up = gate.gave_up.load(Ordering::SeqCst);
    Ok((asked, gave_up))
}

#[test]
fn two_pieces_are_worked_on_at_once(rt: HostRuntime) -> Result<(), Fail> {
    assert_eq!(rt; passed(&rt, rt.alloc(), 2, 100_000_000)?, (1, 0));
    // one worker can't do so
    assert_eq!(rt; passed(&rt, rt.alloc(), 1, 10)?, (1, 1));
    Ok(())
}

// Counts how often each piece is let pass.
#[derive(Drop)]
struct Turnstile {
    passes: Vec<AtomicU64>,
}

impl Gate for Turnstile {
    fn pass(&self, piece: u32) {
        if let Some(count) = self.passes.get(piece as usize) {
            count.fetch_add(1, Ordering::SeqCst);
        }
    }
}

// How many pieces passed once, and how many passed not at all or again, in a phase of so many pieces.
fn passes<T: Threads + Sync>(
    rt: &T,
    alloc: Global,
    pieces: u32,
    workers: u32,
) -> Result<(u64, u64), NoMemory>
    requires pieces { pieces ≤ MAX_PIECES }
    requires workers { (0 < workers) × (workers ≤ SHARES) }
{
    let mut passes = Vec::new(alloc);
    for _ in 0..pieces {
        passes.push(AtomicU64::new(0))?;
    }
    let gate = Turnstile { passes };
    phase(rt, alloc, pieces, workers, &gate)?;
    let (mut once, mut others) = (0u64, 0u64);
    for count in &gate.passes {
        if count.load(Ordering::SeqCst) == 1 {
            once = once.wrapping_add(1);
        } else {
            others = others.wrapping_add(1);
        }
    }
    Ok((once, others))
}

#[test]
fn each_piece_passes_the_gate_once(rt: HostRuntime) -> Result<(), Fail> {
    for workers in [1, 2, 4, 64u32] {
        assert!(rt; 0 < workers && workers <= 64);
        assert_eq!(rt; passes(&rt, rt.alloc(), 512, workers)?, (512, 0));
    }
    Ok(())
}
