//! A board of three pieces and two seats: in turns, and in two threads.
ghost use Rattle.std.specs.Prelude.{◌≡◌};
ghost use Rattle.force_board.specs.Seats.{part, IsSeatOf};

use force_board::{Board, Seat};
use std::sync::Wait;
use std::test::Fail;
use std::thread;
use std::thread::Threads;
use weave_core::NO_KEY;

#[test]
fn claims_in_turns(rt: HostRuntime) -> Result<(), Fail> {
    let (board, mut first) = Board::new(rt.alloc(), 1, 3)?;
    let mut second = board.split(&mut first, 32);
    assert_eq!(rt; board.claim(&mut first), Some(0));
    assert_eq!(rt; board.claim(&mut second), Some(1));
    assert_eq!(rt; board.claim(&mut first), Some(2));
    assert_eq!(rt; board.claim(&mut second), None);
    assert_eq!(rt; board.claim(&mut first), None);
    board.join(&mut first, second);
    assert_eq!(rt; board.claims(&mut first), 5);
    Ok(())
}

#[test]
fn opposite_adds_leave_nothing(rt: HostRuntime) -> Result<(), Fail> {
    let (board, mut first) = Board::new(rt.alloc(), 1, 3)?;
    let mut second = board.split(&mut first, 32);
    board.add(&mut first, 2, -(1 << 42));
    board.lower(&mut second, 9);
    board.add(&mut second, 2, 1 << 42);
    board.join(&mut first, second);
    assert_eq!(rt; board.collect(&mut first, 2), 0);
    assert_eq!(rt; board.rewind(&mut first), 9);
    assert_eq!(rt; board.rewind(&mut first), NO_KEY);
    assert_eq!(rt; board.claims(&mut first), 0);
    assert_eq!(rt; board.claim(&mut first), Some(0));
    Ok(())
}

// Claims until there is a miss. Answers how many pieces were drawn, and a bit for each, which is off again
// where a piece came twice.
fn claim_all(board: &Board, mut seat: Seat) -> (u32, u32)
    requires seat { IsSeatOf board.now seat }
    requires idle { (part seat).misses ≡ 0 }
{
    let mut count = 0u32;
    let mut drawn = 0u32;
    while let Some(piece) = board.claim(&mut seat) {
        count = count.wrapping_add(1);
        drawn ^= 1u32.wrapping_shl(piece);
    }
    (count, drawn)
}

// Two threads claim all. The caller does the work of a thread whose start is refused.
fn claim_in_threads<R: Threads + Wait>(
    rt: &R,
    board: &Board,
    first: Seat,
    second: Seat,
) -> ((u32, u32), (u32, u32))
    requires first { IsSeatOf board.now first }
    requires first_idle { (part first).misses ≡ 0 }
    requires second { IsSeatOf board.now second }
    requires second_idle { (part second).misses ≡ 0 }
{
    thread::scope(
        thread::scope_env(),
        rt,
        move |scope| -> ((u32, u32), (u32, u32))
            requires { IsSeatOf board.now first × ((part first).misses ≡ 0) × IsSeatOf board.now second × ((part second).misses ≡ 0) }
        {
            let one = scope.spawn(
                move || -> (u32, u32)
                    requires { IsSeatOf board.now first × ((part first).misses ≡ 0) }
                { claim_all(board, first) },
            );
            let two = scope.spawn(
                move || -> (u32, u32)
                    requires { IsSeatOf board.now second × ((part second).misses ≡ 0) }
                { claim_all(board, second) },
            );
            let one = match one {
                Ok(handle) => handle.join(rt),
                Err(refused) => (refused.value)(),
            };
            let two = match two {
                Ok(handle) => handle.join(rt),
                Err(refused) => (refused.value)(),
            };
            (one, two)
        },
    )
}

#[test]
fn two_threads_claim_each_piece_once(rt: HostRuntime) -> Result<(), Fail> {
    let (board, mut first) = Board::new(rt.alloc(), 1, 3)?;
    let second = board.split(&mut first, 32);
    let (one, two) = claim_in_threads(&rt, &board, first, second);
    assert_eq!(rt; one.0.wrapping_add(two.0), 3);
    assert_eq!(rt; one.1 ^ two.1, 0b111);
    Ok(())
}
