//! The concurrent core without threads: the same plan in several orders.
use std::alloc::Global;
use std::process::Abort;
use std::test::Fail;
use weave_core::Event::{Add, Claim, Lower};
use weave_core::{Adds, Event, Piece, Pieces, Plan, SHARES, Weave, order_free};

// Two words and three pieces: one with two adds and the key 9, one with an add and the key 7, one with nothing to do.
fn small_plan(alloc: Global) -> Result<Plan, Fail> {
    let first = Piece {
        adds: Adds::from_vec(vec![in alloc; (0, 5), (1, -3)]?),
        key: Some(9),
    };
    let second = Piece {
        adds: Adds::from_vec(vec![in alloc; (0, -6)]?),
        key: Some(7),
    };
    let third = Piece {
        adds: Adds::from_vec(vec![in alloc]?),
        key: None,
    };
    Ok(Plan {
        words: 2,
        pieces: Pieces::from_vec(vec![in alloc; first, second, third]?),
    })
}

// The counter, the fault word and the words at the end.
fn played(
    rt: &impl Abort,
    alloc: Global,
    workers: u32,
    events: &[Event],
) -> Result<(u64, u64, u64, u64), Fail> {
    let plan = small_plan(alloc)?;
    assert!(rt; plan.is_valid());
    assert!(rt; 0 < workers && workers <= SHARES);
    let mut weave = Weave::new(alloc, plan, workers)?;
    for event in events {
        assert!(rt; weave.play(*event));
    }
    let words = weave.words();
    assert_eq!(rt; words.len(), 2);
    Ok((weave.counter(), weave.fault(), words[0], words[1]))
}

#[test]
fn every_order_ends_alike(rt: HostRuntime) -> Result<(), Fail> {
    let alone: [Event; 9] = [
        Claim(0),
        Add(0),
        Add(0),
        Lower(0),
        Claim(0),
        Add(0),
        Lower(0),
        Claim(0),
        Claim(0),
    ];
    let woven: [Event; 9] = [
        Claim(0),
        Claim(1),
        Add(1),
        Lower(0),
        Add(0),
        Lower(1),
        Add(0),
        Claim(1),
        Claim(0),
    ];
    let turned: [Event; 9] = [
        Claim(2),
        Claim(1),
        Claim(0),
        Lower(1),
        Lower(2),
        Add(2),
        Add(1),
        Add(2),
        Claim(0),
    ];
    // 5 - 6 and -3, modulo 2^64, and the lesser of 9 and 7
    let end = (4, 7, u64::MAX, u64::MAX - 2);
    assert_eq!(rt; played(&rt, rt.alloc(), 1, &alone)?, end);
    assert_eq!(rt; played(&rt, rt.alloc(), 2, &woven)?, end);
    assert_eq!(rt; played(&rt, rt.alloc(), 3, &turned)?, end);
    order_free();
    Ok(())
}
