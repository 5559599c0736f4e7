//! Rounded quotients by a guess that is checked: ties, exact multiples, the greatest dividend and divisor, and guesses
//! that miss by one and by much.

use fx_num::{guess_float, guess_whole, is_nearest, nearest_by_guess};
use std::test::Fail;

/// The greatest dividend of a check.
const MOST: u128 = (1 << 126) - 1;
/// The greatest square of a distance within the greatest cutoff, and one more than half of it.
const LONG: u64 = (1 << 56) - 1;

const QUOTIENTS: &[(u128, u64, u128)] = &[
    // ties go up, and just below a tie does not
    (3, 2, 2),
    (1, 2, 1),
    ((15 << 40), 1 << 41, 8),
    ((15 << 40) - 1, 1 << 41, 7),
    (5, 3, 2),
    (4, 3, 1),
    // exact multiples
    (12, 4, 3),
    (0, 5, 0),
    (1 << 119, 1 << 56, 1 << 63),
    (3 << 118, 1 << 56, 3 << 62),
    // the least divisor, and the greatest square of a distance
    ((1 << 63) + 1, 1, (1 << 63) + 1),
    ((LONG as u128) << 52, LONG, 1 << 52),
    (((LONG as u128) << 52) + (1 << 55) - 1, LONG, 1 << 52),
    (((LONG as u128) << 52) + (1 << 55), LONG, (1 << 52) + 1),
    // quotients of 64 bits and more, of the greatest dividend and divisor
    (MOST, 1, MOST),
    (MOST, 1 << 62, 1 << 64),
    ((1 << 126) - (1 << 61), 1 << 62, 1 << 64),
    ((1 << 126) - (1 << 61) - 1, 1 << 62, (1 << 64) - 1),
    (1 << 61, 1 << 62, 1),
];

/// Whether a quotient is found by any guess, and a guess is taken for it only where it is it.
fn is_found(a: u128, b: u64, want: u128, guess: u64) -> bool {
    a < 1 << 126
        && b > 0
        && b <= 1 << 62
        && is_nearest(a, b, guess) == (u128::from(guess) == want)
        && nearest_by_guess(a, b, guess) == want
}

#[test]
fn hard_quotients(rt: HostRuntime) -> Result<(), Fail> {
    for (a, b, want) in QUOTIENTS {
        let (a, b, want) = (*a, *b, *want);
        let near = (want % (1 << 64)) as u64;
        for guess in [
            near,
            near.wrapping_add(1),
            near.wrapping_sub(1),
            0,
            1 << 51,
            u64::MAX,
        ] {
            assert!(rt; is_found(a, b, want, guess), "{a} over {b} by {guess}");
        }
    }
    assert!(rt; !is_nearest(0, 0, 0) && !is_nearest(7, 0, 1));
    Ok(())
}

#[test]
fn whole_numbers_are_guessed(rt: HostRuntime) -> Result<(), Fail> {
    let most: u64 = (1 << 52) - 1;
    for n in [0, 1, 2, 7, 1 << 36, 1 << 51, most] {
        assert_eq!(rt; guess_whole(guess_float(n)), n);
        assert_eq!(rt; guess_whole(guess_float(n) + 0.25), n);
    }
    // one above 2^53 is rounded to even, and what is no guess is 0
    assert_eq!(rt; guess_whole(guess_float((1 << 53) + 1) / 8.0), 1 << 50);
    assert_eq!(rt; guess_whole(guess_float(u64::MAX)), 0);
    assert_eq!(rt; guess_whole(1.0 / guess_float(0)), 0);
    Ok(())
}
