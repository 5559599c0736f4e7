//! A table of pair coefficients from its first number to its terms, whole and by halves, against numbers worked by hand;
//! and how many guesses of a list of pairs are wrong.
ghost use Rattle.std.specs.Prelude.{◌≡◌, ◌^◌, ◌<◌, ◌≤◌, pos, ◌<ℤ◌, ◌≤ℤ◌, unsigned_abs, IfOk};
ghost use Rattle.box_geo.specs.Terms.{IsDisplacement};
ghost use Rattle.pair_lj.specs.Table.{IsFinished};

use box_geo::Term;
use box_geo::limits::{FULL_WEIGHT, MAX_CUTOFF, MAX_EPSILON, MAX_SIGMA};
use fx_num::{Steps, V3, is_nearest, nearest_shift};
use pair_lj::{Close, Guess, PairTable, Unset};
use std::alloc::Global;
use std::marker::Brand;
use std::process::Abort;
use std::sync::ledger::{Blank, Ledger};
use std::test::Fail;

/// How many units are 1.
const ONE: i64 = 1 << 24;
/// The cutoff, 2.5.
const CUT: i64 = 41_943_040;

#[test]
fn two_types(rt: HostRuntime) -> Result<(), Fail> {
    let mut table = PairTable::new(rt.alloc(), 2, CUT)?;
    assert_eq!(rt; table.cutoff(), CUT);
    assert_eq!(rt; table.coeff(1, 2), None);
    assert_eq!(rt; table.finish(), Err(Unset(1, 1)));
    table.set(1, 1, ONE, ONE, CUT);
    table.set(2, 2, 0, ONE, 1 << 28);
    assert_eq!(rt; table.finish(), Err(Unset(1, 2)));
    table.set(2, 1, 2 * ONE, ONE, CUT);
    assert_eq!(rt; table.coeff(1, 2), Some((2 * ONE, ONE, CUT)));
    assert_eq!(rt; table.coeff(2, 1), Some((2 * ONE, ONE, CUT)));
    table.finish()?;
    has_terms::<Brand>(&rt, &table, Blank::new(1));
    Ok(())
}

/// Along x: the types, the displacement, the weight, and what the term must be: the force along x, the energy and the
/// virial.
type AlongX = (u8, u8, i64, i64, Result<Option<(i64, i64, i128)>, Close>);

const ALONG_X: &[AlongX] = &[
    // distance 2, energy -4·(1/64 - 1/4096)
    (
        1,
        1,
        -2 * ONE,
        ONE,
        Ok(Some((3_047_424, -1_032_192, -102_254_581_383_168))),
    ),
    (
        1,
        1,
        2 * ONE,
        ONE,
        Ok(Some((-3_047_424, -1_032_192, -102_254_581_383_168))),
    ),
    // the same with half the weight
    (
        1,
        1,
        -2 * ONE,
        ONE / 2,
        Ok(Some((1_523_712, -516_096, -51_127_290_691_584))),
    ),
    // distance 1: the energy is 0, the force 24 and 48
    (
        1,
        1,
        -ONE,
        ONE,
        Ok(Some((-402_653_184, 0, 6_755_399_441_055_744))),
    ),
    (
        1,
        2,
        -ONE,
        ONE,
        Ok(Some((-805_306_368, 0, 13_510_798_882_111_488))),
    ),
    (
        2,
        1,
        -ONE,
        ONE,
        Ok(Some((-805_306_368, 0, 13_510_798_882_111_488))),
    ),
    // no well
    (2, 2, 4 * ONE, ONE, Ok(Some((0, 0, 0)))),
    // at the cutoff, at distance 0.2 and at one place, whatever the weight
    (1, 2, CUT, ONE, Ok(None)),
    (1, 1, 3_355_443, ONE, Err(Close)),
    (1, 1, 3_355_443, 1, Err(Close)),
    (2, 2, 0, ONE, Err(Close)),
];

/// The table has the terms along x.
fn has_terms<L: Ledger>(rt: &impl Abort, table: &PairTable, blank: Blank)
    requires name { blank.name ≡ L.name }
    requires parts { blank.parts ≡ L.parts }
    requires some { 0 < blank.parts }
    requires finished { IsFinished table.now }
    requires two { table.now.kinds ≡ 2 }
{
    let mut steps = Steps::<L>::new(blank);
    for (i, j, x, weight, want) in ALONG_X {
        let (i, j, x, weight, want) = (*i, *j, *x, *weight, *want);
        assert!(rt; i >= 1 && i <= 2 && j >= 1 && j <= 2);
        assert!(rt; x > -(1 << 34) && x < 1 << 34);
        assert!(rt; weight > 0 && weight <= ONE);
        let got = table.term(i, j, [x, 0, 0], weight, &mut steps);
        let got = got.map(|t| t.map(|t| (t.f[0], t.energy, t.virial)));
        assert_eq!(rt; got, want, "types {i} {j} at {x} with {weight}");
    }
}

/// What a term must be: the force, the energy and the virial.
type Wanted = Result<Option<(V3, i64, i128)>, Close>;

/// Epsilon, sigma and cutoff, the displacement, the weight, and the term.
type Row = (i64, i64, i64, V3, i64, Wanted);

/// A size whose square over 2 is a tie, in units of 2^-32.
const TIE: i64 = 65_537 << 8;
/// A quarter.
const SHORT: i64 = ONE / 4;

const HARD: &[Row] = &[
    // sigma² / r² is a tie: 65537² / 2 in units of 2^-32. Of the weights the least leaves a unit of the force.
    (
        ONE,
        TIE,
        CUT,
        [ONE, ONE, 0],
        ONE,
        Ok(Some((
            [-18_875_520, -18_875_520, 0],
            -7_340_608,
            -633_357_352_304_640,
        ))),
    ),
    (
        ONE,
        TIE,
        CUT,
        [ONE, -ONE, 0],
        ONE / 2,
        Ok(Some(([-9_437_760, 9_437_760, 0], -3_670_304, -316_678_676_152_320))),
    ),
    (
        ONE,
        TIE,
        CUT,
        [ONE, -ONE, 0],
        1,
        Ok(Some(([-1, 1, 0], 0, -33_554_432))),
    ),
    // no quotient is whole
    (
        ONE,
        ONE,
        CUT,
        [11_863_283, -9_490_627, 7_118_000],
        ONE,
        Ok(Some((
            [284_714_425, -227_771_555, 170_829_380],
            -309,
            6_755_306_194_512_260,
        ))),
    ),
    // r² at its least: 1, with sigma 1, 4 and 5 units. The strength is 24·2^56.
    (
        1,
        1,
        ONE,
        [1, 0, 0],
        ONE,
        Ok(Some(([402_653_184, 0, 0], 0, 402_653_184))),
    ),
    (0, 4, ONE, [0, 0, -1], ONE, Ok(Some(([0, 0, 0], 0, 0)))),
    (0, 5, ONE, [0, 1, 0], ONE, Err(Close)),
    (0, 1, 1, [0, 0, 0], ONE, Err(Close)),
    (0, 1, 1, [0, 1, 0], ONE, Ok(None)),
    // r² at its greatest: a unit below the greatest cutoff, and at it
    (
        MAX_EPSILON,
        MAX_SIGMA,
        MAX_CUTOFF,
        [MAX_CUTOFF - 1, 0, 0],
        ONE,
        Ok(Some(([-97_517_571, 0, 0], -264_241_160, -26_177_173_541_879_805))),
    ),
    (
        MAX_EPSILON,
        MAX_SIGMA,
        MAX_CUTOFF,
        [0, -MAX_CUTOFF, 0],
        ONE,
        Ok(None),
    ),
    (
        MAX_EPSILON,
        MAX_SIGMA,
        MAX_CUTOFF,
        [1 << 32, 1 << 33, 1],
        ONE,
        Ok(None),
    ),
    // sigma² / r² at its greatest, 16: the strength is 24·8191·2^24
    (
        1,
        ONE,
        CUT,
        [SHORT, 0, 0],
        ONE,
        Ok(Some(([3_220_832_256, 0, 0], 67_092_480, 13_509_149_614_669_824))),
    ),
    (1, ONE, CUT, [SHORT - 1, 0, 0], ONE, Err(Close)),
    // a force at its greatest, a unit nearer, and two components that are below it alone
    (
        ONE,
        ONE,
        CUT,
        [-8_648_098, 0, 0],
        ONE,
        Ok(Some((
            [-4_398_041_388_925, 0, 0],
            187_131_629_933,
            38_034_692_939_479_514_650,
        ))),
    ),
    (ONE, ONE, CUT, [-8_648_097, 0, 0], ONE, Err(Close)),
    (ONE, ONE, CUT, [-8_648_097, 0, 0], 1, Err(Close)),
    (
        ONE,
        ONE,
        CUT,
        [-6_116_128, -6_116_128, 0],
        ONE,
        Ok(Some((
            [-3_103_257_287_504, -3_103_257_287_504, 0],
            186_761_572_069,
            37_959_837_574_614_529_024,
        ))),
    ),
];

#[test]
fn hard_pairs(rt: HostRuntime) -> Result<(), Fail> {
    for row in HARD {
        has_row(&rt, rt.alloc(), *row)?;
    }
    Ok(())
}

/// The term of a row, from a table of its own.
fn has_row(rt: &impl Abort, alloc: Global, row: Row) -> Result<(), Fail> {
    let (eps, sigma, cut, d, weight, want) = row;
    let table = table_of(rt, alloc, eps, sigma, cut)?;
    let [x, y, z] = d;
    let d = [component(rt, x), component(rt, y), component(rt, z)];
    let weight = special_weight(rt, weight);
    has_term_by_halves::<Brand>(rt, &table, d, weight, want, Blank::new(1));
    Ok(())
}

/// A table of one type with these coefficients.
fn table_of(
    rt: &impl Abort,
    alloc: Global,
    eps: i64,
    sigma: i64,
    cut: i64,
) -> Result<PairTable, Fail>
    ensures finished { IfOk result IsFinished }
    ensures one { IfOk result (λ t. t.kinds ≡ 1) }
{
    assert!(rt; eps >= 0 && eps <= MAX_EPSILON && sigma > 0 && sigma <= MAX_SIGMA);
    assert!(rt; cut > 0 && cut <= MAX_CUTOFF);
    assert!(rt; sigma <= 4 * cut);
    let mut table = PairTable::new(alloc, 1, CUT)?;
    table.set(1, 1, eps, sigma, cut);
    table.finish()?;
    Ok(table)
}

/// `x`, a component of a displacement, which must be below 2^34 in magnitude.
fn component(rt: &impl Abort, x: i64) -> i64
    ensures { unsigned_abs result < 2 ^ 34 }
{
    assert!(rt; x > -(1 << 34) && x < 1 << 34);
    x
}

/// `weight`, a special weight, which must be above 0 and at most a whole one.
fn special_weight(rt: &impl Abort, weight: i64) -> i64
    ensures { (pos 0 <ℤ result) × (result ≤ℤ FULL_WEIGHT) }
{
    assert!(rt; weight > 0 && weight <= FULL_WEIGHT);
    weight
}

/// The term as a whole, and by halves with a right guess and with wrong ones.
fn has_term_by_halves<L: Ledger>(
    rt: &impl Abort,
    table: &PairTable,
    d: V3,
    weight: i64,
    want: Wanted,
    blank: Blank,
)
    requires name { blank.name ≡ L.name }
    requires parts { blank.parts ≡ L.parts }
    requires some { 0 < blank.parts }
    requires finished { IsFinished table.now }
    requires one { table.now.kinds ≡ 1 }
    requires d { IsDisplacement d }
    requires weight { (pos 0 <ℤ weight) × (weight ≤ℤ FULL_WEIGHT) }
{
    let mut steps = Steps::<L>::new(blank);
    let whole = numbers_of(table.term(1, 1, d, weight, &mut steps));
    assert_eq!(rt; whole, want, "at {d:?} with {weight}");
    let Some(right) = table.guess(1, 1, d, &mut steps) else {
        assert_eq!(rt; want, Ok(None), "no guess at {d:?}");
        return;
    };
    let elsewhere = table.guess(1, 1, [0, 0, 0], &mut steps).unwrap_or(right);
    let less = with_strength(right, right.strength / 2);
    let one_less = with_strength(right, right.strength.saturating_sub(1));
    let lesser = one_off(right).unwrap_or(right);
    for guess in [right, elsewhere, less, one_less, lesser] {
        let got = numbers_of(table.term_with(1, 1, d, weight, guess, &mut steps));
        assert_eq!(rt; got, want, "by halves at {d:?} with {weight}");
    }
}

/// The parts of a term.
fn numbers_of(outcome: Result<Option<Term>, Close>) -> Wanted {
    match outcome {
        Ok(Some(term)) => {
            let f = term.f;
            Ok(Some((f, term.energy, term.virial)))
        }
        Ok(None) => Ok(None),
        Err(fault) => Err(fault),
    }
}

/// The guess with another strength.
fn with_strength(guess: Guess, strength: u64) -> Guess
    requires { strength < 2 ^ 52 }
{
    let Guess {
        ratio,
        sixth,
        twelfth,
        ..
    } = guess;
    Guess {
        ratio,
        sixth,
        twelfth,
        strength,
    }
}

/// A guess whose square of sigma over the distance is one less, with the powers of that.
fn one_off(guess: Guess) -> Option<Guess> {
    let ratio = guess.ratio.saturating_sub(1);
    let sixth = nearest_shift(ratio as u128 * ratio as u128 * ratio as u128, 64);
    if sixth > 1 << 44 {
        return None;
    }
    let twelfth = nearest_shift(sixth * sixth, 32);
    if twelfth > 1 << 56 {
        return None;
    }
    Some(Guess {
        ratio,
        sixth: sixth as u64,
        twelfth: twelfth as u64,
        strength: guess.strength,
    })
}

#[test]
fn few_guesses_are_wrong(rt: HostRuntime) -> Result<(), Fail> {
    // to 2.5, and to 8 with squares of distances above 2^53; each from 0.9 of sigma on. One quotient is within 10^-7 of a
    // tie, which floating point does not tell.
    let rows = [(ONE, CUT, false, 16_118), (3 * ONE, 8 * ONE, true, 10_097)];
    for (sigma, cut, wide, pairs) in rows {
        let mut table = PairTable::new(rt.alloc(), 1, cut)?;
        table.set(1, 1, ONE, sigma, cut);
        table.finish()?;
        let (guesses, wrong) = wrong_guesses::<Brand>(
            &table,
            sigma.unsigned_abs(),
            wide,
            Blank::new(1),
        );
        assert_eq!(rt; guesses, pairs, "pairs up to {cut}");
        assert!(rt; wrong <= 1, "{wrong} wrong guesses up to {cut}");
    }
    Ok(())
}

/// Of a fixed list of displacements within a cube: how many have a guess, and how many of these are wrong, so that a
/// division is made. The cube goes from -2 to 2 along each axis, or from -8 to 8.
fn wrong_guesses<L: Ledger>(table: &PairTable, sigma: u64, wide: bool, blank: Blank) -> (u64, u64)
    requires name { blank.name ≡ L.name }
    requires parts { blank.parts ≡ L.parts }
    requires some { 0 < blank.parts }
    requires finished { IsFinished table.now }
    requires one { table.now.kinds ≡ 1 }
{
    let mut steps = Steps::<L>::new(blank);
    let (mut guesses, mut wrong) = (0u64, 0u64);
    let mut state = 1;
    for _ in 0..20_000u16 {
        let (x, y, z) = (
            drawn(&mut state, wide),
            drawn(&mut state, wide),
            drawn(&mut state, wide),
        );
        let r2 = length2(x, y, z);
        let sigma2 = sigma.wrapping_mul(sigma);
        if r2 < sigma2 / 100 * 81 {
            continue;
        }
        if let Some(guess) = table.guess(1, 1, [x, y, z], &mut steps) {
            guesses = guesses.wrapping_add(1);
            if !is_right(sigma2, r2, guess) {
                wrong = wrong.wrapping_add(1);
            }
        }
    }
    (guesses, wrong)
}

/// The next component by a linear congruential generator.
fn drawn(state: &mut u64, wide: bool) -> i64
    ensures { unsigned_abs result ≤ 2 ^ 27 }
{
    *state = state
        .wrapping_mul(6_364_136_223_846_793_005)
        .wrapping_add(1_442_695_040_888_963_407);
    if wide {
        (*state >> 36) as i64 - (1 << 27)
    } else {
        (*state >> 38) as i64 - (1 << 25)
    }
}

/// The square of a distance.
fn length2(x: i64, y: i64, z: i64) -> u64 {
    let (a, b, c) = (x.unsigned_abs(), y.unsigned_abs(), z.unsigned_abs());
    let squares = a.wrapping_mul(a).wrapping_add(b.wrapping_mul(b));
    squares.wrapping_add(c.wrapping_mul(c))
}

/// Whether both quotients of a well of depth 1 are as guessed.
fn is_right(sigma2: u64, r2: u64, guess: Guess) -> bool {
    let gap = (2 * guess.twelfth).abs_diff(guess.sixth);
    if r2 > 1 << 62 || gap > 1 << 58 {
        return false;
    }
    let is_ratio = is_nearest(sigma2 as u128 * (1 << 32), r2, guess.ratio);
    is_ratio && is_nearest((24 << 48) * gap as u128, r2, guess.strength)
}
