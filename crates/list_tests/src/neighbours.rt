//! Bins and half lists: what is near by hand, and a random set of sites against all pairs.
ghost use Rattle.std.specs.Prelude.{◌≡◌, ◌^◌, ◌<◌, ◌≤◌, IfOk, length, unsigned_abs};
ghost use Rattle.std.specs.List.{All};
ghost use Rattle.cell_bins.specs.Near.{IsSmall};

use box_geo::{Site, Sites};
use cell_bins::Bins;
use fx_num::{NoMemory, Seq, V3};
use half_list::{List, stale};
use std::alloc::Global;
use std::test::Fail;

/// The greatest magnitude of a coordinate.
const FAR: i64 = 1 << 36;

/// The place of a site is its number in the list and this much.
const FIRST_PLACE: u32 = 1000;

/// A coordinate, or the farthest on its side.
fn inside(x: i64) -> i64
    ensures { unsigned_abs result ≤ 2 ^ 36 }
{
    if x > FAR {
        FAR
    } else if x < -FAR {
        -FAR
    } else {
        x
    }
}

/// The site with a number in its list.
fn site(x: V3, id: u32, number: u32) -> Site
    requires { number < 2 ^ 20 }
    ensures { IsSmall result.x }
{
    Site {
        x: [inside(x[0]), inside(x[1]), inside(x[2])],
        id,
        place: FIRST_PLACE + number,
    }
}

/// The sites of these positions and ids.
fn sites_of(alloc: Global, from: &[(V3, u32)]) -> Result<Sites, NoMemory>
    requires { length from.now < 2 ^ 20 }
    ensures count { IfOk result (λ s. length s ≡ length from.now) }
    ensures few { IfOk result (λ s. length s < 2 ^ 32) }
    ensures small { IfOk result (λ s. All (λ a. IsSmall a.x) s) }
{
    let mut sites: Sites = Seq::new(alloc);
    for (i, (x, id)) in from.iter().enumerate() {
        sites.push(site(*x, *id, i as u32))?;
    }
    Ok(sites)
}

/// Positions with ids, the reach, and whether the second site is in the row of the first.
type InRow = ((V3, u32), (V3, u32), i64, bool);

const IN_ROW: &[InRow] = &[
    (([0, 0, 0], 1), ([5, 0, 0], 2), 6, true),
    (([0, 0, 0], 1), ([5, 0, 0], 2), 5, false),
    (([0, 0, 0], 2), ([5, 0, 0], 1), 6, false),
    (([0, 0, 0], 2), ([5, 0, 0], 2), 6, false),
    (([0, 0, 0], 1), ([3, 4, 0], 2), 5, false),
    (([0, 0, 0], 1), ([3, 4, 0], 2), 6, true),
    (([0, 0, 0], 1), ([2, 3, 6], 2), 7, false),
    (([0, 0, 0], 1), ([2, 3, 6], 2), 8, true),
    (([0, 0, 0], 1), ([4, 4, 4], 2), 5, false),
    (([7, 7, 7], 1), ([7, 7, 7], 2), 1, true),
    (([-1, -1, -1], 1), ([0, 0, 0], 2), 2, true),
    (([-1, -1, -1], 1), ([1, 0, 0], 2), 2, false),
    (([-FAR, -FAR, -FAR], 1), ([1 - FAR, -FAR, -FAR], 2), 2, true),
    (([FAR, FAR, FAR], 1), ([FAR, FAR - 1, FAR], 2), 2, true),
    (
        ([-FAR, -FAR, -FAR], 1),
        ([FAR, FAR, FAR], 2),
        1 << 29,
        false,
    ),
    (([-FAR, 0, 0], 1), ([FAR, 0, 0], 2), 1, false),
    (
        ([FAR, 0, 0], 1),
        ([FAR + 1 - (1 << 29), 0, 0], 2),
        1 << 29,
        true,
    ),
];

#[test]
fn rows_by_hand(rt: HostRuntime) -> Result<(), NoMemory> {
    for (first, second, reach, is_in) in IN_ROW {
        let (first, second, reach) = (*first, *second, *reach);
        assert!(rt; 1 <= reach && reach <= 1 << 29);
        let own = sites_of(rt.alloc(), &[first])?;
        let all = sites_of(rt.alloc(), &[first, second])?;
        let list = List::build(rt.alloc(), &own, &all, reach)?;
        let row: &[u32] = if *is_in { &[FIRST_PLACE + 1] } else { &[] };
        assert_eq!(rt;
            list.row(0),
            row,
            "of {first:?} and {second:?} within {reach}"
        );
    }
    Ok(())
}

#[test]
fn lists_of_one_site_and_of_none(rt: HostRuntime) -> Result<(), NoMemory> {
    let one = sites_of(rt.alloc(), &[([5, 5, 5], 1)])?;
    let none = sites_of(rt.alloc(), &[])?;
    assert_eq!(rt;
        List::build(rt.alloc(), &one, &one, 9)?.row(0),
        [].as_slice()
    );
    assert_eq!(rt;
        List::build(rt.alloc(), &one, &none, 9)?.row(0),
        [].as_slice()
    );
    List::build(rt.alloc(), &none, &one, 9)?;
    let mut met = 0;
    for place in Bins::fill(rt.alloc(), &one, 9)?.around([1, 12, -3]) {
        assert_eq!(rt; place, FIRST_PLACE);
        met = 1;
    }
    assert_eq!(rt; met, 1);
    Ok(())
}

const MOVES: &[(i128, i64, bool)] = &[
    (0, 0, false),
    (1, 0, true),
    (25, 10, false),
    (26, 10, true),
    (1 << 46, 1 << 24, false),
    ((1 << 46) + 1, 1 << 24, true),
    (1 << 50, 1 << 26, false),
    ((1 << 50) + 1, 1 << 26, true),
    (1 << 100, 1 << 26, true),
];

#[test]
fn stale_beyond_half_the_skin(rt: HostRuntime) {
    for (moved2, skin, want) in MOVES {
        let (moved2, skin, want) = (*moved2, *skin, *want);
        assert!(rt; 0 <= moved2 && moved2 <= 1 << 100 && 0 <= skin && skin <= 1 << 26);
        assert_eq!(rt; stale(moved2, skin), want, "{moved2} {skin}");
    }
}

/// The next of the numbers of a fixed generator.
fn next(seed: u64) -> u64 {
    seed.wrapping_mul(6_364_136_223_846_793_005)
        .wrapping_add(1_442_695_040_888_963_407)
}

/// A coordinate between minus and plus 100, by a number of the generator; of every eighth site as far
/// out as may be.
fn coordinate(number: usize, seed: u64) -> i64 {
    let x = (seed >> 33) as i64 % 201 - 100;
    if number % 8 == 7 { x + FAR - 100 } else { x }
}

/// Three hundred sites by a fixed generator, with ids that don't follow their order.
fn random_sites(alloc: Global) -> Result<Sites, NoMemory>
    ensures few { IfOk result (λ s. length s < 2 ^ 32) }
    ensures small { IfOk result (λ s. All (λ a. IsSmall a.x) s) }
{
    let mut from = [([0i64; 3], 0u32); 300];
    let mut seed = 1;
    for number in 0..300 {
        let x = next(seed);
        let y = next(x);
        let z = next(y);
        seed = z;
        from[number] = (
            [
                coordinate(number, x),
                coordinate(number, y),
                coordinate(number, z),
            ],
            (number * 7 % 300) as u32 + 1,
        );
    }
    sites_of(alloc, &from)
}

/// Whether two positions are nearer than the reach, worked out in wide numbers.
fn are_near(a: V3, b: V3, reach: i64) -> bool {
    let mut sum: u128 = 0;
    for axis in 0..3 {
        let gap = a[axis].abs_diff(b[axis]) as u128;
        sum = sum.saturating_add(gap.saturating_mul(gap));
    }
    let reach = reach.unsigned_abs() as u128;
    sum < reach.saturating_mul(reach)
}

#[test]
fn random_sites_against_all_pairs(rt: HostRuntime) -> Result<(), NoMemory> {
    let sites = random_sites(rt.alloc())?;
    let all = sites.as_slice();
    let mut pairs = 0u64;
    for reach in [1, 17, 40, 201] {
        let list = List::build(rt.alloc(), &sites, &sites, reach)?;
        for (k, own) in all.iter().enumerate() {
            let mut row = Vec::from_slice(rt.alloc(), list.row(k as u32))?;
            row.sort()?;
            let mut want: Vec<u32> = Vec::new(rt.alloc());
            for site in all {
                if own.id < site.id && are_near(own.x, site.x, reach) {
                    want.push(site.place)?;
                }
            }
            assert_eq!(rt;
                row.as_slice(),
                want.as_slice(),
                "of {own:?} within {reach}"
            );
            pairs = pairs.saturating_add(row.len() as u64);
        }
    }
    // most pairs are within 201 of each other, few within 17
    assert!(rt; pairs > 10_000);
    Ok(())
}

#[test]
fn every_near_site_is_met_once(rt: HostRuntime) -> Result<(), NoMemory> {
    let sites = random_sites(rt.alloc())?;
    let all = sites.as_slice();
    for reach in [1, 17, 40, 201] {
        let bins = Bins::fill(rt.alloc(), &sites, reach)?;
        for own in all {
            let mut met = [0u8; 300];
            for place in bins.around(own.x) {
                let k = place.saturating_sub(FIRST_PLACE) as usize;
                assert!(rt; k < 300 && met[k] == 0, "{place} again round {own:?}");
                met[k] = 1;
            }
            for (site, count) in all.iter().zip(&met) {
                assert!(rt;
                    *count == 1 || !are_near(own.x, site.x, reach),
                    "{site:?} near {own:?}"
                );
            }
        }
    }
    Ok(())
}
