//! Worked numbers: refusals of boxes, nearest images, wrapping, volumes, lengths, keys and copies.
use box_geo::*;
use fx_num::{Seq, UNIT, V3};
use std::test::Fail;

const LENGTH: i64 = 10 * UNIT;

const NEAR: i64 = UNIT / 4;

const FAR: i64 = LENGTH - NEAR;

/// The greatest bound.
const BOUND: i64 = 1 << 34;
/// The least edge.
const LEAST: i64 = 1 << 18;

const BOXES: &[(V3, V3, Option<BoxRefusal>)] = &[
    ([0, 0, 0], [LEAST, LEAST, LEAST], None),
    ([0, 0, 0], [BOUND, BOUND, BOUND], None),
    ([-BOUND, -BOUND, -BOUND], [0, 0, 0], None),
    (
        [0, 0, 0],
        [LEAST - 1, LEAST, LEAST],
        Some(BoxRefusal::Edge(Axis::X)),
    ),
    (
        [-1, 0, 0],
        [BOUND, LEAST, LEAST],
        Some(BoxRefusal::Edge(Axis::X)),
    ),
    (
        [LEAST, 0, 0],
        [0, LEAST, LEAST],
        Some(BoxRefusal::Edge(Axis::X)),
    ),
    (
        [BOUND, 0, 0],
        [BOUND + 1, 0, 0],
        Some(BoxRefusal::TooFar(Axis::X)),
    ),
    (
        [0, -BOUND - 1, 0],
        [LEAST, 0, 0],
        Some(BoxRefusal::TooFar(Axis::Y)),
    ),
    (
        [0, 0, 0],
        [1, BOUND + 1, 1],
        Some(BoxRefusal::Edge(Axis::X)),
    ),
    (
        [0, 0, 0],
        [LEAST, 1, BOUND + 1],
        Some(BoxRefusal::Edge(Axis::Y)),
    ),
    (
        [0, 0, 0],
        [LEAST, LEAST, BOUND + 1],
        Some(BoxRefusal::TooFar(Axis::Z)),
    ),
];

#[test]
fn refusals_of_boxes(rt: HostRuntime) {
    for (lo, hi, want) in BOXES {
        let (lo, hi, want) = (*lo, *hi, *want);
        let told = SimBox::new(lo, hi, [true; 3], 3).err();
        assert_eq!(rt; told, want, "at {lo:?} {hi:?}");
    }
}

const IMAGES: &[([bool; 3], u8, V3, V3, V3)] = &[
    ([true; 3], 3, [NEAR; 3], [FAR; 3], [UNIT / 2; 3]),
    ([true; 3], 3, [FAR; 3], [NEAR; 3], [-UNIT / 2; 3]),
    (
        [true; 3],
        2,
        [NEAR; 3],
        [FAR; 3],
        [UNIT / 2, UNIT / 2, NEAR - FAR],
    ),
    (
        [false, true, true],
        3,
        [NEAR; 3],
        [FAR; 3],
        [NEAR - FAR, UNIT / 2, UNIT / 2],
    ),
    (
        [true; 3],
        3,
        [LENGTH / 2, 0, UNIT],
        [0, LENGTH / 2, UNIT],
        [LENGTH / 2, -LENGTH / 2, 0],
    ),
    (
        [true; 3],
        3,
        [LENGTH / 2 + 1, 0, 0],
        [0, 0, 0],
        [1 - LENGTH / 2, 0, 0],
    ),
];

#[test]
fn nearest_images(rt: HostRuntime) -> Result<(), BoxRefusal> {
    for (periodic, dim, a, b, want) in IMAGES {
        let (periodic, dim, a, b, want) = (*periodic, *dim, *a, *b, *want);
        assert!(rt; dim == 2 || dim == 3);
        let cell = SimBox::new([0; 3], [LENGTH; 3], periodic, dim)?;
        assert!(rt; cell.holds(a) && cell.holds(b));
        assert_eq!(rt; cell.near(a, b), want, "from {b:?} to {a:?}");
    }
    Ok(())
}

#[test]
fn volumes_lengths_and_keys(rt: HostRuntime) -> Result<(), BoxRefusal> {
    let cube = SimBox::new([0; 3], [LENGTH; 3], [true; 3], 3)?;
    assert_eq!(rt; cube.volume(), 1000 * UNIT);
    let plane = SimBox::new([0; 3], [8 * UNIT; 3], [true; 3], 2)?;
    assert_eq!(rt; plane.volume(), 64 * UNIT);
    assert_eq!(rt; length2([3, -4, 12]), 169);

    let phase = FaultPhase::Forces.number();
    let key = FaultKey::new(phase, FaultKind::Close.number(), 3, 5);
    assert_eq!(rt; key.word(), 144_396_663_102_898_181);
    assert!(rt; key.word() < NO_FAULT);
    Ok(())
}

const POSITIONS: &[([bool; 3], u8, V3, Result<(V3, [i64; 3]), Lost>)] = &[
    (
        [true; 3],
        3,
        [FAR + UNIT / 2, -NEAR, LENGTH],
        Ok(([NEAR, FAR, 0], [1, -1, 1])),
    ),
    (
        [true; 3],
        3,
        [0, 25 * UNIT, -LENGTH],
        Ok(([0, 5 * UNIT, 0], [0, 2, -1])),
    ),
    (
        [false, true, true],
        3,
        [FAR, -NEAR - LENGTH, 0],
        Ok(([FAR, FAR, 0], [0, -2, 0])),
    ),
    (
        [false, true, true],
        3,
        [FAR + UNIT / 2, 0, 0],
        Err(Lost(Axis::X)),
    ),
    ([true, false, true], 3, [LENGTH, -1, 0], Err(Lost(Axis::Y))),
    ([true, false, false], 3, [0, LENGTH, -1], Err(Lost(Axis::Y))),
    ([false, true, false], 3, [-1, 0, LENGTH], Err(Lost(Axis::X))),
    ([true; 3], 2, [0, 0, LENGTH], Err(Lost(Axis::Z))),
];

#[test]
fn positions_wrap(rt: HostRuntime) -> Result<(), BoxRefusal> {
    for (periodic, dim, x, want) in POSITIONS {
        let (periodic, dim, x, want) = (*periodic, *dim, *x, *want);
        assert!(rt; dim == 2 || dim == 3);
        let cell = SimBox::new([0; 3], [LENGTH; 3], periodic, dim)?;
        let (a, b, c) = (
            x[0].unsigned_abs(),
            x[1].unsigned_abs(),
            x[2].unsigned_abs(),
        );
        assert!(rt; a <= 1 << 40 && b <= 1 << 40 && c <= 1 << 40);
        assert_eq!(rt; cell.wrap(x), want, "at {x:?}");
    }
    Ok(())
}

#[test]
fn keys_come_back(rt: HostRuntime) {
    let key = FaultKey::from_word(144_396_663_102_898_181);
    assert_eq!(rt; (key.phase, key.kind), (2, 1));
    assert_eq!(rt; (key.a, key.b), (3, 5));
}

#[test]
fn systems_are_copied(rt: HostRuntime) -> Result<(), Fail> {
    let cell = SimBox::new([0; 3], [LENGTH; 3], [true; 3], 3)
        .ok()
        .ok_or("no box")?;
    let mut system = System {
        step: 7,
        dt: 83_886,
        cell,
        mass: Seq::new(rt.alloc()),
        atoms: Seq::new(rt.alloc()),
        bonds: Seq::new(rt.alloc()),
        angles: Seq::new(rt.alloc()),
    };
    system.mass.push(UNIT)?;
    system.bonds.push(Bond {
        kind: 1,
        a: 3,
        b: 5,
    })?;
    let copy = system.copy(rt.alloc())?;
    assert_eq!(rt; (copy.step, copy.dt), (7, 83_886));
    assert_eq!(rt; copy.cell.sides, cell.sides);
    assert_eq!(rt; copy.mass.as_slice(), [UNIT].as_slice());
    assert!(rt; copy.atoms.is_empty() && copy.angles.is_empty());
    let ends = copy.bonds.as_slice().first().map(|bond| (bond.a, bond.b));
    assert_eq!(rt; ends, Some((3, 5)));
    Ok(())
}
