//! Worked quantities.
use box_geo::{Atom, SimBox};
use computes::{kinetic_share, kinetic_sum, press, share, temp};
use std::test::Fail;

#[test]
fn worked_quantities(rt: HostRuntime) -> Result<(), Fail> {
    // -1032192 units for each of two atoms; ties away from zero; no atoms
    for (energy, atoms, shown) in [
        (-1032192i128, 2u32, -516096i128),
        (-3, 2, -2),
        (3, 2, 2),
        (5, 0, 0),
    ] {
        assert!(rt; energy.unsigned_abs() <= 1 << 121);
        assert_eq!(rt; share(energy, atoms), shown);
    }
    // a box of 10 on each axis; the virial of two atoms at distance 2, and of two at distance 1
    let cell = SimBox::new([0; 3], [10 << 24; 3], [true; 3], 3)
        .ok()
        .ok_or("no box")?;
    for (virial, shown) in [
        (-3_047_424i128 * 33_554_432, -2032i128),
        (24 * 281_474_976_710_656, 134_218),
    ] {
        assert!(rt; virial.unsigned_abs() <= 1 << 121);
        assert_eq!(rt; press(0, virial, &cell), shown);
    }
    Ok(())
}

/// An atom of type 1 at rest.
const RESTING: Atom = Atom {
    id: 1,
    mol: 0,
    kind: 1,
    x: [0; 3],
    v: [0; 3],
    f: [0; 3],
    image: [0; 3],
};

#[test]
fn worked_motion(rt: HostRuntime) -> Result<(), Fail> {
    // mass 1, velocities (1, 0, 0) and (0, -2, 0)
    let atoms = [
        Atom {
            v: [1 << 24, 0, 0],
            ..RESTING
        },
        Atom {
            v: [0, -(2 << 24), 0],
            ..RESTING
        },
    ];
    assert_eq!(rt; kinetic_sum(&atoms, &[1 << 24]), 5 << 72);
    assert_eq!(rt; kinetic_sum(&[], &[]), 0);
    // three degrees of freedom are left of two atoms, none of one; in two dimensions two are left
    assert_eq!(rt; temp(3 << 72, 2, 3), 1 << 24);
    assert_eq!(rt; temp(3 << 72, 2, 2), 3 << 23);
    assert_eq!(rt; temp(3 << 72, 1, 3), 0);
    // a velocity of 1: an energy of 0.5, shared out over one atom, over two and over none
    assert_eq!(rt; kinetic_share(1 << 72, 1), 1 << 23);
    assert_eq!(rt; kinetic_share(1 << 72, 2), 1 << 22);
    assert_eq!(rt; kinetic_share(1 << 72, 0), 0);
    // its pressure in a box of 10 on each axis, 1 / 3000
    let cell = SimBox::new([0; 3], [10 << 24; 3], [true; 3], 3)
        .ok()
        .ok_or("no box")?;
    assert_eq!(rt; press(1 << 72, 0, &cell), 5592);
    Ok(())
}
