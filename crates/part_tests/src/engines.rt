//! Worked steps: wrapping, references, room, faults, forces, whole steps, against numbers worked by
//! hand or by a second program (tools/serial_step.py).
ghost use Rattle.std.specs.Prelude.{◌≡◌, ◌^◌, ◌<◌, ◌≤◌, ◌≤ℤ◌, [], ◌∷◌, pos, neg_ℤ, true, All, IfOk};
ghost use Rattle.step_engine.specs.Ranges.{AreRules, IsForceField, IsMovable, IsPlaced, IsSkin, IsState, IsTimestep, IsWithin};

use crate::fixes::rise;
use box_geo::limits::{MAX_ATOMS, MAX_FORCE, MAX_ID, MAX_IMAGE, MAX_SKIN, MAX_SPEED, MAX_TIMESTEP};
use box_geo::{Angles, Atom, Atoms, Axis, Bonds, FaultKey, Ids, Masses, SimBox, System};
use fix_list::{Fix, FixList};
use fx_num::{NoMemory, Steps, Text, V3};
use pair_lj::PairTable;
use std::alloc::Global;
use std::marker::Brand;
use std::sync::ledger::{Blank, Ledger};
use std::test::Fail;
use step_engine::{Engine, EngineRefusal, ForceField, StepEnd, Tally};

/// How many units are 1.
const ONE: i64 = 1 << 24;
/// The cutoff, 2.5.
const CUT: i64 = 41_943_040;
/// The skin, 0.3.
const SKIN: i64 = 5_033_165;
/// The timestep, 0.005.
const DT: i64 = 83_886;

/// What is set of a run, in units: the edge of the box, whether it wraps, the timestep, the skin.
#[derive(Clone, Copy)]
struct Setup {
    edge: i64,
    periodic: bool,
    dt: i64,
    skin: i64,
}

/// A box of edge 10 that wraps, with the usual timestep and skin.
const USUAL: Setup = Setup {
    edge: 10 * ONE,
    periodic: true,
    dt: DT,
    skin: SKIN,
};

/// What a run came to: the last sums, the atoms and the counts.
#[derive(Drop)]
struct Outcome {
    tally: Tally,
    atoms: Atoms,
    counts: (u64, u64),
}

/// Whether the timestep and the skin are within their limits.
fn is_usable(setup: &Setup) -> bool
    ensures dt { result ≡ true → IsTimestep setup.now.dt }
    ensures skin { result ≡ true → IsSkin setup.now.skin }
{
    let timely = 0 <= setup.dt && setup.dt <= MAX_TIMESTEP;
    timely && 0 <= setup.skin && setup.skin <= MAX_SKIN
}

/// An atom of type 1 on which no force acts yet.
fn atom(id: u32, x: V3, v: V3) -> Atom {
    Atom {
        id,
        mol: 0,
        kind: 1,
        x,
        v,
        f: [0; 3],
        image: [0; 3],
    }
}

/// An atom at rest in the middle of y and z of the usual box.
fn resting(id: u32, x: i64) -> Atom {
    atom(id, [x, 5 * ONE, 5 * ONE], [0; 3])
}

/// Whether each component is of a magnitude up to a bound.
fn is_within(v: &V3, bound: u64) -> bool
    ensures { result ≡ true → IsWithin bound v.now }
{
    v[0].unsigned_abs() <= bound && v[1].unsigned_abs() <= bound && v[2].unsigned_abs() <= bound
}

/// Whether an atom may stand in a box, over one type.
fn is_placed(pairs: &PairTable, cell: &SimBox, atom: &Atom) -> bool
    requires { pairs.now.kinds ≡ 1 }
    ensures { result ≡ true → IsPlaced pairs.now cell.now.sides atom.now }
{
    let x = atom.x;
    atom.kind == 1 && atom.id <= MAX_ID && cell.holds(x)
}

/// Whether an atom of mass 1 may be moved.
fn is_movable(atom: &Atom) -> bool
    requires { atom.now.kind ≡ 1 }
    ensures { result ≡ true → IsMovable (pos (2 ^ 24) ∷ []) atom.now }
{
    is_within(&atom.v, MAX_SPEED as u64)
        && is_within(&atom.f, MAX_FORCE as u64)
        && is_within(&atom.image, MAX_IMAGE as u64)
}

/// Whether all atoms may.
fn are_sound(pairs: &PairTable, cell: &SimBox, atoms: &[Atom]) -> bool
    requires { pairs.now.kinds ≡ 1 }
    ensures placed { result ≡ true → All (IsPlaced pairs.now cell.now.sides) atoms.now }
    ensures movable { result ≡ true → All (IsMovable (pos (2 ^ 24) ∷ [])) atoms.now }
{
    for atom in atoms {
        if atom.kind != 1 || !is_placed(pairs, cell, atom) || !is_movable(atom) {
            return false;
        }
    }
    true
}

/// The force field of one type, with epsilon and sigma 1.
fn field(alloc: Global) -> Result<ForceField, Fail>
    ensures field { IfOk result IsForceField }
    ensures kinds { IfOk result (λ f. f.pairs.kinds ≡ 1) }
{
    let mut pairs = PairTable::new(alloc, 1, CUT)?;
    pairs.set(1, 1, ONE, ONE, CUT);
    pairs.finish()?;
    Ok(ForceField { pairs, rcmax: CUT })
}

/// A system of these atoms, of mass 1.
fn system(alloc: Global, setup: &Setup, cell: SimBox, atoms: &[Atom]) -> Result<System, NoMemory>
    ensures { IfOk result (λ s. s ≡ record { step = 0; dt = setup.now.dt; cell = cell; mass = pos (2 ^ 24) ∷ []; atoms = atoms.now; bonds = []; angles = [] }) }
{
    Ok(System {
        step: 0,
        dt: setup.dt,
        cell,
        mass: Masses::from_vec(Vec::from_slice(alloc, &[ONE])?),
        atoms: Atoms::from_vec(Vec::from_slice(alloc, atoms)?),
        bonds: Bonds::new(alloc),
        angles: Angles::new(alloc),
    })
}

/// The engine of these atoms.
fn engine(
    alloc: Global,
    setup: &Setup,
    atoms: &[Atom],
) -> Result<Result<Engine, EngineRefusal>, Fail>
    ensures { IfOk result (λ made. IfOk made (λ e. AreRules e.rules × IsState e.rules e.state × (e.state.step ≡ 0))) }
{
    let cell = SimBox::new([0; 3], [setup.edge; 3], [setup.periodic; 3], 3)?;
    let field = field(alloc)?;
    let many = atoms.len() > MAX_ATOMS as usize;
    if many || !is_usable(setup) || !are_sound(&field.pairs, &cell, atoms) {
        return Err(Fail::new("a number is out of range"));
    }
    Ok(Engine::new(alloc, system(alloc, setup, cell, atoms)?, field, setup.skin))
}

/// A fix nve of all atoms.
fn nve(alloc: Global, atoms: &[Atom]) -> Result<FixList, Fail> {
    let mut ids = Vec::new(alloc);
    for atom in atoms {
        ids.push(atom.id)?;
    }
    if !rise(&ids) {
        return Err(Fail::new("the ids do not rise"));
    }
    let mut fixes = FixList::new(alloc)?;
    fixes.put(
        Text::from_bytes(alloc, b"all")?,
        Fix::Nve(Ids::from_vec(ids)),
    )?;
    Ok(fixes)
}

/// The sums after the forces and so many steps.
#[tactic(auto, unfolding(serial_step::specs::Step::serial_step))]
fn advanced<L: Ledger>(
    engine: &mut Engine,
    fixes: &FixList,
    count: u64,
    steps: &mut Steps<L>,
) -> Result<Tally, StepEnd>
    requires rules { AreRules engine.old.rules }
    requires state { IsState engine.old.rules engine.old.state }
    requires start { engine.old.state.step ≡ 0 }
    requires few { count < 2 ^ 20 }
    ensures rules { IfOk result (λ _. AreRules engine.new.rules) }
    ensures state { IfOk result (λ _. IsState engine.new.rules engine.new.state) }
{
    let mut tally = engine.forces(fixes, steps)?;
    for _step in 0..count {
        tally = engine.advance(fixes, steps)?;
    }
    Ok(tally)
}

/// A run of so many steps.
fn run_counted<L: Ledger>(
    alloc: Global,
    setup: &Setup,
    atoms: &[Atom],
    count: u64,
    blank: Blank,
) -> Result<Result<Outcome, StepEnd>, Fail>
    requires name { blank.name ≡ L.name }
    requires parts { blank.parts ≡ L.parts }
    requires some { 0 < blank.parts }
    requires few { count < 2 ^ 20 }
{
    let mut engine = engine(alloc, setup, atoms)??;
    let fixes = nve(alloc, atoms)?;
    let mut steps = Steps::<L>::new(blank);
    match advanced(&mut engine, &fixes, count, &mut steps) {
        Ok(tally) => {
            let atoms = engine.system(alloc)?.atoms;
            let counts = engine.counts();
            Ok(Ok(Outcome {
                tally,
                atoms,
                counts,
            }))
        }
        Err(end) => Ok(Err(end)),
    }
}

/// The same on a ledger of its own.
fn run(
    alloc: Global,
    setup: &Setup,
    atoms: &[Atom],
    count: u64,
) -> Result<Result<Outcome, StepEnd>, Fail>
    requires { count < 2 ^ 20 }
{
    run_counted::<Brand>(alloc, setup, atoms, count, Blank::new(1))
}

/// The position, the velocity, the force and the image counts of the atom at a place.
fn found(outcome: &Outcome, place: usize) -> Result<(V3, V3, V3, [i64; 3]), Fail> {
    let Some(atom) = outcome.atoms.as_slice().get(place) else {
        return Err(Fail::new("no such atom"));
    };
    let Atom { x, v, f, image, .. } = *atom;
    Ok((x, v, f, image))
}

#[test]
fn an_atom_wraps_or_is_lost(rt: HostRuntime) -> Result<(), Fail> {
    let atoms = [atom(1, [163_577_856, 5 * ONE, 5 * ONE], [ONE, 0, 0])];
    let wraps = Setup {
        dt: ONE / 2,
        ..USUAL
    };
    let moved = run(rt.alloc(), &wraps, &atoms, 1)??;
    assert_eq!(rt;
        found(&moved, 0)?,
        (
            [4_194_304, 5 * ONE, 5 * ONE],
            [ONE, 0, 0],
            [0; 3],
            [1, 0, 0]
        )
    );
    let fixed = Setup {
        periodic: false,
        ..wraps
    };
    let lost = FaultKey {
        phase: 1,
        kind: 6,
        a: 1,
        b: 0,
    };
    assert_eq!(rt;
        run(rt.alloc(), &fixed, &atoms, 1)?.err(),
        Some(StepEnd::Range(lost))
    );
    Ok(())
}

#[test]
fn references_are_renewed_beyond_half_the_skin(rt: HostRuntime) -> Result<(), Fail> {
    let setup = Setup {
        dt: ONE / 2,
        skin: ONE / 2,
        ..USUAL
    };
    for (v, builds) in [(ONE / 2, 0), (ONE / 2 + 2, 1)] {
        let atoms = [atom(1, [5 * ONE; 3], [v, 0, 0])];
        let moved = run(rt.alloc(), &setup, &atoms, 1)??;
        assert_eq!(rt; moved.counts, (0, builds), "at {v}");
    }
    Ok(())
}

#[test]
fn an_edge_that_wraps_has_room_for_twice_the_reach(rt: HostRuntime) -> Result<(), Fail> {
    let rows = [
        (93_952_410, true, None),
        (93_952_409, true, Some(EngineRefusal::EdgeTooSmall(Axis::X))),
        (93_952_409, false, None),
    ];
    for (edge, periodic, want) in rows {
        let setup = Setup {
            edge,
            periodic,
            ..USUAL
        };
        assert_eq!(rt;
            engine(rt.alloc(), &setup, &[])?.err(),
            want,
            "{edge} {periodic}"
        );
    }
    Ok(())
}

#[test]
fn the_least_ids_that_are_too_close_end_a_run(rt: HostRuntime) -> Result<(), Fail> {
    let atoms = [
        resting(3, 85_563_802),
        atom(5, [5 * ONE, 85_563_802, 5 * ONE], [0; 3]),
        resting(7, 5 * ONE),
    ];
    let close = FaultKey {
        phase: 2,
        kind: 1,
        a: 3,
        b: 5,
    };
    assert_eq!(rt;
        run(rt.alloc(), &USUAL, &atoms, 0)?.err(),
        Some(StepEnd::Range(close))
    );
    Ok(())
}

#[test]
fn two_atoms(rt: HostRuntime) -> Result<(), Fail> {
    // at distance 2 and at distance 1: the force on the first along x, the pair energy, the virial
    let rows = [
        (6 * ONE, 3_047_424, -1_032_192, -102_254_581_383_168),
        (5 * ONE, -24 * ONE, 0, 6_755_399_441_055_744),
    ];
    for (x, f, pair, virial) in rows {
        let outcome = run(rt.alloc(), &USUAL, &[resting(1, 4 * ONE), resting(2, x)], 0)??;
        assert_eq!(rt; outcome.tally.pair, pair, "at {x}");
        assert_eq!(rt; outcome.tally.virial, virial, "at {x}");
        assert_eq!(rt; found(&outcome, 0)?.2, [f, 0, 0], "at {x}");
        assert_eq!(rt; found(&outcome, 1)?.2, [-f, 0, 0], "at {x}");
    }
    Ok(())
}

#[test]
fn two_atoms_make_a_step(rt: HostRuntime) -> Result<(), Fail> {
    let setup = Setup {
        dt: ONE / 2,
        ..USUAL
    };
    let atoms = [resting(1, 4 * ONE), resting(2, 6 * ONE)];
    let outcome = run(rt.alloc(), &setup, &atoms, 1)??;
    let rows = [
        (67_489_792, 1_652_325, 3_561_874),
        (100_282_368, -1_652_325, -3_561_874),
    ];
    for (place, (x, v, f)) in rows.into_iter().enumerate() {
        assert_eq!(rt;
            found(&outcome, place)?,
            ([x, 5 * ONE, 5 * ONE], [v, 0, 0], [f, 0, 0], [0; 3])
        );
    }
    assert_eq!(rt; outcome.tally.pair, -1_181_917);
    assert_eq!(rt; outcome.tally.virial, -116_803_023_847_424);
    assert_eq!(rt; outcome.counts, (1, 0));
    Ok(())
}

/// A number a little off 0.
fn off(number: u64, scale: i64) -> i64
    requires high { scale ≤ℤ pos 5000 }
    requires low { pos 0 ≤ℤ scale }
    ensures low { neg_ℤ (pos (2 ^ 24)) ≤ℤ result }
    ensures high { result ≤ℤ pos (2 ^ 24) }
{
    ((number % 4_001) as i64 - 2_000) * scale
}

/// A place of the lattice along an axis, a little off.
fn place(at: u64, number: u64) -> i64
    requires { at < 3 }
{
    2 * ONE * at as i64 + 3_355_443 + off(number, 1_500)
}

/// An atom on a lattice of 3 by 3 by 3 places, a little off, with a velocity.
fn on_lattice(k: u32) -> Atom
    requires { k < 27 }
{
    let n = u64::from(k);
    let x = [
        place(n % 3, n * 15_838),
        place(n / 3 % 3, n * 23_757),
        place(n / 9, n * 31_676),
    ];
    let v = [
        off(n * 523_645, 5_000),
        off(n * 628_374, 5_000),
        off(n * 733_103, 5_000),
    ];
    atom(k + 1, x, v)
}

#[test]
fn a_hundred_steps(rt: HostRuntime) -> Result<(), Fail> {
    let mut atoms = Vec::new(rt.alloc());
    for k in 0..27 {
        atoms.push(on_lattice(k))?;
    }
    let setup = Setup {
        edge: 6 * ONE,
        ..USUAL
    };
    let outcome = run(rt.alloc(), &setup, &atoms, 100)??;
    assert_eq!(rt; outcome.tally.pair, -125_733_247);
    assert_eq!(rt; outcome.tally.virial, -4_907_827_468_502_103);
    assert_eq!(rt; outcome.counts, (147, 3));
    assert_eq!(rt;
        found(&outcome, 0)?,
        (
            [94_584_705, 95_761_056, 96_323_630],
            [-18_011_626, -10_796_379, -7_412_224],
            [-31_906_306, 1_340_529, 16_730_748],
            [-1, -1, -1],
        )
    );
    assert_eq!(rt;
        found(&outcome, 13)?,
        (
            [35_826_015, 37_226_087, 45_905_653],
            [-386_649, 5_727_905, 7_737_090],
            [57_797_465, 55_604_808, -328_560_929],
            [0; 3],
        )
    );
    Ok(())
}
