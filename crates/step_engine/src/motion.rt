//! The motion of atoms: two kicks of half a step, and the drift between them.
ghost use Rattle.std.specs.Prelude.{◌≡◌, ◌*◌, ◌^◌, ◌<◌, ◌≤◌, ◌||◌, ◌≤ℤ◌, ◌*ℤ◌, pos, map, [], nat_lt, unsigned_abs};
ghost use Rattle.box_geo.specs.Fault.{kind_number, no_fault, phase_number};
ghost use Rattle.box_geo.specs.Sides.{IsInside, x_of, y_of, z_of};
ghost use Rattle.box_geo.specs.Wrap.{AreFew};
ghost use Rattle.fx_num.specs.Rounding.{div_rounded, shr_rounded};
ghost use Rattle.serial_step.specs.Forces.{word};
ghost use Rattle.serial_step.specs.Step.{atoms_of, counted, drifted, fault_of, kicked, kicked_again, kicked_along, mass_of, moved, moved_along, settled_atom};
ghost use Rattle.step_engine.specs.Engine.{setting_of};
ghost use Rattle.step_engine.specs.Ranges.{AreAtoms, AreRules, HasMass, IsMovable, IsPlaced, IsTimestep, IsWithin};

use crate::rules::Rules;
use box_geo::limits::{MAX_IMAGE, MAX_MASS, MAX_SPEED, MIN_MASS};
use box_geo::{Atom, FaultKey, FaultKind, FaultPhase, NO_FAULT};
use fix_list::FixList;
use fx_num::{V3, rdiv, rsh};

/// The first kick and the drift of each atom that a fix moves. The answer is the least word of a
/// fault, [`NO_FAULT`] without one.
pub(crate) fn drift(rules: &Rules, fixes: &FixList, atoms: &mut [Atom]) -> u64
    requires rules { AreRules rules.now }
    requires atoms { AreAtoms rules.now atoms.old }
    ensures atoms { atoms.new ≡ atoms_of (map (drifted (setting_of rules.now fixes.now)) atoms.old) }
    ensures fault { result ≡ fault_of (map (drifted (setting_of rules.now fixes.now)) atoms.old) }
    ensures sound { result ≡ no_fault → AreAtoms rules.now atoms.new }
{
    let mut least = NO_FAULT;
    for i in 0..atoms.len() {
        let (atom, fault) = drift_atom(rules, fixes, &atoms[i]);
        atoms[i] = atom;
        least = least.min(fault);
    }
    least
}

/// The second kick of each atom that a fix moves. The answer is the least word of a fault,
/// [`NO_FAULT`] without one.
pub(crate) fn kick_again(rules: &Rules, fixes: &FixList, atoms: &mut [Atom]) -> u64
    requires rules { AreRules rules.now }
    requires atoms { AreAtoms rules.now atoms.old }
    ensures atoms { atoms.new ≡ atoms_of (map (kicked_again (setting_of rules.now fixes.now)) atoms.old) }
    ensures fault { result ≡ fault_of (map (kicked_again (setting_of rules.now fixes.now)) atoms.old) }
    ensures sound { result ≡ no_fault → AreAtoms rules.now atoms.new }
{
    let mut least = NO_FAULT;
    for i in 0..atoms.len() {
        let (atom, fault) = kick_atom_again(rules, fixes, &atoms[i]);
        atoms[i] = atom;
        least = least.min(fault);
    }
    least
}

/// The first kick and the drift of an atom, if a fix moves it, and the word of its fault. One that is
/// too fast or lost stays where it is.
#[tactic(auto, unfolding(serial_step::specs::Step::drifted))]
fn drift_atom(rules: &Rules, fixes: &FixList, atom: &Atom) -> (Atom, u64)
    requires dt { IsTimestep rules.now.dt }
    requires placed { IsPlaced rules.now.field.pairs rules.now.cell.sides atom.now }
    requires movable { IsMovable rules.now.mass atom.now }
    ensures atom { result.0 ≡ (drifted (setting_of rules.now fixes.now) atom.now).atom }
    ensures fault { result.1 ≡ (drifted (setting_of rules.now fixes.now) atom.now).fault }
    ensures placed { result.1 ≡ no_fault → IsPlaced rules.now.field.pairs rules.now.cell.sides result.0 }
    ensures movable { result.1 ≡ no_fault → IsMovable rules.now.mass result.0 }
{
    if !fixes.moves(atom.id) {
        return (*atom, NO_FAULT);
    }
    let v = kicked(rules, atom);
    let kicked = Atom { v, ..*atom };
    if is_beyond(&v, MAX_SPEED as u64) {
        let fault = fault_of_atom(FaultPhase::Drift, FaultKind::Speed, atom);
        return (kicked, fault);
    }
    match rules.cell.wrap(moved(rules, &kicked)) {
        Ok(wrapped) => settled(&kicked, wrapped),
        Err(_) => (
            kicked,
            fault_of_atom(FaultPhase::Drift, FaultKind::Lost, atom),
        ),
    }
}

/// The position of an atom after a timestep at its velocity, not yet wrapped.
fn moved(rules: &Rules, atom: &Atom) -> V3
    requires dt { IsTimestep rules.now.dt }
    requires inside { IsInside rules.now.cell.sides atom.now.x }
    requires v { IsWithin (2 ^ 32) atom.now.v }
    ensures is { result ≡ moved (setting_of rules.now []) atom.now atom.now.v }
    ensures bound { IsWithin (2 ^ 40) result }
{
    [
        moved_along(rules.dt, atom.x[0], atom.v[0]),
        moved_along(rules.dt, atom.x[1], atom.v[1]),
        moved_along(rules.dt, atom.x[2], atom.v[2]),
    ]
}

/// A position after a timestep along an axis: x + dt·v.
fn moved_along(dt: i64, x: i64, v: i64) -> i64
    requires dt { IsTimestep dt }
    requires x { unsigned_abs x ≤ 2 ^ 34 }
    requires v { unsigned_abs v ≤ 2 ^ 32 }
    ensures is { result ≡ moved_along dt x v }
    ensures bound { unsigned_abs result ≤ 2 ^ 40 }
{
    x + path_along(dt, v)
}

/// The way of a timestep along an axis: dt·v.
fn path_along(dt: i64, v: i64) -> i64
    requires dt { IsTimestep dt }
    requires v { unsigned_abs v ≤ 2 ^ 32 }
    ensures is { result ≡ shr_rounded (dt *ℤ v) 24 }
    ensures bound { unsigned_abs result ≤ 2 ^ 32 }
{
    rsh(over_timestep(dt, v), 24) as i64
}

/// An atom at its wrapped position, with the edges that were taken off added to its image counts, and
/// the word of its fault.
fn settled(atom: &Atom, wrapped: (V3, [i64; 3])) -> (Atom, u64)
    requires id { atom.now.id < 2 ^ 24 }
    requires image { IsWithin (2 ^ 40) atom.now.image }
    requires few { AreFew wrapped.1 }
    ensures atom { result.0 ≡ (settled_atom atom.now atom.now.v record { x = wrapped.0; edges = wrapped.1 }).atom }
    ensures fault { result.1 ≡ (settled_atom atom.now atom.now.v record { x = wrapped.0; edges = wrapped.1 }).fault }
    ensures within { result.1 ≡ no_fault → IsWithin (2 ^ 40) result.0.image }
{
    let (x, edges) = wrapped;
    let image = counted(&atom.image, &edges);
    let settled = Atom { x, image, ..*atom };
    if is_beyond(&image, MAX_IMAGE as u64) {
        return (
            settled,
            fault_of_atom(FaultPhase::Drift, FaultKind::Image, atom),
        );
    }
    (settled, NO_FAULT)
}

/// The image counts with so many edges more.
fn counted(image: &[i64; 3], edges: &[i64; 3]) -> [i64; 3]
    requires image { IsWithin (2 ^ 40) image.now }
    requires few { AreFew edges.now }
    ensures { result ≡ counted image.now edges.now }
{
    [
        image[0] + edges[0],
        image[1] + edges[1],
        image[2] + edges[2],
    ]
}

/// The second kick of an atom, if a fix moves it, and the word of its fault.
#[tactic(auto, unfolding(serial_step::specs::Step::kicked_again))]
fn kick_atom_again(rules: &Rules, fixes: &FixList, atom: &Atom) -> (Atom, u64)
    requires dt { IsTimestep rules.now.dt }
    requires placed { IsPlaced rules.now.field.pairs rules.now.cell.sides atom.now }
    requires movable { IsMovable rules.now.mass atom.now }
    ensures atom { result.0 ≡ (kicked_again (setting_of rules.now fixes.now) atom.now).atom }
    ensures fault { result.1 ≡ (kicked_again (setting_of rules.now fixes.now) atom.now).fault }
    ensures placed { IsPlaced rules.now.field.pairs rules.now.cell.sides result.0 }
    ensures movable { result.1 ≡ no_fault → IsMovable rules.now.mass result.0 }
{
    if !fixes.moves(atom.id) {
        return (*atom, NO_FAULT);
    }
    let v = kicked(rules, atom);
    let kicked = Atom { v, ..*atom };
    if is_beyond(&v, MAX_SPEED as u64) {
        return (
            kicked,
            fault_of_atom(FaultPhase::Kick, FaultKind::Speed, atom),
        );
    }
    (kicked, NO_FAULT)
}

/// The velocity of an atom after half a step of acceleration.
fn kicked(rules: &Rules, atom: &Atom) -> V3
    requires dt { IsTimestep rules.now.dt }
    requires movable { IsMovable rules.now.mass atom.now }
    ensures { result ≡ kicked (setting_of rules.now []) atom.now }
{
    let mass = mass_of(rules, atom);
    [
        kicked_along(rules.dt, mass, atom.v[0], atom.f[0]),
        kicked_along(rules.dt, mass, atom.v[1], atom.f[1]),
        kicked_along(rules.dt, mass, atom.v[2], atom.f[2]),
    ]
}

/// Half a step of acceleration along an axis: v + dt·f / 2m.
fn kicked_along(dt: i64, mass: i64, v: i64, f: i64) -> i64
    requires dt { IsTimestep dt }
    requires light { MIN_MASS ≤ℤ mass }
    requires heavy { mass ≤ℤ MAX_MASS }
    requires v { unsigned_abs v ≤ 2 ^ 32 }
    requires f { unsigned_abs f ≤ 2 ^ 44 }
    ensures { result ≡ kicked_along dt mass v f }
{
    v + push_along(dt, mass, f)
}

/// What half a step of acceleration adds to a velocity along an axis: dt·f / 2m.
fn push_along(dt: i64, mass: i64, f: i64) -> i64
    requires dt { IsTimestep dt }
    requires light { MIN_MASS ≤ℤ mass }
    requires heavy { mass ≤ℤ MAX_MASS }
    requires f { unsigned_abs f ≤ 2 ^ 44 }
    ensures is { result ≡ div_rounded (dt *ℤ f) (pos 2 *ℤ mass) }
    ensures bound { unsigned_abs result ≤ 2 ^ 53 }
{
    rdiv(over_timestep(dt, f), 2 * i128::from(mass)) as i64
}

/// What a rate of change brings in a timestep, in multiples of 2^-48.
fn over_timestep(dt: i64, rate: i64) -> i128
    requires dt { IsTimestep dt }
    requires rate { unsigned_abs rate ≤ 2 ^ 44 }
    ensures is { result ≡ dt *ℤ rate }
    ensures bound { unsigned_abs result ≤ 2 ^ 68 }
{
    i128::from(dt) * i128::from(rate)
}

/// The mass of an atom.
fn mass_of(rules: &Rules, atom: &Atom) -> i64
    requires { HasMass rules.now.mass atom.now.kind }
    ensures is { result ≡ mass_of (setting_of rules.now []) atom.now }
    ensures light { MIN_MASS ≤ℤ result }
    ensures heavy { result ≤ℤ MAX_MASS }
{
    rules.mass.as_slice()[usize::from(atom.kind) - 1]
}

/// Whether a component of a vector is of a magnitude above a limit.
fn is_beyond(v: &V3, limit: u64) -> bool
    ensures { result ≡ (nat_lt limit (unsigned_abs (x_of v.now)) || nat_lt limit (unsigned_abs (y_of v.now)) || nat_lt limit (unsigned_abs (z_of v.now))) }
{
    v[0].unsigned_abs() > limit || v[1].unsigned_abs() > limit || v[2].unsigned_abs() > limit
}

/// The word of a fault of one atom.
fn fault_of_atom(phase: FaultPhase, kind: FaultKind, atom: &Atom) -> u64
    requires { atom.now.id < 2 ^ 24 }
    ensures is { result ≡ word (phase_number phase) (kind_number kind) atom.now.id 0 }
    ensures below { result < no_fault }
{
    FaultKey::new(phase.number(), kind.number(), atom.id, 0).word()
}
