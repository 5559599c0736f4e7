//! The parts of a run, from settings: the table of pairs, the fixes, the engine.
ghost use Rattle.std.specs.Prelude.{◌≡◌, ◌≤◌, ◌^◌, ◌+ℤ◌, pos, true, length, None, IfOk, IsSome};
ghost use Rattle.box_geo.specs.Ids.{Rises};
ghost use Rattle.fix_list.specs.Fixes.{AllRise, ids_of as moved_ids};
ghost use Rattle.meaning.specs.Fixes.{fix_over, fixes_over};
ghost use Rattle.meaning.specs.MassesGroups.{are_massive, ids_of};
ghost use Rattle.meaning.specs.Pairs.{reach_of};
ghost use Rattle.meaning.specs.Sound.{IsSoundBody, IsSoundForce};
ghost use Rattle.pair_lj.specs.Pairs.{are_all_had};
ghost use Rattle.script_runs.specs.Engines.{IsEngineOf, IsTableOf};
ghost use Rattle.serial_step.specs.Room.{edge_too_small};
ghost use Rattle.step_engine.specs.Ranges.{IsTimestep};

use box_geo::limits::MAX_KINDS;
use box_geo::{Atom, SimBox, System};
use command_words::NewFix;
use fix_list::{Fix, NamedFix};
use fx_num::NoMemory;
use meaning::{Body, Force, ids_in};
use pair_lj::PairTable;
use regions_groups::Groups;
use std::alloc::Global;
use step_engine::{Engine, EngineRefusal, ForceField};

/// The greatest of all cutoffs, in units.
pub(crate) fn reach_of(force: &Force) -> u64
    requires { IsSoundForce force.now }
    ensures is { result ≡ reach_of force.now }
    ensures high { result ≤ 2 ^ 28 }
{
    let mut most = force.comm_cutoff.unsigned_abs();
    for pair in force.pairs.as_slice() {
        most = most.max(pair.cutoff.unsigned_abs());
    }
    most
}

/// The table of the pairs that are set, for so many types.
fn table_of(alloc: Global, force: &Force, kinds: u8) -> Result<PairTable, NoMemory>
    requires force { IsSoundForce force.now }
    requires style { IsSome force.now.pair_style }
    requires some { 1 ≤ kinds }
    requires few { kinds ≤ MAX_KINDS }
    requires set { are_all_had kinds force.now.pairs ≡ true }
    ensures { IfOk result (IsTableOf kinds force.now) }
{
    let cutoff = force.pair_style.unwrap();
    let mut table = PairTable::of(alloc, kinds, cutoff, force.pairs.as_slice())?;
    match table.finish() {
        Ok(()) => Ok(table),
        Err(_) => unreachable!(),
    }
}

/// A fix over the atoms of its group.
fn fix_over(
    alloc: Global,
    groups: &Groups,
    atoms: &[Atom],
    fix: &NewFix,
) -> Result<NamedFix, NoMemory>
    requires { Rises (ids_of atoms.now) }
    ensures is { IfOk result (λ named. named ≡ fix_over groups.now atoms.now fix.now) }
    ensures rises { IfOk result (λ named. Rises (moved_ids named.fix)) }
{
    Ok(NamedFix {
        name: fix.id.copy(alloc)?,
        fix: Fix::Nve(ids_in(alloc, groups, atoms, &fix.group)?),
    })
}

/// The fixes of a run, each over the atoms of its group. The ids of these atoms stand in strictly rising order.
pub(crate) fn fixes_over(
    alloc: Global,
    groups: &Groups,
    atoms: &[Atom],
    fixes: &[NewFix],
) -> Result<Vec<NamedFix>, NoMemory>
    requires { Rises (ids_of atoms.now) }
    ensures are { IfOk result (λ over. over.items ≡ fixes_over groups.now atoms.now fixes.now) }
    ensures rise { IfOk result (λ over. AllRise over.items) }
{
    let mut over = Vec::new(alloc);
    for fix in fixes {
        over.push(fix_over(alloc, groups, atoms, fix)?)?;
    }
    Ok(over)
}

/// The system of a body, under a timestep.
fn system_of(dt: i64, body: Body) -> System
    requires { IsSoundBody body }
    ensures step { result.step ≡ body.step }
    ensures dt { result.dt ≡ dt }
    ensures sides { result.cell.sides ≡ body.sides }
    ensures mass { result.mass ≡ body.mass }
    ensures atoms { result.atoms ≡ body.atoms }
    ensures bonds { result.bonds ≡ body.bonds }
    ensures angles { result.angles ≡ body.angles }
{
    let Body {
        step,
        sides,
        mass,
        atoms,
        bonds,
        angles,
    } = body;
    System {
        step,
        dt,
        cell: SimBox::from_sides(sides),
        mass,
        atoms,
        bonds,
        angles,
    }
}

/// The engine of a body, under these forces and this timestep. All that it rests on is set, and each edge has room.
pub(crate) fn engine_of(
    alloc: Global,
    force: &Force,
    dt: i64,
    body: Body,
) -> Result<Engine, NoMemory>
    requires force { IsSoundForce force.now }
    requires timestep { IsTimestep dt }
    requires body { IsSoundBody body }
    requires style { IsSome force.now.pair_style }
    requires massive { are_massive body.mass ≡ true }
    requires set { are_all_had (length body.mass) force.now.pairs ≡ true }
    requires room { edge_too_small body.sides (pos (reach_of force.now) +ℤ force.now.skin) ≡ None }
    ensures { IfOk result (IsEngineOf force.now dt (length body.mass) body) }
{
    let kinds = body.mass.len() as u8;
    let field = ForceField {
        pairs: table_of(alloc, force, kinds)?,
        rcmax: reach_of(force) as i64,
    };
    match Engine::new(alloc, system_of(dt, body), field, force.skin) {
        Ok(engine) => Ok(engine),
        Err(EngineRefusal::NoMemory) => Err(NoMemory),
        Err(EngineRefusal::EdgeTooSmall(_)) => unreachable!(),
    }
}

/// What is in the box after a run.
pub(crate) fn body_of(engine: Engine) -> Body
    ensures { result ≡ record { step = engine.state.step; sides = engine.rules.cell.sides; mass = engine.rules.mass; atoms = engine.state.atoms; bonds = engine.bonds; angles = engine.angles } }
{
    let System {
        step,
        dt: _,
        cell,
        mass,
        atoms,
        bonds,
        angles,
    } = engine.into_system();
    Body {
        step,
        sides: cell.sides,
        mass,
        atoms,
        bonds,
        angles,
    }
}
