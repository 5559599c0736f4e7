//! `velocity`: the velocities of a group are drawn, set, scaled, or rid of their mean.
ghost use Rattle.box_geo.specs.Ids.{Rises};
ghost use Rattle.command_words.specs.Limits.{ActionKeepsLimits};
ghost use Rattle.computes.specs.Quantities.{IsSlow};
ghost use Rattle.meaning.specs.Answers.{Answers};
ghost use Rattle.meaning.specs.Lattice.{scaled_side};
ghost use Rattle.meaning.specs.MassesGroups.{are_massive, ids_in};
ghost use Rattle.meaning.specs.Sound.{IsSound, IsSoundBody, IsSoundLattice};
ghost use Rattle.meaning.specs.Velocity.{components, drawing_of, velocity};
ghost use Rattle.run_settings.specs.Velocity.{BoxActionKeepsLimits, atoms_after, body_after, members_after, refusal_of, rests_on_masses, unless_fast_action, unless_fast_component, unless_fast_components};
ghost use Rattle.std.specs.Prelude.{◌≡◌, ◌≤◌, ◌≤ℤ◌, pos, true, All, length, map, IfSome, OnOk};
ghost use Rattle.velocity_make.specs.Change.{rest_of};
ghost use Rattle.velocity_make.specs.Group.{IsWeighed};

use crate::scaling::{scaled_within, spacing_in};
use box_geo::Atom;
use box_geo::limits::{MAX_ATOMS, MAX_SPEED};
use command_words::{Components, Draws, VelocityAction, VelocityChange};
use fx_num::{Seq, Text};
use meaning::{Body, Code, LatticeChoice, Settings, SettingsRefusal, are_massive, ids_in};
use regions_groups::Groups;
use std::alloc::Global;
use std::mem;
use velocity_make::{Drawing, VelocityRefusal, create, scale, set, zero};

/// What becomes of velocities, with the components that are set in the units of the box.
#[derive(Clone, Copy)]
enum BoxAction {
    /// They are drawn.
    Create(Drawing),
    /// Components are set; those that are not given stay.
    Set([Option<i64>; 3]),
    /// They are scaled to a temperature.
    Scale(i64),
    /// The mean is taken off.
    Zero,
}

/// How velocities are drawn.
fn drawing_of(draws: &Draws) -> Drawing
    ensures { result ≡ drawing_of draws.now }
{
    Drawing {
        temperature: draws.temperature,
        seed: draws.seed,
        still: draws.still,
    }
}

/// A component that is scaled, unless it is beyond the limit of speeds; one that is not given stays so.
fn component(scaled: bool, spacing: &i64, v: &Option<i64>) -> Option<Option<i64>>
    requires { pos 0 ≤ℤ spacing.now }
    ensures { result ≡ unless_fast_component (scaled_side scaled spacing.now v.now) }
{
    match v {
        Some(v) => {
            let v = scaled_within(scaled, spacing, v, MAX_SPEED)?;
            Some(Some(v))
        }
        None => Some(None),
    }
}

/// The components that are set, where the lattice scales them, unless one is beyond the limit of speeds.
fn components(lattice: &Option<LatticeChoice>, given: &Components) -> Option<[Option<i64>; 3]>
    requires { IfSome lattice.now IsSoundLattice }
    ensures { result ≡ unless_fast_components (components lattice.now given.now) }
{
    let spacing = spacing_in(lattice);
    let x = component(given.scaled, &spacing[0], &given.v[0])?;
    let y = component(given.scaled, &spacing[1], &given.v[1])?;
    let z = component(given.scaled, &spacing[2], &given.v[2])?;
    Some([x, y, z])
}

/// An action in the units of the box, unless it sets a component beyond the limit of speeds.
fn box_action(lattice: &Option<LatticeChoice>, action: &VelocityAction) -> Option<BoxAction>
    requires { IfSome lattice.now IsSoundLattice }
    ensures { result ≡ unless_fast_action lattice.now action.now }
{
    match action {
        VelocityAction::Create(draws) => Some(BoxAction::Create(drawing_of(draws))),
        VelocityAction::Set(given) => {
            let v = components(lattice, given)?;
            Some(BoxAction::Set(v))
        }
        VelocityAction::Scale(temperature) => Some(BoxAction::Scale(*temperature)),
        VelocityAction::Zero => Some(BoxAction::Zero),
    }
}

/// Whether masses count for an action.
fn rests_on_masses(action: &BoxAction) -> bool
    ensures { result ≡ rests_on_masses action.now }
{
    match action {
        BoxAction::Set(_) => false,
        BoxAction::Create(_) | BoxAction::Scale(_) | BoxAction::Zero => true,
    }
}

/// Why velocities stay as they are, as commands tell it.
fn refusal_of(why: VelocityRefusal) -> SettingsRefusal
    ensures { result ≡ refusal_of why }
{
    match why {
        VelocityRefusal::SpeedRange(_) => SettingsRefusal::Code(Code::SpeedRange),
        VelocityRefusal::NoMemory => SettingsRefusal::NoMemory,
    }
}

/// Changes the velocities of the atoms of a group, unless one of them would be too fast: then all stay as they are.
fn change_atoms(
    atoms: &mut [Atom],
    alloc: Global,
    mass: &[i64],
    dim: u8,
    ids: &[u32],
    action: &BoxAction,
) -> Result<(), SettingsRefusal>
    requires rising { Rises ids.now }
    requires few { length atoms.old ≤ MAX_ATOMS }
    requires masses { rests_on_masses action.now ≡ true → All (IsWeighed mass.now ids.now) atoms.old }
    requires speeds { All IsSlow atoms.old }
    requires dim { (2 ≤ dim) × (dim ≤ 3) }
    requires limits { BoxActionKeepsLimits action.now }
    ensures is { Answers (atoms_after action.now mass.now dim ids.now atoms.old) result atoms.old atoms.new }
    ensures slow { All IsSlow atoms.new }
    ensures others { map rest_of atoms.new ≡ map rest_of atoms.old }
{
    let changed = match action {
        BoxAction::Create(drawing) => create(alloc, atoms, mass, dim, ids, *drawing),
        BoxAction::Set(v) => set(atoms, ids, *v),
        BoxAction::Scale(temperature) => scale(atoms, mass, dim, ids, *temperature),
        BoxAction::Zero => zero(atoms, mass, ids),
    };
    changed.map_err(refusal_of)
}

/// Changes the velocities of the group of these ids in the box.
fn change_members(
    body: &mut Body,
    alloc: Global,
    ids: &[u32],
    action: &BoxAction,
) -> Result<(), SettingsRefusal>
    requires sound { IsSoundBody body.old }
    requires rising { Rises ids.now }
    requires masses { rests_on_masses action.now ≡ true → are_massive body.old.mass ≡ true }
    requires limits { BoxActionKeepsLimits action.now }
    ensures is { Answers (members_after action.now ids.now body.old) result body.old body.new }
    ensures sound { IsSoundBody body.new }
    ensures sides { body.new.sides ≡ body.old.sides }
{
    let mut atoms = mem::replace(&mut body.atoms, Seq::new(alloc)).into_vec();
    let mass = body.mass.as_slice();
    let answer = change_atoms(&mut atoms, alloc, mass, body.sides.dim, ids, action);
    body.atoms = Seq::from_vec(atoms);
    answer
}

/// Changes the velocities of a group in the box, whose types have masses where these count.
fn change_body(
    body: &mut Body,
    alloc: Global,
    groups: &Groups,
    name: &Text,
    action: &BoxAction,
) -> Result<(), SettingsRefusal>
    requires sound { IsSoundBody body.old }
    requires limits { BoxActionKeepsLimits action.now }
    ensures is { let ids = ids_in groups.now body.old.atoms name.now in
        Answers (body_after action.now ids body.old) result body.old body.new }
    ensures sound { IsSoundBody body.new }
    ensures sides { body.new.sides ≡ body.old.sides }
{
    if rests_on_masses(action) && !are_massive(body.mass.as_slice()) {
        return Err(SettingsRefusal::Code(Code::Unset));
    }
    let ids = ids_in(alloc, groups, body.atoms.as_slice(), name)?;
    change_members(body, alloc, ids.as_slice(), action)
}

/// `velocity`: the velocities of a group are drawn, set, scaled, or rid of their mean.
pub fn change_velocities(
    settings: &mut Settings,
    alloc: Global,
    change: &VelocityChange,
) -> Result<(), SettingsRefusal>
    requires sound { IsSound settings.old }
    requires limits { ActionKeepsLimits change.now.action }
    ensures is { Answers (velocity change.now settings.old) result settings.old settings.new }
    ensures sound { OnOk result (IsSound settings.new) }
{
    let Some(action) = box_action(&settings.setup.lattice, &change.action) else {
        return Err(SettingsRefusal::Code(Code::BadValue));
    };
    if !settings.named.groups.is_there(&change.group) {
        return Err(SettingsRefusal::Code(Code::UnknownName));
    }
    match &mut settings.body {
        Some(body) => change_body(body, alloc, &settings.named.groups, &change.group, &action),
        None => Err(SettingsRefusal::Code(Code::NoBox)),
    }
}
