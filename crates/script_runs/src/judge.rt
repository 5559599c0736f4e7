//! Why a run is refused before it is begun.
ghost use Rattle.std.specs.Prelude.{◌≡◌, ◌≤◌, ◌^◌, ◌+ℤ◌, is_none, length, not, pos, unsigned_abs, None, IfErr, IfOk, OnOk};
ghost use Rattle.box_geo.specs.Sides.{IsSound};
ghost use Rattle.fix_list.specs.Fixes.{AllRise, movers};
ghost use Rattle.meaning.specs.Fixes.{fixes_over, is_twice, move_twice};
ghost use Rattle.meaning.specs.Pairs.{reach_of};
ghost use Rattle.meaning.specs.Runs.{early_code, have_own, is_mixed, is_ready, last_step};
ghost use Rattle.meaning.specs.Sound.{IsSoundBody, IsSoundForce};
ghost use Rattle.script_runs.specs.Judged.{Stops, refusal_of};
ghost use Rattle.serial_step.specs.Room.{edge_too_small};

use crate::parts::{fixes_over, reach_of};
use box_geo::limits::{MAX_KINDS, MAX_STEP};
use box_geo::{Atom, Sides, SimBox};
use fix_list::{FixList, NamedFix};
use meaning::{Body, Code, Force, PairSettings, Refusal, Settings, are_massive};
use std::alloc::Global;
use step_engine::edge_too_small;

/// Judges a run over a body, in the order in which its refusals count, and gives its fixes where nothing refuses it.
pub(crate) fn judged_fixes(
    alloc: Global,
    settings: &Settings,
    body: &Body,
    upto: bool,
    n: u64,
) -> Result<FixList, Refusal>
    requires force { IsSoundForce settings.now.force }
    requires body { IsSoundBody body.now }
    requires limit { n ≤ MAX_STEP }
    ensures fixes { IfOk result (λ list. list ≡ fixes_over settings.now.named.groups body.now.atoms settings.now.named.fixes) }
    ensures passes { OnOk result (refusal_of upto n settings.now body.now ≡ None) }
    ensures stopped { IfErr result (λ why. Stops why (refusal_of upto n settings.now body.now)) }
{
    if let Some(code) = early_code(settings, body, upto, n) {
        return Err(Refusal::Code(code));
    }
    if is_mixed(settings, body) {
        return Err(Refusal::NotBuilt);
    }
    if is_too_small(&settings.force, body.sides) {
        return Err(Refusal::Code(Code::EdgeTooSmall));
    }
    let named = &settings.named;
    let atoms = body.atoms.as_slice();
    let fixes = match fixes_over(alloc, &named.groups, atoms, named.fixes.as_slice()) {
        Ok(fixes) => fixes,
        Err(_) => return Err(Refusal::NoMemory),
    };
    if move_twice(&fixes, atoms) {
        return Err(Refusal::Code(Code::TwiceMoved));
    }
    Ok(FixList::from_vec(fixes))
}

/// Why a run is refused by what is asked and what is set.
fn early_code(settings: &Settings, body: &Body, upto: bool, n: u64) -> Option<Code>
    requires body { IsSoundBody body.now }
    requires limit { n ≤ MAX_STEP }
    ensures { result ≡ early_code upto n settings.now body.now }
{
    if (upto && n < body.step) || last_step(upto, n, body.step) > MAX_STEP {
        return Some(Code::BadValue);
    }
    if !is_ready(settings, body) {
        return Some(Code::Unset);
    }
    None
}

/// The number of the step that a run ends at: so many more, or up to one.
pub(crate) fn last_step(upto: bool, n: u64, step: u64) -> u64
    requires n { n ≤ MAX_STEP }
    requires step { step ≤ MAX_STEP }
    ensures { result ≡ last_step upto n step }
{
    if upto { n } else { step + n }
}

/// Whether all that forces and motion rest on is set.
fn is_ready(settings: &Settings, body: &Body) -> bool
    requires { IsSoundBody body.now }
    ensures { result ≡ is_ready settings.now body.now }
{
    let force = &settings.force;
    force.pair_style.is_some()
        && are_massive(body.mass.as_slice())
        && have_own(&force.pairs, body.mass.len() as u8)
}

/// Whether each of so many types has coefficients with itself.
fn have_own(pairs: &PairSettings, kinds: u8) -> bool
    requires { kinds ≤ MAX_KINDS }
    ensures { result ≡ have_own kinds pairs.now }
{
    for kind in 1..kinds + 1 {
        if !pairs.is_set(kind, kind) {
            return false;
        }
    }
    true
}

/// Whether the coefficients of a pair of types would have to be mixed.
fn is_mixed(settings: &Settings, body: &Body) -> bool
    requires { IsSoundBody body.now }
    ensures { result ≡ is_mixed settings.now body.now }
{
    !settings.force.pairs.are_all_had(body.mass.len() as u8)
}

/// Whether an edge that wraps is below twice the sum of the greatest cutoff and the skin.
fn is_too_small(force: &Force, sides: Sides) -> bool
    requires force { IsSoundForce force.now }
    requires sides { IsSound sides }
    ensures { result ≡ not (is_none (edge_too_small sides (pos (reach_of force.now) +ℤ force.now.skin))) }
{
    edge_too_small(&SimBox::from_sides(sides), reach_and_skin(force)).is_some()
}

/// The greatest cutoff and the skin, in units.
fn reach_and_skin(force: &Force) -> i64
    requires { IsSoundForce force.now }
    ensures is { result ≡ pos (reach_of force.now) +ℤ force.now.skin }
    ensures short { unsigned_abs result ≤ 2 ^ 40 }
{
    reach_of(force) as i64 + force.skin
}

/// Whether two of some fixes move one of some atoms. For n atoms and k fixes the time grows as n k log n; with fewer
/// than two fixes it is constant.
fn move_twice(fixes: &[NamedFix], atoms: &[Atom]) -> bool
    requires { AllRise fixes.now }
    ensures { result ≡ move_twice fixes.now atoms.now }
{
    if fixes.len() < 2 {
        return false;
    }
    for atom in atoms {
        if movers(fixes, atom.id) >= 2 {
            return true;
        }
    }
    false
}

/// How many of some fixes move the atom of an id.
fn movers(fixes: &[NamedFix], id: u32) -> usize
    requires { AllRise fixes.now }
    ensures { result ≡ movers fixes.now id }
{
    let mut count = 0;
    for named in fixes {
        if named.fix.moves(id) {
            count += 1;
        }
    }
    count
}
