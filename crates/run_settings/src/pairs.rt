//! Pair styles and the coefficients of pairs of types.
ghost use Rattle.box_geo.specs.declared.limits.TheConstants.{MAX_CUTOFF, MAX_EPSILON, MAX_SIGMA};
ghost use Rattle.command_words.specs.Limits.{IsCutoff};
ghost use Rattle.meaning.specs.Answers.{Answers, Decides};
ghost use Rattle.meaning.specs.MassesGroups.{is_beyond};
ghost use Rattle.meaning.specs.Pairs.{given, is_uncovered, of_types, pair_coeff, pair_style, set_all, set_with, types_in};
ghost use Rattle.meaning.specs.Sound.{IsSound};
ghost use Rattle.std.specs.Prelude.{◌≡◌, ◌≤◌, ◌≤ℤ◌, ◌<ℤ◌, pos, IfOk, IfSome, OnOk};

use crate::masses_groups::{is_beyond, last_of};
use box_geo::limits::MAX_KINDS;
use command_words::{KindRange, PairCoeff};
use fx_num::{NoMemory, Seq};
use meaning::{Code, PairCoefficients, PairSettings, Settings, SettingsRefusal};
use std::alloc::Global;

/// `pair_style lj/cut`: the cutoff, in units. Pairs that are set get it, where the style was set before.
pub fn set_pair_style(settings: &mut Settings, cutoff: i64) -> Result<(), Code>
    requires sound { IsSound settings.old }
    requires cutoff { (pos 0 <ℤ cutoff) × (cutoff ≤ℤ MAX_CUTOFF) }
    ensures is { Decides (pair_style cutoff settings.old) result settings.old settings.new }
    ensures sound { OnOk result (IsSound settings.new) }
{
    let force = &mut settings.force;
    if force.pair_style.is_none() {
        force.pairs.clear();
        force.pair_style = Some(cutoff);
        return Ok(());
    }
    if !force.pairs.are_covered(&cutoff) {
        return Err(Code::BadValue);
    }
    force.pairs.set_cutoffs(&cutoff);
    force.pair_style = Some(cutoff);
    Ok(())
}

/// The types of a range, in a box of so many types.
fn types_in(alloc: Global, range: &KindRange, kinds: u8) -> Result<Seq<u8>, NoMemory>
    requires { kinds ≤ MAX_KINDS }
    ensures { IfOk result (λ types. types ≡ types_in range.now kinds) }
{
    let end = u16::from(last_of(range, kinds)) + 1;
    let mut types = Seq::new(alloc);
    for kind in u16::from(range.first)..end {
        types.push(kind as u8)?;
    }
    Ok(types)
}

/// Coefficients of two types, in either order.
fn of_types(pair: &PairCoefficients, i: u8, j: u8) -> PairCoefficients
    ensures { result ≡ of_types pair.now i j }
{
    PairCoefficients {
        i: i.min(j),
        j: i.max(j),
        ..*pair
    }
}

/// Sets the pair of a type and of each of others.
fn set_with(
    pairs: &mut PairSettings,
    pair: &PairCoefficients,
    i: u8,
    types: &[u8],
) -> Result<(), NoMemory>
    ensures { OnOk result (pairs.new ≡ set_with pair.now i types.now pairs.old) }
{
    for j in types {
        pairs.set(&of_types(pair, i, *j))?;
    }
    Ok(())
}

/// Sets each pair of a type of the first list and one of the second.
fn set_all(
    pairs: &mut PairSettings,
    pair: &PairCoefficients,
    first: &[u8],
    second: &[u8],
) -> Result<(), NoMemory>
    ensures { OnOk result (pairs.new ≡ set_all pair.now first.now second.now pairs.old) }
{
    for i in first {
        set_with(pairs, pair, *i, second)?;
    }
    Ok(())
}

/// The coefficients that a command gives, without types.
fn given(command: &PairCoeff, cutoff: i64) -> PairCoefficients
    ensures { result ≡ given command.now cutoff }
{
    PairCoefficients {
        i: 1,
        j: 1,
        epsilon: command.epsilon,
        sigma: command.sigma,
        cutoff: command.cutoff.unwrap_or(cutoff),
    }
}

/// Whether the size is above four cutoffs, where there is a style.
fn is_uncovered(command: &PairCoeff, style: &Option<i64>) -> bool
    ensures { result ≡ is_uncovered command.now style.now }
{
    match style {
        Some(cutoff) => {
            let pair = given(command, *cutoff);
            !pair.is_covered(&pair.cutoff)
        }
        None => false,
    }
}

/// The pairs that are set, with those that a command sets.
fn pairs_with(
    alloc: Global,
    old: &PairSettings,
    pair: &PairCoefficients,
    command: &PairCoeff,
    kinds: u8,
) -> Result<PairSettings, NoMemory>
    requires { kinds ≤ MAX_KINDS }
    ensures { IfOk result (λ pairs. pairs ≡ set_all pair.now (types_in command.now.first kinds) (types_in command.now.second kinds) old.now) }
{
    let first = types_in(alloc, &command.first, kinds)?;
    let second = types_in(alloc, &command.second, kinds)?;
    let mut pairs = old.copy(alloc)?;
    set_all(&mut pairs, pair, first.as_slice(), second.as_slice())?;
    Ok(pairs)
}

/// `pair_coeff`: the coefficients of pairs of types, in units.
pub fn set_pair_coefficients(
    settings: &mut Settings,
    alloc: Global,
    command: &PairCoeff,
) -> Result<(), SettingsRefusal>
    requires sound { IsSound settings.old }
    requires first { 1 ≤ command.now.first.first }
    requires second { 1 ≤ command.now.second.first }
    requires epsilon { (pos 0 ≤ℤ command.now.epsilon) × (command.now.epsilon ≤ℤ MAX_EPSILON) }
    requires sigma { (pos 0 <ℤ command.now.sigma) × (command.now.sigma ≤ℤ MAX_SIGMA) }
    requires cutoff { IfSome command.now.cutoff IsCutoff }
    ensures is { Answers (pair_coeff command.now settings.old) result settings.old settings.new }
    ensures sound { OnOk result (IsSound settings.new) }
{
    if is_uncovered(command, &settings.force.pair_style) {
        return Err(SettingsRefusal::Code(Code::BadValue));
    }
    let Some(body) = &settings.body else {
        return Err(SettingsRefusal::Code(Code::NoBox));
    };
    let kinds = body.mass.len() as u8;
    if is_beyond(&command.first, kinds) || is_beyond(&command.second, kinds) {
        return Err(SettingsRefusal::Code(Code::BadValue));
    }
    let Some(cutoff) = settings.force.pair_style else {
        return Err(SettingsRefusal::Code(Code::Unset));
    };
    let pair = given(command, cutoff);
    settings.force.pairs = pairs_with(alloc, &settings.force.pairs, &pair, command, kinds)?;
    Ok(())
}
