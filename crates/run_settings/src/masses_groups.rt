//! The masses of atom types.
ghost use Rattle.box_geo.specs.declared.limits.TheConstants.{MAX_MASS, MIN_MASS};
ghost use Rattle.meaning.specs.Answers.{Answers};
ghost use Rattle.meaning.specs.Sound.{IsSound};
ghost use Rattle.meaning.specs.MassesGroups.{has_kind, is_beyond, last_of, mass, mass_for, mass_of_body, masses_from};
ghost use Rattle.std.specs.Prelude.{◌≡◌, ◌≤◌, ◌≤ℤ◌, IfOk, OnOk, length};

use box_geo::Masses;
use box_geo::limits::MAX_KINDS;
use command_words::{KindRange, MassSetting};
use fx_num::{NoMemory, Seq};
use meaning::{Body, Code, Settings, SettingsRefusal};
use std::alloc::Global;

/// The last type of a range, in a box of so many types.
pub(crate) fn last_of(range: &KindRange, kinds: u8) -> u8
    ensures { result ≡ last_of range.now.last kinds }
{
    match range.last {
        Some(last) => last,
        None => kinds,
    }
}

/// Whether a number of the range is above the number of types.
pub(crate) fn is_beyond(range: &KindRange, kinds: u8) -> bool
    ensures { result ≡ is_beyond range.now kinds }
{
    kinds < range.first || kinds < last_of(range, kinds)
}

/// Whether a range has a type.
pub(crate) fn has_kind(range: &KindRange, kinds: u8, kind: u8) -> bool
    ensures { result ≡ has_kind range.now kinds kind }
{
    range.first <= kind && kind <= last_of(range, kinds)
}

/// The mass of a type, set where the range has it.
fn mass_for(setting: &MassSetting, kinds: u8, kind: u8, old: &i64) -> i64
    ensures { result ≡ mass_for setting.now kinds kind old.now }
{
    if has_kind(&setting.kinds, kinds, kind) {
        setting.mass
    } else {
        *old
    }
}

/// The masses, those of the range set.
fn masses_with(alloc: Global, setting: &MassSetting, old: &[i64]) -> Result<Masses, NoMemory>
    requires { length old.now ≤ MAX_KINDS }
    ensures { IfOk result (λ new. new ≡ masses_from setting.now (length old.now) 1 old.now) }
{
    let kinds = old.len() as u8;
    let mut masses = Seq::new(alloc);
    let mut kind = 1;
    for mass in old {
        masses.push(mass_for(setting, kinds, kind, mass))?;
        kind += 1;
    }
    Ok(masses)
}

/// Sets the masses of types in what is in the box.
fn set_in(body: &mut Body, alloc: Global, setting: &MassSetting) -> Result<(), SettingsRefusal>
    requires { length body.old.mass ≤ MAX_KINDS }
    ensures { Answers (mass_of_body setting.now body.old) result body.old body.new }
{
    if is_beyond(&setting.kinds, body.mass.len() as u8) {
        return Err(SettingsRefusal::Code(Code::BadValue));
    }
    body.mass = masses_with(alloc, setting, body.mass.as_slice())?;
    Ok(())
}

/// `mass`: the masses of types, in units.
pub fn set_masses(
    settings: &mut Settings,
    alloc: Global,
    setting: &MassSetting,
) -> Result<(), SettingsRefusal>
    requires sound { IsSound settings.old }
    requires mass { (MIN_MASS ≤ℤ setting.now.mass) × (setting.now.mass ≤ℤ MAX_MASS) }
    ensures is { Answers (mass setting.now settings.old) result settings.old settings.new }
    ensures sound { OnOk result (IsSound settings.new) }
{
    match &mut settings.body {
        Some(body) => set_in(body, alloc, setting),
        None => Err(SettingsRefusal::Code(Code::NoBox)),
    }
}
