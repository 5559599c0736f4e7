//! `group` by the values of a variable.
ghost use Rattle.meaning.specs.Answers.{Answers, Gets};
ghost use Rattle.meaning.specs.Known.{known_in};
ghost use Rattle.meaning.specs.Sound.{IsSound, IsSoundBody};
ghost use Rattle.meaning.specs.ValueGroups.{group_by_values, value_for, valued_ids};
ghost use Rattle.std.specs.Prelude.{◌≡◌, OnOk, Some};

use crate::members::add_to;
use box_geo::{Atom, Ids};
use fx_num::{Numbers, Seq, Text};
use meaning::{Body, Code, Settings, SettingsRefusal, atom_numbers, known_in, valued};
use std::alloc::Global;
use variable_values::{Known, value_of};

/// The value of a variable for an atom, where `state` has the numbers that are known.
fn value_for(
    alloc: Global,
    settings: &Settings,
    body: &Body,
    state: &Numbers,
    name: &Text,
    atom: &Atom,
) -> Result<i64, SettingsRefusal>
    requires { state.now ≡ known_in settings.now }
    ensures { Gets (value_for settings.now body.now name.now atom.now) result }
{
    let own = atom_numbers(alloc, body.mass.as_slice(), atom)?;
    let known = Known::of_atom(state, &own);
    valued(value_of(alloc, &settings.vars, name.as_bytes(), &known, 0))
}

/// The ids of the atoms for which the value of a variable is not 0.
fn nonzero_ids(
    alloc: Global,
    settings: &Settings,
    body: &Body,
    name: &Text,
) -> Result<Ids, SettingsRefusal>
    requires sound { IsSoundBody body.now }
    requires own { settings.now.body ≡ Some body.now }
    ensures { Gets (valued_ids (value_for settings.now body.now name.now) body.now.atoms) result }
{
    let state = known_in(alloc, settings)?;
    let mut ids = Seq::new(alloc);
    for atom in body.atoms.as_slice() {
        if value_for(alloc, settings, body, &state, name, atom)? != 0 {
            ids.push(atom.id)?;
        }
    }
    Ok(ids)
}

/// `group` by the values of a variable: adds the atoms for which the value is not 0, `name` the variable's name. A
/// variable of any style has a value for each atom, judged in the order of their ids.
pub fn group_by_values(
    settings: &mut Settings,
    alloc: Global,
    id: Text,
    name: &Text,
) -> Result<(), SettingsRefusal>
    requires sound { IsSound settings.old }
    ensures is { Answers (group_by_values id name.now settings.old) result settings.old settings.new }
    ensures sound { OnOk result (IsSound settings.new) }
{
    if !settings.vars.has(name.as_bytes()) {
        return Err(SettingsRefusal::Code(Code::UnknownName));
    }
    let Some(body) = &settings.body else {
        return Err(SettingsRefusal::Code(Code::NoBox));
    };
    let ids = nonzero_ids(alloc, settings, body, name)?;
    add_to(&mut settings.named.groups, alloc, id, ids)
}
