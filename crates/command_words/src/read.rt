//! Reads a command: the form that its words have, and what they say.
ghost use Rattle.std.specs.Prelude.{◌≡◌, length};
ghost use Rattle.command_words.specs.Read.{begins, best, form_among, form_of, is_counted, is_counted_by, is_known, make, read};
ghost use Rattle.command_words.specs.Values.{Makes};

use crate::command::Command;
use crate::forms::{FORMS, Form, places_of};
use crate::places::{Place, has_count, stuck, takes};
use crate::refusal::WordRefusal;
use crate::values::word;
use crate::{
    bonds, computes, dumps, fixes, flow, lattice, masses_groups, neighbors, output, pairs,
    restarts, runs, session, setup, system_files, thermo, variables, velocity,
};
use fx_num::{Text, Words};
use std::alloc::Global;

/// Whether the places begin with the word of this command.
fn begins(places: &[Place], text: &[u8]) -> bool
    ensures { result ≡ begins places.now text.now }
{
    match places {
        [Place::One(kind), ..] => takes(*kind, text),
        _ => false,
    }
}

/// Whether a command has this name.
fn is_known(forms: &[Form], text: &[u8]) -> bool
    ensures { result ≡ is_known forms.now text.now }
{
    for form in forms {
        if begins(places_of(*form), text) {
            return true;
        }
    }
    false
}

/// Whether a form is of the command of this name and has so many words.
fn is_counted_by(form: Form, text: &[u8], count: usize) -> bool
    ensures { result ≡ is_counted_by form text.now count }
{
    let places = places_of(form);
    begins(places, text) && has_count(places, count)
}

/// Whether a form of the command of this name has so many words.
fn is_counted(forms: &[Form], text: &[u8], count: usize) -> bool
    ensures { result ≡ is_counted forms.now text.now count }
{
    for form in forms {
        if is_counted_by(*form, text, count) {
            return true;
        }
    }
    false
}

/// The first form that the words have, or the fewest words that are left where a form takes no more.
fn best(forms: &[Form], words: &[Text]) -> Result<Form, usize>
    ensures { result ≡ best forms.now words.now (length words.now) }
{
    let mut fewest = words.len();
    for form in forms {
        match stuck(places_of(*form), words) {
            None => return Ok(*form),
            Some(left) => fewest = fewest.min(left),
        }
    }
    Err(fewest)
}

/// Which of these forms the words have.
#[tactic(auto, unfolding(crate::specs::Read::form_among))]
fn form_among(forms: &[Form], words: &[Text]) -> Result<Form, WordRefusal>
    ensures { result ≡ form_among forms.now words.now }
{
    let name = word(words, 0);
    if !is_known(forms, name) {
        return Err(WordRefusal::UnknownCommand);
    }
    if !is_counted(forms, name, words.len()) {
        return Err(WordRefusal::WordCount);
    }
    match best(forms, words) {
        Ok(form) => Ok(form),
        Err(left) => Err(WordRefusal::BadWord(words.len().saturating_sub(left))),
    }
}

/// The form of the words.
fn form_of(words: &[Text]) -> Result<Form, WordRefusal>
    ensures { result ≡ form_of words.now }
{
    form_among(FORMS, words)
}

/// The command of the words of a form.
fn make(alloc: Global, form: Form, words: &[Text]) -> Result<Command, WordRefusal>
    ensures { Makes (make form words.now) result }
{
    match form {
        Form::Setup(form) => setup::make(form, words),
        Form::Lattice(form) => lattice::make(alloc, form, words),
        Form::SystemFiles(form) => Ok(system_files::make(alloc, form, words)?),
        Form::Restarts(form) => restarts::make(alloc, form, words),
        Form::MassesGroups(form) => masses_groups::make(alloc, form, words),
        Form::Pairs(form) => pairs::make(form, words),
        Form::Bonds(form) => bonds::make(form, words),
        Form::Neighbors(form) => neighbors::make(form, words),
        Form::Velocity(form) => velocity::make(alloc, form, words),
        Form::Fixes(form) => fixes::make(alloc, form, words),
        Form::Computes(form) => Ok(computes::make(alloc, form, words)?),
        Form::Thermo(form) => thermo::make(alloc, form, words),
        Form::Dumps(form) => dumps::make(alloc, form, words),
        Form::Runs(form) => runs::make(form, words),
        Form::Output(form) => Ok(output::make(alloc, form, words)?),
        Form::Variables(form) => variables::make(alloc, form, words),
        Form::Flow(form) => Ok(flow::make(alloc, form, words)?),
        Form::Session(form) => Ok(session::make(form)),
    }
}

/// The command that the words of a line are.
///
/// # Errors
///
/// In this order: `UnknownCommand` exactly where no command has the name that is the first word, also where
/// there is none; `WordCount` exactly where no form of the command has so many words; `BadWord` exactly at
/// the first word with which the words so far begin no form, or at the number of words where one is
/// missing; `BadValue` exactly at the first number that is out of range, outside its limit or against a
/// rule for the numbers of the command. `NoMemory` where the allocator refuses.
#[tactic(auto, unfolding(crate::specs::Read::read))]
pub fn read_command(alloc: Global, words: &Words) -> Result<Command, WordRefusal>
    ensures { Makes (read words.now) result }
{
    let words = words.as_slice();
    let form = form_of(words)?;
    make(alloc, form, words)
}
