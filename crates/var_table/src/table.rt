//! The table of variables.
ghost use Rattle.std.specs.Prelude.{◌≡◌, ◌∷◌, [], Ok, None, not, IfErr, IfOk, IsOkAnd, OnErr, OnOk};
ghost use Rattle.std.specs.Bool.{OnFalse, OnTrue};
ghost use Rattle.std.specs.List.{list_any};
ghost use Rattle.var_table.specs.Told.{told_any};
ghost use Rattle.var_table.specs.Variables.{all_next, defined, held_in, is_exhausted, is_there, leaves, next_fault, next_of, text_in, without, IsFault, IsTextFault};

use crate::search::{find, first_mixed, first_unknown, is_among, is_there, place_of};
use crate::source::{Source, text_held};
use crate::styles::VarStyle;
use crate::variable::Variable;
use fx_num::{NoMemory, Numbers, Text, VarFault, Words};
use std::alloc::Global;
use std::marker::Model;

/// The variables of a script. Contracts see the list of names, each with its style.
#[derive(Drop)]
pub struct Vars {
    items: Vec<Variable>,
}

impl Model for Vars {
    ghost use Rattle.std.specs.Prelude.{List};
    ghost use Rattle.var_table.specs.Variables.{Named};

    ghost Value = { List Named };

    ghost view = { λ v. v.items.items };
}

/// Whether a definition in this style leaves a name that is there.
fn leaves(style: &VarStyle) -> bool
    ensures { result ≡ leaves style.now }
{
    match style {
        VarStyle::Index(_) => true,
        VarStyle::Loop { first: _, last: _ } => true,
        VarStyle::Equal(_) | VarStyle::AtomWise(_) | VarStyle::Plain(_) => false,
    }
}

/// Takes the next value of a variable if it is named, and tells whether the variable stays.
fn stays(variable: &mut Variable, names: &[Text]) -> bool
    ensures kept { OnTrue result (next_of names.now variable.old ≡ variable.new ∷ []) }
    ensures gone { OnFalse result (next_of names.now variable.old ≡ []) }
    ensures exhausted { is_exhausted names.now variable.old ≡ not result }
{
    if is_among(names, variable) {
        variable.advance()
    } else {
        true
    }
}

/// Takes the next value of each variable that is named, deletes those that have none, and tells whether
/// there was one.
fn advance_all(items: &mut Vec<Variable>, names: &[Text]) -> bool
    ensures advanced { items.new.items ≡ all_next names.now items.old.items }
    ensures exhausted { result ≡ list_any (is_exhausted names.now) items.old.items }
{
    let mut exhausted = false;
    let mut i = 0;
    while i < items.len() {
        if stays(&mut items[i], names) {
            i += 1;
        } else {
            items.remove(i);
            exhausted = true;
        }
    }
    exhausted
}

impl Vars {
    /// The table without variables.
    ///
    /// # Errors
    ///
    /// None today: an empty table takes no memory.
    pub fn new(alloc: Global) -> Result<Vars, NoMemory>
        ensures { IsOkAnd result (λ vars. vars ≡ []) }
    {
        Ok(Vars {
            items: Vec::new(alloc),
        })
    }

    /// Defines a variable. Index and loop leave a name that is there; equal, atom and string define it anew,
    /// whatever its style was.
    ///
    /// # Errors
    ///
    /// `NoMemory`; the table then stays as it was.
    pub fn define(&mut self, alloc: Global, name: &Text, style: VarStyle) -> Result<(), NoMemory>
        ensures defined { OnOk result (self.new ≡ defined self.old name.now style) }
        ensures unchanged { OnErr result (self.new ≡ self.old) }
    {
        match place_of(&self.items, name.as_bytes()) {
            None => {
                let variable = Variable::new(name.copy(alloc)?, style);
                self.items.push(variable)?;
            }
            Some(i) => {
                if !leaves(&style) {
                    self.items[i].restyle(style);
                }
            }
        }
        Ok(())
    }

    /// Takes the next value of each named variable, once each. Those that have none are deleted. It tells
    /// whether there was one.
    ///
    /// # Errors
    ///
    /// `UnknownVariable` with the first name that is not there. Where all are there, `Mixed` with the first
    /// name with which the names so far are neither index variables alone nor loops alone. `NoMemory`. The
    /// table then stays as it was.
    pub fn next(&mut self, alloc: Global, names: &Words) -> Result<bool, VarFault>
        ensures sound { OnOk result (next_fault self.old names.now ≡ None) }
        ensures advanced { OnOk result (self.new ≡ all_next names.now self.old) }
        ensures exhausted { IfOk result (λ any. any ≡ list_any (is_exhausted names.now) self.old) }
        ensures refused { IfErr result (λ why. IsFault why (next_fault self.old names.now)) }
        ensures unchanged { OnErr result (self.new ≡ self.old) }
    {
        if let Some(name) = first_unknown(&self.items, names.as_slice()) {
            return Err(VarFault::UnknownVariable(name.copy(alloc)?));
        }
        if let Some(name) = first_mixed(&self.items, names.as_slice()) {
            return Err(VarFault::Mixed(name.copy(alloc)?));
        }
        Ok(advance_all(&mut self.items, names.as_slice()))
    }

    /// Deletes a variable, and tells whether it was there.
    pub fn delete(&mut self, name: &Text) -> bool
        ensures was_there { result ≡ is_there self.old name.now }
        ensures others { self.new ≡ without self.old name.now }
    {
        let was_there = is_there(&self.items, name.as_bytes());
        self.items
            .retain(|variable| !variable.is_named(name.as_bytes()));
        was_there
    }

    /// Whether there is a variable of this name.
    pub fn has(&self, name: &[u8]) -> bool
        ensures { result ≡ is_there self.now name.now }
    {
        is_there(&self.items, name)
    }

    /// What the variable of this name holds now, or nothing where the name is not there.
    pub fn source(&self, name: &[u8]) -> Option<Source<'_>>
        ensures { told_any result ≡ held_in self.now name.now }
    {
        match find(&self.items, name) {
            Some(variable) => Some(variable.source()),
            None => None,
        }
    }

    /// The text that a variable holds: the present value of an index variable, the present number of a loop
    /// in decimal digits, the text of a string. No such text depends on the numbers `_now`.
    ///
    /// # Errors
    ///
    /// `UnknownVariable` exactly where the name is not there, `NotText` exactly where the variable holds a
    /// formula, and `NoMemory`.
    pub fn text_of(&self, alloc: Global, name: &[u8], _now: &Numbers) -> Result<Text, VarFault>
        ensures text { IfOk result (λ text. text_in self.now name.now ≡ Ok text) }
        ensures refused { IfErr result (λ why. IsTextFault why (text_in self.now name.now)) }
    {
        match self.source(name) {
            Some(source) => text_held(alloc, name, source),
            None => Err(VarFault::UnknownVariable(Text::from_bytes(alloc, name)?)),
        }
    }
}
