//! Texts with what stands for their names: the values of variables.
ghost use Rattle.meaning.specs.Answers.{Gets};
ghost use Rattle.meaning.specs.Sound.{IsSoundBody};
ghost use Rattle.meaning.specs.Variables.{coded, formula_of, table_of, text_of};
ghost use Rattle.script_lines.specs.Substitution.{substitution};
ghost use Rattle.session.specs.Refusals.{expand_refusal, next_refusal};
ghost use Rattle.std.specs.Prelude.{◌≡◌, IfSome};

use fx_num::{Numbers, Text, VarFault, Words};
use meaning::{Code, Refusal, Settings, SettingsRefusal, fault_code, fault_refusal, known_in};
use script_lines::{ExpandRefusal, RawWords, Texts, expand, words_of};
use std::alloc::Global;
use var_table::Vars;
use variable_values::formula_text;

/// The texts of variables and of the values of formulas.
#[derive(Clone, Copy)]
struct Values<'a> {
    /// The variables.
    vars: &'a Vars,
    /// The numbers that are known.
    known: &'a Numbers,
}

impl<'a> Texts for Values<'a> {
    ghost use Rattle.meaning.specs.Variables.{table_over};

    ghost table = { λ v. table_over v.vars.now v.known.now };

    fn name_text(&self, alloc: Global, name: &[u8]) -> Result<Text, VarFault> {
        variable_values::text_of(alloc, self.vars, name, self.known)
    }

    fn formula_text(&self, alloc: Global, formula: &[u8]) -> Result<Text, VarFault> {
        formula_text(alloc, self.vars, formula, self.known)
    }
}

/// Why variables have no next value.
pub(crate) fn next_refusal(fault: &VarFault) -> Refusal
    ensures { result ≡ next_refusal fault.now }
{
    match fault {
        VarFault::NoMemory => Refusal::NoMemory,
        fault => Refusal::Code(fault_code(fault)),
    }
}

/// Why a text has nothing that stands for one of its names.
fn refusal_of(why: &ExpandRefusal) -> SettingsRefusal
    ensures { result ≡ expand_refusal why.now }
{
    match why {
        ExpandRefusal::BadDollar(_) => SettingsRefusal::Code(Code::BadDollar),
        ExpandRefusal::Inner(fault) => SettingsRefusal::Code(fault_code(fault)),
        ExpandRefusal::NoMemory => SettingsRefusal::NoMemory,
    }
}

/// A text with what stands for its names.
pub(crate) fn text_of(
    alloc: Global,
    settings: &Settings,
    text: &Text,
) -> Result<Text, SettingsRefusal>
    requires sound { IfSome settings.now.body IsSoundBody }
    ensures { Gets (text_of settings.now text.now) result }
{
    let known = known_in(alloc, settings)?;
    let values = Values {
        vars: &settings.vars,
        known: &known,
    };
    match expand(alloc, text.as_bytes(), &values) {
        Ok(text) => Ok(text),
        Err(why) => Err(refusal_of(&why)),
    }
}

/// The words that the words of a line stand for.
pub(crate) fn substituted(
    alloc: Global,
    settings: &Settings,
    words: &RawWords,
) -> Result<Words, SettingsRefusal>
    requires sound { IfSome settings.now.body IsSoundBody }
    ensures { Gets (coded (substitution (table_of settings.now) words.now)) result }
{
    let known = known_in(alloc, settings)?;
    let values = Values {
        vars: &settings.vars,
        known: &known,
    };
    match words_of(alloc, words, &values) {
        Ok(words) => Ok(words),
        Err(why) => Err(refusal_of(&why)),
    }
}

/// The value of a formula's text, in units.
pub(crate) fn formula_value(
    alloc: Global,
    settings: &Settings,
    text: &Text,
) -> Result<i64, SettingsRefusal>
    requires sound { IfSome settings.now.body IsSoundBody }
    ensures { Gets (formula_of settings.now text.now) result }
{
    let known = known_in(alloc, settings)?;
    match variable_values::formula_value(alloc, &settings.vars, text.as_bytes(), &known, 0) {
        Ok(value) => Ok(value),
        Err(fault) => Err(fault_refusal(&fault)),
    }
}
