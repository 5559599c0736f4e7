//! The texts that stand for variables and formulas.
ghost use Rattle.std.specs.Prelude.{◌≡◌, IfErr, IfOk};
ghost use Rattle.fx_num.specs.Print.{value_text};
ghost use Rattle.variable_values.specs.Values.{Answers, IsOutright, formula_text, text_of};

use crate::known::Known;
use crate::values::{formula_value, value_of};
use arrayvec::ArrayString;
use fx_num::{NoMemory, Numbers, Text, VarFault, print_value};
use std::alloc::Global;
use var_table::{Source, Vars};

/// The text of a value.
fn shown(alloc: Global, value: i64) -> Result<Text, NoMemory>
    ensures { IfOk result (λ text. text ≡ value_text value) }
{
    let mut out = ArrayString::new();
    print_value(value, &mut out);
    Text::from_bytes(alloc, out.as_str().as_bytes())
}

/// The text of the variable of this name: its own, or that of an equal variable's value.
///
/// # Errors
///
/// `UnknownVariable` exactly where the name is not there, `NotText` exactly where it is an atom variable,
/// `Formula` with the fault of an equal variable, and `NoMemory`.
#[tactic(auto, unfolding(crate::specs::Values::text_of))]
pub fn text_of(alloc: Global, vars: &Vars, name: &[u8], state: &Numbers) -> Result<Text, VarFault>
    ensures is { Answers result (text_of vars.now state.now name.now) }
    ensures outright { IfErr result IsOutright }
{
    match vars.source(name) {
        Some(Source::Equal(_)) => {
            match value_of(alloc, vars, name, &Known::of_state(state), 0) {
                Ok(value) => Ok(shown(alloc, value)?),
                Err(why) => Err(why),
            }
        }
        _ => vars.text_of(alloc, name, state),
    }
}

/// The text of a formula's value.
///
/// # Errors
///
/// `Formula` with the first fault: that of the text, then operands from left to right. `NoMemory`.
#[tactic(auto, unfolding(crate::specs::Values::formula_text))]
pub fn formula_text(
    alloc: Global,
    vars: &Vars,
    text: &[u8],
    state: &Numbers,
) -> Result<Text, VarFault>
    ensures is { Answers result (formula_text vars.now state.now text.now) }
    ensures outright { IfErr result IsOutright }
{
    match formula_value(alloc, vars, text, state, 0) {
        Ok(value) => Ok(shown(alloc, value)?),
        Err(why) => Err(why),
    }
}
