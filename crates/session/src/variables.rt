//! `variable`.
ghost use Rattle.meaning.specs.Sends.{Changes};
ghost use Rattle.meaning.specs.Causes.{Rests, nothing_lent};
ghost use Rattle.meaning.specs.Sound.{IsSound};
ghost use Rattle.meaning.specs.Variables.{defines, defines_text, text_of, variable};
ghost use Rattle.std.specs.Prelude.{◌≡◌, IfErr, OnOk};

use crate::answers::widened;
use crate::texts::text_of;
use command_words::{LoopRange, NewVariable, VariableStyle};
use fx_num::{Text, Words};
use meaning::{Refusal, Settings};
use std::alloc::Global;
use var_table::VarStyle;

/// Defines a variable.
fn define(
    alloc: Global,
    settings: &mut Settings,
    name: &Text,
    style: VarStyle,
) -> Result<(), Refusal>
    requires sound { IsSound settings.old }
    ensures changes { Changes (defines name.now style settings.old) result settings.new }
    ensures sound { OnOk result (IsSound settings.new) }
    ensures cause { IfErr result (λ why. Rests why nothing_lent nothing_lent) }
{
    match settings.vars.define(alloc, name, style) {
        Ok(()) => Ok(()),
        Err(_) => Err(Refusal::NoMemory),
    }
}

/// Defines a variable by a text with what stands for its names.
fn define_text(
    alloc: Global,
    settings: &mut Settings,
    name: &Text,
    text: &Text,
) -> Result<(), Refusal>
    requires sound { IsSound settings.old }
    ensures changes { Changes (defines_text name.now settings.old (text_of settings.old text.now)) result settings.new }
    ensures sound { OnOk result (IsSound settings.new) }
    ensures cause { IfErr result (λ why. Rests why nothing_lent nothing_lent) }
{
    match text_of(alloc, settings, text) {
        Ok(text) => define(alloc, settings, name, VarStyle::Plain(text)),
        Err(why) => Err(widened(why)),
    }
}

/// `variable`. A formula is kept as it is written.
pub(crate) fn set_variable(
    alloc: Global,
    settings: &mut Settings,
    new: NewVariable,
) -> Result<(), Refusal>
    requires sound { IsSound settings.old }
    ensures changes { Changes (variable new settings.old) result settings.new }
    ensures sound { OnOk result (IsSound settings.new) }
    ensures cause { IfErr result (λ why. Rests why nothing_lent nothing_lent) }
{
    let NewVariable { name, style } = new;
    match style {
        VariableStyle::Index(values) => define(alloc, settings, &name, VarStyle::Index(values)),
        VariableStyle::Loop(range) => define(alloc, settings, &name, loop_of(range)),
        VariableStyle::Equal(formula) => define(alloc, settings, &name, VarStyle::Equal(formula)),
        VariableStyle::Atom(formula) => define(alloc, settings, &name, VarStyle::AtomWise(formula)),
        VariableStyle::Plain(text) => define_text(alloc, settings, &name, &text),
        VariableStyle::Delete => {
            settings.vars.delete(&name);
            Ok(())
        }
    }
}

/// The style of a loop.
fn loop_of(range: LoopRange) -> VarStyle
    ensures { result ≡ VarStyle.Loop range.first range.last }
{
    VarStyle::Loop {
        first: range.first,
        last: range.last,
    }
}
