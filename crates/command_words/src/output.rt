//! Output: `print`, `log`.
ghost use Rattle.std.specs.Prelude.{◌≡◌, IfOk};
ghost use Rattle.command_words.specs.Output.{log_file, make, places};

use crate::command::Command;
use crate::places::{Kind, Place};
use crate::values::{is_word, text};
use crate::vocabulary::Word;
use fx_num::{NoMemory, Text};
use std::alloc::Global;

/// The forms of these commands.
#[derive(Clone, Copy)]
pub(crate) enum OutputForm {
    Print,
    Log,
}

const PRINT: &[Place] = &[Place::One(Kind::Fixed(Word::Print)), Place::One(Kind::Any)];

const LOG: &[Place] = &[Place::One(Kind::Fixed(Word::Log)), Place::One(Kind::File)];

/// The places of a form.
pub(crate) fn places(form: OutputForm) -> &'static [Place]
    ensures { result.now ≡ places form }
{
    match form {
        OutputForm::Print => PRINT,
        OutputForm::Log => LOG,
    }
}

/// The name of the log's file; none for `none`.
fn log_file(alloc: Global, words: &[Text]) -> Result<Option<Text>, NoMemory>
    ensures { IfOk result (λ file. file ≡ log_file words.now) }
{
    if is_word(words, 1, Word::None) {
        return Ok(None);
    }
    Ok(Some(text(alloc, words, 1)?))
}

/// The command of the words of a form.
pub(crate) fn make(alloc: Global, form: OutputForm, words: &[Text]) -> Result<Command, NoMemory>
    ensures { IfOk result (λ c. c ≡ make form words.now) }
{
    match form {
        OutputForm::Print => Ok(Command::Print(text(alloc, words, 1)?)),
        OutputForm::Log => Ok(Command::Log(log_file(alloc, words)?)),
    }
}
