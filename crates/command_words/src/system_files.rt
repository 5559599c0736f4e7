//! Data files: `read_data`, `write_data`.
ghost use Rattle.std.specs.Prelude.{◌≡◌, IfOk};
ghost use Rattle.command_words.specs.SystemFiles.{make, places};

use crate::command::Command;
use crate::places::{Kind, Place};
use crate::values::text;
use crate::vocabulary::Word;
use fx_num::{NoMemory, Text};
use std::alloc::Global;

/// The forms of these commands.
#[derive(Clone, Copy)]
pub(crate) enum SystemFilesForm {
    ReadData,
    WriteData,
}

const READ_DATA: &[Place] = &[
    Place::One(Kind::Fixed(Word::ReadData)),
    Place::One(Kind::File),
];

const WRITE_DATA: &[Place] = &[
    Place::One(Kind::Fixed(Word::WriteData)),
    Place::One(Kind::File),
];

/// The places of a form.
pub(crate) fn places(form: SystemFilesForm) -> &'static [Place]
    ensures { result.now ≡ places form }
{
    match form {
        SystemFilesForm::ReadData => READ_DATA,
        SystemFilesForm::WriteData => WRITE_DATA,
    }
}

/// The command of the words of a form.
pub(crate) fn make(
    alloc: Global,
    form: SystemFilesForm,
    words: &[Text],
) -> Result<Command, NoMemory>
    ensures { IfOk result (λ c. c ≡ make form words.now) }
{
    let file = text(alloc, words, 1)?;
    match form {
        SystemFilesForm::ReadData => Ok(Command::ReadData(file)),
        SystemFilesForm::WriteData => Ok(Command::WriteData(file)),
    }
}
