//! Restart files: `restart`, `write_restart`, `read_restart`.
ghost use Rattle.std.specs.Prelude.{◌≡◌, IfOk};
ghost use Rattle.command_words.specs.Restarts.{make, places, read_newer, read_one, restart};
ghost use Rattle.command_words.specs.Values.{Makes, word};

use crate::command::Command;
use crate::places::{Kind, Place};
use crate::refusal::WordRefusal;
use crate::values::{count, text, word};
use crate::vocabulary::Word;
use fx_num::{NoMemory, Text};
use std::alloc::Global;

/// What `restart` saves, by turns in two files.
#[derive(Drop)]
pub struct Saves {
    /// After how many steps each.
    pub every: u64,
    /// One file's name.
    pub first: Text,
    /// The other's.
    pub second: Text,
}

/// The files of `read_restart`; of two the newer one is read.
#[derive(Drop)]
pub struct RestartFiles {
    /// One file's name.
    pub first: Text,
    /// The other's, if there is one.
    pub second: Option<Text>,
}

/// The forms of these commands.
#[derive(Clone, Copy)]
pub(crate) enum RestartsForm {
    RestartOff,
    Restart,
    WriteRestart,
    ReadRestart,
    ReadRestartNewer,
}

const RESTART_OFF: &[Place] = &[
    Place::One(Kind::Fixed(Word::Restart)),
    Place::One(Kind::Fixed(Word::Digit0)),
];

const RESTART: &[Place] = &[
    Place::One(Kind::Fixed(Word::Restart)),
    Place::One(Kind::Whole),
    Place::One(Kind::File),
    Place::One(Kind::File),
];

const WRITE_RESTART: &[Place] = &[
    Place::One(Kind::Fixed(Word::WriteRestart)),
    Place::One(Kind::File),
];

const READ_RESTART: &[Place] = &[
    Place::One(Kind::Fixed(Word::ReadRestart)),
    Place::One(Kind::File),
];

const READ_RESTART_NEWER: &[Place] = &[
    Place::One(Kind::Fixed(Word::ReadRestart)),
    Place::One(Kind::File),
    Place::One(Kind::File),
];

/// The places of a form.
pub(crate) fn places(form: RestartsForm) -> &'static [Place]
    ensures { result.now ≡ places form }
{
    match form {
        RestartsForm::RestartOff => RESTART_OFF,
        RestartsForm::Restart => RESTART,
        RestartsForm::WriteRestart => WRITE_RESTART,
        RestartsForm::ReadRestart => READ_RESTART,
        RestartsForm::ReadRestartNewer => READ_RESTART_NEWER,
    }
}

/// `restart` with two files, which differ.
fn restart(alloc: Global, words: &[Text]) -> Result<Command, WordRefusal>
    ensures { Makes (restart words.now) result }
{
    if word(words, 2) == word(words, 3) {
        return Err(WordRefusal::BadWord(3));
    }
    let every = count(words, 1)?;
    let first = text(alloc, words, 2)?;
    let second = text(alloc, words, 3)?;
    Ok(Command::Restart(Some(Saves {
        every,
        first,
        second,
    })))
}

/// `write_restart`.
fn write_one(alloc: Global, words: &[Text]) -> Result<Command, NoMemory>
    ensures { IfOk result (λ c. c ≡ Command.WriteRestart (word 1 words.now)) }
{
    let file = text(alloc, words, 1)?;
    Ok(Command::WriteRestart(file))
}

/// `read_restart` with one file.
fn read_one(alloc: Global, words: &[Text]) -> Result<Command, NoMemory>
    ensures { IfOk result (λ c. c ≡ read_one words.now) }
{
    let first = text(alloc, words, 1)?;
    Ok(Command::ReadRestart(RestartFiles {
        first,
        second: None,
    }))
}

/// `read_restart` with two files.
fn read_newer(alloc: Global, words: &[Text]) -> Result<Command, NoMemory>
    ensures { IfOk result (λ c. c ≡ read_newer words.now) }
{
    let first = text(alloc, words, 1)?;
    let second = text(alloc, words, 2)?;
    Ok(Command::ReadRestart(RestartFiles {
        first,
        second: Some(second),
    }))
}

/// The command of the words of a form.
pub(crate) fn make(
    alloc: Global,
    form: RestartsForm,
    words: &[Text],
) -> Result<Command, WordRefusal>
    ensures { Makes (make form words.now) result }
{
    match form {
        RestartsForm::RestartOff => Ok(Command::Restart(None)),
        RestartsForm::Restart => restart(alloc, words),
        RestartsForm::WriteRestart => Ok(write_one(alloc, words)?),
        RestartsForm::ReadRestart => Ok(read_one(alloc, words)?),
        RestartsForm::ReadRestartNewer => Ok(read_newer(alloc, words)?),
    }
}
