//! Dumps: `dump`, `dump_modify`, `undump`.
ghost use Rattle.std.specs.Prelude.{◌≡◌, drop, IfOk};
ghost use Rattle.command_words.specs.Dumps.{dump, dump_modify, make, new_dump, places};
ghost use Rattle.command_words.specs.Values.{Makes, word};

use crate::command::Command;
use crate::options::Options;
use crate::places::{Kind, Place};
use crate::refusal::WordRefusal;
use crate::values::{behind, count, says, text, texts};
use crate::vocabulary::{Word, Words};
use fx_num::{NoMemory, Seq, Text};
use std::alloc::Global;

/// What `dump` defines.
#[derive(Drop)]
pub struct NewDump {
    /// The dump's ID.
    pub id: Text,
    /// The group's ID.
    pub group: Text,
    /// A frame each so many steps; with 0 at step 0 only.
    pub every: u64,
    /// The file's name.
    pub file: Text,
    /// The columns.
    pub style: DumpStyle,
}

/// The columns of a dump.
#[derive(Drop)]
pub enum DumpStyle {
    /// Those of the style `atom`.
    Atom,
    /// These keywords.
    Custom(Seq<Text>),
}

/// What `dump_modify` changes.
#[derive(Drop)]
pub struct DumpChange {
    /// The dump's ID.
    pub id: Text,
    /// Whether positions are scaled by the box, if it is said.
    pub scale: Option<bool>,
}

/// The forms of these commands.
#[derive(Clone, Copy)]
pub(crate) enum DumpsForm {
    DumpAtom,
    DumpCustom,
    DumpModify,
    Undump,
}

const DUMP_ATOM: &[Place] = &[
    Place::One(Kind::Fixed(Word::Dump)),
    Place::One(Kind::Name),
    Place::One(Kind::Name),
    Place::One(Kind::Fixed(Word::Atom)),
    Place::One(Kind::Whole),
    Place::One(Kind::File),
];

const DUMP_CUSTOM: &[Place] = &[
    Place::One(Kind::Fixed(Word::Dump)),
    Place::One(Kind::Name),
    Place::One(Kind::Name),
    Place::One(Kind::Fixed(Word::Custom)),
    Place::One(Kind::Whole),
    Place::One(Kind::File),
    Place::Many(Kind::OneOf(Words::DumpKeys)),
];

const DUMP_MODIFY: &[Place] = &[
    Place::One(Kind::Fixed(Word::DumpModify)),
    Place::One(Kind::Name),
    Place::SomeOptions(Options::Dump),
];

const UNDUMP: &[Place] = &[
    Place::One(Kind::Fixed(Word::Undump)),
    Place::One(Kind::Name),
];

/// The places of a form.
pub(crate) fn places(form: DumpsForm) -> &'static [Place]
    ensures { result.now ≡ places form }
{
    match form {
        DumpsForm::DumpAtom => DUMP_ATOM,
        DumpsForm::DumpCustom => DUMP_CUSTOM,
        DumpsForm::DumpModify => DUMP_MODIFY,
        DumpsForm::Undump => UNDUMP,
    }
}

/// `dump` of this style, a frame each so many steps.
fn new_dump(
    alloc: Global,
    words: &[Text],
    every: u64,
    style: DumpStyle,
) -> Result<Command, NoMemory>
    ensures { IfOk result (λ c. c ≡ new_dump every style words.now) }
{
    let id = text(alloc, words, 1)?;
    let group = text(alloc, words, 2)?;
    let file = text(alloc, words, 5)?;
    Ok(Command::Dump(NewDump {
        id,
        group,
        every,
        file,
        style,
    }))
}

/// `dump` of the style atom.
fn dump_atom(alloc: Global, words: &[Text]) -> Result<Command, WordRefusal>
    ensures { Makes (dump DumpStyle.Atom words.now) result }
{
    let every = count(words, 4)?;
    Ok(new_dump(alloc, words, every, DumpStyle::Atom)?)
}

/// `dump` of the style custom.
fn dump_custom(alloc: Global, words: &[Text]) -> Result<Command, WordRefusal>
    ensures { Makes (dump (DumpStyle.Custom (drop 6 words.now)) words.now) result }
{
    let every = count(words, 4)?;
    let keys = texts(alloc, behind(words, 6))?;
    Ok(new_dump(alloc, words, every, DumpStyle::Custom(keys))?)
}

/// `dump_modify`.
fn dump_modify(alloc: Global, words: &[Text]) -> Result<Command, NoMemory>
    ensures { IfOk result (λ c. c ≡ dump_modify words.now) }
{
    let id = text(alloc, words, 1)?;
    let scale = says(words, 2, Word::Scale, Word::Yes);
    Ok(Command::DumpModify(DumpChange { id, scale }))
}

/// `undump`.
fn undump(alloc: Global, words: &[Text]) -> Result<Command, NoMemory>
    ensures { IfOk result (λ c. c ≡ Command.Undump (word 1 words.now)) }
{
    let id = text(alloc, words, 1)?;
    Ok(Command::Undump(id))
}

/// The command of the words of a form.
pub(crate) fn make(alloc: Global, form: DumpsForm, words: &[Text]) -> Result<Command, WordRefusal>
    ensures { Makes (make form words.now) result }
{
    match form {
        DumpsForm::DumpAtom => dump_atom(alloc, words),
        DumpsForm::DumpCustom => dump_custom(alloc, words),
        DumpsForm::DumpModify => Ok(dump_modify(alloc, words)?),
        DumpsForm::Undump => Ok(undump(alloc, words)?),
    }
}
