//! Variables: `variable`, `next`.
ghost use Rattle.std.specs.Prelude.{◌≡◌, IfOk, drop};
ghost use Rattle.command_words.specs.Variables.{loop_of, loop_range, loop_to, make, new_variable, places};
ghost use Rattle.command_words.specs.Values.{Makes, word};

use crate::MAX_LOOP;
use crate::command::Command;
use crate::places::{Kind, Place};
use crate::refusal::WordRefusal;
use crate::values::{behind, text, texts, whole};
use crate::vocabulary::Word;
use fx_num::{NoMemory, Seq, Text};
use std::alloc::Global;

/// What `variable` does.
#[derive(Drop)]
pub struct NewVariable {
    /// The variable's name.
    pub name: Text,
    /// What it becomes.
    pub style: VariableStyle,
}

/// What a variable becomes.
#[derive(Drop)]
pub enum VariableStyle {
    /// A list of values.
    Index(Seq<Text>),
    /// The whole numbers of a range.
    Loop(LoopRange),
    /// A formula.
    Equal(Text),
    /// A formula for each atom.
    Atom(Text),
    /// A text.
    Plain(Text),
    /// It is deleted.
    Delete,
}

/// The whole numbers from the first to the last, which is not below it.
#[derive(Clone, Copy)]
pub struct LoopRange {
    /// The first number.
    pub first: u32,
    /// The last number.
    pub last: u32,
}

/// The forms of these commands.
#[derive(Clone, Copy)]
pub(crate) enum VariablesForm {
    VariableIndex,
    VariableLoop,
    VariableLoopRange,
    VariableEqual,
    VariableAtom,
    VariableString,
    VariableDelete,
    Next,
}

const VARIABLE_INDEX: &[Place] = &[
    Place::One(Kind::Fixed(Word::Variable)),
    Place::One(Kind::Name),
    Place::One(Kind::Fixed(Word::Index)),
    Place::Many(Kind::Any),
];

const VARIABLE_LOOP: &[Place] = &[
    Place::One(Kind::Fixed(Word::Variable)),
    Place::One(Kind::Name),
    Place::One(Kind::Fixed(Word::Loop)),
    Place::One(Kind::Whole),
];

const VARIABLE_LOOP_RANGE: &[Place] = &[
    Place::One(Kind::Fixed(Word::Variable)),
    Place::One(Kind::Name),
    Place::One(Kind::Fixed(Word::Loop)),
    Place::One(Kind::Whole),
    Place::One(Kind::Whole),
];

const VARIABLE_EQUAL: &[Place] = &[
    Place::One(Kind::Fixed(Word::Variable)),
    Place::One(Kind::Name),
    Place::One(Kind::Fixed(Word::Equal)),
    Place::One(Kind::Any),
];

const VARIABLE_ATOM: &[Place] = &[
    Place::One(Kind::Fixed(Word::Variable)),
    Place::One(Kind::Name),
    Place::One(Kind::Fixed(Word::Atom)),
    Place::One(Kind::Any),
];

const VARIABLE_STRING: &[Place] = &[
    Place::One(Kind::Fixed(Word::Variable)),
    Place::One(Kind::Name),
    Place::One(Kind::Fixed(Word::String)),
    Place::One(Kind::Any),
];

const VARIABLE_DELETE: &[Place] = &[
    Place::One(Kind::Fixed(Word::Variable)),
    Place::One(Kind::Name),
    Place::One(Kind::Fixed(Word::Delete)),
];

const NEXT: &[Place] = &[Place::One(Kind::Fixed(Word::Next)), Place::Many(Kind::Name)];

/// The places of a form.
pub(crate) fn places(form: VariablesForm) -> &'static [Place]
    ensures { result.now ≡ places form }
{
    match form {
        VariablesForm::VariableIndex => VARIABLE_INDEX,
        VariablesForm::VariableLoop => VARIABLE_LOOP,
        VariablesForm::VariableLoopRange => VARIABLE_LOOP_RANGE,
        VariablesForm::VariableEqual => VARIABLE_EQUAL,
        VariablesForm::VariableAtom => VARIABLE_ATOM,
        VariablesForm::VariableString => VARIABLE_STRING,
        VariablesForm::VariableDelete => VARIABLE_DELETE,
        VariablesForm::Next => NEXT,
    }
}

/// The numbers from 1 to one.
fn loop_to(words: &[Text]) -> Result<LoopRange, WordRefusal>
    ensures { result ≡ loop_to words.now }
{
    let last = whole(words, 3, 1, u64::from(MAX_LOOP))?;
    Ok(LoopRange {
        first: 1,
        last: last as u32,
    })
}

/// The numbers from one to another, which is not below it.
fn loop_range(words: &[Text]) -> Result<LoopRange, WordRefusal>
    ensures { result ≡ loop_range words.now }
{
    let first = whole(words, 3, 0, u64::from(MAX_LOOP))?;
    let last = whole(words, 4, 0, u64::from(MAX_LOOP))?;
    if first <= last {
        Ok(LoopRange {
            first: first as u32,
            last: last as u32,
        })
    } else {
        Err(WordRefusal::BadValue(4))
    }
}

/// `variable` of this style.
fn new_variable(alloc: Global, words: &[Text], style: VariableStyle) -> Result<Command, NoMemory>
    ensures { IfOk result (λ c. c ≡ new_variable style words.now) }
{
    let name = text(alloc, words, 1)?;
    Ok(Command::Variable(NewVariable { name, style }))
}

/// `variable` with values.
fn variable_index(alloc: Global, words: &[Text]) -> Result<Command, NoMemory>
    ensures { IfOk result (λ c. c ≡ new_variable (VariableStyle.Index (drop 3 words.now)) words.now) }
{
    let values = texts(alloc, behind(words, 3))?;
    new_variable(alloc, words, VariableStyle::Index(values))
}

/// `variable` with the numbers from 1 to one.
fn variable_loop(alloc: Global, words: &[Text]) -> Result<Command, WordRefusal>
    ensures { Makes (loop_of (loop_to words.now) words.now) result }
{
    let range = loop_to(words)?;
    Ok(new_variable(alloc, words, VariableStyle::Loop(range))?)
}

/// `variable` with the numbers from one to another.
fn variable_range(alloc: Global, words: &[Text]) -> Result<Command, WordRefusal>
    ensures { Makes (loop_of (loop_range words.now) words.now) result }
{
    let range = loop_range(words)?;
    Ok(new_variable(alloc, words, VariableStyle::Loop(range))?)
}

/// `variable` with a formula.
fn variable_equal(alloc: Global, words: &[Text]) -> Result<Command, NoMemory>
    ensures { IfOk result (λ c. c ≡ new_variable (VariableStyle.Equal (word 3 words.now)) words.now) }
{
    let formula = text(alloc, words, 3)?;
    new_variable(alloc, words, VariableStyle::Equal(formula))
}

/// `variable` with a formula for each atom.
fn variable_atom(alloc: Global, words: &[Text]) -> Result<Command, NoMemory>
    ensures { IfOk result (λ c. c ≡ new_variable (VariableStyle.Atom (word 3 words.now)) words.now) }
{
    let formula = text(alloc, words, 3)?;
    new_variable(alloc, words, VariableStyle::Atom(formula))
}

/// `variable` with a text.
fn variable_string(alloc: Global, words: &[Text]) -> Result<Command, NoMemory>
    ensures { IfOk result (λ c. c ≡ new_variable (VariableStyle.Plain (word 3 words.now)) words.now) }
{
    let plain = text(alloc, words, 3)?;
    new_variable(alloc, words, VariableStyle::Plain(plain))
}

/// `next`.
fn next(alloc: Global, words: &[Text]) -> Result<Command, NoMemory>
    ensures { IfOk result (λ c. c ≡ Command.Next (drop 1 words.now)) }
{
    let names = texts(alloc, behind(words, 1))?;
    Ok(Command::Next(names))
}

/// The command of the words of a form.
pub(crate) fn make(
    alloc: Global,
    form: VariablesForm,
    words: &[Text],
) -> Result<Command, WordRefusal>
    ensures { Makes (make form words.now) result }
{
    match form {
        VariablesForm::VariableIndex => Ok(variable_index(alloc, words)?),
        VariablesForm::VariableLoop => variable_loop(alloc, words),
        VariablesForm::VariableLoopRange => variable_range(alloc, words),
        VariablesForm::VariableEqual => Ok(variable_equal(alloc, words)?),
        VariablesForm::VariableAtom => Ok(variable_atom(alloc, words)?),
        VariablesForm::VariableString => Ok(variable_string(alloc, words)?),
        VariablesForm::VariableDelete => Ok(new_variable(alloc, words, VariableStyle::Delete)?),
        VariablesForm::Next => Ok(next(alloc, words)?),
    }
}
