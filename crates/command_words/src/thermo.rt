//! Thermo output: `thermo`, `thermo_style`, `thermo_modify`.
ghost use Rattle.std.specs.Prelude.{◌≡◌, Ok, drop, IfOk};
ghost use Rattle.command_words.specs.Thermo.{make, places, thermo};
ghost use Rattle.command_words.specs.Values.{Makes};

use crate::command::Command;
use crate::options::Options;
use crate::places::{Kind, Place};
use crate::refusal::WordRefusal;
use crate::values::{behind, count, says, texts};
use crate::vocabulary::{Word, Words};
use fx_num::{NoMemory, Seq, Text};
use std::alloc::Global;

/// The columns of thermo lines.
#[derive(Drop)]
pub enum Columns {
    /// Those of the style `one`.
    One,
    /// These keywords.
    Custom(Seq<Text>),
}

/// The forms of these commands.
#[derive(Clone, Copy)]
pub(crate) enum ThermoForm {
    Thermo,
    ThermoStyleOne,
    ThermoStyleCustom,
    ThermoModify,
}

const THERMO: &[Place] = &[
    Place::One(Kind::Fixed(Word::Thermo)),
    Place::One(Kind::Whole),
];

const THERMO_STYLE_ONE: &[Place] = &[
    Place::One(Kind::Fixed(Word::ThermoStyle)),
    Place::One(Kind::Fixed(Word::One)),
];

const THERMO_STYLE_CUSTOM: &[Place] = &[
    Place::One(Kind::Fixed(Word::ThermoStyle)),
    Place::One(Kind::Fixed(Word::Custom)),
    Place::Many(Kind::ComputeOr(Words::ThermoKeys)),
];

const THERMO_MODIFY: &[Place] = &[
    Place::One(Kind::Fixed(Word::ThermoModify)),
    Place::SomeOptions(Options::Thermo),
];

/// The places of a form.
pub(crate) fn places(form: ThermoForm) -> &'static [Place]
    ensures { result.now ≡ places form }
{
    match form {
        ThermoForm::Thermo => THERMO,
        ThermoForm::ThermoStyleOne => THERMO_STYLE_ONE,
        ThermoForm::ThermoStyleCustom => THERMO_STYLE_CUSTOM,
        ThermoForm::ThermoModify => THERMO_MODIFY,
    }
}

/// `thermo`.
fn thermo(words: &[Text]) -> Result<Command, WordRefusal>
    ensures { result ≡ thermo words.now }
{
    let every = count(words, 1)?;
    Ok(Command::Thermo(every))
}

/// `thermo_style custom`.
fn custom(alloc: Global, words: &[Text]) -> Result<Command, NoMemory>
    ensures { IfOk result (λ c. c ≡ Command.ThermoStyle (Columns.Custom (drop 2 words.now))) }
{
    let keys = texts(alloc, behind(words, 2))?;
    Ok(Command::ThermoStyle(Columns::Custom(keys)))
}

/// The command of the words of a form.
pub(crate) fn make(alloc: Global, form: ThermoForm, words: &[Text]) -> Result<Command, WordRefusal>
    ensures { Makes (make form words.now) result }
{
    match form {
        ThermoForm::Thermo => thermo(words),
        ThermoForm::ThermoStyleOne => Ok(Command::ThermoStyle(Columns::One)),
        ThermoForm::ThermoStyleCustom => Ok(custom(alloc, words)?),
        ThermoForm::ThermoModify => Ok(Command::ThermoModify(says(
            words,
            1,
            Word::Norm,
            Word::Yes,
        ))),
    }
}
