//! Computes: `compute`, `uncompute`.
ghost use Rattle.std.specs.Prelude.{◌≡◌, IfOk};
ghost use Rattle.command_words.specs.Computes.{make, new_compute, places};
ghost use Rattle.command_words.specs.Values.{word};

use crate::command::Command;
use crate::places::{Kind, Place};
use crate::values::text;
use crate::vocabulary::Word;
use fx_num::{NoMemory, Text};
use std::alloc::Global;

/// What `compute` defines.
#[derive(Drop)]
pub struct NewCompute {
    /// The compute's ID.
    pub id: Text,
    /// The group's ID.
    pub group: Text,
    /// What is computed.
    pub style: ComputeStyle,
}

/// What a compute is.
#[derive(Clone, Copy)]
pub enum ComputeStyle {
    /// The kinetic energy.
    Ke,
    /// The temperature.
    Temp,
    /// The potential energy.
    Pe,
    /// The pressure.
    Pressure,
}

/// The forms of these commands.
#[derive(Clone, Copy)]
pub(crate) enum ComputesForm {
    ComputeKe,
    ComputeTemp,
    ComputePe,
    ComputePressure,
    Uncompute,
}

const COMPUTE_KE: &[Place] = &[
    Place::One(Kind::Fixed(Word::Compute)),
    Place::One(Kind::Name),
    Place::One(Kind::Name),
    Place::One(Kind::Fixed(Word::Ke)),
];

const COMPUTE_TEMP: &[Place] = &[
    Place::One(Kind::Fixed(Word::Compute)),
    Place::One(Kind::Name),
    Place::One(Kind::Name),
    Place::One(Kind::Fixed(Word::Temp)),
];

const COMPUTE_PE: &[Place] = &[
    Place::One(Kind::Fixed(Word::Compute)),
    Place::One(Kind::Name),
    Place::One(Kind::Fixed(Word::All)),
    Place::One(Kind::Fixed(Word::Pe)),
];

const COMPUTE_PRESSURE: &[Place] = &[
    Place::One(Kind::Fixed(Word::Compute)),
    Place::One(Kind::Name),
    Place::One(Kind::Fixed(Word::All)),
    Place::One(Kind::Fixed(Word::Pressure)),
    Place::One(Kind::Fixed(Word::ThermoTemp)),
];

const UNCOMPUTE: &[Place] = &[
    Place::One(Kind::Fixed(Word::Uncompute)),
    Place::One(Kind::Name),
];

/// The places of a form.
pub(crate) fn places(form: ComputesForm) -> &'static [Place]
    ensures { result.now ≡ places form }
{
    match form {
        ComputesForm::ComputeKe => COMPUTE_KE,
        ComputesForm::ComputeTemp => COMPUTE_TEMP,
        ComputesForm::ComputePe => COMPUTE_PE,
        ComputesForm::ComputePressure => COMPUTE_PRESSURE,
        ComputesForm::Uncompute => UNCOMPUTE,
    }
}

/// `compute` of this style.
fn new_compute(alloc: Global, words: &[Text], style: ComputeStyle) -> Result<Command, NoMemory>
    ensures { IfOk result (λ c. c ≡ new_compute style words.now) }
{
    let id = text(alloc, words, 1)?;
    let group = text(alloc, words, 2)?;
    Ok(Command::Compute(NewCompute { id, group, style }))
}

/// `uncompute`.
fn uncompute(alloc: Global, words: &[Text]) -> Result<Command, NoMemory>
    ensures { IfOk result (λ c. c ≡ Command.Uncompute (word 1 words.now)) }
{
    let id = text(alloc, words, 1)?;
    Ok(Command::Uncompute(id))
}

/// The command of the words of a form.
pub(crate) fn make(alloc: Global, form: ComputesForm, words: &[Text]) -> Result<Command, NoMemory>
    ensures { IfOk result (λ c. c ≡ make form words.now) }
{
    match form {
        ComputesForm::ComputeKe => new_compute(alloc, words, ComputeStyle::Ke),
        ComputesForm::ComputeTemp => new_compute(alloc, words, ComputeStyle::Temp),
        ComputesForm::ComputePe => new_compute(alloc, words, ComputeStyle::Pe),
        ComputesForm::ComputePressure => new_compute(alloc, words, ComputeStyle::Pressure),
        ComputesForm::Uncompute => uncompute(alloc, words),
    }
}
