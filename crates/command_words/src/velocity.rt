//! Velocities: `velocity`.
ghost use Rattle.std.specs.Prelude.{◌≡◌};
ghost use Rattle.command_words.specs.Velocity.{action, component, components_in, draws_in, is_still, make, places};
ghost use Rattle.command_words.specs.Values.{Makes};

use crate::MAX_SEED;
use crate::command::Command;
use crate::lattice::is_scaled;
use crate::options::Options;
use crate::places::{Kind, Place};
use crate::refusal::WordRefusal;
use crate::values::{number, number_or, says, text, whole};
use crate::vocabulary::{Word, Words};
use box_geo::limits::MAX_TEMPERATURE;
use fx_num::{MAX_UNITS, Text};
use std::alloc::Global;

/// What `velocity` does.
#[derive(Drop)]
pub struct VelocityChange {
    /// The group's ID.
    pub group: Text,
    /// What becomes of its atoms' velocities.
    pub action: VelocityAction,
}

/// What becomes of velocities.
#[derive(Clone, Copy)]
pub enum VelocityAction {
    /// They are drawn.
    Create(Draws),
    /// Components are set.
    Set(Components),
    /// They are scaled to a temperature.
    Scale(i64),
    /// The mean is taken off.
    Zero,
}

/// How velocities are drawn.
#[derive(Clone, Copy)]
pub struct Draws {
    /// The temperature.
    pub temperature: i64,
    /// The seed, from 1 to [`crate::MAX_SEED`].
    pub seed: u32,
    /// Whether the mean is taken off.
    pub still: bool,
}

/// The components that are set, by axis.
#[derive(Clone, Copy)]
pub struct Components {
    /// A component, or `None` where it stays.
    pub v: [Option<i64>; 3],
    /// Whether the lattice scales them.
    pub scaled: bool,
}

/// The forms of these commands.
#[derive(Clone, Copy)]
pub(crate) enum VelocityForm {
    VelocityCreate,
    VelocitySet,
    VelocityScale,
    VelocityZero,
}

const VELOCITY_CREATE: &[Place] = &[
    Place::One(Kind::Fixed(Word::Velocity)),
    Place::One(Kind::Name),
    Place::One(Kind::Fixed(Word::Create)),
    Place::One(Kind::Number),
    Place::One(Kind::Whole),
    Place::Options(Options::Draw),
];

const VELOCITY_SET: &[Place] = &[
    Place::One(Kind::Fixed(Word::Velocity)),
    Place::One(Kind::Name),
    Place::One(Kind::Fixed(Word::Set)),
    Place::One(Kind::NumberOr(Words::Null)),
    Place::One(Kind::NumberOr(Words::Null)),
    Place::One(Kind::NumberOr(Words::Null)),
    Place::Options(Options::Units),
];

const VELOCITY_SCALE: &[Place] = &[
    Place::One(Kind::Fixed(Word::Velocity)),
    Place::One(Kind::Name),
    Place::One(Kind::Fixed(Word::Scale)),
    Place::One(Kind::Number),
];

const VELOCITY_ZERO: &[Place] = &[
    Place::One(Kind::Fixed(Word::Velocity)),
    Place::One(Kind::Name),
    Place::One(Kind::Fixed(Word::Zero)),
    Place::One(Kind::Fixed(Word::Linear)),
];

/// The places of a form.
pub(crate) fn places(form: VelocityForm) -> &'static [Place]
    ensures { result.now ≡ places form }
{
    match form {
        VelocityForm::VelocityCreate => VELOCITY_CREATE,
        VelocityForm::VelocitySet => VELOCITY_SET,
        VelocityForm::VelocityScale => VELOCITY_SCALE,
        VelocityForm::VelocityZero => VELOCITY_ZERO,
    }
}

/// Whether the mean is taken off the velocities that are drawn.
fn is_still(words: &[Text]) -> bool
    ensures { result ≡ is_still words.now }
{
    match says(words, 5, Word::Mom, Word::Yes) {
        Some(still) => still,
        None => true,
    }
}

/// How velocities are drawn.
fn draws_in(words: &[Text]) -> Result<VelocityAction, WordRefusal>
    ensures { result ≡ draws_in words.now }
{
    let temperature = number(words, 3, 0, MAX_TEMPERATURE)?;
    let seed = whole(words, 4, 1, u64::from(MAX_SEED))?;
    Ok(VelocityAction::Create(Draws {
        temperature,
        seed: seed as u32,
        still: is_still(words),
    }))
}

/// A component that is set, or none where it stays.
fn component(words: &[Text], place: usize) -> Result<Option<i64>, WordRefusal>
    ensures { result ≡ component place words.now }
{
    number_or(Words::Null, words, place, -MAX_UNITS, MAX_UNITS)
}

/// The components that are set.
fn components_in(words: &[Text]) -> Result<VelocityAction, WordRefusal>
    ensures { result ≡ components_in words.now }
{
    let x = component(words, 3)?;
    let y = component(words, 4)?;
    let z = component(words, 5)?;
    Ok(VelocityAction::Set(Components {
        v: [x, y, z],
        scaled: is_scaled(words, 6),
    }))
}

/// What becomes of velocities.
fn action(form: VelocityForm, words: &[Text]) -> Result<VelocityAction, WordRefusal>
    ensures { result ≡ action form words.now }
{
    match form {
        VelocityForm::VelocityCreate => draws_in(words),
        VelocityForm::VelocitySet => components_in(words),
        VelocityForm::VelocityScale => {
            let temperature = number(words, 3, 0, MAX_TEMPERATURE)?;
            Ok(VelocityAction::Scale(temperature))
        }
        VelocityForm::VelocityZero => Ok(VelocityAction::Zero),
    }
}

/// The command of the words of a form.
pub(crate) fn make(
    alloc: Global,
    form: VelocityForm,
    words: &[Text],
) -> Result<Command, WordRefusal>
    ensures { Makes (make form words.now) result }
{
    let action = action(form, words)?;
    let group = text(alloc, words, 1)?;
    Ok(Command::Velocity(VelocityChange { group, action }))
}
