//! Steps and runs: `run`, `timestep`, `reset_timestep`.
ghost use Rattle.std.specs.Prelude.{◌≡◌};
ghost use Rattle.command_words.specs.Runs.{make, places, reset_timestep, run_in, timestep};

use crate::command::Command;
use crate::places::{Kind, Place};
use crate::refusal::WordRefusal;
use crate::values::{number, whole};
use crate::vocabulary::Word;
use box_geo::limits::{MAX_STEP, MAX_TIMESTEP};
use fx_num::Text;

/// What `run` does.
#[derive(Clone, Copy)]
pub struct Run {
    /// How many steps are run, or the last step's number.
    pub steps: u64,
    /// Whether the number is that of the last step.
    pub upto: bool,
}

/// The forms of these commands.
#[derive(Clone, Copy)]
pub(crate) enum RunsForm {
    Run,
    RunUpto,
    Timestep,
    ResetTimestep,
}

const RUN: &[Place] = &[Place::One(Kind::Fixed(Word::Run)), Place::One(Kind::Whole)];

const RUN_UPTO: &[Place] = &[
    Place::One(Kind::Fixed(Word::Run)),
    Place::One(Kind::Whole),
    Place::One(Kind::Fixed(Word::Upto)),
];

const TIMESTEP: &[Place] = &[
    Place::One(Kind::Fixed(Word::Timestep)),
    Place::One(Kind::Number),
];

const RESET_TIMESTEP: &[Place] = &[
    Place::One(Kind::Fixed(Word::ResetTimestep)),
    Place::One(Kind::Whole),
];

/// The places of a form.
pub(crate) fn places(form: RunsForm) -> &'static [Place]
    ensures { result.now ≡ places form }
{
    match form {
        RunsForm::Run => RUN,
        RunsForm::RunUpto => RUN_UPTO,
        RunsForm::Timestep => TIMESTEP,
        RunsForm::ResetTimestep => RESET_TIMESTEP,
    }
}

/// `run`.
fn run_in(words: &[Text], upto: bool) -> Result<Command, WordRefusal>
    ensures { result ≡ run_in upto words.now }
{
    let steps = whole(words, 1, 0, MAX_STEP)?;
    Ok(Command::Run(Run { steps, upto }))
}

/// `timestep`.
fn timestep(words: &[Text]) -> Result<Command, WordRefusal>
    ensures { result ≡ timestep words.now }
{
    let dt = number(words, 1, 0, MAX_TIMESTEP)?;
    Ok(Command::Timestep(dt))
}

/// `reset_timestep`.
fn reset_timestep(words: &[Text]) -> Result<Command, WordRefusal>
    ensures { result ≡ reset_timestep words.now }
{
    let step = whole(words, 1, 0, MAX_STEP)?;
    Ok(Command::ResetTimestep(step))
}

/// The command of the words of a form.
pub(crate) fn make(form: RunsForm, words: &[Text]) -> Result<Command, WordRefusal>
    ensures { result ≡ make form words.now }
{
    match form {
        RunsForm::Run => run_in(words, false),
        RunsForm::RunUpto => run_in(words, true),
        RunsForm::Timestep => timestep(words),
        RunsForm::ResetTimestep => reset_timestep(words),
    }
}
