//! Neighbours: `neighbor`, `neigh_modify`, `comm_modify`.
ghost use Rattle.std.specs.Prelude.{◌≡◌};
ghost use Rattle.command_words.specs.Neighbors.{comm_modify, make, neighbor, places};

use crate::command::Command;
use crate::options::Options;
use crate::places::{Kind, Place};
use crate::refusal::WordRefusal;
use crate::values::number;
use crate::vocabulary::{Word, Words};
use box_geo::limits::{MAX_CUTOFF, MAX_SKIN};
use fx_num::Text;

/// The forms of these commands.
#[derive(Clone, Copy)]
pub(crate) enum NeighborsForm {
    Neighbor,
    NeighModify,
    CommModify,
}

const NEIGHBOR: &[Place] = &[
    Place::One(Kind::Fixed(Word::Neighbor)),
    Place::One(Kind::Number),
    Place::One(Kind::OneOf(Words::Bins)),
];

const NEIGH_MODIFY: &[Place] = &[
    Place::One(Kind::Fixed(Word::NeighModify)),
    Place::SomeOptions(Options::Neigh),
];

const COMM_MODIFY: &[Place] = &[
    Place::One(Kind::Fixed(Word::CommModify)),
    Place::One(Kind::Fixed(Word::Cutoff)),
    Place::One(Kind::Number),
];

/// The places of a form.
pub(crate) fn places(form: NeighborsForm) -> &'static [Place]
    ensures { result.now ≡ places form }
{
    match form {
        NeighborsForm::Neighbor => NEIGHBOR,
        NeighborsForm::NeighModify => NEIGH_MODIFY,
        NeighborsForm::CommModify => COMM_MODIFY,
    }
}

/// `neighbor`.
fn neighbor(words: &[Text]) -> Result<Command, WordRefusal>
    ensures { result ≡ neighbor words.now }
{
    let skin = number(words, 1, 0, MAX_SKIN)?;
    Ok(Command::Neighbor(skin))
}

/// `comm_modify`.
fn comm_modify(words: &[Text]) -> Result<Command, WordRefusal>
    ensures { result ≡ comm_modify words.now }
{
    let cutoff = number(words, 2, 0, MAX_CUTOFF)?;
    Ok(Command::CommModify(cutoff))
}

/// The command of the words of a form.
pub(crate) fn make(form: NeighborsForm, words: &[Text]) -> Result<Command, WordRefusal>
    ensures { result ≡ make form words.now }
{
    match form {
        NeighborsForm::Neighbor => neighbor(words),
        NeighborsForm::NeighModify => Ok(Command::NeighModify),
        NeighborsForm::CommModify => comm_modify(words),
    }
}
