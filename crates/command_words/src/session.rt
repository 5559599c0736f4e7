//! The session: `clear`, `quit`.
ghost use Rattle.std.specs.Prelude.{◌≡◌};
ghost use Rattle.command_words.specs.Session.{make, places};

use crate::command::Command;
use crate::places::{Kind, Place};
use crate::vocabulary::Word;

/// The forms of these commands.
#[derive(Clone, Copy)]
pub(crate) enum SessionForm {
    Clear,
    Quit,
}

const CLEAR: &[Place] = &[Place::One(Kind::Fixed(Word::Clear))];

const QUIT: &[Place] = &[Place::One(Kind::Fixed(Word::Quit))];

/// The places of a form.
pub(crate) fn places(form: SessionForm) -> &'static [Place]
    ensures { result.now ≡ places form }
{
    match form {
        SessionForm::Clear => CLEAR,
        SessionForm::Quit => QUIT,
    }
}

/// The command of a form.
pub(crate) fn make(form: SessionForm) -> Command
    ensures { result ≡ make form }
{
    match form {
        SessionForm::Clear => Command::Clear,
        SessionForm::Quit => Command::Quit,
    }
}
