//! Answers of the parts of a script as refusals of a command.
ghost use Rattle.session.specs.Refusals.{changed_of, coded_of, on_of, widened};
ghost use Rattle.std.specs.Prelude.{◌≡◌};

use meaning::{Code, Going, Refusal, SettingsRefusal};

/// Of a command that changes settings alone.
pub(crate) fn widened(why: SettingsRefusal) -> Refusal
    ensures { result ≡ widened why }
{
    match why {
        SettingsRefusal::Code(code) => Refusal::Code(code),
        SettingsRefusal::NoMemory => Refusal::NoMemory,
    }
}

/// Of a command that changes settings alone and takes no memory.
pub(crate) fn decided(answer: Result<(), Code>) -> Result<Going, Refusal>
    ensures { result ≡ coded_of answer }
{
    match answer {
        Ok(()) => Ok(Going::On),
        Err(code) => Err(Refusal::Code(code)),
    }
}

/// Of a command that changes settings alone.
pub(crate) fn changed(answer: Result<(), SettingsRefusal>) -> Result<Going, Refusal>
    ensures { result ≡ changed_of answer }
{
    match answer {
        Ok(()) => Ok(Going::On),
        Err(why) => Err(widened(why)),
    }
}

/// What a command answers that does not quit.
pub(crate) fn on_of(answer: Result<(), Refusal>) -> Result<Going, Refusal>
    ensures { result ≡ on_of answer }
{
    match answer {
        Ok(()) => Ok(Going::On),
        Err(why) => Err(why),
    }
}
