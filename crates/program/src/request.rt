//! What the words of the command line ask for.
ghost use Rattle.std.specs.Prelude.{◌≡◌};
ghost use Rattle.program.specs.Request.{request_of};

use fx_num::Text;

/// The word that asks for help.
const HELP_WORD: &[u8] = b"--help";

/// The word that asks for the version.
const VERSION_WORD: &[u8] = b"--version";

/// What a command line asks for.
#[derive(Clone, Copy, Debug, PartialEq, Eq)]
pub(crate) enum Request {
    /// The text on how to use the program.
    Help,
    /// The program's name and version.
    Version,
    /// A run, as the words say.
    Run,
}

/// What the words ask for: `--help` and `--version` count only where they are the only word.
pub(crate) fn request_of(words: &[Text]) -> Request
    ensures { result ≡ request_of words.now }
{
    match words {
        [word] if word.as_bytes() == HELP_WORD => Request::Help,
        [word] if word.as_bytes() == VERSION_WORD => Request::Version,
        _ => Request::Run,
    }
}
