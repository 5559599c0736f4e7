//! Why words are no command.
ghost use Rattle.std.specs.Prelude.{◌≡◌};

use fx_num::NoMemory;
use thiserror::Error;

/// Why words are no command, in the order of judgement. Places count the words from 0, the command's own.
#[derive(Clone, Copy, Debug, PartialEq, Eq, Error)]
pub enum WordRefusal {
    /// No command has this name.
    #[error("unknown command")]
    UnknownCommand,
    /// No form of the command has so many words.
    #[error("wrong number of words")]
    WordCount,
    /// The place of the first word with which the words so far begin no form, or the number of words where
    /// one is missing.
    #[error("word {0}")]
    BadWord(usize),
    /// The place of the first number that is out of range, outside its limit or against a rule.
    #[error("value {0}")]
    BadValue(usize),
    /// The allocator refused.
    #[error("out of memory")]
    NoMemory,
}

impl From<NoMemory> for WordRefusal {
    ghost use Rattle.command_words.specs.declared.refusal.WordRefusal.TheVariants as refusal;

    ghost from_gives = { λ _ out. out ≡ refusal.NoMemory };

    fn from(_error: NoMemory) -> WordRefusal {
        WordRefusal::NoMemory
    }
}
