//! The parts of `if`: a condition, `then` and commands, those of each `elif`, and those of `else`.
ghost use Rattle.std.specs.Prelude.{◌≡◌};
ghost use Rattle.command_words.specs.Branches.{after_command, is_part, is_whole, next, stuck_branches, unless_part};

use crate::vocabulary::{Word, text_of};
use fx_num::Text;

/// What the next word of `if` may be.
#[derive(Clone, Copy)]
pub(crate) enum Part {
    /// The condition of `if`.
    Condition,
    /// `then`.
    Then,
    /// A command.
    First,
    /// A command, `elif` or `else`.
    More,
    /// The condition of `elif`.
    Other,
    /// A command of `else`.
    Last,
    /// A further command of `else`.
    Rest,
}

/// Whether the word is `elif` or `else`, which begin a part wherever they stand.
pub(crate) fn is_part(text: &[u8]) -> bool
    ensures { result ≡ is_part text.now }
{
    text == text_of(Word::Elif) || text == text_of(Word::Else)
}

/// What may follow a word in a place that neither `elif` nor `else` takes.
fn unless_part(part: Part, text: &[u8]) -> Option<Part>
    ensures { result ≡ unless_part part text.now }
{
    if is_part(text) { None } else { Some(part) }
}

/// What may follow a command of `if` or `elif`, or the word in its place.
fn after_command(text: &[u8]) -> Part
    ensures { result ≡ after_command text.now }
{
    if text == text_of(Word::Elif) {
        return Part::Other;
    }
    if text == text_of(Word::Else) {
        return Part::Last;
    }
    Part::More
}

/// What may follow a word, if the word may stand here.
fn next(part: Part, text: &[u8]) -> Option<Part>
    ensures { result ≡ next part text.now }
{
    match part {
        Part::Condition => unless_part(Part::Then, text),
        Part::Then => {
            if text == text_of(Word::Then) {
                Some(Part::First)
            } else {
                None
            }
        }
        Part::First => unless_part(Part::More, text),
        Part::More => Some(after_command(text)),
        Part::Other => unless_part(Part::First, text),
        Part::Last => unless_part(Part::Rest, text),
        Part::Rest => unless_part(Part::Rest, text),
    }
}

/// Whether the words may end here.
fn is_whole(part: Part) -> bool
    ensures { result ≡ is_whole part }
{
    match part {
        Part::More => true,
        Part::Rest => true,
        Part::Condition => false,
        Part::Then => false,
        Part::First => false,
        Part::Other => false,
        Part::Last => false,
    }
}

/// How many words are left where the words behind `if` are not its parts.
pub(crate) fn stuck_branches(words: &[Text]) -> Option<usize>
    ensures { result ≡ stuck_branches words.now }
{
    let mut part = Part::Condition;
    let mut rest = words;
    'words: while let [word, after @ ..] = rest {
        match next(part, word.as_bytes()) {
            Some(following) => {
                part = following;
                rest = after;
            }
            None => return Some(rest.len()),
        }
    }
    if is_whole(part) { None } else { Some(0) }
}
