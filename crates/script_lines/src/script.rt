//! The lines of a script, one by one.
ghost use Rattle.std.specs.Prelude.{◌≡◌, ◌^◌, ◌<◌, ◌≤◌, length, take, IfErr, IfOk, IfSome};
ghost use Rattle.script_lines.specs.Physical.{feeds};
ghost use Rattle.script_lines.specs.Script.{script_at, IsFarther, IsNext, IsNextLine, Refuses};

use crate::joining::{LogicalLine, logical_line};
use crate::refusals::LineRefusal;
use crate::words::{RawWords, line_words};
use std::alloc::Global;

/// A place in a text, with the number of line feeds before it. A reader of a whole script carries it
/// from line to line, so that no line is counted twice.
#[derive(Clone, Copy, Debug, PartialEq, Eq)]
pub struct Place {
    /// The byte, from 0.
    pub at: u32,
    /// How many line feeds stand before it.
    pub ended: u32,
}

impl Place {
    /// The start of a text.
    pub fn start() -> Place
        ensures { result ≡ record { at = 0; ended = 0 } }
    {
        Place { at: 0, ended: 0 }
    }
}

/// A line with words.
#[derive(Drop)]
pub struct ScriptLine {
    /// The number of its first physical line, from 1.
    pub number: u32,
    /// The place behind it.
    pub next: Place,
    /// Its words.
    pub words: RawWords,
}

/// The next line of a text.
#[derive(Drop)]
pub enum LineResult {
    /// No line with words is left.
    End,
    /// A line with words.
    Line {
        /// The number of its first physical line, from 1.
        number: u32,
        /// The byte behind it, from 0.
        next: u32,
        /// Its words.
        words: RawWords,
    },
}

/// The first line with words of a text from a place on. Lines without words are passed.
///
/// # Errors
///
/// Why the first line that is no line without words cannot be read, or `NoMemory`.
pub fn line_from(
    alloc: Global,
    text: &[u8],
    place: Place,
) -> Result<Option<ScriptLine>, LineRefusal>
    requires small { length text.now < 2 ^ 32 }
    requires counted { place.ended ≡ feeds (take place.at text.now) }
    ensures line { IfOk result (λ line. IsNextLine text.now line (script_at text.now place.at)) }
    ensures refused { IfErr result (λ why. Refuses why (script_at text.now place.at)) }
    ensures worded { IfOk result (λ line. IfSome line (λ l. 0 < length l.words)) }
    ensures farther { IfOk result (λ line. IfSome line (λ l. place.at < l.next.at)) }
    ensures within { IfOk result (λ line. IfSome line (λ l. l.next.at ≤ length text.now)) }
    ensures counted { IfOk result (λ line. IfSome line (λ l. l.next.ended ≡ feeds (take l.next.at text.now))) }
{
    let at = (place.at as usize).min(text.len());
    let (_, mut rest) = text.split_at(at);
    let mut ended = place.ended;
    'lines: while !rest.is_empty() {
        let number = ended + 1;
        let LogicalLine {
            text: joined,
            after,
            ended: passed,
        } = logical_line(alloc, rest, ended)?;
        let Some(joined) = joined else {
            return Err(LineRefusal::ContinuationAtEnd(number));
        };
        let words = line_words(alloc, number, joined.as_bytes())?;
        rest = after;
        ended = passed;
        if !words.is_empty() {
            let at = (text.len() - rest.len()) as u32;
            return Ok(Some(ScriptLine {
                number,
                next: Place { at, ended },
                words,
            }));
        }
    }
    Ok(None)
}

/// How many line feeds a text has.
fn feeds(text: &[u8]) -> u32
    requires { length text.now < 2 ^ 32 }
    ensures { result ≡ feeds text.now }
{
    let mut count = 0;
    for byte in text {
        if *byte == b'\n' {
            count += 1;
        }
    }
    count
}

/// The first line with words of a text from this byte on. It counts the line feeds before that byte:
/// who reads a whole text carries a [`Place`] instead and calls [`line_from`].
///
/// # Errors
///
/// Why the first line that is no line without words cannot be read, or `NoMemory`.
pub fn next_line(alloc: Global, text: &[u8], at: u32) -> Result<LineResult, LineRefusal>
    requires { length text.now < 2 ^ 32 }
    ensures line { IfOk result (λ line. IsNext text.now line (script_at text.now at)) }
    ensures refused { IfErr result (λ why. Refuses why (script_at text.now at)) }
    ensures farther { IfOk result (λ line. IsFarther at (length text.now) line) }
{
    let (front, _) = text.split_at((at as usize).min(text.len()));
    let place = Place {
        at,
        ended: feeds(front),
    };
    match line_from(alloc, text, place)? {
        None => Ok(LineResult::End),
        Some(
            ScriptLine {
                number,
                next,
                words,
            },
        ) => Ok(LineResult::Line {
            number,
            next: next.at,
            words,
        }),
    }
}
