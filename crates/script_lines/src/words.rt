//! The words of a logical line.
ghost use Rattle.std.specs.Prelude.{◌≡◌, ◌+◌, ◌++◌, ◌^◌, ◌<◌, ◌≤◌, Ok, Err, Some, [], length, min, IfOk, IfErr, OnOk};
ghost use Rattle.script_lines.specs.Modes.{closings, depth_of, next, surplus, surplus_before};
ghost use Rattle.script_lines.specs.Words.{added, with_words, is_outside, last_words, line_words, marks_of, quoted_at, word_at, word_behind, words_between, IsRefusal};

use crate::flags::Flags;
use crate::modes::{Mode, next};
use crate::refusals::LineRefusal;
use fx_num::{NoMemory, Seq, Text};
use std::alloc::Global;

/// A word as it stands in a line.
#[derive(Drop)]
pub struct RawWord {
    /// Whether it stood in quotes.
    pub quoted: bool,
    /// Its bytes, without the marks around it.
    pub text: Text,
}

/// The words of a line, in order.
pub type RawWords = Seq<RawWord>;

/// How many closing parentheses before a comment have no opening one, from a byte on, where so many
/// are behind it.
fn surplus_before(byte: u8, behind: usize) -> usize
    requires { behind + 1 < 2 ^ 64 }
    ensures is { result ≡ surplus_before byte behind }
    ensures bound { result ≤ behind + 1 }
{
    match byte {
        b')' => behind + 1,
        b'(' => behind.saturating_sub(1),
        b'#' => 0,
        _ => behind,
    }
}

/// For each byte of a line, whether a parenthesis that opens there has its closing one.
fn closings(alloc: Global, line: &[u8]) -> Result<Flags, NoMemory>
    ensures { IfOk result (λ flags. flags ≡ closings line.now) }
{
    let mut flags = Flags::new(alloc);
    let mut surplus: usize = 0;
    let mut i = line.len();
    while i > 0 {
        i -= 1;
        flags.push(surplus > 0)?;
        surplus = surplus_before(line[i], surplus);
    }
    Ok(flags)
}

/// Whether no word stands open.
fn is_outside(mode: Mode) -> bool
    ensures { result ≡ is_outside mode }
{
    matches!(mode, Mode::Between | Mode::Comment)
}

/// Whether a word that ends in this mode is quoted, if one does.
fn quoted_at(mode: Mode) -> Option<bool>
    ensures { result ≡ quoted_at mode }
{
    match mode {
        Mode::Word | Mode::Dollar | Mode::Formula(_) => Some(false),
        Mode::Doubled | Mode::Closed => Some(true),
        _ => None,
    }
}

/// Appends the word that ends in this mode, if one does.
fn push_word(mode: Mode, text: Text, words: &mut RawWords) -> Result<(), NoMemory>
    ensures { OnOk result (words.new ≡ words.old ++ word_at mode text) }
{
    if let Some(quoted) = quoted_at(mode) {
        words.push(RawWord { quoted, text })?;
    }
    Ok(())
}

/// So many quotes, at most two.
fn marks_of(marks: u8) -> &'static [u8]
    ensures { result.now ≡ marks_of marks }
{
    match marks {
        0 => b"",
        1 => b"\"",
        _ => b"\"\"",
    }
}

/// Appends what a byte adds to the word that it stands in.
fn add(mode: Mode, byte: u8, word: &mut Text) -> Result<(), NoMemory>
    ensures { OnOk result (word.new ≡ word.old ++ added mode byte) }
{
    let mark = match mode {
        Mode::Between => byte == b'"' || byte == b'\'',
        Mode::Word | Mode::Dollar | Mode::Formula(_) => false,
        Mode::Single => byte == b'\'',
        Mode::Opened | Mode::Double | Mode::Triple(_) => byte == b'"',
        _ => true,
    };
    if mark {
        return Ok(());
    }
    if let Mode::Triple(marks) = mode {
        word.push(marks_of(marks))?;
    }
    word.push(&[byte])
}

/// A line that is cut into words, up to some byte.
#[derive(Drop)]
struct Cut {
    mode: Mode,
    word: Text,
    words: RawWords,
}

impl Cut {
    /// Goes past a byte. `closed` tells whether a parenthesis that opens here has its closing one.
    fn step(self, alloc: Global, byte: u8, closed: bool) -> Result<Cut, NoMemory>
        requires { depth_of self.mode + 1 < 2 ^ 64 }
        ensures mode { IfOk result (λ cut. cut.mode ≡ next self.mode byte closed) }
        ensures word { IfOk result (λ cut. cut.word ≡ word_behind self.mode cut.mode byte self.word) }
        ensures depth { IfOk result (λ cut. depth_of cut.mode ≤ depth_of self.mode + 1) }
        ensures words { IfOk result (λ cut. cut.words ≡ self.words ++ words_between self.mode cut.mode self.word) }
    {
        let Cut {
            mode,
            mut word,
            mut words,
        } = self;
        let after = next(mode, byte, closed);
        if is_outside(after) {
            push_word(mode, word, &mut words)?;
            word = Text::new(alloc);
        } else {
            add(mode, byte, &mut word)?;
        }
        Ok(Cut {
            mode: after,
            word,
            words,
        })
    }

    /// The words at the end of the line of this number.
    fn end(self, number: u32) -> Result<RawWords, LineRefusal>
        ensures read { IfOk result (λ words. with_words self.words (last_words number self.mode self.word) ≡ Ok words) }
        ensures refused { IfErr result (λ why. IsRefusal why (last_words number self.mode self.word)) }
    {
        let Cut {
            mode,
            word,
            mut words,
        } = self;
        match mode {
            Mode::Torn => Err(LineRefusal::QuoteTail(number)),
            Mode::Single | Mode::Opened | Mode::Double | Mode::Triple(_) => {
                Err(LineRefusal::UnclosedQuote(number))
            }
            _ => {
                push_word(mode, word, &mut words)?;
                Ok(words)
            }
        }
    }
}

/// The words of the logical line of this number.
pub(crate) fn line_words(alloc: Global, number: u32, line: &[u8]) -> Result<RawWords, LineRefusal>
    ensures read { IfOk result (λ words. line_words number line.now ≡ Ok words) }
    ensures refused { IfErr result (λ why. IsRefusal why (line_words number line.now)) }
{
    let mut closings = closings(alloc, line)?;
    let mut cut = Cut {
        mode: Mode::Between,
        word: Text::new(alloc),
        words: Seq::new(alloc),
    };
    for byte in line {
        let closed = closings.pop().unwrap_or(false);
        cut = cut.step(alloc, *byte, closed)?;
    }
    cut.end(number)
}
