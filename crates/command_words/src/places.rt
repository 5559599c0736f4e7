//! Places of forms: what a place takes from the words of a line.
ghost use Rattle.std.specs.Prelude.{◌≡◌, ◌≤◌, Ok, Err, length, IfOk, IfErr};
ghost use Rattle.std.specs.List.{prefix_len};
ghost use Rattle.command_words.specs.Options.{choices_in};
ghost use Rattle.command_words.specs.Places.{count_of, has_count, is_number, left_by, left_by_count, none_left, stuck, stuck_options, takes};

use crate::branches::stuck_branches;
use crate::options::{Choice, Options, choices_in, kind_of_option};
use crate::ranges::{is_count, is_id_range, is_kind_range};
use crate::vocabulary::{Word, Words, is_among, text_of};
use fx_num::{NumError, Text, read_decimal, read_whole};
use names::{is_compute, is_file_name, is_id};

/// What one word may be.
#[derive(Clone, Copy)]
pub(crate) enum Kind {
    /// This word.
    Fixed(Word),
    /// One of these words.
    OneOf(Words),
    /// An ID, or the name of a variable.
    Name,
    /// The name of a file.
    File,
    /// `c_` and an ID.
    Compute,
    /// `c_` and an ID, or one of these words.
    ComputeOr(Words),
    /// A decimal text, also one that is out of range.
    Number,
    /// A decimal text, or one of these words.
    NumberOr(Words),
    /// A whole number.
    Whole,
    /// A whole number, or one of these words.
    WholeOr(Words),
    /// A range of types.
    Kinds,
    /// A range of ids.
    Ids,
    /// Any word.
    Any,
}

/// A place of a form.
#[derive(Clone, Copy)]
pub(crate) enum Place {
    /// One word.
    One(Kind),
    /// One such word or more, as many as there are.
    Many(Kind),
    /// A whole number from 1 on, and as many such words.
    Counted(Kind),
    /// Any number of words, none among them.
    Rest,
    /// The condition, `then` and commands of `if`, those of each `elif`, and those of `else`.
    Branches,
    /// Options with their values.
    Options(Options),
    /// At least one option with its value.
    SomeOptions(Options),
}

/// Whether the text is a decimal text, also one that is out of range.
fn is_number(text: &[u8]) -> bool
    ensures { result ≡ is_number text.now }
{
    match read_decimal(text) {
        Ok(_) => true,
        Err(NumError::OutOfRange) => true,
        Err(NumError::NotNumber) => false,
        Err(NumError::TooManyDigits) => false,
    }
}

/// Whether a word may be this text.
pub(crate) fn takes(kind: Kind, text: &[u8]) -> bool
    ensures { result ≡ takes kind text.now }
{
    match kind {
        Kind::Fixed(word) => text_of(word) == text,
        Kind::OneOf(words) => is_among(words, text),
        Kind::Name => is_id(text),
        Kind::File => is_file_name(text),
        Kind::Compute => is_compute(text),
        Kind::ComputeOr(words) => is_among(words, text) || is_compute(text),
        Kind::Number => is_number(text),
        Kind::NumberOr(words) => is_among(words, text) || is_number(text),
        Kind::Whole => is_count(text),
        Kind::WholeOr(words) => is_among(words, text) || is_count(text),
        Kind::Kinds => is_kind_range(text),
        Kind::Ids => is_id_range(text),
        Kind::Any => true,
    }
}

/// How many words from the front on are of this kind.
pub(crate) fn count_taken(kind: Kind, words: &[Text]) -> usize
    ensures is { result ≡ prefix_len (takes kind) words.now }
    ensures bound { result ≤ length words.now }
{
    for (i, word) in words.iter().enumerate() {
        if !takes(kind, word.as_bytes()) {
            return i;
        }
    }
    words.len()
}

/// The words behind one word of this kind, or how many words are left where none stands.
fn take_one(kind: Kind, words: &[Text]) -> Result<&[Text], usize>
    ensures taken { IfOk result (λ rest. left_by (Place.One kind) words.now ≡ Ok rest.now) }
    ensures stuck { IfErr result (λ left. left_by (Place.One kind) words.now ≡ Err left) }
{
    match words {
        [] => Err(0),
        [word, rest @ ..] => {
            if takes(kind, word.as_bytes()) {
                Ok(rest)
            } else {
                Err(words.len())
            }
        }
    }
}

/// The words behind one such word or more, or how many words are left where none stands.
fn take_many(kind: Kind, words: &[Text]) -> Result<&[Text], usize>
    ensures taken { IfOk result (λ rest. left_by (Place.Many kind) words.now ≡ Ok rest.now) }
    ensures stuck { IfErr result (λ left. left_by (Place.Many kind) words.now ≡ Err left) }
{
    let count = count_taken(kind, words);
    if count == 0 {
        return Err(words.len());
    }
    let (_, rest) = words.split_at(count);
    Ok(rest)
}

/// The number that tells how many words follow: a whole number from 1 on.
fn count_of(text: &[u8]) -> Option<u64>
    ensures { result ≡ count_of text.now }
{
    match read_whole(text) {
        Ok(n) if 1 <= n => Some(n),
        _ => None,
    }
}

/// The words behind this many words of this kind, or how many words are left where one doesn't stand.
fn take_so_many(count: u64, kind: Kind, words: &[Text]) -> Result<&[Text], usize>
    ensures taken { IfOk result (λ rest. left_by_count count kind words.now ≡ Ok rest.now) }
    ensures stuck { IfErr result (λ left. left_by_count count kind words.now ≡ Err left) }
{
    let there = count_taken(kind, words);
    if count <= there as u64 {
        let (_, rest) = words.split_at(count as usize);
        Ok(rest)
    } else {
        Err(words.len() - there)
    }
}

/// The words behind a number and as many words of this kind, or how many words are left where one
/// doesn't stand.
fn take_counted(kind: Kind, words: &[Text]) -> Result<&[Text], usize>
    ensures taken { IfOk result (λ rest. left_by (Place.Counted kind) words.now ≡ Ok rest.now) }
    ensures stuck { IfErr result (λ left. left_by (Place.Counted kind) words.now ≡ Err left) }
{
    match words {
        [] => Err(0),
        [number, rest @ ..] => match count_of(number.as_bytes()) {
            Some(count) => take_so_many(count, kind, rest),
            None => Err(words.len()),
        },
    }
}

/// How many words are left where these words are no options with their values.
pub(crate) fn stuck_options(choices: &[Choice], words: &[Text]) -> Option<usize>
    ensures { result ≡ stuck_options choices.now words.now }
{
    let mut rest = words;
    'pairs: while let [key, after @ ..] = rest {
        let Some(kind) = kind_of_option(choices, key.as_bytes()) else {
            return Some(rest.len());
        };
        match after {
            [] => return Some(0),
            [value, more @ ..] => {
                if !takes(kind, value.as_bytes()) {
                    return Some(after.len());
                }
                rest = more;
            }
        }
    }
    None
}

/// How many words are left where these words are none of these options with their values.
fn stuck_in(options: Options, words: &[Text]) -> Option<usize>
    ensures { result ≡ stuck_options (choices_in options) words.now }
{
    stuck_options(choices_in(options), words)
}

/// No words, or how many are left.
fn none_left(words: &[Text], left: Option<usize>) -> Result<&[Text], usize>
    ensures taken { IfOk result (λ rest. none_left left ≡ Ok rest.now) }
    ensures stuck { IfErr result (λ left'. none_left left ≡ Err left') }
{
    match left {
        None => Ok(&words[..0]),
        Some(left) => Err(left),
    }
}

/// The words behind those that a place takes, or how many words are left where it takes no more.
fn take(place: Place, words: &[Text]) -> Result<&[Text], usize>
    ensures taken { IfOk result (λ rest. left_by place words.now ≡ Ok rest.now) }
    ensures stuck { IfErr result (λ left. left_by place words.now ≡ Err left) }
{
    match place {
        Place::One(kind) => take_one(kind, words),
        Place::Many(kind) => take_many(kind, words),
        Place::Counted(kind) => take_counted(kind, words),
        Place::Rest => none_left(words, None),
        Place::Branches => none_left(words, stuck_branches(words)),
        Place::Options(options) => none_left(words, stuck_in(options, words)),
        Place::SomeOptions(options) => {
            if words.is_empty() {
                return Err(0);
            }
            none_left(words, stuck_in(options, words))
        }
    }
}

/// How many words are left where a form takes no more; `None` where it takes all of them and none is
/// missing.
pub(crate) fn stuck(places: &[Place], words: &[Text]) -> Option<usize>
    ensures { result ≡ stuck places.now words.now }
{
    let mut rest = words;
    for place in places {
        match take(*place, rest) {
            Ok(after) => rest = after,
            Err(left) => return Some(left),
        }
    }
    if rest.is_empty() {
        None
    } else {
        Some(rest.len())
    }
}

/// Whether a form has words of this number.
pub(crate) fn has_count(places: &[Place], count: usize) -> bool
    ensures { result ≡ has_count places.now count }
{
    let mut left = count;
    for place in places {
        match place {
            Place::One(_) => {
                if left == 0 {
                    return false;
                }
                left -= 1;
            }
            Place::Many(_) => return 1 <= left,
            Place::Counted(_) => return 2 <= left,
            Place::Rest => return true,
            Place::Branches => return 3 <= left,
            Place::Options(_) => return left % 2 == 0,
            Place::SomeOptions(_) => return 2 <= left && left % 2 == 0,
        }
    }
    left == 0
}
