//! What words say: texts, numbers within limits, the values of options.
ghost use Rattle.std.specs.Prelude.{◌≡◌, ◌≤◌, ◌≤ℤ◌, ◌-◌, ◌<◌, length, drop, take, IfOk};
ghost use Rattle.command_words.specs.Values.{any_number, count, is_word, kinds, last_place, latest, number, number_or, says, value_place, whole, word};

use crate::ranges::{KindRange, kind_range};
use crate::refusal::WordRefusal;
use crate::vocabulary::{Word, Words, is_among, text_of};
use fx_num::{MAX_UNITS, NoMemory, Seq, Text, read_decimal, read_whole};
use std::alloc::Global;

/// The greatest whole number that a word may write.
pub(crate) const MAX_WHOLE: u64 = 9_999_999_999_999_999_999;

/// The text of a word; empty where there is none.
pub(crate) fn word(words: &[Text], place: usize) -> &[u8]
    ensures { result.now ≡ word place words.now }
{
    match behind(words, place) {
        [text, ..] => text.as_bytes(),
        [] => b"",
    }
}

/// The words from a place on.
pub(crate) fn behind(words: &[Text], place: usize) -> &[Text]
    ensures { result.now ≡ drop place words.now }
{
    if place <= words.len() {
        let (_, rest) = words.split_at(place);
        rest
    } else {
        &words[..0]
    }
}

/// Whether the word at a place is this one.
pub(crate) fn is_word(words: &[Text], place: usize, wanted: Word) -> bool
    ensures { result ≡ is_word wanted place words.now }
{
    word(words, place) == text_of(wanted)
}

/// A copy of a word.
pub(crate) fn text(alloc: Global, words: &[Text], place: usize) -> Result<Text, NoMemory>
    ensures { IfOk result (λ text. text ≡ word place words.now) }
{
    Text::from_bytes(alloc, word(words, place))
}

/// Copies of words.
pub(crate) fn texts(alloc: Global, words: &[Text]) -> Result<Seq<Text>, NoMemory>
    ensures { IfOk result (λ texts. texts ≡ words.now) }
{
    let mut texts = Seq::new(alloc);
    for word in words {
        texts.push(word.copy(alloc)?)?;
    }
    Ok(texts)
}

/// The number of a word in units, if it is one from `low` to `high`.
///
/// # Errors
///
/// `BadValue` with the word's place where it is not.
pub(crate) fn number(words: &[Text], place: usize, low: i64, high: i64) -> Result<i64, WordRefusal>
    ensures is { result ≡ number place low high words.now }
    ensures low { IfOk result (λ v. low ≤ℤ v) }
    ensures high { IfOk result (λ v. v ≤ℤ high) }
{
    match read_decimal(word(words, place)) {
        Ok(v) if low <= v && v <= high => Ok(v),
        _ => Err(WordRefusal::BadValue(place)),
    }
}

/// The number of a word in units; none where the word is one of these.
///
/// # Errors
///
/// `BadValue` with the word's place where it is neither, or not from `low` to `high`.
pub(crate) fn number_or(
    instead: Words,
    words: &[Text],
    place: usize,
    low: i64,
    high: i64,
) -> Result<Option<i64>, WordRefusal>
    ensures { result ≡ number_or instead place low high words.now }
{
    if is_among(instead, word(words, place)) {
        return Ok(None);
    }
    match number(words, place, low, high) {
        Ok(v) => Ok(Some(v)),
        Err(why) => Err(why),
    }
}

/// The number of a word in units, if it is in range.
///
/// # Errors
///
/// `BadValue` with the word's place where it is not.
pub(crate) fn any_number(words: &[Text], place: usize) -> Result<i64, WordRefusal>
    ensures { result ≡ any_number place words.now }
{
    number(words, place, -MAX_UNITS, MAX_UNITS)
}

/// The whole number of a word, if it is one from `low` to `high`.
///
/// # Errors
///
/// `BadValue` with the word's place where it is not.
pub(crate) fn whole(words: &[Text], place: usize, low: u64, high: u64) -> Result<u64, WordRefusal>
    ensures is { result ≡ whole place low high words.now }
    ensures low { IfOk result (λ n. low ≤ n) }
    ensures high { IfOk result (λ n. n ≤ high) }
{
    match read_whole(word(words, place)) {
        Ok(n) if low <= n && n <= high => Ok(n),
        _ => Err(WordRefusal::BadValue(place)),
    }
}

/// The whole number of a word.
///
/// # Errors
///
/// `BadValue` with the word's place where it is none.
pub(crate) fn count(words: &[Text], place: usize) -> Result<u64, WordRefusal>
    ensures { result ≡ count place words.now }
{
    whole(words, place, 0, MAX_WHOLE)
}

/// The types that a word writes, if they are within the limits.
///
/// # Errors
///
/// `BadValue` with the word's place where they are not.
pub(crate) fn kinds(words: &[Text], place: usize) -> Result<KindRange, WordRefusal>
    ensures { result ≡ kinds place words.now }
{
    match kind_range(word(words, place)) {
        Some(range) => Ok(range),
        None => Err(WordRefusal::BadValue(place)),
    }
}

/// The place among `count` words of the word before which `key` stands and from which `after` are left, where
/// `key` is the option; else what was found before.
fn latest(
    found: Option<usize>,
    count: usize,
    option: Word,
    key: &Text,
    after: &[Text],
) -> Option<usize>
    ensures { result ≡ latest found (count - length after.now) option key.now }
{
    if key.as_bytes() == text_of(option) {
        Some(count.saturating_sub(after.len()))
    } else {
        found
    }
}

/// What is found with the first two of the words that are left, and the words behind them.
fn after_pair(
    option: Word,
    count: usize,
    found: Option<usize>,
    words: &[Text],
) -> (Option<usize>, &[Text])
    ensures same { last_place option count result.0 result.1.now ≡ last_place option count found words.now }
    ensures shorter { 0 < length words.now → length result.1.now < length words.now }
{
    match words {
        [] => (found, words),
        [key, after @ ..] => match after {
            [] => (found, after),
            [_, more @ ..] => (latest(found, count, option, key, after), more),
        },
    }
}

/// The place of the value of an option that stands from a place on; of an option given twice the last one
/// counts.
pub(crate) fn value_place(words: &[Text], from: usize, option: Word) -> Option<usize>
    ensures { result ≡ value_place option from words.now }
{
    let count = words.len();
    let mut found = None;
    let mut rest = behind(words, from);
    'pairs: while !rest.is_empty() {
        let (place, behind) = after_pair(option, count, found, rest);
        found = place;
        rest = behind;
    }
    found
}

/// Whether an option has this value, if it is given.
pub(crate) fn says(words: &[Text], from: usize, option: Word, value: Word) -> Option<bool>
    ensures { result ≡ says option value from words.now }
{
    match value_place(words, from, option) {
        Some(place) => Some(is_word(words, place, value)),
        None => None,
    }
}
