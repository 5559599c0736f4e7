//! Ranges of types and of ids, as words write them.
ghost use Rattle.std.specs.Prelude.{◌≡◌, ◌≤◌, length, drop, take, IfSome};
ghost use Rattle.std.specs.List.{prefix_len};
ghost use Rattle.command_words.specs.Ranges.{count_within, first_kind, id_range, id_tail, is_count, is_id_range, is_id_tail, is_kind_range, is_open, is_other, kind_range, last_kind};

use box_geo::limits::{MAX_ID, MAX_KINDS};
use fx_num::read_whole;

/// Types from the first to the last, as `n`, `*`, `n*`, `*n` and `m*n` write them. There are none where
/// the last is below the first.
#[derive(Clone, Copy)]
pub struct KindRange {
    /// The first type, at least 1.
    pub first: u8,
    /// The last type, or `None` for the last one of the box.
    pub last: Option<u8>,
}

/// Every so many ids from the first on up to the last, as `a`, `a:b` and `a:b:c` write them. There are none
/// where the last is below the first.
#[derive(Clone, Copy)]
pub struct IdRange {
    /// The first id, at least 1.
    pub first: u32,
    /// The greatest id that there may be.
    pub last: u32,
    /// The step from one id to the next, at least 1.
    pub stride: u32,
}

/// Whether the text is a whole number.
pub(crate) fn is_count(text: &[u8]) -> bool
    ensures { result ≡ is_count text.now }
{
    match read_whole(text) {
        Ok(_) => true,
        Err(_) => false,
    }
}

/// The whole number of the text, if it is one from 1 to `high`.
fn count_within(high: u64, text: &[u8]) -> Option<u64>
    ensures is { result ≡ count_within high text.now }
    ensures low { IfSome result (λ n. 1 ≤ n) }
    ensures high { IfSome result (λ n. n ≤ high) }
{
    match read_whole(text) {
        Ok(n) if 1 <= n && n <= high => Some(n),
        _ => None,
    }
}

/// Whether a byte is another than `mark`.
fn is_other(mark: u8, byte: u8) -> bool
    ensures { result ≡ is_other mark byte }
{
    byte != mark
}

/// How many bytes stand before the first that is `mark`.
fn len_before(mark: u8, text: &[u8]) -> usize
    ensures is { result ≡ prefix_len (is_other mark) text.now }
    ensures bound { result ≤ length text.now }
{
    for (i, byte) in text.iter().enumerate() {
        if !is_other(mark, *byte) {
            return i;
        }
    }
    text.len()
}

/// The text before the first `mark`, and the text from it on.
fn split_at_mark(mark: u8, text: &[u8]) -> (&[u8], &[u8])
    ensures before { result.0.now ≡ take (prefix_len (is_other mark) text.now) text.now }
    ensures rest { result.1.now ≡ drop (prefix_len (is_other mark) text.now) text.now }
{
    text.split_at(len_before(mark, text))
}

/// Whether an end of a range of types is left out or a whole number.
fn is_open(text: &[u8]) -> bool
    ensures { result ≡ is_open text.now }
{
    if text.is_empty() {
        true
    } else {
        is_count(text)
    }
}

/// Whether the text is that of a range of types.
pub(crate) fn is_kind_range(text: &[u8]) -> bool
    ensures { result ≡ is_kind_range text.now }
{
    let (first, rest) = split_at_mark(b'*', text);
    match rest {
        [] => is_count(first),
        [_, last @ ..] => is_open(first) && is_open(last),
    }
}

/// A type's number.
fn kind_in(text: &[u8]) -> Option<u8>
    ensures { result ≡ count_within MAX_KINDS text.now }
{
    match count_within(u64::from(MAX_KINDS), text) {
        Some(n) => Some(n as u8),
        None => None,
    }
}

/// The first type of a range; 1 where it is left out.
fn first_kind(text: &[u8]) -> Option<u8>
    ensures { result ≡ first_kind text.now }
{
    if text.is_empty() {
        Some(1)
    } else {
        kind_in(text)
    }
}

/// The last type of a range; none where it is left out.
fn last_kind(text: &[u8]) -> Option<Option<u8>>
    ensures { result ≡ last_kind text.now }
{
    if text.is_empty() {
        return Some(None);
    }
    match kind_in(text) {
        Some(n) => Some(Some(n)),
        None => None,
    }
}

/// The range of types that a text writes, if its numbers are within the limits.
pub(crate) fn kind_range(text: &[u8]) -> Option<KindRange>
    ensures { result ≡ kind_range text.now }
{
    let (first, rest) = split_at_mark(b'*', text);
    match rest {
        [] => {
            let n = kind_in(first)?;
            Some(KindRange {
                first: n,
                last: Some(n),
            })
        }
        [_, last @ ..] => {
            let first = first_kind(first)?;
            let last = last_kind(last)?;
            Some(KindRange { first, last })
        }
    }
}

/// Whether what follows the first number of a range of ids is of the form.
fn is_id_tail(text: &[u8]) -> bool
    ensures { result ≡ is_id_tail text.now }
{
    let (last, rest) = split_at_mark(b':', text);
    match rest {
        [] => is_count(last),
        [_, stride @ ..] => is_count(last) && is_count(stride),
    }
}

/// Whether the text is that of a range of ids.
pub(crate) fn is_id_range(text: &[u8]) -> bool
    ensures { result ≡ is_id_range text.now }
{
    let (first, rest) = split_at_mark(b':', text);
    match rest {
        [] => is_count(first),
        [_, tail @ ..] => is_count(first) && is_id_tail(tail),
    }
}

/// An id.
fn id_in(text: &[u8]) -> Option<u32>
    ensures { result ≡ count_within MAX_ID text.now }
{
    match count_within(u64::from(MAX_ID), text) {
        Some(n) => Some(n as u32),
        None => None,
    }
}

/// The range from an id on, of which the rest is written here.
fn id_tail(first: u32, text: &[u8]) -> Option<IdRange>
    ensures { result ≡ id_tail first text.now }
{
    let (last, rest) = split_at_mark(b':', text);
    match rest {
        [] => {
            let last = id_in(last)?;
            Some(IdRange {
                first,
                last,
                stride: 1,
            })
        }
        [_, stride @ ..] => {
            let last = id_in(last)?;
            let stride = id_in(stride)?;
            Some(IdRange {
                first,
                last,
                stride,
            })
        }
    }
}

/// The range of ids that a text writes, if its numbers are within the limits.
pub(crate) fn id_range(text: &[u8]) -> Option<IdRange>
    ensures { result ≡ id_range text.now }
{
    let (first, rest) = split_at_mark(b':', text);
    let first = id_in(first)?;
    match rest {
        [] => Some(IdRange {
            first,
            last: first,
            stride: 1,
        }),
        [_, tail @ ..] => id_tail(first, tail),
    }
}
