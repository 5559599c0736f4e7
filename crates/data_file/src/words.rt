//! The words of a line.
ghost use Rattle.std.specs.Prelude.{◌≡◌, ◌+◌, ◌<◌, ◌≤◌, ◌∷◌, [], length, MatchOption};
ghost use Rattle.std.specs.List.{prefix_len};
ghost use Rattle.std.specs.Str.{bytes_eq};
ghost use Rattle.data_file.specs.Words.{is_blank, is_plain_byte, is_word_byte, without_comment, word, words_of};

/// Whether a byte is a space or a tab.
fn is_blank(byte: u8) -> bool
    ensures { result ≡ is_blank byte }
{
    byte == b' ' || byte == b'\t'
}

/// How many bytes from the front on stand before a comment.
fn plain_len(line: &[u8]) -> usize
    ensures is { result ≡ prefix_len is_plain_byte line.now }
    ensures bound { result ≤ length line.now }
{
    for (i, byte) in line.iter().enumerate() {
        if *byte == b'#' {
            return i;
        }
    }
    line.len()
}

/// A line without its comment.
#[tactic(auto, unfolding(crate::specs::Words::without_comment))]
pub(crate) fn without_comment(line: &[u8]) -> &[u8]
    ensures { result.now ≡ without_comment line.now }
{
    let (plain, _) = line.split_at(plain_len(line));
    plain
}

/// How many bytes from the front on are no blank.
fn word_len(line: &[u8]) -> usize
    ensures is { result ≡ prefix_len is_word_byte line.now }
    ensures bound { result ≤ length line.now }
{
    for (i, byte) in line.iter().enumerate() {
        if is_blank(*byte) {
            return i;
        }
    }
    line.len()
}

/// The line from its first byte on that is no blank.
#[tactic(auto, using(crate::proofs::WordLemmas::words_blank))]
fn after_blanks(line: &[u8]) -> &[u8]
    ensures words { words_of result.now ≡ words_of line.now }
    ensures bound { length result.now ≤ length line.now }
    ensures begins { 0 < length result.now → 0 < prefix_len is_word_byte result.now }
{
    let mut rest = line;
    'blanks: while let Some((first, after)) = rest.split_first() {
        if !is_blank(*first) {
            return rest;
        }
        rest = after;
    }
    rest
}

/// The first word of a line, and the line behind it.
#[derive(Drop)]
pub(crate) struct FirstWord<'a> {
    pub(crate) word: &'a [u8],
    pub(crate) after: &'a [u8],
}

/// The first word of a line, if it has one.
fn first_word(line: &[u8]) -> Option<FirstWord<'_>>
    ensures cut { MatchOption result (words_of line.now ≡ []) (λ first. words_of line.now ≡ first.word.now ∷ words_of first.after.now) }
    ensures farther { MatchOption result (0 ≤ length line.now) (λ first. length first.after.now < length line.now) }
{
    let rest = after_blanks(line);
    if rest.is_empty() {
        return None;
    }
    let (word, after) = rest.split_at(word_len(rest));
    Some(FirstWord { word, after })
}

/// How many words a line has.
pub(crate) fn count_words(line: &[u8]) -> usize
    ensures { result ≡ length (words_of line.now) }
{
    let mut count = 0;
    let mut rest = line;
    'words: while let Some(FirstWord { after, .. }) = first_word(rest) {
        count += 1;
        rest = after;
    }
    count
}

/// The word of a line at a place from 0, no bytes where there is none.
#[tactic(auto, unfolding(crate::specs::Words::word))]
pub(crate) fn word_at(line: &[u8], place: usize) -> &[u8]
    ensures { result.now ≡ word place (words_of line.now) }
{
    let mut left = place;
    let mut rest = line;
    'words: while let Some(FirstWord { word, after }) = first_word(rest) {
        if left == 0 {
            return word;
        }
        left -= 1;
        rest = after;
    }
    &line[..0]
}

/// Whether the word of a line at a place is this text.
pub(crate) fn is_word(line: &[u8], place: usize, text: &[u8]) -> bool
    ensures { result ≡ bytes_eq (word place (words_of line.now)) text.now }
{
    word_at(line, place) == text
}
