//! How the bytes of a logical line are read, one by one.
ghost use Rattle.std.specs.Prelude.{◌≡◌, ◌+◌, ◌^◌, ◌<◌, ◌≤◌, false};
ghost use Rattle.script_lines.specs.Modes.{is_blank, in_word, at_start, behind_mark, in_formula, next, is_formula, is_triple, depth_of};

/// How the next byte of a logical line is read.
#[derive(Clone, Copy)]
pub(crate) enum Mode {
    /// Between words.
    Between,
    /// In an unquoted word.
    Word,
    /// In an unquoted word, behind a `$`.
    Dollar,
    /// In `$( )` of an unquoted word, where so many parentheses are open.
    Formula(usize),
    /// In a word in `'`.
    Single,
    /// Behind the first `"` of a word.
    Opened,
    /// In a word in `"`.
    Double,
    /// Behind two `"` at the start of a word: it is empty, or `"""` begins.
    Doubled,
    /// In a word in `"""`, behind so many `"`.
    Triple(u8),
    /// Behind the closing mark of a word.
    Closed,
    /// Behind a byte that may not follow a closing mark.
    Torn,
    /// In a comment.
    Comment,
}

/// Whether a byte is a space or a tab.
pub(crate) fn is_blank(byte: u8) -> bool
    ensures { result ≡ is_blank byte }
{
    byte == b' ' || byte == b'\t'
}

fn in_word(byte: u8) -> Mode
    ensures is { result ≡ in_word byte }
    ensures flat { depth_of result ≡ 0 }
    ensures plain { is_formula result ≡ false }
{
    if is_blank(byte) {
        Mode::Between
    } else if byte == b'#' {
        Mode::Comment
    } else if byte == b'$' {
        Mode::Dollar
    } else {
        Mode::Word
    }
}

fn at_start(byte: u8) -> Mode
    ensures is { result ≡ at_start byte }
    ensures flat { depth_of result ≡ 0 }
    ensures plain { is_formula result ≡ false }
{
    if byte == b'"' {
        Mode::Opened
    } else if byte == b'\'' {
        Mode::Single
    } else {
        in_word(byte)
    }
}

fn behind_mark(byte: u8) -> Mode
    ensures is { result ≡ behind_mark byte }
    ensures flat { depth_of result ≡ 0 }
    ensures plain { is_formula result ≡ false }
{
    if is_blank(byte) {
        Mode::Between
    } else if byte == b'#' {
        Mode::Comment
    } else {
        Mode::Torn
    }
}

fn in_formula(depth: usize, byte: u8) -> Mode
    requires { depth + 1 < 2 ^ 64 }
    ensures is { result ≡ in_formula depth byte }
    ensures bound { depth_of result ≤ depth + 1 }
{
    if byte == b'(' {
        Mode::Formula(depth + 1)
    } else if byte != b')' {
        Mode::Formula(depth)
    } else if depth <= 1 {
        Mode::Word
    } else {
        Mode::Formula(depth - 1)
    }
}

fn in_triple(marks: u8, byte: u8) -> Mode
    ensures is { result ≡ next (Mode.Triple marks) byte false }
    ensures flat { depth_of result ≡ 0 }
    ensures plain { is_formula result ≡ false }
{
    if byte != b'"' {
        Mode::Triple(0)
    } else if marks < 2 {
        Mode::Triple(marks + 1)
    } else {
        Mode::Closed
    }
}

/// How a line goes on behind `byte`. `closed` tells whether a parenthesis that opens here has its
/// closing one.
pub(crate) fn next(mode: Mode, byte: u8, closed: bool) -> Mode
    requires { depth_of mode + 1 < 2 ^ 64 }
    ensures is { result ≡ next mode byte closed }
    ensures bound { depth_of result ≤ depth_of mode + 1 }
    ensures plain { closed ≡ false → is_formula mode ≡ false → is_formula result ≡ false }
{
    match mode {
        Mode::Between => at_start(byte),
        Mode::Word => in_word(byte),
        Mode::Dollar if byte == b'(' && closed => Mode::Formula(1),
        Mode::Dollar => in_word(byte),
        Mode::Formula(depth) => in_formula(depth, byte),
        Mode::Single if byte == b'\'' => Mode::Closed,
        Mode::Single => Mode::Single,
        Mode::Opened if byte == b'"' => Mode::Doubled,
        Mode::Double if byte == b'"' => Mode::Closed,
        Mode::Opened | Mode::Double => Mode::Double,
        Mode::Doubled if byte == b'"' => Mode::Triple(0),
        Mode::Doubled | Mode::Closed => behind_mark(byte),
        Mode::Triple(marks) => in_triple(marks, byte),
        Mode::Torn => Mode::Torn,
        Mode::Comment => Mode::Comment,
    }
}

/// Whether a mode stands in triple quotes.
pub(crate) fn is_triple(mode: Mode) -> bool
    ensures { result ≡ is_triple mode }
{
    matches!(mode, Mode::Triple(_))
}
