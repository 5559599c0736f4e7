//! The words of formulas: keywords, names of functions, and names of variables and computes.
ghost use Rattle.std.specs.Prelude.{◌≡◌, ◌<◌, ◌||◌, ◌&&◌, ◌==◌, nat_eq, length, drop, ℕ, [], slice_index_or};
ghost use Rattle.std.specs.List.{list_any, starts_with};
ghost use Rattle.std.specs.Str.{bytes_eq};
ghost use Rattle.formula.specs.Words.{words, keywords, function_of, has_name_mark, is_operand_name, is_word_front};

use crate::tree::Function;
use names::is_id;

/// How many words there are, the names of functions first.
const WORDS: usize = 29;

/// How many of them are names of functions.
const FUNCTIONS: usize = 5;

/// The word of this number.
#[tactic(auto, unfolding(crate::specs::Words::words, crate::specs::Words::keywords))]
fn word_at(at: usize) -> &'static [u8]
    requires { at < 29 }
    ensures { result.now ≡ slice_index_or words at [] }
{
    match at {
        0 => b"sqrt",
        1 => b"abs",
        2 => b"floor",
        3 => b"ceil",
        4 => b"round",
        5 => b"step",
        6 => b"atoms",
        7 => b"dt",
        8 => b"time",
        9 => b"vol",
        10 => b"lx",
        11 => b"ly",
        12 => b"lz",
        13 => b"temp",
        14 => b"press",
        15 => b"pe",
        16 => b"ke",
        17 => b"etotal",
        18 => b"epair",
        19 => b"emol",
        20 => b"id",
        21 => b"type",
        22 => b"mass",
        23 => b"x",
        24 => b"y",
        25 => b"z",
        26 => b"vx",
        27 => b"vy",
        _ => b"vz",
    }
}

/// The function of a name.
pub fn function_of(name: &[u8]) -> Option<Function>
    ensures { result ≡ function_of name.now }
{
    match name {
        b"sqrt" => Some(Function::Sqrt),
        b"abs" => Some(Function::Abs),
        b"floor" => Some(Function::Floor),
        b"ceil" => Some(Function::Ceil),
        b"round" => Some(Function::Round),
        _ => None,
    }
}

/// Whether the text begins with the mark of a variable or a compute.
fn has_name_mark(text: &[u8]) -> bool
    ensures { result ≡ has_name_mark text.now }
{
    text.starts_with(b"v_") || text.starts_with(b"c_")
}

/// Whether some word begins with the text.
fn begins_word(text: &[u8]) -> bool
    ensures { result ≡ list_any (λ word. starts_with nat_eq word text.now) words }
{
    for at in 0..WORDS {
        if word_at(at).starts_with(text) {
            return true;
        }
    }
    false
}

/// Whether the text is a keyword.
fn is_keyword(text: &[u8]) -> bool
    ensures { result ≡ list_any (λ word. bytes_eq word text.now) keywords }
{
    for at in FUNCTIONS..WORDS {
        if word_at(at) == text {
            return true;
        }
    }
    false
}

/// Whether the text is an operand with a name: a keyword, `v_NAME` or `c_ID`.
pub fn is_operand_name(text: &[u8]) -> bool
    ensures { result ≡ is_operand_name text.now }
{
    if is_keyword(text) {
        return true;
    }
    has_name_mark(text) && is_id(&text[2..])
}

/// Whether a word begins with the text.
pub fn is_word_front(text: &[u8]) -> bool
    ensures { result ≡ is_word_front text.now }
{
    if begins_word(text) {
        return true;
    }
    has_name_mark(text) && (text.len() == 2 || is_id(&text[2..]))
}
