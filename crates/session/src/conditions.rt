//! Conditions of `if`.
ghost use Rattle.meaning.specs.Answers.{Gets};
ghost use Rattle.meaning.specs.Conditions.{are_texts, compared, condition, has_operator, is_operand, is_operator_byte, texts_compared};
ghost use Rattle.meaning.specs.Sound.{IsSoundBody};
ghost use Rattle.meaning.specs.Variables.{formula_of};
ghost use Rattle.script_lines.specs.Substitution.{blank_words};
ghost use Rattle.std.specs.Prelude.{◌≡◌, ◌++◌, [], IfOk, IfSome, OnOk};

use crate::texts::text_of;
use fx_num::{NoMemory, NumError, Seq, Text, Words, read_decimal};
use meaning::{Settings, SettingsRefusal, known_in, valued};
use std::alloc::Global;
use variable_values::formula_value;

/// Whether this is a parenthesis or a character of operators.
fn is_operator_byte(byte: u8) -> bool
    ensures { result ≡ is_operator_byte byte }
{
    matches!(
        byte,
        b'(' | b')'
            | b'^'
            | b'-'
            | b'!'
            | b'*'
            | b'/'
            | b'%'
            | b'+'
            | b'<'
            | b'>'
            | b'='
            | b'&'
            | b'|'
    )
}

/// Whether a word has one.
fn has_operator(word: &[u8]) -> bool
    ensures { result ≡ has_operator word.now }
{
    for byte in word {
        if is_operator_byte(*byte) {
            return true;
        }
    }
    false
}

/// Whether a word begins as an operand of a formula: a number, or the name of a variable or a compute.
fn is_operand(word: &[u8]) -> bool
    ensures { result ≡ is_operand word.now }
{
    let is_number = !matches!(
        read_decimal(word),
        Err(NumError::NotNumber | NumError::TooManyDigits)
    );
    is_number || word.starts_with(b"v_") || word.starts_with(b"c_")
}

/// Whether two words are compared as texts.
fn are_texts(a: &[u8], b: &[u8]) -> bool
    ensures { result ≡ are_texts a.now b.now }
{
    !has_operator(a) && !has_operator(b) && !(is_operand(a) && is_operand(b))
}

/// What a comparison of two words says.
fn compared(a: &Text, sign: &Text, b: &Text) -> Option<bool>
    ensures { result ≡ compared a.now sign.now b.now }
{
    match sign.as_bytes() {
        b"==" => Some(a.same(b)),
        b"!=" => Some(!a.same(b)),
        _ => None,
    }
}

/// What the comparison of texts says, where the words are one.
fn texts_compared(words: &[Text]) -> Option<bool>
    ensures { result ≡ texts_compared words.now }
{
    match words {
        [a, sign, b] if are_texts(a.as_bytes(), b.as_bytes()) => compared(a, sign, b),
        _ => None,
    }
}

/// The words of a text between its blanks.
fn blank_words(alloc: Global, text: &[u8]) -> Result<Words, NoMemory>
    ensures { IfOk result (λ words. words ≡ blank_words [] text.now) }
{
    let mut words = Seq::new(alloc);
    let mut word = Text::new(alloc);
    for byte in text {
        if *byte != b' ' && *byte != b'\t' {
            word.push(&[*byte])?;
        } else if !word.as_bytes().is_empty() {
            words.push(word)?;
            word = Text::new(alloc);
        }
    }
    if !word.as_bytes().is_empty() {
        words.push(word)?;
    }
    Ok(words)
}

/// The value of a formula's text, in units.
fn formula_of(alloc: Global, settings: &Settings, text: &Text) -> Result<i64, SettingsRefusal>
    requires sound { IfSome settings.now.body IsSoundBody }
    ensures { Gets (formula_of settings.now text.now) result }
{
    let known = known_in(alloc, settings)?;
    valued(formula_value(alloc, &settings.vars, text.as_bytes(), &known, 0))
}

/// Whether a condition holds.
pub(crate) fn condition(
    alloc: Global,
    settings: &Settings,
    text: &Text,
) -> Result<bool, SettingsRefusal>
    requires sound { IfSome settings.now.body IsSoundBody }
    ensures { Gets (condition settings.now text.now) result }
{
    let text = text_of(alloc, settings, text)?;
    let words = blank_words(alloc, text.as_bytes())?;
    if let Some(holds) = texts_compared(words.as_slice()) {
        return Ok(holds);
    }
    let value = formula_of(alloc, settings, &text)?;
    Ok(value != 0)
}
