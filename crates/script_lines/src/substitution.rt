//! What stands for the names and formulas in words.
ghost use Rattle.std.specs.Prelude.{◌≡◌, ◌+◌, ◌++◌, ◌^◌, ◌<◌, ◌≤◌, ℕ, List, Result, Ok, Err, [], cond, IfErr, IfOk, OnOk};
ghost use Rattle.fx_num.specs.declared.faults.VarFault.{VarFault};
ghost use Rattle.script_lines.specs.declared.refusals.ExpandRefusal.TheVariants as refusal;
ghost use Rattle.script_lines.specs.Substitution.{blank_words, depth_behind, dollar_at, dollar_step, expansion, formula_step, is_name_byte, name_step, open_in, step, substitution, value_step, Makes, RefusesExpansion};
ghost use Rattle.script_lines.specs.Table.{is_no_memory, Answers};

use crate::modes::is_blank;
use crate::refusals::ExpandRefusal;
use crate::texts::Texts;
use crate::words::RawWords;
use fx_num::{FormulaFault, NoMemory, Seq, Text, VarFault, Words};
use std::alloc::Global;

/// Where a byte of a text stands.
#[derive(Drop)]
pub(crate) enum Reference {
    /// In neither a name nor a formula.
    Outside,
    /// Behind a `$`.
    Dollar,
    /// In `${ }`, behind these bytes of the name.
    Name(Text),
    /// In `$( )`, where so many parentheses are open, behind these bytes of the formula.
    Formula(usize, Text),
}

/// Whether a byte may be a name behind a `$`: a letter, a digit or `_`.
fn is_name_byte(byte: u8) -> bool
    ensures { result ≡ is_name_byte byte }
{
    byte.is_ascii_alphanumeric() || byte == b'_'
}

/// Where the last `$` stands, at a byte.
fn dollar_at(reference: &Reference, place: usize, at: usize) -> usize
    ensures { result ≡ dollar_at reference.now place at }
{
    match reference {
        Reference::Outside => place,
        Reference::Dollar | Reference::Name(_) | Reference::Formula(_, _) => at,
    }
}

/// The refusal for a fault of the table.
fn refusal_of(fault: VarFault) -> ExpandRefusal
    ensures { result ≡ cond (is_no_memory fault) refusal.NoMemory (refusal.Inner fault) }
{
    match fault {
        VarFault::NoMemory | VarFault::Formula(FormulaFault::NoMemory) => ExpandRefusal::NoMemory,
        other => ExpandRefusal::Inner(other),
    }
}

/// Appends the text that a name or formula stands for.
fn append_value(value: Result<Text, VarFault>, out: &mut Text) -> Result<Reference, ExpandRefusal>
    ensures makes { (meant : Result (List ℕ) VarFault) → Answers value meant → Makes (value_step meant) result out.old out.new }
    ensures closed { IfOk result (λ next. open_in next ≡ 0) }
{
    match value {
        Ok(text) => {
            out.push(text.as_bytes())?;
            Ok(Reference::Outside)
        }
        Err(fault) => Err(refusal_of(fault)),
    }
}

/// A byte behind a `$`.
fn dollar_step<T: Texts>(
    alloc: Global,
    at: usize,
    byte: u8,
    texts: &T,
    out: &mut Text,
) -> Result<Reference, ExpandRefusal>
    ensures makes { Makes (dollar_step (T.table texts.now) at byte) result out.old out.new }
    ensures shallow { IfOk result (λ next. open_in next ≤ 1) }
{
    if byte == b'{' {
        Ok(Reference::Name(Text::new(alloc)))
    } else if byte == b'(' {
        Ok(Reference::Formula(1, Text::new(alloc)))
    } else if is_name_byte(byte) {
        append_value(texts.name_text(alloc, &[byte]), out)
    } else {
        Err(ExpandRefusal::BadDollar(at))
    }
}

/// A byte in `${ }`.
fn name_step<T: Texts>(
    alloc: Global,
    mut name: Text,
    at: usize,
    byte: u8,
    texts: &T,
    out: &mut Text,
) -> Result<Reference, ExpandRefusal>
    ensures makes { Makes (name_step (T.table texts.now) name at byte) result out.old out.new }
    ensures shallow { IfOk result (λ next. open_in next ≡ 0) }
{
    if byte != b'}' {
        name.push(&[byte])?;
        return Ok(Reference::Name(name));
    }
    if name.as_bytes().is_empty() {
        return Err(ExpandRefusal::BadDollar(at));
    }
    append_value(texts.name_text(alloc, name.as_bytes()), out)
}

/// How many parentheses are open behind a byte of a formula.
fn depth_behind(depth: usize, byte: u8) -> usize
    requires { depth + 1 < 2 ^ 64 }
    ensures { result ≡ depth_behind depth byte }
{
    match byte {
        b'(' => depth + 1,
        b')' => depth.saturating_sub(1),
        _ => depth,
    }
}

/// A byte in `$( )`.
fn formula_step<T: Texts>(
    alloc: Global,
    depth: usize,
    mut text: Text,
    byte: u8,
    texts: &T,
    out: &mut Text,
) -> Result<Reference, ExpandRefusal>
    requires { depth + 1 < 2 ^ 64 }
    ensures makes { Makes (formula_step (T.table texts.now) depth text byte) result out.old out.new }
    ensures shallow { IfOk result (λ next. open_in next ≤ depth + 1) }
{
    if byte == b')' && depth <= 1 {
        return append_value(texts.formula_text(alloc, text.as_bytes()), out);
    }
    text.push(&[byte])?;
    Ok(Reference::Formula(depth_behind(depth, byte), text))
}

/// A byte of a text whose last `$` stands at `at`. What it adds is appended to `out`.
fn step<T: Texts>(
    alloc: Global,
    reference: Reference,
    at: usize,
    byte: u8,
    texts: &T,
    out: &mut Text,
) -> Result<Reference, ExpandRefusal>
    requires { open_in reference + 1 < 2 ^ 64 }
    ensures makes { Makes (step (T.table texts.now) reference at byte) result out.old out.new }
    ensures shallow { IfOk result (λ next. open_in next ≤ open_in reference + 1) }
{
    match reference {
        Reference::Outside if byte == b'$' => Ok(Reference::Dollar),
        Reference::Outside => {
            out.push(&[byte])?;
            Ok(Reference::Outside)
        }
        Reference::Dollar => dollar_step(alloc, at, byte, texts, out),
        Reference::Name(name) => name_step(alloc, name, at, byte, texts, out),
        Reference::Formula(depth, text) => formula_step(alloc, depth, text, byte, texts, out),
    }
}

/// A text in which `${name}`, `$c` with one letter, digit or `_`, and `$(formula)` are replaced by
/// what they stand for.
///
/// # Errors
///
/// The first `$` from the left that stands for nothing, or why the first name or formula has no text.
pub fn expand<T: Texts>(alloc: Global, text: &[u8], texts: &T) -> Result<Text, ExpandRefusal>
    ensures expanded { IfOk result (λ out. expansion (T.table texts.now) text.now ≡ Ok out) }
    ensures refused { IfErr result (λ why. RefusesExpansion why (expansion (T.table texts.now) text.now)) }
{
    let mut out = Text::new(alloc);
    let mut reference = Reference::Outside;
    let mut at = 0;
    for (i, byte) in text.iter().enumerate() {
        at = dollar_at(&reference, i, at);
        reference = step(alloc, reference, at, *byte, texts, &mut out)?;
    }
    match reference {
        Reference::Outside => Ok(out),
        Reference::Dollar | Reference::Name(_) | Reference::Formula(_, _) => {
            Err(ExpandRefusal::BadDollar(at))
        }
    }
}

/// Appends the words of a text between its blanks.
fn push_words(alloc: Global, text: &[u8], words: &mut Words) -> Result<(), NoMemory>
    ensures { OnOk result (words.new ≡ words.old ++ blank_words [] text.now) }
{
    let mut word = Text::new(alloc);
    for byte in text {
        if !is_blank(*byte) {
            word.push(&[*byte])?;
        } else if !word.as_bytes().is_empty() {
            words.push(word)?;
            word = Text::new(alloc);
        }
    }
    if !word.as_bytes().is_empty() {
        words.push(word)?;
    }
    Ok(())
}

/// The words that the words of a line stand for. A quoted word stands for itself. In another one names
/// and formulas are replaced, and the text is split at its blanks.
///
/// # Errors
///
/// That of [`expand`] for the first word that has one, with the place in the text of that word.
pub fn words_of<T: Texts>(alloc: Global, raw: &RawWords, texts: &T) -> Result<Words, ExpandRefusal>
    ensures words { IfOk result (λ words. substitution (T.table texts.now) raw.now ≡ Ok words) }
    ensures refused { IfErr result (λ why. RefusesExpansion why (substitution (T.table texts.now) raw.now)) }
{
    let mut words = Seq::new(alloc);
    for word in raw.as_slice() {
        if word.quoted {
            words.push(word.text.copy(alloc)?)?;
        } else {
            let text = expand(alloc, word.text.as_bytes(), texts)?;
            push_words(alloc, text.as_bytes(), &mut words)?;
        }
    }
    Ok(words)
}
