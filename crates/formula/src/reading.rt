//! Reading a formula's text byte by byte, with no recursion: what the text nests is on a stack.
ghost use Rattle.std.specs.Prelude.{◌≡◌, ◌+◌, ◌<◌, ◌≤◌, ℕ, [], ◌∷◌, Ok, Err, IfOk, IfErr, Some, None, length};
ghost use Rattle.formula.specs.Reading.{level_of, sign_level, operator_of, begins_pair, pair_of, single_of, sign_of, is_blank, joined, with_operator, close, closed, is_behind_power, signed, operated, number_step, word_step, half_step, after_need, after_call, after_operand, word_end, number_end, ended, outside, step, whole, finish, run, parsed, IsSyntaxFault};

use crate::numbers::{begins_number, is_number_front, literal_of};
use crate::stack::Stack;
use crate::state::{Frame, State};
use crate::tree::{Expr, Function, Operator, Sign};
use crate::words::{function_of, is_operand_name, is_word_front};
use box_geo::limits::MAX_FORMULA_BYTES;
use fx_num::{FormulaFault, NoMemory, Text};
use sqlite_items::Boxed;
use std::alloc::Global;

/// How tightly an operator binds.
fn level_of(operator: Operator) -> u8
    ensures { result ≡ level_of operator }
{
    match operator {
        Operator::Or => 1,
        Operator::And => 2,
        Operator::Equal => 3,
        Operator::NotEqual => 3,
        Operator::Less => 4,
        Operator::LessEqual => 4,
        Operator::Greater => 4,
        Operator::GreaterEqual => 4,
        Operator::Add => 5,
        Operator::Subtract => 5,
        Operator::Multiply => 6,
        Operator::Divide => 6,
        Operator::Remainder => 6,
        Operator::Power => 8,
    }
}

/// How tightly a sign binds: less than `^`, more than all else.
const SIGN_LEVEL: u8 = 7;

/// How tightly a sign binds.
fn sign_level() -> u8
    ensures { result ≡ sign_level }
{
    SIGN_LEVEL
}

/// The operator of one byte that begins no other.
fn operator_of(byte: u8) -> Option<Operator>
    ensures { result ≡ operator_of byte }
{
    match byte {
        b'+' => Some(Operator::Add),
        b'-' => Some(Operator::Subtract),
        b'*' => Some(Operator::Multiply),
        b'/' => Some(Operator::Divide),
        b'%' => Some(Operator::Remainder),
        b'^' => Some(Operator::Power),
        _ => None,
    }
}

/// Whether an operator of two bytes begins with this one.
fn begins_pair(byte: u8) -> bool
    ensures { result ≡ begins_pair byte }
{
    matches!(byte, b'<' | b'>' | b'=' | b'!' | b'&' | b'|')
}

/// The operator of these two bytes.
fn pair_of(first: u8, byte: u8) -> Option<Operator>
    ensures { result ≡ pair_of first byte }
{
    match (first, byte) {
        (b'&', b'&') => Some(Operator::And),
        (b'|', b'|') => Some(Operator::Or),
        (b'<', b'=') => Some(Operator::LessEqual),
        (b'>', b'=') => Some(Operator::GreaterEqual),
        (b'=', b'=') => Some(Operator::Equal),
        (b'!', b'=') => Some(Operator::NotEqual),
        _ => None,
    }
}

/// The operator of this byte alone, which also begins one of two.
fn single_of(first: u8) -> Option<Operator>
    ensures { result ≡ single_of first }
{
    match first {
        b'<' => Some(Operator::Less),
        b'>' => Some(Operator::Greater),
        _ => None,
    }
}

/// The sign of this byte.
fn sign_of(byte: u8) -> Option<Sign>
    ensures { result ≡ sign_of byte }
{
    match byte {
        b'-' => Some(Sign::Minus),
        b'!' => Some(Sign::Not),
        _ => None,
    }
}

/// Whether the byte is a blank or a tab.
fn is_blank(byte: u8) -> bool
    ensures { result ≡ is_blank byte }
{
    byte == b' ' || byte == b'\t'
}

/// The operand with what is open before it, as far as that binds at least so tightly; the rest stays open.
fn joined(
    alloc: Global,
    mut frames: Stack<Frame>,
    mut operand: Expr,
    level: u8,
) -> Result<(Stack<Frame>, Expr), NoMemory>
    ensures { IfOk result (λ r. (r.0, r.1) ≡ joined level frames operand) }
{
    while let Some(frame) = frames.pop() {
        match frame {
            Frame::Signed(sign) if level <= sign_level() => {
                operand = Expr::Signed(sign, Boxed::new(alloc, operand)?);
            }
            Frame::Left(at, operator, left) if level <= level_of(operator) => {
                let left = Boxed::new(alloc, left)?;
                operand = Expr::Binary(at, operator, left, Boxed::new(alloc, operand)?);
            }
            other => {
                frames.push(other)?;
                return Ok((frames, operand));
            }
        }
    }
    Ok((frames, operand))
}

/// What is open behind an operator, which stands behind an operand.
fn with_operator(
    alloc: Global,
    at: u32,
    operator: Operator,
    frames: Stack<Frame>,
    operand: Expr,
) -> Result<Stack<Frame>, NoMemory>
    ensures { IfOk result (λ r. r ≡ with_operator at operator frames operand) }
{
    let (mut frames, left) = joined(alloc, frames, operand, level_of(operator))?;
    frames.push(Frame::Left(at, operator, left))?;
    Ok(frames)
}

/// The state behind a closing parenthesis, where one is open.
fn closed(alloc: Global, frames: Stack<Frame>, operand: Expr) -> Result<Option<State>, NoMemory>
    ensures { IfOk result (λ r. r ≡ closed frames operand) }
{
    let (mut frames, inner) = joined(alloc, frames, operand, 0)?;
    match frames.pop() {
        Some(Frame::Group) => {
            let group = Expr::Group(Boxed::new(alloc, inner)?);
            Ok(Some(State::Has(frames, group)))
        }
        Some(Frame::Call(at, function)) => {
            let call = Expr::Call(at, function, Boxed::new(alloc, inner)?);
            Ok(Some(State::Has(frames, call)))
        }
        _ => Ok(None),
    }
}

/// Whether the last byte that counts was `^`, behind which no sign stands.
fn is_behind_power(frames: &Stack<Frame>) -> bool
    ensures { result ≡ is_behind_power frames.now }
{
    match frames.top() {
        Some(Frame::Left(_, operator, _)) => level_of(*operator) == level_of(Operator::Power),
        _ => false,
    }
}

/// The state behind a byte where an operand is wanted.
fn after_need(
    alloc: Global,
    at: u32,
    byte: u8,
    mut frames: Stack<Frame>,
) -> Result<Option<State>, NoMemory>
    ensures { IfOk result (λ r. r ≡ after_need at byte frames) }
{
    if is_blank(byte) {
        return Ok(Some(State::Needs(frames)));
    }
    if byte == b'(' {
        frames.push(Frame::Group)?;
        return Ok(Some(State::Needs(frames)));
    }
    let text = Text::from_bytes(alloc, [byte].as_slice())?;
    if begins_number(byte) {
        return Ok(Some(State::Number(frames, at, text)));
    }
    if is_word_front(text.as_bytes()) {
        return Ok(Some(State::Word(frames, at, text)));
    }
    signed(sign_of(byte), frames)
}

/// The state behind a sign, if there is one and it may stand here.
fn signed(sign: Option<Sign>, mut frames: Stack<Frame>) -> Result<Option<State>, NoMemory>
    ensures { IfOk result (λ r. r ≡ signed sign frames) }
{
    let Some(sign) = sign else {
        return Ok(None);
    };
    if is_behind_power(&frames) {
        return Ok(None);
    }
    frames.push(Frame::Signed(sign))?;
    Ok(Some(State::Needs(frames)))
}

/// The state behind a byte that follows the name of a function.
fn after_call(
    byte: u8,
    mut frames: Stack<Frame>,
    at: u32,
    function: Function,
) -> Result<Option<State>, NoMemory>
    ensures { IfOk result (λ r. r ≡ after_call byte frames at function) }
{
    if is_blank(byte) {
        return Ok(Some(State::Called(frames, at, function)));
    }
    if byte == b'(' {
        frames.push(Frame::Call(at, function))?;
        return Ok(Some(State::Needs(frames)));
    }
    Ok(None)
}

/// The state behind a byte that follows an operand.
fn after_operand(
    alloc: Global,
    at: u32,
    byte: u8,
    frames: Stack<Frame>,
    operand: Expr,
) -> Result<Option<State>, NoMemory>
    ensures { IfOk result (λ r. r ≡ after_operand at byte frames operand) }
{
    if is_blank(byte) {
        return Ok(Some(State::Has(frames, operand)));
    }
    if byte == b')' {
        return closed(alloc, frames, operand);
    }
    if begins_pair(byte) {
        return Ok(Some(State::Half(frames, operand, at, byte)));
    }
    operated(alloc, at, operator_of(byte), frames, operand)
}

/// The state behind an operator, if there is one.
fn operated(
    alloc: Global,
    at: u32,
    operator: Option<Operator>,
    frames: Stack<Frame>,
    operand: Expr,
) -> Result<Option<State>, NoMemory>
    ensures { IfOk result (λ r. r ≡ operated at operator frames operand) }
{
    match operator {
        None => Ok(None),
        Some(operator) => Ok(Some(State::Needs(with_operator(
            alloc, at, operator, frames, operand,
        )?))),
    }
}

/// The state behind a word, if it is complete.
fn word_end(frames: Stack<Frame>, at: u32, word: Text) -> Option<State>
    ensures { result ≡ word_end frames at word }
{
    if is_operand_name(word.as_bytes()) {
        return Some(State::Has(frames, Expr::Named(at, word)));
    }
    match function_of(word.as_bytes()) {
        None => None,
        Some(function) => Some(State::Called(frames, at, function)),
    }
}

/// The state behind a decimal text, if it is complete.
fn number_end(frames: Stack<Frame>, at: u32, text: &Text) -> Option<State>
    ensures { result ≡ number_end frames at text.now }
{
    match literal_of(text.as_bytes()) {
        None => None,
        Some(units) => Some(State::Has(frames, Expr::Number(at, units))),
    }
}

/// The state behind what was being read, if that is complete.
fn ended(alloc: Global, state: State) -> Result<Option<State>, NoMemory>
    ensures { IfOk result (λ r. r ≡ ended state) }
{
    match state {
        State::Number(frames, at, text) => Ok(number_end(frames, at, &text)),
        State::Word(frames, at, word) => Ok(word_end(frames, at, word)),
        State::Half(frames, operand, at, first) => operated(
            alloc,
            at,
            single_of(first),
            frames,
            operand,
        ),
        other => Ok(Some(other)),
    }
}

/// The state behind a byte that belongs to nothing that was being read.
fn outside(
    alloc: Global,
    at: u32,
    byte: u8,
    state: Option<State>,
) -> Result<Option<State>, NoMemory>
    ensures { IfOk result (λ r. r ≡ outside at byte state) }
{
    match state {
        Some(State::Needs(frames)) => after_need(alloc, at, byte, frames),
        Some(State::Called(frames, place, function)) => after_call(byte, frames, place, function),
        Some(State::Has(frames, operand)) => after_operand(alloc, at, byte, frames, operand),
        _ => Ok(None),
    }
}

/// The state behind a byte while a decimal text is read.
fn number_step(
    alloc: Global,
    at: u32,
    byte: u8,
    frames: Stack<Frame>,
    place: u32,
    text: Text,
) -> Result<Option<State>, NoMemory>
    ensures { IfOk result (λ r. r ≡ number_step at byte frames place text) }
{
    let mut longer = text.copy(alloc)?;
    longer.push([byte].as_slice())?;
    if is_number_front(alloc, &longer)? {
        return Ok(Some(State::Number(frames, place, longer)));
    }
    let state = number_end(frames, place, &text);
    outside(alloc, at, byte, state)
}

/// The state behind a byte while a word is read.
fn word_step(
    alloc: Global,
    at: u32,
    byte: u8,
    frames: Stack<Frame>,
    place: u32,
    word: Text,
) -> Result<Option<State>, NoMemory>
    ensures { IfOk result (λ r. r ≡ word_step at byte frames place word) }
{
    let mut longer = word.copy(alloc)?;
    longer.push([byte].as_slice())?;
    if is_word_front(longer.as_bytes()) {
        return Ok(Some(State::Word(frames, place, longer)));
    }
    let state = word_end(frames, place, word);
    outside(alloc, at, byte, state)
}

/// The state behind a byte that may be the second of an operator.
fn half_step(
    alloc: Global,
    at: u32,
    byte: u8,
    frames: Stack<Frame>,
    operand: Expr,
    place: u32,
    first: u8,
) -> Result<Option<State>, NoMemory>
    ensures { IfOk result (λ r. r ≡ half_step at byte frames operand place first) }
{
    match pair_of(first, byte) {
        Some(operator) => Ok(Some(State::Needs(with_operator(
            alloc, place, operator, frames, operand,
        )?))),
        None => {
            let state = operated(alloc, place, single_of(first), frames, operand)?;
            outside(alloc, at, byte, state)
        }
    }
}

impl State {
    /// The state behind the next byte, or nothing where no formula goes on so.
    fn step(self, alloc: Global, at: u32, byte: u8) -> Result<Option<State>, NoMemory>
        ensures { IfOk result (λ r. r ≡ step at byte self) }
    {
        match self {
            State::Needs(frames) => after_need(alloc, at, byte, frames),
            State::Called(frames, place, function) => after_call(byte, frames, place, function),
            State::Has(frames, operand) => after_operand(alloc, at, byte, frames, operand),
            State::Number(frames, place, text) => number_step(alloc, at, byte, frames, place, text),
            State::Word(frames, place, word) => word_step(alloc, at, byte, frames, place, word),
            State::Half(frames, operand, place, first) => {
                half_step(alloc, at, byte, frames, operand, place, first)
            }
        }
    }

    /// The tree where the text ends, if it may end here.
    fn finish(self, alloc: Global) -> Result<Option<Expr>, NoMemory>
        ensures { IfOk result (λ r. r ≡ finish self) }
    {
        let Some(State::Has(frames, operand)) = ended(alloc, self)? else {
            return Ok(None);
        };
        let (mut frames, tree) = joined(alloc, frames, operand, 0)?;
        match frames.pop() {
            None => Ok(Some(tree)),
            Some(_) => Ok(None),
        }
    }
}

/// Reads a formula as a tree.
///
/// # Errors
/// `Syntax` with the place of the first byte with which the text so far begins no formula, or the
/// text's length where it ends too early; of a text of more than [`MAX_FORMULA_BYTES`] bytes this
/// number. `NoMemory` where memory runs out. There are no others.
#[tactic(auto, unfolding(crate::specs::Reading::parsed))]
pub fn parse(alloc: Global, text: &[u8]) -> Result<Expr, FormulaFault>
    ensures tree { IfOk result (λ tree. parsed text.now ≡ Ok tree) }
    ensures syntax { IfErr result (λ fault. IsSyntaxFault (parsed text.now) fault) }
{
    if text.len() > MAX_FORMULA_BYTES {
        return Err(FormulaFault::Syntax(MAX_FORMULA_BYTES as u32));
    }
    read(alloc, text)
}

/// Reads a text that is not too long.
fn read(alloc: Global, text: &[u8]) -> Result<Expr, FormulaFault>
    requires { length text.now ≤ MAX_FORMULA_BYTES }
    ensures tree { IfOk result (λ tree. run 0 text.now (State.Needs []) ≡ Ok tree) }
    ensures syntax { IfErr result (λ fault. IsSyntaxFault (run 0 text.now (State.Needs [])) fault) }
{
    let mut state = State::Needs(Stack::new(alloc));
    for (i, byte) in text.iter().enumerate() {
        match state.step(alloc, i as u32, *byte)? {
            Some(next) => state = next,
            None => return Err(FormulaFault::Syntax(i as u32)),
        }
    }
    match state.finish(alloc)? {
        Some(tree) => Ok(tree),
        None => Err(FormulaFault::Syntax(text.len() as u32)),
    }
}
