//! What is known after a part of a formula's text: the operators and parentheses that are open, and what is being read.

use crate::stack::Stack;
use crate::tree::{Expr, Function, Operator, Sign};
use fx_num::Text;

/// What waits for an operand to its right, or for its closing parenthesis.
#[derive(Drop)]
pub enum Frame {
    /// An open parenthesis.
    Group,
    /// A function with an open parenthesis.
    Call(u32, Function),
    /// A sign.
    Signed(Sign),
    /// An operator with its left operand.
    Left(u32, Operator, Expr),
}

/// What is open, the innermost first, and what is being read.
#[derive(Drop)]
pub enum State {
    /// An operand is wanted.
    Needs(Stack<Frame>),
    /// The parenthesis of a function is wanted.
    Called(Stack<Frame>, u32, Function),
    /// An operand is complete.
    Has(Stack<Frame>, Expr),
    /// In a decimal text, of which this is read so far.
    Number(Stack<Frame>, u32, Text),
    /// In a word, of which this is read so far.
    Word(Stack<Frame>, u32, Text),
    /// Behind an operand and the first byte of an operator that may have two.
    Half(Stack<Frame>, Expr, u32, u8),
}
