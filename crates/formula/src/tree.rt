//! A formula as a tree. A place counts the bytes of the formula's text from 0.

use fx_num::Text;
use sqlite_items::Boxed;

/// An operator between two operands, from the loosest to the tightest.
#[derive(Clone, Copy, PartialEq, Eq)]
pub enum Operator {
    /// `||`
    Or,
    /// `&&`
    And,
    /// `==`
    Equal,
    /// `!=`
    NotEqual,
    /// `<`
    Less,
    /// `<=`
    LessEqual,
    /// `>`
    Greater,
    /// `>=`
    GreaterEqual,
    /// `+`
    Add,
    /// `-`
    Subtract,
    /// `*`
    Multiply,
    /// `/`
    Divide,
    /// `%`
    Remainder,
    /// `^`
    Power,
}

/// An operator before one operand.
#[derive(Clone, Copy, PartialEq, Eq)]
pub enum Sign {
    /// `-`
    Minus,
    /// `!`
    Not,
}

/// A function of one number.
#[derive(Clone, Copy, PartialEq, Eq)]
pub enum Function {
    /// The square root.
    Sqrt,
    /// The magnitude.
    Abs,
    /// The greatest whole number that is not above.
    Floor,
    /// The least whole number that is not below.
    Ceil,
    /// The nearest whole number, a tie away from zero.
    Round,
}

/// A formula. A place is that of the first byte of an operand, an operator or a function's name.
#[derive(Drop)]
pub enum Expr {
    /// A decimal text: its place, and its value in units where that is in range.
    Number(u32, Option<i64>),
    /// An operand with a name, as it is written: a keyword, `v_NAME` or `c_ID`.
    Named(u32, Text),
    /// A formula in parentheses.
    Group(Boxed<Expr>),
    /// A function of a formula.
    Call(u32, Function, Boxed<Expr>),
    /// A sign before a formula.
    Signed(Sign, Boxed<Expr>),
    /// An operator between two formulas.
    Binary(u32, Operator, Boxed<Expr>, Boxed<Expr>),
}
