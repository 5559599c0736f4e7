//! Formulas: reading them as trees, and their exact values.
//!
//! Values are whole numbers of units, multiples of 2^-24, of magnitude at most [`MAX_UNITS`](fx_num::MAX_UNITS).
#![tactic(auto)]

mod arithmetic;
mod laws;
mod named;
mod numbers;
mod reading;
mod stack;
mod state;
mod tree;
mod value;
mod words;

pub use arithmetic::{MAX_EXPONENT, exponent_limit_is_this_number};
pub use laws::{
    exactly_the_grammar_is_parsed, operands_are_asked_by_name, operators_group_by_their_levels,
    refused_at_the_first_wrong_byte, texts_of_the_grammar_are_read, texts_spell_their_trees,
};
pub use named::{NamedOperand, Operands, operands};
pub use reading::parse;
pub use tree::{Expr, Function, Operator, Sign};
pub use value::{EvalFault, eval};
