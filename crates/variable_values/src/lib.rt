//! The values of variables that hold formulas, and the texts of variables and formulas.
//!
//! Values are whole numbers of units, multiples of 2^-24, of magnitude at most [`MAX_UNITS`](fx_num::MAX_UNITS).
#![tactic(auto)]

mod known;
mod texts;
mod values;

pub use known::Known;
pub use texts::{formula_text, text_of};
pub use values::{formula_value, value_of};
