//! Thermo output: the header, a line of numbers, and the footer of a run.
#![tactic(auto)]

mod cells;
mod columns;
mod rows;

pub use columns::{Columns, Keyword, style_one};
pub use rows::{footer, header, line};
