//! The lines of a script, their words, and what stands for the names and formulas in them.
#![tactic(auto)]

mod flags;
mod joining;
mod modes;
mod physical;
mod reading;
mod refusals;
mod script;
mod substitution;
mod texts;
mod words;

pub use physical::{PhysicalLine, first_line};
pub use refusals::{ExpandRefusal, LineRefusal};
pub use script::{LineResult, Place, ScriptLine, line_from, next_line};
pub use substitution::{expand, words_of};
pub use texts::Texts;
pub use words::{RawWord, RawWords};
