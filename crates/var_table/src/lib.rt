//! The variables of a script: index variables, loops, strings, and those that hold formulas.
#![tactic(auto)]

mod search;
mod source;
mod styles;
mod table;
mod variable;

pub use source::Source;
pub use styles::VarStyle;
pub use table::Vars;
