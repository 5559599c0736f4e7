//! The fixes of a run, in the order in which they were defined.
#![tactic(auto)]

mod fixes;

pub use fixes::{Fix, FixList, FixRefusal, NamedFix};
