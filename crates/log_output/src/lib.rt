//! Texts of the log that no other crate has: the lines of errors.
#![tactic(auto)]

mod errors;

pub use errors::{budget_text, fault_text, push_whole, refusal_text};
