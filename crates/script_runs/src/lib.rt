//! Runs as scripts make them: set-up, steps, and what they show; and how a text of the log is shown.
#![tactic(auto)]

mod judge;
mod lines;
mod numbers;
mod output;
mod parts;
mod runs;
mod steps;

pub use output::show;
pub use runs::run;
