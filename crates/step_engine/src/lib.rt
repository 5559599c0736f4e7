//! The engine of a run: forces and steps over one list of atoms.
//!
//! Contracts see an engine as the state of the serial step, with what stands still in a run. The
//! forces, the sums, the state after a step and the fault that ends it are those of the definitions
//! in `serial_step`, which sum all pairs of atoms.
#![tactic(auto)]

mod engine;
mod motion;
mod pairs;
mod reach;
mod rebuild;
mod room;
mod rows;
mod rules;
mod tally;

pub use engine::{Engine, EngineRefusal, StepEnd};
pub use room::edge_too_small;
pub use rules::{ForceField, Rules};
pub use tally::Tally;
