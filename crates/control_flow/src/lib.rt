//! The flow of a run through its scripts: files, labels, includes and the number of lines run.
#![tactic(auto)]

mod event;
mod file;
mod flow;
mod label;
mod refusals;
mod search;

pub use event::FlowEvent;
pub use flow::Flow;
pub use refusals::FlowRefusal;
