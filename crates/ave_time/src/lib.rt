//! Averages over time: windows that sum samples, and give the averages at their end.
//!
//! A [`Window`] has the sample steps that its three numbers and its end say. Values are pushed at each step: at a sample
//! step they are added to its sums, and at its end it gives the averages and becomes the next window.
#![tactic(auto)]

mod limits;
mod parts;
mod sums;
mod window;

pub use limits::{MAX_END, MAX_REPEAT, MAX_SAMPLE, MAX_VALUES, window_limits_are_these_numbers};
pub use parts::WindowParts;
pub use sums::Sums;
pub use window::Window;
