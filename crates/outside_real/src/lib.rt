//! The outside over real files and the standard output: the trusted edge of the program.
//!
//! No contract can say what a real file holds, so these forms tell no content. They count their
//! failures, and are proved against the traits of `outside`.
#![tactic(auto)]

mod press;
mod reading;
mod shelf;
mod writing;

pub use press::FilePress;
pub use shelf::FileShelf;

#[cfg(test)]
mod tests;
