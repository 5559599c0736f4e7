//! What the program does, generic over its objects: [`run_program`] makes of the words of the command
//! line a run, a text or a message, and the number to exit with.
//!
//! A `main` makes the real objects, reads the words with [`read_words`], and calls it.
#![tactic(auto)]

mod messages;
mod request;
mod run;
mod words;

pub use run::run_program;
pub use words::{Unread, read_words};
