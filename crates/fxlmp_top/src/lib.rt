//! The top call of the program, [`run_words`]: from the words of the command line and the files on a
//! shelf to the pieces of the serial meaning and its status.
#![tactic(auto)]

mod asked;
mod start;
mod top;
mod words;

pub use asked::{Asked, Definition, LogChoice, ScriptName, Source, Wanted};
pub use meaning::Code;
pub use session::Status;
pub use top::{run_surely, run_words};
