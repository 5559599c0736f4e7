//! Scripts: each line gets what stands for its names, is read as a command, and is carried out. What a line and a script mean is
//! told by the definitions of `meaning`.
#![tactic(auto)]

mod answers;
mod commands;
mod conditions;
mod flow;
mod line;
mod next_line;
mod output;
mod script;
mod session;
mod status;
mod stops;
mod system_files;
mod texts;
mod variables;

pub use commands::execute;
pub use script::{play, refuse};
pub use session::begun_with;
pub use status::Status;
pub use system_files::fetch_script;
