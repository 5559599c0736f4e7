//! How far a script is.

use crate::pending::Pending;
use control_flow::Flow;

/// How far a script is: the flow through its files, and what an `if` of the last line still runs.
#[derive(Drop)]
pub struct Progress {
    /// The flow through the files.
    pub flow: Flow,
    /// The texts of the commands that are still to run before the next line of a file.
    pub pending: Pending,
}
