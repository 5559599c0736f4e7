//! What a step of a flow comes to.

use fx_num::Text;
use script_lines::RawWords;

/// What a step of a flow comes to.
#[derive(Drop)]
pub enum FlowEvent {
    /// A line to be run.
    Line {
        /// The file that it stands in.
        file: Text,
        /// The number of its first physical line, from 1.
        number: u32,
        /// Its words, as they stand in it.
        words: RawWords,
    },
    /// No open file has a line left.
    End,
}
