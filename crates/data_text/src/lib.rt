//! Written data files: the box, the masses, the atoms and what binds them, as a text of lines.
#![tactic(auto)]

mod header;
mod rows;
mod sections;
mod words;
mod write;

pub use write::write_data;
