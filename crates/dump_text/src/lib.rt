//! Dump frames: the box and the atoms of a group at a step, as a text of lines.
#![tactic(auto)]

mod cells;
mod columns;
mod frames;
mod header;
mod members;
mod rows;

pub use columns::{Column, DumpSpec, keywords_name_columns, style_atom, style_custom};
pub use frames::frame;
pub use members::each_id_has_its_row;
