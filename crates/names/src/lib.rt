//! Names of files, and ids.
#![tactic(auto)]

mod files;
mod ids;

pub use files::{is_compressed, is_file_name};
pub use ids::{is_compute, is_id};
