//! Data files: the box, the atoms and what binds them, masses and coefficients, as lines of text.
#![tactic(auto)]

mod atom_rows;
mod bond_rows;
mod contents;
mod fault;
mod fields;
mod header;
mod keywords;
mod read;
mod reading;
mod rows;
mod sections;
mod side;
mod tables;
mod words;

pub use contents::{AngleLine, BondLine, DataSet, PairLine};
pub use fault::{DataFault, DataRefusal};
pub use read::read_data;
