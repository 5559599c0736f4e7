//! What commands and scripts mean: the state that a script works on, the codes of refusals, and, in `specs/`, the
//! meaning of each command as one outcome: what it sends, the state after it, and how the script goes on.
//!
//! This crate has types and definitions alone. A family of commands has one file of definitions here, and a file of
//! the same name in each crate above and below that has a part of it.
#![tactic(auto)]

mod code;
mod faults;
mod fix_settings;
mod force;
mod going;
mod known;
mod masses_groups;
mod named;
mod output;
mod pending;
mod progress;
mod refusal;
mod settings;
mod setup;
mod uses;

pub use code::Code;
pub use faults::{fault_code, fault_refusal, valued};
pub use fix_settings::FixSettings;
pub use force::Force;
pub use going::Going;
pub use known::{atom_numbers, known_in, put_number};
pub use masses_groups::{are_massive, ids_in, ids_of, is_all};
pub use named::Named;
pub use output::Output;
pub use pair_lj::{PairCoefficients, PairSettings};
pub use pending::Pending;
pub use progress::Progress;
pub use refusal::{Refusal, SettingsRefusal, put_refusal};
pub use settings::{Body, Settings};
pub use setup::{LatticeChoice, Setup};
pub use uses::{NameUse, UseKind, Uses};
