//! The Lennard-Jones pair term with a cutoff, and the table of its coefficients.
#![tactic(auto)]

mod close;
mod coefficients;
mod evaluate;
mod force;
mod guess;
mod laws;
mod magnitudes;
mod pair_settings;
mod plain;
mod quick;
mod signs;
mod table;
mod unset;

pub use close::Close;
pub use coefficients::Coefficients;
pub use guess::Guess;
pub use laws::{
    a_whole_weight_changes_nothing, pair_term_is_odd, pair_terms_are_bounded, pairs_have_no_order,
};
pub use pair_settings::{PairCoefficients, PairSettings};
pub use table::PairTable;
pub use unset::Unset;
