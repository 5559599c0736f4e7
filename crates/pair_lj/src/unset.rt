//! The refusal of a table that isn't whole.

use thiserror::Error;

/// A pair of atom types has no coefficients: the first such pair, its lesser type first.
#[derive(Clone, Copy, Debug, PartialEq, Eq, Error)]
#[error("the pair of atom types {0} and {1} has no coefficients")]
pub struct Unset(pub u8, pub u8);
