//! The fault of a bond or an angle.

use thiserror::Error;

/// Atoms that a bond or an angle joins are at one place or too far apart, or a component of their
/// force is too great.
#[derive(Clone, Copy, Debug, PartialEq, Eq, Error)]
#[error("a bond or an angle is broken")]
pub struct Broken;
