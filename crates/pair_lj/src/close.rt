//! The fault of a pair.

use thiserror::Error;

/// Two atoms are too close, or a component of their force is too great.
#[derive(Clone, Copy, Debug, PartialEq, Eq, Error)]
#[error("two atoms are too close")]
pub struct Close;
