//! The numbers of a window.

use crate::sums::Sums;

/// The numbers of a window of averages.
#[derive(Drop)]
pub struct WindowParts {
    /// There is a sample each so many steps.
    pub every: u64,
    /// A window has so many samples.
    pub repeat: u64,
    /// A window ends at each multiple of this step.
    pub freq: u64,
    /// The window's last step, which is its last sample step.
    pub end: u64,
    /// So many samples were taken.
    pub samples: u64,
    /// Their sums, one for each value.
    pub sums: Sums,
}
