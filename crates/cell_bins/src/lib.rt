//! Bins: sites sorted by cells of space, so that the sites near a place are found without a look at
//! the others.
//!
//! Space is cut into cells as long as the reach along each axis, and the numbers of cells begin anew
//! after so many that there are few cells for each site, however far apart the sites are. The sites
//! stand in one array, cell by cell. [`Bins::around`] goes through the cells round a position.
#![tactic(auto)]

mod around;
mod bins;
mod cells;
mod extent;
mod limits;
mod sorting;

pub use around::{Around, CellsAround};
pub use bins::Bins;
pub use limits::{MAX_COORDINATE, MAX_REACH, bin_limits_are_these_numbers};
