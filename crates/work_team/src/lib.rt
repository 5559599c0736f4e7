//! The pieces of a phase, done by several workers over one board: each piece once, and exact sums over all pieces,
//! whatever the schedule.
//!
//! A [`Work`] says what is done for a piece. [`do_all`] lets workers draw pieces from the board until none is left;
//! the calling thread is one of them.
#![tactic(auto)]

mod limits;
mod tally;
mod team;
mod work;
mod worker;

pub use limits::{MAX_TALLY, tally_limit_is_this_number};
pub use tally::Tally;
pub use team::do_all;
pub use work::Work;
