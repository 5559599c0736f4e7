//! The concurrent core without threads: what workers hold, how it agrees with the shared words, and a
//! machine that plays any order of their steps.
//!
//! A plan is a list of pieces of work. A piece has adds, each to a force word, and at most one key of a
//! fault. Workers claim pieces from a counter, play their adds, and lower the fault word to their keys.
//! Whatever the order of these steps, each piece is claimed once, each force word ends as the sum of all
//! its adds, and the fault word as the least key: the contract of [`order_free`] says so.
#![tactic(auto)]

mod event;
mod hand;
mod laws;
mod limits;
mod part;
mod plan;
mod valid;
mod weave;

pub use event::{Event, Hand};
pub use laws::order_free;
pub use limits::{MAX_ADD, MAX_PIECES, NO_KEY, SHARES, plan_limits_are_these_numbers};
pub use part::Part;
pub use plan::{Adds, Piece, Pieces, Plan};
pub use weave::Weave;
