//! Exact sums in shared words: many threads add to the same words at once, without a lock, and the words
//! hold the sums whatever the order.
//!
//! A [`Board`] has a word that counts claims, a fault word, and three force words per atom. A thread steps
//! with a [`Seat`], which knows what it did. The first seat has all shares; [`Board::split`] makes seats
//! for other threads, and [`Board::join`] takes them in again. Each call is one atomic step, or two.
#![tactic(auto)]

mod board;
mod calls;
mod limits;
mod rule;

pub use board::{Board, Seat};
pub use limits::{MAX_ATOMS, WORDS_PER_ATOM, board_sizes_are_these_numbers};
