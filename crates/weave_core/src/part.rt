//! What one of those who share the work has done and holds.

use std::collections::LinkedList;

/// What one holder has: shares of the board, the pieces that it claimed, how often it claimed in vain,
/// the adds that it made, each a word and a number, and the least key of its faults.
///
/// It exists in contracts and proofs alone: no value of it is made.
pub struct Part {
    pub shares: u32,
    pub pieces: LinkedList<u32>,
    pub misses: u32,
    pub adds: LinkedList<(u32, i64)>,
    pub key: u64,
}
