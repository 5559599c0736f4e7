//! Whether a plan keeps to its words and to the limit of an add.
ghost use Rattle.std.specs.Prelude.{◌↔◌, All, IsTrue};
ghost use Rattle.weave_core.specs.Machine.{IsAdd, IsPlan};

use crate::limits::MAX_ADD;
use crate::plan::{Adds, Plan};

impl Adds {
    // Whether each add is to one of so many words, of a magnitude that is allowed.
    fn are_within(&self, words: u32) -> bool
        ensures { IsTrue result ↔ All (IsAdd words) self.now }
    {
        for place in 0..self.len() {
            let Some((word, value)) = self.get(place) else {
                return false;
            };
            if words <= word || MAX_ADD < value.unsigned_abs() {
                return false;
            }
        }
        true
    }
}

impl Plan {
    /// Whether each add is to one of the plan's words, and of a magnitude of at most `MAX_ADD`.
    pub fn is_valid(&self) -> bool
        ensures { IsTrue result ↔ IsPlan self.now }
    {
        for number in 0..self.pieces.len() {
            let Some(piece) = self.pieces.get(number) else {
                return false;
            };
            if !piece.adds.are_within(self.words) {
                return false;
            }
        }
        true
    }
}
