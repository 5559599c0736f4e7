//! What a worker has in hand, from one step of its piece to the next.
ghost use Rattle.std.specs.Prelude.{◌≡◌, ◌^◌, ◌<◌, OnSome};
ghost use Rattle.weave_core.specs.Machine.{is_played, still, drawn, next_add, next_key, past_add, past_key, played_of};

use crate::event::Hand;
use crate::plan::{Piece, Plan};

impl Piece {
    // Whether so many adds and, where lowered, the key are all of it.
    fn is_played(&self, played: usize, lowered: bool) -> bool
        ensures { result ≡ is_played self.now played lowered }
    {
        self.adds.len() <= played && (lowered || self.key.is_none())
    }
}

impl Plan {
    // Holding the piece, or nothing where all of it is played.
    fn still(&self, piece: usize, played: usize, lowered: bool) -> Hand
        ensures { result ≡ still self.now piece played lowered }
    {
        let Some(work) = self.pieces.get(piece) else {
            return Hand::Free;
        };
        if work.is_played(played, lowered) {
            Hand::Free
        } else {
            Hand::Holds(piece, played, lowered)
        }
    }

    // After a claim that drew this number.
    pub(crate) fn drawn(&self, number: u64) -> Hand
        ensures { result ≡ drawn self.now number }
    {
        if number < self.pieces.len() as u64 {
            self.still(number as usize, 0, false)
        } else {
            Hand::Missed
        }
    }

    // The add to play next, if one is left. It tells that there is room to count it.
    pub(crate) fn next_add(&self, hand: Hand) -> Option<(u32, i64)>
        ensures add { result ≡ next_add self.now hand }
        ensures room { OnSome result (played_of hand < 2 ^ 63) }
    {
        let Hand::Holds(piece, played, _) = hand else {
            return None;
        };
        let Some(work) = self.pieces.get(piece) else {
            return None;
        };
        if played < work.adds.len() {
            work.adds.get(played)
        } else {
            None
        }
    }

    // After the next add.
    pub(crate) fn past_add(&self, hand: Hand) -> Hand
        requires { played_of hand < 2 ^ 63 }
        ensures { result ≡ past_add self.now hand }
    {
        match hand {
            Hand::Holds(piece, played, lowered) => self.still(piece, played + 1, lowered),
            _ => hand,
        }
    }

    // The key to play, if it is there and not yet played.
    pub(crate) fn next_key(&self, hand: Hand) -> Option<u64>
        ensures { result ≡ next_key self.now hand }
    {
        let Hand::Holds(piece, _, lowered) = hand else {
            return None;
        };
        if lowered {
            return None;
        }
        let Some(work) = self.pieces.get(piece) else {
            return None;
        };
        work.key
    }

    // After the key.
    pub(crate) fn past_key(&self, hand: Hand) -> Hand
        ensures { result ≡ past_key self.now hand }
    {
        match hand {
            Hand::Holds(piece, played, _) => self.still(piece, played, true),
            _ => hand,
        }
    }
}
