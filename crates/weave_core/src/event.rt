//! The steps of the machine, and what a worker has in hand between them.

/// One step of one worker, by the worker's number.
#[derive(Clone, Copy)]
pub enum Event {
    /// The worker claims the next piece.
    Claim(u32),
    /// The worker plays the next add of the piece in hand.
    Add(u32),
    /// The worker lowers the fault word to the key of the piece in hand.
    Lower(u32),
}

/// What a worker has in hand.
#[derive(Clone, Copy)]
pub enum Hand {
    /// Nothing: the worker may claim.
    Free,
    /// Nothing, since a claim was in vain: the worker is done.
    Missed,
    /// The piece of this number, how many of its adds are played, and whether its key is.
    Holds(usize, usize, bool),
}
