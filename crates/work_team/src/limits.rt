//! The limit of a tally.
ghost use Rattle.std.specs.Prelude.{◌≡◌, ◌^◌};

/// The greatest magnitude of each number of the tally of one piece.
pub const MAX_TALLY: u128 = 1 << 112;

/// The limit as a number: a law, which does nothing when it runs.
pub fn tally_limit_is_this_number()
    ensures { MAX_TALLY ≡ 2 ^ 112 }
{}
