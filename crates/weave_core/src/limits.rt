//! The limits of a plan and of those who work on it.
ghost use Rattle.std.specs.Prelude.{◌≡◌, ◌^◌, ◌-◌};

/// The shares of a board: as many as there may be workers.
pub const SHARES: u32 = 64;

/// The most pieces that a board may have.
pub const MAX_PIECES: u32 = 512;

/// The greatest magnitude of one add, in units of the word.
pub const MAX_ADD: u64 = 1 << 42;

/// Stands in a fault word for no key. Every key is less, or as good as none.
pub const NO_KEY: u64 = u64::MAX;

/// The limits as numbers, each by its name: a law, which does nothing when it runs.
pub fn plan_limits_are_these_numbers()
    ensures shares { SHARES ≡ 64 }
    ensures pieces { MAX_PIECES ≡ 512 }
    ensures add { MAX_ADD ≡ 2 ^ 42 }
    ensures no_key { NO_KEY ≡ 2 ^ 64 - 1 }
{}
