//! Limits of numbers that commands alone have.
ghost use Rattle.std.specs.Prelude.{◌≡◌, ◌^◌, ◌-◌, pos};
ghost use Rattle.command_words.specs.declared.values.TheConstants.{MAX_WHOLE};

/// The least density of a lattice, 2^-14, in units.
pub const MIN_DENSITY: i64 = 1 << 10;
/// The greatest density of a lattice, 64, in units.
pub const MAX_DENSITY: i64 = 1 << 30;
/// The greatest seed of drawn velocities; the least is 1.
pub const MAX_SEED: u32 = (1 << 31) - 1;
/// The greatest number of a loop variable.
pub const MAX_LOOP: u32 = u32::MAX;
/// The greatest number of samples of an average.
pub const MAX_REPEAT: u64 = 1 << 24;

/// The limits as numbers, each by its name, and the greatest whole number that a word may write: a law,
/// which does nothing when it runs.
pub fn command_limits_are_these_numbers()
    ensures least_density { MIN_DENSITY ≡ pos (2 ^ 10) }
    ensures greatest_density { MAX_DENSITY ≡ pos (2 ^ 30) }
    ensures seed { MAX_SEED ≡ 2 ^ 31 - 1 }
    ensures loop_end { MAX_LOOP ≡ 2 ^ 32 - 1 }
    ensures repeat { MAX_REPEAT ≡ 2 ^ 24 }
    ensures whole { MAX_WHOLE ≡ 9999999999999999999 }
{}
