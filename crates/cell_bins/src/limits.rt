//! The limits of sites and bins; both values belong to the range.
ghost use Rattle.std.specs.Prelude.{◌≡◌, ◌^◌, pos};

/// The greatest magnitude of a component of a position.
pub const MAX_COORDINATE: i64 = 1 << 36;
/// The greatest reach, in units; the least is 1.
pub const MAX_REACH: i64 = 1 << 29;

/// The limits as numbers, each by its name: a law, which does nothing when it runs.
pub fn bin_limits_are_these_numbers()
    ensures coordinate { MAX_COORDINATE ≡ pos (2 ^ 36) }
    ensures reach { MAX_REACH ≡ pos (2 ^ 29) }
{}
