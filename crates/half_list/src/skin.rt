//! When a list is stale.
ghost use Rattle.std.specs.Prelude.{◌≡◌, ◌*◌, ◌^◌, pos, ◌≤ℤ◌, nat_lt, unsigned_abs};

use box_geo::limits::MAX_SKIN;

/// Whether an atom has moved more than half the skin from its reference, by the square of how far it
/// has moved, in units of 2^-48; a list that was built there may then lack a pair.
pub fn stale(moved2: i128, skin: i64) -> bool
    requires moved { (pos 0 ≤ℤ moved2) × (moved2 ≤ℤ pos (2 ^ 100)) }
    requires skin { (pos 0 ≤ℤ skin) × (skin ≤ℤ MAX_SKIN) }
    ensures { result ≡ nat_lt (unsigned_abs skin * unsigned_abs skin) (4 * unsigned_abs moved2) }
{
    let skin = skin.unsigned_abs() as u128;
    4 * moved2.unsigned_abs() > skin * skin
}
