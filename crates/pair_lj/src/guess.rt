//! A guess of the two quotients of a pair term.
ghost use Rattle.std.specs.Prelude.{◌≡◌, ◌*◌, ◌^◌, ◌<◌, ◌≤◌};
ghost use Rattle.fx_num.specs.Rounding.{nearest_of};

use crate::coefficients::Coefficients;
use crate::magnitudes::{cube, square_of_sixth};
use crate::signs::difference;
use fx_num::{guess_float, guess_whole};

/// What a square of sigma over the distance is below, 16 in units of 2^-32. At 16 itself the guess is wrong.
const RATIO_END: u64 = 1 << 36;

/// A guess of the two quotients of a pair term, the first half of [`crate::PairTable::term`]. Nothing is known of it: a
/// term is the same whatever was guessed.
#[derive(Clone, Copy)]
pub struct Guess {
    /// The square of sigma over the distance, in units of 2^-32.
    pub ratio: u64,
    /// Its cube.
    pub sixth: u64,
    /// The square of that.
    pub twelfth: u64,
    /// The magnitude of the force over the displacement.
    pub strength: u64,
    pub ghost low: { ratio ≤ 2 ^ 36 },
    pub ghost sixth_is: { sixth ≡ nearest_of (ratio * ratio * ratio) (2 ^ 64) },
    pub ghost sixth_low: { sixth ≤ 2 ^ 44 },
    pub ghost twelfth_is: { twelfth ≡ nearest_of (sixth * sixth) (2 ^ 32) },
    pub ghost twelfth_low: { twelfth ≤ 2 ^ 56 },
    pub ghost strength_low: { strength < 2 ^ 52 },
}

impl Guess {
    /// The guess for a pair at this square of the distance.
    #[inline(always)]
    pub(crate) fn new(k: Coefficients, r2: u64) -> Guess {
        let r2 = guess_float(r2);
        let ratio = guess_whole(k.about_sigma2 / r2) % RATIO_END;
        let sixth = cube(ratio);
        let twelfth = square_of_sixth(sixth);
        let (_, gap) = difference(2 * twelfth, sixth);
        let strength = guess_whole(k.about_push / r2 * guess_float(gap));
        Guess {
            ratio,
            sixth,
            twelfth,
            strength,
        }
    }
}
