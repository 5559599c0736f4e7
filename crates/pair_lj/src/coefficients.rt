//! The coefficients of a pair of atom types.
ghost use Rattle.std.specs.Prelude.{◌≡◌, ◌*◌, ◌^◌, ◌<◌, ◌≤◌};

use std::num::nearest_u64_to_f64;

/// The coefficients of a pair of atom types, in units, within the limits of [`box_geo::limits`], and what a term takes of
/// them alone. The floating-point numbers serve guesses, and no fact is known of them.
#[derive(Clone, Copy)]
pub struct Coefficients {
    /// The depth of the well.
    pub epsilon: u64,
    /// The distance at which the energy is 0 before it is shifted.
    pub sigma: u64,
    /// The distance from which on nothing acts.
    pub cutoff: u64,
    /// The square of the distance at which the energy is 0.
    pub(crate) sigma2: u64,
    /// The square of the cutoff.
    pub(crate) cutoff2: u64,
    /// 24 times the depth of the well, times 2^24.
    pub(crate) push: u64,
    /// About sigma2 times 2^32.
    pub(crate) about_sigma2: f64,
    /// About the push.
    pub(crate) about_push: f64,
    pub ghost weak: { epsilon ≤ 2 ^ 32 },
    pub ghost sized: { 0 < sigma },
    pub ghost small: { sigma ≤ 2 ^ 27 },
    pub ghost acting: { 0 < cutoff },
    pub ghost short: { cutoff ≤ 2 ^ 28 },
    pub ghost covered: { sigma ≤ 4 * cutoff },
    pub ghost sigma2_is: { sigma2 ≡ sigma * sigma },
    pub ghost cutoff2_is: { cutoff2 ≡ cutoff * cutoff },
    pub ghost push_is: { push ≡ 24 * epsilon * 2 ^ 24 },
}

impl Coefficients {
    /// The coefficients with these numbers, in units.
    pub(crate) fn new(epsilon: u64, sigma: u64, cutoff: u64) -> Coefficients
        requires weak { epsilon ≤ 2 ^ 32 }
        requires sized { 0 < sigma }
        requires small { sigma ≤ 2 ^ 27 }
        requires acting { 0 < cutoff }
        requires short { cutoff ≤ 2 ^ 28 }
        requires covered { sigma ≤ 4 * cutoff }
        ensures epsilon { result.epsilon ≡ epsilon }
        ensures sigma { result.sigma ≡ sigma }
        ensures cutoff { result.cutoff ≡ cutoff }
    {
        let sigma2 = sigma * sigma;
        let push = 24 * epsilon * (1 << 24);
        Coefficients {
            epsilon,
            sigma,
            cutoff,
            sigma2,
            cutoff2: cutoff * cutoff,
            push,
            about_sigma2: nearest_u64_to_f64(sigma2) * 4294967296.0,
            about_push: nearest_u64_to_f64(push),
        }
    }
}
