//! Energies as they are shown.
ghost use Rattle.std.specs.Prelude.{◌≡◌, ◌≤◌, ◌*◌, ◌^◌, ℕ, unsigned_abs};
ghost use Rattle.computes.specs.Quantities.{energy_share};

use fx_num::rdiv;

/// An energy for each of `n` atoms, in units, and 0 without atoms.
#[tactic(auto, unfolding(crate::specs::Quantities::energy_share))]
pub fn share(e: i128, n: u32) -> i128
    requires { unsigned_abs e ≤ 2 ^ 121 }
    ensures is { result ≡ energy_share e n }
    ensures bound { unsigned_abs result ≤ unsigned_abs e }
    ensures small { (b : ℕ) → unsigned_abs e ≤ n * b → unsigned_abs result ≤ b }
{
    if n == 0 { 0 } else { rdiv(e, i128::from(n)) }
}
