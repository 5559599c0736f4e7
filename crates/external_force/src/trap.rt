//! The rule of the program.
ghost use Rattle.std.specs.Prelude.{◌≡◌};
ghost use Rattle.external_force.specs.Views.{IsNear};
ghost use Rattle.external_force.specs.Trap.{back};

use crate::rule::PullRule;
use crate::view::ExternalView;
use fx_num::V3;

/// The harmonic trap of stiffness 1 about the origin: the force on an atom at x is -x.
pub struct Trap;

impl PullRule for Trap {
    ghost use Rattle.std.proofs.Common.{refl};
    ghost use Rattle.external_force.specs.Trap.{back, back_small};

    ghost pull = { λ id kind x. back x };

    ghost three = { λ id kind x. refl };

    ghost small = { λ v near. back_small v.x near.x };
}

/// The force of the trap on an atom, in units of 2^-24.
pub fn trap_force(view: &ExternalView) -> V3
    requires near { IsNear view.now }
    ensures is { result ≡ back view.now.x }
{
    [-view.x[0], -view.x[1], -view.x[2]]
}
