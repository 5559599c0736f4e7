//! What a callback is to answer.
ghost use Rattle.std.specs.Prelude.{◌≡◌, ◌^◌, pos};

/// The greatest magnitude of a component of an external force, in units of 2^-24.
pub const MAX_PULL: i64 = 1 << 42;

/// A rule of forces: what is meant by `fix external`. It is a meaning alone, and nothing of it runs.
pub trait PullRule: Sync {
    ghost use Rattle.std.specs.Prelude.{◌≡◌, ℕ, ℤ, List, length, unsigned_abs};
    ghost use Rattle.external_force.specs.declared.rule.TheConstants.{MAX_PULL};
    ghost use Rattle.external_force.specs.declared.view.ExternalView.{ExternalView};
    ghost use Rattle.box_geo.specs.Sides.{IsWithin};
    ghost use Rattle.external_force.specs.Views.{IsNear};

    /// The force on an atom of this id and type at this position.
    ghost pull: { ℕ → ℕ → List ℤ → List ℤ };
    /// It has three components.
    ghost three: { (id kind : ℕ) (x : List ℤ) → length (pull id kind x) ≡ 3 };
    /// None of them is beyond the limit where the position is near.
    ghost small: { (v : ExternalView) → IsNear v → IsWithin (unsigned_abs MAX_PULL) (pull v.id v.kind v.x) };
}

/// The limit of a pull as a number: a law, which does nothing when it runs.
pub fn pull_limit_is_this_number()
    ensures { MAX_PULL ≡ pos (2 ^ 42) }
{}
