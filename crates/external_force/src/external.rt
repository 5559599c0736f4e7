//! A callback with the rule that it answers.
ghost use Rattle.std.specs.Prelude.{◌≡◌, unsigned_abs};
ghost use Rattle.external_force.specs.declared.rule.TheConstants.{MAX_PULL};
ghost use Rattle.external_force.specs.Callbacks.{Keeps};
ghost use Rattle.box_geo.specs.Sides.{IsWithin};
ghost use Rattle.external_force.specs.Views.{IsNear};

use crate::callback::Callback;
use crate::rule::PullRule;
use crate::view::ExternalView;
use fx_num::V3;
use std::marker::{Model, PhantomData};

/// A function that may be called on every atom near enough, and that answers the rule `R`. Contracts see the function,
/// and the value keeps this fact.
#[derive(Drop)]
pub struct External<F: Callback, R: PullRule> {
    f: F,
    rule: PhantomData<R>,
}

impl<F: Callback, R: PullRule> Model for External<F, R> {
    ghost use Rattle.external_force.specs.Callbacks.{Keeps};

    ghost Value = { F };

    ghost view = { λ e. e.f };

    ghost invariant = { λ e. Keeps F.takes F.answers R.pull e.f };
}

impl<F: Callback, R: PullRule> External<F, R> {
    /// The function, with the rule that it answers.
    pub fn new(f: F) -> External<F, R>
        requires keeps { Keeps F.takes F.answers R.pull f }
        ensures is { result ≡ f }
    {
        External {
            f,
            rule: PhantomData,
        }
    }

    /// The force on an atom, in units of 2^-24: what the function answers.
    pub fn pull(&self, view: &ExternalView) -> V3
        requires near { IsNear view.now }
        ensures is { result ≡ R.pull view.now.id view.now.kind view.now.x }
        ensures small { IsWithin (unsigned_abs MAX_PULL) result }
    {
        self.f.ask(view)
    }
}
