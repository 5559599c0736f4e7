//! Functions that may be asked for a force.
ghost use Rattle.external_force.specs.Callbacks.{Answers, Takes};

use crate::view::ExternalView;

/// A function that may be asked for the force on an atom: every `Fn(&ExternalView) -> [i64; 3]`.
pub trait Callback {
    ghost use Rattle.std.specs.Prelude.{ℤ, List};
    ghost use Rattle.external_force.specs.declared.view.ExternalView.{ExternalView};

    /// It may be asked about such an atom.
    ghost takes: { Self → ExternalView → Type 0 };
    /// Asked about such an atom, it may answer this force.
    ghost answers: { Self → ExternalView → List ℤ → Type 0 };

    /// The force on an atom that it may be asked about, in units of 2^-24.
    fn ask(&self, view: &ExternalView) -> [i64; 3]
        requires { takes self.now view.now }
        ensures { answers self.now view.now result };
}

impl<F: Fn(&ExternalView) -> [i64; 3]> Callback for F {
    ghost takes = { Takes F.Fn };

    ghost answers = { Answers F.Fn };

    fn ask(&self, view: &ExternalView) -> [i64; 3] {
        self(view)
    }
}
