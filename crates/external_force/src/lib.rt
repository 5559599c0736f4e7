//! External forces: a function that the caller hands in is asked for the force on an atom, and answers a rule.
//!
//! A [`PullRule`] is what is meant: a force for each id, type and position. An [`External`] is a function together with
//! the fact that it may be called and answers its rule, which the value keeps wherever it goes. [`Trap`] is the rule of
//! the program.
//!
//! An `External` is named only where `Callback` is a bound. So who has a closure hands it to a function that is generic
//! over `F: Fn(&ExternalView) -> [i64; 3] + Callback` and `R: PullRule`, that requires
//! `Keeps F.Callback.takes F.Callback.answers R.pull f`, and that makes the value by `External::<F, R>::new(f)`. The
//! closure says `requires { IsNear view.now }` and `ensures { result ≡ back view.now.x }`, and calls [`trap_force`].
#![tactic(auto)]

mod callback;
mod external;
mod rule;
mod trap;
mod view;

pub use callback::Callback;
pub use external::External;
pub use rule::{MAX_PULL, PullRule, pull_limit_is_this_number};
pub use trap::{Trap, trap_force};
pub use view::ExternalView;
