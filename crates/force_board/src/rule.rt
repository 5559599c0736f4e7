//! The rule of the shared words, and what each step tells its caller.
ghost use Rattle.std.specs.Prelude.{ℕ};
ghost use Rattle.weave_core.specs.Parts.{fresh, giving, both};
ghost use Rattle.weave_core.specs.Agree.{Agree};
ghost use Rattle.weave_core.specs.declared.limits.TheConstants.{SHARES};
ghost use Rattle.force_board.specs.Steps.{Adds, Claims, Lowers, Looks, Counts, Collects, Unclaims, Unkeys};

use atomic_table::{Join, Play, Split, TableRule};
use std::marker::{Brand, PhantomData};
use weave_core::Part;

/// The rule: the words and what the seats hold agree. The key is how many pieces and force words there are.
pub(crate) struct Law;

impl TableRule<u8, Part, (u32, u32)> for Law {
    ghost holds = { λ key s. Agree key.0 key.1 s.words s.views };

    ghost first = { λ _. fresh SHARES };
}

/// A number that a call picks for its step.
pub(crate) trait Number {
    ghost number: { ℕ };
}

impl Number for Brand {
    ghost number = { 0 };
}

/// A claim, on a board of so many pieces.
pub(crate) struct Claim<N> {
    of: PhantomData<N>,
}

impl<N: Number> Play<u8, Part> for Claim<N> {
    ghost then = { Claims N.number };
}

/// A look, on a board of so many pieces.
pub(crate) struct Look<N> {
    of: PhantomData<N>,
}

impl<N: Number> Play<u8, Part> for Look<N> {
    ghost then = { Looks N.number };
}

/// The claims are counted, by the holder of all shares.
pub(crate) struct Count;

impl Play<u8, Part> for Count {
    ghost then = { Counts };
}

/// An add to a force word.
pub(crate) struct Add;

impl Play<u8, Part> for Add {
    ghost then = { Adds };
}

/// A lowering of the fault word.
pub(crate) struct Lower;

impl Play<u8, Part> for Lower {
    ghost then = { Lowers };
}

/// A force word is read and set to 0, by the holder of all shares.
pub(crate) struct Collect;

impl Play<u8, Part> for Collect {
    ghost then = { Collects };
}

/// The claims are forgotten, by the holder of all shares.
pub(crate) struct Unclaim;

impl Play<u8, Part> for Unclaim {
    ghost then = { Unclaims };
}

/// The fault word is read and emptied, by the holder of all shares.
pub(crate) struct Unkey;

impl Play<u8, Part> for Unkey {
    ghost then = { Unkeys };
}

/// So many shares are given to a new seat.
pub(crate) struct Cut<N> {
    of: PhantomData<N>,
}

impl<N: Number> Split<Part> for Cut<N> {
    ghost left = { giving N.number };

    ghost right = { λ _. fresh N.number };
}

/// Two seats become one.
pub(crate) struct Both;

impl Join<Part> for Both {
    ghost both = { both };

    ghost spent = { fresh 0 };
}
