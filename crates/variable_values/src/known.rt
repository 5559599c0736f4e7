//! The numbers that formulas know by keyword.
ghost use Rattle.std.specs.Prelude.{◌≡◌, ◌^◌, [], ◌*ℤ◌, pos};
ghost use Rattle.formula.specs.Asked.{kept};
ghost use Rattle.variable_values.specs.Known.{numbers_of};
ghost use Rattle.variable_values.specs.Values.{in_units, is_whole, number_under, of_state};

use fx_num::{Numbers, UNIT};

/// The numbers that the keywords of a formula stand for.
#[derive(Clone, Copy)]
pub struct Known<'a> {
    /// Those of the state: keywords of a run, and `c_ID` of computes.
    state: &'a Numbers,
    /// Those of one atom, where an atom variable is asked for its value.
    atom: Option<&'a Numbers>,
}

/// The greatest magnitude of a whole number that is in range.
const MAX_WHOLE: u128 = 1 << 38;

/// What stands for a number that is out of range.
const BEYOND: i128 = (1 << 62) + 1;

impl<'a> Known<'a> {
    /// The numbers of the state alone, where no atom is asked about.
    pub fn of_state(state: &'a Numbers) -> Known<'a>
        ensures { numbers_of result ≡ record { state = state.now; atom = [] } }
    {
        Known { state, atom: None }
    }

    /// The numbers of the state, and those of one atom: `id`, `type`, `mass`, `x`, `y`, `z`, `vx`, `vy`, `vz`.
    pub fn of_atom(state: &'a Numbers, atom: &'a Numbers) -> Known<'a>
        ensures { numbers_of result ≡ record { state = state.now; atom = atom.now } }
    {
        Known {
            state,
            atom: Some(atom),
        }
    }

    /// What the formula of an equal variable knows of this.
    pub(crate) fn without_atom(&self) -> Known<'a>
        ensures { numbers_of result ≡ of_state (numbers_of self.now).state }
    {
        Known::of_state(self.state)
    }

    /// The number under a keyword: whole for `step`, `atoms`, `id` and `type`, otherwise in units.
    pub(crate) fn number(&self, keyword: &[u8]) -> Option<i128>
        ensures { result ≡ number_under (numbers_of self.now) keyword.now }
    {
        match self.state.value_of(keyword) {
            Some(number) => Some(number),
            None => match self.atom {
                Some(atom) => atom.value_of(keyword),
                None => None,
            },
        }
    }
}

/// Whether a keyword stands for a whole number.
fn is_whole(keyword: &[u8]) -> bool
    ensures { result ≡ is_whole keyword.now }
{
    match keyword {
        b"step" | b"atoms" | b"id" | b"type" => true,
        _ => false,
    }
}

/// A number in units; one that is out of range stays out of range.
fn kept(units: i128) -> i128
    ensures { result ≡ kept units }
{
    if units.unsigned_abs() <= 1 << 62 {
        units
    } else {
        BEYOND
    }
}

/// A whole number in units; one that is out of range stays out of range.
fn whole_units(number: i128) -> i128
    ensures { result ≡ kept (number *ℤ pos (2 ^ 24)) }
{
    if number.unsigned_abs() <= MAX_WHOLE {
        number * i128::from(UNIT)
    } else {
        BEYOND
    }
}

/// The number under a keyword in units; one that is out of range stays out of range.
pub(crate) fn in_units(keyword: &[u8], number: i128) -> i128
    ensures { result ≡ kept (in_units keyword.now number) }
{
    if is_whole(keyword) {
        whole_units(number)
    } else {
        kept(number)
    }
}
