//! Pairs: `pair_style`, `pair_coeff`, `pair_modify`.
ghost use Rattle.std.specs.Prelude.{◌≡◌, ◌≤ℤ◌, pos, IfOk};
ghost use Rattle.command_words.specs.Pairs.{coefficients, cutoff, is_short, make, mix, pair_coeff, pair_coeff_cut, pair_modify, pair_style, places};

use crate::command::Command;
use crate::options::Options;
use crate::places::{Kind, Place};
use crate::ranges::KindRange;
use crate::refusal::WordRefusal;
use crate::values::{kinds, number, says};
use crate::vocabulary::Word;
use box_geo::Mix;
use box_geo::limits::{MAX_CUTOFF, MAX_EPSILON, MAX_SIGMA};
use fx_num::Text;

/// What `pair_coeff` sets.
#[derive(Drop)]
pub struct PairCoeff {
    /// The types of one atom.
    pub first: KindRange,
    /// Those of the other.
    pub second: KindRange,
    /// The energy.
    pub epsilon: i64,
    /// The size.
    pub sigma: i64,
    /// The cutoff, or `None` for that of the style.
    pub cutoff: Option<i64>,
}

/// What `pair_modify` changes.
#[derive(Drop)]
pub struct PairChange {
    /// Whether the energy is shifted to 0 at the cutoff, if it is said.
    pub shift: Option<bool>,
    /// How pairs are mixed, if it is said.
    pub mix: Option<Mix>,
}

/// The forms of these commands.
#[derive(Clone, Copy)]
pub(crate) enum PairsForm {
    PairStyle,
    PairCoeff,
    PairCoeffCut,
    PairModify,
}

const PAIR_STYLE: &[Place] = &[
    Place::One(Kind::Fixed(Word::PairStyle)),
    Place::One(Kind::Fixed(Word::LjCut)),
    Place::One(Kind::Number),
];

const PAIR_COEFF: &[Place] = &[
    Place::One(Kind::Fixed(Word::PairCoeff)),
    Place::One(Kind::Kinds),
    Place::One(Kind::Kinds),
    Place::One(Kind::Number),
    Place::One(Kind::Number),
];

const PAIR_COEFF_CUT: &[Place] = &[
    Place::One(Kind::Fixed(Word::PairCoeff)),
    Place::One(Kind::Kinds),
    Place::One(Kind::Kinds),
    Place::One(Kind::Number),
    Place::One(Kind::Number),
    Place::One(Kind::Number),
];

const PAIR_MODIFY: &[Place] = &[
    Place::One(Kind::Fixed(Word::PairModify)),
    Place::SomeOptions(Options::Pair),
];

/// The places of a form.
pub(crate) fn places(form: PairsForm) -> &'static [Place]
    ensures { result.now ≡ places form }
{
    match form {
        PairsForm::PairStyle => PAIR_STYLE,
        PairsForm::PairCoeff => PAIR_COEFF,
        PairsForm::PairCoeffCut => PAIR_COEFF_CUT,
        PairsForm::PairModify => PAIR_MODIFY,
    }
}

/// A cutoff.
fn cutoff(words: &[Text], place: usize) -> Result<i64, WordRefusal>
    ensures is { result ≡ cutoff place words.now }
    ensures low { IfOk result (λ v. pos 1 ≤ℤ v) }
    ensures high { IfOk result (λ v. v ≤ℤ MAX_CUTOFF) }
{
    number(words, place, 1, MAX_CUTOFF)
}

/// `pair_style`.
fn pair_style(words: &[Text]) -> Result<Command, WordRefusal>
    ensures { result ≡ pair_style words.now }
{
    let cutoff = cutoff(words, 2)?;
    Ok(Command::PairStyle(cutoff))
}

/// `pair_coeff` with the cutoff of the style.
fn coefficients(words: &[Text]) -> Result<PairCoeff, WordRefusal>
    ensures { result ≡ coefficients words.now }
{
    let first = kinds(words, 1)?;
    let second = kinds(words, 2)?;
    let epsilon = number(words, 3, 0, MAX_EPSILON)?;
    let sigma = number(words, 4, 1, MAX_SIGMA)?;
    Ok(PairCoeff {
        first,
        second,
        epsilon,
        sigma,
        cutoff: None,
    })
}

/// `pair_coeff` with the cutoff of the style.
fn pair_coeff(words: &[Text]) -> Result<Command, WordRefusal>
    ensures { result ≡ pair_coeff words.now }
{
    let coefficients = coefficients(words)?;
    Ok(Command::PairCoeff(coefficients))
}

/// Whether four cutoffs are below a size.
fn is_short(cutoff: i64, sigma: i64) -> bool
    requires low { pos 1 ≤ℤ cutoff }
    requires high { cutoff ≤ℤ MAX_CUTOFF }
    ensures { result ≡ is_short cutoff sigma }
{
    4 * cutoff < sigma
}

/// `pair_coeff` with a cutoff of its own, four of which are at least the size.
fn pair_coeff_cut(words: &[Text]) -> Result<Command, WordRefusal>
    ensures { result ≡ pair_coeff_cut words.now }
{
    let coefficients = coefficients(words)?;
    let cutoff = cutoff(words, 5)?;
    if is_short(cutoff, coefficients.sigma) {
        return Err(WordRefusal::BadValue(5));
    }
    Ok(Command::PairCoeff(PairCoeff {
        first: coefficients.first,
        second: coefficients.second,
        epsilon: coefficients.epsilon,
        sigma: coefficients.sigma,
        cutoff: Some(cutoff),
    }))
}

/// How pairs are mixed, if `pair_modify` says it.
fn mix(words: &[Text]) -> Option<Mix>
    ensures { result ≡ mix words.now }
{
    match says(words, 1, Word::Mix, Word::Arithmetic) {
        Some(true) => Some(Mix::Arithmetic),
        Some(false) => Some(Mix::Geometric),
        None => None,
    }
}

/// `pair_modify`.
fn pair_modify(words: &[Text]) -> Command
    ensures { result ≡ pair_modify words.now }
{
    Command::PairModify(PairChange {
        shift: says(words, 1, Word::Shift, Word::Yes),
        mix: mix(words),
    })
}

/// The command of the words of a form.
pub(crate) fn make(form: PairsForm, words: &[Text]) -> Result<Command, WordRefusal>
    ensures { result ≡ make form words.now }
{
    match form {
        PairsForm::PairStyle => pair_style(words),
        PairsForm::PairCoeff => pair_coeff(words),
        PairsForm::PairCoeffCut => pair_coeff_cut(words),
        PairsForm::PairModify => Ok(pair_modify(words)),
    }
}
